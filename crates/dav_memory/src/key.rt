ghost use Rattle.std.specs.Prelude.{◌≡◌, IfOk};
ghost use Rattle.dav_memory.specs.Entries.{dir_key as the_dir_key, name_key as the_name_key};

use dav_core::{FileTime, FsPath};
use dav_io::{Moment, NoMemory, Text};

/// What an entry of the dot-underscore cache is about: a name in a directory, or where there is no name the directory
/// itself.
#[derive(PartialEq, Eq, Hash, Drop)]
pub struct DuKey {
    pub dir: FsPath,
    pub name: Option<Text>,
}

/// An entry of the dot-underscore cache: when it was put, the directory's time, and the number of the listing that it
/// comes from. A directory's entry also has the count of the names of that listing.
#[derive(Clone, Copy)]
pub struct DuEntry {
    pub moment: Moment,
    pub time: FileTime,
    pub number: u64,
    pub count: Option<u64>,
}

/// The key of a directory.
pub fn dir_key(dir: &FsPath) -> Result<DuKey, NoMemory>
    ensures { IfOk result (λ key. key ≡ the_dir_key dir.now) }
{
    Ok(DuKey {
        dir: dir.try_clone()?,
        name: None,
    })
}

/// The key of a name in a directory.
pub fn name_key(dir: &FsPath, name: &Text) -> Result<DuKey, NoMemory>
    ensures { IfOk result (λ key. key ≡ the_name_key dir.now name.now) }
{
    Ok(DuKey {
        dir: dir.try_clone()?,
        name: Some(name.try_clone()?),
    })
}

/// A copy of a name, where there is one.
pub fn copy_name(name: &Option<Text>) -> Result<Option<Text>, NoMemory>
    ensures { IfOk result (λ copy. copy ≡ name.now) }
{
    match name {
        Some(name) => Ok(Some(name.try_clone()?)),
        None => Ok(None),
    }
}
