// The steps of a walk by folding, over any disk: at each directory the name is taken as it stands, or the entry that
// folds alike. Of a listing one name at a time is in memory.
ghost use Rattle.std.specs.Prelude.{◌≡◌, ◌++◌, Err, IfOk, IsSome, OnErr, OnOk, true};
ghost use Rattle.std.specs.Option.{unwrap_or};
ghost use Rattle.dav_core.specs.Path.{all_plain, is_plain, parent_of};
ghost use Rattle.dav_model.specs.Folds as folds;
ghost use Rattle.dav_local.specs.FromRoot.{StepsFew};
ghost use Rattle.dav_local.specs.Near.{ReadsFew, SearchesFew};
ghost use Rattle.dav_local.specs.Walking.{Searches, SearchesIn, Steps};

use crate::ground::Ground;
use crate::lists::{begin_list, end_list, look, next_name};
use dav_core::{Disk, DiskError, FsError, FsPath, Lister};
use dav_io::{NoMemory, Text};
use dav_memory::fold_text;
use std::alloc::Global;

// The folding of a name.
#[tactic(auto, unfolding(dav_memory::specs::Trees::fold_name))]
fn folded(alloc: Global, name: &Text) -> Result<Text, NoMemory>
    ensures { IfOk result (λ text. text ≡ folds.fold_name name.now) }
{
    fold_text(alloc, name)
}

// Reads on in a listing up to a name with this folding.
fn search<D: Disk>(
    alloc: Global,
    disk: &mut D,
    lister: Lister,
    folding: &Text,
) -> Result<Option<Text>, FsError>
    requires { IsSome ((D.state disk.old).listers lister.0) }
    ensures done { Searches (D.state disk.old) lister.0 folding.now result (D.state disk.new) }
    ensures few { ReadsFew (D.state disk.old) lister.0 (D.state disk.new) }
    ensures loan { D.loan disk.new ≡ D.loan disk.old }
{
    loop {
        let name = match next_name(alloc, disk, lister) {
            Ok(Some(name)) => name,
            Ok(None) => return Ok(None),
            Err(error) => return Err(error.into()),
        };
        let Ok(other) = folded(alloc, &name) else {
            return Err(FsError::NoMemory);
        };
        if other == *folding {
            return Ok(Some(name));
        }
    }
}

// The name with this folding in the directory at a path, which is listed. None where it has none, and where no
// directory stands there.
fn list_in<D: Disk>(disk: &mut D, at: &FsPath, folding: &Text) -> Result<Option<Text>, FsError>
    ensures done { SearchesIn (D.state disk.old) at.now folding.now result (D.state disk.new) }
    ensures few { SearchesFew (D.state disk.old) at.now (D.state disk.new) }
    ensures loan { D.loan disk.new ≡ D.loan disk.old }
{
    let lister = match begin_list(disk, at) {
        Ok(lister) => lister,
        Err(DiskError::NotFound) => return Ok(None),
        Err(DiskError::NotDir) => return Ok(None),
        Err(error) => return Err(error.into()),
    };
    let found = search(at.allocator(), disk, lister, folding);
    end_list(disk, lister);
    found
}

// The same, which isn't listed where it is known that it has none.
fn search_in<D: Disk>(
    disk: &mut Ground<D>,
    at: &FsPath,
    folding: &Text,
) -> Result<Option<Text>, FsError>
    ensures done { SearchesIn (D.state disk.old) at.now folding.now result (D.state disk.new) }
    ensures few { SearchesFew (D.state disk.old) at.now (D.state disk.new) }
    ensures loan { D.loan disk.new ≡ D.loan disk.old }
{
    if disk.lacks(at, folding) {
        return Ok(None);
    }
    match list_in(disk, at, folding) {
        Ok(None) => {
            disk.note(at, folding);
            Ok(None)
        }
        found => found,
    }
}

// The path of the name in a directory that folds like this one.
pub fn alike<D: Disk>(
    disk: &mut Ground<D>,
    at: &FsPath,
    name: &Text,
) -> Result<Option<FsPath>, FsError>
    ensures done { Steps (D.state disk.old) at.now name.now result (D.state disk.new) }
    ensures few { SearchesFew (D.state disk.old) at.now (D.state disk.new) }
    ensures loan { D.loan disk.new ≡ D.loan disk.old }
{
    let Ok(folding) = folded(at.allocator(), name) else {
        return Err(FsError::NoMemory);
    };
    match search_in(disk, at, &folding) {
        Ok(Some(other)) => match at.child(other.as_str()) {
            Ok(path) => Ok(Some(path)),
            Err(NoMemory) => Err(FsError::NoMemory),
        },
        Ok(None) => Ok(None),
        Err(error) => Err(error),
    }
}

// The path of a name in a directory: as it stands, or of the one that folds alike.
pub fn step<D: Disk>(
    disk: &mut Ground<D>,
    at: &FsPath,
    name: &Text,
) -> Result<Option<FsPath>, FsError>
    requires { is_plain name.now ≡ true }
    ensures done { Steps (D.state disk.old) at.now name.now result (D.state disk.new) }
    ensures few { StepsFew (D.state disk.old) at.now (D.state disk.new) }
    ensures loan { D.loan disk.new ≡ D.loan disk.old }
{
    let Ok(path) = at.child(name.as_str()) else {
        return Err(FsError::NoMemory);
    };
    match look(disk, &path) {
        Ok(_) => Ok(Some(path)),
        Err(DiskError::Failed) => Err(FsError::GeneralFailure),
        Err(_) => alike(disk, at, name),
    }
}

// Copies names behind others.
fn append(names: &mut Vec<Text>, more: &[Text]) -> Result<(), NoMemory>
    ensures { OnOk result (names.new.items ≡ names.old.items ++ more.now) }
{
    for name in more {
        names.push(name.try_clone()?)?;
    }
    Ok(())
}

// The path of these names below another.
pub fn below(at: &FsPath, rest: &[Text]) -> Result<FsPath, FsError>
    requires { all_plain rest.now ≡ true }
    ensures ok { IfOk result (λ path. path ≡ at.now ++ rest.now) }
    ensures err { OnErr result (result ≡ Err FsError.NoMemory) }
{
    let mut names = Vec::new(at.allocator());
    let Ok(()) = append(&mut names, at.as_slice()) else {
        return Err(FsError::NoMemory);
    };
    let Ok(()) = append(&mut names, rest) else {
        return Err(FsError::NoMemory);
    };
    Ok(FsPath::new(names))
}

// A copy of a path.
pub fn copied(path: &FsPath) -> Result<FsPath, FsError>
    ensures ok { IfOk result (λ copy. copy ≡ path.now) }
    ensures err { OnErr result (result ≡ Err FsError.NoMemory) }
{
    match path.try_clone() {
        Ok(copy) => Ok(copy),
        Err(NoMemory) => Err(FsError::NoMemory),
    }
}

// Where a path is found: at the place that was told, or else as it is asked.
pub fn at_or<'a>(found: &'a Option<FsPath>, path: &'a FsPath) -> &'a FsPath
    ensures { result.now ≡ unwrap_or found.now path.now }
{
    match found {
        Some(at) => at,
        None => path,
    }
}

// The path without its last name.
pub fn parent(path: &FsPath) -> Result<FsPath, NoMemory>
    ensures { IfOk result (λ dir. dir ≡ parent_of path.now) }
{
    let names = path.as_slice();
    let mut kept = Vec::new(path.allocator());
    append(&mut kept, &names[..names.len().saturating_sub(1)])?;
    Ok(FsPath::new(kept))
}
