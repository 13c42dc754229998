ghost use Rattle.std.specs.Prelude.{◌≡◌, true};
ghost use Rattle.dav_core.specs.Path.{is_plain};

use crate::LocalFsMetaData;
use crate::meta::said;
use dav_core::{Disk, FsError, FsPath};
use dav_io::Text;
use dav_store::DavDirEntry;

/// What is known of the metadata of an entry: what the listing read, or why it couldn't; or the path at which the disk
/// is to be asked.
#[derive(Drop)]
pub enum EntryMeta {
    Read(Result<LocalFsMetaData, FsError>),
    At(FsPath),
}

/// An entry of a listing: its name, which is plain, and what is known of its metadata.
#[derive(Drop)]
pub struct LocalFsDirEntry {
    name: Text,
    meta: EntryMeta,
    ghost plain: { is_plain name ≡ true },
}

impl LocalFsDirEntry {
    /// An entry of this name, which must be plain, with what is known of its metadata.
    pub fn new(name: Text, meta: EntryMeta) -> Self
        requires { is_plain name ≡ true }
        ensures name { result.name ≡ name }
        ensures meta { result.meta ≡ meta }
    {
        LocalFsDirEntry { name, meta }
    }

    // Its name.
    pub(crate) fn text(&self) -> &str
        ensures { result.now ≡ self.now.name }
    {
        self.name.as_str()
    }
}

impl<D: Disk> DavDirEntry<D> for LocalFsDirEntry {
    ghost use Rattle.dav_local.specs.Entries.{Says};

    type Meta = LocalFsMetaData;

    ghost called = { λ e. e.name };

    ghost says = { λ e s result t. Says e.meta s result t };

    fn name(&self) -> &str {
        self.text()
    }

    fn metadata(&self, disk: &mut D) -> Result<LocalFsMetaData, FsError> {
        match &self.meta {
            EntryMeta::Read(answer) => *answer,
            EntryMeta::At(path) => said(disk.meta(path)),
        }
    }
}
