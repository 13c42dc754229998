ghost use Rattle.std.specs.Prelude.{◌≡◌, false};
ghost use Rattle.dav_store.specs.Void.{empty_in_years, empty_info, empty_time as the_empty_time};

use dav_core::{DavMetaData, DavPath, FileTime, FsError};
use dav_io::{FieldValue, NoMemory, Text};
use std::alloc::Global;

/// An empty file that was made and changed 959,652,000 seconds after 1970. Nothing else is known of it: it has no
/// entity tag, and lies in no calendar and no address book.
#[derive(Clone, Copy, Debug)]
pub struct EmptyMetaData;

// The time at which it was made.
fn empty_time() -> FileTime
    ensures { result ≡ the_empty_time }
{
    FileTime {
        secs: 959_652_000,
        nanos: 0,
    }
}

impl DavMetaData for EmptyMetaData {
    ghost info = { λ _. empty_info };

    ghost calendar = { λ _ _. false };

    ghost addressbook = { λ _ _. false };

    fn len(&self) -> u64 {
        0
    }

    fn modified(&self) -> Result<FileTime, FsError> {
        Ok(empty_time())
    }

    fn created(&self) -> Result<FileTime, FsError> {
        Ok(empty_time())
    }

    fn accessed(&self) -> Result<FileTime, FsError> {
        Err(FsError::NotImplemented)
    }

    fn status_changed(&self) -> Result<FileTime, FsError> {
        Err(FsError::NotImplemented)
    }

    fn is_dir(&self) -> bool {
        false
    }

    fn is_file(&self) -> bool {
        true
    }

    fn is_symlink(&self) -> bool {
        false
    }

    fn is_calendar(&self, _path: &DavPath) -> bool {
        false
    }

    fn is_addressbook(&self, _path: &DavPath) -> bool {
        false
    }

    fn executable(&self) -> Result<bool, FsError> {
        Err(FsError::NotImplemented)
    }

    fn etag(&self, _alloc: Global) -> Result<Option<Text>, NoMemory> {
        Ok(None)
    }

    fn tag_value(&self, _alloc: Global) -> Result<Option<FieldValue>, NoMemory> {
        Ok(None)
    }

    fn has_tag(&self, _tag: &[u8]) -> bool {
        false
    }

    ghost in_years = { λ m. empty_in_years };

    ghost tag_bytes = { λ m. tt };
}
