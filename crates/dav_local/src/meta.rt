ghost use Rattle.std.specs.Prelude.{◌≡◌, codes};
ghost use Rattle.dav_store.specs.Standing.{info_in};
ghost use Rattle.dav_local.specs.Files.{looked_as as the_looked_as, done_by, local_info, said_by};
ghost use Rattle.dav_local.specs.Metadata.{in_years, lies_in, tag_bytes};

use dav_core::{DavMetaData, DavPath, DiskError, FileTime, FsError, Kind, Meta};
use dav_io::{FieldValue, NoMemory, Text};
use dav_store::EmptyMetaData;
use std::alloc::Global;

/// What is said of what stands at a path, or of an open file.
#[derive(Clone, Copy, Debug)]
pub enum LocalFsMetaData {
    /// What the disk says of it.
    Found(Meta),
    /// It is one of the two files that clients of macOS look for in the root: an empty file, of which the disk isn't
    /// asked.
    Empty,
}

// What a disk's answer says.
pub fn said(answer: Result<Meta, DiskError>) -> Result<LocalFsMetaData, FsError>
    ensures { result ≡ said_by answer }
{
    match answer {
        Ok(meta) => Ok(LocalFsMetaData::Found(meta)),
        Err(error) => Err(error.into()),
    }
}

// What a disk's answer says at a path, with a slash at its end that is looked at or without.
pub fn looked_as(slash: bool, answer: Result<Meta, DiskError>) -> Result<LocalFsMetaData, FsError>
    ensures { info_in local_info result ≡ the_looked_as slash answer }
{
    match answer {
        Ok(meta) if slash && meta.kind != Kind::Dir => Err(FsError::Forbidden),
        answer => said(answer),
    }
}

// What a disk answers of a call that changes what stands.
pub fn done(answer: Result<(), DiskError>) -> Result<(), FsError>
    ensures { result ≡ done_by answer }
{
    match answer {
        Ok(()) => Ok(()),
        Err(error) => Err(error.into()),
    }
}

impl DavMetaData for LocalFsMetaData {
    ghost info = { local_info };

    ghost calendar = { λ m names. lies_in (codes "calendars") m names };

    ghost addressbook = { λ m names. lies_in (codes "addressbooks") m names };

    fn len(&self) -> u64 {
        match self {
            LocalFsMetaData::Found(meta) => DavMetaData::len(meta),
            LocalFsMetaData::Empty => DavMetaData::len(&EmptyMetaData),
        }
    }

    fn modified(&self) -> Result<FileTime, FsError> {
        match self {
            LocalFsMetaData::Found(meta) => DavMetaData::modified(meta),
            LocalFsMetaData::Empty => DavMetaData::modified(&EmptyMetaData),
        }
    }

    fn created(&self) -> Result<FileTime, FsError> {
        match self {
            LocalFsMetaData::Found(meta) => DavMetaData::created(meta),
            LocalFsMetaData::Empty => DavMetaData::created(&EmptyMetaData),
        }
    }

    fn accessed(&self) -> Result<FileTime, FsError> {
        match self {
            LocalFsMetaData::Found(meta) => DavMetaData::accessed(meta),
            LocalFsMetaData::Empty => DavMetaData::accessed(&EmptyMetaData),
        }
    }

    fn status_changed(&self) -> Result<FileTime, FsError> {
        match self {
            LocalFsMetaData::Found(meta) => DavMetaData::status_changed(meta),
            LocalFsMetaData::Empty => DavMetaData::status_changed(&EmptyMetaData),
        }
    }

    fn is_dir(&self) -> bool {
        match self {
            LocalFsMetaData::Found(meta) => DavMetaData::is_dir(meta),
            LocalFsMetaData::Empty => DavMetaData::is_dir(&EmptyMetaData),
        }
    }

    fn is_file(&self) -> bool {
        match self {
            LocalFsMetaData::Found(meta) => DavMetaData::is_file(meta),
            LocalFsMetaData::Empty => DavMetaData::is_file(&EmptyMetaData),
        }
    }

    fn is_symlink(&self) -> bool {
        match self {
            LocalFsMetaData::Found(meta) => DavMetaData::is_symlink(meta),
            LocalFsMetaData::Empty => DavMetaData::is_symlink(&EmptyMetaData),
        }
    }

    fn is_calendar(&self, path: &DavPath) -> bool {
        match self {
            LocalFsMetaData::Found(meta) => DavMetaData::is_calendar(meta, path),
            LocalFsMetaData::Empty => DavMetaData::is_calendar(&EmptyMetaData, path),
        }
    }

    fn is_addressbook(&self, path: &DavPath) -> bool {
        match self {
            LocalFsMetaData::Found(meta) => DavMetaData::is_addressbook(meta, path),
            LocalFsMetaData::Empty => DavMetaData::is_addressbook(&EmptyMetaData, path),
        }
    }

    fn executable(&self) -> Result<bool, FsError> {
        match self {
            LocalFsMetaData::Found(meta) => DavMetaData::executable(meta),
            LocalFsMetaData::Empty => DavMetaData::executable(&EmptyMetaData),
        }
    }

    fn etag(&self, alloc: Global) -> Result<Option<Text>, NoMemory> {
        match self {
            LocalFsMetaData::Found(meta) => DavMetaData::etag(meta, alloc),
            LocalFsMetaData::Empty => DavMetaData::etag(&EmptyMetaData, alloc),
        }
    }

    fn tag_value(&self, alloc: Global) -> Result<Option<FieldValue>, NoMemory> {
        match self {
            LocalFsMetaData::Found(meta) => DavMetaData::tag_value(meta, alloc),
            LocalFsMetaData::Empty => DavMetaData::tag_value(&EmptyMetaData, alloc),
        }
    }

    fn has_tag(&self, tag: &[u8]) -> bool {
        match self {
            LocalFsMetaData::Found(meta) => DavMetaData::has_tag(meta, tag),
            LocalFsMetaData::Empty => DavMetaData::has_tag(&EmptyMetaData, tag),
        }
    }

    ghost in_years = { in_years };

    ghost tag_bytes = { tag_bytes };
}
