ghost use Rattle.std.specs.Prelude.{◌≡◌};
ghost use Rattle.dav_core.specs.Writing.{reading};

use crate::{FileTime, Kind};
use thiserror::Error;

/// Names an open file of a disk.
#[derive(Clone, Copy, Debug, PartialEq, Eq)]
pub struct Handle(pub u32);

/// Names an open listing of a disk.
#[derive(Clone, Copy, Debug, PartialEq, Eq)]
pub struct Lister(pub u32);

/// What a disk says of what stands at a path, or of an open file. A length is in bytes; an unknown time is None.
#[derive(Clone, Copy, Debug)]
pub struct Meta {
    pub kind: Kind,
    /// Names the file or directory for as long as it stands, whatever its path.
    pub number: u64,
    pub len: u64,
    pub modified: Option<FileTime>,
    pub created: Option<FileTime>,
    pub accessed: Option<FileTime>,
    pub changed: Option<FileTime>,
    /// Whether its owner may run it.
    pub exec: bool,
}

/// How a file is opened.
#[derive(Clone, Copy, Debug, PartialEq, Eq)]
pub struct OpenOptions {
    pub read: bool,
    pub write: bool,
    pub append: bool,
    pub truncate: bool,
    pub create: bool,
    pub create_new: bool,
}

impl OpenOptions {
    /// For reading alone.
    pub fn read() -> Self
        ensures { result ≡ reading }
    {
        OpenOptions {
            read: true,
            write: false,
            append: false,
            truncate: false,
            create: false,
            create_new: false,
        }
    }
}

/// What a disk refuses a call with. `Failed` comes only where its count of faults rose in that call.
#[derive(Clone, Copy, Debug, PartialEq, Eq, Error)]
pub enum DiskError {
    #[error("nothing stands there")]
    NotFound,
    #[error("something stands there")]
    Exists,
    #[error("not a directory")]
    NotDir,
    #[error("a directory")]
    IsDir,
    #[error("a directory with members")]
    NotEmpty,
    #[error("the disk failed")]
    Failed,
    #[error("out of memory")]
    NoMemory,
}
