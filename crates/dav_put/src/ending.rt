//! How the program ends.
ghost use Rattle.std.specs.Prelude.{◌≡◌};
ghost use Rattle.dav_put.specs.Ending.{ending_by, ending_of, exit_of};

use dav_core::{DavError, FsError, ParseError};
use dav_upload::UploadError;

/// How the program ends.
#[derive(Debug, Drop)]
pub enum Ending {
    /// All was done.
    Done,
    /// It was refused, with this status of HTTP.
    Refused(u16),
    /// The hidden names that were tried stand already.
    Busy,
    /// The words aren't understood.
    Words,
    /// The root that they name is no folder.
    NoFolder,
    /// The source failed.
    SourceFailed,
    /// The disk failed.
    DiskFailed,
    /// Memory was refused.
    NoMemory,
}

impl Ending {
    /// The status of the program: 0 where all was done, 1 where it was refused, 2 where the words aren't understood, 3
    /// where the source failed, 5 where the disk did, 8 where the root is no folder, and 101 for want of memory.
    pub fn status(&self) -> u8
        ensures { result ≡ exit_of self.now }
    {
        match *self {
            Ending::Done => 0,
            Ending::Refused(_) | Ending::Busy => 1,
            Ending::Words => 2,
            Ending::SourceFailed => 3,
            Ending::DiskFailed => 5,
            Ending::NoFolder => 8,
            Ending::NoMemory => 101,
        }
    }
}

// How the program ends where a PUT would be refused so.
fn refused_as(error: DavError) -> Ending
    ensures { result ≡ ending_by error }
{
    match error {
        DavError::NoMemory
        | DavError::Path(ParseError::NoMemory)
        | DavError::Fs(FsError::NoMemory) => Ending::NoMemory,
        DavError::Fs(FsError::GeneralFailure) => Ending::DiskFailed,
        _ => Ending::Refused(error.statuscode().as_u16()),
    }
}

// How it ends where an upload was refused.
pub fn ended_by(error: UploadError) -> Ending
    ensures { result ≡ ending_of error }
{
    match error {
        UploadError::Dav(error) => refused_as(error),
        UploadError::Busy { name: _name } => Ending::Busy,
        UploadError::Hidden => Ending::Refused(403),
        UploadError::NoMemory => Ending::NoMemory,
    }
}
