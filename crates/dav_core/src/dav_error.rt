ghost use Rattle.std.specs.Prelude.{◌≡◌, false};
ghost use Rattle.dav_core.specs.Statuses.{closes, fs_lacks_memory, fs_status as the_fs_status, lacks_memory, of_fs, of_path, path_lacks_memory, path_status as the_path_status, status_of};

use crate::{FsError, ParseError};
use dav_io::NoMemory;
use http::StatusCode;
use thiserror::Error;

/// What a request is refused with.
#[derive(Clone, Copy, Debug, PartialEq, Eq, Error)]
pub enum DavError {
    #[error("refused")]
    Status(StatusCode),
    /// The connection ends with the answer.
    #[error("refused, and the connection ends")]
    StatusClose(StatusCode),
    #[error("the path is refused")]
    Path(ParseError),
    #[error("the store refused")]
    Fs(FsError),
    /// The reader of a request's body failed.
    #[error("the body can't be read")]
    Body,
    #[error("unknown method")]
    UnknownDavMethod,
    #[error("out of memory")]
    NoMemory,
}

// The status of a path's fault.
fn path_status(fault: ParseError) -> StatusCode
    requires { path_lacks_memory fault ≡ false }
    ensures { result ≡ the_path_status fault }
{
    match fault {
        ParseError::InvalidPath => StatusCode::BAD_REQUEST,
        ParseError::ForbiddenPath => StatusCode::FORBIDDEN,
        ParseError::PrefixMismatch | ParseError::NotText => StatusCode::NOT_FOUND,
        ParseError::NoMemory => unreachable!("want of memory has no status"),
    }
}

// The status of a store's refusal.
fn fs_status(fault: FsError) -> StatusCode
    requires { fs_lacks_memory fault ≡ false }
    ensures { result ≡ the_fs_status fault }
{
    match fault {
        FsError::NotFound => StatusCode::NOT_FOUND,
        FsError::Forbidden => StatusCode::FORBIDDEN,
        FsError::Exists => StatusCode::METHOD_NOT_ALLOWED,
        FsError::GeneralFailure => StatusCode::INTERNAL_SERVER_ERROR,
        FsError::NotImplemented => StatusCode::NOT_IMPLEMENTED,
        FsError::InsufficientStorage => StatusCode::INSUFFICIENT_STORAGE,
        FsError::LoopDetected => StatusCode::LOOP_DETECTED,
        FsError::PathTooLong => StatusCode::URI_TOO_LONG,
        FsError::TooLarge => StatusCode::PAYLOAD_TOO_LARGE,
        FsError::IsRemote => StatusCode::BAD_GATEWAY,
        FsError::NoMemory => unreachable!("want of memory has no status"),
    }
}

impl DavError {
    /// The status of the answer. Want of memory, also that of a path or a store, has none.
    pub fn statuscode(&self) -> StatusCode
        requires { lacks_memory self.now ≡ false }
        ensures { result ≡ status_of self.now }
    {
        match *self {
            DavError::Status(code) | DavError::StatusClose(code) => code,
            DavError::Path(fault) => path_status(fault),
            DavError::Fs(fault) => fs_status(fault),
            DavError::Body => StatusCode::INTERNAL_SERVER_ERROR,
            DavError::UnknownDavMethod => StatusCode::NOT_IMPLEMENTED,
            DavError::NoMemory => unreachable!("want of memory has no status"),
        }
    }

    /// Whether the connection ends with the answer.
    pub fn must_close(&self) -> bool
        ensures { result ≡ closes self.now }
    {
        match *self {
            DavError::StatusClose(_) | DavError::UnknownDavMethod => true,
            _ => false,
        }
    }
}

impl From<StatusCode> for DavError {
    ghost use Rattle.dav_core.specs.declared.dav_error.DavError.TheVariants.{Status as with_status};

    ghost from_gives = { λ code error. error ≡ with_status code };

    fn from(code: StatusCode) -> Self {
        DavError::Status(code)
    }
}

impl From<ParseError> for DavError {
    ghost from_gives = { λ fault error. error ≡ of_path fault };

    fn from(fault: ParseError) -> Self {
        match fault {
            ParseError::NoMemory => DavError::NoMemory,
            _ => DavError::Path(fault),
        }
    }
}

impl From<FsError> for DavError {
    ghost from_gives = { λ fault error. error ≡ of_fs fault };

    fn from(fault: FsError) -> Self {
        match fault {
            FsError::NoMemory => DavError::NoMemory,
            _ => DavError::Fs(fault),
        }
    }
}

impl From<NoMemory> for DavError {
    ghost use Rattle.dav_core.specs.declared.dav_error.DavError.TheVariants.{NoMemory as no_memory};

    ghost from_gives = { λ _ error. error ≡ no_memory };

    fn from(_: NoMemory) -> Self {
        DavError::NoMemory
    }
}
