ghost use Rattle.std.specs.Prelude.{◌≡◌};
ghost use Rattle.dav_core.specs.Errors.{fs_error_of};

use crate::DiskError;
use thiserror::Error;

/// What a store refuses a call with.
#[derive(Clone, Copy, Debug, PartialEq, Eq, Error)]
pub enum FsError {
    #[error("not implemented")]
    NotImplemented,
    #[error("the disk failed")]
    GeneralFailure,
    #[error("it stands already")]
    Exists,
    #[error("nothing stands there")]
    NotFound,
    #[error("forbidden")]
    Forbidden,
    #[error("no storage is left")]
    InsufficientStorage,
    #[error("a loop was met")]
    LoopDetected,
    #[error("the path is too long")]
    PathTooLong,
    #[error("it is too large")]
    TooLarge,
    #[error("it stands on another server")]
    IsRemote,
    #[error("out of memory")]
    NoMemory,
}

impl From<DiskError> for FsError {
    ghost from_gives = { λ error result. result ≡ fs_error_of error };

    fn from(error: DiskError) -> Self {
        match error {
            DiskError::NotFound => FsError::NotFound,
            DiskError::NotDir | DiskError::IsDir => FsError::Forbidden,
            DiskError::Exists | DiskError::NotEmpty => FsError::Exists,
            DiskError::Failed => FsError::GeneralFailure,
            DiskError::NoMemory => FsError::NoMemory,
        }
    }
}
