ghost use Rattle.std.specs.Prelude.{◌≡◌};

use dav_io::NoMemory;
use std::alloc::{AllocError, AllocFailed};
use thiserror::Error;

/// What is wrong with the text of a path.
#[derive(Clone, Copy, Debug, PartialEq, Eq, Error)]
pub enum ParseError {
    #[error("not a path")]
    InvalidPath,
    #[error("not below the prefix")]
    PrefixMismatch,
    #[error("above the root")]
    ForbiddenPath,
    #[error("not UTF-8")]
    NotText,
    #[error("out of memory")]
    NoMemory,
}

impl From<NoMemory> for ParseError {
    ghost use Rattle.dav_core.specs.declared.parse_error.ParseError.TheVariants.{NoMemory as no_memory};

    ghost from_gives = { λ _ error. error ≡ no_memory };

    fn from(_: NoMemory) -> Self {
        ParseError::NoMemory
    }
}

impl From<AllocError> for ParseError {
    ghost use Rattle.dav_core.specs.declared.parse_error.ParseError.TheVariants.{NoMemory as no_memory};

    ghost from_gives = { λ _ error. error ≡ no_memory };

    fn from(_: AllocError) -> Self {
        ParseError::NoMemory
    }
}

impl<T: Drop> From<AllocFailed<T>> for ParseError {
    ghost use Rattle.dav_core.specs.declared.parse_error.ParseError.TheVariants.{NoMemory as no_memory};

    ghost from_gives = { λ _ error. error ≡ no_memory };

    fn from(_: AllocFailed<T>) -> Self {
        ParseError::NoMemory
    }
}
