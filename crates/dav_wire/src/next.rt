//! What a reader of requests gives.
ghost use Rattle.std.specs.Prelude.{◌≡◌};
ghost use Rattle.dav_io.specs.declared.failure.NoMemory.{NoMemory as OutOfMemory};
ghost use Rattle.dav_wire.specs.declared.next.ReadError.{ReadError};
ghost use Rattle.dav_wire.specs.declared.next.ReadError.TheVariants.{NoMemory as WithoutMemory};

use dav_io::Octets;
use thiserror::Error;

/// What stands at the front of the bytes that are held.
#[derive(Clone, Copy, Debug, PartialEq, Eq)]
pub enum Found {
    /// A whole head, which was passed. Where this is true, it has none of the fields `content-length`,
    /// `transfer-encoding` and `connection`; where it is false, it may have some.
    Whole(bool),
    /// No request can stand there: 400 is owed.
    Refused,
    /// More bytes are wanted.
    More,
}

/// Why a request can't be one, by the status that is owed.
#[derive(Clone, Copy, Debug, PartialEq, Eq)]
pub enum Flaw {
    /// 400: its head, the fields that announce its body, or a chunk of the body break the rules.
    Malformed,
    /// 413: its body has more than 1,073,741,824 bytes.
    TooLarge,
}

/// What came of reading a body.
#[derive(Drop)]
pub enum BodyRead {
    /// A whole body, which was passed.
    Whole(Octets),
    /// No body can stand there: this is owed.
    Refused(Flaw),
    /// The input ended inside the body.
    Ended,
}

/// Why nothing was read.
#[derive(Clone, Copy, Debug, PartialEq, Eq, Error)]
pub enum ReadError {
    #[error("the source failed")]
    Failed,
    /// 2^60 bytes were taken.
    #[error("too many bytes were read")]
    TooMuch,
    #[error("out of memory")]
    NoMemory,
    /// The sink failed, to which what waited for it was given before the source was asked.
    #[error("the sink failed")]
    Unsent,
}

impl From<dav_io::NoMemory> for ReadError {
    ghost from_gives = { λ e r. r ≡ WithoutMemory };

    fn from(_: dav_io::NoMemory) -> Self {
        ReadError::NoMemory
    }
}
