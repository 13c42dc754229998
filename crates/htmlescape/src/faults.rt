ghost use Rattle.std.specs.Prelude.{◌≡◌, nat_eq};
ghost use Rattle.htmlescape.specs.Decoding.{number_of};
ghost use Rattle.std.specs.Ordering.{on};
ghost use Rattle.std.specs.Cmp.{nat_eq_equiv, on_equiv, partial_equiv_from_equiv};

use thiserror::Error;

/// Which side of a decoder failed.
#[derive(Clone, Copy, Debug, PartialEq, Eq)]
pub enum IoFault {
    /// The reader's count of faults rose.
    Read,
    /// The writer's count of faults rose.
    Write,
}

/// Why a text couldn't be decoded.
#[derive(Clone, Copy, Debug, Error)]
pub enum DecodeErrKind {
    /// No entity has this name, as in `&nosuchentity;`.
    #[error("unknown entity")]
    UnknownEntity,
    /// A number has no digits, another character in it, or a value past the greatest u32, as `&#xRT;`.
    #[error("malformed number")]
    MalformedNumEscape,
    /// A number is the code of no character, as `&#xd800;`.
    #[error("no such character")]
    InvalidCharacter,
    /// The text ends inside an entity, as `&lt`.
    #[error("the text ends inside an entity")]
    PrematureEnd,
    /// The reader or the writer failed.
    #[error("the reader or the writer failed")]
    IoError(IoFault),
    /// The bytes that were read aren't UTF-8.
    #[error("the bytes aren't UTF-8")]
    EncodingError,
    /// 2^60 characters were read.
    #[error("the text is too long")]
    TooLong,
    /// The allocator had no memory.
    #[error("out of memory")]
    NoMemory,
}

impl DecodeErrKind {
    // Kinds are equal exactly where their numbers are.
    fn number(&self) -> u8
        ensures { result ≡ number_of self.now }
    {
        match self {
            DecodeErrKind::UnknownEntity => 0,
            DecodeErrKind::MalformedNumEscape => 1,
            DecodeErrKind::InvalidCharacter => 2,
            DecodeErrKind::PrematureEnd => 3,
            DecodeErrKind::IoError(_) => 4,
            DecodeErrKind::EncodingError => 5,
            DecodeErrKind::TooLong => 6,
            DecodeErrKind::NoMemory => 7,
        }
    }
}

/// Two `IoError` are equal, whichever side failed.
impl PartialEq for DecodeErrKind {
    ghost eq = { on number_of nat_eq };

    ghost laws = { partial_equiv_from_equiv (on_equiv number_of nat_eq_equiv) };

    fn eq(&self, other: &DecodeErrKind) -> bool {
        self.number() == other.number()
    }
}

impl Eq for DecodeErrKind {
    ghost laws = { on_equiv number_of nat_eq_equiv };
}

/// A fault, and where it was met, in characters of the text from 0.
///
/// `position` is the number of characters before the ampersand of the entity at fault. For a write fault it is the
/// number before what was to be written; for a read fault, bytes that aren't UTF-8 and a text that is too long it is
/// the number of characters read.
#[derive(Clone, Copy, Debug, PartialEq, Eq, Error)]
#[error("{kind} at character {position}")]
pub struct DecodeErr {
    pub position: usize,
    pub kind: DecodeErrKind,
}
