ghost use Rattle.std.specs.Prelude.{◌≡◌, ◌<◌, IfOk, Some, false, length};
ghost use Rattle.std.specs.Option.{ForSome};
ghost use Rattle.dav_store.specs.Bodies.{GivesPiece, IsAll, bytes_or_none, one_state};

use crate::BodyReader;
use bytes::Bytes;
use dav_io::{Failed, NoMemory, Octets};

/// A body of bytes that are in memory: all of them in one piece, or nothing where there are none. It meets no fault.
#[derive(Drop)]
pub struct OneBody {
    bytes: Option<Bytes>,
    ended: bool,
    ghost some: { ForSome bytes (λ piece. 0 < length piece) },
}

impl OneBody {
    /// A body of these bytes.
    ///
    /// Errors: want of memory; none where there are no bytes.
    pub fn new(bytes: Octets) -> Result<OneBody, NoMemory>
        ensures { IfOk result (λ body. ⟦<OneBody as BodyReader>⟧.state body
            ≡ record { left = Some bytes; ended = false; faults = 0 }) }
    {
        if bytes.as_slice().is_empty() {
            return Ok(OneBody {
                bytes: None,
                ended: false,
            });
        }
        match Bytes::from_vec(bytes.into_vec()) {
            Ok(piece) => Ok(OneBody {
                bytes: Some(piece),
                ended: false,
            }),
            Err(_) => Err(NoMemory),
        }
    }
}

impl BodyReader for OneBody {
    ghost state = { λ b. one_state b.bytes b.ended };

    fn next_piece(&mut self) -> Result<Option<Bytes>, Failed>
        ensures done { GivesPiece (one_state self.old.bytes self.old.ended) result
            (one_state self.new.bytes self.new.ended) }
        ensures loan { ⟦<OneBody as BodyReader>⟧.loan self.new ≡ ⟦<OneBody as BodyReader>⟧.loan self.old }
        ensures whole { IsAll result (bytes_or_none self.old.bytes) }
    {
        match self.bytes.take() {
            Some(piece) => Ok(Some(piece)),
            None => {
                self.ended = true;
                Ok(None)
            }
        }
    }
}
