ghost use Rattle.std.specs.Prelude.{◌≡◌, Option, None, Some};
ghost use Rattle.std.specs.Borrow.{GName};
ghost use Rattle.dav_store.specs.Bodies.{BodyState, GivesPiece};

use bytes::Bytes;
use dav_io::Failed;

/// Gives the body of a request, piece by piece. It may tell the bytes that are left.
pub trait BodyReader {
    /// What contracts see of the reader.
    ghost state: { Self → BodyState };

    /// The loan that the reader stands on: none for an owned reader, and for a `&mut` its own.
    ghost loan: { Self → Option GName } = { λ _. None };

    /// The next piece, which isn't empty, or None at the end. `Failed` comes only where its count of faults rose.
    fn next_piece(&mut self) -> Result<Option<Bytes>, Failed>
        ensures done { GivesPiece (state self.old) result (state self.new) }
        ensures loan { loan self.new ≡ loan self.old };
}

impl<B: BodyReader> BodyReader for &mut B {
    ghost state = { λ b. B.state b.now };

    ghost loan = { λ b. Some b.ghost_name };

    fn next_piece(&mut self) -> Result<Option<Bytes>, Failed> {
        BodyReader::next_piece(&mut **self)
    }
}
