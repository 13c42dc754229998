//! A body in pieces, whose reader may fail.
ghost use Rattle.std.specs.Prelude.{None};

use bytes::Bytes;
use dav_io::Failed;
use dav_store::BodyReader;

// The bytes of the longest piece.
static PIECE: [u8; 30_000] = [120; 30_000];

/// So many bytes in pieces of at most 30,000. One call fails, where there is one of that number.
#[derive(Drop)]
pub struct Pieces {
    pub left: usize,
    pub fails_at: u64,
    pub calls: u64,
    pub faults: u64,
    pub ended: bool,
}

impl Pieces {
    /// A body of so many bytes, of which the reader fails at this call, counted from 1.
    pub fn new(left: usize, fails_at: u64) -> Pieces {
        Pieces {
            left,
            fails_at,
            calls: 0,
            faults: 0,
            ended: false,
        }
    }
}

impl BodyReader for Pieces {
    ghost state = { λ r. record { left = None; ended = r.ended; faults = r.faults } };

    fn next_piece(&mut self) -> Result<Option<Bytes>, Failed> {
        self.calls = self.calls.saturating_add(1);
        if self.calls == self.fails_at {
            self.faults = self.faults.saturating_add(1);
            return Err(Failed);
        }
        let piece = &PIECE[..self.left.min(30_000)];
        if piece.is_empty() {
            self.ended = true;
            return Ok(None);
        }
        self.left = self.left.saturating_sub(piece.len());
        Ok(Some(Bytes::from_static(piece)))
    }
}
