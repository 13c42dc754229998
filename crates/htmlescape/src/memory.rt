ghost use Rattle.std.specs.Prelude.{◌≡◌, [], Some, IsUtf8, string_bytes};
ghost use Rattle.dav_io.specs.Outside.{Stream};

use dav_io::{Failed, Sink};
use std::alloc::Global;

/// A sink in memory that grows with what is written. It fails only where memory is refused.
#[derive(Drop)]
pub struct Growing {
    bytes: Vec<u8>,
    faults: u64,
    asked: u64,
}

impl Growing {
    /// Nothing written yet.
    pub fn new(alloc: Global) -> Self
        ensures made { ⟦<Growing as Sink>⟧.stream result ≡ record { bytes = Some []; faults = 0; asked = 0 } }
        ensures empty { result.bytes.items ≡ [] }
    {
        Growing {
            bytes: Vec::new(alloc),
            faults: 0,
            asked: 0,
        }
    }

    /// What was written, as a text. It takes no memory.
    pub fn into_text(self) -> String
        requires { IsUtf8 self.bytes.items }
        ensures { string_bytes result ≡ self.bytes.items }
    {
        String::from_utf8(self.bytes).unwrap()
    }
}

impl Sink for Growing {
    ghost stream = { λ s. record { bytes = Some s.bytes.items; faults = s.faults; asked = s.asked } };

    fn put(&mut self, from: &[u8]) -> Result<usize, Failed> {
        self.asked = self.asked.saturating_add(1);
        if self.bytes.extend_from_slice(from).is_err() {
            self.faults = self.faults.saturating_add(1);
            return Err(Failed);
        }
        Ok(from.len())
    }
}
