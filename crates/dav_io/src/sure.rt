//! A source and a sink in memory that fail in no call but where they must.
ghost use Rattle.std.specs.Prelude.{◌≡◌, ◌<◌, ◌≤◌, [], Some, length, IfOk, vec_len, vec_capacity};
ghost use Rattle.dav_io.specs.Outside.{Stream, Puts};

use crate::memory::copy_front;
use crate::{Failed, NoMemory, Octets, Sink, Source};
use std::alloc::Global;

/// A source in memory that never fails.
#[derive(Drop)]
pub struct SureSource {
    bytes: Octets,
    at: usize,
    asked: u64,
    ghost inside: { at ≤ length bytes },
}

impl SureSource {
    /// A source of these bytes.
    pub fn new(bytes: Octets) -> Self
        ensures { ⟦<SureSource as Source>⟧.stream result ≡ record { bytes = Some bytes; faults = 0; asked = 0 } }
    {
        SureSource {
            bytes,
            at: 0,
            asked: 0,
        }
    }
}

impl Source for SureSource {
    ghost use Rattle.dav_io.specs.Sure.{source_stream};

    ghost stream = { source_stream };

    fn take(&mut self, into: &mut [u8]) -> Result<usize, Failed> {
        self.asked = self.asked.saturating_add(1);
        let (_, rest) = self.bytes.as_slice().split_at(self.at);
        let count = copy_front(rest, usize::MAX, into);
        self.at += count;
        Ok(count)
    }
}

/// A sink in memory, with a room that is reserved when it is made. It fails only where no byte more fits.
#[derive(Drop)]
pub struct SureSink {
    bytes: Vec<u8>,
    room: usize,
    faults: u64,
    asked: u64,
    ghost inside: { vec_len bytes ≤ room },
    ghost reserved: { room ≤ vec_capacity bytes },
}

impl SureSink {
    ghost use Rattle.dav_io.specs.Sure.{sink_stream};

    /// A sink with room for so many bytes.
    pub fn new(alloc: Global, room: usize) -> Result<Self, NoMemory>
        ensures made { IfOk result (λ s. sink_stream s ≡ record { bytes = Some []; faults = 0; asked = 0 }) }
        ensures room { IfOk result (λ s. s.room ≡ room) }
    {
        let bytes = Vec::with_capacity(alloc, room)?;
        Ok(SureSink {
            bytes,
            room,
            faults: 0,
            asked: 0,
        })
    }

    /// The bytes written.
    pub fn written(&self) -> &[u8]
        ensures { (sink_stream self.now).bytes ≡ Some result.now }
    {
        &self.bytes
    }
}

impl Sink for SureSink {
    ghost use Rattle.dav_io.specs.Sure.{TakesWhatFits, sink_stream};
    ghost use Rattle.dav_io.specs.Counts.{CountsFault};

    ghost stream = { sink_stream };

    /// It takes what fits, and fails exactly where no byte does. A call that fails counts one fault, and any other
    /// none.
    fn put(&mut self, from: &[u8]) -> Result<usize, Failed>
        requires { 0 < length from.now }
        ensures done { Puts (sink_stream self.old) from.now result (sink_stream self.new) }
        ensures fits { TakesWhatFits self.old.room self.old.bytes.items from.now result }
        ensures faults { CountsFault result self.old.faults self.new.faults }
        ensures room { self.new.room ≡ self.old.room }
    {
        self.asked = self.asked.saturating_add(1);
        let count = from.len().min(self.room - self.bytes.len());
        if count == 0 || self.bytes.extend_from_slice(&from[..count]).is_err() {
            self.faults = self.faults.saturating_add(1);
            return Err(Failed);
        }
        Ok(count)
    }
}
