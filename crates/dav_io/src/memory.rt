ghost use Rattle.std.specs.Prelude.{◌≡◌, ◌<◌, ◌≤◌, ◌⊎◌, ◌↔◌, [], Some, take, length, min, IsErr, IfOk, vec_len, vec_capacity};
ghost use Rattle.dav_io.specs.Outside.{Stream, Takes, Puts};

use crate::faults::Faults;
use crate::{Failed, NoMemory, Octets, Sink, Source};
use std::alloc::Global;

// Copies as many bytes of `rest` as fit, and at most `most`.
pub fn copy_front(rest: &[u8], most: usize, into: &mut [u8]) -> usize
    requires { 0 < most }
    ensures within { result ≤ length into.new }
    ensures inside { result ≤ length rest.now }
    ensures copied { take result into.new ≡ take result rest.now }
    ensures end { result ≡ 0 → 0 < length into.old → length rest.now ≡ 0 }
    ensures count { result ≡ min (min (length rest.now) (length into.old)) most }
{
    let count = rest.len().min(into.len()).min(most);
    into[..count].copy_from_slice(&rest[..count]);
    count
}

/// A source in memory, which gives at most `most` bytes a call, and fails at the calls of the numbers given. Each call
/// is counted, whether it fails or not; from the greatest u64 on all calls have that number.
#[derive(Drop)]
pub struct MemSource {
    bytes: Octets,
    at: usize,
    most: usize,
    faults: Faults,
    ghost some: { 0 < most },
    ghost inside: { at ≤ length bytes },
}

impl MemSource {
    ghost use Rattle.dav_io.specs.Schedules.{Schedule, source_schedule};

    /// A source of these bytes, which gives at most `most` a call and fails at the calls of these numbers, from 1.
    pub fn new(bytes: Octets, most: usize, fail: Vec<u64>) -> Self
        requires { 0 < most }
        ensures stream { ⟦<MemSource as Source>⟧.stream result ≡ record { bytes = Some bytes; faults = 0; asked = 0 } }
        ensures schedule { source_schedule result ≡ record { fail = fail.items; calls = 0; most = most } }
    {
        MemSource {
            bytes,
            at: 0,
            most,
            faults: Faults::new(fail),
        }
    }
}

impl Source for MemSource {
    ghost use Rattle.dav_io.specs.Counts.{CountsFault};
    ghost use Rattle.dav_io.specs.Schedules.{FailsNext, one_later, moved, left_in, source_stream, source_schedule};

    ghost stream = { source_stream };

    /// It fails exactly where the schedule has its number. Any other call gives what is left, as far as there is room,
    /// and at most `most` bytes.
    fn take(&mut self, into: &mut [u8]) -> Result<usize, Failed>
        requires { 0 < length into.old }
        ensures done { Takes (source_stream self.old) into.new result (source_stream self.new) }
        ensures fails { IsErr result ↔ FailsNext (source_schedule self.old) }
        ensures count { IfOk result
            (λ n. n ≡ moved (source_schedule self.old) (length (left_in self.old)) (length into.old)) }
        ensures faults { CountsFault result self.old.faults.met self.new.faults.met }
        ensures schedule { source_schedule self.new ≡ one_later (source_schedule self.old) }
    {
        if self.faults.next() {
            return Err(Failed);
        }
        let (_, rest) = self.bytes.as_slice().split_at(self.at);
        let count = copy_front(rest, self.most, into);
        self.at += count;
        Ok(count)
    }
}

/// A sink in memory, with a room that is reserved when it is made. It takes at most `most` bytes a call, fails at the
/// calls of the numbers given, and where its room is full. Each call is counted as by `MemSource`.
#[derive(Drop)]
pub struct MemSink {
    bytes: Vec<u8>,
    room: usize,
    most: usize,
    faults: Faults,
    ghost some: { 0 < most },
    ghost inside: { vec_len bytes ≤ room },
    ghost reserved: { room ≤ vec_capacity bytes },
}

impl MemSink {
    ghost use Rattle.dav_io.specs.Schedules.{Schedule, sink_schedule, room_of};

    /// A sink with room for so many bytes, which takes at most `most` a call and fails at the calls of these numbers,
    /// from 1.
    pub fn new(alloc: Global, room: usize, most: usize, fail: Vec<u64>) -> Result<Self, NoMemory>
        requires { 0 < most }
        ensures stream { IfOk result
            (λ s. ⟦<MemSink as Sink>⟧.stream s ≡ record { bytes = Some []; faults = 0; asked = 0 }) }
        ensures room { IfOk result (λ s. room_of s ≡ room) }
        ensures schedule { IfOk result (λ s. sink_schedule s ≡ record { fail = fail.items; calls = 0; most = most }) }
    {
        let bytes = Vec::with_capacity(alloc, room)?;
        Ok(MemSink {
            bytes,
            room,
            most,
            faults: Faults::new(fail),
        })
    }

    /// The bytes written.
    pub fn written(&self) -> &[u8]
        ensures { ⟦<MemSink as Sink>⟧.stream self.now
            ≡ record { bytes = Some result.now; faults = self.now.faults.met; asked = self.now.faults.asked } }
    {
        &self.bytes
    }
}

impl Sink for MemSink {
    ghost use Rattle.dav_io.specs.Counts.{CountsFault};
    ghost use Rattle.dav_io.specs.Schedules.{FailsNext, one_later, moved, sink_stream, sink_schedule, room_of, room_left};

    ghost stream = { sink_stream };

    /// It fails exactly where the schedule has its number, or no room is left. Any other call takes what is offered, as
    /// far as there is room, and at most `most` bytes.
    fn put(&mut self, from: &[u8]) -> Result<usize, Failed>
        requires { 0 < length from.now }
        ensures done { Puts (sink_stream self.old) from.now result (sink_stream self.new) }
        ensures fails { IsErr result ↔ (FailsNext (sink_schedule self.old) ⊎ (room_left self.old ≡ 0)) }
        ensures count { IfOk result (λ n. n ≡ moved (sink_schedule self.old) (length from.now) (room_left self.old)) }
        ensures faults { CountsFault result self.old.faults.met self.new.faults.met }
        ensures schedule { sink_schedule self.new ≡ one_later (sink_schedule self.old) }
        ensures room { room_of self.new ≡ room_of self.old }
    {
        if self.faults.next() {
            return Err(Failed);
        }
        let count = from.len().min(self.room - self.bytes.len()).min(self.most);
        if count == 0 || self.bytes.extend_from_slice(&from[..count]).is_err() {
            self.faults.meet();
            return Err(Failed);
        }
        Ok(count)
    }
}
