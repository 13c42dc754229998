//! The bytes of an input that were taken from its source and not yet passed.
ghost use Rattle.std.specs.Prelude.{◌≡◌, ◌≤◌, ◌^◌, [], drop, length, true, IfOk, Ok};
ghost use Rattle.dav_io.specs.Outside.{Stream};
ghost use Rattle.http.specs.Request.{head_of};
ghost use Rattle.dav_wire.specs.Fields.{ArePlain};
ghost use Rattle.dav_wire.specs.Reading.{Finds, Fills};
ghost use Rattle.dav_wire.specs.declared.next.Found.TheVariants.{Whole};

use crate::buffer::{ROOM, ask_at, make_room, new_buffer, take_at};
use crate::head::{PartError, read_head};
use crate::next::{Found, ReadError};
use dav_io::{Client, NoMemory, Octets, Sink, Source};
use http::Request;
use httparse::spans::{EMPTY_HEADER_SPAN, HeaderSpan};
use std::alloc::Global;
use std::marker::Model;

/// The longest head of a request, in bytes.
const LONGEST: usize = 65_536;

const MOST_FIELDS: usize = 256;

/// Once so many bytes were taken, no more are.
const MOST_TAKEN: u64 = 1_152_921_504_606_846_976;

/// The bytes that were taken from a source and not yet passed, and the number of all that were taken. The memory for
/// them is taken once; at first few bytes of it are used. A contract sees the two.
#[derive(Drop)]
pub struct Input {
    buffer: Vec<u8>,
    spans: Vec<HeaderSpan>,
    start: usize,
    end: usize,
    taken: u64,
}

impl Model for Input {
    ghost use Rattle.std.specs.Prelude.{◌≡◌, ◌≤◌, ◌^◌, [], length, slice_range, vec_len, vec_capacity};
    ghost use Rattle.dav_wire.specs.Reading.{Pending};

    ghost Value = { Pending };

    ghost view = { λ i. record { bytes = slice_range i.buffer.items i.start i.end; taken = i.taken } };

    ghost invariant = { λ i. (i.start ≤ i.end) × (i.end ≤ vec_len i.buffer) × (vec_len i.buffer ≤ 65537)
        × (65537 ≤ vec_capacity i.buffer) × (length i.spans.items ≡ 256) × (i.taken ≤ 2 ^ 60) };
}

impl Input {
    /// Nothing taken yet.
    pub fn new(alloc: Global) -> Result<Self, NoMemory>
        ensures { IfOk result (λ input. input ≡ record { bytes = []; taken = 0 }) }
    {
        Ok(Input {
            buffer: new_buffer(alloc)?,
            spans: vec![in alloc; EMPTY_HEADER_SPAN; MOST_FIELDS]?,
            start: 0,
            end: 0,
            taken: 0,
        })
    }

    /// The bytes taken and not yet passed.
    pub fn pending(&self) -> &[u8]
        ensures { result.now ≡ self.now.bytes }
    {
        &self.buffer[self.start..self.end]
    }

    /// Passes bytes that are held.
    pub fn pass(&mut self, count: usize)
        requires { count ≤ length self.old.bytes }
        ensures bytes { self.new.bytes ≡ drop count self.old.bytes }
        ensures taken { self.new.taken ≡ self.old.taken }
    {
        self.start += count;
    }

    /// Takes more bytes, in one call of the source, and answers how many. 0 is the end of the input.
    pub fn fill<S: Source>(&mut self, source: &mut S) -> Result<usize, ReadError>
        requires { length self.old.bytes ≤ 65536 }
        ensures { Fills (S.stream source.old) self.old result self.new (S.stream source.new) }
    {
        let left = MOST_TAKEN - self.taken;
        if left == 0 {
            return Err(ReadError::TooMuch);
        }
        self.end = make_room(&mut self.buffer, self.start, self.end);
        self.start = 0;
        let most = left.min(ROOM as u64) as usize;
        match take_at(source, &mut self.buffer, self.end, most) {
            Ok(count) => {
                self.end += count;
                self.taken += count as u64;
                Ok(count)
            }
            Err(_) => Err(ReadError::Failed),
        }
    }

    /// Takes more bytes, in one call of a client that may be asked now, and answers how many. 0 is the end of the
    /// input.
    pub fn fill_after<S: Client<K>, K: Sink>(
        &mut self,
        source: &mut S,
        sink: &K,
    ) -> Result<usize, ReadError>
        requires short { length self.old.bytes ≤ 65536 }
        requires ready { S.may source.old (S.stream source.old) (K.stream sink.now) }
        ensures stays { (left written : Stream) → S.may source.old left written → S.may source.new left written }
        ensures fills { Fills (S.stream source.old) self.old result self.new (S.stream source.new) }
    {
        let left = MOST_TAKEN - self.taken;
        if left == 0 {
            return Err(ReadError::TooMuch);
        }
        self.end = make_room(&mut self.buffer, self.start, self.end);
        self.start = 0;
        let most = left.min(ROOM as u64) as usize;
        match ask_at(source, sink, &mut self.buffer, self.end, most) {
            Ok(count) => {
                self.end += count;
                self.taken += count as u64;
                Ok(count)
            }
            Err(_) => Err(ReadError::Failed),
        }
    }

    /// What stands at the front of the bytes held. It asks no source. A whole head is passed, and read into the request
    /// in place of what that had, and what is said of its fields is so; otherwise no byte is passed, and the request may
    /// have anything.
    pub fn next_head(
        &mut self,
        alloc: Global,
        request: &mut Request<Octets>,
    ) -> Result<Found, NoMemory>
        ensures finds { Finds self.old.bytes result (head_of request.new) self.new.bytes }
        ensures plain { result ≡ Ok (Whole true) → ArePlain (head_of request.new).headers }
        ensures taken { self.new.taken ≡ self.old.taken }
        ensures within { self.old.taken ≤ 2 ^ 60 }
    {
        let len = (self.end - self.start).min(LONGEST);
        let front = &self.buffer[self.start..self.start + len];
        match read_head(alloc, front, &mut self.spans, request) {
            Ok(Some(head)) => {
                self.start += head.len;
                Ok(Found::Whole(head.plain))
            }
            Ok(None) => {
                if len < self.end - self.start {
                    return Ok(Found::Refused);
                }
                Ok(Found::More)
            }
            Err(PartError::Refused) => Ok(Found::Refused),
            Err(PartError::NoMemory) => Err(NoMemory),
        }
    }
}
