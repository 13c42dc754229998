//! A buffer of fixed size in front of a sink.
ghost use Rattle.std.specs.Prelude.{◌≡◌, ◌≤◌, ◌+◌, ◌++◌, [], length, IfOk};
ghost use Rattle.dav_wire.specs.Chunks.{chunk, written, ending as the_ending};
ghost use Rattle.dav_wire.specs.Writing.{Pushes};

use crate::chunks::{Framing, LINE, ending, write_size};
use dav_io::{Failed, NoMemory, Sink, put_all};
use std::alloc::Global;
use std::marker::Model;

/// So many bytes are held at most: an answer with a body of 64 KiB leaves in one put, since a sink that delays small
/// packets waits between two.
const ROOM: usize = 69_632;

// A piece of so many bytes or more isn't copied where nothing is held.
const LONG: usize = 8_192;

/// Bytes that wait for a sink, so that small pieces leave in one put. A contract sees them as their list.
#[derive(Drop)]
pub struct Output {
    held: Vec<u8>,
}

impl Model for Output {
    ghost use Rattle.std.specs.Prelude.{ℕ, List, ◌≤◌, vec_len, vec_capacity};

    ghost Value = { List ℕ };

    ghost view = { λ o. o.held.items };

    ghost invariant = { λ o. (vec_len o.held ≤ 69632) × (69632 ≤ vec_capacity o.held) };
}

impl Output {
    /// Takes the memory for all that is ever held.
    pub fn new(alloc: Global) -> Result<Self, NoMemory>
        ensures { IfOk result (λ output. output ≡ []) }
    {
        Ok(Output {
            held: Vec::with_capacity(alloc, ROOM)?,
        })
    }

    /// Gives all that is held to the sink.
    pub fn flush<K: Sink>(&mut self, sink: &mut K) -> Result<(), Failed>
        ensures pushes { Pushes (K.stream sink.old) self.old [] result self.new (K.stream sink.new) }
        ensures emptied { self.new ≡ [] }
    {
        let result = put_all(sink, &self.held);
        self.held.clear();
        result
    }

    /// Holds bytes behind those that are held, where there is room. Otherwise all that is held goes to the sink first,
    /// and then these bytes where they are many.
    pub fn push<K: Sink>(&mut self, sink: &mut K, bytes: &[u8]) -> Result<(), Failed>
        ensures { Pushes (K.stream sink.old) self.old bytes.now result self.new (K.stream sink.new) }
    {
        if !self.held.is_empty() && bytes.len() <= ROOM - self.held.len() {
            self.hold(bytes);
            return Ok(());
        }
        match self.flush(sink) {
            Ok(()) => {}
            Err(e) => return Err(e),
        }
        if bytes.len() >= LONG {
            return put_all(sink, bytes);
        }
        self.hold(bytes);
        Ok(())
    }

    /// Gives a piece of a body, as it is written. It takes no memory. In chunks an empty piece would be the end.
    pub fn push_piece<K: Sink>(
        &mut self,
        sink: &mut K,
        framing: Framing,
        piece: &[u8],
    ) -> Result<(), Failed>
        ensures { Pushes (K.stream sink.old) self.old (written framing piece.now) result self.new (K.stream sink.new) }
    {
        match framing {
            Framing::Raw => self.push(sink, piece),
            Framing::Chunked => self.push_chunk(sink, piece),
        }
    }

    /// Gives what ends a body, behind its last piece.
    pub fn push_end<K: Sink>(&mut self, sink: &mut K, framing: Framing) -> Result<(), Failed>
        ensures { Pushes (K.stream sink.old) self.old (the_ending framing) result self.new (K.stream sink.new) }
    {
        match framing {
            Framing::Raw => Ok(()),
            Framing::Chunked => self.push(sink, ending(framing)),
        }
    }

    // Gives a piece as a chunk.
    fn push_chunk<K: Sink>(&mut self, sink: &mut K, piece: &[u8]) -> Result<(), Failed>
        ensures { Pushes (K.stream sink.old) self.old (chunk piece.now) result self.new (K.stream sink.new) }
    {
        let mut line = [0; LINE];
        let start = write_size(&mut line, piece.len());
        match self.push(sink, &line[start..]) {
            Ok(()) => {}
            Err(e) => return Err(e),
        }
        match self.push(sink, piece) {
            Ok(()) => {}
            Err(e) => return Err(e),
        }
        self.push(sink, b"\r\n")
    }

    // Holds bytes for which there is room.
    fn hold(&mut self, bytes: &[u8])
        requires { length self.old + length bytes.now ≤ 69632 }
        ensures { self.new ≡ self.old ++ bytes.now }
    {
        match self.held.extend_from_slice(bytes) {
            Ok(()) => {}
            Err(_) => unreachable!("the room was taken before"),
        }
    }
}
