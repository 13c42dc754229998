//! A peer of one's own: it writes each request to a sink, and reads the answer from a source.
ghost use Rattle.std.specs.Prelude.{◌≡◌, ◌≤◌, length};

use crate::heads::{announced_by, read_head};
use crate::requests::push_get;
use dav_core::DavPath;
use dav_fetch::{Got, Peer, PeerFault, give_from};
use dav_io::{Faults, Fields, NoMemory, Octets, Sink, Source};
use dav_wire::{BodyRead, Input, Output, ReadError, read_body};
use std::alloc::Global;

// An answer, with all of its body.
struct Answer {
    got: Got,
    body: Octets,
}

/// Two streams to a server, the last answer's body, and how much of it was given. It tells no world, names no path, and counts
/// the calls that failed.
#[derive(Drop)]
pub struct StreamPeer<S: Source + Drop, K: Sink + Drop> {
    alloc: Global,
    source: S,
    sink: K,
    input: Input,
    output: Output,
    body: Octets,
    at: usize,
    faults: Faults,
    ghost inside: { at ≤ length body },
}

impl<S: Source + Drop, K: Sink + Drop> StreamPeer<S, K> {
    /// Nothing asked yet.
    pub fn new(alloc: Global, source: S, sink: K) -> Result<Self, NoMemory> {
        Ok(StreamPeer {
            alloc,
            source,
            sink,
            input: Input::new(alloc)?,
            output: Output::new(alloc)?,
            body: Octets::empty(alloc),
            at: 0,
            faults: Faults::new(Vec::new(alloc)),
        })
    }

    // Reads the body that stands behind a head.
    fn body_behind(&mut self, got: &Got) -> Result<Octets, PeerFault>
        ensures { self.new.faults ≡ self.old.faults }
    {
        match read_body(
            self.alloc,
            announced_by(got),
            &mut self.input,
            &mut self.source,
            &mut self.output,
            &mut self.sink,
        ) {
            Ok(BodyRead::Whole(body)) => Ok(body),
            Ok(_) => Err(PeerFault::Failed),
            Err(ReadError::NoMemory) => Err(PeerFault::NoMemory),
            Err(_) => Err(PeerFault::Failed),
        }
    }

    // Asks for a path, and reads the answer.
    fn exchange(&mut self, path: &DavPath, fields: &Fields) -> Result<Answer, PeerFault>
        ensures { self.new.faults ≡ self.old.faults }
    {
        let Ok(link) = path.as_url_string() else {
            return Err(PeerFault::NoMemory);
        };
        match push_get(
            &mut self.output,
            &mut self.sink,
            link.as_str(),
            fields.as_slice(),
        ) {
            Ok(()) => {}
            Err(_) => return Err(PeerFault::Failed),
        }
        let got = read_head(self.alloc, &mut self.input, &mut self.source)?;
        let body = self.body_behind(&got)?;
        Ok(Answer { got, body })
    }
}

impl<S: Source + Drop, K: Sink + Drop> Peer for StreamPeer<S, K> {
    ghost use Rattle.std.specs.Prelude.{None};

    ghost state = { λ p. record { told = None; world = None; path = None; faults = p.faults.met } };

    ghost calls = { λ p. record { replies = 0; failures = p.faults.met; turns = 0 } };

    fn get(&mut self, path: &DavPath, fields: &Fields) -> Result<Got, PeerFault> {
        match self.exchange(path, fields) {
            Ok(Answer { got, body }) => {
                self.at = 0;
                self.body = body;
                Ok(got)
            }
            Err(PeerFault::Failed) => {
                self.faults.meet();
                Err(PeerFault::Failed)
            }
            Err(PeerFault::NoMemory) => Err(PeerFault::NoMemory),
        }
    }

    fn piece(&mut self, into: &mut [u8]) -> Result<usize, PeerFault> {
        let count = give_from(self.body.as_slice(), self.at, into);
        self.at += count;
        Ok(count)
    }
}
