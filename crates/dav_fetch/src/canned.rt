//! A peer in memory.
ghost use Rattle.std.specs.Prelude.{◌≡◌, ◌≤◌, ◌<◌, ◌↔◌, ◌++◌, [], IsErr, IfOk, None, min, take, length};

use crate::giving::give_from;
use crate::peer::{Got, Peer, PeerFault};
use dav_core::DavPath;
use dav_io::{Faults, Fields, Items, Octets};
use std::alloc::Global;

/// A reply that stands ready.
#[derive(Drop)]
pub struct Canned {
    pub got: Got,
    pub body: Octets,
}

/// Replies in the order in which they are given.
pub type Replies = Items<Canned>;

/// A peer that gives its replies in order, whatever it is asked for, and then 404 without fields and body. It fails at
/// the calls of the numbers given, of `get` and of `piece` together, counted from 1. It tells no world, and names no path.
#[derive(Drop)]
pub struct MemPeer {
    alloc: Global,
    // The replies to come, the next of them last.
    coming: Vec<Canned>,
    // The body of the last reply, and how much of it is given.
    body: Octets,
    at: usize,
    faults: Faults,
    ghost inside: { at ≤ length body },
}

impl MemPeer {
    ghost use Rattle.dav_fetch.specs.Ready.{coming, left_in};

    /// A peer of these replies, which fails at the calls of these numbers.
    pub fn new(alloc: Global, replies: Replies, fail: Vec<u64>) -> Self
        ensures coming { coming result ≡ replies }
        ensures left { left_in result ≡ [] }
        ensures state { ⟦<MemPeer as Peer>⟧.state result ≡ record { told = None; world = None; path = None; faults = 0 } }
    {
        let mut coming = replies.into_vec();
        coming.reverse();
        MemPeer {
            alloc,
            coming,
            body: Octets::empty(alloc),
            at: 0,
            faults: Faults::new(fail),
        }
    }
}

impl Peer for MemPeer {
    ghost use Rattle.dav_core.specs.DavPath.{link_of, shown};
    ghost use Rattle.dav_fetch.specs.Peer.{CountsGet, CountsPiece, Gets, Gives, links_most};
    ghost use Rattle.dav_fetch.specs.Ready.{FailsNext, GivesNext, coming, left_in, peer_calls, peer_state};

    ghost state = { peer_state };

    ghost calls = { peer_calls };

    /// It fails exactly where the schedule has its number, and else gives the next reply.
    fn get(&mut self, path: &DavPath, fields: &Fields) -> Result<Got, PeerFault>
        ensures gets { Gets (peer_state self.old) path.now fields.now result (peer_state self.new) }
        ensures calls { CountsGet (peer_calls self.old) result (peer_calls self.new) }
        ensures fails { IsErr result ↔ FailsNext self.old }
        ensures next { IfOk result (GivesNext self.old self.new) }
    {
        if self.faults.next() {
            return Err(PeerFault::Failed);
        }
        self.at = 0;
        match self.coming.pop() {
            Some(Canned { got, body }) => {
                self.body = body;
                Ok(got)
            }
            None => {
                self.body = Octets::empty(self.alloc);
                Ok(Got {
                    status: 404,
                    headers: Fields::empty(self.alloc),
                })
            }
        }
    }

    /// It fails exactly where the schedule has its number, and else gives what is left, as far as there is room.
    fn piece(&mut self, into: &mut [u8]) -> Result<usize, PeerFault>
        requires { 0 < length into.old }
        ensures given { Gives (peer_state self.old) into.new result (peer_state self.new) }
        ensures calls { CountsPiece (peer_calls self.old) result (peer_calls self.new) }
        ensures fails { IsErr result ↔ FailsNext self.old }
        ensures gives { IfOk result (λ n. left_in self.old ≡ take n into.new ++ left_in self.new) }
        ensures count { IfOk result (λ n. n ≡ min (length (left_in self.old)) (length into.old)) }
        ensures coming { coming self.new ≡ coming self.old }
    {
        if self.faults.next() {
            return Err(PeerFault::Failed);
        }
        let count = give_from(self.body.as_slice(), self.at, into);
        self.at += count;
        Ok(count)
    }
}
