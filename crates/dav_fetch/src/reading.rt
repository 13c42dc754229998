ghost use Rattle.std.specs.Prelude.{◌≡◌, ◌≤◌, ◌++◌, ℕ, List, min, take};
ghost use Rattle.dav_core.specs.Disk.{DiskState};
ghost use Rattle.dav_fetch.specs.Peer.{Counts};
ghost use Rattle.dav_fetch.specs.Reading.{ReadsTo, is_failed_end};

use crate::peer::{Peer, PeerFault};

/// How the reading of a body ended.
#[derive(Clone, Copy, Debug, PartialEq, Eq)]
pub enum Ended {
    /// No more bytes come.
    Over,
    /// As many came as are due, and maybe more.
    Full,
    Failed,
    NoMemory,
}

// The lesser of two numbers.
fn least(count: usize, left: u64) -> usize
    ensures { result ≡ min count left }
{
    if (count as u64) < left {
        count
    } else {
        left as usize
    }
}

// Reads the body of the last reply, up to so many bytes, and puts them behind those that are there.
pub(crate) fn read_up_to<P: Peer>(peer: &mut P, due: u64, into: &mut Vec<u8>) -> Ended
    ensures reads { (came : List ℕ) × ReadsTo (P.state peer.old) due came result (P.state peer.new)
        × (into.new.items ≡ into.old.items ++ take due came) }
    ensures counts { Counts 0 (is_failed_end result) (P.calls peer.old) (P.calls peer.new) }
    ensures loan { P.loan peer.new ≡ P.loan peer.old }
    ensures since { (s : DiskState) → P.since peer.old s → P.since peer.new s }
{
    let mut buffer = [0u8; 4096];
    let mut left = due;
    while left > 0 {
        match peer.piece(&mut buffer) {
            Ok(0) => return Ended::Over,
            Ok(count) => {
                let wanted = least(count, left);
                let (came, _) = buffer.split_at(wanted);
                match into.extend_from_slice(came) {
                    Ok(()) => {}
                    Err(_) => return Ended::NoMemory,
                }
                left -= wanted as u64;
            }
            Err(PeerFault::Failed) => return Ended::Failed,
            Err(PeerFault::NoMemory) => return Ended::NoMemory,
        }
    }
    Ended::Full
}
