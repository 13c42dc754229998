//! Fetching a tree: a reader of index pages and files over any peer, which goes on where it stopped.
#![tactic(auto)]

mod asking;
mod canned;
mod copied;
mod due;
mod error;
mod fetching;
mod found;
mod giving;
mod judging;
mod keeping;
pub mod laws;
mod ordering;
mod paging;
mod peer;
mod reading;
mod taking;
mod walking;

pub use canned::{Canned, MemPeer, Replies};
pub use copied::{Copied, Kept, KeptFiles, Paths};
pub use error::MirrorError;
pub use fetching::fetch;
pub use found::Found;
pub use giving::give_from;
pub use peer::{Got, Peer, PeerFault};
pub use reading::Ended;
