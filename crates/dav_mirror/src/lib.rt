//! Mirrors of a tree over a player: a player as a peer, and the listing of what is fetched from it.
#![tactic(auto)]

mod asking;
pub mod laws;
mod lines;
mod mirroring;
mod play_peer;
mod report;

pub use mirroring::mirror;
pub use play_peer::PlayPeer;
pub use report::Report;
