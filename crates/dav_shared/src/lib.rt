//! The two caches behind locks, for threads that share them.
#![tactic(auto)]

mod book;
mod booked;
mod shared;
mod sharing;
mod waiting;

pub use book::{Book, OneBook, UntoldBook};
pub use shared::SharedCache;
pub use sharing::Sharing;
pub use waiting::Waiting;
