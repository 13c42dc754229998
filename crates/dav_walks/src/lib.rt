//! What the methods that write stand on, over any store: the members of a directory are read, what stands at a path is
//! removed or copied with all below it, and a body goes into a file. Its proofs tell what these walks make of a told world.
#![tactic(auto)]

mod child;
mod copying;
mod ends;
mod member;
mod name;
mod pending;
mod pouring;
mod reading;
mod removing;
mod transfer;
mod work;

pub use copying::{Copied, copy_all};
pub use member::Member;
pub use name::Name;
pub use pouring::{file_write, pour};
pub use reading::read_members;
pub use removing::{line_of, remove_all};
