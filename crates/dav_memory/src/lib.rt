//! What a store remembers between its calls, as a trait, and what is said of it.
#![tactic(auto)]

mod builder;
mod entry;
mod folding;
mod key;
mod remember;
mod sealed;
pub mod times;

pub use builder::DUCacheBuilder;
pub use entry::PathEntry;
pub use folding::{FoldedPath, fold, fold_text};
pub use key::{DuEntry, DuKey, copy_name, dir_key, name_key};
pub use remember::{Forget, Remember};
pub use sealed::Sealed;
