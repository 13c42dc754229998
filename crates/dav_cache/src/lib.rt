//! Two caches before a tree that changes, and why they are never noticed. The path cache remembers where a path was
//! found that folds like the one asked; the dot-underscore cache remembers which `._` names a directory had at a time.
#![tactic(auto)]

mod cache;
mod du_cache;
mod event;
pub mod laws;
mod owned;
mod place;
mod trees;
mod valid;
mod world;

pub use cache::{Cache, is_starved};
pub use dav_memory::{
    DUCacheBuilder, DuEntry, DuKey, FoldedPath, Forget, PathEntry, Remember, Sealed, dir_key, fold,
    fold_text, name_key,
};
pub use du_cache::DuCache;
pub use event::{Event, Told};
pub use owned::Owned;
pub use place::{Listing, Names, Place};
pub use world::World;
