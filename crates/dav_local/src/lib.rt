//! The local store: a disk from its root on, or one file of it, whose names may be found by folding, with the rules for
//! clients of macOS, and with a memory.
#![tactic(auto)]

mod acts;
mod entry;
mod file;
mod fs;
mod gathering;
mod ground;
pub mod laws;
mod listing;
mod lists;
mod meta;
mod seeing;
mod steps;
mod store;
mod walk;
mod ways;
mod writing;

pub use entry::{EntryMeta, LocalFsDirEntry};
pub use file::LocalFsFile;
pub use fs::LocalFs;
pub use gathering::LocalFsReadDir;
pub use meta::LocalFsMetaData;
pub use ways::Ways;
