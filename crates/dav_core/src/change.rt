use crate::FsPath;
use dav_io::{Items, Octets};

/// A change of a told disk from outside. One that the tree doesn't allow is skipped.
#[derive(Drop)]
pub enum Change {
    /// A directory at a free path under a directory.
    AddDir(FsPath),
    /// A file with these bytes at a free path under a directory.
    AddFile(FsPath, Octets),
    /// A file gets this length in bytes: it is shortened, or lengthened with zeros.
    Cut(FsPath, u64),
    /// What stands there goes, with all below it. The root stays.
    Remove(FsPath),
    /// What stands at the first path is moved to the second.
    Rename(FsPath, FsPath),
}

/// Changes that are made together.
pub type Batch = Items<Change>;
