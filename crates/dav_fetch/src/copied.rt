ghost use Rattle.std.specs.Prelude.{◌≡◌, []};
ghost use Rattle.dav_fetch.specs.Copy.{IsCopy};

use dav_core::FsPath;
use dav_io::{Items, Octets};
use std::alloc::Global;

/// A file of a copy: the value of its `etag`, or nothing; how long it is; and the bytes that came so far.
#[derive(Drop)]
pub struct Kept {
    pub path: FsPath,
    pub tag: Octets,
    pub len: u64,
    pub bytes: Octets,
}

/// A copy of a tree, so far: its directories and its files, each in order of paths.
#[derive(Drop)]
pub struct Copied {
    pub dirs: Paths,
    pub files: KeptFiles,
}

impl Copied {
    /// A copy of nothing, which is in order.
    #[tactic(auto, using(crate::proofs::Empty::empty_copy))]
    pub fn empty(alloc: Global) -> Self
        ensures nothing { result ≡ record { dirs = []; files = [] } }
        ensures copy { IsCopy result }
    {
        Copied {
            dirs: Paths::empty(alloc),
            files: KeptFiles::empty(alloc),
        }
    }
}

/// Paths in order, none twice.
pub type Paths = Items<FsPath>;

/// Files in order of their paths, none twice.
pub type KeptFiles = Items<Kept>;
