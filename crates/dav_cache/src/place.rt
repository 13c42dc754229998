use dav_core::{FileTime, FsPath};
use dav_io::{Items, Text};

/// Names in their order.
pub type Names = Items<Text>;

/// A listing from its Before to its Seal.
#[derive(Drop)]
pub struct Listing {
    pub dir: FsPath,
    /// The directory's time that Before found.
    pub before: Option<FileTime>,
    /// The last name given.
    pub last: Option<Text>,
    /// The `._` names given.
    pub names: Names,
    /// The end was given, or a ListNext was refused.
    pub ended: bool,
    /// No ListNext was refused.
    pub whole: bool,
}

/// What a caller did last, and what it holds.
#[derive(Drop)]
pub enum Place {
    Idle,
    Asked {
        dir: FsPath,
        name: Text,
    },
    /// The directory's entry has this number and time.
    Peeked {
        dir: FsPath,
        name: Text,
        number: u64,
        time: FileTime,
    },
    /// The directory had the time at Check.
    Passed {
        dir: FsPath,
        name: Text,
        number: u64,
        time: FileTime,
    },
    /// Check was refused, or found no directory or another time.
    Failed {
        dir: FsPath,
    },
    Begun {
        dir: FsPath,
    },
    Lists {
        listing: Listing,
    },
    /// The listing with the directory's time that After found.
    Ended {
        listing: Listing,
        after: Option<FileTime>,
    },
    Finding {
        path: FsPath,
    },
    /// The entry of the path asked, and the path that it tells.
    Got {
        asked: FsPath,
        path: FsPath,
    },
    /// Nothing stood there.
    Missed {
        asked: FsPath,
    },
}
