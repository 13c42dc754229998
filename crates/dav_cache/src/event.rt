use dav_core::{FsPath, Tree};
use dav_io::{Moment, Text};

/// What happens next, and by which caller. A moment is in nanoseconds.
#[derive(Drop)]
pub enum Event {
    /// The caller asks whether the name is known to be absent.
    Ask {
        caller: u32,
        dir: FsPath,
        name: Text,
    },
    /// It looks for the directory's entry.
    Peek {
        caller: u32,
    },
    /// It asks the disk for the directory's time, which may be refused.
    Check {
        caller: u32,
        refused: bool,
    },
    /// It compares the numbers.
    Conclude {
        caller: u32,
    },
    /// It takes the directory's entry out.
    DropDir {
        caller: u32,
    },
    /// The caller begins to list a directory.
    Begin {
        caller: u32,
        dir: FsPath,
    },
    /// It asks the disk for the directory's time.
    Before {
        caller: u32,
        refused: bool,
    },
    /// It asks the disk for the next name.
    ListNext {
        caller: u32,
        refused: bool,
    },
    /// It asks the disk for the directory's time again.
    After {
        caller: u32,
        refused: bool,
    },
    /// It seals what was listed. Only so many puts find memory.
    Seal {
        caller: u32,
        now: Moment,
        room: u64,
    },
    /// The caller looks up a path.
    Find {
        caller: u32,
        path: FsPath,
    },
    /// It looks for an entry, and brings it to the front.
    Get {
        caller: u32,
    },
    /// It asks the disk whether something stands at the entry's path.
    Probe {
        caller: u32,
        refused: bool,
    },
    /// It takes the entry out.
    Drop {
        caller: u32,
    },
    /// The caller puts a path.
    Insert {
        caller: u32,
        path: FsPath,
        now: Moment,
    },
    /// Old entries go, of the dot-underscore cache or of the path cache.
    Purge {
        now: Moment,
        dots: bool,
    },
    /// The tree changes.
    Change {
        tree: Tree,
    },
}

/// What a caller is told.
#[derive(Drop)]
pub enum Told {
    Nothing,
    /// Whether the name is known to be absent.
    Absent(bool),
    /// Where the path was found.
    Path(Option<FsPath>),
    /// The event didn't fit the caller's place, and nothing was changed.
    Misplaced,
}
