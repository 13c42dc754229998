//! The store to which requests are put.

use crate::disks::path_of;
use dav_core::FsPath;
use dav_disk::MemDisk;
use dav_local::LocalFs;
use dav_memory::Forget;
use dav_rows::word;
use std::alloc::Global;

/// A store that remembers nothing.
pub type Store = LocalFs<MemDisk, Forget>;

/// How paths are found, by a folder's two rules, or the one file.
#[derive(Drop)]
pub enum Ways {
    Folder { fold: bool, macos: bool },
    Alone(FsPath),
}

/// The ways that a row names; as paths are written where it says nothing.
pub fn ways_of(alloc: Global, row: &str) -> Option<Ways> {
    let (fold, macos) = match word(row, 1) {
        "fold" => (true, false),
        "macos" => (false, true),
        "both" => (true, true),
        "alone" => return Some(Ways::Alone(path_of(alloc, word(row, 2))?)),
        _ => (false, false),
    };
    Some(Ways::Folder { fold, macos })
}

/// A store over the disk that finds paths in these ways.
pub fn store_of(disk: MemDisk, ways: Ways) -> Store {
    match ways {
        Ways::Folder { fold, macos } => LocalFs::new(disk, Forget, false, fold, macos),
        Ways::Alone(file) => LocalFs::new_file(disk, Forget, file, false),
    }
}
