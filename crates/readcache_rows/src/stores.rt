//! The stores of rows.
ghost use Rattle.std.specs.Prelude.{◌<◌, ◌≤◌, IfSome};

use dav_core::Disk;
use dav_local::LocalFs;
use dav_memory::Forget;
use dav_readcache::ReadCache;
use dav_rows::word;
use dav_scenes::number;
use std::alloc::Global;

/// A store of a disk, in which each path is meant as it is written.
pub fn plain_over<D: Disk>(disk: D) -> LocalFs<D, Forget> {
    LocalFs::new(disk, Forget, false, false, false)
}

/// A store that holds contents, of the room that these words give: how many, with how many bytes in all and in one.
pub fn held_over<D: Disk + Drop>(
    alloc: Global,
    disk: D,
    words: &str,
) -> Option<ReadCache<LocalFs<D, Forget>, ()>> {
    let entries = number(word(words, 1)) as usize;
    let room = number(word(words, 2));
    let most = number(word(words, 3));
    if entries == 0 || most > room {
        return None;
    }
    ReadCache::new(alloc, plain_over(disk), entries, room, most).ok()
}
