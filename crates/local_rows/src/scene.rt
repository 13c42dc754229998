//! What a row sets before its calls.
//!
//!     dir PATH NUMBER SECONDS          a directory
//!     file PATH NUMBER SECONDS BYTES   a file
//!     fail CALL..                      the calls of these numbers fail
//!     sealed PATH NAME..               the memory knows these names of a directory, as of its time now: two calls
//!     room PATHS NAMES                 so many paths are remembered, and so many directories and names together;
//!                                      without it 16 and 16
//!
//! What the disk doesn't take isn't set.
//!
//! What isn't understood, or is refused memory, refuses the line, and something else stands in its place.
ghost use Rattle.std.specs.Prelude.{◌<◌};

use dav_cache::{DUCacheBuilder, Owned};
use dav_core::{FileTime, FsPath, is_plain};
use dav_disk::MemDisk;
use dav_io::Moment;
use dav_rows::{Line, text_of, word};
use std::alloc::Global;

/// Whether a part sets something.
pub fn is_set(part: &str) -> bool {
    matches!(word(part, 0), "dir" | "file" | "fail" | "sealed" | "room")
}

fn add_name(line: &mut Line, path: &mut FsPath, name: &str) {
    if is_plain(name.as_bytes()) {
        line.need(path.push(name).ok());
    } else {
        line.refuse();
    }
}

fn add_cell(alloc: Global, line: &mut Line, path: &mut FsPath, cell: &str) {
    match text_of(alloc, cell) {
        Ok(name) => add_name(line, path, name.as_str()),
        Err(_) => line.refuse(),
    }
}

fn add_cells(alloc: Global, line: &mut Line, path: &mut FsPath, word: &str) {
    for cell in word.split('/') {
        if !cell.is_empty() {
            add_cell(alloc, line, path, cell);
        }
    }
}

/// The path of a word: its names, each behind a slash. Each `%XX` in a name is a byte.
pub fn path_of(alloc: Global, line: &mut Line, word: &str) -> FsPath {
    let mut path = FsPath::new(Vec::new(alloc));
    add_cells(alloc, line, &mut path, word);
    path
}

/// The number of a word.
pub fn number(line: &mut Line, word: &str) -> u64 {
    match word.parse::<u64>() {
        Ok(number) => number,
        Err(_) => {
            line.refuse();
            0
        }
    }
}

/// The moment of a word: seconds, at most a million, and nanoseconds behind a point.
pub fn moment_of(line: &mut Line, word: &str) -> Moment {
    let (secs, nanos) = word.split_once('.').unwrap_or((word, "0"));
    let secs = number(line, secs).min(1_000_000);
    let nanos = number(line, nanos).min(999_999_999);
    Moment(secs * 1_000_000_000 + nanos)
}

fn room_of(part: &str) -> Option<&str> {
    part.trim().strip_prefix("room ")
}

// The words behind the first part that sets a room.
fn room_words(row: &str) -> &str {
    for part in row.split('|') {
        if let Some(words) = room_of(part) {
            return words;
        }
    }
    "16 16"
}

// A room, which is at least one.
fn size(line: &mut Line, word: &str) -> usize
    ensures { 0 < result }
{
    let size = number(line, word) as usize;
    if size == 0 {
        line.refuse();
        return 1;
    }
    size
}

/// An empty memory of the room that a row sets.
pub fn memory_of(alloc: Global, line: &mut Line, row: &str) -> Option<Owned> {
    let words = room_words(row);
    let paths = size(line, word(words, 0));
    let dots = size(line, word(words, 1));
    Owned::new(alloc, paths, dots).ok()
}

fn add(disk: &mut MemDisk, path: &FsPath, number: u64, time: FileTime, part: &str) -> Option<()> {
    if !disk.can_add(path, number, time) {
        return Some(());
    }
    if word(part, 0) == "file" {
        disk.add_file(path, number, time, word(part, 4).as_bytes())
            .ok()
    } else {
        disk.add_dir(path, number, time).ok()
    }
}

fn time_of(line: &mut Line, word: &str) -> FileTime {
    match word.parse::<i64>() {
        Ok(secs) => FileTime { secs, nanos: 0 },
        Err(_) => {
            line.refuse();
            FileTime { secs: 0, nanos: 0 }
        }
    }
}

fn stand(alloc: Global, line: &mut Line, disk: &mut MemDisk, part: &str) {
    let number = number(line, word(part, 2));
    let time = time_of(line, word(part, 3));
    let path = path_of(alloc, line, word(part, 1));
    line.need(add(disk, &path, number, time, part));
}

fn add_names(line: &mut Line, builder: &mut DUCacheBuilder, part: &str) {
    for name in part.split(' ').skip(2) {
        line.need(builder.add(name).ok());
    }
}

fn seal(alloc: Global, line: &mut Line, disk: &mut MemDisk, memory: &mut Owned, part: &str) {
    let dir = path_of(alloc, line, word(part, 1));
    let mut builder = DUCacheBuilder::start(alloc, dir, disk);
    add_names(line, &mut builder, part);
    line.need(builder.finish(disk, memory, Moment(0)).ok());
}

fn fail_at(line: &mut Line, disk: &mut MemDisk, word: &str) {
    let call = number(line, word);
    line.need(disk.fail(call).ok());
}

fn fail(line: &mut Line, disk: &mut MemDisk, part: &str) {
    for word in part.split(' ').skip(1) {
        fail_at(line, disk, word);
    }
}

/// Sets what a part says.
pub fn set(alloc: Global, line: &mut Line, disk: &mut MemDisk, memory: &mut Owned, part: &str) {
    match word(part, 0) {
        "sealed" => seal(alloc, line, disk, memory, part),
        // The memory was made with its room.
        "room" => {}
        "fail" => fail(line, disk, part),
        _ => stand(alloc, line, disk, part),
    }
}
