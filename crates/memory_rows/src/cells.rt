//! Texts of words. In a text each `%XX` is a byte. A path is its names, each behind a slash; the root is a slash alone.
//! What isn't understood, or is refused memory, refuses the line, and something else stands in its place.
use dav_core::{FileTime, FsPath, is_plain};
use dav_rows::{Line, bytes_of};
use percent_encoding::CONTROLS;
use std::alloc::Global;

/// A number of digits.
pub fn number(line: &mut Line, word: &str) -> u64 {
    match word.parse::<u64>() {
        Ok(number) => number,
        Err(_) => {
            line.refuse();
            0
        }
    }
}

fn seconds(line: &mut Line, word: &str) -> i64 {
    match word.parse::<i64>() {
        Ok(secs) => secs,
        Err(_) => {
            line.refuse();
            0
        }
    }
}

/// A time of seconds, with nanoseconds behind a point.
pub fn time_of(line: &mut Line, word: &str) -> FileTime {
    let (secs, nanos) = word.split_once('.').unwrap_or((word, "0"));
    let secs = seconds(line, secs);
    let nanos = nanos.parse::<u32>().unwrap_or(0);
    FileTime { secs, nanos }
}

/// The root.
pub fn root(alloc: Global) -> FsPath {
    FsPath::new(Vec::new(alloc))
}

/// Adds a name to a path.
pub fn add_name(line: &mut Line, path: &mut FsPath, name: &str) {
    if is_plain(name.as_bytes()) {
        line.need(path.push(name).ok());
    } else {
        line.refuse();
    }
}

fn add_names(line: &mut Line, path: &mut FsPath, word: &str) {
    for name in word.split('/') {
        if !name.is_empty() {
            add_name(line, path, name);
        }
    }
}

/// The path of a word.
pub fn path_of(alloc: Global, line: &mut Line, word: &str) -> FsPath {
    let mut path = root(alloc);
    add_names(line, &mut path, word);
    path
}

/// The bytes that a cell spells.
pub fn bytes(alloc: Global, line: &mut Line, cell: &str) -> Vec<u8> {
    match bytes_of(alloc, cell) {
        Ok(bytes) => bytes,
        Err(_) => {
            line.refuse();
            Vec::new(alloc)
        }
    }
}

/// Adds bytes as a text spells them.
pub fn show(line: &mut Line, bytes: &[u8]) {
    line.add_bytes(bytes, CONTROLS.add(b'%').add(b'|').add(b' '));
}
