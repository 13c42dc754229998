//! Calls by words: of a memory and of a listing, over a disk in memory. The disk has the directory `/d` alone, of the
//! time 1 s. Moments are in milliseconds.

use crate::cache_words::{moment, name_of, part, small};
use crate::caches::tell_path;
use crate::cells::path_of;
use dav_cache::{DUCacheBuilder, Forget, Owned, Remember};
use dav_core::{FileTime, FsPath};
use dav_disk::MemDisk;
use dav_io::{Moment, NoMemory, Text};
use dav_rows::Line;
use std::alloc::Global;

fn add_dir(disk: &mut MemDisk, dir: &FsPath) -> Option<()> {
    let time = FileTime { secs: 1, nanos: 0 };
    if !disk.can_add(dir, 2, time) {
        return Some(());
    }
    disk.add_dir(dir, 2, time).ok()
}

/// Sets the directory `/d` on an empty disk.
pub fn set_disk(alloc: Global, line: &mut Line, disk: &mut MemDisk) {
    let dir = path_of(alloc, line, "/d");
    line.need(add_dir(disk, &dir));
}

// Adds where a path was found, without what the call that found it gave.
fn tell_found<T: Copy>(line: &mut Line, found: Result<Option<(FsPath, T)>, NoMemory>) {
    match found {
        Ok(Some((path, _))) => tell_path(line, &path),
        Ok(None) => line.add("none"),
        Err(_) => line.refuse(),
    }
}

fn tell_denied(line: &mut Line, denied: Result<bool, NoMemory>) {
    match denied {
        Ok(true) => line.add("absent"),
        Ok(false) => line.add("unknown"),
        Err(_) => line.refuse(),
    }
}

fn add(line: &mut Line, listing: &mut DUCacheBuilder, name: &str) {
    line.need(listing.add(name).ok());
}

fn add_numbered(alloc: Global, line: &mut Line, listing: &mut DUCacheBuilder, number: u64) {
    match format!(in alloc; "._{number:06}") {
        Ok(name) => add(line, listing, name.as_str()),
        Err(_) => line.refuse(),
    }
}

// Adds so many names that begin with `._` to a listing, from the last to the first.
fn add_many(alloc: Global, line: &mut Line, listing: &mut DUCacheBuilder, count: u64) {
    for place in 0..count {
        add_numbered(alloc, line, listing, count - place);
    }
}

// Adds the names of a word to a listing, or a fault.
fn add_to(alloc: Global, line: &mut Line, listing: &mut DUCacheBuilder, name: &str, cell: &str) {
    match name {
        "add" => add(line, listing, cell),
        "many" => {
            let count = u64::from(small(line, cell));
            add_many(alloc, line, listing, count);
        }
        _ => listing.fault(),
    }
}

// The names and the faults of a listing.
fn list(
    alloc: Global,
    line: &mut Line,
    listing: &mut Option<DUCacheBuilder>,
    name: &str,
    cell: &str,
) {
    match listing {
        Some(listing) => add_to(alloc, line, listing, name, cell),
        None => line.refuse(),
    }
    line.add("-");
}

fn finish(
    line: &mut Line,
    disk: &mut MemDisk,
    memory: &mut Owned,
    listing: &mut Option<DUCacheBuilder>,
    cell: &str,
) {
    let now = moment(line, cell);
    match listing {
        Some(listing) => line.need(listing.finish(disk, memory, now).ok()),
        None => line.refuse(),
    }
    line.add("-");
}

fn begin(
    alloc: Global,
    line: &mut Line,
    disk: &mut MemDisk,
    listing: &mut Option<DUCacheBuilder>,
    cell: &str,
) {
    let path = path_of(alloc, line, cell);
    *listing = Some(DUCacheBuilder::start(alloc, path, disk));
    line.add("-");
}

// Adds whether a name is denied.
fn deny(
    alloc: Global,
    line: &mut Line,
    disk: &mut MemDisk,
    memory: &mut Owned,
    dir: &FsPath,
    name: &Text,
) {
    tell_denied(line, memory.negative(alloc, dir, name, disk));
}

// The same, by the words of the directory and the name.
fn deny_words(
    alloc: Global,
    line: &mut Line,
    disk: &mut MemDisk,
    memory: &mut Owned,
    words: (&str, &str),
) {
    let dir = path_of(alloc, line, words.0);
    let name = name_of(alloc, line, words.1);
    deny(alloc, line, disk, memory, &dir, &name);
}

// Where a memory has a path: it is looked at there, or opened. What was opened stays open.
fn find<R: Remember>(
    alloc: Global,
    line: &mut Line,
    disk: &mut MemDisk,
    memory: &mut R,
    opens: bool,
    path: &FsPath,
) {
    if opens {
        tell_found(line, memory.get_open(alloc, path, disk));
    } else {
        tell_found(line, memory.get(alloc, path, disk));
    }
}

fn find_word(
    alloc: Global,
    line: &mut Line,
    disk: &mut MemDisk,
    memory: &mut Owned,
    opens: bool,
    cell: &str,
) {
    let path = path_of(alloc, line, cell);
    find(alloc, line, disk, memory, opens, &path);
}

// The same of a memory that forgets all, after it was put there.
fn forget(alloc: Global, line: &mut Line, disk: &mut MemDisk, opens: bool, cell: &str) {
    let path = path_of(alloc, line, cell);
    line.need(Forget.insert(alloc, &path, Moment(0)).ok());
    find(alloc, line, disk, &mut Forget, opens, &path);
}

fn insert(alloc: Global, line: &mut Line, memory: &mut Owned, place: &str, cell: &str) {
    let path = path_of(alloc, line, place);
    let now = moment(line, cell);
    line.need(memory.insert(alloc, &path, now).ok());
    line.add("-");
}

fn purge(line: &mut Line, memory: &mut Owned, cell: &str) {
    let now = moment(line, cell);
    memory.purge(now);
    line.add("-");
}

// What a word tells of the caches and of the disk.
fn tell_state(line: &mut Line, disk: &MemDisk, memory: &Owned, name: &str) {
    match name {
        "paths" => line.add_number("", memory.paths().len() as u64),
        "dots" => line.add_number("", memory.dots().len() as u64),
        "asked" => line.add_number("", disk.asked()),
        _ => line.refuse(),
    }
}

// The calls of a memory.
fn call_memory(alloc: Global, line: &mut Line, disk: &mut MemDisk, memory: &mut Owned, word: &str) {
    let name = part(word, 0);
    let second = part(word, 1);
    match name {
        "insert" => insert(alloc, line, memory, second, part(word, 2)),
        "get" | "open" => find_word(alloc, line, disk, memory, name == "open", second),
        "forget" | "forget-open" => forget(alloc, line, disk, name == "forget-open", second),
        "negative" => deny_words(alloc, line, disk, memory, (second, part(word, 2))),
        "purge" => purge(line, memory, second),
        _ => tell_state(line, disk, memory, name),
    }
}

/// Makes the call of a word, and adds what it answers to a line.
pub fn call(
    alloc: Global,
    line: &mut Line,
    disk: &mut MemDisk,
    memory: &mut Owned,
    listing: &mut Option<DUCacheBuilder>,
    word: &str,
) {
    let name = part(word, 0);
    let second = part(word, 1);
    match name {
        "list" => begin(alloc, line, disk, listing, second),
        "add" | "many" | "fault" => list(alloc, line, listing, name, second),
        "finish" => finish(line, disk, memory, listing, second),
        _ => call_memory(alloc, line, disk, memory, word),
    }
}
