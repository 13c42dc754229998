//! Changes of the disk on which requests are made.
//!
//! `new` empties the disk. `dir PATH NUMBER` and `file PATH NUMBER TEXT` add to it, `raw PATH NUMBER TEXT` with a byte for
//! each character below 256, and `long PATH NUMBER COUNT TEXT END` with a text so many times and an end behind it. `fail
//! CALL` lets the disk fail at that call of the next request, and `short LENGTH..` gives no more bytes than these at its
//! reads. `cut PATH LENGTH`, `rename PATH PATH` and `remove PATH` are turns of the outside. (It has none within a request,
//! as no call of a report makes one: no row changes a resource between its metadata and its bytes.)

use crate::texts::add_times;
use dav_core::{Change, DavPath, Disk, FileTime, FsPath};
use dav_disk::MemDisk;
use dav_rows::{unescaped, word};
use std::alloc::Global;

/// The time of all that stands on it.
const TIME: FileTime = FileTime { secs: 1, nanos: 0 };

/// The names of a path.
pub fn path_of(alloc: Global, text: &str) -> Option<FsPath> {
    let path = DavPath::new(alloc, text).ok()?;
    path.names().try_clone().ok()
}

fn number(word: &str) -> u64 {
    word.parse::<u64>().unwrap_or(0)
}

fn add_file(disk: &mut MemDisk, path: &FsPath, number: u64, bytes: &[u8]) -> Option<()> {
    if !disk.can_add(path, number, TIME) {
        return None;
    }
    disk.add_file(path, number, TIME, bytes).ok()
}

fn add_dir(disk: &mut MemDisk, path: &FsPath, number: u64) -> Option<()> {
    if !disk.can_add(path, number, TIME) {
        return None;
    }
    disk.add_dir(path, number, TIME).ok()
}

fn make_dir(alloc: Global, disk: &mut MemDisk, row: &str) -> Option<()> {
    let path = path_of(alloc, word(row, 1))?;
    add_dir(disk, &path, number(word(row, 2)))
}

// A text so many times, and an end behind it.
fn long_text(alloc: Global, row: &str) -> Option<String> {
    let part = unescaped(alloc, word(row, 4)).ok()?;
    let end = unescaped(alloc, word(row, 5)).ok()?;
    let mut text = String::new(alloc);
    add_times(&mut text, part.as_str(), number(word(row, 3))).ok()?;
    text.push_str(end.as_str()).ok()?;
    Some(text)
}

// The characters of a text below 256, a byte each.
fn bytes_of(alloc: Global, text: &str) -> Option<Vec<u8>> {
    let mut bytes = Vec::new(alloc);
    for c in text.chars() {
        if let Ok(byte) = u8::try_from(u32::from(c)) {
            bytes.push(byte).ok()?;
        }
    }
    Some(bytes)
}

// The bytes of the file that a row adds.
fn content(alloc: Global, row: &str) -> Option<Vec<u8>> {
    if word(row, 0) == "long" {
        return Some(long_text(alloc, row)?.into_bytes());
    }
    let text = unescaped(alloc, word(row, 3)).ok()?;
    if word(row, 0) == "raw" {
        return bytes_of(alloc, text.as_str());
    }
    Some(text.into_bytes())
}

fn make_file(alloc: Global, disk: &mut MemDisk, row: &str) -> Option<()> {
    let path = path_of(alloc, word(row, 1))?;
    let bytes = content(alloc, row)?;
    add_file(disk, &path, number(word(row, 2)), bytes.as_slice())
}

// Lets the disk fail at a call of the next request.
fn fail(disk: &mut MemDisk, call: u64) -> Option<()> {
    if call < u64::MAX - disk.asked() {
        return disk.fail(disk.asked() + call).ok();
    }
    None
}

// The lengths of the next reads.
fn lens_of(alloc: Global, row: &str) -> Option<Vec<usize>> {
    let mut lens: Vec<usize> = Vec::new(alloc);
    for word in row.split(' ').skip(1) {
        lens.push(number(word) as usize).ok()?;
    }
    Some(lens)
}

fn shorten(alloc: Global, disk: &mut MemDisk, row: &str) -> Option<()> {
    let lens = lens_of(alloc, row)?;
    if !lens.iter().all(|len| 0 < *len) {
        return None;
    }
    disk.short(lens);
    Some(())
}

fn change_of(alloc: Global, row: &str) -> Option<Change> {
    let path = path_of(alloc, word(row, 1))?;
    match word(row, 0) {
        "cut" => Some(Change::Cut(path, number(word(row, 2)))),
        "rename" => Some(Change::Rename(path, path_of(alloc, word(row, 2))?)),
        _ => Some(Change::Remove(path)),
    }
}

// Lets the outside make one change.
fn turn(alloc: Global, disk: &mut MemDisk, row: &str) -> Option<()> {
    let mut batch = Vec::new(alloc);
    batch.push(change_of(alloc, row)?).ok()?;
    disk.script(batch).ok()?;
    disk.turn().ok()
}

fn change_disk(alloc: Global, disk: &mut MemDisk, row: &str) -> Option<()> {
    match word(row, 0) {
        "dir" => make_dir(alloc, disk, row),
        "file" | "raw" | "long" => make_file(alloc, disk, row),
        "fail" => fail(disk, number(word(row, 1))),
        "short" => shorten(alloc, disk, row),
        "cut" | "rename" | "remove" => turn(alloc, disk, row),
        _ => None,
    }
}

/// Changes the disk as a row says; or nothing where it can't.
pub fn change(alloc: Global, disk: &mut Option<MemDisk>, row: &str) -> Option<()> {
    if word(row, 0) == "new" {
        *disk = Some(MemDisk::new(alloc).ok()?);
        return Some(());
    }
    change_disk(alloc, disk.as_mut()?, row)
}
