//! Calls of a disk, one after the other.
//!
//!     meta PATH            what stands at a path: its kind, number, length and time
//!     open PATH WORD..     opens a file, makes the calls of the words, and closes it: `meta`, `seek:PLACE`,
//!                          `read:ROOM`, and `turn`, a turn of the outside
//!     list PATH            the names of a directory, to the end of the listing
//!     turn                 a turn of the outside
//!
//! A row that begins with `disk` makes them on a disk that may fail, and one that begins with `sure` on one that never
//! does. What a call answers stands before a `|`.
ghost use Rattle.std.specs.Prelude.{◌≡◌, IsSome};

use dav_core::{Disk, DiskError, FsPath, Handle, Kind, Lister, Meta, OpenOptions};
use dav_disk::{MemDisk, SureDisk};
use dav_io::{NoMemory, Text};
use dav_rows::{Line, word};
use dav_scenes::{
    Standing, batch_of, number, path_of, set_disk, standing_of, tell_bytes, tell_time,
};
use std::alloc::Global;

// The most bytes of a read.
const MOST: u64 = 10_000;

// The most calls for a name in a listing.
const MOST_NAMES: u32 = 100;

fn kind_word(kind: Kind) -> &'static str {
    match kind {
        Kind::Dir => "dir",
        Kind::File => "file",
        Kind::Link => "link",
    }
}

fn tell_meta(line: &mut Line, answer: Result<Meta, DiskError>) {
    match answer {
        Ok(meta) => {
            line.add(kind_word(meta.kind));
            line.add_number(" ", meta.number);
            line.add_number(" ", meta.len);
            if let Some(time) = meta.modified {
                line.add(" ");
                tell_time(line, time);
            }
        }
        Err(error) => line.add_value(&error),
    }
}

fn tell_read(line: &mut Line, answer: Result<usize, DiskError>, buffer: &[u8]) {
    match answer {
        Ok(count) => {
            line.add("read ");
            tell_bytes(line, buffer.get(..count).unwrap_or(b"?"));
        }
        Err(error) => line.add_value(&error),
    }
}

// Reads into a room of bytes, where it has any.
fn read_into<D: Disk>(disk: &mut D, file: Handle, buffer: &mut [u8], line: &mut Line)
    requires { IsSome ((D.state disk.old).live file.0) }
    ensures { IsSome ((D.state disk.new).live file.0) }
{
    if buffer.is_empty() {
        line.refuse();
    } else {
        let answer = disk.read(file, buffer);
        tell_read(line, answer, buffer);
    }
}

// Reads into a room of so many bytes.
fn read<D: Disk>(alloc: Global, disk: &mut D, file: Handle, room: u64, line: &mut Line)
    requires { IsSome ((D.state disk.old).live file.0) }
    ensures { IsSome ((D.state disk.new).live file.0) }
{
    match vec![in alloc; 0u8; room.min(MOST) as usize] {
        Ok(mut buffer) => read_into(disk, file, buffer.as_mut_slice(), line),
        Err(_) => line.refuse(),
    }
}

fn seek<D: Disk>(disk: &mut D, file: Handle, place: u64, line: &mut Line)
    requires { IsSome ((D.state disk.old).live file.0) }
    ensures { IsSome ((D.state disk.new).live file.0) }
{
    match disk.seek(file, place) {
        Ok(()) => line.add("sought"),
        Err(error) => line.add_value(&error),
    }
}

// Makes the call of a word on an open file.
fn call_file<D: Disk>(alloc: Global, disk: &mut D, file: Handle, word: &str, line: &mut Line)
    requires { IsSome ((D.state disk.old).live file.0) }
    ensures { IsSome ((D.state disk.new).live file.0) }
{
    let mut cells = word.splitn(2, ':');
    let kind = cells.next().unwrap_or("");
    let second = cells.next().unwrap_or("");
    match kind {
        "meta" => tell_meta(line, disk.file_meta(file)),
        "seek" => seek(disk, file, number(second), line),
        "read" => read(alloc, disk, file, number(second), line),
        "turn" => turn(disk, line),
        _ => line.refuse(),
    }
}

fn turn<D: Disk>(disk: &mut D, line: &mut Line)
    ensures { (D.state disk.new).live ≡ (D.state disk.old).live }
{
    match disk.turn() {
        Ok(()) => line.add("turned"),
        Err(_) => line.refuse(),
    }
}

// Makes the calls of a part on an open file, and closes it.
fn call_open<D: Disk>(alloc: Global, disk: &mut D, file: Handle, part: &str, line: &mut Line)
    requires { IsSome ((D.state disk.old).live file.0) }
{
    for word in part.split(' ').skip(2) {
        call_file(alloc, disk, file, word, line);
        line.add(" | ");
    }
    disk.close(file);
    line.add("closed");
}

// Adds what a listing answers, and tells whether it is at its end.
fn tell_name(line: &mut Line, answer: Result<Option<Text>, DiskError>) -> bool {
    match answer {
        Ok(Some(name)) => line.add(name.as_str()),
        Ok(None) => {
            line.add("end");
            return true;
        }
        Err(error) => line.add_value(&error),
    }
    line.add(" | ");
    false
}

// Asks a listing for its names to the end. A call that fails loses none.
#[tactic(auto, using(crate::proofs::Listing::stays_live))]
fn list_names<D: Disk>(alloc: Global, disk: &mut D, at: Lister, line: &mut Line)
    requires { IsSome ((D.state disk.old).listers at.0) }
    ensures { IsSome ((D.state disk.new).listers at.0) }
{
    'names: for _ in 0..MOST_NAMES {
        let answer = disk.list_next(alloc, at);
        if tell_name(line, answer) {
            return;
        }
    }
}

fn open_at<D: Disk>(alloc: Global, disk: &mut D, path: &FsPath, part: &str, line: &mut Line) {
    match disk.open(path, OpenOptions::read(), false) {
        Ok(file) => call_open(alloc, disk, file, part, line),
        Err(error) => line.add_value(&error),
    }
}

fn list_at<D: Disk>(alloc: Global, disk: &mut D, path: &FsPath, line: &mut Line) {
    match disk.list(path) {
        Ok(at) => {
            list_names(alloc, disk, at, line);
            disk.end_list(at);
        }
        Err(error) => line.add_value(&error),
    }
}

// Makes the call of a part at a path.
fn call_at<D: Disk>(alloc: Global, disk: &mut D, path: &FsPath, part: &str, line: &mut Line) {
    match word(part, 0) {
        "meta" => tell_meta(line, disk.meta(path)),
        "open" => open_at(alloc, disk, path, part, line),
        "list" => list_at(alloc, disk, path, line),
        "turn" => turn(disk, line),
        _ => line.refuse(),
    }
    line.add(" | ");
}

// Makes the call of a part.
fn call<D: Disk>(alloc: Global, disk: &mut D, part: &str, line: &mut Line) {
    match path_of(alloc, word(part, 1)) {
        Some(path) => call_at(alloc, disk, &path, part, line),
        None => line.refuse(),
    }
}

fn call_all(alloc: Global, disk: &mut MemDisk, row: &str, line: &mut Line) {
    for part in row.split('|').skip(1) {
        if !set_disk(alloc, disk, line, part.trim()) {
            call(alloc, disk, part.trim(), line);
        }
    }
}

fn tell_counts(line: &mut Line, asked: u64, faults: u64) {
    line.add_number("asked ", asked);
    line.add_number(", failed ", faults);
}

fn tell_calls(alloc: Global, disk: &mut MemDisk, row: &str, line: &mut Line) {
    call_all(alloc, disk, row, line);
    tell_counts(line, disk.asked(), disk.faults());
}

/// Adds what a disk answers that may fail.
pub fn calls(alloc: Global, line: &mut Line, row: &str) {
    match MemDisk::new(alloc) {
        Ok(mut disk) => tell_calls(alloc, &mut disk, row, line),
        Err(_) => line.refuse(),
    }
}

fn add_batch(alloc: Global, disk: &mut SureDisk, line: &mut Line, part: &str) {
    match batch_of(alloc, part) {
        Some(batch) => line.need(disk.script(batch).ok()),
        None => line.refuse(),
    }
}

fn add_standing(disk: &mut SureDisk, new: &Standing) -> Result<(), NoMemory> {
    if !disk.can_add(&new.path, new.number, new.time) {
        return Ok(());
    }
    match &new.bytes {
        Some(bytes) => disk.add_file(&new.path, new.number, new.time, bytes.as_slice()),
        None => disk.add_dir(&new.path, new.number, new.time),
    }
}

fn set_standing(alloc: Global, disk: &mut SureDisk, line: &mut Line, part: &str) {
    match standing_of(alloc, part) {
        Some(new) => line.need(add_standing(disk, &new).ok()),
        None => line.refuse(),
    }
}

// Sets what a part says of a sure disk, and answers whether it says something.
fn set_sure(alloc: Global, disk: &mut SureDisk, line: &mut Line, part: &str) -> bool {
    match word(part, 0) {
        "dir" | "file" => set_standing(alloc, disk, line, part),
        "batch" => add_batch(alloc, disk, line, part),
        _ => return false,
    }
    true
}

fn call_all_sure(alloc: Global, disk: &mut SureDisk, row: &str, line: &mut Line) {
    for part in row.split('|').skip(1) {
        if !set_sure(alloc, disk, line, part.trim()) {
            call(alloc, disk, part.trim(), line);
        }
    }
}

fn tell_sure_calls(alloc: Global, disk: &mut SureDisk, row: &str, line: &mut Line) {
    call_all_sure(alloc, disk, row, line);
    tell_counts(line, disk.asked(), disk.faults());
}

/// Adds what a sure disk answers.
pub fn sure_calls(alloc: Global, line: &mut Line, row: &str) {
    match SureDisk::new(alloc) {
        Ok(mut disk) => tell_sure_calls(alloc, &mut disk, row, line),
        Err(_) => line.refuse(),
    }
}
