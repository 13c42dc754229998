//! Calls of the local store over a disk in memory: a row a line on standard input, and an answer a line on standard
//! output.
//!
//! A row is parts with ` | ` between them. The first says how paths are found: `plain`, `fold` or `macos`, `both` for
//! the last two, or `alone` and the path of the one file. The parts behind it set what stands there and what is
//! remembered (`scene.rt`), and then make calls (`calls.rt`); each call's answer stands before a `|`. The last word is
//! how many calls the disk was asked. A row that begins with `#` is written as it stands.
#![tactic(auto)]

mod calls;
mod carrying;
mod listing;
mod outside;
mod scene;

use calls::call;
use dav_cache::Owned;
use dav_disk::MemDisk;
use dav_local::LocalFs;
use dav_rows::{Line, word};
use dav_store::DavFileSystem;
use scene::{is_set, memory_of, path_of, set};
use std::alloc::Global;
use std::io;

type Store = LocalFs<MemDisk, Owned>;

// The rules by which paths are found in a folder.
#[derive(Clone, Copy)]
struct Ways {
    fold: bool,
    macos: bool,
}

fn ways_of(line: &mut Line, name: &str) -> Ways {
    let (fold, macos) = match name {
        "plain" => (false, false),
        "fold" => (true, false),
        "macos" => (false, true),
        "both" => (true, true),
        _ => {
            line.refuse();
            (false, false)
        }
    };
    Ways { fold, macos }
}

// Sets what stands on the disk, and what is remembered.
fn set_all(alloc: Global, line: &mut Line, disk: &mut MemDisk, memory: &mut Owned, row: &str) {
    for part in row.split('|').skip(1) {
        if is_set(part.trim()) {
            set(alloc, line, disk, memory, part.trim());
        }
    }
}

fn call_one(alloc: Global, line: &mut Line, store: &mut Store, part: &str) {
    call(alloc, line, store, part);
    line.add(" | ");
}

fn call_all(alloc: Global, line: &mut Line, store: &mut Store, row: &str) {
    for part in row.split('|').skip(1) {
        if !is_set(part.trim()) {
            call_one(alloc, line, store, part.trim());
        }
    }
}

// Makes the calls of a row.
fn play(alloc: Global, line: &mut Line, store: &mut Store, row: &str) {
    call_all(alloc, line, store, row);
    line.add_number("asked ", DavFileSystem::disk(store).asked());
}

// What owns a disk, a memory or a store makes one call after the other, of which none has a way out.
fn over_folder(alloc: Global, line: &mut Line, disk: MemDisk, memory: Owned, row: &str) {
    let ways = ways_of(line, word(row, 0));
    let mut store = LocalFs::new(disk, memory, false, ways.fold, ways.macos);
    play(alloc, line, &mut store, row);
}

fn over_file(alloc: Global, line: &mut Line, disk: MemDisk, memory: Owned, row: &str) {
    let file = path_of(alloc, line, word(row, 1));
    let mut store = LocalFs::new_file(disk, memory, file, false);
    play(alloc, line, &mut store, row);
}

fn over_memory(alloc: Global, line: &mut Line, disk: MemDisk, memory: Owned, row: &str) {
    let mut disk = disk;
    let mut memory = memory;
    set_all(alloc, line, &mut disk, &mut memory, row);
    if word(row, 0) == "alone" {
        over_file(alloc, line, disk, memory, row);
    } else {
        over_folder(alloc, line, disk, memory, row);
    }
}

fn over_disk(alloc: Global, line: &mut Line, disk: MemDisk, row: &str) {
    match memory_of(alloc, line, row) {
        Some(memory) => over_memory(alloc, line, disk, memory, row),
        None => line.refuse(),
    }
}

fn answer_row(alloc: Global, line: &mut Line, row: &str) {
    match MemDisk::new(alloc) {
        Ok(disk) => over_disk(alloc, line, disk, row),
        Err(_) => line.refuse(),
    }
}

fn answer(alloc: Global, row: &str) -> Line {
    let mut line = Line::new(alloc);
    if row.starts_with("#") {
        line.add(row);
    } else {
        answer_row(alloc, &mut line, row);
    }
    line
}

fn main(rt: HostRuntime) -> io::Result<()> {
    for row in rt.lines(rt.alloc()) {
        let row = row?;
        let line = answer(rt.alloc(), row.as_str());
        println!(rt; "{}", line.as_str())?;
    }
    Ok(())
}
