//! A store that holds contents by their entity tags, over the local store: a row a line on standard input, and an answer
//! a line on standard output.
//!
//! A row is parts with ` | ` between them. The first names a store:
//!
//!     held ENTRIES ROOM MOST     one that holds at most so many contents, with so many bytes in all and in one
//!     plain                      the store inside alone
//!     both ENTRIES ROOM MOST     the first, and then the second over a disk of its own
//!     host FOLDER STORE          the first or the second over this folder of the machine
//!
//! Parts that set what stands there are those of `dav_scenes`: `dir`, `file`, `fail`, `short` and `batch`. Each other
//! part is a step (`steps.rt`), whose answer stands before a `|`. Behind the last step what is open is closed. The last
//! words are the sum of the bytes that are held and the number of entries, and how many calls the disk was asked; of
//! `both`, whether each step was answered alike by both stores. A row that begins with `#` is written as it stands.
#![tactic(auto)]

mod calls;
mod gets;
mod opened;
mod steps;
mod stores;
mod words;

use dav_disk::MemDisk;
use dav_host::HostDisk;
use dav_rows::{Line, word};
use dav_scenes::set_disk;
use dav_store::DavFileSystem;
use std::alloc::Global;
use std::io;
use steps::{play, play_held, tell_kept};
use stores::{held_over, plain_over};
use words::{StepWords, said};

// The disk that a row sets.
fn disk_of(alloc: Global, line: &mut Line, row: &str) -> Option<MemDisk> {
    let mut disk = MemDisk::new(alloc).ok()?;
    for part in row.split('|').skip(1) {
        let _sets = set_disk(alloc, &mut disk, line, part.trim());
    }
    Some(disk)
}

fn is_set(part: &str) -> bool {
    matches!(word(part, 0), "dir" | "file" | "fail" | "short" | "batch")
}

// The steps of a row.
fn steps_of(alloc: Global, row: &str) -> Option<Vec<StepWords>> {
    let mut steps = Vec::new(alloc);
    for part in row.split('|').skip(1) {
        if !is_set(part.trim()) {
            steps.push(said(alloc, part.trim())?).ok()?;
        }
    }
    Some(steps)
}

// Plays steps over a store that holds contents. What is held then, and how many calls the disk was asked, is told in a
// line of its own.
fn play_cache(
    alloc: Global,
    line: &mut Line,
    end: &mut Line,
    disk: MemDisk,
    store: &str,
    steps: &[StepWords],
) -> Option<()> {
    let mut cache = held_over(alloc, disk, store)?;
    play_held(alloc, line, &mut cache, steps);
    tell_kept(end, &cache);
    end.add_number(", asked ", DavFileSystem::disk(cache.inner()).asked());
    Some(())
}

// The same over the store inside alone.
fn play_plain(alloc: Global, line: &mut Line, end: &mut Line, disk: MemDisk, steps: &[StepWords]) {
    let mut store = plain_over(disk);
    play(alloc, line, &mut store, steps);
    end.add_number("asked ", DavFileSystem::disk(&mut store).asked());
}

// Answers a row over a disk in memory.
fn answer(alloc: Global, line: &mut Line, row: &str) -> Option<()> {
    let steps = steps_of(alloc, row)?;
    let mut end = Line::new(alloc);
    let disk = disk_of(alloc, &mut end, row)?;
    if word(row, 0) == "plain" {
        play_plain(alloc, line, &mut end, disk, &steps);
    } else {
        play_cache(alloc, line, &mut end, disk, row, &steps)?;
    }
    line.add(end.as_str());
    Some(())
}

// Answers a row over both stores, each over a disk of its own.
fn answer_both(alloc: Global, line: &mut Line, row: &str) -> Option<()> {
    let steps = steps_of(alloc, row)?;
    let mut plain = Line::new(alloc);
    let mut end = Line::new(alloc);
    let disk = disk_of(alloc, &mut end, row)?;
    play_cache(alloc, line, &mut end, disk, row, &steps)?;
    end.add(" and ");
    let disk = disk_of(alloc, &mut end, row)?;
    play_plain(alloc, &mut plain, &mut end, disk, &steps);
    let same = plain.as_str() == line.as_str();
    line.add(end.as_str());
    line.add_whether(", same ", same);
    Some(())
}

// Plays the steps of a row over a folder of the machine.
fn answer_host(rt: &HostRuntime, line: &mut Line, row: &str) -> Option<()> {
    let steps = steps_of(rt.alloc(), row)?;
    let disk = HostDisk::new(rt.alloc(), rt, word(row, 1)).ok()?;
    let store = row.splitn(3, ' ').nth(2).unwrap_or("");
    if word(store, 0) == "plain" {
        play(rt.alloc(), line, &mut plain_over(disk), &steps);
        return Some(());
    }
    let mut cache = held_over(rt.alloc(), disk, store)?;
    play_held(rt.alloc(), line, &mut cache, &steps);
    tell_kept(line, &cache);
    Some(())
}

fn main(rt: HostRuntime) -> io::Result<()> {
    for row in rt.lines(rt.alloc()) {
        let row = row?;
        let mut line = Line::new(rt.alloc());
        let done = match word(row.as_str(), 0) {
            "both" => answer_both(rt.alloc(), &mut line, row.as_str()),
            "host" => answer_host(&rt, &mut line, row.as_str()),
            "held" | "plain" => answer(rt.alloc(), &mut line, row.as_str()),
            _ => Some(line.add(row.as_str())),
        };
        line.need(done);
        println!(rt; "{}", line.as_str())?;
    }
    Ok(())
}
