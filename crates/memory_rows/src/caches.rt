//! Events over the core of the caches, and calls over the caches.
//!
//! A row is words with blanks between them. The first is `CALLERS:PATHS:DOTS`, the number of callers and the capacities
//! of the two caches. Each other word is an event, as `cache_words.rt` reads it. The tree at the start is the root
//! alone.
//!
//! Or the first word is `calls:PATHS:DOTS`. Then each other word is a call, as `cache_calls.rt` reads it:
//!
//!     insert:PATH:MOMENT, get:PATH    of the memory; `get` tells where the path was found, or `none`
//!     open:PATH                       as `get`, by an opening for reading; what was opened stays open
//!     negative:PATH:NAME              whether the name is denied: `absent` or `unknown`
//!     purge:MOMENT                    of the memory
//!     forget:PATH, forget-open:PATH   puts and gets a path in a memory that forgets all, or opens it
//!     list:PATH                       begins a listing
//!     add:NAME, fault, finish:MOMENT  of that listing
//!     many:COUNT                      adds so many names `._000001` .. to it, from the last to the first
//!     paths, dots, asked              the numbers of entries, and of calls that the disk was asked

use crate::cache_calls::{call, set_disk};
use crate::cache_words::{event, part, size, small, tree};
use dav_cache::{DUCacheBuilder, Event, Owned, Told, World};
use dav_core::{FsPath, Tree};
use dav_disk::MemDisk;
use dav_rows::{Line, word};
use std::alloc::Global;

/// Adds a path: its names, each behind a slash, and the root as a slash alone.
pub fn tell_path(line: &mut Line, path: &FsPath) {
    if path.as_slice().is_empty() {
        line.add("/");
    }
    for name in path.as_slice() {
        line.tell("/", name.as_str());
    }
}

// Adds what was told, in a word.
fn tell(line: &mut Line, told: &Told) {
    match told {
        Told::Nothing => line.add("-"),
        Told::Absent(true) => line.add("absent"),
        Told::Absent(false) => line.add("unknown"),
        Told::Path(None) => line.add("none"),
        Told::Path(Some(path)) => tell_path(line, path),
        Told::Misplaced => line.add("misplaced"),
    }
}

// Adds what is told of an event.
fn make(line: &mut Line, world: &mut World, event: &Event) {
    match world.step(event) {
        Ok(told) => tell(line, &told),
        Err(_) => line.refuse(),
    }
}

// Adds what is told of an event, where there is one.
fn make_if(line: &mut Line, world: &mut World, event: &Option<Event>) {
    match event {
        Some(event) => make(line, world, event),
        None => line.refuse(),
    }
}

// The event of a word that changes the disk.
fn change(alloc: Global, line: &mut Line, word: &str) -> Option<Event> {
    let secs = small(line, part(word, 1));
    match tree(alloc, line, secs, part(word, 2)) {
        Some(tree) => Some(Event::Change { tree }),
        None => None,
    }
}

// Adds what is told of the event of a word.
fn step(alloc: Global, line: &mut Line, world: &mut World, word: &str) {
    let event = if part(word, 0) == "change" {
        change(alloc, line, word)
    } else {
        event(alloc, line, word)
    };
    make_if(line, world, &event);
}

// Adds what is told of a row's events, with blanks between.
fn play_events(alloc: Global, line: &mut Line, world: &mut World, row: &str) {
    for (place, word) in row.split(' ').skip(1).enumerate() {
        line.add(if place == 0 { "" } else { " " });
        step(alloc, line, world, word);
    }
}

// Adds what a row's calls answer, with blanks between.
fn play_calls(
    alloc: Global,
    line: &mut Line,
    disk: &mut MemDisk,
    memory: &mut Owned,
    listing: &mut Option<DUCacheBuilder>,
    row: &str,
) {
    for (place, word) in row.split(' ').skip(1).enumerate() {
        line.add(if place == 0 { "" } else { " " });
        call(alloc, line, disk, memory, listing, word);
    }
}

// A row of events in the world of its first word, which begins with this tree.
fn answer_from(alloc: Global, line: &mut Line, tree: Tree, row: &str) {
    let first = word(row, 0);
    let callers = small(line, part(first, 0));
    let paths = size(line, part(first, 1));
    let dots = size(line, part(first, 2));
    match World::new(alloc, tree, callers, paths, dots) {
        Ok(mut world) => play_events(alloc, line, &mut world, row),
        Err(_) => line.refuse(),
    }
}

fn answer_events(alloc: Global, line: &mut Line, row: &str) {
    match tree(alloc, line, 0, "") {
        Some(tree) => answer_from(alloc, line, tree, row),
        None => line.refuse(),
    }
}

// Plays calls over a memory and a disk, of which no listing was begun.
fn answer_over(alloc: Global, line: &mut Line, disk: &mut MemDisk, memory: &mut Owned, row: &str) {
    let mut listing = None;
    set_disk(alloc, line, disk);
    play_calls(alloc, line, disk, memory, &mut listing, row);
}

fn answer_by(alloc: Global, line: &mut Line, memory: &mut Owned, row: &str) {
    match MemDisk::new(alloc) {
        Ok(mut disk) => answer_over(alloc, line, &mut disk, memory, row),
        Err(_) => line.refuse(),
    }
}

fn answer_calls(alloc: Global, line: &mut Line, row: &str) {
    let first = word(row, 0);
    let paths = size(line, part(first, 1));
    let dots = size(line, part(first, 2));
    match Owned::new(alloc, paths, dots) {
        Ok(mut memory) => answer_by(alloc, line, &mut memory, row),
        Err(_) => line.refuse(),
    }
}

/// Adds the answer to a row.
pub fn answer(alloc: Global, line: &mut Line, row: &str) {
    if part(word(row, 0), 0) == "calls" {
        answer_calls(alloc, line, row);
    } else {
        answer_events(alloc, line, row);
    }
}
