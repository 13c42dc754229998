//! Events by words. A word has cells with colons between them: the event's name, the caller, and what it is about.
//! A path is its names, each behind a slash. A tree is the root's time in seconds, and rows with commas between them: a
//! directory with its time behind `@`, or a file. Moments are in milliseconds.
ghost use Rattle.std.specs.Prelude.{◌<◌};

use crate::cells::{path_of, root};
use dav_cache::Event;
use dav_core::{FileTime, FsPath, Kind, Row, Tree};
use dav_io::{Moment, Text};
use dav_rows::Line;
use std::alloc::Global;

/// The cell of this number in a word.
pub fn part(word: &str, n: usize) -> &str {
    word.split(':').nth(n).unwrap_or("")
}

/// A number of digits.
pub fn small(line: &mut Line, cell: &str) -> u32 {
    match cell.parse::<u32>() {
        Ok(number) => number,
        Err(_) => {
            line.refuse();
            0
        }
    }
}

/// A capacity, which is at least one.
pub fn size(line: &mut Line, cell: &str) -> usize
    ensures { 0 < result }
{
    let size = small(line, cell) as usize;
    if size == 0 {
        line.refuse();
        return 1;
    }
    size
}

/// A moment by its milliseconds.
pub fn moment(line: &mut Line, cell: &str) -> Moment {
    Moment(u64::from(small(line, cell)) * 1_000_000)
}

/// A name, as a cell has it.
pub fn name_of(alloc: Global, line: &mut Line, cell: &str) -> Text {
    match Text::copy(alloc, cell) {
        Ok(name) => name,
        Err(_) => {
            line.refuse();
            Text::new(String::new(alloc))
        }
    }
}

// A directory, by its path, its number, and its time in seconds.
fn directory(path: FsPath, number: u64, secs: u32) -> Row {
    Row {
        path,
        kind: Kind::Dir,
        number,
        time: FileTime {
            secs: i64::from(secs),
            nanos: 0,
        },
    }
}

fn file(path: FsPath, number: u64) -> Row {
    Row {
        path,
        kind: Kind::File,
        number,
        time: FileTime { secs: 0, nanos: 0 },
    }
}

fn row(alloc: Global, line: &mut Line, cell: &str, number: u64) -> Row {
    match cell.split_once('@') {
        Some((place, secs)) => {
            let secs = small(line, secs);
            directory(path_of(alloc, line, place), number, secs)
        }
        None => file(path_of(alloc, line, cell), number),
    }
}

fn add_row(alloc: Global, line: &mut Line, rows: &mut Vec<Row>, cell: &str) {
    let place = rows.len() as u64;
    let row = row(alloc, line, cell, place.wrapping_add(1));
    line.need(rows.push(row).ok());
}

fn add_root(alloc: Global, line: &mut Line, rows: &mut Vec<Row>, secs: u32) {
    line.need(rows.push(directory(root(alloc), 1, secs)).ok());
}

fn add_rows(alloc: Global, line: &mut Line, rows: &mut Vec<Row>, cells: &str) {
    for cell in cells.split(',') {
        if !cell.is_empty() {
            add_row(alloc, line, rows, cell);
        }
    }
}

// A tree of these rows, where they are one.
fn tree_of(rows: Vec<Row>) -> Option<Tree> {
    if Tree::fits(&rows) {
        Some(Tree::new(rows))
    } else {
        None
    }
}

/// The root of this time with what rows have, where they are a tree.
pub fn tree(alloc: Global, line: &mut Line, secs: u32, cells: &str) -> Option<Tree> {
    let mut rows = Vec::new(alloc);
    add_root(alloc, line, &mut rows, secs);
    add_rows(alloc, line, &mut rows, cells);
    tree_of(rows)
}

fn purge(line: &mut Line, word: &str) -> Event {
    Event::Purge {
        now: moment(line, part(word, 2)),
        dots: part(word, 1) == "dots",
    }
}

fn caller_of(line: &mut Line, word: &str) -> u32 {
    small(line, part(word, 1))
}

fn seal(line: &mut Line, word: &str) -> Event {
    Event::Seal {
        caller: caller_of(line, word),
        room: u64::from(small(line, part(word, 2))),
        now: moment(line, part(word, 3)),
    }
}

fn ask(alloc: Global, line: &mut Line, word: &str) -> Event {
    Event::Ask {
        caller: caller_of(line, word),
        dir: path_of(alloc, line, part(word, 2)),
        name: name_of(alloc, line, part(word, 3)),
    }
}

fn insert(alloc: Global, line: &mut Line, word: &str) -> Event {
    Event::Insert {
        caller: caller_of(line, word),
        path: path_of(alloc, line, part(word, 2)),
        now: moment(line, part(word, 3)),
    }
}

fn begin(alloc: Global, line: &mut Line, word: &str) -> Event {
    Event::Begin {
        caller: caller_of(line, word),
        dir: path_of(alloc, line, part(word, 2)),
    }
}

fn find(alloc: Global, line: &mut Line, word: &str) -> Event {
    Event::Find {
        caller: caller_of(line, word),
        path: path_of(alloc, line, part(word, 2)),
    }
}

// The event of a caller that asks the disk, which may be refused.
fn asked(name: &str, caller: u32, refused: bool) -> Option<Event> {
    Some(match name {
        "check" => Event::Check { caller, refused },
        "before" => Event::Before { caller, refused },
        "next" => Event::ListNext { caller, refused },
        "after" => Event::After { caller, refused },
        "probe" => Event::Probe { caller, refused },
        _ => return None,
    })
}

// The event of a caller alone.
fn alone(name: &str, caller: u32) -> Option<Event> {
    Some(match name {
        "peek" => Event::Peek { caller },
        "conclude" => Event::Conclude { caller },
        "dropdir" => Event::DropDir { caller },
        "get" => Event::Get { caller },
        "drop" => Event::Drop { caller },
        _ => return None,
    })
}

fn short(line: &mut Line, word: &str) -> Option<Event> {
    let caller = caller_of(line, word);
    match asked(part(word, 0), caller, part(word, 2) == "refused") {
        Some(event) => Some(event),
        None => alone(part(word, 0), caller),
    }
}

/// The event of a word, where it has one. That of a change is made elsewhere.
pub fn event(alloc: Global, line: &mut Line, word: &str) -> Option<Event> {
    match part(word, 0) {
        "purge" => Some(purge(line, word)),
        "seal" => Some(seal(line, word)),
        "ask" => Some(ask(alloc, line, word)),
        "insert" => Some(insert(alloc, line, word)),
        "begin" => Some(begin(alloc, line, word)),
        "find" => Some(find(alloc, line, word)),
        _ => short(line, word),
    }
}
