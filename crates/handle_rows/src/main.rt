//! Polls bodies, and puts requests to a handler over a disk in memory: a row a line on standard input, and the answers a
//! line on standard output.
//!
//! `bodies.rt` says which rows poll a body: their first word tells. A row of requests is parts with `|` between them. The
//! first names a form and settings: `handle`, `guarded`, `stream`, `with`, `stream_with`, or `none`, `none_guarded`,
//! `none_stream`, `none_with` and `none_stream_with` for a handler without a store; behind it settings as `NAME=VALUE`
//! (`settings.rt`). Behind a word `;` stand those of the configuration that is given with each request (`stores.rt`).
//! Each other part is a request to the same handler (`requests.rt`); a last word `left` gives the answer's body up
//! without a poll.
//!
//! An answer is a status, its fields, and the bytes of its body. A row `merge` has settings in its two parts, and is
//! answered with those that are set once the second ones are put over the first. A row that begins with `#` is written
//! as it stands.
#![tactic(auto)]

mod asked;
mod bodies;
mod readers;
mod requests;
mod seen;
mod settings;
mod steps;
mod stores;
mod told;

use asked::{Form, answers};
use dav_disk::MemDisk;
use dav_rows::{Line, word};
use settings::{config_of, tell_merged};
use std::alloc::{AllocGlobal, Global};
use std::io;
use std::random::RandomSource;
use std::sync::Wait;
use stores::{set_own, store_of};

fn answer_without(alloc: Global, line: &mut Line, form: Form<'_>, words: &str, parts: &str) {
    let mut handler = config_of(alloc, line, words).build_handler();
    answers(alloc, line, &mut handler, form, parts);
}

fn answer_over(
    alloc: Global,
    line: &mut Line,
    disk: MemDisk,
    form: Form<'_>,
    words: &str,
    parts: &str,
) {
    let mut disk = disk;
    set_own(alloc, line, &mut disk);
    let config = config_of(alloc, line, words).filesystem(store_of(disk));
    let mut handler = config.build_handler();
    answers(alloc, line, &mut handler, form, parts);
}

fn answer_with_disk(alloc: Global, line: &mut Line, form: Form<'_>, words: &str, parts: &str) {
    match MemDisk::new(alloc) {
        Ok(disk) => answer_over(alloc, line, disk, form, words, parts),
        Err(_) => line.refuse(),
    }
}

// A handler has a store, unless its form has none.
fn answer_requests(alloc: Global, line: &mut Line, form: Form<'_>, words: &str, parts: &str) {
    if form.name.starts_with("none") {
        answer_without(alloc, line, form, words, parts);
    } else {
        answer_with_disk(alloc, line, form, words, parts);
    }
}

// Answers a row by the words of its first part.
fn answer_row(alloc: Global, line: &mut Line, row: &str) {
    let (words, parts) = row.split_once('|').unwrap_or((row, ""));
    let words = words.trim();
    let (name, words) = words.split_once(' ').unwrap_or((words, ""));
    if name == "merge" {
        tell_merged(alloc, line, words, parts.trim());
        return;
    }
    let (words, given) = words.split_once(';').unwrap_or((words, ""));
    let given = given.trim();
    answer_requests(alloc, line, Form { name, given }, words.trim(), parts);
}

fn answer<R: Wait + RandomSource + AllocGlobal>(rt: &R, alloc: Global, line: &mut Line, row: &str) {
    if word(row, 0) == "#" {
        line.add(row);
    } else if !bodies::answer(rt, alloc, line, row) {
        answer_row(alloc, line, row);
    }
}

fn main(rt: HostRuntime) -> io::Result<()> {
    for row in rt.lines(rt.alloc()) {
        let row = row?;
        let mut line = Line::new(rt.alloc());
        answer(&rt, rt.alloc(), &mut line, row.as_str());
        println!(rt; "{}", line.as_str())?;
    }
    Ok(())
}
