//! Makes calls on disks in memory and on what a store remembers between calls: a row a line on standard input, and an
//! answer a line on standard output.
//!
//! `disks.rt` says which rows are of disks, and `caches.rt` which are of caches: their first words have colons. A row
//! that begins with `#` is written as it stands.
#![tactic(auto)]

mod cache_calls;
mod cache_words;
mod caches;
mod calls;
mod cells;
mod disks;
mod scene;
mod trees;

use dav_rows::{Line, word};
use std::alloc::Global;
use std::io;

fn answer(alloc: Global, row: &str) -> Line {
    let mut line = Line::new(alloc);
    if word(row, 0).contains(':') {
        caches::answer(alloc, &mut line, row);
    } else {
        disks::answer(alloc, &mut line, row);
    }
    line
}

fn main(rt: HostRuntime) -> io::Result<()> {
    for row in rt.lines(rt.alloc()) {
        let row = row?;
        let line = answer(rt.alloc(), row.as_str());
        println!(rt; "{}", line.as_str())?;
    }
    Ok(())
}
