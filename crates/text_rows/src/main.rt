//! Escapes texts and decodes them, writes and reads pages, and reads paths, entity tags, dates and methods: a row a line
//! on standard input, and an answer a line on standard output.
//!
//! `entities.rt`, `pages.rt`, `paths.rt` and `values.rt` say which rows there are. Texts are percent-encoded, as they
//! come and as they are printed. A row that begins with `#` is written as it stands.
#![tactic(auto)]

mod entities;
mod pages;
mod paths;
mod values;

use dav_rows::Line;
use std::alloc::Global;
use std::io;

fn answer(alloc: Global, line: &mut Line, row: &str) {
    let (word, cell) = row.split_once(' ').unwrap_or((row, ""));
    if entities::answer(alloc, line, word, cell) || pages::answer(alloc, line, word, cell) {
        return;
    }
    paths::answer(alloc, line, row);
}

fn main(rt: HostRuntime) -> io::Result<()> {
    for row in rt.lines(rt.alloc()) {
        let mut line = Line::new(rt.alloc());
        answer(rt.alloc(), &mut line, row?.as_str());
        println!(rt; "{}", line.as_str())?;
    }
    Ok(())
}
