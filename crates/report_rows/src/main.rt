//! Calls what reads and makes the elements of calendars, address books and locks, what judges calendar texts, and what
//! selects resources of a store: a row a line on standard input, and what each call answers a line on standard output.
//!
//! A row is words with blanks between them; `trees.rt` says how words make an element tree, and `dav_rows` how a word
//! writes a text. A row `# WORD` begins a part, and is written as it stands. The parts are `elements` (`elements.rt`),
//! `calendars` (`calendars.rt`) and `selections` (`selecting.rt`).
#![tactic(auto)]

mod calendars;
mod components;
mod disks;
mod elements;
mod filters;
mod levels;
mod locks;
mod making;
mod selecting;
mod stores;
mod texts;
mod trees;
mod values;

use dav_io::Text;
use dav_rows::{Line, word};
use selecting::Stock;
use std::alloc::Global;
use std::io;

/// Which calls the rows make.
#[derive(Clone, Copy)]
enum Part {
    Elements,
    Calendars,
    Selections,
}

/// What rows leave for those behind them.
#[derive(Drop)]
struct Held {
    part: Part,
    /// The text that the rows of calendars judge.
    text: Text,
    stock: Stock,
}

impl Held {
    fn new(alloc: Global) -> Held {
        Held {
            part: Part::Elements,
            text: Text::new(String::new(alloc)),
            stock: Stock::new(alloc),
        }
    }
}

fn part_of(word: &str) -> Part {
    match word {
        "calendars" => Part::Calendars,
        "selections" => Part::Selections,
        _ => Part::Elements,
    }
}

// Adds the answer to a row, and says whether it has one.
fn answer(alloc: Global, held: &mut Held, line: &mut Line, row: &str) -> bool {
    if word(row, 0) == "#" {
        held.part = part_of(word(row, 1));
        line.add(row);
        return true;
    }
    match held.part {
        Part::Elements => {
            elements::answer(alloc, line, row);
            true
        }
        Part::Calendars => calendars::answer(alloc, line, &mut held.text, row),
        Part::Selections => selecting::answer(alloc, line, &mut held.stock, row),
    }
}

// The loop stands apart from what owns the disk, whose parts it would have to tell.
fn answer_all(rt: &HostRuntime, held: &mut Held) -> io::Result<()> {
    for row in rt.lines(rt.alloc()) {
        let row = row?;
        let mut line = Line::new(rt.alloc());
        if answer(rt.alloc(), held, &mut line, row.as_str()) {
            println!(rt; "{}", line.as_str())?;
        }
    }
    Ok(())
}

fn main(rt: HostRuntime) -> io::Result<()> {
    let mut held = Held::new(rt.alloc());
    answer_all(&rt, &mut held)
}
