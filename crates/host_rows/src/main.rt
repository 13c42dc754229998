//! Asks the machine: a row a line on standard input, and an answer a line on standard output. Rows are answered in
//! order, below the folder that the program runs in, so a row may look for what a row before it made.
//!
//!     folder PATH             makes a folder, and those that it stands in
//!     file PATH TEXT          writes a file
//!     symlink PATH TEXT       makes a symbolic link that leads to a text
//!     disk ROOT | CALL..      calls of a disk below a folder, with `|` between them
//!     take PATH               what two reads of a stream from a file give
//!     put PATH TEXT           what a stream into a new file took of a text
//!     stuck PATH TEXT         the same of a file that is opened for reading alone
//!     date PATH SECS NANOS    sets the time of a file or a folder: seconds from 1970 on, and nanoseconds
//!     store ROOT HOW | CALL.. calls of local stores below a folder, each of a store of its own
//!     alone PATH..            whether what stands at each path is for its owner alone
//!     clock                   whether the clock shows a moment behind the year 2020, and no earlier one afterwards
//!     #                       is written as it stands
//!
//! A disk's calls are `look PATH`, which tells what stands at a path; `link PATH`, which tells the same without
//! following a link at its end; `read PATH PLACE`, which opens a file and reads at most four bytes; `list PATH`, which
//! tells the first two names of a folder; `turn`; and those that change what stands: `write PATH HOW PLACE TEXT`, which
//! opens a file as letters say and writes a text (`r` and `w` read and write, `a` append, `t` truncate, `c` create, `n`
//! create_new, `p` public, `-` none), `make PATH`, `share PATH`, which makes a public one, and `clear PATH` of folders,
//! `remove PATH` of a file, `rename PATH PATH`, `copy PATH PATH`. `steps PATH HOW STEP..` opens a file as letters say, makes
//! steps while it is open and closes it: `seek@PLACE`, `read`, which reads at most three bytes, `write@TEXT`, and
//! `other@PATH`, which opens another file, reads there twice from its sixth byte on and closes it.
//!
//! Looks at numbers and times are made as a first word says: `look` and `link` as above, `open` by an opening, `again` by
//! an opening whose file is asked twice. `keep HOW PATH` keeps the number and the time; `same HOW PATH` tells whether both
//! are those that were kept, `number HOW PATH` tells it of the number; `since HOW PATH` whether the time isn't earlier than
//! the one that was kept, and not to come; `when HOW PATH` tells the time. What each call answers stands before a `|`, and behind them
//! how many calls met a fault. A name `COUNT*NAME` is so many copies of a name.
//!
//! What a local store makes is public where HOW has a `p`, and its names fold at `f`; `-` is neither. Its calls are `put PATH`,
//! which opens a file as a PUT does and closes it, `make PATH`, which makes a folder, and `defaults`, which makes the two
//! folders that a store has from its start. A path is percent-encoded, as that of a request.
#![tactic(auto)]

mod calls;
mod changes;
mod looks;
mod steps;
mod stores;
mod streams;

use anyhow::Result;
use std::alloc::Global;
use std::os::unix::fs::symlink;
use std::{fs, io};

/// A text of its own.
pub fn said(alloc: Global, text: &str) -> Result<String> {
    Ok(String::from_str(alloc, text)?)
}

fn answer(rt: &HostRuntime, row: &str) -> Result<String> {
    let alloc = rt.alloc();
    let mut words = row.splitn(3, ' ');
    let word = words.next().unwrap_or("");
    let path = words.next().unwrap_or("");
    let text = words.next().unwrap_or("");
    match word {
        "folder" => {
            fs::create_dir_all(rt, path)?;
            said(alloc, "made")
        }
        "file" => {
            fs::write(rt, path, text)?;
            said(alloc, "made")
        }
        "symlink" => {
            symlink(rt, text, path)?;
            said(alloc, "made")
        }
        "disk" => calls::calls(rt, path, text),
        "take" => streams::take(rt, path),
        "put" => streams::put(rt, path, text),
        "stuck" => streams::put_stuck(rt, path, text),
        "date" => {
            streams::date(rt, path, text)?;
            said(alloc, "made")
        }
        "store" => stores::stores(rt, path, text),
        "alone" => stores::alone(rt, row.split_once(' ').unwrap_or((row, "")).1),
        "clock" => streams::clock(rt),
        _ => said(alloc, row),
    }
}

fn main(rt: HostRuntime) -> io::Result<()> {
    for line in rt.lines(rt.alloc()) {
        match answer(&rt, line?.as_str()) {
            Ok(text) => println!(rt; "{text}")?,
            Err(error) => println!(rt; "{error}")?,
        }
    }
    Ok(())
}
