//! Runs the program over objects in memory: a row a line on standard input, and what came of it a line on standard
//! output.
//!
//! A row is parts with `|` between them, and says what differs from a run over the words `folder serve`, an empty
//! input, and streams that move all bytes in a call and never fail. The disk has the files `f.txt` of ten digits and
//! `e.txt` of none.
//!
//!     words WORD,..        the words behind the program's name; `words` alone for none
//!     in TEXT              the input
//!     take COUNT           the most bytes that a call of the source gives
//!     put COUNT            the most bytes that a call of the sink takes
//!     room COUNT           for how many bytes the sink has room
//!     source-fails CALL    the call of the source of this number fails; likewise `sink-fails` and `disk-fails`
//!     cut COUNT            after the first piece of a body, `f.txt` is cut to so many bytes
//!     long COUNT           the file `long.bin` has so many bytes
//!     docs                 there is a directory `Docs` with the file `A.txt` of ten digits
//!     bare                 the disk has neither file; it stands first
//!     dir PATH             there is a directory at this path, names with slashes between them
//!     file PATH TEXT       there is a file with these bytes
//!     turn CHANGE,..       the next turn of the disk makes `remove PATH`, `cut PATH COUNT`, `dir PATH` or `file PATH
//!                          TEXT`; `turn` alone for none
//!     gains SECONDS        the clock gains so many seconds each time that it is asked
//!     listings             behind the rest stands how many listings the disk was asked for
//!     report               behind the rest stands what a fetch came to
//!     rooms                the run is made with each smaller room as well
//!
//! In a text each `%XX` is a byte, `N*TEXT` is so many copies of a text, and `^` stands between texts that are joined.
//! The answer is the status, whether the disk was asked, and what was written, where a byte that comes ten times or
//! more in a row is written as its number of times and once between braces. A row that begins with `#` is written as it
//! stands.
#![tactic(auto)]

mod cells;
mod clock;
mod rooms;
mod scene;
mod tree;

use anyhow::Result;
use cells::show;
use clock::GainingClock;
use dav_core::Disk;
use dav_io::{MemSink, MemSource, NoMemory};
use dav_serve::run::{Report, run};
use scene::{Scene, scene_of};
use std::alloc::Global;

/// What came of a run: its status, whether the disk was asked, and for how many listings, and what was written.
#[derive(Drop)]
pub struct Came {
    pub status: u8,
    pub asked: bool,
    pub listings: u64,
    pub sink: MemSink,
    pub report: Option<Report>,
}

/// Runs the program over a scene whose sink has so much room.
pub fn came_of(alloc: Global, scene: Scene, room: usize) -> Result<Came, NoMemory> {
    let Scene {
        words,
        mut disk,
        input,
        take,
        put,
        source_fails,
        sink_fails,
        gain,
        ..
    } = scene;
    let mut source = MemSource::new(input, take.max(1), source_fails);
    let mut sink = MemSink::new(alloc, room, put.max(1), sink_fails)?;
    let mut clock = GainingClock::new(gain);
    let mut report = None;
    let status = run(
        alloc,
        &words,
        &mut source,
        &mut sink,
        &mut disk,
        &mut clock,
        &mut report,
    );
    ended_with(status, disk.asked() > 0, disk.listings(), sink, report)
}

// What came of a run that wasn't refused memory. It stands apart from what the run owns.
fn ended_with(
    status: Result<u8, NoMemory>,
    asked: bool,
    listings: u64,
    sink: MemSink,
    report: Option<Report>,
) -> Result<Came, NoMemory> {
    Ok(Came {
        status: status?,
        asked,
        listings,
        sink,
        report,
    })
}

fn told(alloc: Global, came: &Came) -> Result<String> {
    let mut line = String::new(alloc);
    write!(line, "{}", came.status)?;
    line.push_str(if came.asked { " asked " } else { " unasked " })?;
    show(&mut line, came.sink.written())?;
    Ok(line)
}

// Tells what a fetch came to, where there was one.
fn tell_report(alloc: Global, line: &mut String, report: &Option<Report>) -> Result<()> {
    match report {
        Some(report) => {
            let text = report.line(alloc)?;
            write!(line, " | {text}")?;
        }
        None => line.push_str(" | no report")?,
    }
    Ok(())
}

fn answer(alloc: Global, row: &str) -> Result<String> {
    if row.starts_with('#') {
        return Ok(String::from_str(alloc, row)?);
    }
    let scene = scene_of(alloc, row)?;
    let room = scene.room;
    let came = came_of(alloc, scene, room)?;
    let mut line = told(alloc, &came)?;
    if row.ends_with("| listings") {
        write!(line, " | {} listings", came.listings)?;
    }
    if row.ends_with("| report") {
        tell_report(alloc, &mut line, &came.report)?;
    }
    if row.ends_with("| rooms") {
        rooms::tell(alloc, &mut line, row)?;
    }
    Ok(line)
}

fn main(rt: HostRuntime) -> Result<()> {
    for line in rt.lines(rt.alloc()) {
        match answer(rt.alloc(), line?.as_str()) {
            Ok(text) => println!(rt; "{text}")?,
            Err(error) => println!(rt; "{error}")?,
        }
    }
    Ok(())
}
