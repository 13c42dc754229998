//! Plays sessions that share caches, each in a thread of its own: a row a line on standard input, and the answers of
//! each session a line on standard output, with `&` between them.
//!
//! A row is scenes with `&` between them, one for each session, as `dav_scenes` reads them. The settings of the first
//! count for all. Of a scene that isn't `uncounted` it is told how often its disk was asked. The caches are new; what
//! stands before the scenes changes that or more:
//!
//!     room PATHS DOTS SCENE      over caches with room for so many paths, and for so many directories and names
//!                                together
//!     again SCENES               the caches are those of the row before
//!     least NUMBER SCENES        of the calls it is told alone whether all disks together were asked so many; `again`
//!                                may stand before it
//!     meet COUNT PATH SCENES     so many times over new caches: the first session is played by itself, and then all
//!                                others, each over a disk that waits, at its first look at the path, until the disks
//!                                of all others were looked at there. With `open:` before the path it waits at its
//!                                first opening there. Of each of these it is told whether it came there and all
//!                                others too, and then how many times told the same. Where they don't meet, that is
//!                                played once.
//!     twice SCENES               once more over new caches, which another thread purges all the time: it is told whether
//!                                all answers were the same. Each scene is to be `uncounted`.
//!     host FOLDER SCENES         each over this folder of the machine; nothing is told of calls
//!     told COUNT OTHERS          so many sessions over caches of folder 1 and the book that tells of it, each over a
//!                                disk that has what the book tells: the root and its directory `/d` of 1 s with the
//!                                file `/d/._a`. Behind them so many others over the same caches, with a `/d` of 2 s,
//!                                of which the book tells nothing, and in it the file `/d/._b`. Each asks for `/d/`,
//!                                `/d/._b` and `/d/._a`, with pages and the rules for macOS. A number that is missing
//!                                is 0.
//!
//! A row that begins with `#` is written as it stands, and one that isn't understood has no answer.
#![tactic(auto)]

mod meet;
mod meeting;
mod over;
mod played;
mod purged;
mod table;
mod told;

use dav_host::HostDisk;
use dav_rows::Line;
use dav_scenes::number;
use dav_shared::{SharedCache, UntoldBook};
use meet::meet;
use over::play_over;
use played::{play, room_for, room_for_all};
use purged::play_twice;
use std::alloc::Global;
use std::io;
use std::sync::Wait;
use std::thread::Threads;
use table::{table_of, tell_table};
use told::play_told;

// Plays a row over these caches.
fn play_row<R: Threads + Wait + Sync>(
    rt: &R,
    alloc: Global,
    cache: &Option<SharedCache<UntoldBook>>,
    line: &mut Line,
    row: &str,
) {
    let (Some(cache), Some(mut table)) = (cache, table_of(alloc, line, row)) else {
        return line.refuse();
    };
    let played = play(rt, alloc, cache, &table.ways, table.sessions.as_mut_slice());
    tell_table(line, &table);
    line.need(played);
}

// Empty caches for so many paths and so many names as the first two words of a row say, and the scenes behind them.
fn room_of(alloc: Global, row: &str) -> (Option<SharedCache<UntoldBook>>, &str) {
    let (paths, row) = row.split_once(' ').unwrap_or((row, ""));
    let (dots, scenes) = row.split_once(' ').unwrap_or((row, ""));
    (room_for(alloc, number(paths), number(dots)), scenes)
}

// Answers a row. The caches are kept for those that go on with them.
fn answer<R: Threads + Wait + Sync>(
    rt: &R,
    alloc: Global,
    kept: &mut Option<SharedCache<UntoldBook>>,
    line: &mut Line,
    row: &str,
) {
    if row.starts_with('#') {
        line.add(row);
    } else if let Some(scenes) = row.strip_prefix("again ") {
        play_row(rt, alloc, kept, line, scenes);
    } else if let Some(row) = row.strip_prefix("room ") {
        let (cache, scenes) = room_of(alloc, row);
        play_row(rt, alloc, &cache, line, scenes);
    } else if let Some(scenes) = row.strip_prefix("meet ") {
        meet(rt, alloc, line, scenes);
    } else if let Some(scenes) = row.strip_prefix("twice ") {
        play_twice(rt, alloc, line, scenes);
    } else if let Some(counts) = row.strip_prefix("told ") {
        play_told(rt, alloc, line, counts);
    } else {
        *kept = room_for_all(alloc);
        play_row(rt, alloc, kept, line, row);
    }
}

// A disk for each scene, all of one folder of the machine.
fn disks_of<'a>(
    rt: &'a HostRuntime,
    alloc: Global,
    folder: &str,
    scenes: &str,
) -> Option<Vec<HostDisk<&'a HostRuntime>>> {
    let mut disks = Vec::new(alloc);
    for _scene in scenes.split('&') {
        disks.push(HostDisk::new(alloc, rt, folder).ok()?).ok()?;
    }
    Some(disks)
}

fn main(rt: HostRuntime) -> io::Result<()> {
    let alloc = rt.alloc();
    let mut kept = None;
    for row in rt.lines(alloc) {
        let row = row?;
        let mut line = Line::new(alloc);
        if let Some(row) = row.as_str().strip_prefix("host ") {
            let (folder, scenes) = row.split_once(' ').unwrap_or((row, ""));
            match disks_of(&rt, alloc, folder, scenes) {
                Some(disks) => play_over(&rt, alloc, &mut line, scenes, disks),
                None => line.refuse(),
            }
        } else {
            answer(&rt, alloc, &mut kept, &mut line, row.as_str());
        }
        println!(rt; "{}", line.as_str())?;
    }
    Ok(())
}
