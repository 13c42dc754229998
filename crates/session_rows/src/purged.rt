//! Rows that are played once more, beside a thread that purges their caches all the time.
use crate::played::{Ways, play, room_for_all};
use crate::table::{Table, table_of, tell_table};
use dav_disk::MemDisk;
use dav_io::Moment;
use dav_rows::Line;
use dav_sessions::Session;
use dav_shared::{SharedCache, UntoldBook};
use std::alloc::Global;
use std::sync::Wait;
use std::sync::atomic::{AtomicBool, Ordering};
use std::thread;
use std::thread::Threads;

// Ten years from 1970: by then all is old that a row remembers.
const LATER: Moment = Moment(315_532_800_000_000_000);

// Purges the caches until the sessions are over.
fn purge_until<W: Wait>(rt: &W, cache: &SharedCache<UntoldBook>, over: &AtomicBool) {
    for _ in 0..u64::MAX {
        if over.load(Ordering::SeqCst) {
            return;
        }
        cache.purge(rt, LATER);
        thread::yield_now();
    }
}

// Plays sessions while another thread purges their caches.
fn play_purged<R: Threads + Wait + Sync>(
    rt: &R,
    alloc: Global,
    cache: &SharedCache<UntoldBook>,
    ways: &Ways,
    sessions: &mut [Session<MemDisk>],
) -> Option<()> {
    let over = AtomicBool::new(false);
    let (_, played) = thread::join(
        rt,
        || purge_until(rt, cache, &over),
        || {
            let played = play(rt, alloc, cache, ways, sessions);
            over.store(true, Ordering::SeqCst);
            played
        },
    );
    played
}

// Plays a row over new caches.
fn play_once<R: Threads + Wait + Sync>(
    rt: &R,
    alloc: Global,
    line: &mut Line,
    scenes: &str,
    purges: bool,
) -> Option<()> {
    let cache = room_for_all(alloc)?;
    let mut table = table_of(alloc, line, scenes)?;
    let Table { ways, sessions, .. } = &mut table;
    if purges {
        play_purged(rt, alloc, &cache, ways, sessions.as_mut_slice())?;
    } else {
        play(rt, alloc, &cache, ways, sessions.as_mut_slice())?;
    }
    tell_table(line, &table);
    Some(())
}

// What is told of a row that is played over new caches.
fn told_once<R: Threads + Wait + Sync>(rt: &R, alloc: Global, scenes: &str, purges: bool) -> Line {
    let mut line = Line::new(alloc);
    let played = play_once(rt, alloc, &mut line, scenes, purges);
    line.need(played);
    line
}

/// Plays a row, and once more while its caches are purged, and tells the answers and whether they were the same.
pub fn play_twice<R: Threads + Wait + Sync>(rt: &R, alloc: Global, line: &mut Line, scenes: &str) {
    let told = told_once(rt, alloc, scenes, false);
    let purged = told_once(rt, alloc, scenes, true);
    line.add(told.as_str());
    line.add_whether(", purged alike ", purged.as_str() == told.as_str());
}
