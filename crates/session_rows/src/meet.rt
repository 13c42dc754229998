//! Rows whose sessions meet.
use crate::meeting::{Call, Meeting, MeetingDisk};
use crate::played::{Ways, play, room_for_all};
use crate::table::{Table, table_of, tell_session};
use dav_disk::MemDisk;
use dav_rows::Line;
use dav_scenes::{number, path_of};
use dav_sessions::Session;
use dav_shared::{SharedCache, UntoldBook};
use std::alloc::Global;
use std::sync::Wait;
use std::thread::Threads;

// More times than any row asks for.
const TIMES: u64 = 100_000;

// The session over a disk that meets others.
fn meeting_session<'a>(
    alloc: Global,
    meeting: &'a Meeting,
    session: Session<MemDisk>,
) -> Session<MeetingDisk<'a, MemDisk>> {
    let Session { disk, steps, .. } = session;
    Session::new(alloc, MeetingDisk::new(meeting, disk), steps)
}

// Plays sessions whose disks meet, and tells each. It answers whether all met.
fn play_meeting<R: Threads + Wait + Sync>(
    rt: &R,
    alloc: Global,
    cache: &SharedCache<UntoldBook>,
    ways: &Ways,
    line: &mut Line,
    meeting: &Meeting,
    sessions: Vec<Session<MemDisk>>,
) -> Option<bool> {
    let mut all = Vec::new(alloc);
    for session in sessions {
        all.push(meeting_session(alloc, meeting, session)).ok()?;
    }
    play(rt, alloc, cache, ways, all.as_mut_slice())?;
    let mut met = true;
    for session in &all {
        line.add(" & ");
        tell_session(line, session, session.disk.disk(), true);
        line.add_whether(", met ", session.disk.has_met());
        met = met && session.disk.has_met();
    }
    Some(met)
}

// The call that the first word of a row names, and its path.
fn call_of(word: &str) -> (Call, &str) {
    match word.strip_prefix("open:") {
        Some(path) => (Call::Opening, path),
        None => (Call::Look, word),
    }
}

// Plays the first session of a row by itself and then all others, and tells each. It answers whether these met.
fn play_once<R: Threads + Wait + Sync>(
    rt: &R,
    alloc: Global,
    line: &mut Line,
    row: &str,
) -> Option<bool> {
    let (word, scenes) = row.split_once(' ')?;
    let (call, path) = call_of(word);
    let cache = room_for_all(alloc)?;
    let Table {
        ways,
        mut sessions,
        ..
    } = table_of(alloc, line, scenes)?;
    let others = sessions.split_off(sessions.len().min(1)).ok()?;
    play(rt, alloc, &cache, &ways, sessions.as_mut_slice())?;
    for session in &sessions {
        tell_session(line, session, &session.disk, true);
    }
    let count = others.as_slice().len() as u64;
    let meeting = Meeting::new(call, path_of(alloc, path)?, count);
    play_meeting(rt, alloc, &cache, &ways, line, &meeting, others)
}

// What is told of a row that is played once, and whether its disks met.
fn told_once<R: Threads + Wait + Sync>(rt: &R, alloc: Global, row: &str) -> (Line, bool) {
    let mut line = Line::new(alloc);
    let met = play_once(rt, alloc, &mut line, row);
    line.need(met.map(|_met| ()));
    (line, met == Some(true))
}

/// Plays a row so many times as it says, and tells what the first of them told, and how many told the same. One whose
/// disks don't meet is played once: each time more would last as long.
pub fn meet<R: Threads + Wait + Sync>(rt: &R, alloc: Global, line: &mut Line, row: &str) {
    let (times, row) = row.split_once(' ').unwrap_or((row, ""));
    let (first, met) = told_once(rt, alloc, row);
    let more = if met { number(times).min(TIMES) } else { 1 };
    let mut alike: u64 = 1;
    for _ in 1..more {
        let (told, _) = told_once(rt, alloc, row);
        if told.as_str() == first.as_str() {
            alike = alike.saturating_add(1);
        }
    }
    line.add(first.as_str());
    line.add_number(", alike ", alike);
}
