//! Rows over disks that stand already.
use crate::played::{play, room_for_all};
use crate::table::{Table, table_of};
use dav_core::Disk;
use dav_rows::Line;
use dav_scenes::tell;
use dav_sessions::Session;
use std::alloc::Global;
use std::sync::Wait;
use std::thread::Threads;

// Plays the sessions of a row over these disks in place of their own, as far as there are both.
fn played_over<R: Threads + Wait + Sync, D: Disk + Send + Drop>(
    rt: &R,
    alloc: Global,
    line: &mut Line,
    scenes: &str,
    disks: Vec<D>,
) -> Option<Vec<Session<D>>> {
    let cache = room_for_all(alloc)?;
    let Table { ways, sessions, .. } = table_of(alloc, line, scenes)?;
    let mut all = Vec::new(alloc);
    for (session, disk) in sessions.into_iter().zip(disks) {
        let Session { steps, .. } = session;
        all.push(Session::new(alloc, disk, steps)).ok()?;
    }
    play(rt, alloc, &cache, &ways, all.as_mut_slice())?;
    Some(all)
}

/// Plays the sessions of a row over these disks and new caches, and tells the answers of each.
pub fn play_over<R: Threads + Wait + Sync, D: Disk + Send + Drop>(
    rt: &R,
    alloc: Global,
    line: &mut Line,
    scenes: &str,
    disks: Vec<D>,
) {
    let Some(sessions) = played_over(rt, alloc, line, scenes, disks) else {
        return line.refuse();
    };
    for session in &sessions {
        tell(line, session.answers.as_slice());
        line.add("& ");
    }
}
