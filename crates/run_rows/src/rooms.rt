//! A run that is made with each room that is smaller than what it writes.
use crate::came_of;
use crate::scene::scene_of;
use anyhow::Result;
use dav_io::Octets;
use std::alloc::Global;

/// How runs of each room went.
#[derive(Clone, Copy)]
struct Tally {
    runs: u64,
    // How many ended because the sink failed.
    stopped: u64,
    // How many wrote the front for which there was room.
    fronts: u64,
}

// All that is written where there is room.
fn whole_of(alloc: Global, row: &str) -> Result<Octets> {
    let scene = scene_of(alloc, row)?;
    let room = scene.room;
    let came = came_of(alloc, scene, room)?;
    let mut whole = Octets::empty(alloc);
    whole.extend(came.sink.written())?;
    Ok(whole)
}

fn tally_of(alloc: Global, row: &str, whole: &[u8]) -> Result<Tally> {
    let mut all = Tally {
        runs: 0,
        stopped: 0,
        fronts: 0,
    };
    for room in 0..whole.len() {
        let came = came_of(alloc, scene_of(alloc, row)?, room)?;
        all.runs = all.runs.saturating_add(1);
        if came.status == 4 {
            all.stopped = all.stopped.saturating_add(1);
        }
        if whole.get(..room) == Some(came.sink.written()) {
            all.fronts = all.fronts.saturating_add(1);
        }
    }
    Ok(all)
}

/// Adds of how many smaller rooms how many stopped the run, and how many were filled with the front of what is written.
pub fn tell(alloc: Global, line: &mut String, row: &str) -> Result<()> {
    let whole = whole_of(alloc, row)?;
    let Tally {
        runs,
        stopped,
        fronts,
    } = tally_of(alloc, row, whole.as_slice())?;
    write!(line, " | {runs} rooms, {stopped} stopped, {fronts} filled")?;
    Ok(())
}
