//! Sessions over caches of which no book tells anything.
ghost use Rattle.std.specs.Prelude.{◌<◌, ◌^◌, All, length, IsTrue};

use dav_core::Disk;
use dav_handler::Settings;
use dav_sessions::{Session, play_sessions};
use dav_shared::{SharedCache, UntoldBook};
use std::alloc::Global;
use std::sync::Wait;
use std::thread::Threads;

// How many paths are remembered, and how many directories and names together.
pub const ROOM: usize = 64;

// More than any row asks for.
const MOST: u64 = 1_000;

// More steps than any row has.
const STEPS: usize = 100_000;

/// What all sessions of a row share beside the caches.
#[derive(Drop)]
pub struct Ways {
    pub settings: Settings,
    pub folds: bool,
    pub macos: bool,
}

// Whether each session has fewer steps than a player can answer.
fn are_short<D>(sessions: &[Session<D>]) -> bool
    ensures { IsTrue result → All (λ s. length s.steps < 2 ^ 32) sessions.now }
{
    sessions
        .iter()
        .all(|session| session.steps.as_slice().len() <= STEPS)
}

/// Empty caches.
pub fn room_for_all(alloc: Global) -> Option<SharedCache<UntoldBook>> {
    SharedCache::new(alloc, 1, ROOM, ROOM).ok()
}

/// Empty caches for so many paths, and for so many directories and names together, but for one each at least.
pub fn room_for(alloc: Global, paths: u64, dots: u64) -> Option<SharedCache<UntoldBook>> {
    let paths = paths.min(MOST) as usize;
    let dots = dots.min(MOST) as usize;
    SharedCache::new(alloc, 1, paths.max(1), dots.max(1)).ok()
}

/// Plays all sessions, unless one has more steps than any row has.
pub fn play<R: Threads + Wait + Sync, D: Disk + Send>(
    rt: &R,
    alloc: Global,
    cache: &SharedCache<UntoldBook>,
    ways: &Ways,
    sessions: &mut [Session<D>],
) -> Option<()> {
    if !are_short(sessions) {
        return None;
    }
    play_sessions(
        rt,
        alloc,
        &ways.settings,
        ways.folds,
        ways.macos,
        cache,
        sessions,
    );
    Some(())
}
