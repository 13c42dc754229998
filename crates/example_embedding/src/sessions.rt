//! Clients of one folder, whose stores share caches, as docs/CACHES.md shows it: two in threads of their own, and then
//! one that is answered step by step, as by a serving loop.
ghost use Rattle.std.specs.Prelude.{◌<◌, ◌^◌, All, IsTrue, length};

use anyhow::{Result, bail};
use dav_core::{FileTime, FsPath};
use dav_disk::MemDisk;
use dav_handler::{Answer, LocalFs, Player, Settings, Step};
use dav_io::{Moment, Octets};
use dav_sessions::{Session, StepList, play_sessions};
use dav_shared::{SharedCache, Sharing, UntoldBook};
use http::{Request, Uri};
use std::alloc::Global;
use std::sync::Wait;
use std::thread::Threads;

// The caches of a folder of which no book tells anything: room for 4,096 paths, and for 4,096 directories and names
// together. A server makes them once, and keeps them as long as it serves.
fn shared_caches(alloc: Global) -> Result<SharedCache<UntoldBook>> {
    let Ok(cache) = SharedCache::new(alloc, 1, 4096, 4096) else {
        bail!("out of memory");
    };
    Ok(cache)
}

/// A disk with the file `/letter.txt`.
pub fn folder(alloc: Global) -> Result<MemDisk> {
    let mut disk = MemDisk::new(alloc)?;
    let path = FsPath::new(Vec::new(alloc)).child("letter.txt")?;
    let time = FileTime { secs: 1, nanos: 0 };
    if disk.can_add(&path, 2, time) {
        disk.add_file(&path, 2, time, b"Dear reader")?;
    }
    Ok(disk)
}

// A client's only step: a GET by a name that folds like the file's.
fn step(alloc: Global) -> Result<Step> {
    let mut request = Request::new(alloc, Octets::empty(alloc));
    *request.uri_mut() = Uri::from_str(alloc, "/Letter.txt")?;
    let now = Moment(0);
    Ok(Step::Request { request, now })
}

// A client over a disk of its own.
fn client(alloc: Global) -> Result<Session<MemDisk>> {
    let mut steps = Vec::new(alloc);
    steps.push(step(alloc)?)?;
    Ok(Session::new(alloc, folder(alloc)?, StepList::new(steps)))
}

// Whether each client has fewer steps than a player can answer.
fn are_short(clients: &[Session<MemDisk>]) -> bool
    ensures { IsTrue result → All (λ s. length s.steps < 2 ^ 32) clients.now }
{
    clients
        .iter()
        .all(|client| client.steps.as_slice().len() <= 1000)
}

// Two clients, each answered in a thread of its own by a store of its own. Names fold, and there are no rules for
// macOS. Where a client's memory was refused, its `outcome` tells that it wasn't answered to the end.
fn play_clients<R: Threads + Wait + Sync>(
    rt: &R,
    alloc: Global,
    cache: &SharedCache<UntoldBook>,
) -> Result<Vec<Session<MemDisk>>> {
    let mut clients = Vec::new(alloc);
    clients.push(client(alloc)?)?;
    clients.push(client(alloc)?)?;
    if are_short(clients.as_slice()) {
        let settings = Settings::defaults(alloc);
        play_sessions(
            rt,
            alloc,
            &settings,
            true,
            false,
            cache,
            clients.as_mut_slice(),
        );
    }
    Ok(clients)
}

// Answers a step, and puts what it listed into the caches, where other clients find it.
fn answer<'a, W: Wait>(
    rt: &'a W,
    cache: &'a SharedCache<UntoldBook>,
    player: &mut Player<MemDisk, Sharing<'a, UntoldBook, W>>,
    step: &Step,
) -> Result<Answer> {
    if player.replies() == u32::MAX {
        bail!("no number is left for a reply");
    }
    let Ok(answer) = player.step(step) else {
        bail!("out of memory");
    };
    let left = player.replace_memory(Sharing::new(rt, cache));
    cache.settle(rt, left.into_waiting());
    Ok(answer)
}

fn status_of(answer: &Answer) -> u16 {
    match answer {
        Answer::Reply { status, .. } => *status,
        Answer::Piece(_) | Answer::End | Answer::Broken | Answer::Done => 0,
    }
}

/// The statuses of the answers to two clients in threads, and then to one that is answered step by step.
pub fn statuses<R: Threads + Wait + Sync>(rt: &R, alloc: Global) -> Result<Vec<u16>> {
    let cache = shared_caches(alloc)?;
    let mut statuses = Vec::new(alloc);
    for client in &play_clients(rt, alloc, &cache)? {
        for answer in client.answers.as_slice() {
            statuses.push(status_of(answer))?;
        }
    }
    let (disk, asked) = (folder(alloc)?, step(alloc)?);
    let store = LocalFs::new(disk, Sharing::new(rt, &cache), false, true, false);
    let mut player = Player::over(alloc, Settings::defaults(alloc), store);
    let last = answer(rt, &cache, &mut player, &asked);
    let _ = player.into_parts();
    statuses.push(status_of(&last?))?;
    Ok(statuses)
}
