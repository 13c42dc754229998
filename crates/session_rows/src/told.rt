//! Sessions over disks of which a book is true: it tells what they have, or nothing of their time.
ghost use Rattle.std.specs.Prelude.{◌≡◌, All, IfOk, OnOk};
ghost use Rattle.dav_disk.specs.Failing.{mem_state};
ghost use Rattle.session_rows.specs.Told.{AreQuiet, CanBeTold, IsQuiet, IsToldOf, TellsTree};

use crate::played::ROOM;
use crate::table::tell_session;
use dav_core::{FileTime, FsPath};
use dav_disk::MemDisk;
use dav_handler::{Settings, Step};
use dav_io::{Moment, NoMemory, Octets};
use dav_rows::Line;
use dav_scenes::number;
use dav_sessions::{Session, StepList, play_sessions};
use dav_shared::{OneBook, SharedCache};
use http::request::Parts;
use http::{Request, Uri};
use std::alloc::Global;
use std::sync::Wait;
use std::thread::Threads;

// More sessions of a kind than any row has.
const SESSIONS: u64 = 64;

// The root, the directory `/d` of this time, and in it a file of this name.
fn told_disk(alloc: Global, time: FileTime, name: &str) -> Result<MemDisk, NoMemory>
    requires { CanBeTold time name.now }
    ensures { IfOk result (λ disk. TellsTree time name.now (mem_state disk)) }
{
    let dir = FsPath::new(Vec::new(alloc)).child("d")?;
    let file = dir.child(name)?;
    let mut disk = MemDisk::new(alloc)?;
    disk.add_dir(&dir, 2, time)?;
    disk.add_file(&file, 3, time, b"a")?;
    Ok(disk)
}

// A GET at the moment 0.
fn get(alloc: Global, target: &str) -> Result<Step, NoMemory>
    ensures { IfOk result IsQuiet }
{
    let Ok(uri) = Uri::from_str(alloc, target) else {
        return Err(NoMemory);
    };
    let mut head = Parts::new(alloc);
    head.uri = uri;
    Ok(Step::Request {
        request: Request::from_parts(head, Octets::empty(alloc)),
        now: Moment(0),
    })
}

// What each session asks for.
fn asked_steps(alloc: Global) -> Result<Vec<Step>, NoMemory>
    ensures { IfOk result (λ steps. AreQuiet steps.items) }
{
    let mut steps = Vec::new(alloc);
    steps.push(get(alloc, "/d/")?)?;
    steps.push(get(alloc, "/d/._b")?)?;
    steps.push(get(alloc, "/d/._a")?)?;
    Ok(steps)
}

#[tactic(auto, using(crate::proofs::Fitting::told_still))]
fn told_session(alloc: Global, time: FileTime, name: &str) -> Result<Session<MemDisk>, NoMemory>
    requires { CanBeTold time name.now }
    ensures { IfOk result (λ s. IsToldOf (mem_state s.disk) s.steps) }
{
    let disk = told_disk(alloc, time, name)?;
    let steps = asked_steps(alloc)?;
    Ok(Session::new(alloc, disk, StepList::new(steps)))
}

// Adds so many sessions over such disks.
fn add_sessions(
    sessions: &mut Vec<Session<MemDisk>>,
    count: u64,
    time: FileTime,
    name: &str,
) -> Result<(), NoMemory>
    requires told { CanBeTold time name.now }
    requires others { All (λ s. IsToldOf (mem_state s.disk) s.steps) sessions.old.items }
    ensures { OnOk result (All (λ s. IsToldOf (mem_state s.disk) s.steps) sessions.new.items) }
{
    let alloc = *sessions.allocator();
    for _i in 0..count {
        sessions.push(told_session(alloc, time, name)?)?;
    }
    Ok(())
}

// So many sessions over disks of which the book tells the names, and behind them so many over disks on which `/d` has
// another time and other names.
fn told_sessions(alloc: Global, count: u64, others: u64) -> Result<Vec<Session<MemDisk>>, NoMemory>
    ensures { IfOk result (λ sessions. All (λ s. IsToldOf (mem_state s.disk) s.steps) sessions.items) }
{
    let mut sessions = Vec::new(alloc);
    add_sessions(&mut sessions, count, FileTime { secs: 1, nanos: 0 }, "._a")?;
    add_sessions(&mut sessions, others, FileTime { secs: 2, nanos: 0 }, "._b")?;
    Ok(sessions)
}

// Plays sessions over new caches of folder 1.
fn play_booked<R: Threads + Wait + Sync>(
    rt: &R,
    alloc: Global,
    sessions: &mut [Session<MemDisk>],
) -> Result<(), NoMemory>
    requires { All (λ s. IsToldOf (mem_state s.disk) s.steps) sessions.old }
{
    let cache: SharedCache<OneBook> = SharedCache::new(alloc, 1, ROOM, ROOM)?;
    let mut settings = Settings::defaults(alloc);
    settings.autoindex = Some(true);
    play_sessions(rt, alloc, &settings, false, true, &cache, sessions);
    Ok(())
}

fn played_sessions<R: Threads + Wait + Sync>(
    rt: &R,
    alloc: Global,
    count: u64,
    others: u64,
) -> Result<Vec<Session<MemDisk>>, NoMemory> {
    let mut sessions = told_sessions(alloc, count, others)?;
    play_booked(rt, alloc, sessions.as_mut_slice())?;
    Ok(sessions)
}

/// Plays so many sessions of both kinds as two numbers say, and tells each. A number that is missing is 0.
pub fn play_told<R: Threads + Wait + Sync>(rt: &R, alloc: Global, line: &mut Line, counts: &str) {
    let (count, others) = counts.split_once(' ').unwrap_or((counts, ""));
    let (count, others) = (number(count).min(SESSIONS), number(others).min(SESSIONS));
    let Ok(sessions) = played_sessions(rt, alloc, count, others) else {
        return line.refuse();
    };
    for (at, session) in sessions.iter().enumerate() {
        if at > 0 {
            line.add(" & ");
        }
        tell_session(line, session, &session.disk, false);
    }
}
