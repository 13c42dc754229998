//! Plays steps over a disk in memory: a row a line on standard input, and the answers a line on standard output.
//!
//! A row is parts with `|` between them, and a part is words with blanks between them. The parts in front say what
//! stands on the disk and how it behaves, and the parts behind them are steps, as `dav_scenes` reads them.
//!
//! Some rows have a first part of one word. At `collect` the body of one request is collected as a stream
//! (`streams.rt`). At `disk` and `sure` the parts are calls of a disk (`calls.rt`), and at `store` they are calls of a
//! local store (`stores.rt`). A row that begins with `#` is written as it stands.
//!
//! Answers have `|` between them: a reply with its status, the number of its body and its fields; a piece with its
//! bytes; `end`, `broken` or `done`. The last words say how many calls the disk was asked, unless names fold or the row
//! asks for no count, and how many of them failed. A row that isn't understood has no answer.
#![tactic(auto)]

mod calls;
mod stores;
mod streams;

use dav_cache::Owned;
use dav_disk::MemDisk;
use dav_handler::{Answer, DavConfig, Forget, LocalFs, Player, Remember, Settings, Step, play};
use dav_rows::Line;
use dav_scenes::{Room, Scene, scene_of, tell};
use std::alloc::Global;
use std::io;

// More steps than any row has.
const STEPS: usize = 100_000;

// A player over a store, with no reply yet.
fn player_over<R: Remember + Drop>(
    alloc: Global,
    store: LocalFs<MemDisk, R>,
    settings: Settings,
) -> Player<MemDisk, R> {
    let handler = DavConfig::new(alloc)
        .settings(settings)
        .filesystem(store)
        .build_handler();
    Player::new(handler)
}

// Adds the answers to these steps to those that were given, by a player that gave none yet.
fn play_all<R: Remember>(
    player: &mut Player<MemDisk, R>,
    line: &mut Line,
    steps: &[Step],
    answers: &mut Vec<Answer>,
) {
    if player.replies() > 0 || steps.len() > STEPS {
        line.refuse();
    } else if play(player, steps, answers).is_err() {
        line.refuse();
    }
}

// Plays these steps, and tells their answers.
fn tell_played<R: Remember>(
    alloc: Global,
    line: &mut Line,
    player: &mut Player<MemDisk, R>,
    steps: &[Step],
) {
    let mut answers = Vec::new(alloc);
    play_all(player, line, steps, &mut answers);
    tell(line, &answers);
}

// Adds how often a disk was asked, where that is told, and how many of its calls failed.
fn tell_counts(line: &mut Line, disk: &MemDisk, counted: bool) {
    if counted {
        line.add_number("asked ", disk.asked());
        line.add(", ");
    }
    line.add_number("failed ", disk.faults());
}

// Tells the counts of a player's disk.
fn tell_disk<R: Remember + Drop>(line: &mut Line, player: Player<MemDisk, R>, counted: bool) {
    let (disk, _memory) = player.into_parts();
    tell_counts(line, &disk, counted);
}

// Plays a scene to its end, over a store with this memory.
fn play_over<R: Remember + Drop>(alloc: Global, line: &mut Line, scene: Scene, memory: R) {
    let Scene {
        disk,
        settings,
        folds,
        macos,
        counted,
        steps,
        ..
    } = scene;
    let store = LocalFs::new(disk, memory, false, folds, macos);
    let mut player = player_over(alloc, store, settings);
    tell_played(alloc, line, &mut player, &steps);
    // A store whose names fold may find a path in several ways.
    tell_disk(line, player, counted && !folds);
}

// The memory of a room that isn't empty.
fn memory_of(alloc: Global, room: Room) -> Option<Owned> {
    if room.paths == 0 || room.dots == 0 {
        return None;
    }
    Owned::new(alloc, room.paths, room.dots).ok()
}

// Plays a scene to its end, over a store that remembers so much.
fn played_in(alloc: Global, line: &mut Line, scene: Scene, room: Room) {
    match memory_of(alloc, room) {
        Some(memory) => play_over(alloc, line, scene, memory),
        None => line.refuse(),
    }
}

// Plays a scene to its end.
fn played(alloc: Global, line: &mut Line, scene: Scene) {
    match scene.room {
        None => play_over(alloc, line, scene, Forget),
        Some(room) => played_in(alloc, line, scene, room),
    }
}

fn play_row(alloc: Global, line: &mut Line, row: &str) {
    match scene_of(alloc, line, row) {
        Some(scene) => played(alloc, line, scene),
        None => line.refuse(),
    }
}

fn answer(alloc: Global, line: &mut Line, row: &str) {
    match row.split(' ').next().unwrap_or("") {
        "#" => line.add(row),
        "collect" => streams::collected(alloc, line, row),
        "disk" => calls::calls(alloc, line, row),
        "sure" => calls::sure_calls(alloc, line, row),
        "store" => stores::calls(alloc, line, row),
        _ => play_row(alloc, line, row),
    }
}

fn main(rt: HostRuntime) -> io::Result<()> {
    for row in rt.lines(rt.alloc()) {
        let mut line = Line::new(rt.alloc());
        answer(rt.alloc(), &mut line, row?.as_str());
        println!(rt; "{}", line.as_str())?;
    }
    Ok(())
}
