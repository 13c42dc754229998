//! What a row sets for all its sessions, and what is told of them.
use crate::played::Ways;
use dav_disk::MemDisk;
use dav_handler::Settings;
use dav_rows::Line;
use dav_scenes::{Scene, number, scene_of, tell};
use dav_sessions::{Session, StepList};
use std::alloc::Global;

/// The sessions of a row, and what they share beside the caches.
#[derive(Drop)]
pub struct Table {
    pub ways: Ways,
    pub sessions: Vec<Session<MemDisk>>,
    // How often all disks together must have been asked, where that alone is told.
    least: Option<u64>,
    counted: bool,
}

// The number behind the word `least`, and the scenes behind it.
fn least_of(row: &str) -> (Option<u64>, &str) {
    match row.strip_prefix("least ") {
        Some(rest) => match rest.split_once(' ') {
            Some((count, scenes)) => (Some(number(count)), scenes),
            None => (Some(number(rest)), ""),
        },
        None => (None, row),
    }
}

// The session of a scene, and what is set for it.
fn session_of(alloc: Global, scene: Scene) -> (Session<MemDisk>, Ways) {
    let Scene {
        disk,
        settings,
        folds,
        macos,
        steps,
        ..
    } = scene;
    let ways = Ways {
        settings,
        folds,
        macos,
    };
    (Session::new(alloc, disk, StepList::new(steps)), ways)
}

/// The sessions of a row. An empty row has none.
pub fn table_of(alloc: Global, line: &mut Line, row: &str) -> Option<Table> {
    let (least, scenes) = least_of(row);
    let mut table = Table {
        ways: Ways {
            settings: Settings::defaults(alloc),
            folds: false,
            macos: false,
        },
        sessions: Vec::new(alloc),
        least,
        counted: false,
    };
    if scenes.is_empty() {
        return Some(table);
    }
    for parts in scenes.split('&') {
        let scene = scene_of(alloc, line, parts)?;
        let counted = scene.counted;
        let (session, ways) = session_of(alloc, scene);
        if table.sessions.as_slice().is_empty() {
            table.ways = ways;
            table.counted = counted;
        }
        table.sessions.push(session).ok()?;
    }
    Some(table)
}

/// Adds the answers of a session, and of its disk how often it was asked, where that is told, and how often it failed.
pub fn tell_session<D>(line: &mut Line, session: &Session<D>, disk: &MemDisk, counted: bool) {
    tell(line, session.answers.as_slice());
    if session.outcome.is_err() {
        line.add("out of memory, ");
    }
    if counted {
        line.add_number("asked ", disk.asked());
        line.add(", ");
    }
    line.add_number("failed ", disk.faults());
}

/// Adds what is told of each session.
pub fn tell_table(line: &mut Line, table: &Table) {
    let counted = table.counted && table.least.is_none();
    let mut asked: u64 = 0;
    for (at, session) in table.sessions.as_slice().iter().enumerate() {
        if at > 0 {
            line.add(" & ");
        }
        tell_session(line, session, &session.disk, counted);
        asked = asked.saturating_add(session.disk.asked());
    }
    if let Some(least) = table.least {
        line.add_whether(", asked so often ", asked >= least);
    }
}
