//! Uploads over the local store and a disk in memory: a row a line on standard input, and an answer a line on standard
//! output.
//!
//! A row is parts with ` | ` between them. Those of `scene.rt` set what stands there and which calls fail. Each other
//! part is a call, whose answer stands before a `|`. Two uploads may be under way, those of the slots 1 and 2:
//!
//!     SLOT begin PATH TOKEN FIELD..   begins an upload; the token is written in hexadecimal digits
//!     SLOT piece BYTES                writes a piece
//!     SLOT commit FIELD..             ends it
//!     SLOT abort                      gives it up
//!     sweep PATH                      sweeps a directory, and answers how many files went
//!     before PATH SECONDS NANOS       sweeps what was changed before this time; without NANOS at the whole second
//!     meanwhile PATH SECONDS OTHER    the same, where another client removes the file OTHER once the names are chosen
//!     get PATH                        the bytes of a file, at most 64
//!     open PATH                       opens a file, which stays open to the calls that follow
//!     read COUNT                      reads on in it, at most 64 bytes
//!     close                           closes it
//!     names PATH                      the names in a directory, hidden ones too
//!     rm PATH                         removes a file, as another client would; `mkdir` makes a directory
//!
//! Behind the last part uploads that are under way are given up, and what is open is closed. The last word is how many
//! calls the disk was asked. A row that begins with `#` is written as it stands.
#![tactic(auto)]

ghost use Rattle.std.specs.Prelude.{None};
ghost use Rattle.dav_core.specs.Disk.{DiskState};
ghost use Rattle.dav_store.specs.Frames.{KeepsOpen};
ghost use Rattle.upload_rows.specs.Slots.{Goes, IsLive, upload_of};

mod reading;
mod scene;
mod steps;
mod sweeps;
mod words;

use dav_cache::Owned;
use dav_core::{FsError, Member};
use dav_disk::MemDisk;
use dav_local::LocalFs;
use dav_rows::Line;
use dav_store::{DavFile, GuardedFileSystem, read_members};
use dav_upload::{Upload, abort};
use reading::{close, get, read_on};
use scene::{is_set, set_all};
use std::alloc::Global;
use std::io;
use steps::step;
use sweeps::{sweep_all, sweep_before_time, sweep_meanwhile};
use words::{CallWords, said};

fn tell_members(line: &mut Line, members: &[Member]) {
    line.add_number("names ", members.len() as u64);
    for member in members {
        line.tell(" ", member.name.as_str());
    }
}

fn tell_names(line: &mut Line, answer: Result<Vec<Member>, FsError>) {
    match answer {
        Ok(members) => tell_members(line, members.as_slice()),
        Err(error) => line.add_value(&error),
    }
}

fn tell_done(line: &mut Line, answer: Result<(), FsError>) {
    match answer {
        Ok(()) => line.add("done"),
        Err(error) => line.add_value(&error),
    }
}

// Makes a call of no upload, and of no reader that stays.
fn call<S: GuardedFileSystem<()>>(alloc: Global, line: &mut Line, store: &mut S, said: &CallWords)
    ensures { KeepsOpen (S.view.state store.old) (S.view.state store.new) }
{
    match said.kind.as_str() {
        "sweep" => sweep_all(alloc, line, store, said),
        "before" => sweep_before_time(alloc, line, store, said),
        "meanwhile" => sweep_meanwhile(alloc, line, store, said),
        "get" => get(line, store, &said.path),
        "names" => tell_names(line, read_members(alloc, store, &said.path, &())),
        "rm" => tell_done(line, store.remove_file(&said.path, &())),
        "mkdir" => tell_done(line, store.create_dir(&said.path, &())),
        _ => line.add("no call"),
    }
}

// Gives up an upload that is under way.
#[tactic(auto, using(crate::proofs::SlotsGo::goes_ended, crate::proofs::SlotsGo::goes_same))]
fn give_up<S: GuardedFileSystem<()>>(store: &mut S, slot: Option<Upload<S::File>>)
    requires { IsLive (upload_of S.view.file.handle slot) (S.view.state store.old) }
    ensures { Goes (upload_of S.view.file.handle slot) (S.view.state store.old) None (S.view.state store.new) }
{
    match slot {
        Some(upload) => {
            let _answer = abort(store, &(), upload);
        }
        None => {}
    }
}

// Makes the calls of a row.
fn play<S: GuardedFileSystem<()>>(
    alloc: Global,
    line: &mut Line,
    store: &mut S,
    calls: &[CallWords],
)
    requires { (f : S.File) (s : DiskState) → S.view.file.reads_from f s }
{
    let mut one: Option<Upload<S::File>> = None;
    let mut other: Option<Upload<S::File>> = None;
    let mut reader: Option<S::File> = None;
    'calls: for said in calls {
        match said.call() {
            Some(made) => {
                if said.second {
                    other = step(alloc, line, store, other, &made, &said.fields);
                } else {
                    one = step(alloc, line, store, one, &made, &said.fields);
                }
            }
            None => match said.reading() {
                Some(made) => reader = read_on(line, store, reader, &made),
                None => call(alloc, line, store, said),
            },
        }
        line.add(" | ");
    }
    give_up(store, one);
    give_up(store, other);
    close(store, reader);
}

fn add_call(alloc: Global, line: &mut Line, calls: &mut Vec<CallWords>, part: &str) {
    match said(alloc, line, part) {
        Some(call) => line.need(calls.push(call).ok()),
        None => line.refuse(),
    }
}

// Adds the calls of a row.
fn add_calls(alloc: Global, line: &mut Line, calls: &mut Vec<CallWords>, row: &str) {
    for part in row.split('|') {
        if !is_set(part.trim()) {
            add_call(alloc, line, calls, part.trim());
        }
    }
}

fn tell_disk(line: &mut Line, store: LocalFs<MemDisk, Owned>) {
    let (disk, _memory) = store.into_parts();
    line.add_number("asked ", disk.asked());
}

// Makes calls of a store over this disk, which remembers a path and a name.
fn play_over(alloc: Global, line: &mut Line, disk: MemDisk, memory: Owned, calls: &[CallWords]) {
    let mut store = LocalFs::new(disk, memory, false, false, false);
    play::<LocalFs<MemDisk, Owned>>(alloc, line, &mut store, calls);
    tell_disk(line, store);
}

fn play_on(alloc: Global, line: &mut Line, disk: MemDisk, calls: &[CallWords]) {
    match Owned::new(alloc, 1, 1) {
        Ok(memory) => play_over(alloc, line, disk, memory, calls),
        Err(_) => line.refuse(),
    }
}

fn play_row(alloc: Global, line: &mut Line, row: &str, calls: &[CallWords]) {
    match MemDisk::new(alloc) {
        Ok(mut disk) => {
            set_all(alloc, &mut disk, line, row);
            play_on(alloc, line, disk, calls);
        }
        Err(_) => line.refuse(),
    }
}

fn answer(alloc: Global, line: &mut Line, row: &str) {
    if row.starts_with('#') {
        line.add(row);
        return;
    }
    let mut calls = Vec::new(alloc);
    add_calls(alloc, line, &mut calls, row);
    play_row(alloc, line, row, &calls);
}

fn main(rt: HostRuntime) -> io::Result<()> {
    for row in rt.lines(rt.alloc()) {
        let mut line = Line::new(rt.alloc());
        answer(rt.alloc(), &mut line, row?.as_str());
        println!(rt; "{}", line.as_str())?;
    }
    Ok(())
}
