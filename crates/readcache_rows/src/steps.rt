//! Steps of a row, over any store.
//!
//!     open PATH HOW..        opens a file, without a word for reading alone; else HOW is `read`, `write`, `append`,
//!                            `truncate`, `create` or `create_new`
//!     read MOST              reads it, at most 64 bytes
//!     seek PLACE             moves it
//!     meta                   asks what is known of it
//!     write BYTES            writes to it; without bytes nothing is written
//!     flush
//!     GET PATH FIELD..       answers a GET, whose body is open then; HEAD likewise; a field is `NAME:VALUE`
//!     poll                   polls the body
//!     whole PATH COUNT       answers so many GETs to their end, and tells how many bytes came
//!     close                  ends what is open, as do `open`, `GET`, `HEAD` and `whole` before they begin
//!     take PATH              opens a file, reads it once and closes it
//!     look PATH              asks what stands there; `rm`, `mkdir` and `rmdir` remove or make it
//!     mv PATH PATH           moves what stands there; `cp` copies it
//!     turn                   a turn of the outside
//!     clear                  drops all contents that are held
//!     kept                   the sum of the bytes that are held, and the number of entries
ghost use Rattle.dav_readcache.specs.Cached.{cached_file};
ghost use Rattle.readcache_rows.specs.Open.{IsFor};

use crate::calls::call;
use crate::gets::{get, get_whole, open};
use crate::opened::{Opened, close, step_opened};
use crate::words::StepWords;
use dav_model::Settings;
use dav_readcache::{CachedFile, ReadCache};
use dav_rows::Line;
use dav_store::GuardedFileSystem;
use std::alloc::Global;

// A step before which what is open is closed.
fn step_afresh<S: GuardedFileSystem<()>>(
    alloc: Global,
    line: &mut Line,
    store: &mut S,
    said: &StepWords,
) -> Opened<S::File>
    ensures { IsFor S.File.view result (S.Disk.state (S.inside store.new)) }
{
    match said.kind.as_str() {
        "open" => open(line, store, said),
        "whole" => {
            get_whole(alloc, line, store, said);
            Opened::Nothing
        }
        "close" => {
            line.add("closed");
            Opened::Nothing
        }
        _ => get(alloc, line, store, &Settings::defaults(alloc), said),
    }
}

/// Makes a step, and gives what is open then.
pub fn step<S: GuardedFileSystem<()>>(
    alloc: Global,
    line: &mut Line,
    store: &mut S,
    opened: Opened<S::File>,
    said: &StepWords,
) -> Opened<S::File>
    requires { IsFor S.File.view opened (S.Disk.state (S.inside store.old)) }
    ensures { IsFor S.File.view result (S.Disk.state (S.inside store.new)) }
{
    match said.kind.as_str() {
        "open" | "GET" | "HEAD" | "whole" | "close" => {
            close(store.disk(), opened);
            step_afresh(alloc, line, store, said)
        }
        "take" | "look" | "rm" | "mkdir" | "rmdir" | "mv" | "cp" | "clear" => {
            call(alloc, line, store, said);
            opened
        }
        _ => {
            let mut opened = opened;
            step_opened(alloc, line, store.disk(), &mut opened, said);
            opened
        }
    }
}

/// Makes the steps of a row.
pub fn play<S: GuardedFileSystem<()>>(
    alloc: Global,
    line: &mut Line,
    store: &mut S,
    steps: &[StepWords],
) {
    let mut opened = Opened::Nothing;
    for said in steps {
        opened = step(alloc, line, store, opened, said);
        line.add(" | ");
    }
    close(store.disk(), opened);
}

/// Adds how many bytes are held, and in how many entries.
pub fn tell_kept<S>(line: &mut Line, cache: &ReadCache<S, ()>) {
    line.add_number("held ", cache.held());
    line.add_number(" in ", cache.count() as u64);
}

// Makes a step over a store that holds contents.
fn step_held<S: GuardedFileSystem<()>>(
    alloc: Global,
    line: &mut Line,
    cache: &mut ReadCache<S, ()>,
    opened: Opened<CachedFile<S::File>>,
    said: &StepWords,
) -> Opened<CachedFile<S::File>>
    requires { IsFor (cached_file S.File.view) opened (S.Disk.state (S.inside cache.old.store)) }
    ensures { IsFor (cached_file S.File.view) result (S.Disk.state (S.inside cache.new.store)) }
{
    match said.kind.as_str() {
        "clear" => cache.clear(),
        "kept" => {
            tell_kept(line, cache);
            return opened;
        }
        _ => {}
    }
    step(alloc, line, cache, opened, said)
}

/// Makes the steps of a row over a store that holds contents.
pub fn play_held<S: GuardedFileSystem<()>>(
    alloc: Global,
    line: &mut Line,
    cache: &mut ReadCache<S, ()>,
    steps: &[StepWords],
) {
    let mut opened = Opened::Nothing;
    for said in steps {
        opened = step_held(alloc, line, cache, opened, said);
        line.add(" | ");
    }
    close(cache.disk(), opened);
}
