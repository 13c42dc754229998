//! Calls of a store at paths. What is open stays so.
ghost use Rattle.dav_core.specs.Disk.{DiskState};
ghost use Rattle.dav_store.specs.Frames.{KeepsOpen};

use crate::opened::{tell_done, tell_meta};
use crate::words::StepWords;
use dav_core::OpenOptions;
use dav_rows::Line;
use dav_scenes::tell_bytes;
use dav_store::{GuardedFileSystem, file_close, file_read};
use std::alloc::Global;

// The most bytes that are read of a file.
const MOST_BYTES: usize = 64;

// Opens a file, reads it once and closes it.
#[tactic(auto, using(crate::proofs::Opens::read_closed))]
fn take<S: GuardedFileSystem<()>>(line: &mut Line, store: &mut S, said: &StepWords)
    ensures { KeepsOpen (S.view.state store.old) (S.view.state store.new) }
{
    match store.open(&said.path, OpenOptions::read(), &()) {
        Ok(mut file) => {
            let mut into = [0u8; MOST_BYTES];
            let read = file_read::<S, ()>(store, &mut file, &mut into);
            file_close::<S, ()>(store, file);
            match read {
                Ok(count) => {
                    line.add("=");
                    tell_bytes(line, into.get(..count).unwrap_or(b"?"));
                }
                Err(error) => line.add_value(&error),
            }
        }
        Err(error) => line.add_value(&error),
    }
}

fn look<S: GuardedFileSystem<()>>(alloc: Global, line: &mut Line, store: &mut S, said: &StepWords)
    ensures { KeepsOpen (S.view.state store.old) (S.view.state store.new) }
{
    match store.metadata(&said.path, &()) {
        Ok(meta) => tell_meta(alloc, line, &meta),
        Err(error) => line.add_value(&error),
    }
}

/// Makes a call at a path. What is none drops contents, where some are held.
pub fn call<S: GuardedFileSystem<()>>(
    alloc: Global,
    line: &mut Line,
    store: &mut S,
    said: &StepWords,
)
    ensures { KeepsOpen (S.view.state store.old) (S.view.state store.new) }
{
    match said.kind.as_str() {
        "take" => take(line, store, said),
        "look" => look(alloc, line, store, said),
        "rm" => tell_done(line, store.remove_file(&said.path, &())),
        "mkdir" => tell_done(line, store.create_dir(&said.path, &())),
        "rmdir" => tell_done(line, store.remove_dir(&said.path, &())),
        "mv" => tell_done(line, store.rename(&said.path, &said.to, &())),
        "cp" => tell_done(line, store.copy(&said.path, &said.to, &())),
        _ => line.add("cleared"),
    }
}
