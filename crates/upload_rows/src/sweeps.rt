//! Sweeps over any store: of all hidden names, and by age. What they answer is added to a line.
ghost use Rattle.dav_store.specs.Frames.{KeepsOpen};

use crate::steps::tell_refusal;
use crate::words::CallWords;
use dav_core::DavPath;
use dav_rows::Line;
use dav_store::GuardedFileSystem;
use dav_upload::{UploadError, left_before, sweep, sweep_before, take_each};
use std::alloc::Global;

fn tell_count(line: &mut Line, answer: Result<u64, UploadError>) {
    match answer {
        Ok(count) => line.add_number("swept ", count),
        Err(error) => tell_refusal(line, error),
    }
}

/// Sweeps a directory of all hidden names.
pub fn sweep_all<S: GuardedFileSystem<()>>(
    alloc: Global,
    line: &mut Line,
    fs: &mut S,
    said: &CallWords,
)
    ensures { KeepsOpen (S.view.state fs.old) (S.view.state fs.new) }
{
    tell_count(line, sweep(alloc, fs, &(), &said.path));
}

/// Sweeps a directory of the hidden names that were changed before a time.
pub fn sweep_before_time<S: GuardedFileSystem<()>>(
    alloc: Global,
    line: &mut Line,
    fs: &mut S,
    said: &CallWords,
)
    ensures { KeepsOpen (S.view.state fs.old) (S.view.state fs.new) }
{
    tell_count(line, sweep_before(alloc, fs, &(), &said.path, said.limit));
}

// Removes the files that were chosen, of which another client takes one before.
fn take_behind<S: GuardedFileSystem<()>>(
    line: &mut Line,
    fs: &mut S,
    paths: &[DavPath],
    other: &DavPath,
)
    ensures { KeepsOpen (S.view.state fs.old) (S.view.state fs.new) }
{
    let _answer = fs.remove_file(other, &());
    tell_count(line, take_each(fs, &(), paths));
}

/// Sweeps by age, where another client removes a file once the names are chosen.
pub fn sweep_meanwhile<S: GuardedFileSystem<()>>(
    alloc: Global,
    line: &mut Line,
    fs: &mut S,
    said: &CallWords,
)
    ensures { KeepsOpen (S.view.state fs.old) (S.view.state fs.new) }
{
    match left_before(alloc, fs, &(), &said.path, said.limit) {
        Ok(paths) => take_behind(line, fs, &paths, &said.other),
        Err(error) => tell_refusal(line, error),
    }
}
