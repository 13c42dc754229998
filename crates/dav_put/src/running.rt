//! What the program does: it stores an input, or sweeps what runs that were cut off left.
ghost use Rattle.std.specs.Prelude.{◌≡◌, ◌<◌, [], Bool, List, Some, length, ℕ, true};
ghost use Rattle.dav_io.specs.Counts.{Rose};
ghost use Rattle.dav_core.specs.DavPath.{WebPath};
ghost use Rattle.dav_core.specs.World.{World};
ghost use Rattle.dav_put.specs.declared.words.Task.TheVariants.{Store, Sweep};
ghost use Rattle.dav_put.specs.Performs.{Performs, StoresAt, SweepsAt, limit_of as the_limit_of, time_of as the_time_of};
ghost use Rattle.dav_put.specs.Whole.{EndsWhole, IsOpenTo};
ghost use Rattle.dav_methods.specs.Answers.{RefusesUsually};
ghost use Rattle.dav_upload.specs.Shown.{SameShown};
ghost use Rattle.dav_upload.specs.Steps.{HasClearNames};
ghost use Rattle.dav_upload.specs.Takes.{LeadsPlainly, TakesUploads};

use crate::ending::{Ending, ended_by};
use crate::storing::{Destination, Stop, store};
use crate::words::Task;
use dav_core::{DavPath, FileTime};
use dav_io::Source;
use dav_store::{DavFile, GuardedFileSystem};
use dav_upload::sweep_before;
use http::HeaderMap;
use std::alloc::Global;

// Stores an input at a path. At the root, which is a directory, nothing is.
fn store_at<S: GuardedFileSystem<C>, C, R: Source>(
    alloc: Global,
    fs: &mut S,
    credentials: &C,
    path: &DavPath,
    source: &mut R,
    buffer: &mut [u8],
    token: u64,
) -> Ending
    requires room { 0 < length buffer.old }
    ensures table { StoresAt S.view S.listings S.File.view.writes credentials.now path.now token fs.old (R.stream source.old) result fs.new
        (R.stream source.new) }
    ensures whole { (test : S → Bool) → TakesUploads S.view S.File.view.writes credentials.now test → test fs.old ≡ true
        → (v w : World) (bytes : List ℕ) → (S.view.state fs.old).told ≡ Some v → (S.view.state fs.new).told ≡ Some w
        → (R.stream source.old).bytes ≡ Some bytes → IsOpenTo v path.now.names
        → EndsWhole path.now.names bytes result v w }
{
    if path.names().as_slice().is_empty() {
        return Ending::Refused(405);
    }
    let fields = HeaderMap::new(alloc);
    let destination = Destination {
        path,
        fields: &fields,
        token,
    };
    match store(alloc, fs, credentials, &destination, source, buffer) {
        Ok(_outcome) => Ending::Done,
        Err(Stop::SourceFailed) => Ending::SourceFailed,
        Err(Stop::TooMuch) => Ending::SourceFailed,
        Err(Stop::Refused(error)) => ended_by(error),
    }
}

// The time of so many nanoseconds since 1970.
fn time_of(nanos: u64) -> FileTime
    ensures { result ≡ the_time_of nanos }
{
    FileTime {
        secs: (nanos / 1_000_000_000) as i64,
        nanos: (nanos % 1_000_000_000) as u32,
    }
}

// The time so many seconds before a moment, or 1970.
fn limit_of(moment: u64, older: u32) -> FileTime
    ensures { result ≡ the_limit_of moment older }
{
    time_of(moment.saturating_sub(older as u64 * 1_000_000_000))
}

// Removes what runs that were cut off left in a directory before a time.
fn sweep_at<S: GuardedFileSystem<C>, C>(
    alloc: Global,
    fs: &mut S,
    credentials: &C,
    dir: &DavPath,
    limit: FileTime,
) -> Ending
    ensures table { SweepsAt S.view S.listings S.File.view.writes credentials.now dir.now limit fs.old result fs.new }
    ensures unseen { (test : S → Bool) → TakesUploads S.view S.File.view.writes credentials.now test
        → LeadsPlainly S.view S.listings credentials.now test → test fs.old ≡ true
        → (v w : World) → (S.view.state fs.old).told ≡ Some v → (S.view.state fs.new).told ≡ Some w
        → HasClearNames v dir.now.names → SameShown v w }
{
    match sweep_before(alloc, fs, credentials, dir, limit) {
        Ok(_count) => Ending::Done,
        Err(error) => ended_by(error),
    }
}

/// Does what is asked for, over any store, and answers how it ends. Over a store whose calls do what the tree allows at
/// paths as they are written, and where no link stands on the way to the target: where the input is stored, the target
/// is a file of its bytes. Else what is shown is as it was; only where the disk failed or memory was wanting at the last
/// call, which moves the file to its place, it may be there whole. A sweep leaves what is shown. `table` tells which
/// calls of the store were made, and how it ends by what they gave. Over a store that refuses few things it ends with
/// `DiskFailed` only where the disk's count of faults rose. `moment` is in nanoseconds since 1970: a sweep goes back from
/// it, and it is the first token.
pub fn perform<S: GuardedFileSystem<C>, C, R: Source>(
    alloc: Global,
    fs: &mut S,
    credentials: &C,
    task: &Task,
    source: &mut R,
    buffer: &mut [u8],
    moment: u64,
) -> Ending
    requires room { 0 < length buffer.old }
    ensures table { Performs S.view S.listings S.File.view.writes credentials.now task.now moment fs.old (R.stream source.old) result fs.new
        (R.stream source.new) }
    ensures whole { (target : WebPath) → task.now ≡ Store target
        → (test : S → Bool) → TakesUploads S.view S.File.view.writes credentials.now test → test fs.old ≡ true
        → (v w : World) (bytes : List ℕ) → (S.view.state fs.old).told ≡ Some v → (S.view.state fs.new).told ≡ Some w
        → (R.stream source.old).bytes ≡ Some bytes → IsOpenTo v target.names
        → EndsWhole target.names bytes result v w }
    ensures unseen { (dir : WebPath) (older : ℕ) → task.now ≡ Sweep dir older
        → (test : S → Bool) → TakesUploads S.view S.File.view.writes credentials.now test
        → LeadsPlainly S.view S.listings credentials.now test → test fs.old ≡ true
        → (v w : World) → (S.view.state fs.old).told ≡ Some v → (S.view.state fs.new).told ≡ Some w
        → HasClearNames v dir.names → SameShown v w }
    ensures failed { RefusesUsually S.view S.listings S.File.view.writes credentials.now → result ≡ Ending.DiskFailed
        → Rose (S.view.state fs.old).faults (S.view.state fs.new).faults }
{
    match task {
        Task::Store(path) => store_at(alloc, fs, credentials, path, source, buffer, moment),
        Task::Sweep { dir, older } => {
            sweep_at(alloc, fs, credentials, dir, limit_of(moment, *older))
        }
    }
}
