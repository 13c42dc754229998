//! What the program does over a folder: over a local store.
ghost use Rattle.std.specs.Prelude.{◌≡◌, ◌<◌, ℕ, Bool, List, None, Result, Some, length, true};
ghost use Rattle.dav_io.specs.Counts.{Rose};
ghost use Rattle.dav_core.specs.DavPath.{WebPath};
ghost use Rattle.dav_core.specs.World.{World};
ghost use Rattle.dav_model.specs.Finding.{is_clear};
ghost use Rattle.dav_put.specs.Ending.{ending_swept};
ghost use Rattle.dav_local.specs.declared.fs.LocalFs.{LocalFs};
ghost use Rattle.dav_put.specs.Performs.{Performs, limit_of, store_of};
ghost use Rattle.dav_put.specs.Whole.{EndsWhole, IsOpenTo};
ghost use Rattle.dav_put.specs.declared.words.Task.TheVariants.{Store, Sweep};
ghost use Rattle.dav_upload.specs.Shown.{SameShown};
ghost use Rattle.dav_upload.specs.Steps.{HasClearNames};
ghost use Rattle.dav_upload.specs.declared.error.UploadError.{UploadError as Refusal};
ghost use Rattle.dav_upload.specs.Others.{LeavesOthers};
ghost use Rattle.dav_upload_laws.specs.Swept.{IsNotLeftBefore, SweptBefore};
ghost use Rattle.dav_upload_laws.specs.Written.{finds_as_written};

use crate::ending::Ending;
use crate::running::perform;
use crate::words::Task;
use dav_core::Disk;
use dav_io::Source;
use dav_local::{LocalFs, LocalFsFile};
use dav_local_laws::local_stores_refuse_few;
use dav_memory::Remember;
use dav_store::{DavFile, DavFileSystem};
use dav_upload_laws::{local_stores_take_uploads, local_sweeps_take_what_was_left_before};
use std::alloc::Global;

/// Does what is asked for over a local store that finds each path as it is written, and answers how it ends. Where its
/// disk tells its world, and no link stands on the way to the target: where the input is stored, the target is a file of
/// its bytes. Else what is shown is as it was; only where the disk failed or memory was wanting at the last call, which
/// moves the file to its place, it may be there whole. A sweep leaves what is shown, and where no link stands in the
/// directory it takes exactly the regular files with hidden names there that were changed so many seconds before the
/// moment, and each upload that was written to since goes on standing, whichever handles count as those of bodies of
/// files that are shown. It ends with `DiskFailed` only where the disk's count of faults rose.
pub fn perform_local<D: Disk, R: Remember, I: Source>(
    alloc: Global,
    fs: &mut LocalFs<D, R>,
    task: &Task,
    source: &mut I,
    buffer: &mut [u8],
    moment: u64,
) -> Ending
    requires room { 0 < length buffer.old }
    ensures table { Performs ⟦<LocalFs<D, R> as DavFileSystem>⟧.view ⟦<LocalFs<D, R> as DavFileSystem>⟧.listings
        ⟦<LocalFsFile as DavFile<D>>⟧.view.writes tt task.now moment fs.old (I.stream source.old) result fs.new
        (I.stream source.new) }
    ensures whole { (target : WebPath) → task.now ≡ Store target → finds_as_written fs.old.ways ≡ true
        → (v w : World) (bytes : List ℕ) → (D.state fs.old.disk).told ≡ Some v → (D.state fs.new.disk).told ≡ Some w
        → (I.stream source.old).bytes ≡ Some bytes → IsOpenTo v target.names
        → EndsWhole target.names bytes result v w }
    ensures unseen { (dir : WebPath) (older : ℕ) → task.now ≡ Sweep dir older → finds_as_written fs.old.ways ≡ true
        → (v w : World) → (D.state fs.old.disk).told ≡ Some v → (D.state fs.new.disk).told ≡ Some w
        → HasClearNames v dir.names → SameShown v w }
    ensures swept { (dir : WebPath) (older : ℕ) → task.now ≡ Sweep dir older → finds_as_written fs.old.ways ≡ true
        → (v w : World) → (D.state fs.old.disk).told ≡ Some v → (D.state fs.new.disk).told ≡ Some w
        → HasClearNames v dir.names → is_clear v.tree dir.names ≡ true
        → (r : Result ℕ Refusal) × SweptBefore dir.names (limit_of moment older) r (D.state fs.old.disk).faults
        (D.state fs.new.disk).faults v w × (result ≡ ending_swept r) }
    ensures others { (shown : ℕ → Bool) (dir : WebPath) (older : ℕ) → task.now ≡ Sweep dir older
        → finds_as_written fs.old.ways ≡ true
        → (v w : World) → (D.state fs.old.disk).told ≡ Some v → (D.state fs.new.disk).told ≡ Some w
        → HasClearNames v dir.names → is_clear v.tree dir.names ≡ true
        → LeavesOthers shown None (IsNotLeftBefore v dir.names (limit_of moment older)) (D.state fs.old.disk).live
        (D.state fs.new.disk).live v w }
    ensures failed { result ≡ Ending.DiskFailed → Rose (D.state fs.old.disk).faults (D.state fs.new.disk).faults }
{
    local_stores_refuse_few(fs);
    local_stores_take_uploads(fs);
    local_sweeps_take_what_was_left_before(fs);
    perform(alloc, fs, &(), task, source, buffer, moment)
}

/// Does the same over a folder, the root of a disk, whose names are found as they are written, and answers how it ends,
/// with the disk. What it makes is open to everybody, as far as the machine lets it. Nothing is asked of the disk and of
/// the memory for that: where the disk tells its world, all that `perform_local` says of it holds.
pub fn put<D: Disk, R: Remember + Drop, I: Source>(
    alloc: Global,
    disk: D,
    memory: R,
    task: &Task,
    source: &mut I,
    buffer: &mut [u8],
    moment: u64,
) -> (Ending, D)
    requires room { 0 < length buffer.old }
    ensures table { (t : LocalFs D R) × Performs ⟦<LocalFs<D, R> as DavFileSystem>⟧.view
        ⟦<LocalFs<D, R> as DavFileSystem>⟧.listings ⟦<LocalFsFile as DavFile<D>>⟧.view.writes tt task.now moment
        (store_of disk memory) (I.stream source.old) result.0 t (I.stream source.new) × (t.disk ≡ result.1) }
    ensures whole { (target : WebPath) → task.now ≡ Store target
        → (v w : World) (bytes : List ℕ) → (D.state disk).told ≡ Some v → (D.state result.1).told ≡ Some w
        → (I.stream source.old).bytes ≡ Some bytes → IsOpenTo v target.names
        → EndsWhole target.names bytes result.0 v w }
    ensures unseen { (dir : WebPath) (older : ℕ) → task.now ≡ Sweep dir older
        → (v w : World) → (D.state disk).told ≡ Some v → (D.state result.1).told ≡ Some w
        → HasClearNames v dir.names → SameShown v w }
    ensures swept { (dir : WebPath) (older : ℕ) → task.now ≡ Sweep dir older
        → (v w : World) → (D.state disk).told ≡ Some v → (D.state result.1).told ≡ Some w
        → HasClearNames v dir.names → is_clear v.tree dir.names ≡ true
        → (r : Result ℕ Refusal) × SweptBefore dir.names (limit_of moment older) r (D.state disk).faults
        (D.state result.1).faults v w × (result.0 ≡ ending_swept r) }
    ensures others { (shown : ℕ → Bool) (dir : WebPath) (older : ℕ) → task.now ≡ Sweep dir older
        → (v w : World) → (D.state disk).told ≡ Some v → (D.state result.1).told ≡ Some w
        → HasClearNames v dir.names → is_clear v.tree dir.names ≡ true
        → LeavesOthers shown None (IsNotLeftBefore v dir.names (limit_of moment older)) (D.state disk).live
        (D.state result.1).live v w }
    ensures failed { result.0 ≡ Ending.DiskFailed → Rose (D.state disk).faults (D.state result.1).faults }
{
    let mut fs = LocalFs::new(disk, memory, true, false, false);
    let ending = perform_local(alloc, &mut fs, task, source, buffer, moment);
    let (disk, _memory) = fs.into_parts();
    (ending, disk)
}
