//! What uploads make of the world that is shown, over a local store. The calls do nothing.
#![tactic(auto)]

ghost use Rattle.std.specs.Prelude.{◌≡◌, ◌⊎◌, ℕ, Bool, List, Err, None, Option, Result, Some, false, true};
ghost use Rattle.dav_io.specs.Counts.{RefusedNothing};
ghost use Rattle.dav_core.specs.declared.time.FileTime.{FileTime as Time};
ghost use Rattle.dav_core.specs.DavPath.{WebPath};
ghost use Rattle.dav_core.specs.Disk.{DiskState};
ghost use Rattle.dav_core.specs.Tree.{is_linked, row_at};
ghost use Rattle.dav_core.specs.World.{IsWorld, World};
ghost use Rattle.dav_get.specs.Bodies.{TouchesOwn};
ghost use Rattle.dav_get.specs.Lives.{OpenOnlyHeld};
ghost use Rattle.dav_get.specs.Table.{ByCourse, Gets, Given};
ghost use Rattle.dav_get.specs.declared.open_at.OpenAt.{OpenAt};
ghost use Rattle.dav_local.specs.declared.file.LocalFsFile.{LocalFsFile};
ghost use Rattle.dav_local.specs.declared.fs.LocalFs.{LocalFs};
ghost use Rattle.dav_local.specs.Shown.{knowledge_of};
ghost use Rattle.dav_local.specs.Ways.{rules_of};
ghost use Rattle.dav_model.specs.Conditions.{Fields};
ghost use Rattle.dav_model.specs.Due.{OfItsPaths, Query, page_course};
ghost use Rattle.dav_model.specs.Finding.{is_clear, is_forbidden};
ghost use Rattle.dav_model.specs.Valid.{IsRegular};
ghost use Rattle.dav_model.specs.declared.outcome.Outcome.{Outcome};
ghost use Rattle.dav_upload.specs.declared.error.UploadError.{UploadError as Refusal};
ghost use Rattle.dav_upload.specs.declared.upload.Upload.{Upload};
ghost use Rattle.dav_upload.specs.EachStep.{AreWhole, LeaveOthers, SweepsAreUnseen, SweepsLeaveOthers};
ghost use Rattle.dav_upload.specs.Names.{hidden_beside, is_taken};
ghost use Rattle.dav_upload.specs.Others.{IsAny, LeavesOthers};
ghost use Rattle.dav_upload.specs.Shown.{SameShown};
ghost use Rattle.dav_upload.specs.Standing.{StandsIn, pending};
ghost use Rattle.dav_upload.specs.Steps.{HasClearNames, IsBeside, IsClear};
ghost use Rattle.dav_upload.specs.Takes.{LeadsPlainly, ReadsPlainly, TakesUploads};
ghost use Rattle.dav_upload.specs.Sweeping.{SweepsBefore};
ghost use Rattle.dav_upload.specs.Uploading.{Aborts, Begins, Commits, Sweeps, WritesPiece};
ghost use Rattle.dav_upload_laws.specs.Passing.{PassesTable, Succeeds};
ghost use Rattle.dav_upload_laws.specs.Reading.{IsRead, IsShownAt, handle_of};
ghost use Rattle.dav_upload_laws.specs.Swept.{IsNotLeftBefore, Swept, SweptBefore};
ghost use Rattle.dav_upload_laws.specs.Written.{finds_as_written};

use dav_core::{DavError, Disk};
use dav_local::{LocalFs, LocalFsFile};
use dav_local_laws::calls_are_local;
use dav_memory::Remember;
use dav_store::{DavFile, DavFileSystem};

/// A local store is one over which uploads are whole, where names don't fold and the disk's root is served. The reading
/// of a directory leaves that, and so do all calls that write nothing.
pub fn local_stores_take_uploads<D: Disk, R: Remember>(_fs: &LocalFs<D, R>)
    ensures takes { TakesUploads ⟦<LocalFs<D, R> as DavFileSystem>⟧.view ⟦<LocalFsFile as DavFile<D>>⟧.view.writes tt
        (λ s. finds_as_written s.ways) }
    ensures reads { ReadsPlainly ⟦<LocalFs<D, R> as DavFileSystem>⟧.view ⟦<LocalFs<D, R> as DavFileSystem>⟧.listings tt
        (λ s. finds_as_written s.ways) }
    ensures leads { LeadsPlainly ⟦<LocalFs<D, R> as DavFileSystem>⟧.view ⟦<LocalFs<D, R> as DavFileSystem>⟧.listings tt
        (λ s. finds_as_written s.ways) }
{
    calls_are_local(_fs)
}

/// Over a local store that finds each path as it is written, where no link stands on the way to the paths of an upload:
/// a beginning, a piece, an abort and a sweep leave what is shown, and a commit leaves it or makes its target a file of
/// all pieces. At Ok an upload that begins stands, and a commit was made; a piece keeps its upload standing. That holds
/// whichever handles count as those of bodies of files that are shown.
pub fn local_uploads_are_whole<D: Disk, R: Remember>(_fs: &LocalFs<D, R>)
    ensures steps { (shown : ℕ → Bool) → AreWhole ⟦<LocalFs<D, R> as DavFileSystem>⟧.view
        ⟦<LocalFsFile as DavFile<D>>⟧.view.writes tt (λ s. finds_as_written s.ways) shown }
    ensures sweeps { SweepsAreUnseen ⟦<LocalFs<D, R> as DavFileSystem>⟧.view
        ⟦<LocalFs<D, R> as DavFileSystem>⟧.listings tt (λ s. finds_as_written s.ways) }
{
    local_stores_take_uploads(_fs)
}

/// Over such a store each step of an upload leaves to others what they have: the bytes of each file but its own stay as
/// long as somebody holds it, what another handle has open stays open, with its bytes where it counts as that of a body
/// of a file that is shown, and each upload with another hidden path goes on standing. A sweep leaves so what stands at
/// all but the hidden names of its directory.
pub fn local_uploads_leave_others<D: Disk, R: Remember>(_fs: &LocalFs<D, R>)
    ensures steps { (shown : ℕ → Bool) → LeaveOthers ⟦<LocalFs<D, R> as DavFileSystem>⟧.view
        ⟦<LocalFsFile as DavFile<D>>⟧.view.writes tt (λ s. finds_as_written s.ways) shown }
    ensures sweeps { (shown : ℕ → Bool) → SweepsLeaveOthers ⟦<LocalFs<D, R> as DavFileSystem>⟧.view
        ⟦<LocalFs<D, R> as DavFileSystem>⟧.listings tt (λ s. finds_as_written s.ways) shown }
{
    local_stores_take_uploads(_fs)
}

/// A GET or HEAD, over a local store that finds each path as it is written, leaves what is shown and each upload
/// standing. Where a handle that isn't live yet counts as that of a body of a file that is shown, the path isn't hidden
/// and no link stands on the way to it, or to the index file that may stand for it: what the body has open is the file
/// of a row that is shown. Where none counts any path may be asked for, a hidden one too. A page that is asked for by
/// itself opens no file. A poll keeps the body's file or closes it, and leaves the same.
pub fn local_reads_leave_uploads<D: Disk, R: Remember>(_fs: &LocalFs<D, R>)
    ensures gets { (shown : ℕ → Bool) (q : Query) (s t : LocalFs D R) (v w : World) (r : Given LocalFsFile)
        → (D.state s.disk).told ≡ Some v → (D.state t.disk).told ≡ Some w → finds_as_written s.ways ≡ true
        → ((k : ℕ) → (D.state s.disk).live k ≡ None → shown k ≡ true → OfItsPaths q (IsShownAt v))
        → Gets ⟦<LocalFs<D, R> as DavFileSystem>⟧.view ⟦<LocalFs<D, R> as DavFileSystem>⟧.listings q tt s r t
        ⊎ (r ≡ Err DavError.NoMemory)
        → OpenOnlyHeld ⟦<LocalFs<D, R> as DavFileSystem>⟧.view s r t
        → SameShown v w × LeavesOthers shown None IsAny (D.state s.disk).live (D.state t.disk).live v w }
    ensures pages { (shown : ℕ → Bool) (q : Query) (s t : LocalFs D R) (v w : World) (r : Given LocalFsFile)
        → (D.state s.disk).told ≡ Some v → (D.state t.disk).told ≡ Some w
        → ByCourse ⟦<LocalFs<D, R> as DavFileSystem>⟧.view ⟦<LocalFs<D, R> as DavFileSystem>⟧.listings
        (page_course q.settings) q tt s r t ⊎ (r ≡ Err DavError.NoMemory)
        → OpenOnlyHeld ⟦<LocalFs<D, R> as DavFileSystem>⟧.view s r t
        → SameShown v w × LeavesOthers shown None IsAny (D.state s.disk).live (D.state t.disk).live v w }
    ensures polls { (shown : ℕ → Bool) (m n : DiskState) (v w : World) (before after : Option (OpenAt LocalFsFile))
        → m.told ≡ Some v → n.told ≡ Some w → IsWorld v
        → IsRead ⟦<LocalFs<D, R> as DavFileSystem>⟧.view.file.handle m before
        → TouchesOwn ⟦<LocalFs<D, R> as DavFileSystem>⟧.view.file m before n after
        → SameShown v w
        × LeavesOthers shown (handle_of ⟦<LocalFs<D, R> as DavFileSystem>⟧.view.file.handle before) IsAny m.live n.live
        v w
        × IsRead ⟦<LocalFs<D, R> as DavFileSystem>⟧.view.file.handle n after }
{
    calls_are_local(_fs)
}

/// Where the disk refused nothing, in a world of a valid run: an upload begins where no line of the table of PUT refuses
/// the target and the token's name is free, its pieces are written, it is given up, and it is committed where the table
/// passes still and the target's name isn't one that the rules for macOS forbid; unless memory was wanting.
pub fn local_uploads_succeed<D: Disk, R: Remember>(_fs: &LocalFs<D, R>)
    ensures begins { (s t : LocalFs D R) (v : World) (target : WebPath) (fields : Fields) (token : ℕ)
        (r : Result (Upload LocalFsFile) Refusal) → (D.state s.disk).told ≡ Some v → finds_as_written s.ways ≡ true
        → IsRegular (rules_of s.ways) (knowledge_of (R.state s.memory)) v → is_taken target ≡ false
        → is_linked v.tree target.names ≡ false → is_linked v.tree (hidden_beside target token).names ≡ false
        → row_at v.tree (hidden_beside target token).names ≡ None → PassesTable (rules_of s.ways) v target fields
        → RefusedNothing (D.state s.disk).faults (D.state t.disk).faults
        → Begins ⟦<LocalFs<D, R> as DavFileSystem>⟧.view tt target fields token s r t → Succeeds r }
    ensures pieces { (shown : ℕ → Bool) (u x : Upload LocalFsFile) (s t : LocalFs D R) (v : World) (bytes pieces : List ℕ)
        (r : Result Unit Refusal)
        → StandsIn shown (D.state s.disk).live v
        (pending ⟦<LocalFs<D, R> as DavFileSystem>⟧.view.file.handle u pieces)
        → u.broken ≡ false → RefusedNothing (D.state s.disk).faults (D.state t.disk).faults
        → WritesPiece ⟦<LocalFs<D, R> as DavFileSystem>⟧.view ⟦<LocalFsFile as DavFile<D>>⟧.view.writes u bytes s r t x → Succeeds r }
    ensures commits { (shown : ℕ → Bool) (u : Upload LocalFsFile) (s t : LocalFs D R) (v : World) (pieces : List ℕ)
        (fields : Fields) (r : Result Outcome Refusal) → (D.state s.disk).told ≡ Some v → finds_as_written s.ways ≡ true
        → StandsIn shown (D.state s.disk).live v
        (pending ⟦<LocalFs<D, R> as DavFileSystem>⟧.view.file.handle u pieces)
        → u.broken ≡ false → IsBeside u.target.names u.hidden.names → IsClear v u.target.names u.hidden.names
        → IsRegular (rules_of s.ways) (knowledge_of (R.state s.memory)) v
        → is_forbidden (rules_of s.ways) u.target ≡ false → PassesTable (rules_of s.ways) v u.target fields
        → RefusedNothing (D.state s.disk).faults (D.state t.disk).faults
        → Commits ⟦<LocalFs<D, R> as DavFileSystem>⟧.view tt u fields s r t → Succeeds r }
    ensures aborts { (shown : ℕ → Bool) (u : Upload LocalFsFile) (s t : LocalFs D R) (v : World) (pieces : List ℕ)
        (r : Result Unit Refusal) → (D.state s.disk).told ≡ Some v → finds_as_written s.ways ≡ true
        → StandsIn shown (D.state s.disk).live v
        (pending ⟦<LocalFs<D, R> as DavFileSystem>⟧.view.file.handle u pieces)
        → u.hidden.slash ≡ false → is_linked v.tree u.hidden.names ≡ false
        → RefusedNothing (D.state s.disk).faults (D.state t.disk).faults
        → Aborts ⟦<LocalFs<D, R> as DavFileSystem>⟧.view tt u s r t → Succeeds r }
{
    calls_are_local(_fs)
}

/// A sweep of a directory in which no link stands takes exactly the regular files with hidden names among its members,
/// and counts them. One that is refused took some of them.
pub fn local_sweeps_take_what_is_left<D: Disk, R: Remember>(_fs: &LocalFs<D, R>)
    ensures { (dir : WebPath) (s t : LocalFs D R) (v w : World) (r : Result ℕ Refusal)
        → (D.state s.disk).told ≡ Some v → (D.state t.disk).told ≡ Some w → finds_as_written s.ways ≡ true
        → HasClearNames v dir.names → is_clear v.tree dir.names ≡ true
        → Sweeps ⟦<LocalFs<D, R> as DavFileSystem>⟧.view ⟦<LocalFs<D, R> as DavFileSystem>⟧.listings tt dir s r t → Swept dir r v w }
{
    calls_are_local(_fs)
}

/// A sweep of what was left before a time in a directory in which no link stands takes exactly the regular files with
/// hidden names among its members that were changed before it, unless the count of faults rose. It leaves to others what
/// they have at all other paths: so each upload whose file was written to since goes on standing.
pub fn local_sweeps_take_what_was_left_before<D: Disk, R: Remember>(_fs: &LocalFs<D, R>)
    ensures swept { (dir : WebPath) (limit : Time) (s t : LocalFs D R) (v w : World) (r : Result ℕ Refusal)
        → (D.state s.disk).told ≡ Some v → (D.state t.disk).told ≡ Some w → finds_as_written s.ways ≡ true
        → HasClearNames v dir.names → is_clear v.tree dir.names ≡ true
        → SweepsBefore ⟦<LocalFs<D, R> as DavFileSystem>⟧.view ⟦<LocalFs<D, R> as DavFileSystem>⟧.listings tt dir limit
        s r t
        → SweptBefore dir.names limit r (D.state s.disk).faults (D.state t.disk).faults v w }
    ensures others { (shown : ℕ → Bool) (dir : WebPath) (limit : Time) (s t : LocalFs D R) (v w : World)
        (r : Result ℕ Refusal)
        → (D.state s.disk).told ≡ Some v → (D.state t.disk).told ≡ Some w → finds_as_written s.ways ≡ true
        → HasClearNames v dir.names → is_clear v.tree dir.names ≡ true
        → SweepsBefore ⟦<LocalFs<D, R> as DavFileSystem>⟧.view ⟦<LocalFs<D, R> as DavFileSystem>⟧.listings tt dir limit
        s r t
        → LeavesOthers shown None (IsNotLeftBefore v dir.names limit) (D.state s.disk).live (D.state t.disk).live v w }
{
    calls_are_local(_fs)
}
