ghost use Rattle.std.specs.Prelude.{◌≡◌, ◌≢◌, ◌++◌, ◌<◌, ℕ, Bool, List, None, Ok, Option, Some, false, length, true};
ghost use Rattle.dav_core.specs.declared.tree.Row.{Row};
ghost use Rattle.dav_core.specs.declared.tree.Kind.TheVariants.{File};
ghost use Rattle.dav_core.specs.Writing.{reading, written};
ghost use Rattle.dav_core.specs.Edits.{Edited, fills, makes, moves, takes};
ghost use Rattle.dav_core.specs.DavPath.{WebPath};
ghost use Rattle.dav_core.specs.Path.{Names, is_plain};
ghost use Rattle.dav_core.specs.World.{Holds, IsWorld, OpenFile, SameBesidesOpens, World, bytes_of};
ghost use Rattle.dav_core.specs.Disk.{DiskState, Live};
ghost use Rattle.dav_core.specs.Unchanged.{Keeps, KeepsBut};
ghost use Rattle.dav_core.specs.Tree.{row_at};
ghost use Rattle.dav_upload.specs.EachStep.{AreWhole, LeaveNoName, LeaveOthers, SweepsAreUnseen, SweepsBeforeAreUnseen, SweepsBeforeLeaveOthers, SweepsLeaveOthers};
ghost use Rattle.dav_upload.specs.Kept.{KeepsRow};
ghost use Rattle.dav_upload.specs.Others.{IsAny, IsOfShown, LeavesOthers};
ghost use Rattle.dav_upload.specs.Standing.{OthersOpen, Pending, StandsIn};
ghost use Rattle.dav_upload.specs.Takes.{LeadsPlainly, ReadsPlainly, TakesUploads};
ghost use Rattle.dav_store.specs.Files.{WritesIn};
ghost use Rattle.dav_store.specs.Standing.{Seen};
ghost use Rattle.dav_upload.specs.Names.{hidden_beside, hidden_name, is_hidden, is_hidden_path};
ghost use Rattle.dav_upload.specs.Pieces.{HoldsPieces, upload_options};
ghost use Rattle.dav_upload.specs.Shown.{AreBelow, IsCommitted, IsHiddenIn, IsUnseen, SameShown, StandsBeside};

use dav_store::GuardedFileSystem;

/// The name that is made of a token is a hidden name, and a plain one.
pub fn tokens_are_hidden()
    ensures name { (token : ℕ) → is_hidden (hidden_name token) ≡ true }
    ensures plain { (token : ℕ) → is_plain (hidden_name token) ≡ true }
    ensures path { (target : WebPath) (token : ℕ) → is_hidden_path (hidden_beside target token).names ≡ true }
{}

/// A move of a hidden file to a name that is shown makes of the shown world what a commit does, and nothing else.
pub fn moves_commit()
    ensures { (v w : World) (hidden target : Names) (row : Row) → StandsBeside v hidden target row
        → Edited (moves hidden target) v w → IsCommitted v target (bytes_of v row.number) w }
{}

/// The removal of a hidden file leaves the shown world.
pub fn removals_are_unseen()
    ensures { (v w : World) (hidden : Names) → IsHiddenIn v hidden → Edited (takes hidden) v w → SameShown v w }
{}

/// A move and a removal keep the bytes of every file that somebody holds, and a write those of every other file.
pub fn edits_keep_bytes()
    ensures moves { (v w : World) (from to : Names) (n : ℕ) → Edited (moves from to) v w → Holds w n
        → bytes_of w n ≡ bytes_of v n }
    ensures takes { (v w : World) (path : Names) (n : ℕ) → Edited (takes path) v w → Holds w n
        → bytes_of w n ≡ bytes_of v n }
    ensures fills { (v w : World) (number : ℕ) (bytes : List ℕ) (n : ℕ) → n ≢ number → Edited (fills number bytes) v w
        → Holds w n → bytes_of w n ≡ bytes_of v n }
{}

/// The making of a hidden file leaves the shown world, and so do what is written to a file that isn't shown and calls
/// that write nothing.
pub fn hidden_edits_are_unseen()
    ensures makes { (v w : World) (hidden : Names) (bytes : List ℕ) → IsHiddenIn v hidden → AreBelow v
        → Edited (makes hidden File bytes) v w → SameShown v w }
    ensures fills { (v w : World) (number : ℕ) (bytes : List ℕ) → IsUnseen v number → Edited (fills number bytes) v w
        → SameShown v w }
    ensures none { (v w : World) → SameBesidesOpens v w → SameShown v w }
{}

/// A piece that is written where a file ends stands behind its bytes.
pub fn pieces_stand_behind()
    ensures { (from bytes : List ℕ) → written (length bytes) from bytes ≡ bytes ++ from }
{}

/// Over a store whose calls do what the tree allows at paths as they are written, where no link stands on the way to the
/// two paths of an upload: a beginning, a piece, an abort and a sweep leave what is shown, and a commit leaves it or
/// makes its target a file of all pieces. At Ok an upload that begins stands, and a commit was made; a piece keeps its
/// upload standing. Beginnings and pieces leave on which paths links stand. That holds whichever handles count as those
/// of bodies of files that are shown.
pub fn uploads_are_whole<S: GuardedFileSystem<C>, C>(_fs: &S, _credentials: &C)
    ensures steps { (test : S → Bool) → TakesUploads S.view S.File.view.writes _credentials.now test
        → (shown : ℕ → Bool) → AreWhole S.view S.File.view.writes _credentials.now test shown }
    ensures sweeps { (test : S → Bool) → TakesUploads S.view S.File.view.writes _credentials.now test
        → ReadsPlainly S.view S.listings _credentials.now test
        → SweepsAreUnseen S.view S.listings _credentials.now test }
{}

/// Over such a store each step of an upload leaves to others what they have: the bytes of each file but its own stay as
/// long as somebody holds it, what another handle has open stays open, with its bytes where it counts as that of a body
/// of a file that is shown, and each upload with another hidden path goes on standing. A sweep leaves so what stands at
/// all but the hidden names of its directory.
pub fn uploads_leave_others<S: GuardedFileSystem<C>, C>(_fs: &S, _credentials: &C)
    ensures steps { (test : S → Bool) → TakesUploads S.view S.File.view.writes _credentials.now test
        → (shown : ℕ → Bool) → LeaveOthers S.view S.File.view.writes _credentials.now test shown }
    ensures sweeps { (test : S → Bool) → TakesUploads S.view S.File.view.writes _credentials.now test
        → ReadsPlainly S.view S.listings _credentials.now test
        → (shown : ℕ → Bool) → SweepsLeaveOthers S.view S.listings _credentials.now test shown }
{}

/// Over such a store, where also calls that write nothing leave how paths are found, a sweep of what was left before a
/// time leaves what is shown, and to others what they have at all but the hidden names of its directory.
pub fn sweeps_before_leave_others<S: GuardedFileSystem<C>, C>(_fs: &S, _credentials: &C)
    ensures unseen { (test : S → Bool) → TakesUploads S.view S.File.view.writes _credentials.now test
        → LeadsPlainly S.view S.listings _credentials.now test
        → SweepsBeforeAreUnseen S.view S.listings _credentials.now test }
    ensures others { (test : S → Bool) → TakesUploads S.view S.File.view.writes _credentials.now test
        → LeadsPlainly S.view S.listings _credentials.now test
        → (shown : ℕ → Bool) → SweepsBeforeLeaveOthers S.view S.listings _credentials.now test shown }
{}

/// Over such a store nothing stands at the hidden name behind a commit and an abort that worked.
pub fn ended_uploads_leave_no_name<S: GuardedFileSystem<C>, C>(_fs: &S, _credentials: &C)
    ensures { (test : S → Bool) → TakesUploads S.view S.File.view.writes _credentials.now test
        → (shown : ℕ → Bool) → LeaveNoName S.view S.File.view.writes _credentials.now test shown }
{}

/// Calls that write nothing leave what is shown, and each upload standing: those that leave nothing open, those that
/// open a file, which is one that is shown where its handle counts as that of a body of such a file, and those that
/// read from a file that was opened for reading, or close it.
pub fn reads_leave_uploads()
    ensures keeps { (shown : ℕ → Bool) (s t : DiskState) (v w : World) → s.told ≡ Some v → t.told ≡ Some w → IsWorld v
        → Keeps s t → SameShown v w × LeavesOthers shown None IsAny s.live t.live v w }
    ensures opens { (shown : ℕ → Bool) (s t : DiskState) (v w : World) → s.told ≡ Some v → t.told ≡ Some w → IsWorld v
        → (h : ℕ) → KeepsBut h s t → s.live h ≡ None → (shown h ≡ true → IsOfShown v w h)
        → SameShown v w × LeavesOthers shown None IsAny s.live t.live v w }
    ensures bodies { (shown : ℕ → Bool) (s t : DiskState) (v w : World) → s.told ≡ Some v → t.told ≡ Some w → IsWorld v
        → (h : ℕ) → KeepsBut h s t → (l : Live) → s.live h ≡ Some l → l.how ≡ reading
        → ((m : Live) (o : OpenFile) → t.live h ≡ Some m → w.opens h ≡ Some o
        → (p : OpenFile) × (v.opens h ≡ Some p) × (p.number ≡ o.number))
        → SameShown v w × LeavesOthers shown (Some h) IsAny s.live t.live v w }
{}

/// An upload with another hidden name and another handle goes on standing where a file is made, filled, taken or moved
/// elsewhere, and all else that is open stays. It stands too where other handles count as those of bodies of files that
/// are shown, as long as no live one is among them that didn't count: so a body that is opened counts from then on.
pub fn uploads_stand_on()
    ensures edits { (shown : ℕ → Bool) (own : ℕ) (live then : ℕ → Option Live) (v w : World) (u : Pending)
        → OthersOpen own live then v w
        → (s : StandsIn shown live v u) → u.handle ≢ own → KeepsRow v w u.hidden → SameShown v w
        → (Holds w s.held.number → bytes_of w s.held.number ≡ bytes_of v s.held.number)
        → ((l : Live) (o : OpenFile) → shown own ≡ true → then own ≡ Some l → w.opens own ≡ Some o
        → o.number ≢ s.held.number)
        → StandsIn shown then w u }
    ensures counted { (shown counts : ℕ → Bool) (live : ℕ → Option Live) (w : World) (u : Pending)
        → ((k : ℕ) (l : Live) → counts k ≡ true → live k ≡ Some l → shown k ≡ true)
        → StandsIn shown live w u → StandsIn counts live w u }
{}

/// A piece that was written stands behind those before, over any store.
pub fn pieces_are_held()
    ensures { (l : Live) (f g : Seen) (pieces from : List ℕ) → l.how ≡ upload_options → HoldsPieces pieces f
        → 0 < length from → WritesIn (Some l) from (Ok tt) f g → HoldsPieces (pieces ++ from) g }
{}
