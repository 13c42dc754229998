//! What the local store shows, as laws about its definitions. The calls do nothing.
ghost use Rattle.std.specs.Prelude.{◌≡◌, Bool, List, Ok, Option, cond, Result, Some, false, true};
ghost use Rattle.dav_core.specs.declared.error.FsError.{FsError};
ghost use Rattle.dav_core.specs.Info.{Info};
ghost use Rattle.dav_core.specs.Writing.{reading};
ghost use Rattle.dav_core.specs.Path.{Names};
ghost use Rattle.dav_core.specs.Tree.{is_linked};
ghost use Rattle.dav_core.specs.World.{World, bytes_of};
ghost use Rattle.dav_model.specs.declared.settings.Settings.{Settings};
ghost use Rattle.dav_model.specs.Finding as finding;
ghost use Rattle.dav_model.specs.Finding.{Denies, EndsLoosely, Finding, MayFind, MayShow, is_clear, listed_in, looked_at, opened_at};
ghost use Rattle.dav_core.specs.declared.member.Member.{Member};
ghost use Rattle.dav_core.specs.DavPath.{WebPath};
ghost use Rattle.dav_model.specs.Head.{Stood};
ghost use Rattle.dav_model.specs.Rules.{Knowledge, Rules};
ghost use Rattle.dav_core.specs.Members.{members};
ghost use Rattle.dav_store.specs.declared.entry.ReadDirMeta.TheVariants.{Data};
ghost use Rattle.dav_store.specs.Members.{Answered, AreOf, Walked};
ghost use Rattle.dav_store.specs.Standing.{Seen};
ghost use Rattle.dav_local.specs.declared.entry.LocalFsDirEntry.{LocalFsDirEntry};
ghost use Rattle.dav_local.specs.declared.file.LocalFsFile.{LocalFsFile};
ghost use Rattle.dav_local.specs.declared.fs.LocalFs.{LocalFs};
ghost use Rattle.dav_local.specs.Shown.{EndsBy, ListsByRules, LooksByRules, OpensByRules, as_stood, finding_of, found_at, knowledge_of, looked_by, opened_by, shown_where};
ghost use Rattle.dav_local.specs.Gathering.{LocalFsReadDir};
ghost use Rattle.dav_store.specs.declared.entry.ReadDirMeta.{ReadDirMeta};
ghost use Rattle.dav_local.specs.Standing.{HasNoLinks, seen_at};
ghost use Rattle.dav_local.specs.Ways.{Ways, rules_with};

use crate::{LocalFs, LocalFsFile};
use dav_core::{DavPath, Disk};
use dav_memory::Remember;
use dav_store::DavFileSystem;

/// Over a told disk each look is answered by the rules for a place where a loose walk of the path ends, whatever the
/// memory knows and however many names fold alike.
pub fn looks_are_by_the_rules<D: Disk, R: Remember>(_fs: &LocalFs<D, R>, _path: &DavPath)
    ensures { (w : World) (result : Result Info FsError) (t : LocalFs D R)
        → (D.state _fs.now.disk).told ≡ Some w
        → ⟦<LocalFs<D, R> as DavFileSystem>⟧.view.looks _fs.now tt _path.now result t
        → LooksByRules _fs.now.ways (knowledge_of (R.state _fs.now.memory)) w _path.now (D.state _fs.now.disk) result
        (D.state t.disk) }
{}

/// Over a told disk each opening for reading likewise.
pub fn openings_are_by_the_rules<D: Disk, R: Remember>(_fs: &LocalFs<D, R>, _path: &DavPath)
    ensures { (w : World) (result : Result LocalFsFile FsError) (t : LocalFs D R)
        → (D.state _fs.now.disk).told ≡ Some w
        → ⟦<LocalFs<D, R> as DavFileSystem>⟧.view.opens _fs.now tt _path.now reading result t
        → OpensByRules _fs.now.ways w _path.now (D.state _fs.now.disk) result (D.state t.disk) }
{}

/// Over a told disk each beginning of a listing likewise.
pub fn listings_are_by_the_rules<D: Disk, R: Remember>(_fs: &LocalFs<D, R>, _path: &DavPath)
    ensures { (w : World) (wanted : ReadDirMeta) (result : Result LocalFsReadDir FsError) (t : LocalFs D R)
        → (D.state _fs.now.disk).told ≡ Some w
        → ⟦<LocalFs<D, R> as DavFileSystem>⟧.listings.lists _fs.now tt _path.now wanted result t
        → ListsByRules _fs.now.ways w _path.now (D.state _fs.now.disk) result (D.state t.disk) }
{}

/// Over a told disk, a walk over the listing of a directory, where no link stands on the way to it or at one of its
/// members, is told of its members, each once. It ends where all were given, for want of memory, or because of a fault
/// that was met since the listing was asked for.
pub fn walks_tell_the_members<D: Disk, R: Remember>(_fs: &LocalFs<D, R>, _path: &DavPath)
    ensures each { (w : World) (n o : LocalFs D R) (l k : LocalFsReadDir) (answers : List Answered)
        → (D.state _fs.now.disk).told ≡ Some w
        → ⟦<LocalFs<D, R> as DavFileSystem>⟧.listings.lists _fs.now tt _path.now Data (Ok l) n
        → HasNoLinks w l.reading.path
        → Walked ⟦<LocalFs<D, R> as DavFileSystem>⟧.view ⟦<LocalFs<D, R> as DavFileSystem>⟧.listings n l answers o k
        → AreOf (members w l.reading.path) (D.state _fs.now.disk).faults (D.state o.disk).faults answers }
    ensures ends { (w : World) (n o t : LocalFs D R) (l k j : LocalFsReadDir) (answers : List Answered)
        (last : Result (Option LocalFsDirEntry) FsError) → (D.state _fs.now.disk).told ≡ Some w
        → ⟦<LocalFs<D, R> as DavFileSystem>⟧.listings.lists _fs.now tt _path.now Data (Ok l) n
        → HasNoLinks w l.reading.path
        → Walked ⟦<LocalFs<D, R> as DavFileSystem>⟧.view ⟦<LocalFs<D, R> as DavFileSystem>⟧.listings n l answers o k
        → ⟦<LocalFs<D, R> as DavFileSystem>⟧.listings.lists_on o k last t j
        → EndsBy (D.state _fs.now.disk).faults (members w l.reading.path) answers last (D.state t.disk).faults }
{}

/// What the store shows at a place is what the rules show of a path that is found there, where no link stands on the
/// way.
pub fn the_rules_show_the_same(_path: &DavPath)
    ensures looked { (settings : Settings) (ways : Ways) (w : World) (end : Names) (denies : Bool)
        → is_linked w.tree end ≡ false → as_stood (looked_by ways w end denies _path.now)
        ≡ looked_at (rules_with settings ways) w (found_at end denies) _path.now }
    ensures opened { (settings : Settings) (ways : Ways) (w : World) (end : Names)
        → is_linked w.tree end ≡ false → as_stood (opened_by ways w end _path.now)
        ≡ opened_at (rules_with settings ways) w (found_at end false) _path.now }
{}

/// Where a path was looked at, one opened and one listed, each at a place where a loose walk ends, a store may find
/// them there: so the answers are of one that the rules allow.
pub fn answers_are_of_one_finding()
    ensures { (rules : Rules) (k : Knowledge) (w : World) (looked opened listed : Names × Names) (denies : Bool)
        → EndsLoosely rules.alone rules.folds w.tree looked.0 looked.1
        → EndsLoosely rules.alone rules.folds w.tree opened.0 opened.1
        → EndsLoosely rules.alone rules.folds w.tree listed.0 listed.1
        → (denies ≡ true → (rules.macos ≡ true) × Denies k w.tree looked.1)
        → MayFind rules k w.tree (finding_of rules w looked opened listed denies) }
{}

/// So there is something that a store may show by the rules, and that is what was heard of those three paths: at each
/// what the rules show where it was found, and where a link is met what was heard.
pub fn answers_may_be_shown()
    ensures may { (rules : Rules) (k : Knowledge) (w : World) (f : Finding) (looked opened : Result Stood FsError)
        (listed : Result (List Member) FsError) → MayFind rules k w.tree f
        → MayShow rules k (Some w) (shown_where rules w f looked opened listed) }
    ensures looked { (rules : Rules) (w : World) (a b c : Names × Names) (denies : Bool)
        (looked opened : Result Stood FsError) (listed : Result (List Member) FsError) (path : WebPath)
        → path.names ≡ a.0
        → (shown_where rules w (finding_of rules w a b c denies) looked opened listed).looked path
        ≡ cond (is_linked w.tree a.1) looked (looked_at rules w (found_at a.1 denies) path) }
    ensures opened { (rules : Rules) (w : World) (a b c : Names × Names) (denies : Bool)
        (looked opened : Result Stood FsError) (listed : Result (List Member) FsError) (path : WebPath)
        → path.names ≡ b.0
        → (shown_where rules w (finding_of rules w a b c denies) looked opened listed).opened path
        ≡ cond (is_linked w.tree b.1) opened (opened_at rules w (found_at b.1 false) path) }
    ensures listed { (rules : Rules) (w : World) (a b c : Names × Names) (denies : Bool)
        (looked opened : Result Stood FsError) (listed : Result (List Member) FsError) (path : WebPath)
        → path.names ≡ c.0
        → (shown_where rules w (finding_of rules w a b c denies) looked opened listed).listed path
        ≡ cond (is_clear w.tree c.1) (listed_in w c.1) listed }
{}

/// Where the disk tells its world, an open file has the bytes that stand under its number.
pub fn files_have_their_bytes<D: Disk>(_disk: &D, _file: &LocalFsFile)
    ensures { (w : World) (f : Seen) → (D.state _disk.now).told ≡ Some w
        → seen_at (D.state _disk.now) _file.now.handle.0 ≡ Some f → f.stands.bytes ≡ bytes_of w f.stands.number }
{}
