//! What the local store promises GET, HEAD, the methods that write and reports, as laws about its definitions. The
//! calls do nothing.
#![tactic(auto)]

ghost use Rattle.std.specs.Prelude.{◌≡◌, ℕ, Bool, List, false, true, None, Ok, Option, Result, Some};
ghost use Rattle.dav_io.specs.Counts.{RefusedNothing};
ghost use Rattle.dav_core.specs.declared.error.FsError.{FsError};
ghost use Rattle.dav_core.specs.declared.time.FileTime.{FileTime as Time};
ghost use Rattle.dav_core.specs.DavPath.{last_name};
ghost use Rattle.dav_core.specs.Info.{Info};
ghost use Rattle.dav_core.specs.Listing.{or_empty};
ghost use Rattle.dav_memory.specs.Builder.{BuilderState, may_settle};
ghost use Rattle.dav_local.specs.Calls.{LooksAt, is_shut, place_of};
ghost use Rattle.dav_local.specs.declared.gathering.LocalFsReadDir.{LocalFsReadDir};
ghost use Rattle.dav_model.specs.Folds.{dir_time, is_dot};
ghost use Rattle.dav_store.specs.Members.{Answered, Walked};
ghost use Rattle.dav_local_laws.specs.Sealed.{DeniedAtOnce, IsKnownAbsent, SealedWith, gathered};
ghost use Rattle.dav_memory.specs.Memory.{LearnsNothing};
ghost use Rattle.dav_core.specs.DavPath.{WebPath};
ghost use Rattle.dav_core.specs.Path.{Names};
ghost use Rattle.dav_core.specs.Tree.{is_linked};
ghost use Rattle.dav_core.specs.Writing.{reading};
ghost use Rattle.dav_core.specs.World.{World};
ghost use Rattle.dav_get.specs.Calls.{AsksAtMostFor, AsksFor};
ghost use Rattle.dav_get.specs.Heard.{Heard};
ghost use Rattle.dav_get.specs.Lives.{OpenOnlyHeld};
ghost use Rattle.dav_get.specs.Right.{IsOfNumber, or_zero, reply_at};
ghost use Rattle.dav_get.specs.Table.{Given};
ghost use Rattle.dav_local.specs.FromRoot.{CostsAtMost};
ghost use Rattle.dav_local.specs.Made.{MadeAt};
ghost use Rattle.dav_local.specs.Remembering.{IsRemembered};
ghost use Rattle.dav_local.specs.Near.{CallsAtMost, IsAsAsked, SeeksNear};
ghost use Rattle.dav_local.specs.Saving.{AsksOneCall, OpensByTwo, is_judged};
ghost use Rattle.dav_local.specs.Seeing.{OpensAt};
ghost use Rattle.dav_local.specs.Shown.{knowledge_of};
ghost use Rattle.dav_local.specs.Ways.{is_known, rules_of, rules_with};
ghost use Rattle.dav_local.specs.declared.file.LocalFsFile.{LocalFsFile};
ghost use Rattle.dav_local.specs.declared.fs.LocalFs.{LocalFs};
ghost use Rattle.dav_methods.specs.Answers.{RefusesUsually};
ghost use Rattle.dav_walks.specs.Follows.{Follows, Reached};
ghost use Rattle.dav_model.specs.Calls.{AreNear, IsWalkedBy, calls_to_open, calls_to_seek, is_meant, is_touched};
ghost use Rattle.dav_model.specs.Due.{OfItsPaths, Query};
ghost use Rattle.dav_model.specs.Finding.{is_virtual};
ghost use Rattle.dav_model.specs.Head.{Reply};
ghost use Rattle.dav_model.specs.Play.{Reads};
ghost use Rattle.dav_model.specs.Rules.{Learns, plain_rules};
ghost use Rattle.dav_store.specs.declared.entry.ReadDirMeta.{ReadDirMeta};
ghost use Rattle.dav_store.specs.Leads.{LeadsOn};
ghost use Rattle.dav_store.specs.Members.{ShowsMembers};
ghost use Rattle.dav_store.specs.Reached.{ShowsOn};
ghost use Rattle.dav_local_laws.specs.LocalStore.{IsLocalStore};
ghost use Rattle.dav_local_laws.specs.Loosely.{FollowsLoosely};
ghost use Rattle.dav_local_laws.specs.Ruled.{FindsOnce, HasFreeMembers, IsFree, IsOfRules, members_in, opened_in};

use dav_core::{DavPath, Disk};
use dav_local::{LocalFs, LocalFsFile};
use dav_memory::Remember;
use dav_model::Settings;
use dav_store::{DavFile, DavFileSystem};

/// Each call of a local store, of its files and of its listings is one call of its disk at the place where its path is
/// found, and how it finds paths stays.
pub fn calls_are_local<D: Disk, R: Remember>(_fs: &LocalFs<D, R>)
    ensures { IsLocalStore ⟦<LocalFs<D, R> as DavFileSystem>⟧.view ⟦<LocalFs<D, R> as DavFileSystem>⟧.listings
        ⟦<LocalFsFile as DavFile<D>>⟧.view.writes (λ s. s.ways) (λ s. R.state s.memory)
        (λ s. s.moment) }
{}

/// The local store refuses few things, and fails only where its disk met a fault. Of a listing this counts from where
/// it was begun.
pub fn local_stores_refuse_few<D: Disk, R: Remember>(_fs: &LocalFs<D, R>)
    ensures { RefusesUsually ⟦<LocalFs<D, R> as DavFileSystem>⟧.view ⟦<LocalFs<D, R> as DavFileSystem>⟧.listings
        ⟦<LocalFsFile as DavFile<D>>⟧.view.writes tt }
{
    calls_are_local(_fs)
}

/// From any state on the local store follows the rules of its ways, as far as its memory knows what is so.
pub fn local_stores_follow_rules<D: Disk, R: Remember>(_fs: &LocalFs<D, R>, _settings: &Settings)
    ensures { Follows ⟦<LocalFs<D, R> as DavFileSystem>⟧.view ⟦<LocalFs<D, R> as DavFileSystem>⟧.listings
        ⟦<LocalFsFile as DavFile<D>>⟧.view.writes tt (rules_with _settings.now _fs.now.ways)
        (knowledge_of (R.state _fs.now.memory)) _fs.now }
{
    calls_are_local(_fs)
}

/// In every run, also where names of a directory fold alike and a path may mean more than one, each call of the local
/// store that changes what stands does what the tree allows at one place where a loose walk of its path may end, where no
/// link stands on the way there. So it touches nothing else.
pub fn local_stores_follow_loosely<D: Disk, R: Remember>(_fs: &LocalFs<D, R>, _settings: &Settings)
    ensures { FollowsLoosely ⟦<LocalFs<D, R> as DavFileSystem>⟧.view ⟦<LocalFs<D, R> as DavFileSystem>⟧.listings
        ⟦<LocalFsFile as DavFile<D>>⟧.view.writes tt (rules_with _settings.now _fs.now.ways) _fs.now }
{
    calls_are_local(_fs)
}

/// What a GET or HEAD answers by what it heard of the local store is right for something that the store may show by its
/// rules: in every run, whatever its memory knows and however many names fold alike.
pub fn reads_are_right<D: Disk, R: Remember>(_fs: &LocalFs<D, R>)
    ensures { (q : Query) (t : LocalFs D R) (result : Given LocalFsFile) (reply : Reply)
        → OpenOnlyHeld ⟦<LocalFs<D, R> as DavFileSystem>⟧.view _fs.now result t
        → Heard ⟦<LocalFs<D, R> as DavFileSystem>⟧.view ⟦<LocalFs<D, R> as DavFileSystem>⟧.listings q tt _fs.now
        result t
        → ((number : Option ℕ)
        → IsOfNumber ⟦<LocalFs<D, R> as DavFileSystem>⟧.view number t result
        → reply_at q.fields (or_zero number) result ≡ reply)
        → Reads (rules_with q.settings _fs.now.ways) (knowledge_of (R.state _fs.now.memory)) (D.state _fs.now.disk)
        (D.state t.disk) q reply }
{
    calls_are_local(_fs)
}

/// How often the local store asks its disk for a GET or HEAD. Where names don't fold, or one file is served alone, it
/// asks once to look at a path that the rules for macOS don't touch, and once to open (`meant`). Whether they touch it or
/// not, a look, an opening and a refused listing ask twice at most each (`unsought`). Where names fold, and the disk
/// refuses nothing, it asks once to look at a path that its memory has, or that it hasn't and that stands as it is asked;
/// and to open such a path once or twice (`near`). Where a listing is refused it asks three times at most. Where names
/// fold, each of these three asks of any path six calls at most beside those of a walk from the root (`sought`).
pub fn local_stores_ask_few<D: Disk, R: Remember>(_fs: &LocalFs<D, R>)
    ensures meant { (q : Query) (most : ℕ) → is_meant (rules_with q.settings _fs.now.ways) ≡ true
        → is_touched (rules_with q.settings _fs.now.ways) q.path ≡ false
        → AsksFor ⟦<LocalFs<D, R> as DavFileSystem>⟧.view ⟦<LocalFs<D, R> as DavFileSystem>⟧.listings q 1 most
        _fs.now }
    ensures unsought { (q : Query) → is_meant (rules_with q.settings _fs.now.ways) ≡ true
        → AsksAtMostFor ⟦<LocalFs<D, R> as DavFileSystem>⟧.view ⟦<LocalFs<D, R> as DavFileSystem>⟧.listings q 2
        _fs.now }
    ensures near { (q : Query) (most : ℕ) (w : World) (held : Bool)
        → is_meant (rules_with q.settings _fs.now.ways) ≡ false
        → RefusedNothing (D.state _fs.now.disk).faults most → (D.state _fs.now.disk).told ≡ Some w
        → AreNear held (rules_with q.settings _fs.now.ways) (knowledge_of (R.state _fs.now.memory)) w q
        → AsksFor ⟦<LocalFs<D, R> as DavFileSystem>⟧.view ⟦<LocalFs<D, R> as DavFileSystem>⟧.listings q
        (calls_to_open held) most _fs.now }
    ensures sought { (q : Query) (most : ℕ) (w : World)
        → is_meant (rules_with q.settings _fs.now.ways) ≡ false
        → (D.state _fs.now.disk).told ≡ Some w → OfItsPaths q (IsWalkedBy most w)
        → AsksAtMostFor ⟦<LocalFs<D, R> as DavFileSystem>⟧.view ⟦<LocalFs<D, R> as DavFileSystem>⟧.listings q
        (calls_to_seek most) _fs.now }
{
    calls_are_local(_fs)
}

/// Calls that write nothing leave how a local store finds paths, and what its memory knows after them it knew before,
/// or the told world has it.
pub fn reads_learn_what_stands<D: Disk, R: Remember>(_fs: &LocalFs<D, R>)
    ensures { (t : LocalFs D R) → LeadsOn ⟦<LocalFs<D, R> as DavFileSystem>⟧.view
        ⟦<LocalFs<D, R> as DavFileSystem>⟧.listings tt _fs.now t
        → (t.ways ≡ _fs.now.ways) × Learns (D.state _fs.now.disk).told (knowledge_of (R.state _fs.now.memory))
        (knowledge_of (R.state t.memory)) }
{
    calls_are_local(_fs)
}

/// A look at a name that begins with `._`, where the rules for macOS hold and names don't fold, costs one call of the
/// disk where the memory knows the name to be absent and the disk refuses nothing. It finds nothing then, or memory was
/// wanting.
pub fn absent_names_cost_one_look<D: Disk, R: Remember>(_fs: &LocalFs<D, R>, _path: &DavPath)
    ensures { (result : Result Info FsError) (t : LocalFs D R)
        → ⟦<LocalFs<D, R> as DavFileSystem>⟧.view.looks _fs.now tt _path.now result t
        → _fs.now.ways.macos ≡ true → _fs.now.ways.folds ≡ false → _fs.now.ways.alone ≡ None
        → is_dot (or_empty (last_name _path.now.names)) ≡ true
        → RefusedNothing (D.state _fs.now.disk).faults (D.state t.disk).faults
        → IsKnownAbsent (place_of D.state R.state _fs.now) _path.now.names
        → DeniedAtOnce (place_of D.state R.state _fs.now) result (place_of D.state R.state t) }
{
    calls_are_local(_fs)
}

/// A look at a path that is remembered, where names fold, costs the one call of the disk by which it is found, where the
/// disk refuses nothing, unless memory was wanting before it. A name that the rules for macOS judge may cost another.
pub fn remembered_paths_cost_one_look<D: Disk, R: Remember>(_fs: &LocalFs<D, R>, _path: &DavPath)
    ensures { (at : Names) (result : Result Info FsError) (t : LocalFs D R)
        → ⟦<LocalFs<D, R> as DavFileSystem>⟧.view.looks _fs.now tt _path.now result t
        → _fs.now.ways.folds ≡ true → _fs.now.ways.alone ≡ None
        → is_virtual (rules_of _fs.now.ways) _path.now ≡ false
        → RefusedNothing (D.state _fs.now.disk).faults (D.state t.disk).faults
        → IsRemembered (place_of D.state R.state _fs.now) _path.now.names at → is_judged _fs.now.ways at ≡ false
        → AsksOneCall (place_of D.state R.state _fs.now) result (place_of D.state R.state t) }
{
    calls_are_local(_fs)
}

/// An opening for reading at a path that is remembered, where names fold, costs the one call of the disk by which it is
/// found, where the disk refuses nothing but for want of memory, and unless memory was wanting before it. What the rules
/// shut costs none.
pub fn remembered_paths_cost_one_opening<D: Disk, R: Remember>(_fs: &LocalFs<D, R>, _path: &DavPath)
    ensures { (at : Names) (result : Result LocalFsFile FsError) (t : LocalFs D R)
        → ⟦<LocalFs<D, R> as DavFileSystem>⟧.view.opens _fs.now tt _path.now reading result t
        → _fs.now.ways.folds ≡ true → _fs.now.ways.alone ≡ None → is_shut _fs.now.ways _path.now ≡ false
        → RefusedNothing (D.state _fs.now.disk).faults (D.state t.disk).faults
        → IsRemembered (place_of D.state R.state _fs.now) _path.now.names at
        → AsksOneCall (place_of D.state R.state _fs.now) result (place_of D.state R.state t) }
{
    calls_are_local(_fs)
}

/// Where names fold and the disk refuses nothing, a look at a path that the memory hasn't and that stands as it is asked
/// costs one call of the disk, unless the rules for macOS judge it; and an opening for reading two, or two at most where
/// nothing was opened.
pub fn paths_as_asked_cost_few<D: Disk, R: Remember>(_fs: &LocalFs<D, R>, _path: &DavPath)
    ensures looks { (result : Result Info FsError) (t : LocalFs D R)
        → ⟦<LocalFs<D, R> as DavFileSystem>⟧.view.looks _fs.now tt _path.now result t
        → _fs.now.ways.folds ≡ true → _fs.now.ways.alone ≡ None
        → is_virtual (rules_of _fs.now.ways) _path.now ≡ false
        → RefusedNothing (D.state _fs.now.disk).faults (D.state t.disk).faults
        → IsAsAsked (place_of D.state R.state _fs.now) _path.now.names → is_judged _fs.now.ways _path.now.names ≡ false
        → AsksOneCall (place_of D.state R.state _fs.now) result (place_of D.state R.state t) }
    ensures opens { (result : Result LocalFsFile FsError) (t : LocalFs D R)
        → ⟦<LocalFs<D, R> as DavFileSystem>⟧.view.opens _fs.now tt _path.now reading result t
        → _fs.now.ways.folds ≡ true → _fs.now.ways.alone ≡ None → is_shut _fs.now.ways _path.now ≡ false
        → RefusedNothing (D.state _fs.now.disk).faults (D.state t.disk).faults
        → IsAsAsked (place_of D.state R.state _fs.now) _path.now.names
        → OpensByTwo (D.state _fs.now.disk) result (D.state t.disk) }
{
    calls_are_local(_fs)
}

/// Where names fold and the disk refuses nothing, a path that the memory hasn't, and that doesn't stand as it is asked, is
/// sought in the directory above it: where the memory has that, or else where it stands as it is asked. It costs four
/// calls of the disk and one for each name in the directory at most, and a look or an opening follows at the place found.
pub fn members_are_sought_where_their_directory_is<D: Disk, R: Remember>(
    _fs: &LocalFs<D, R>,
    _path: &DavPath,
)
    ensures looks { (result : Result Info FsError) (t : LocalFs D R)
        → ⟦<LocalFs<D, R> as DavFileSystem>⟧.view.looks _fs.now tt _path.now result t
        → _fs.now.ways.folds ≡ true → _fs.now.ways.alone ≡ None
        → is_virtual (rules_of _fs.now.ways) _path.now ≡ false
        → SeeksNear 4 (place_of D.state R.state _fs.now) _path.now.names (LooksAt true _path.now.slash) result
        (place_of D.state R.state t) }
    ensures opens { (result : Result LocalFsFile FsError) (t : LocalFs D R)
        → ⟦<LocalFs<D, R> as DavFileSystem>⟧.view.opens _fs.now tt _path.now reading result t
        → _fs.now.ways.folds ≡ true → _fs.now.ways.alone ≡ None → is_shut _fs.now.ways _path.now ≡ false
        → SeeksNear 4 (place_of D.state R.state _fs.now) _path.now.names (OpensAt reading) result
        (place_of D.state R.state t) }
{
    calls_are_local(_fs)
}

/// Where names fold, no path costs more than a walk from the root: three calls of the disk for each of its names, and one
/// for each row that stands in a directory on its way, names folded. A look asks six more at most, an opening for reading
/// five, and the beginning of a listing six. It is so whatever the memory has and whatever was refused, over a told world
/// in which no link is met on the way.
pub fn no_path_costs_more_than_a_walk<D: Disk, R: Remember>(_fs: &LocalFs<D, R>, _path: &DavPath)
    ensures looks { (result : Result Info FsError) (t : LocalFs D R)
        → ⟦<LocalFs<D, R> as DavFileSystem>⟧.view.looks _fs.now tt _path.now result t
        → _fs.now.ways.folds ≡ true → _fs.now.ways.alone ≡ None
        → CostsAtMost 6 (place_of D.state R.state _fs.now) _path.now.names (place_of D.state R.state t) }
    ensures opens { (result : Result LocalFsFile FsError) (t : LocalFs D R)
        → ⟦<LocalFs<D, R> as DavFileSystem>⟧.view.opens _fs.now tt _path.now reading result t
        → _fs.now.ways.folds ≡ true → _fs.now.ways.alone ≡ None
        → CostsAtMost 5 (place_of D.state R.state _fs.now) _path.now.names (place_of D.state R.state t) }
    ensures lists { (wanted : ReadDirMeta) (result : Result LocalFsReadDir FsError) (t : LocalFs D R)
        → ⟦<LocalFs<D, R> as DavFileSystem>⟧.listings.lists _fs.now tt _path.now wanted result t
        → _fs.now.ways.folds ≡ true → _fs.now.ways.alone ≡ None
        → CostsAtMost 6 (place_of D.state R.state _fs.now) _path.now.names (place_of D.state R.state t) }
{
    calls_are_local(_fs)
}

/// Where names don't fold, or one file is served alone, a look asks the disk twice at most: with the rules for macOS the
/// memory may ask the time of a path's directory before the path is looked at. An opening for reading asks it once at
/// most, and the beginning of a listing twice, as it asks that time too where it gathers names. It is so whatever the
/// memory has, whatever was refused and whatever the disk tells.
pub fn paths_found_without_the_disk_cost_few<D: Disk, R: Remember>(
    _fs: &LocalFs<D, R>,
    _path: &DavPath,
)
    ensures looks { (result : Result Info FsError) (t : LocalFs D R)
        → ⟦<LocalFs<D, R> as DavFileSystem>⟧.view.looks _fs.now tt _path.now result t
        → is_known _fs.now.ways ≡ true → CallsAtMost 2 (D.state _fs.now.disk) (D.state t.disk) }
    ensures opens { (result : Result LocalFsFile FsError) (t : LocalFs D R)
        → ⟦<LocalFs<D, R> as DavFileSystem>⟧.view.opens _fs.now tt _path.now reading result t
        → is_known _fs.now.ways ≡ true → CallsAtMost 1 (D.state _fs.now.disk) (D.state t.disk) }
    ensures lists { (wanted : ReadDirMeta) (result : Result LocalFsReadDir FsError) (t : LocalFs D R)
        → ⟦<LocalFs<D, R> as DavFileSystem>⟧.listings.lists _fs.now tt _path.now wanted result t
        → is_known _fs.now.ways ≡ true → CallsAtMost 2 (D.state _fs.now.disk) (D.state t.disk) }
{
    calls_are_local(_fs)
}

/// The calls of a local store leave its moment, and what its memory remembers anew in them has it: a path in whole
/// seconds, and a directory and its names in nanoseconds.
pub fn entries_have_the_moment<D: Disk, R: Remember>(_fs: &LocalFs<D, R>)
    ensures reads { (t : LocalFs D R) → LeadsOn ⟦<LocalFs<D, R> as DavFileSystem>⟧.view
        ⟦<LocalFs<D, R> as DavFileSystem>⟧.listings tt _fs.now t
        → (t.moment ≡ _fs.now.moment)
        × MadeAt _fs.now.moment (R.state _fs.now.memory) (R.state t.memory) }
    ensures writes { (t : LocalFs D R) → Reached ⟦<LocalFs<D, R> as DavFileSystem>⟧.view
        ⟦<LocalFs<D, R> as DavFileSystem>⟧.listings ⟦<LocalFsFile as DavFile<D>>⟧.view.writes tt _fs.now t
        → (t.moment ≡ _fs.now.moment)
        × MadeAt _fs.now.moment (R.state _fs.now.memory) (R.state t.memory) }
{
    calls_are_local(_fs)
}

/// A listing that gathers names gathers each that it gives. Where its directory had a known time before it and has it
/// at its end, nothing was refused, and no fault was noted, the memory is sealed with what was gathered.
pub fn whole_listings_are_sealed<D: Disk, R: Remember>(_fs: &LocalFs<D, R>)
    ensures gathers { (n o : LocalFs D R) (l k : LocalFsReadDir) (answers : List Answered) (b : BuilderState)
        → l.builder ≡ Some b
        → Walked ⟦<LocalFs<D, R> as DavFileSystem>⟧.view ⟦<LocalFs<D, R> as DavFileSystem>⟧.listings n l answers o k
        → k.builder ≡ Some (gathered answers b) }
    ensures seals { (t : LocalFs D R) (k j : LocalFsReadDir) (b : BuilderState) (time : Time) (w : World)
        → k.builder ≡ Some b → may_settle b ≡ Some time → (D.state _fs.now.disk).told ≡ Some w
        → is_linked w.tree b.dir ≡ false → dir_time w.tree b.dir ≡ Some time
        → RefusedNothing (D.state _fs.now.disk).faults (D.state t.disk).faults
        → ⟦<LocalFs<D, R> as DavFileSystem>⟧.listings.lists_on _fs.now k (Ok None) t j
        → SealedWith (R.state _fs.now.memory) b time _fs.now.moment (R.state t.memory) }
{
    calls_are_local(_fs)
}

/// Calls that read and write, whatever they answered, leave how a local store finds paths, and what its memory knows
/// after them it knew before: what is listed on the way is about to change, and isn't remembered.
pub fn calls_teach_nothing<D: Disk, R: Remember>(_fs: &LocalFs<D, R>)
    ensures { (t : LocalFs D R) → Reached ⟦<LocalFs<D, R> as DavFileSystem>⟧.view
        ⟦<LocalFs<D, R> as DavFileSystem>⟧.listings ⟦<LocalFsFile as DavFile<D>>⟧.view.writes tt _fs.now t
        → (t.ways ≡ _fs.now.ways) × LearnsNothing (R.state _fs.now.memory) (R.state t.memory) }
{
    calls_are_local(_fs)
}

/// Where the disk tells its world and the rules find each path in one place, as they do unless two names of a directory
/// fold alike, the local store shows what stands in the world by its rules, whatever its memory knows: what is opened at
/// each path on the way to which no link stands, also after looks, openings for reading, calls of open files and
/// listings; and the members of a directory, where no link stands on the way to it or at one of them. It is what a run by
/// these rules shows, whatever its owner sets (`ruled`).
pub fn local_stores_show_the_tree<D: Disk, R: Remember>(_fs: &LocalFs<D, R>)
    ensures opened { (w : World) (path : WebPath) → (D.state _fs.now.disk).told ≡ Some w → FindsOnce _fs.now.ways w
        → IsFree _fs.now.ways w path.names
        → ShowsOn ⟦<LocalFs<D, R> as DavFileSystem>⟧.view ⟦<LocalFs<D, R> as DavFileSystem>⟧.listings _fs.now tt path
        (opened_in _fs.now.ways w path) }
    ensures listed { (w : World) (path : WebPath) → (D.state _fs.now.disk).told ≡ Some w → FindsOnce _fs.now.ways w
        → HasFreeMembers _fs.now.ways w path.names
        → ShowsMembers ⟦<LocalFs<D, R> as DavFileSystem>⟧.view
        ⟦<LocalFs<D, R> as DavFileSystem>⟧.listings _fs.now tt path (members_in _fs.now.ways w path) }
    ensures ruled { (w : World) (path : WebPath) → IsFree _fs.now.ways w path.names
        → IsOfRules _fs.now.ways w path }
{
    calls_are_local(_fs)
}
