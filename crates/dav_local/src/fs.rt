ghost use Rattle.std.specs.Prelude.{◌≡◌, ◌||◌, ℕ, Bool, IfOk, OnErr, None, Some, Result, refl, true, false};
ghost use Rattle.std.specs.Borrow.{sem, Lends};
ghost use Rattle.dav_core.specs.DavPath.{last_name};
ghost use Rattle.dav_core.specs.Listing.{or_empty};
ghost use Rattle.dav_core.specs.Path.{is_plain, parent_of};
ghost use Rattle.dav_core.specs.Tree.{is_linked};
ghost use Rattle.dav_core.specs.Unchanged.{Keeps};
ghost use Rattle.dav_core.specs.World.{World};
ghost use Rattle.dav_memory.specs.Memory.{Negates};
ghost use Rattle.dav_model.specs.Finding as finding;
ghost use Rattle.dav_model.specs.Folds.{is_dot};
ghost use Rattle.dav_model.specs.Valid.{no_twins};
ghost use Rattle.dav_store.specs.Frames.{KeepsOpen};
ghost use Rattle.dav_store.specs.Standing.{info_in};
ghost use Rattle.dav_local.specs.Calls.{Looks, LooksAt, MakesDefaults, MakesOne, TellsAbsent, is_shut as the_is_shut};
ghost use Rattle.dav_local.specs.contracts.fs.LocalFs.{the_row};
ghost use Rattle.dav_local.specs.Files.{local_info};
ghost use Rattle.dav_local.specs.FromRoot.{CostsBy};
ghost use Rattle.dav_local.specs.Near.{FindsAtOnce};
ghost use Rattle.dav_local.specs.Places.{Stays, place_of};
ghost use Rattle.dav_local.specs.Remembering.{KeepsAbove, KeepsWork, RemembersRows, SavesWork};
ghost use Rattle.dav_local.specs.Saving.{SavesLook};
ghost use Rattle.dav_local.specs.Resolving.{Resolves};
ghost use Rattle.dav_local.specs.Ways.{is_known as the_is_known, resolved_by, rules_of};

use crate::acts::make_missing;
use crate::ground::Ground;
use crate::lists::look_by;
use crate::meta::looked_as;
use crate::walk::{at_or, copied, parent};
use crate::ways::{is_dot_name, is_localized};
use crate::{LocalFsMetaData, Ways};
use dav_core::{DavPath, Disk, FsError, FsPath};
use dav_io::{Moment, NoMemory};
use dav_memory::Remember;
use std::alloc::Global;

/// A disk from its root on, or one file of it, as a store. Names may be found that fold like those asked, the rules for
/// clients of macOS may hold, and a memory is asked where paths were found, and whether a name that begins with `._` is
/// absent.
#[derive(Drop)]
pub struct LocalFs<D: Disk, R> {
    pub(crate) disk: Ground<D>,
    pub(crate) memory: R,
    pub(crate) ways: Ways,
    // What is made is open to everybody.
    pub(crate) public: bool,
    // By which the memory judges what is too old.
    pub(crate) moment: Moment,
}

impl<D: Disk, R> LocalFs<D, R> {
    /// A store of the disk's root. What it makes is open to everybody where `public` is set.
    pub fn new(disk: D, memory: R, public: bool, case_insensitive: bool, macos: bool) -> Self
        ensures { result ≡ record {
          disk = disk;
          memory = memory;
          ways = record { alone = None; folds = case_insensitive; macos = macos };
          public = public;
          moment = record { 0 = 0 };
        } }
    {
        LocalFs {
            disk: Ground::new(disk),
            memory,
            ways: Ways {
                alone: None,
                folds: case_insensitive,
                macos,
            },
            public,
            moment: Moment(0),
        }
    }

    /// A store in which every path names this file.
    pub fn new_file(disk: D, memory: R, file: FsPath, public: bool) -> Self
        ensures { result ≡ record {
          disk = disk;
          memory = memory;
          ways = record { alone = Some file; folds = false; macos = false };
          public = public;
          moment = record { 0 = 0 };
        } }
    {
        LocalFs {
            disk: Ground::new(disk),
            memory,
            ways: Ways {
                alone: Some(file),
                folds: false,
                macos: false,
            },
            public,
            moment: Moment(0),
        }
    }

    /// The disk.
    pub fn disk(&self) -> &D
        ensures { result.now ≡ self.now.disk }
    {
        self.disk.disk()
    }

    /// Gives the disk and the memory back.
    pub fn into_parts(self) -> (D, R)
        ensures { result ≡ (self.disk, self.memory) }
    {
        let LocalFs {
            disk,
            memory,
            ways: _,
            public: _,
            moment: _,
        } = self;
        (disk.into_disk(), memory)
    }
}

impl<D: Disk, R: Remember> LocalFs<D, R> {
    /// Lends the memory.
    pub fn memory(&mut self) -> &mut R
        ensures* writes_back { sem 𝓛 (Lends (the_row D.row R.row D.Disk) R.row self.entry result
            (λ memory. record self.old { memory = memory })) }
        ensures value { result.now ≡ self.old.memory }
    {
        &mut self.memory
    }

    /// Where a path is found. Without folding it is the path itself, and for a store of one file that file; nothing is
    /// asked then. With folding it is what the memory has, where something stands there; or the path where it stands;
    /// or the member that folds alike of the directory above, which is found likewise; or else what a walk from the
    /// root finds, which at each directory takes the name as it stands or one that folds alike. What isn't there is
    /// appended as it is asked. What is found elsewhere than it is asked is remembered, and before it the directory above
    /// it.
    ///
    /// Errors: `GeneralFailure` where the disk met a fault, and want of memory.
    pub fn resolve(&mut self, path: &DavPath) -> Result<FsPath, FsError>
        ensures done { Resolves (place_of D.state R.state self.old) path.now.names result
            (place_of D.state R.state self.new) }
        ensures saved { SavesWork (place_of D.state R.state self.old) path.now.names result
            (place_of D.state R.state self.new) }
        ensures kept { KeepsWork (place_of D.state R.state self.old) path.now.names result
            (place_of D.state R.state self.new) }
        ensures above { KeepsAbove (place_of D.state R.state self.old) path.now.names result
            (place_of D.state R.state self.new) }
        ensures rows { RemembersRows (place_of D.state R.state self.old) (place_of D.state R.state self.new) }
        ensures exactly { IfOk result (λ at. (w : World) → (D.state self.old.disk).told ≡ Some w
            → (self.old.ways.folds ≡ true → no_twins w.tree ≡ true)
            → is_linked w.tree (resolved_by self.old.ways w.tree path.now.names) ≡ false
            → at ≡ resolved_by self.old.ways w.tree path.now.names) }
        ensures near { self.old.ways.alone ≡ None → self.old.ways.folds ≡ true
            → FindsAtOnce (place_of D.state R.state self.old) path.now.names (place_of D.state R.state self.new) }
        ensures most { CostsBy (the_is_known self.old.ways) 0 4 (place_of D.state R.state self.old) path.now.names
            (place_of D.state R.state self.new) }
        ensures stays { Stays self.old self.new }
        ensures loan { D.loan self.new.disk ≡ D.loan self.old.disk }
    {
        let names = path.names();
        match self.found(names) {
            Ok(Some(at)) => Ok(at),
            Ok(None) => copied(names),
            Err(error) => Err(error),
        }
    }

    /// Whether the path is one of the two empty files that clients of macOS look for in the root. It takes no memory.
    pub fn is_virtual(&self, path: &DavPath) -> bool
        ensures { result ≡ finding.is_virtual (rules_of self.now.ways) path.now }
    {
        self.ways.is_virtual(path)
    }

    /// Whether nothing may be made, opened or removed at the path by the rules for clients of macOS. It takes no
    /// memory.
    pub fn is_forbidden(&self, path: &DavPath) -> bool
        ensures { result ≡ finding.is_forbidden (rules_of self.now.ways) path.now }
    {
        self.ways.is_forbidden(path)
    }

    // Whether the path is forbidden by these rules, or ends with a slash that is looked at.
    pub(crate) fn is_shut(&self, path: &DavPath) -> bool
        ensures { result ≡ the_is_shut self.now.ways path.now }
    {
        self.is_forbidden(path) || self.ways.has_slash(path)
    }

    /// Whether a path that was found is called absent by these rules: one whose last name is `.localized`, and one
    /// whose last name begins with `._` where the memory says that its directory hasn't it.
    pub fn is_notfound(&mut self, path: &FsPath) -> Result<bool, NoMemory>
        ensures done { TellsAbsent (place_of D.state R.state self.old) path.now result
            (place_of D.state R.state self.new) }
        ensures keeps { Keeps (D.state self.old.disk) (D.state self.new.disk) }
        ensures stays { Stays self.old self.new }
        ensures loan { D.loan self.new.disk ≡ D.loan self.old.disk }
    {
        if self.ways.macos && is_dot_name(path) {
            return self.denies(path);
        }
        Ok(self.ways.macos && is_localized(path))
    }

    // What the memory says of a path whose last name begins with `._`.
    fn denies(&mut self, path: &FsPath) -> Result<bool, NoMemory>
        requires { is_dot (or_empty (last_name path.now)) ≡ true }
        ensures done { IfOk result (λ absent. Negates (R.state self.old.memory) (parent_of path.now)
            (or_empty (last_name path.now)) (D.state self.old.disk) absent (R.state self.new.memory)
            (D.state self.new.disk)) }
        ensures keeps { Keeps (D.state self.old.disk) (D.state self.new.disk) }
        ensures stays { Stays self.old self.new }
        ensures err { OnErr result (place_of D.state R.state self.new ≡ place_of D.state R.state self.old) }
        ensures loan { D.loan self.new.disk ≡ D.loan self.old.disk }
    {
        let Some(name) = path.as_slice().last() else {
            return Ok(false);
        };
        let dir = parent(path)?;
        self.memory
            .negative(path.allocator(), &dir, name, &mut self.disk)
    }

    // Looks at a place that was found.
    pub(crate) fn look_at(
        &mut self,
        at: &FsPath,
        follows: bool,
        slash: bool,
    ) -> Result<LocalFsMetaData, FsError>
        ensures done { LooksAt follows slash at.now (place_of D.state R.state self.old) (info_in local_info result)
            (place_of D.state R.state self.new) }
        ensures keeps { Keeps (D.state self.old.disk) (D.state self.new.disk) }
        ensures stays { Stays self.old self.new }
        ensures loan { D.loan self.new.disk ≡ D.loan self.old.disk }
    {
        match self.is_notfound(at) {
            Ok(false) => looked_as(slash, look_by(&mut self.disk, follows, at)),
            Ok(true) => Err(FsError::NotFound),
            Err(NoMemory) => Err(FsError::NoMemory),
        }
    }

    // Looks at a path, where `follows` says so with a link at its end followed.
    pub(crate) fn look(&mut self, path: &DavPath, follows: bool) -> Result<LocalFsMetaData, FsError>
        ensures done { Looks follows (place_of D.state R.state self.old) path.now (info_in local_info result)
            (place_of D.state R.state self.new) }
        ensures saved { follows ≡ true → SavesLook (place_of D.state R.state self.old) path.now
            (info_in local_info result) (place_of D.state R.state self.new) }
        ensures keeps { Keeps (D.state self.old.disk) (D.state self.new.disk) }
        ensures stays { Stays self.old self.new }
        ensures loan { D.loan self.new.disk ≡ D.loan self.old.disk }
    {
        if self.is_virtual(path) {
            return Ok(LocalFsMetaData::Empty);
        }
        let slash = self.ways.has_slash(path);
        if follows && !self.ways.is_known() {
            return self.look_alike(path.names(), slash);
        }
        let found = self.found(path.names())?;
        self.look_at(at_or(&found, path.names()), follows, slash)
    }

    /// Makes the directories `/calendars` and `/addressbooks` where nothing stands. A file there counts as standing.
    pub fn create_defaults(&mut self, alloc: Global) -> Result<(), FsError>
        ensures done { MakesDefaults (place_of D.state R.state self.old) result (place_of D.state R.state self.new) }
        ensures keeps { KeepsOpen (D.state self.old.disk) (D.state self.new.disk) }
        ensures stays { Stays self.old self.new }
        ensures loan { D.loan self.new.disk ≡ D.loan self.old.disk }
    {
        match self.make_one(alloc, "calendars") {
            Ok(()) => self.make_one(alloc, "addressbooks"),
            Err(error) => Err(error),
        }
    }

    // Makes a directory of this name in the root where nothing stands.
    fn make_one(&mut self, alloc: Global, name: &str) -> Result<(), FsError>
        requires { is_plain name.now ≡ true }
        ensures done { MakesOne name.now (place_of D.state R.state self.old) result
            (place_of D.state R.state self.new) }
        ensures keeps { KeepsOpen (D.state self.old.disk) (D.state self.new.disk) }
        ensures stays { Stays self.old self.new }
        ensures loan { D.loan self.new.disk ≡ D.loan self.old.disk }
    {
        let root = FsPath::new(Vec::new(alloc));
        let Ok(path) = root.child(name) else {
            return Err(FsError::NoMemory);
        };
        let found = self.found(&path)?;
        make_missing(&mut self.disk, at_or(&found, &path), self.public)
    }
}
