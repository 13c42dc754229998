// A path that is found by folding, over any disk, and any memory of where paths were found: the memory is asked for the
// path and the disk what stands there as it is asked; then likewise for the directory above it, of which the members
// are listed; and without that directory it is walked from the root. What is found elsewhere than it is asked is
// remembered.
ghost use Rattle.std.specs.Prelude.{◌≡◌, IfOk, None, OnOk, Result, true};
ghost use Rattle.dav_core.specs.declared.error.FsError.{FsError};
ghost use Rattle.dav_core.specs.Path.{Names, is_plain};
ghost use Rattle.dav_local.specs.FromRoot.{CostsAtMost, CostsBy, StepsFew};
ghost use Rattle.dav_local.specs.Near.{CallsAtMost, FindsAtOnce, FindsDir, FindsDirHere, FindsHere, MissesUnasked, SearchesFew, SoughtIn};
ghost use Rattle.dav_local.specs.Places.{Stays, place_of};
ghost use Rattle.dav_local.specs.Remembering.{HasFirst, HasNext, KeepsAbove, KeepsWork, RemembersRows, SavesCalls, SavesWork};
ghost use Rattle.dav_local.specs.Resolving.{Resolves, StandsFor, found_at};
ghost use Rattle.dav_local.specs.Walking.{BringsAbove, BringsUnheld, FindsParent, Recalls, Remembers, StepsOn, TakesMember, Walks};
ghost use Rattle.dav_local.specs.Ways.{is_known as the_is_known};

use crate::LocalFs;
use crate::lists::look;
use crate::walk::{alike, below, copied, step};
use dav_core::{Disk, DiskError, FsError, FsPath};
use dav_io::{NoMemory, Text};
use dav_memory::Remember;

impl<D: Disk, R: Remember> LocalFs<D, R> {
    // Finds a path as the store finds it. None says that it is found as it is asked: then it isn't copied.
    pub(crate) fn found(&mut self, path: &FsPath) -> Result<Option<FsPath>, FsError>
        ensures done { Resolves (place_of D.state R.state self.old) path.now (found_at path.now result)
            (place_of D.state R.state self.new) }
        ensures saved { (r : Result Names FsError) → StandsFor path.now result r
            → SavesWork (place_of D.state R.state self.old) path.now r (place_of D.state R.state self.new) }
        ensures kept { KeepsWork (place_of D.state R.state self.old) path.now (found_at path.now result)
            (place_of D.state R.state self.new) }
        ensures rows { RemembersRows (place_of D.state R.state self.old) (place_of D.state R.state self.new) }
        ensures above { KeepsAbove (place_of D.state R.state self.old) path.now (found_at path.now result)
            (place_of D.state R.state self.new) }
        ensures near { self.old.ways.alone ≡ None → self.old.ways.folds ≡ true
            → FindsAtOnce (place_of D.state R.state self.old) path.now (place_of D.state R.state self.new) }
        ensures most { CostsBy (the_is_known self.old.ways) 0 4 (place_of D.state R.state self.old) path.now
            (place_of D.state R.state self.new) }
        ensures stays { Stays self.old self.new }
        ensures loan { D.loan self.new.disk ≡ D.loan self.old.disk }
    {
        if let Some(file) = &self.ways.alone {
            return Ok(Some(copied(file)?));
        }
        if self.ways.folds {
            return self.find_alike(path);
        }
        Ok(None)
    }

    // Finds a path by folding: where the memory has it, or as it stands, or below a directory.
    fn find_alike(&mut self, path: &FsPath) -> Result<Option<FsPath>, FsError>
        ensures done { Walks (place_of D.state R.state self.old) path.now (found_at path.now result)
            (place_of D.state R.state self.new) }
        ensures saved { (r : Result Names FsError) → StandsFor path.now result r
            → SavesCalls (place_of D.state R.state self.old) path.now r (place_of D.state R.state self.new) }
        ensures above { BringsUnheld (place_of D.state R.state self.old) path.now (found_at path.now result)
            (place_of D.state R.state self.new) }
        ensures near { FindsAtOnce (place_of D.state R.state self.old) path.now (place_of D.state R.state self.new) }
        ensures most { CostsAtMost 4 (place_of D.state R.state self.old) path.now (place_of D.state R.state self.new) }
        ensures stays { Stays self.old self.new }
        ensures loan { D.loan self.new.disk ≡ D.loan self.old.disk }
    {
        match self.recall(path) {
            Ok(Some(at)) => Ok(Some(at)),
            Ok(None) => self.find_on_disk(path),
            Err(error) => Err(error),
        }
    }

    // Finds a path that the memory hasn't.
    pub(crate) fn find_on_disk(&mut self, path: &FsPath) -> Result<Option<FsPath>, FsError>
        ensures done { Walks (place_of D.state R.state self.old) path.now (found_at path.now result)
            (place_of D.state R.state self.new) }
        ensures above { BringsAbove (place_of D.state R.state self.old) path.now (found_at path.now result)
            (place_of D.state R.state self.new) }
        ensures near { SoughtIn 4 (place_of D.state R.state self.old) path.now (found_at path.now result)
            (place_of D.state R.state self.new) }
        ensures here { FindsHere (place_of D.state R.state self.old) path.now result (place_of D.state R.state self.new) }
        ensures most { CostsAtMost 3 (place_of D.state R.state self.old) path.now (place_of D.state R.state self.new) }
        ensures stays { Stays self.old self.new }
        ensures loan { D.loan self.new.disk ≡ D.loan self.old.disk }
    {
        match look(&mut self.disk, path) {
            Ok(_) => Ok(None),
            Err(DiskError::Failed) => Err(FsError::GeneralFailure),
            Err(_) => Ok(Some(self.find_elsewhere(path)?)),
        }
    }

    // Finds a path that doesn't stand as it is asked: in the directory above it, or else from the root on. The root is
    // where it is.
    pub(crate) fn find_elsewhere(&mut self, path: &FsPath) -> Result<FsPath, FsError>
        ensures done { Walks (place_of D.state R.state self.old) path.now result (place_of D.state R.state self.new) }
        ensures above { BringsAbove (place_of D.state R.state self.old) path.now result
            (place_of D.state R.state self.new) }
        ensures near { SoughtIn 3 (place_of D.state R.state self.old) path.now result (place_of D.state R.state self.new) }
        ensures most { CostsAtMost 2 (place_of D.state R.state self.old) path.now (place_of D.state R.state self.new) }
        ensures stays { Stays self.old self.new }
        ensures loan { D.loan self.new.disk ≡ D.loan self.old.disk }
    {
        let Some((name, above)) = path.as_slice().split_last() else {
            return copied(path);
        };
        let root = FsPath::new(Vec::new(path.allocator()));
        let Ok(dir) = below(&root, above) else {
            return Err(FsError::NoMemory);
        };
        match self.find_parent(dir) {
            Ok(Some(found)) => self.take_member(&found, name),
            Ok(None) => self.walk(path),
            Err(error) => Err(error),
        }
    }

    // Finds the directory above a path: the root, or where the memory has it, or as it stands.
    fn find_parent(&mut self, dir: FsPath) -> Result<Option<FsPath>, FsError>
        ensures done { FindsParent (place_of D.state R.state self.old) dir result (place_of D.state R.state self.new) }
        ensures near { FindsDir (place_of D.state R.state self.old) dir result (place_of D.state R.state self.new) }
        ensures few { CallsAtMost 2 (D.state self.old.disk) (D.state self.new.disk) }
        ensures stays { Stays self.old self.new }
        ensures loan { D.loan self.new.disk ≡ D.loan self.old.disk }
    {
        if dir.as_slice().is_empty() {
            return Ok(Some(dir));
        }
        match self.recall(&dir) {
            Ok(Some(found)) => Ok(Some(found)),
            Ok(None) => self.parent_on_disk(dir),
            Err(error) => Err(error),
        }
    }

    // The directory above a path as it stands. It is remembered.
    fn parent_on_disk(&mut self, dir: FsPath) -> Result<Option<FsPath>, FsError>
        ensures done { FindsParent (place_of D.state R.state self.old) dir result (place_of D.state R.state self.new) }
        ensures near { FindsDirHere (place_of D.state R.state self.old) dir result (place_of D.state R.state self.new) }
        ensures few { CallsAtMost 1 (D.state self.old.disk) (D.state self.new.disk) }
        ensures stays { Stays self.old self.new }
        ensures loan { D.loan self.new.disk ≡ D.loan self.old.disk }
    {
        match look(&mut self.disk, &dir) {
            Ok(_) => match self.remember(&dir) {
                Ok(()) => Ok(Some(dir)),
                Err(error) => Err(error),
            },
            Err(DiskError::Failed) => Err(FsError::GeneralFailure),
            Err(_) => Ok(None),
        }
    }

    // The member of a directory that folds like the name, which is remembered. Without one the name is appended.
    fn take_member(&mut self, dir: &FsPath, name: &Text) -> Result<FsPath, FsError>
        requires { is_plain name.now ≡ true }
        ensures done { TakesMember (place_of D.state R.state self.old) dir.now name.now result
            (place_of D.state R.state self.new) }
        ensures above { HasFirst dir.now dir.now (R.state self.old.memory)
            → IfOk result (λ at. HasNext dir.now at (R.state self.new.memory)) }
        ensures few { SearchesFew (D.state self.old.disk) dir.now (D.state self.new.disk) }
        ensures stays { Stays self.old self.new }
        ensures loan { D.loan self.new.disk ≡ D.loan self.old.disk }
    {
        match alike(&mut self.disk, dir, name) {
            Ok(Some(at)) => match self.remember(&at) {
                Ok(()) => Ok(at),
                Err(error) => Err(error),
            },
            Ok(None) => match dir.child(name.as_str()) {
                Ok(at) => Ok(at),
                Err(NoMemory) => Err(FsError::NoMemory),
            },
            Err(error) => Err(error),
        }
    }

    // Walks from the root. What isn't there is appended as it is asked. What is found is remembered, and the directory
    // before its last name.
    fn walk(&mut self, path: &FsPath) -> Result<FsPath, FsError>
        ensures done { Walks (place_of D.state R.state self.old) path.now result (place_of D.state R.state self.new) }
        ensures above { BringsAbove (place_of D.state R.state self.old) path.now result
            (place_of D.state R.state self.new) }
        ensures most { CostsAtMost 0 (place_of D.state R.state self.old) path.now (place_of D.state R.state self.new) }
        ensures stays { Stays self.old self.new }
        ensures loan { D.loan self.new.disk ≡ D.loan self.old.disk }
    {
        let mut at = FsPath::new(Vec::new(path.allocator()));
        let mut rest = path.as_slice();
        while let Some((name, more)) = rest.split_first() {
            match self.step_on(&at, name, more.is_empty()) {
                Ok(Some(next)) => at = next,
                Ok(None) => return below(&at, rest),
                Err(error) => return Err(error),
            }
            rest = more;
        }
        match self.remember(&at) {
            Ok(()) => Ok(at),
            Err(error) => Err(error),
        }
    }

    // A step of a walk. Before the last one the directory that was reached is remembered.
    fn step_on(&mut self, at: &FsPath, name: &Text, last: bool) -> Result<Option<FsPath>, FsError>
        requires { is_plain name.now ≡ true }
        ensures done { StepsOn (place_of D.state R.state self.old) at.now name.now result
            (place_of D.state R.state self.new) }
        ensures first { last ≡ true → OnOk result (HasFirst at.now at.now (R.state self.new.memory)) }
        ensures few { StepsFew (D.state self.old.disk) at.now (D.state self.new.disk) }
        ensures stays { Stays self.old self.new }
        ensures loan { D.loan self.new.disk ≡ D.loan self.old.disk }
    {
        if !last {
            return step(&mut self.disk, at, name);
        }
        match self.remember(at) {
            Ok(()) => step(&mut self.disk, at, name),
            Err(error) => Err(error),
        }
    }

    // Where the memory has a path, if something stands there.
    fn recall(&mut self, path: &FsPath) -> Result<Option<FsPath>, FsError>
        ensures done { Recalls (place_of D.state R.state self.old) path.now result
            (place_of D.state R.state self.new) }
        ensures unasked { MissesUnasked (place_of D.state R.state self.old) path.now result (place_of D.state R.state self.new) }
        ensures few { CallsAtMost 1 (D.state self.old.disk) (D.state self.new.disk) }
        ensures stays { Stays self.old self.new }
        ensures loan { D.loan self.new.disk ≡ D.loan self.old.disk }
    {
        match self.memory.get(path.allocator(), path, &mut self.disk) {
            Ok(Some((at, _))) => Ok(Some(at)),
            Ok(None) => Ok(None),
            Err(NoMemory) => Err(FsError::NoMemory),
        }
    }

    // Remembers where a path is.
    fn remember(&mut self, at: &FsPath) -> Result<(), FsError>
        ensures done { Remembers (place_of D.state R.state self.old) at.now result
            (place_of D.state R.state self.new) }
        ensures disk { D.state self.new.disk ≡ D.state self.old.disk }
        ensures stays { Stays self.old self.new }
        ensures loan { D.loan self.new.disk ≡ D.loan self.old.disk }
    {
        match self.memory.insert(at.allocator(), at, self.moment) {
            Ok(()) => Ok(()),
            Err(NoMemory) => Err(FsError::NoMemory),
        }
    }
}
