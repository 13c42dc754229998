// Looks and openings of paths that are found by folding. Where a path is found by a call of the disk at the place where
// it stands, as where the memory has it, that call is the answer, and the disk isn't asked again.
ghost use Rattle.std.specs.Prelude.{◌≡◌, true};
ghost use Rattle.dav_core.specs.Writing.{reading};
ghost use Rattle.dav_core.specs.Unchanged.{Keeps};
ghost use Rattle.dav_memory.specs.Calls.{Opening, Seeing};
ghost use Rattle.dav_store.specs.Frames.{OpensOne};
ghost use Rattle.dav_store.specs.Standing.{info_in};
ghost use Rattle.dav_local.specs.Calls.{LooksAt};
ghost use Rattle.dav_local.specs.Files.{local_info};
ghost use Rattle.dav_local.specs.LocalFiles.{local_file};
ghost use Rattle.dav_local.specs.FromRoot.{CostsAtMost};
ghost use Rattle.dav_local.specs.Near.{CallsAtMost, KeepsAsked, KeepsSeen, MissesUnasked, OpensThereByTwo, SeeksNear, SeesThere};
ghost use Rattle.dav_local.specs.Places.{Stays, place_of};
ghost use Rattle.dav_local.specs.Saving.{OpensAsAsked, OpensOnce, SavesAt, SavesOpening, SeesAsAsked, SeesOnce};
ghost use Rattle.dav_local.specs.Seeing.{AnswersSeen, FindsAlike, OpensAt, OpensThere};
ghost use Rattle.dav_local.specs.Walking.{RecallsBy};

use crate::acts::open_at;
use crate::lists::look;
use crate::meta::looked_as;
use crate::walk::at_or;
use crate::{LocalFs, LocalFsFile, LocalFsMetaData};
use dav_core::{Disk, DiskError, FsError, FsPath, Handle, Meta, OpenOptions};
use dav_io::NoMemory;
use dav_memory::Remember;

impl<D: Disk, R: Remember> LocalFs<D, R> {
    // Looks at a path that is found by folding, with a link at its end followed.
    pub(crate) fn look_alike(
        &mut self,
        path: &FsPath,
        slash: bool,
    ) -> Result<LocalFsMetaData, FsError>
        ensures done { FindsAlike (place_of D.state R.state self.old) path.now (LooksAt true slash)
            (info_in local_info result) (place_of D.state R.state self.new) }
        ensures saved { SavesAt (place_of D.state R.state self.old) path.now (info_in local_info result)
            (place_of D.state R.state self.new) }
        ensures here { SeesAsAsked (place_of D.state R.state self.old) path.now (info_in local_info result)
            (place_of D.state R.state self.new) }
        ensures above { SeeksNear 4 (place_of D.state R.state self.old) path.now (LooksAt true slash)
            (info_in local_info result) (place_of D.state R.state self.new) }
        ensures kept { KeepsSeen (place_of D.state R.state self.old) path.now (place_of D.state R.state self.new) }
        ensures keeps { Keeps (D.state self.old.disk) (D.state self.new.disk) }
        ensures most { CostsAtMost 6 (place_of D.state R.state self.old) path.now (place_of D.state R.state self.new) }
        ensures stays { Stays self.old self.new }
        ensures loan { D.loan self.new.disk ≡ D.loan self.old.disk }
    {
        match self.recall_seen(path) {
            Ok(Some((at, meta))) => self.look_seen(&at, meta, slash),
            Ok(None) => self.look_on_disk(path, slash),
            Err(error) => Err(error),
        }
    }

    // Where the memory has a path, and what stands there, if something does.
    fn recall_seen(&mut self, path: &FsPath) -> Result<Option<(FsPath, Meta)>, FsError>
        ensures done { RecallsBy Seeing (place_of D.state R.state self.old) path.now result
            (place_of D.state R.state self.new) }
        ensures once { SeesOnce (place_of D.state R.state self.old) path.now result
            (place_of D.state R.state self.new) }
        ensures unasked { MissesUnasked (place_of D.state R.state self.old) path.now result (place_of D.state R.state self.new) }
        ensures kept { KeepsAsked (place_of D.state R.state self.old) path.now (place_of D.state R.state self.new) }
        ensures keeps { Keeps (D.state self.old.disk) (D.state self.new.disk) }
        ensures few { CallsAtMost 1 (D.state self.old.disk) (D.state self.new.disk) }
        ensures stays { Stays self.old self.new }
        ensures loan { D.loan self.new.disk ≡ D.loan self.old.disk }
    {
        match self.memory.get(path.allocator(), path, &mut self.disk) {
            Ok(found) => Ok(found),
            Err(NoMemory) => Err(FsError::NoMemory),
        }
    }

    // Looks at a path that the memory hasn't: as it is asked, or where it is found.
    fn look_on_disk(&mut self, path: &FsPath, slash: bool) -> Result<LocalFsMetaData, FsError>
        ensures done { FindsAlike (place_of D.state R.state self.old) path.now (LooksAt true slash)
            (info_in local_info result) (place_of D.state R.state self.new) }
        ensures here { SeesThere (place_of D.state R.state self.old) path.now (place_of D.state R.state self.new) }
        ensures above { SeeksNear 4 (place_of D.state R.state self.old) path.now (LooksAt true slash)
            (info_in local_info result) (place_of D.state R.state self.new) }
        ensures keeps { Keeps (D.state self.old.disk) (D.state self.new.disk) }
        ensures most { CostsAtMost 5 (place_of D.state R.state self.old) path.now (place_of D.state R.state self.new) }
        ensures stays { Stays self.old self.new }
        ensures loan { D.loan self.new.disk ≡ D.loan self.old.disk }
    {
        match look(&mut self.disk, path) {
            Ok(meta) => self.look_seen(path, meta, slash),
            Err(DiskError::Failed) => Err(FsError::GeneralFailure),
            Err(_) => self.look_elsewhere(path, slash),
        }
    }

    // Looks at a path that doesn't stand as it is asked.
    fn look_elsewhere(&mut self, path: &FsPath, slash: bool) -> Result<LocalFsMetaData, FsError>
        ensures done { FindsAlike (place_of D.state R.state self.old) path.now (LooksAt true slash)
            (info_in local_info result) (place_of D.state R.state self.new) }
        ensures above { SeeksNear 3 (place_of D.state R.state self.old) path.now (LooksAt true slash)
            (info_in local_info result) (place_of D.state R.state self.new) }
        ensures keeps { Keeps (D.state self.old.disk) (D.state self.new.disk) }
        ensures most { CostsAtMost 4 (place_of D.state R.state self.old) path.now (place_of D.state R.state self.new) }
        ensures stays { Stays self.old self.new }
        ensures loan { D.loan self.new.disk ≡ D.loan self.old.disk }
    {
        match self.find_elsewhere(path) {
            Ok(at) => self.look_at(&at, true, slash),
            Err(error) => Err(error),
        }
    }

    // What a look answers after something was seen at a place.
    fn look_seen(
        &mut self,
        at: &FsPath,
        meta: Meta,
        slash: bool,
    ) -> Result<LocalFsMetaData, FsError>
        ensures done { AnswersSeen at.now meta slash (place_of D.state R.state self.old) (info_in local_info result)
            (place_of D.state R.state self.new) }
        ensures keeps { Keeps (D.state self.old.disk) (D.state self.new.disk) }
        ensures stays { Stays self.old self.new }
        ensures loan { D.loan self.new.disk ≡ D.loan self.old.disk }
    {
        if self.ways.is_judged(at) {
            return self.look_at(at, true, slash);
        }
        looked_as(slash, Ok(meta))
    }

    // Opens for reading what stands at a path that is found by folding.
    pub(crate) fn open_alike(&mut self, path: &FsPath) -> Result<LocalFsFile, FsError>
        ensures done { FindsAlike (place_of D.state R.state self.old) path.now (OpensAt reading) result
            (place_of D.state R.state self.new) }
        ensures saved { SavesOpening (place_of D.state R.state self.old) path.now result
            (place_of D.state R.state self.new) }
        ensures here { OpensAsAsked (place_of D.state R.state self.old) path.now result (place_of D.state R.state self.new) }
        ensures above { SeeksNear 4 (place_of D.state R.state self.old) path.now (OpensAt reading) result
            (place_of D.state R.state self.new) }
        ensures one { OpensOne local_file reading (D.state self.old.disk) result
            (D.state self.new.disk) }
        ensures most { CostsAtMost 5 (place_of D.state R.state self.old) path.now (place_of D.state R.state self.new) }
        ensures stays { Stays self.old self.new }
        ensures loan { D.loan self.new.disk ≡ D.loan self.old.disk }
    {
        match self.recall_open(path) {
            Ok(Some((_, handle))) => Ok(LocalFsFile { handle }),
            Ok(None) => self.open_on_disk(path),
            Err(error) => Err(error),
        }
    }

    // Opens for reading what stands where the memory has a path, if something does.
    fn recall_open(&mut self, path: &FsPath) -> Result<Option<(FsPath, Handle)>, FsError>
        ensures done { RecallsBy Opening (place_of D.state R.state self.old) path.now result
            (place_of D.state R.state self.new) }
        ensures once { OpensOnce (place_of D.state R.state self.old) path.now result
            (place_of D.state R.state self.new) }
        ensures unasked { MissesUnasked (place_of D.state R.state self.old) path.now result (place_of D.state R.state self.new) }
        ensures one { OpensThere (D.state self.old.disk) result (D.state self.new.disk) }
        ensures few { CallsAtMost 1 (D.state self.old.disk) (D.state self.new.disk) }
        ensures stays { Stays self.old self.new }
        ensures loan { D.loan self.new.disk ≡ D.loan self.old.disk }
    {
        match self.memory.get_open(path.allocator(), path, &mut self.disk) {
            Ok(found) => Ok(found),
            Err(NoMemory) => Err(FsError::NoMemory),
        }
    }

    // Opens for reading what stands at a path that the memory hasn't.
    fn open_on_disk(&mut self, path: &FsPath) -> Result<LocalFsFile, FsError>
        ensures done { FindsAlike (place_of D.state R.state self.old) path.now (OpensAt reading) result
            (place_of D.state R.state self.new) }
        ensures here { OpensThereByTwo (place_of D.state R.state self.old) path.now (place_of D.state R.state self.new) }
        ensures above { SeeksNear 4 (place_of D.state R.state self.old) path.now (OpensAt reading) result
            (place_of D.state R.state self.new) }
        ensures one { OpensOne local_file reading (D.state self.old.disk) result
            (D.state self.new.disk) }
        ensures most { CostsAtMost 4 (place_of D.state R.state self.old) path.now (place_of D.state R.state self.new) }
        ensures stays { Stays self.old self.new }
        ensures loan { D.loan self.new.disk ≡ D.loan self.old.disk }
    {
        let found = self.find_on_disk(path)?;
        let at = at_or(&found, path);
        open_at(&mut self.disk, at, OpenOptions::read(), self.public)
    }
}
