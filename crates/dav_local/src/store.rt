ghost use Rattle.std.specs.Prelude.{◌≡◌, Option, Some, refl};
ghost use Rattle.dav_local.specs.Calls.{AsksToCopy, AsksToMake, AsksToMove, AsksToTakeDir, AsksToTakeFile};
ghost use Rattle.dav_local.specs.Calls.{BeginsAt, Finds, IsOpening, Looks};
ghost use Rattle.dav_local.specs.Gathering.{GivesNext, dir_to_come};
ghost use Rattle.dav_local.specs.Entries.{Says};
ghost use Rattle.dav_local.specs.LocalFiles.{local_file};
ghost use Rattle.dav_local.specs.Places.{Stays, place_of};
ghost use Rattle.dav_local.specs.Saving.{SavesDir, SavesLook, SavesOpen};

use crate::acts::{copy_at, make_at, move_at, open_at, take_dir_at, take_file_at};
use crate::gathering::{begin_dir, next_in};
use crate::lists::end_list;
use crate::walk::at_or;
use crate::{LocalFs, LocalFsDirEntry, LocalFsFile, LocalFsMetaData, LocalFsReadDir};
use dav_core::{DavPath, Disk, FsError, OpenOptions};
use dav_io::Moment;
use dav_memory::Remember;
use dav_store::{DavFileSystem, ReadDirMeta};

impl<D: Disk, R: Remember> DavFileSystem for LocalFs<D, R> {
    ghost use Rattle.std.specs.Prelude.{true, false};
    ghost use Rattle.dav_core.specs.Listing.{EndsListing};
    ghost use Rattle.dav_store.specs.FileView.{same_files};

    type Disk = D;

    type Meta = LocalFsMetaData;

    type File = LocalFsFile;

    type Dir = LocalFsReadDir;

    type Entry = LocalFsDirEntry;

    ghost inside = { λ s. s.disk };

    ghost with_disk = { λ s d. record s { disk = d } };

    ghost with_now = { λ s now. record s { moment = now } };

    ghost void = { λ _. false };

    ghost view = { record {
      state = λ s. D.state s.disk;
      loan = λ s. D.loan s.disk;
      lends = λ s t. t ≡ record s { disk = t.disk };
      looks = λ s _ path result t. Looks true (place_of D.state R.state s) path result
          (place_of D.state R.state t) × Stays s t × SavesLook (place_of D.state R.state s) path result
          (place_of D.state R.state t);
      looks_at_link = λ s _ path result t. Looks false (place_of D.state R.state s) path result
          (place_of D.state R.state t) × Stays s t;
      opens = λ s _ path how result t. IsOpening (place_of D.state R.state s) path how result
          (place_of D.state R.state t) × Stays s t × SavesOpen (place_of D.state R.state s) path how result
          (place_of D.state R.state t);
      makes_dir = λ s _ path result t. AsksToMake (place_of D.state R.state s) path result
          (place_of D.state R.state t) × Stays s t;
      removes_dir = λ s _ path result t. AsksToTakeDir (place_of D.state R.state s) path result
          (place_of D.state R.state t) × Stays s t;
      removes_file = λ s _ path result t. AsksToTakeFile (place_of D.state R.state s) path result
          (place_of D.state R.state t) × Stays s t;
      renames = λ s _ from to result t. AsksToMove (place_of D.state R.state s) from to result
          (place_of D.state R.state t) × Stays s t;
      copies = λ s _ from to result t. AsksToCopy (place_of D.state R.state s) from to result
          (place_of D.state R.state t) × Stays s t;
      folding = λ s. s.ways.folds;
      file = local_file;
    } };

    ghost listings = { record {
      lister = λ d. Some d.reading.lister.0;
      to_come = dir_to_come;
      lists = λ s _ path wanted result t. Finds (place_of D.state R.state s) path.names (BeginsAt wanted) result
          (place_of D.state R.state t) × Stays s t × SavesDir (place_of D.state R.state s) path result
          (place_of D.state R.state t);
      lists_on = λ s d result t e. GivesNext s.moment (place_of D.state R.state s) d result
          (place_of D.state R.state t) e × Stays s t;
      ends_list = λ s d t. EndsListing (D.state s.disk) d.reading.lister.0 (D.state t.disk)
          × (t ≡ record s { disk = t.disk });
      called = λ e. e.name;
      says = λ e s result t. Says e.meta s result t;
    } };

    fn disk(&mut self) -> &mut D {
        self.disk.lend()
    }

    fn set_now(&mut self, now: Moment) {
        self.disk.forget();
        self.moment = now;
    }

    fn folds(&self) -> bool {
        self.ways.folds
    }

    fn is_void(&self) -> bool {
        false
    }

    fn metadata(&mut self, path: &DavPath) -> Result<LocalFsMetaData, FsError> {
        self.look(path, true)
    }

    fn symlink_metadata(&mut self, path: &DavPath) -> Result<LocalFsMetaData, FsError> {
        self.look(path, false)
    }

    fn open(&mut self, path: &DavPath, options: OpenOptions) -> Result<LocalFsFile, FsError> {
        if self.is_shut(path) {
            return Err(FsError::Forbidden);
        }
        if options == OpenOptions::read() && !self.ways.is_known() {
            return self.open_alike(path.names());
        }
        let found = self.found(path.names())?;
        let at = at_or(&found, path.names());
        open_at(&mut self.disk, at, options, self.public)
    }

    fn read_dir(&mut self, path: &DavPath, meta: ReadDirMeta) -> Result<LocalFsReadDir, FsError> {
        match self.resolve(path) {
            Ok(at) => begin_dir(&mut self.disk, at, meta, self.ways.macos),
            Err(error) => Err(error),
        }
    }

    fn next_entry(&mut self, dir: &mut LocalFsReadDir) -> Result<Option<LocalFsDirEntry>, FsError> {
        next_in(self, dir)
    }

    fn end_dir(&mut self, dir: LocalFsReadDir) {
        end_list(&mut self.disk, dir.lister());
    }

    fn create_dir(&mut self, path: &DavPath) -> Result<(), FsError> {
        if self.is_forbidden(path) {
            return Err(FsError::Forbidden);
        }
        let found = self.found(path.names())?;
        make_at(&mut self.disk, at_or(&found, path.names()), self.public)
    }

    fn remove_dir(&mut self, path: &DavPath) -> Result<(), FsError> {
        let found = self.found(path.names())?;
        take_dir_at(&mut self.disk, at_or(&found, path.names()))
    }

    fn remove_file(&mut self, path: &DavPath) -> Result<(), FsError> {
        if self.is_shut(path) {
            return Err(FsError::Forbidden);
        }
        let found = self.found(path.names())?;
        take_file_at(&mut self.disk, at_or(&found, path.names()))
    }

    fn rename(&mut self, from: &DavPath, to: &DavPath) -> Result<(), FsError> {
        if self.is_forbidden(from) || self.is_forbidden(to) {
            return Err(FsError::Forbidden);
        }
        let first = self.found(from.names())?;
        let second = self.found(to.names())?;
        let at = at_or(&first, from.names());
        move_at(&mut self.disk, at, at_or(&second, to.names()))
    }

    fn copy(&mut self, from: &DavPath, to: &DavPath) -> Result<(), FsError> {
        if self.is_forbidden(from) || self.is_forbidden(to) {
            return Err(FsError::Forbidden);
        }
        let first = self.found(from.names())?;
        let second = self.found(to.names())?;
        let at = at_or(&first, from.names());
        copy_at(&mut self.disk, at, at_or(&second, to.names()))
    }

    ghost puts_inside = { λ s d. refl };

    ghost puts_over = { λ s d e. refl };

    ghost puts_back = { λ s. refl };

    ghost fits = { record {
      state = λ s. refl;
      loan = λ s. refl;
      lends = λ s d. refl;
      lent = λ s t lends. lends;
      file = same_files local_file;
      called = λ e. refl;
      says = λ e s r t said. said;
    } };
}
