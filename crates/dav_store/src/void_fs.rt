ghost use Rattle.std.specs.Prelude.{◌≡◌};

use crate::void_parts::{VoidDir, VoidEntry, VoidFile};
use crate::{EmptyMetaData, GuardedFileSystem, NoDisk, ReadDirMeta};
use dav_core::{DavPath, FsError, OpenOptions};
use dav_io::Moment;
use std::marker::PhantomData;

/// A store that has nothing. Every call is refused with `NotImplemented`.
#[derive(Clone, Debug, Drop)]
pub struct VoidFs<C> {
    disk: NoDisk,
    credentials: PhantomData<C>,
}

impl<C> VoidFs<C> {
    /// A store over a disk that has nothing.
    pub fn new() -> VoidFs<C>
        ensures { result.disk ≡ record { faults = 0; asked = 0 } }
    {
        VoidFs {
            disk: NoDisk::new(),
            credentials: PhantomData,
        }
    }
}

/// Whether a store has nothing and does nothing.
pub fn is_voidfs<S: GuardedFileSystem<C>, C>(fs: &S) -> bool
    ensures { result ≡ S.void fs.now }
{
    fs.is_void()
}

impl<C> GuardedFileSystem<C> for VoidFs<C> {
    ghost use Rattle.std.specs.Prelude.{◌≡◌, None, codes, cond, false, refl, true};
    ghost use Rattle.dav_store.specs.FileView.{same_files};
    ghost use Rattle.dav_store.specs.Void.{GivesOnce, Unbuilt, no_disk_state, void_file};

    type Disk = NoDisk;

    type Meta = EmptyMetaData;

    type File = VoidFile;

    type Dir = VoidDir;

    type Entry = VoidEntry;

    ghost inside = { λ s. s.disk };

    ghost with_disk = { λ s d. record s { disk = d } };

    ghost with_now = { λ s _. s };

    ghost void = { λ _. true };

    ghost view = { record {
      state = λ s. no_disk_state s.disk.faults s.disk.asked;
      loan = λ _. None;
      lends = λ s t. t ≡ record s { disk = t.disk };
      looks = λ s _ _ result t. Unbuilt s result t;
      looks_at_link = λ s _ _ result t. Unbuilt s result t;
      opens = λ s _ _ _ result t. Unbuilt s result t;
      makes_dir = λ s _ _ result t. Unbuilt s result t;
      removes_dir = λ s _ _ result t. Unbuilt s result t;
      removes_file = λ s _ _ result t. Unbuilt s result t;
      renames = λ s _ _ _ result t. Unbuilt s result t;
      copies = λ s _ _ _ result t. Unbuilt s result t;
      folding = λ _. false;
      file = void_file;
    } };

    ghost listings = { record {
      lister = λ _. None;
      to_come = λ d _. cond d.over 0 1;
      lists = λ s _ _ _ result t. Unbuilt s result t;
      lists_on = λ s d result t e. GivesOnce d.over result e.over × (t ≡ s);
      ends_list = λ s _ t. t ≡ s;
      called = λ _. codes "void";
      says = λ _ s result t. Unbuilt s result t;
    } };

    fn disk(&mut self) -> &mut NoDisk {
        &mut self.disk
    }

    fn set_now(&mut self, _now: Moment) {}

    fn folds(&self) -> bool {
        false
    }

    fn is_void(&self) -> bool {
        true
    }

    fn metadata(&mut self, _path: &DavPath, _credentials: &C) -> Result<EmptyMetaData, FsError> {
        Err(FsError::NotImplemented)
    }

    fn symlink_metadata(
        &mut self,
        _path: &DavPath,
        _credentials: &C,
    ) -> Result<EmptyMetaData, FsError> {
        Err(FsError::NotImplemented)
    }

    fn open(
        &mut self,
        _path: &DavPath,
        _options: OpenOptions,
        _credentials: &C,
    ) -> Result<VoidFile, FsError> {
        Err(FsError::NotImplemented)
    }

    fn read_dir(
        &mut self,
        _path: &DavPath,
        _meta: ReadDirMeta,
        _credentials: &C,
    ) -> Result<VoidDir, FsError> {
        Err(FsError::NotImplemented)
    }

    fn next_entry(&mut self, dir: &mut VoidDir) -> Result<Option<VoidEntry>, FsError> {
        if dir.over {
            return Ok(None);
        }
        dir.over = true;
        Err(FsError::NotImplemented)
    }

    fn end_dir(&mut self, _dir: VoidDir) {}

    fn create_dir(&mut self, _path: &DavPath, _credentials: &C) -> Result<(), FsError> {
        Err(FsError::NotImplemented)
    }

    fn remove_dir(&mut self, _path: &DavPath, _credentials: &C) -> Result<(), FsError> {
        Err(FsError::NotImplemented)
    }

    fn remove_file(&mut self, _path: &DavPath, _credentials: &C) -> Result<(), FsError> {
        Err(FsError::NotImplemented)
    }

    fn rename(&mut self, _from: &DavPath, _to: &DavPath, _credentials: &C) -> Result<(), FsError> {
        Err(FsError::NotImplemented)
    }

    fn copy(&mut self, _from: &DavPath, _to: &DavPath, _credentials: &C) -> Result<(), FsError> {
        Err(FsError::NotImplemented)
    }

    ghost puts_inside = { λ s d. refl };

    ghost puts_over = { λ s d e. refl };

    ghost puts_back = { λ s. refl };

    ghost fits = { record {
      state = λ s. refl;
      loan = λ s. refl;
      lends = λ s d. refl;
      lent = λ s t lends. lends;
      file = same_files void_file;
      called = λ e. refl;
      says = λ e s r t said. said;
    } };
}
