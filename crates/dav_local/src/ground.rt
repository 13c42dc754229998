// A disk, with what a search of a directory didn't find in it since it was last lent or written.
ghost use Rattle.std.specs.Prelude.{◌≡◌, true, IfSome, IsTrue};
ghost use Rattle.std.specs.Borrow.{sem, Lends};
ghost use Rattle.dav_local.specs.Ground.{Lacks};
ghost use Rattle.dav_local.specs.contracts.ground.Ground.{the_row};

use dav_core::{Disk, DiskError, FsPath, Handle, Lister, Meta, OpenOptions};
use dav_io::{NoMemory, Text};
use std::alloc::Global;
use std::marker::Model;

// A directory, and a folding that no name in it has.
#[derive(Drop)]
pub struct Missing {
    pub at: FsPath,
    pub folding: Text,
}

// Copies of these, where memory is had.
fn noted(at: &FsPath, folding: &Text) -> Option<Missing>
    ensures { IfSome result (λ m. (m.at ≡ at.now) × (m.folding ≡ folding.now)) }
{
    let Ok(at) = at.try_clone() else {
        return None;
    };
    let Ok(folding) = folding.try_clone() else {
        return None;
    };
    Some(Missing { at, folding })
}

/// A disk that remembers a search that found nothing. A contract sees the disk.
#[derive(Drop)]
pub struct Ground<D: Disk> {
    disk: D,
    missing: Option<Missing>,
}

impl<D: Disk> Model for Ground<D> {
    ghost use Rattle.std.specs.Prelude.{IfSome};
    ghost use Rattle.dav_local.specs.Ground.{Lacks};

    ghost Value = { D };

    ghost view = { λ g. g.disk };

    ghost invariant = { λ g. IfSome g.missing (λ m. Lacks (D.state g.disk) m.at m.folding) };
}

impl<D: Disk> Ground<D> {
    pub fn new(disk: D) -> Self
        ensures { result ≡ disk }
    {
        Ground {
            disk,
            missing: None,
        }
    }

    pub fn disk(&self) -> &D
        ensures { result.now ≡ self.now }
    {
        &self.disk
    }

    pub fn into_disk(self) -> D
        ensures { result ≡ self }
    {
        let Ground { disk, missing: _ } = self;
        disk
    }

    /// Lends the disk. What was missing may come meanwhile.
    pub fn lend(&mut self) -> &mut D
        ensures* writes_back { sem 𝓛 (Lends (the_row D.row D.Disk) D.row self.entry result (λ disk. disk)) }
        ensures value { result.now ≡ self.old }
    {
        self.missing = None;
        &mut self.disk
    }

    /// Whether it is known that no name in the directory has the folding.
    pub fn lacks(&self, at: &FsPath, folding: &Text) -> bool
        ensures { IsTrue result → Lacks (D.state self.now) at.now folding.now }
    {
        match &self.missing {
            Some(missing) => missing.at == *at && missing.folding == *folding,
            None => false,
        }
    }

    /// Remembers that no name in the directory has the folding, unless memory is wanting.
    pub fn note(&mut self, at: &FsPath, folding: &Text)
        requires { Lacks (D.state self.old) at.now folding.now }
        ensures { self.new ≡ self.old }
    {
        self.missing = noted(at, folding);
    }

    /// Forgets what was missing.
    pub fn forget(&mut self)
        ensures { self.new ≡ self.old }
    {
        self.missing = None;
    }
}

impl<D: Disk> Disk for Ground<D> {
    ghost state = { λ g. D.state g };

    ghost loan = { λ g. D.loan g };

    fn meta(&mut self, path: &FsPath) -> Result<Meta, DiskError> {
        self.disk.meta(path)
    }

    fn link_meta(&mut self, path: &FsPath) -> Result<Meta, DiskError> {
        self.disk.link_meta(path)
    }

    fn open(&mut self, path: &FsPath, how: OpenOptions, public: bool) -> Result<Handle, DiskError> {
        self.missing = None;
        self.disk.open(path, how, public)
    }

    fn file_meta(&mut self, file: Handle) -> Result<Meta, DiskError> {
        self.missing = None;
        self.disk.file_meta(file)
    }

    fn seek(&mut self, file: Handle, place: u64) -> Result<(), DiskError> {
        self.missing = None;
        self.disk.seek(file, place)
    }

    fn read(&mut self, file: Handle, into: &mut [u8]) -> Result<usize, DiskError> {
        self.missing = None;
        self.disk.read(file, into)
    }

    fn write(&mut self, file: Handle, from: &[u8]) -> Result<usize, DiskError> {
        self.missing = None;
        self.disk.write(file, from)
    }

    fn close(&mut self, file: Handle) {
        self.missing = None;
        self.disk.close(file);
    }

    fn list(&mut self, path: &FsPath) -> Result<Lister, DiskError> {
        self.disk.list(path)
    }

    fn list_next(&mut self, alloc: Global, at: Lister) -> Result<Option<Text>, DiskError> {
        self.disk.list_next(alloc, at)
    }

    fn end_list(&mut self, at: Lister) {
        self.disk.end_list(at);
    }

    fn create_dir(&mut self, path: &FsPath, public: bool) -> Result<(), DiskError> {
        self.missing = None;
        self.disk.create_dir(path, public)
    }

    fn remove_dir(&mut self, path: &FsPath) -> Result<(), DiskError> {
        self.missing = None;
        self.disk.remove_dir(path)
    }

    fn remove_file(&mut self, path: &FsPath) -> Result<(), DiskError> {
        self.missing = None;
        self.disk.remove_file(path)
    }

    fn rename(&mut self, from: &FsPath, to: &FsPath) -> Result<(), DiskError> {
        self.missing = None;
        self.disk.rename(from, to)
    }

    fn copy(&mut self, from: &FsPath, to: &FsPath) -> Result<(), DiskError> {
        self.missing = None;
        self.disk.copy(from, to)
    }

    fn turn(&mut self) -> Result<(), NoMemory> {
        self.missing = None;
        self.disk.turn()
    }

    ghost world = { λ g w e. D.world g w e };

    ghost tells_live = { λ g. D.tells_live g };
}
