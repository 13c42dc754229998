ghost use Rattle.std.specs.Prelude.{◌≡◌, ◌≤◌, Err, refl};
ghost use Rattle.dav_core.specs.Disk.{Closes, FileMetas, LinkMetas, Metas, Opens, Reads, Seeks};
ghost use Rattle.dav_core.specs.Listing.{EndsListing, Lists, ListsOn};
ghost use Rattle.dav_core.proofs.Untold.{untold_live};
ghost use Rattle.dav_core.specs.Writing.{Copies, CreatesDir, RemovesDir, RemovesFile, Renames, Writes};
ghost use Rattle.dav_io.specs.Counts.{Rose, one_more};
ghost use Rattle.dav_store.specs.Void.{never_told, no_disk_state};

use dav_core::{Disk, DiskError, FsPath, Handle, Lister, Meta, OpenOptions};
use dav_io::{NoMemory, Text};
use std::alloc::Global;

/// A disk that has nothing, not even a root. A call on a path is refused with `NotFound`. No handle and no lister is
/// ever live; a call on one is a fault, and counted.
#[derive(Clone, Copy, Debug)]
pub struct NoDisk {
    faults: u64,
    asked: u64,
}

impl NoDisk {
    /// Nothing was asked of it yet.
    pub fn new() -> NoDisk
        ensures { result ≡ record { faults = 0; asked = 0 } }
    {
        NoDisk {
            faults: 0,
            asked: 0,
        }
    }

    // Counts a call.
    fn count(&mut self)
        ensures asked { self.new ≡ record self.old { asked = one_more self.old.asked } }
        ensures more { self.old.asked ≤ self.new.asked }
    {
        self.asked = self.asked.saturating_add(1);
    }

    // Counts a call and a fault.
    fn fail(&mut self) -> DiskError
        ensures failed { result ≡ DiskError.Failed }
        ensures counts { self.new ≡ record { faults = one_more self.old.faults; asked = one_more self.old.asked } }
        ensures more { self.old.asked ≤ self.new.asked }
        ensures met { self.old.faults ≤ self.new.faults }
        ensures rose { Rose self.old.faults self.new.faults }
    {
        self.count();
        self.faults = self.faults.saturating_add(1);
        DiskError::Failed
    }
}

impl Disk for NoDisk {
    ghost state = { λ d. no_disk_state d.faults d.asked };

    fn meta(&mut self, _path: &FsPath) -> Result<Meta, DiskError>
        ensures done { Metas (no_disk_state self.old.faults self.old.asked) _path.now result
            (no_disk_state self.new.faults self.new.asked) }
        ensures loan { ⟦<NoDisk as Disk>⟧.loan self.new ≡ ⟦<NoDisk as Disk>⟧.loan self.old }
        ensures refused { result ≡ Err DiskError.NotFound }
        ensures counts { self.new ≡ record self.old { asked = one_more self.old.asked } }
    {
        self.count();
        Err(DiskError::NotFound)
    }

    fn link_meta(&mut self, _path: &FsPath) -> Result<Meta, DiskError>
        ensures done { LinkMetas (no_disk_state self.old.faults self.old.asked) _path.now result
            (no_disk_state self.new.faults self.new.asked) }
        ensures loan { ⟦<NoDisk as Disk>⟧.loan self.new ≡ ⟦<NoDisk as Disk>⟧.loan self.old }
        ensures refused { result ≡ Err DiskError.NotFound }
        ensures counts { self.new ≡ record self.old { asked = one_more self.old.asked } }
    {
        self.count();
        Err(DiskError::NotFound)
    }

    fn open(
        &mut self,
        _path: &FsPath,
        _how: OpenOptions,
        _public: bool,
    ) -> Result<Handle, DiskError>
        ensures done { Opens (no_disk_state self.old.faults self.old.asked) _path.now _how result
            (no_disk_state self.new.faults self.new.asked) }
        ensures loan { ⟦<NoDisk as Disk>⟧.loan self.new ≡ ⟦<NoDisk as Disk>⟧.loan self.old }
        ensures refused { result ≡ Err DiskError.NotFound }
        ensures counts { self.new ≡ record self.old { asked = one_more self.old.asked } }
    {
        self.count();
        Err(DiskError::NotFound)
    }

    /// A fault.
    fn file_meta(&mut self, _file: Handle) -> Result<Meta, DiskError>
        ensures done { FileMetas (no_disk_state self.old.faults self.old.asked) _file.0 result
            (no_disk_state self.new.faults self.new.asked) }
        ensures loan { ⟦<NoDisk as Disk>⟧.loan self.new ≡ ⟦<NoDisk as Disk>⟧.loan self.old }
        ensures refused { result ≡ Err DiskError.Failed }
        ensures counts { self.new ≡ record { faults = one_more self.old.faults; asked = one_more self.old.asked } }
    {
        Err(self.fail())
    }

    /// A fault.
    fn seek(&mut self, _file: Handle, _place: u64) -> Result<(), DiskError>
        ensures done { Seeks (no_disk_state self.old.faults self.old.asked) _file.0 _place result
            (no_disk_state self.new.faults self.new.asked) }
        ensures loan { ⟦<NoDisk as Disk>⟧.loan self.new ≡ ⟦<NoDisk as Disk>⟧.loan self.old }
        ensures refused { result ≡ Err DiskError.Failed }
        ensures counts { self.new ≡ record { faults = one_more self.old.faults; asked = one_more self.old.asked } }
    {
        Err(self.fail())
    }

    /// A fault.
    fn read(&mut self, _file: Handle, _into: &mut [u8]) -> Result<usize, DiskError>
        ensures done { Reads (no_disk_state self.old.faults self.old.asked) _file.0 _into.new result
            (no_disk_state self.new.faults self.new.asked) }
        ensures loan { ⟦<NoDisk as Disk>⟧.loan self.new ≡ ⟦<NoDisk as Disk>⟧.loan self.old }
        ensures refused { result ≡ Err DiskError.Failed }
        ensures counts { self.new ≡ record { faults = one_more self.old.faults; asked = one_more self.old.asked } }
    {
        Err(self.fail())
    }

    /// A fault.
    fn write(&mut self, _file: Handle, _from: &[u8]) -> Result<usize, DiskError>
        ensures done { Writes (no_disk_state self.old.faults self.old.asked) _file.0 _from.now result
            (no_disk_state self.new.faults self.new.asked) }
        ensures loan { ⟦<NoDisk as Disk>⟧.loan self.new ≡ ⟦<NoDisk as Disk>⟧.loan self.old }
        ensures refused { result ≡ Err DiskError.Failed }
        ensures counts { self.new ≡ record { faults = one_more self.old.faults; asked = one_more self.old.asked } }
    {
        Err(self.fail())
    }

    /// Nothing is open, and nothing is ended.
    fn close(&mut self, _file: Handle)
        ensures done { Closes (no_disk_state self.old.faults self.old.asked) _file.0
            (no_disk_state self.new.faults self.new.asked) }
        ensures loan { ⟦<NoDisk as Disk>⟧.loan self.new ≡ ⟦<NoDisk as Disk>⟧.loan self.old }
        ensures same { self.new ≡ self.old }
    {}

    fn list(&mut self, _path: &FsPath) -> Result<Lister, DiskError>
        ensures done { Lists (no_disk_state self.old.faults self.old.asked) _path.now result
            (no_disk_state self.new.faults self.new.asked) }
        ensures loan { ⟦<NoDisk as Disk>⟧.loan self.new ≡ ⟦<NoDisk as Disk>⟧.loan self.old }
        ensures refused { result ≡ Err DiskError.NotFound }
        ensures counts { self.new ≡ record self.old { asked = one_more self.old.asked } }
    {
        self.count();
        Err(DiskError::NotFound)
    }

    /// A fault.
    fn list_next(&mut self, _alloc: Global, _at: Lister) -> Result<Option<Text>, DiskError>
        ensures done { ListsOn (no_disk_state self.old.faults self.old.asked) _at.0 result
            (no_disk_state self.new.faults self.new.asked) }
        ensures loan { ⟦<NoDisk as Disk>⟧.loan self.new ≡ ⟦<NoDisk as Disk>⟧.loan self.old }
        ensures refused { result ≡ Err DiskError.Failed }
        ensures counts { self.new ≡ record { faults = one_more self.old.faults; asked = one_more self.old.asked } }
    {
        Err(self.fail())
    }

    /// No listing is open, and nothing is ended.
    fn end_list(&mut self, _at: Lister)
        ensures done { EndsListing (no_disk_state self.old.faults self.old.asked) _at.0
            (no_disk_state self.new.faults self.new.asked) }
        ensures loan { ⟦<NoDisk as Disk>⟧.loan self.new ≡ ⟦<NoDisk as Disk>⟧.loan self.old }
        ensures same { self.new ≡ self.old }
    {}

    fn create_dir(&mut self, _path: &FsPath, _public: bool) -> Result<(), DiskError>
        ensures done { CreatesDir (no_disk_state self.old.faults self.old.asked) _path.now result
            (no_disk_state self.new.faults self.new.asked) }
        ensures loan { ⟦<NoDisk as Disk>⟧.loan self.new ≡ ⟦<NoDisk as Disk>⟧.loan self.old }
        ensures refused { result ≡ Err DiskError.NotFound }
        ensures counts { self.new ≡ record self.old { asked = one_more self.old.asked } }
    {
        self.count();
        Err(DiskError::NotFound)
    }

    fn remove_dir(&mut self, _path: &FsPath) -> Result<(), DiskError>
        ensures done { RemovesDir (no_disk_state self.old.faults self.old.asked) _path.now result
            (no_disk_state self.new.faults self.new.asked) }
        ensures loan { ⟦<NoDisk as Disk>⟧.loan self.new ≡ ⟦<NoDisk as Disk>⟧.loan self.old }
        ensures refused { result ≡ Err DiskError.NotFound }
        ensures counts { self.new ≡ record self.old { asked = one_more self.old.asked } }
    {
        self.count();
        Err(DiskError::NotFound)
    }

    fn remove_file(&mut self, _path: &FsPath) -> Result<(), DiskError>
        ensures done { RemovesFile (no_disk_state self.old.faults self.old.asked) _path.now result
            (no_disk_state self.new.faults self.new.asked) }
        ensures loan { ⟦<NoDisk as Disk>⟧.loan self.new ≡ ⟦<NoDisk as Disk>⟧.loan self.old }
        ensures refused { result ≡ Err DiskError.NotFound }
        ensures counts { self.new ≡ record self.old { asked = one_more self.old.asked } }
    {
        self.count();
        Err(DiskError::NotFound)
    }

    fn rename(&mut self, _from: &FsPath, _to: &FsPath) -> Result<(), DiskError>
        ensures done { Renames (no_disk_state self.old.faults self.old.asked) _from.now _to.now result
            (no_disk_state self.new.faults self.new.asked) }
        ensures loan { ⟦<NoDisk as Disk>⟧.loan self.new ≡ ⟦<NoDisk as Disk>⟧.loan self.old }
        ensures refused { result ≡ Err DiskError.NotFound }
        ensures counts { self.new ≡ record self.old { asked = one_more self.old.asked } }
    {
        self.count();
        Err(DiskError::NotFound)
    }

    fn copy(&mut self, _from: &FsPath, _to: &FsPath) -> Result<(), DiskError>
        ensures done { Copies (no_disk_state self.old.faults self.old.asked) _from.now _to.now result
            (no_disk_state self.new.faults self.new.asked) }
        ensures loan { ⟦<NoDisk as Disk>⟧.loan self.new ≡ ⟦<NoDisk as Disk>⟧.loan self.old }
        ensures refused { result ≡ Err DiskError.NotFound }
        ensures counts { self.new ≡ record self.old { asked = one_more self.old.asked } }
    {
        self.count();
        Err(DiskError::NotFound)
    }

    fn turn(&mut self) -> Result<(), NoMemory> {
        Ok(())
    }

    ghost world = { λ d w told. never_told w told };

    ghost tells_live = { λ d. untold_live (no_disk_state d.faults d.asked) refl };
}
