ghost use Rattle.std.specs.Prelude.{◌≡◌, ◌<◌, length, IsSome, Option, None, Some};
ghost use Rattle.std.specs.Borrow.{GName};
ghost use Rattle.dav_core.specs.World.{World, IsWorld};
ghost use Rattle.dav_core.specs.Disk.{DiskState, TellsLive, Metas, LinkMetas, FileMetas, Opens, Seeks, Reads, Closes, Turns};
ghost use Rattle.dav_core.specs.Writing.{CreatesDir, RemovesDir, RemovesFile, Renames, Copies, Writes};
ghost use Rattle.dav_core.specs.Listing.{Lists, ListsOn, EndsListing};

use crate::{DiskError, FsPath, Handle, Lister, Meta, OpenOptions};
use dav_io::{NoMemory, Text};
use std::alloc::Global;

/// A disk that is asked call by call. It counts the calls asked of it and the faults that it met; both counts stay at
/// the greatest u64 once they are there. It may tell its world; then each call does to that world what its relation
/// says. A disk that doesn't tell still keeps its counts, its live handles and its live listers.
pub trait Disk {
    /// What contracts see of the disk.
    ghost state: { Self → DiskState };

    /// The loan that the disk stands on: none for an owned disk, and for a `&mut` its own.
    ghost loan: { Self → Option GName } = { λ _. None };

    /// What stands at a path, links followed.
    fn meta(&mut self, path: &FsPath) -> Result<Meta, DiskError>
        ensures done { Metas (state self.old) path.now result (state self.new) }
        ensures loan { loan self.new ≡ loan self.old };

    /// What stands at a path, a link at its end not followed.
    fn link_meta(&mut self, path: &FsPath) -> Result<Meta, DiskError>
        ensures done { LinkMetas (state self.old) path.now result (state self.new) }
        ensures loan { loan self.new ≡ loan self.old };

    /// Opens what stands at a path, at its first byte. With `create` or `create_new` a file is made where nothing
    /// stands, open to everybody where `public` is set; with `create_new` nothing may stand there. With `truncate` and
    /// `write` a file that stands there is emptied.
    fn open(&mut self, path: &FsPath, how: OpenOptions, public: bool) -> Result<Handle, DiskError>
        ensures done { Opens (state self.old) path.now how result (state self.new) }
        ensures loan { loan self.new ≡ loan self.old };

    /// What is known of an open file.
    fn file_meta(&mut self, file: Handle) -> Result<Meta, DiskError>
        requires { IsSome ((state self.old).live file.0) }
        ensures done { FileMetas (state self.old) file.0 result (state self.new) }
        ensures loan { loan self.new ≡ loan self.old };

    /// Sets the place of an open file, in bytes from its first.
    fn seek(&mut self, file: Handle, place: u64) -> Result<(), DiskError>
        requires { IsSome ((state self.old).live file.0) }
        ensures done { Seeks (state self.old) file.0 place result (state self.new) }
        ensures loan { loan self.new ≡ loan self.old };

    /// Reads bytes from an open file's place on to the front of `into`, and answers how many. 0 comes exactly where no
    /// byte stands there.
    fn read(&mut self, file: Handle, into: &mut [u8]) -> Result<usize, DiskError>
        requires live { IsSome ((state self.old).live file.0) }
        requires room { 0 < length into.old }
        ensures done { Reads (state self.old) file.0 into.new result (state self.new) }
        ensures loan { loan self.new ≡ loan self.old };

    /// Writes bytes at an open file's place, or at its end where it was opened to append, and answers how many, at
    /// least one. Zeros fill a gap before its place. A refused write may have written a front.
    fn write(&mut self, file: Handle, from: &[u8]) -> Result<usize, DiskError>
        requires live { IsSome ((state self.old).live file.0) }
        requires some { 0 < length from.now }
        ensures done { Writes (state self.old) file.0 from.now result (state self.new) }
        ensures loan { loan self.new ≡ loan self.old };

    /// Ends an open file. It is no counted call, and can't be refused.
    fn close(&mut self, file: Handle)
        requires { IsSome ((state self.old).live file.0) }
        ensures done { Closes (state self.old) file.0 (state self.new) }
        ensures loan { loan self.new ≡ loan self.old };

    /// Begins a listing of the directory at a path: of the names that stand there now, each once, in the disk's order.
    fn list(&mut self, path: &FsPath) -> Result<Lister, DiskError>
        ensures done { Lists (state self.old) path.now result (state self.new) }
        ensures loan { loan self.new ≡ loan self.old };

    /// The next name of a listing, which is plain, or None after the last.
    fn list_next(&mut self, alloc: Global, at: Lister) -> Result<Option<Text>, DiskError>
        requires { IsSome ((state self.old).listers at.0) }
        ensures done { ListsOn (state self.old) at.0 result (state self.new) }
        ensures loan { loan self.new ≡ loan self.old };

    /// Ends a listing. It is no counted call, and can't be refused.
    fn end_list(&mut self, at: Lister)
        requires { IsSome ((state self.old).listers at.0) }
        ensures done { EndsListing (state self.old) at.0 (state self.new) }
        ensures loan { loan self.new ≡ loan self.old };

    /// Makes a directory where nothing stands, open to everybody where `public` is set.
    fn create_dir(&mut self, path: &FsPath, public: bool) -> Result<(), DiskError>
        ensures done { CreatesDir (state self.old) path.now result (state self.new) }
        ensures loan { loan self.new ≡ loan self.old };

    /// Removes a directory without members. The root stays.
    fn remove_dir(&mut self, path: &FsPath) -> Result<(), DiskError>
        ensures done { RemovesDir (state self.old) path.now result (state self.new) }
        ensures loan { loan self.new ≡ loan self.old };

    /// Removes what is no directory. Where it is open it keeps its bytes.
    fn remove_file(&mut self, path: &FsPath) -> Result<(), DiskError>
        ensures done { RemovesFile (state self.old) path.now result (state self.new) }
        ensures loan { loan self.new ≡ loan self.old };

    /// Moves what stands at a path to another, with all below it: a file in place of a file, a directory in place of
    /// one without members, or where nothing stands. A rename that met a fault may have been made.
    fn rename(&mut self, from: &FsPath, to: &FsPath) -> Result<(), DiskError>
        ensures done { Renames (state self.old) from.now to.now result (state self.new) }
        ensures loan { loan self.new ≡ loan self.old };

    /// Copies a file's bytes into the file at another path, which is made where nothing stands. A copy that met a fault
    /// may have copied a front of them.
    fn copy(&mut self, from: &FsPath, to: &FsPath) -> Result<(), DiskError>
        ensures done { Copies (state self.old) from.now to.now result (state self.new) }
        ensures loan { loan self.new ≡ loan self.old };

    /// Lets the outside make its next batch of changes, whole. Where memory is refused it makes nothing.
    fn turn(&mut self) -> Result<(), NoMemory>
        ensures done { Turns (state self.old) result (state self.new) }
        ensures loan { loan self.new ≡ loan self.old };

    /// What is told is a world.
    ghost world: { (d : Self) (w : World) → (state d).told ≡ Some w → IsWorld w };

    /// What is open in it is what is live.
    ghost tells_live: { (d : Self) → TellsLive (state d) };
}

impl<D: Disk> Disk for &mut D {
    ghost state = { λ d. D.state d.now };

    ghost loan = { λ d. Some d.ghost_name };

    fn meta(&mut self, path: &FsPath) -> Result<Meta, DiskError> {
        Disk::meta(&mut **self, path)
    }

    fn link_meta(&mut self, path: &FsPath) -> Result<Meta, DiskError> {
        Disk::link_meta(&mut **self, path)
    }

    fn open(&mut self, path: &FsPath, how: OpenOptions, public: bool) -> Result<Handle, DiskError> {
        Disk::open(&mut **self, path, how, public)
    }

    fn file_meta(&mut self, file: Handle) -> Result<Meta, DiskError> {
        Disk::file_meta(&mut **self, file)
    }

    fn seek(&mut self, file: Handle, place: u64) -> Result<(), DiskError> {
        Disk::seek(&mut **self, file, place)
    }

    fn read(&mut self, file: Handle, into: &mut [u8]) -> Result<usize, DiskError> {
        Disk::read(&mut **self, file, into)
    }

    fn write(&mut self, file: Handle, from: &[u8]) -> Result<usize, DiskError> {
        Disk::write(&mut **self, file, from)
    }

    fn close(&mut self, file: Handle) {
        Disk::close(&mut **self, file)
    }

    fn list(&mut self, path: &FsPath) -> Result<Lister, DiskError> {
        Disk::list(&mut **self, path)
    }

    fn list_next(&mut self, alloc: Global, at: Lister) -> Result<Option<Text>, DiskError> {
        Disk::list_next(&mut **self, alloc, at)
    }

    fn end_list(&mut self, at: Lister) {
        Disk::end_list(&mut **self, at)
    }

    fn create_dir(&mut self, path: &FsPath, public: bool) -> Result<(), DiskError> {
        Disk::create_dir(&mut **self, path, public)
    }

    fn remove_dir(&mut self, path: &FsPath) -> Result<(), DiskError> {
        Disk::remove_dir(&mut **self, path)
    }

    fn remove_file(&mut self, path: &FsPath) -> Result<(), DiskError> {
        Disk::remove_file(&mut **self, path)
    }

    fn rename(&mut self, from: &FsPath, to: &FsPath) -> Result<(), DiskError> {
        Disk::rename(&mut **self, from, to)
    }

    fn copy(&mut self, from: &FsPath, to: &FsPath) -> Result<(), DiskError> {
        Disk::copy(&mut **self, from, to)
    }

    fn turn(&mut self) -> Result<(), NoMemory> {
        Disk::turn(&mut **self)
    }

    ghost world = { λ d w e. D.world d.now w e };

    ghost tells_live = { λ d. D.tells_live d.now };
}
