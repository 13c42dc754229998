ghost use Rattle.std.specs.Prelude.{◌≡◌, ◌<◌, None, Ok, Option, false, true, IfOk, OnOk, OnErr};
ghost use Rattle.dav_memory.specs.declared.sealed.Sealed.{Sealed};
ghost use Rattle.dav_memory.specs.Calls.{LacksMemory};
ghost use Rattle.dav_memory.specs.Entries.{are_sealable};
ghost use Rattle.dav_memory.specs.Memory as memory;
ghost use Rattle.dav_memory.specs.Memory.{MemoryState};

use crate::{DuKey, Sealed};
use dav_core::{Disk, FileTime, FsPath, Handle, Meta};
use dav_io::{Moment, NoMemory, Text};
use std::alloc::Global;

/// What a store remembers between its calls: where paths were found, and which names that begin with `._` directories
/// had. It may tell its two caches; then each call does to their entries what its relation says. A memory that doesn't
/// tell still never knows more after a call than before it, save what it is sealed with. Want of memory leaves it and
/// the disk as they were, save in `seal`, and save for an opening that the disk refused.
pub trait Remember {
    /// What contracts see of the memory.
    ghost state: { Self → MemoryState };

    /// Looks a path up, and asks the disk what stands where it was found.
    fn get<D: Disk>(
        &mut self,
        alloc: Global,
        path: &FsPath,
        disk: &mut D,
    ) -> Result<Option<(FsPath, Meta)>, NoMemory>
        ensures done { IfOk result (λ found. memory.Gets (state self.old) path.now (D.state disk.old) found
            (state self.new) (D.state disk.new)) }
        ensures err { OnErr result (self.new ≡ self.old) }
        ensures unasked { OnErr result (D.state disk.new ≡ D.state disk.old) }
        ensures loan { D.loan disk.new ≡ D.loan disk.old };

    /// Looks a path up as `get` does, and opens for reading what stands where it was found. Memory is wanting also where
    /// the disk refuses the opening for want of it: the entry stays then.
    fn get_open<D: Disk>(
        &mut self,
        alloc: Global,
        path: &FsPath,
        disk: &mut D,
    ) -> Result<Option<(FsPath, Handle)>, NoMemory>
        ensures done { IfOk result (λ found. memory.GetsOpen (state self.old) path.now (D.state disk.old) found
            (state self.new) (D.state disk.new)) }
        ensures err { OnErr result (self.new ≡ self.old) }
        ensures starved { OnErr result (LacksMemory (D.state disk.old) (D.state disk.new)) }
        ensures loan { D.loan disk.new ≡ D.loan disk.old };

    /// Remembers where a path is. A moment is in nanoseconds.
    fn insert(&mut self, alloc: Global, path: &FsPath, now: Moment) -> Result<(), NoMemory>
        ensures done { OnOk result (memory.Inserts (state self.old) path.now now (state self.new)) }
        ensures err { OnErr result (self.new ≡ self.old) };

    /// Whether the name is known to be absent from the directory, as the disk has it now. To be asked of names that
    /// begin with `._`, since no others are sealed.
    fn negative<D: Disk>(
        &mut self,
        alloc: Global,
        dir: &FsPath,
        name: &Text,
        disk: &mut D,
    ) -> Result<bool, NoMemory>
        ensures done { IfOk result (λ absent. memory.Negates (state self.old) dir.now name.now (D.state disk.old) absent
            (state self.new) (D.state disk.new)) }
        ensures err { OnErr result (self.new ≡ self.old) }
        ensures unasked { OnErr result (D.state disk.new ≡ D.state disk.old) }
        ensures loan { D.loan disk.new ≡ D.loan disk.old };

    /// Remembers the names of a directory that begin with `._`, as it had them at this time.
    fn seal(
        &mut self,
        alloc: Global,
        dir: &DuKey,
        time: FileTime,
        names: &[Text],
        now: Moment,
    ) -> Sealed
        requires dir { dir.now.name ≡ None }
        requires names { are_sealable names.now ≡ true }
        ensures done { memory.SealsIn (state self.old) dir.now time names.now now result (state self.new) };

    /// Forgets what is old.
    fn purge(&mut self, now: Moment)
        ensures done { memory.Purges (state self.old) now (state self.new) };
}

/// A memory that remembers nothing.
#[derive(Clone, Copy, Debug)]
pub struct Forget;

impl Remember for Forget {
    ghost state = { λ _. memory.nothing_kept };

    fn get<D: Disk>(
        &mut self,
        _alloc: Global,
        _path: &FsPath,
        _disk: &mut D,
    ) -> Result<Option<(FsPath, Meta)>, NoMemory>
        ensures nothing { result ≡ Ok None }
        ensures unasked { _disk.new ≡ _disk.old }
    {
        Ok(None)
    }

    fn get_open<D: Disk>(
        &mut self,
        _alloc: Global,
        _path: &FsPath,
        _disk: &mut D,
    ) -> Result<Option<(FsPath, Handle)>, NoMemory>
        ensures nothing { result ≡ Ok None }
        ensures unasked { _disk.new ≡ _disk.old }
    {
        Ok(None)
    }

    fn insert(&mut self, _alloc: Global, _path: &FsPath, _now: Moment) -> Result<(), NoMemory>
        ensures { result ≡ Ok tt }
    {
        Ok(())
    }

    fn negative<D: Disk>(
        &mut self,
        _alloc: Global,
        _dir: &FsPath,
        _name: &Text,
        _disk: &mut D,
    ) -> Result<bool, NoMemory>
        ensures nothing { result ≡ Ok false }
        ensures unasked { _disk.new ≡ _disk.old }
    {
        Ok(false)
    }

    fn seal(
        &mut self,
        _alloc: Global,
        _dir: &DuKey,
        _time: FileTime,
        _names: &[Text],
        _now: Moment,
    ) -> Sealed
        ensures { result ≡ Sealed.Done }
    {
        Sealed::Done
    }

    fn purge(&mut self, _now: Moment) {}
}
