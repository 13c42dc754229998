ghost use Rattle.std.specs.Prelude.{◌≡◌, ◌<◌, length, None, Some, IfOk, IfSome, IsSome, OnOk, OnErr, true};
ghost use Rattle.dav_disk.specs.Memory.{known_of as known_to, HasRoom};

use crate::faults::{is_fault, noted};
use crate::memory::Memory;
use crate::path_call::PathCall;
use dav_core::{Change, Disk, DiskError, FileTime, FsPath, Handle, Lister, Meta, OpenOptions};
use dav_io::{NoMemory, Text};
use std::alloc::Global;

/// A disk in memory that tells its world. Its reads are whole. It fails only in a call that needs a next number or a
/// next tick where none is left. A call that is refused leaves the world as it was. What is made has the number after
/// the greatest so far, and each change a time of its own, 1,000 nanoseconds after the latest so far.
#[derive(Drop)]
pub struct SureDisk {
    memory: Memory,
    asked: u64,
    met: u64,
    listings: u64,
    ghost spared: { HasRoom (known_to memory).world → met ≡ 0 },
}

impl SureDisk {
    ghost use Rattle.dav_disk.specs.Rows.{first_world, can_add as the_can_add, with_dir, with_file, with_batch};
    ghost use Rattle.dav_disk.specs.Calls.{state_of};
    ghost use Rattle.dav_core.specs.Disk.{Metas, LinkMetas};
    ghost use Rattle.dav_disk.specs.Files.{HasNoLength, SaysNoMore};
    ghost use Rattle.dav_disk.specs.Sure.{sure_state, sure_world, listings_of, Makes};
    ghost use Rattle.dav_disk.specs.Making.{Performs, allows};

    /// A root directory alone, of number 1 and time 0. The latest time used is 1 second past 1970.
    pub fn new(alloc: Global) -> Result<Self, NoMemory>
        ensures made { IfOk result (λ d. sure_state d ≡ state_of (record { world = first_world; live = λ _. None }) 0 0
            true) }
        ensures listings { IfOk result (λ d. listings_of d ≡ 0) }
    {
        let memory = Memory::new(alloc)?;
        Ok(SureDisk {
            memory,
            asked: 0,
            met: 0,
            listings: 0,
        })
    }

    /// Whether a row of this number and time may be set at a path, as `add_dir` and `add_file` need it: the path is
    /// free under a directory, the number is new and below 2^63, and the time is before the year 10000.
    pub fn can_add(&self, path: &FsPath, number: u64, time: FileTime) -> bool
        ensures { result ≡ the_can_add (sure_world self.now) path.now number time }
    {
        self.memory.can_add(path, number, time)
    }

    /// Sets a directory. Other times stay.
    pub fn add_dir(&mut self, path: &FsPath, number: u64, time: FileTime) -> Result<(), NoMemory>
        requires { the_can_add (sure_world self.old) path.now number time ≡ true }
        ensures ok { OnOk result (sure_state self.new ≡ record (sure_state self.old)
            { told = Some (with_dir (sure_world self.old) path.now number time) }) }
        ensures err { OnErr result (sure_state self.new ≡ sure_state self.old) }
        ensures listings { listings_of self.new ≡ listings_of self.old }
    {
        self.memory.add_dir(path, number, time)
    }

    /// Sets a file with these bytes. Other times stay.
    pub fn add_file(
        &mut self,
        path: &FsPath,
        number: u64,
        time: FileTime,
        bytes: &[u8],
    ) -> Result<(), NoMemory>
        requires { the_can_add (sure_world self.old) path.now number time ≡ true }
        ensures ok { OnOk result (sure_state self.new ≡ record (sure_state self.old)
            { told = Some (with_file (sure_world self.old) path.now number time bytes.now) }) }
        ensures err { OnErr result (sure_state self.new ≡ sure_state self.old) }
        ensures listings { listings_of self.new ≡ listings_of self.old }
    {
        self.memory.add_file(path, number, time, bytes)
    }

    /// Adds a batch of changes that `turn` makes when its turn comes.
    pub fn script(&mut self, batch: Vec<Change>) -> Result<(), NoMemory>
        ensures ok { OnOk result (sure_state self.new ≡ record (sure_state self.old)
            { told = Some (with_batch (sure_world self.old) batch.items) }) }
        ensures err { OnErr result (sure_state self.new ≡ sure_state self.old) }
        ensures listings { listings_of self.new ≡ listings_of self.old }
    {
        self.memory.script(batch)
    }

    /// How many calls were asked. It stays at the greatest u64 once it is there.
    pub fn asked(&self) -> u64
        ensures { result ≡ (sure_state self.now).asked }
    {
        self.asked
    }

    /// How many calls failed, for want of a next number or a next tick. It stays at the greatest u64 once it is there.
    pub fn faults(&self) -> u64
        ensures { result ≡ (sure_state self.now).faults }
    {
        self.met
    }

    /// How often `list` was called, refused calls too. It stays at the greatest u64 once it is there.
    pub fn listings(&self) -> u64
        ensures { result ≡ listings_of self.now }
    {
        self.listings
    }

    // What stands at a path. There are no links.
    fn look(&mut self, path: &FsPath) -> Result<Meta, DiskError>
        ensures done { Metas (sure_state self.old) path.now result (sure_state self.new) }
        ensures link { LinkMetas (sure_state self.old) path.now result (sure_state self.new) }
        ensures listings { listings_of self.new ≡ listings_of self.old }
        ensures quiet { (sure_state self.new).faults ≡ (sure_state self.old).faults }
        ensures more { IfOk result SaysNoMore }
        ensures dirs { IfOk result HasNoLength }
    {
        self.asked = self.asked.saturating_add(1);
        self.memory.meta(path)
    }

    // Does what a call asks for, and counts it.
    fn perform(&mut self, call: PathCall) -> Result<(), DiskError>
        ensures done { Performs call.entry (sure_state self.old) result (sure_state self.new) }
        ensures made { Makes (allows call.entry (sure_world self.old)) self.old result self.new }
    {
        self.asked = self.asked.saturating_add(1);
        let answer = self.memory.perform(call);
        self.met = noted(self.met, is_fault(&answer));
        answer
    }
}

impl Disk for SureDisk {
    ghost use Rattle.dav_core.specs.Disk.{Metas, LinkMetas, FileMetas, Opens, Seeks, Reads, Closes, Turns};
    ghost use Rattle.dav_core.specs.Listing.{Lists, ListsOn, EndsListing};
    ghost use Rattle.dav_io.specs.Counts.{one_more};
    ghost use Rattle.dav_disk.specs.Files.{HasNoLength, SaysNoMore};
    ghost use Rattle.dav_core.specs.Allowed.{making_dir, taking_dir, taking_file, moving, copying, opening};
    ghost use Rattle.dav_core.specs.Writing.{CreatesDir, RemovesDir, RemovesFile, Renames, Copies, Writes};
    ghost use Rattle.dav_core.specs.Changes.{turned};
    ghost use Rattle.dav_disk.specs.Calls.{with_closed};
    ghost use Rattle.dav_disk.specs.Listings.{AreSorted};
    ghost use Rattle.dav_disk.specs.Making.{OpensAs, WritesAt, is_spent, writing};
    ghost use Rattle.dav_disk.specs.Sure.{sure_state, sure_world, sure_known, listings_of, FailsOnly, Makes};
    ghost use Rattle.dav_disk.specs.Worlds.{told_world, told_live};

    ghost state = { sure_state };

    fn meta(&mut self, path: &FsPath) -> Result<Meta, DiskError>
        ensures done { Metas (sure_state self.old) path.now result (sure_state self.new) }
        ensures loan { ⟦<SureDisk as Disk>⟧.loan self.new ≡ ⟦<SureDisk as Disk>⟧.loan self.old }
        ensures listings { listings_of self.new ≡ listings_of self.old }
        ensures quiet { (sure_state self.new).faults ≡ (sure_state self.old).faults }
        ensures more { IfOk result SaysNoMore }
        ensures dirs { IfOk result HasNoLength }
    {
        self.look(path)
    }

    fn link_meta(&mut self, path: &FsPath) -> Result<Meta, DiskError>
        ensures done { LinkMetas (sure_state self.old) path.now result (sure_state self.new) }
        ensures loan { ⟦<SureDisk as Disk>⟧.loan self.new ≡ ⟦<SureDisk as Disk>⟧.loan self.old }
        ensures listings { listings_of self.new ≡ listings_of self.old }
        ensures quiet { (sure_state self.new).faults ≡ (sure_state self.old).faults }
        ensures more { IfOk result SaysNoMore }
        ensures dirs { IfOk result HasNoLength }
    {
        self.look(path)
    }

    fn open(&mut self, path: &FsPath, how: OpenOptions, _public: bool) -> Result<Handle, DiskError>
        ensures done { Opens (sure_state self.old) path.now how result (sure_state self.new) }
        ensures loan { ⟦<SureDisk as Disk>⟧.loan self.new ≡ ⟦<SureDisk as Disk>⟧.loan self.old }
        ensures listings { listings_of self.new ≡ listings_of self.old }
        ensures fails { FailsOnly (is_spent (opening (sure_world self.old).tree path.now how) (sure_world self.old))
            self.old result self.new }
        ensures made { OpensAs (sure_known self.old) path.now how result (sure_known self.new) }
    {
        self.asked = self.asked.saturating_add(1);
        let answer = self.memory.open(path, how);
        self.met = noted(self.met, is_fault(&answer));
        answer
    }

    fn file_meta(&mut self, file: Handle) -> Result<Meta, DiskError>
        requires { IsSome ((sure_state self.old).live file.0) }
        ensures done { FileMetas (sure_state self.old) file.0 result (sure_state self.new) }
        ensures loan { ⟦<SureDisk as Disk>⟧.loan self.new ≡ ⟦<SureDisk as Disk>⟧.loan self.old }
        ensures listings { listings_of self.new ≡ listings_of self.old }
        ensures quiet { (sure_state self.new).faults ≡ (sure_state self.old).faults }
        ensures more { IfOk result SaysNoMore }
    {
        self.asked = self.asked.saturating_add(1);
        Ok(self.memory.file_meta(file))
    }

    fn seek(&mut self, file: Handle, place: u64) -> Result<(), DiskError>
        requires { IsSome ((sure_state self.old).live file.0) }
        ensures done { Seeks (sure_state self.old) file.0 place result (sure_state self.new) }
        ensures loan { ⟦<SureDisk as Disk>⟧.loan self.new ≡ ⟦<SureDisk as Disk>⟧.loan self.old }
        ensures listings { listings_of self.new ≡ listings_of self.old }
        ensures quiet { (sure_state self.new).faults ≡ (sure_state self.old).faults }
    {
        self.asked = self.asked.saturating_add(1);
        self.memory.seek(file, place);
        Ok(())
    }

    fn read(&mut self, file: Handle, into: &mut [u8]) -> Result<usize, DiskError>
        requires live { IsSome ((sure_state self.old).live file.0) }
        requires room { 0 < length into.old }
        ensures done { Reads (sure_state self.old) file.0 into.new result (sure_state self.new) }
        ensures loan { ⟦<SureDisk as Disk>⟧.loan self.new ≡ ⟦<SureDisk as Disk>⟧.loan self.old }
        ensures listings { listings_of self.new ≡ listings_of self.old }
        ensures quiet { (sure_state self.new).faults ≡ (sure_state self.old).faults }
    {
        self.asked = self.asked.saturating_add(1);
        self.memory.read(file, usize::MAX, into)
    }

    fn write(&mut self, file: Handle, from: &[u8]) -> Result<usize, DiskError>
        requires live { IsSome ((sure_state self.old).live file.0) }
        requires some { 0 < length from.now }
        ensures done { Writes (sure_state self.old) file.0 from.now result (sure_state self.new) }
        ensures loan { ⟦<SureDisk as Disk>⟧.loan self.new ≡ ⟦<SureDisk as Disk>⟧.loan self.old }
        ensures listings { listings_of self.new ≡ listings_of self.old }
        ensures fails { FailsOnly (is_spent (writing (sure_known self.old) file.0 from.now) (sure_world self.old))
            self.old result self.new }
        ensures made { WritesAt (sure_known self.old) file.0 from.now result (sure_known self.new) }
    {
        self.asked = self.asked.saturating_add(1);
        let answer = self.memory.write(file, from);
        self.met = noted(self.met, is_fault(&answer));
        answer
    }

    fn close(&mut self, file: Handle)
        requires { IsSome ((sure_state self.old).live file.0) }
        ensures done { Closes (sure_state self.old) file.0 (sure_state self.new) }
        ensures made { sure_known self.new ≡ with_closed (sure_known self.old) file.0 }
        ensures loan { ⟦<SureDisk as Disk>⟧.loan self.new ≡ ⟦<SureDisk as Disk>⟧.loan self.old }
        ensures listings { listings_of self.new ≡ listings_of self.old }
        ensures quiet { (sure_state self.new).faults ≡ (sure_state self.old).faults }
    {
        self.memory.close(file);
    }

    fn list(&mut self, path: &FsPath) -> Result<Lister, DiskError>
        ensures done { Lists (sure_state self.old) path.now result (sure_state self.new) }
        ensures order { IfOk result (λ l. IfSome ((sure_world self.new).listings l.0) AreSorted) }
        ensures loan { ⟦<SureDisk as Disk>⟧.loan self.new ≡ ⟦<SureDisk as Disk>⟧.loan self.old }
        ensures listings { listings_of self.new ≡ one_more (listings_of self.old) }
        ensures quiet { (sure_state self.new).faults ≡ (sure_state self.old).faults }
    {
        self.asked = self.asked.saturating_add(1);
        self.listings = self.listings.saturating_add(1);
        self.memory.list(path)
    }

    fn list_next(&mut self, _alloc: Global, at: Lister) -> Result<Option<Text>, DiskError>
        requires { IsSome ((sure_state self.old).listers at.0) }
        ensures done { ListsOn (sure_state self.old) at.0 result (sure_state self.new) }
        ensures loan { ⟦<SureDisk as Disk>⟧.loan self.new ≡ ⟦<SureDisk as Disk>⟧.loan self.old }
        ensures listings { listings_of self.new ≡ listings_of self.old }
        ensures quiet { (sure_state self.new).faults ≡ (sure_state self.old).faults }
    {
        self.asked = self.asked.saturating_add(1);
        match self.memory.list_next(at) {
            Ok(found) => Ok(found),
            Err(NoMemory) => Err(DiskError::NoMemory),
        }
    }

    fn end_list(&mut self, at: Lister)
        requires { IsSome ((sure_state self.old).listers at.0) }
        ensures done { EndsListing (sure_state self.old) at.0 (sure_state self.new) }
        ensures loan { ⟦<SureDisk as Disk>⟧.loan self.new ≡ ⟦<SureDisk as Disk>⟧.loan self.old }
        ensures listings { listings_of self.new ≡ listings_of self.old }
        ensures quiet { (sure_state self.new).faults ≡ (sure_state self.old).faults }
    {
        self.memory.end_list(at);
    }

    fn create_dir(&mut self, path: &FsPath, _public: bool) -> Result<(), DiskError>
        ensures done { CreatesDir (sure_state self.old) path.now result (sure_state self.new) }
        ensures loan { ⟦<SureDisk as Disk>⟧.loan self.new ≡ ⟦<SureDisk as Disk>⟧.loan self.old }
        ensures made { Makes (making_dir (sure_world self.old).tree path.now) self.old result self.new }
    {
        self.perform(PathCall::CreateDir(path))
    }

    fn remove_dir(&mut self, path: &FsPath) -> Result<(), DiskError>
        ensures done { RemovesDir (sure_state self.old) path.now result (sure_state self.new) }
        ensures loan { ⟦<SureDisk as Disk>⟧.loan self.new ≡ ⟦<SureDisk as Disk>⟧.loan self.old }
        ensures made { Makes (taking_dir (sure_world self.old).tree path.now) self.old result self.new }
    {
        self.perform(PathCall::RemoveDir(path))
    }

    fn remove_file(&mut self, path: &FsPath) -> Result<(), DiskError>
        ensures done { RemovesFile (sure_state self.old) path.now result (sure_state self.new) }
        ensures loan { ⟦<SureDisk as Disk>⟧.loan self.new ≡ ⟦<SureDisk as Disk>⟧.loan self.old }
        ensures made { Makes (taking_file (sure_world self.old).tree path.now) self.old result self.new }
    {
        self.perform(PathCall::RemoveFile(path))
    }

    fn rename(&mut self, from: &FsPath, to: &FsPath) -> Result<(), DiskError>
        ensures done { Renames (sure_state self.old) from.now to.now result (sure_state self.new) }
        ensures loan { ⟦<SureDisk as Disk>⟧.loan self.new ≡ ⟦<SureDisk as Disk>⟧.loan self.old }
        ensures made { Makes (moving (sure_world self.old).tree from.now to.now) self.old result self.new }
    {
        self.perform(PathCall::Rename(from, to))
    }

    fn copy(&mut self, from: &FsPath, to: &FsPath) -> Result<(), DiskError>
        ensures done { Copies (sure_state self.old) from.now to.now result (sure_state self.new) }
        ensures loan { ⟦<SureDisk as Disk>⟧.loan self.new ≡ ⟦<SureDisk as Disk>⟧.loan self.old }
        ensures made { Makes (copying (sure_world self.old) from.now to.now) self.old result self.new }
    {
        self.perform(PathCall::Copy(from, to))
    }

    fn turn(&mut self) -> Result<(), NoMemory>
        ensures done { Turns (sure_state self.old) result (sure_state self.new) }
        ensures made { OnOk result (sure_known self.new ≡ record (sure_known self.old)
            { world = turned (sure_world self.old) }) }
        ensures loan { ⟦<SureDisk as Disk>⟧.loan self.new ≡ ⟦<SureDisk as Disk>⟧.loan self.old }
        ensures listings { listings_of self.new ≡ listings_of self.old }
        ensures quiet { (sure_state self.new).faults ≡ (sure_state self.old).faults }
    {
        self.memory.turn()
    }

    ghost world = { λ d w e. told_world (sure_world d) w d.memory.tree d.memory.plain d.memory.stored d.memory.given
        e };

    ghost tells_live = { λ d. told_live d.memory d.met d.asked true };
}
