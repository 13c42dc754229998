ghost use Rattle.std.specs.Prelude.{◌≡◌, ◌<◌, ◌≤◌, ◌++◌, ◌∷◌, [], ℕ, All, None, Some, IfOk, IfSome, IsSome, OnOk, OnErr, true, length, drop};
ghost use Rattle.dav_disk.specs.Lengths.{first_of, GivesMost, UsesLength};

use crate::faults::{is_fault, noted};
use crate::memory::Memory;
use crate::path_call::PathCall;
use dav_core::{Change, Disk, DiskError, FileTime, FsPath, Handle, Lister, Meta, OpenOptions};
use dav_io::{Faults, NoMemory, Text};
use std::alloc::Global;

/// A disk in memory that tells its world. It fails at the calls of the numbers given, and its next reads give no more
/// bytes than the lengths given. A call that fails leaves the world whole. What is made has the number after the
/// greatest so far, and each change a time of its own, 1,000 nanoseconds after the latest so far.
#[derive(Drop)]
pub struct MemDisk {
    memory: Memory,
    faults: Faults,
    lens: Vec<usize>,
    listings: u64,
    ghost some: { All (λ n. 0 < n) lens.items },
}

// The most bytes that the next read gives.
fn first_len(lens: &[usize]) -> usize
    requires { All (λ n. 0 < n) lens.now }
    ensures some { 0 < result }
    ensures first { result ≡ first_of lens.now }
    ensures whole { length lens.now ≡ 0 → result ≡ usize.MAX }
{
    match lens.first() {
        Some(len) => *len,
        None => usize::MAX,
    }
}

// Takes the first length away.
fn drop_first(lens: &mut Vec<usize>)
    ensures { lens.new.items ≡ drop 1 lens.old.items }
{
    if !lens.is_empty() {
        let _ = lens.remove(0);
    }
}

impl MemDisk {
    ghost use Rattle.dav_disk.specs.Rows.{first_world, can_add as the_can_add, with_dir, with_file, with_batch};
    ghost use Rattle.dav_disk.specs.Calls.{state_of};
    ghost use Rattle.dav_core.specs.Disk.{Metas, LinkMetas};
    ghost use Rattle.dav_disk.specs.Files.{HasNoLength, SaysNoMore};
    ghost use Rattle.dav_disk.specs.Failing.{mem_state, mem_world, Follows, Makes, is_empty, fails_at, lens_left, listings_of};
    ghost use Rattle.dav_disk.specs.Making.{Performs, allows};

    /// A root directory alone, of number 1 and time 0. The latest time used is 1 second past 1970, and no call fails.
    pub fn new(alloc: Global) -> Result<Self, NoMemory>
        ensures made { IfOk result (λ d. mem_state d ≡ state_of (record { world = first_world; live = λ _. None }) 0 0
            true) }
        ensures fails { IfOk result (λ d. fails_at d ≡ []) }
        ensures lens { IfOk result (λ d. lens_left d ≡ []) }
        ensures listings { IfOk result (λ d. listings_of d ≡ 0) }
    {
        let memory = Memory::new(alloc)?;
        Ok(MemDisk {
            memory,
            faults: Faults::new(Vec::new(alloc)),
            lens: Vec::new(alloc),
            listings: 0,
        })
    }

    /// Whether a row of this number and time may be set at a path, as `add_dir` and `add_file` need it: the path is
    /// free under a directory, the number is new and below 2^63, and the time is before the year 10000.
    pub fn can_add(&self, path: &FsPath, number: u64, time: FileTime) -> bool
        ensures { result ≡ the_can_add (mem_world self.now) path.now number time }
    {
        self.memory.can_add(path, number, time)
    }

    /// Sets a directory. Other times stay.
    pub fn add_dir(&mut self, path: &FsPath, number: u64, time: FileTime) -> Result<(), NoMemory>
        requires { the_can_add (mem_world self.old) path.now number time ≡ true }
        ensures ok { OnOk result (mem_state self.new ≡ record (mem_state self.old)
            { told = Some (with_dir (mem_world self.old) path.now number time) }) }
        ensures err { OnErr result (mem_state self.new ≡ mem_state self.old) }
        ensures fails { fails_at self.new ≡ fails_at self.old }
        ensures lens { lens_left self.new ≡ lens_left self.old }
        ensures listings { listings_of self.new ≡ listings_of self.old }
    {
        self.memory.add_dir(path, number, time)
    }

    /// Sets a file with these bytes. Other times stay.
    pub fn add_file(
        &mut self,
        path: &FsPath,
        number: u64,
        time: FileTime,
        bytes: &[u8],
    ) -> Result<(), NoMemory>
        requires { the_can_add (mem_world self.old) path.now number time ≡ true }
        ensures ok { OnOk result (mem_state self.new ≡ record (mem_state self.old)
            { told = Some (with_file (mem_world self.old) path.now number time bytes.now) }) }
        ensures err { OnErr result (mem_state self.new ≡ mem_state self.old) }
        ensures fails { fails_at self.new ≡ fails_at self.old }
        ensures lens { lens_left self.new ≡ lens_left self.old }
        ensures listings { listings_of self.new ≡ listings_of self.old }
    {
        self.memory.add_file(path, number, time, bytes)
    }

    /// Makes the call of this number, counted from 1 as asked, fail.
    pub fn fail(&mut self, call: u64) -> Result<(), NoMemory>
        ensures ok { OnOk result (fails_at self.new ≡ fails_at self.old ++ call ∷ []) }
        ensures err { OnErr result (fails_at self.new ≡ fails_at self.old) }
        ensures state { mem_state self.new ≡ mem_state self.old }
        ensures lens { lens_left self.new ≡ lens_left self.old }
        ensures listings { listings_of self.new ≡ listings_of self.old }
    {
        self.faults.fail.push(call)?;
        Ok(())
    }

    /// Limits the next reads to these lengths, each at least 1, in place of the lengths left from an earlier call. A
    /// length is used up by each read that is not refused.
    pub fn short(&mut self, lens: Vec<usize>)
        requires { All (λ n. 0 < n) lens.items }
        ensures lens { lens_left self.new ≡ lens.items }
        ensures state { mem_state self.new ≡ record (mem_state self.old) { whole = is_empty lens.items } }
        ensures fails { fails_at self.new ≡ fails_at self.old }
        ensures listings { listings_of self.new ≡ listings_of self.old }
    {
        self.lens = lens;
    }

    /// Adds a batch of changes that `turn` makes when its turn comes.
    pub fn script(&mut self, batch: Vec<Change>) -> Result<(), NoMemory>
        ensures ok { OnOk result (mem_state self.new ≡ record (mem_state self.old)
            { told = Some (with_batch (mem_world self.old) batch.items) }) }
        ensures err { OnErr result (mem_state self.new ≡ mem_state self.old) }
        ensures fails { fails_at self.new ≡ fails_at self.old }
        ensures lens { lens_left self.new ≡ lens_left self.old }
        ensures listings { listings_of self.new ≡ listings_of self.old }
    {
        self.memory.script(batch)
    }

    /// How many calls were asked, refused ones too. It stays at the greatest u64 once it is there.
    pub fn asked(&self) -> u64
        ensures { result ≡ (mem_state self.now).asked }
    {
        self.faults.asked
    }

    /// How many faults were met. It stays at the greatest u64 once it is there.
    pub fn faults(&self) -> u64
        ensures { result ≡ (mem_state self.now).faults }
    {
        self.faults.met
    }

    /// How often `list` was called, refused calls too. It stays at the greatest u64 once it is there.
    pub fn listings(&self) -> u64
        ensures { result ≡ listings_of self.now }
    {
        self.listings
    }

    // What stands at a path. There are no links.
    fn look(&mut self, path: &FsPath) -> Result<Meta, DiskError>
        ensures done { Metas (mem_state self.old) path.now result (mem_state self.new) }
        ensures link { LinkMetas (mem_state self.old) path.now result (mem_state self.new) }
        ensures more { IfOk result SaysNoMore }
        ensures dirs { IfOk result HasNoLength }
        ensures schedule { Follows self.old result self.new }
        ensures lens { lens_left self.new ≡ lens_left self.old }
        ensures listings { listings_of self.new ≡ listings_of self.old }
    {
        if self.faults.next() {
            return Err(DiskError::Failed);
        }
        self.memory.meta(path)
    }

    // Does what a call asks for, and counts it.
    fn perform(&mut self, call: PathCall) -> Result<(), DiskError>
        ensures done { Performs call.entry (mem_state self.old) result (mem_state self.new) }
        ensures made { Makes (allows call.entry (mem_world self.old)) self.old result self.new }
    {
        if self.faults.next() {
            return Err(DiskError::Failed);
        }
        let answer = self.memory.perform(call);
        self.faults.met = noted(self.faults.met, is_fault(&answer));
        answer
    }
}

impl Disk for MemDisk {
    ghost use Rattle.dav_core.specs.Disk.{Metas, LinkMetas, FileMetas, Opens, Seeks, Reads, Closes, Turns};
    ghost use Rattle.dav_core.specs.Listing.{Lists, ListsOn, EndsListing};
    ghost use Rattle.dav_core.specs.Allowed.{making_dir, taking_dir, taking_file, moving, copying, opening};
    ghost use Rattle.dav_core.specs.Writing.{CreatesDir, RemovesDir, RemovesFile, Renames, Copies, Writes};
    ghost use Rattle.dav_disk.specs.Listings.{AreSorted};
    ghost use Rattle.dav_disk.specs.Failing.{mem_state, mem_world, mem_known, Follows, FollowsOr, Makes, UnlessFault, fails_at, is_empty, lens_left, listings_of};
    ghost use Rattle.dav_io.specs.Counts.{one_more};
    ghost use Rattle.dav_disk.specs.Files.{HasNoLength, SaysNoMore};
    ghost use Rattle.dav_disk.specs.Making.{OpensAs, WritesAt, is_spent, writing};
    ghost use Rattle.dav_disk.specs.Calls.{with_closed};
    ghost use Rattle.dav_core.specs.Changes.{turned};
    ghost use Rattle.dav_disk.specs.Worlds.{told_world, told_live};

    ghost state = { mem_state };

    fn meta(&mut self, path: &FsPath) -> Result<Meta, DiskError>
        ensures done { Metas (mem_state self.old) path.now result (mem_state self.new) }
        ensures more { IfOk result SaysNoMore }
        ensures dirs { IfOk result HasNoLength }
        ensures loan { ⟦<MemDisk as Disk>⟧.loan self.new ≡ ⟦<MemDisk as Disk>⟧.loan self.old }
        ensures schedule { Follows self.old result self.new }
        ensures lens { lens_left self.new ≡ lens_left self.old }
        ensures listings { listings_of self.new ≡ listings_of self.old }
    {
        self.look(path)
    }

    fn link_meta(&mut self, path: &FsPath) -> Result<Meta, DiskError>
        ensures done { LinkMetas (mem_state self.old) path.now result (mem_state self.new) }
        ensures more { IfOk result SaysNoMore }
        ensures dirs { IfOk result HasNoLength }
        ensures loan { ⟦<MemDisk as Disk>⟧.loan self.new ≡ ⟦<MemDisk as Disk>⟧.loan self.old }
        ensures schedule { Follows self.old result self.new }
        ensures lens { lens_left self.new ≡ lens_left self.old }
        ensures listings { listings_of self.new ≡ listings_of self.old }
    {
        self.look(path)
    }

    fn open(&mut self, path: &FsPath, how: OpenOptions, _public: bool) -> Result<Handle, DiskError>
        ensures done { Opens (mem_state self.old) path.now how result (mem_state self.new) }
        ensures loan { ⟦<MemDisk as Disk>⟧.loan self.new ≡ ⟦<MemDisk as Disk>⟧.loan self.old }
        ensures schedule { FollowsOr (is_spent (opening (mem_world self.old).tree path.now how) (mem_world self.old))
            self.old result self.new }
        ensures made { UnlessFault result (mem_known self.old) (mem_known self.new)
            (OpensAs (mem_known self.old) path.now how result (mem_known self.new)) }
        ensures lens { lens_left self.new ≡ lens_left self.old }
        ensures listings { listings_of self.new ≡ listings_of self.old }
    {
        if self.faults.next() {
            return Err(DiskError::Failed);
        }
        let answer = self.memory.open(path, how);
        self.faults.met = noted(self.faults.met, is_fault(&answer));
        answer
    }

    fn file_meta(&mut self, file: Handle) -> Result<Meta, DiskError>
        requires { IsSome ((mem_state self.old).live file.0) }
        ensures done { FileMetas (mem_state self.old) file.0 result (mem_state self.new) }
        ensures more { IfOk result SaysNoMore }
        ensures loan { ⟦<MemDisk as Disk>⟧.loan self.new ≡ ⟦<MemDisk as Disk>⟧.loan self.old }
        ensures schedule { Follows self.old result self.new }
        ensures lens { lens_left self.new ≡ lens_left self.old }
        ensures listings { listings_of self.new ≡ listings_of self.old }
    {
        if self.faults.next() {
            return Err(DiskError::Failed);
        }
        Ok(self.memory.file_meta(file))
    }

    fn seek(&mut self, file: Handle, place: u64) -> Result<(), DiskError>
        requires { IsSome ((mem_state self.old).live file.0) }
        ensures done { Seeks (mem_state self.old) file.0 place result (mem_state self.new) }
        ensures loan { ⟦<MemDisk as Disk>⟧.loan self.new ≡ ⟦<MemDisk as Disk>⟧.loan self.old }
        ensures schedule { Follows self.old result self.new }
        ensures lens { lens_left self.new ≡ lens_left self.old }
        ensures listings { listings_of self.new ≡ listings_of self.old }
    {
        if self.faults.next() {
            return Err(DiskError::Failed);
        }
        self.memory.seek(file, place);
        Ok(())
    }

    fn read(&mut self, file: Handle, into: &mut [u8]) -> Result<usize, DiskError>
        requires live { IsSome ((mem_state self.old).live file.0) }
        requires room { 0 < length into.old }
        ensures done { Reads (mem_state self.old) file.0 into.new result (mem_state self.new) }
        ensures loan { ⟦<MemDisk as Disk>⟧.loan self.new ≡ ⟦<MemDisk as Disk>⟧.loan self.old }
        ensures schedule { Follows self.old result self.new }
        ensures lens { UsesLength (lens_left self.old) result (lens_left self.new) }
        ensures listings { listings_of self.new ≡ listings_of self.old }
        ensures most { GivesMost (first_of (lens_left self.old)) (mem_world self.old) file.0 into.new result }
    {
        if self.faults.next() {
            return Err(DiskError::Failed);
        }
        let most = first_len(&self.lens);
        match self.memory.read(file, most, into) {
            Ok(count) => {
                drop_first(&mut self.lens);
                Ok(count)
            }
            Err(e) => Err(e),
        }
    }

    fn write(&mut self, file: Handle, from: &[u8]) -> Result<usize, DiskError>
        requires live { IsSome ((mem_state self.old).live file.0) }
        requires some { 0 < length from.now }
        ensures done { Writes (mem_state self.old) file.0 from.now result (mem_state self.new) }
        ensures loan { ⟦<MemDisk as Disk>⟧.loan self.new ≡ ⟦<MemDisk as Disk>⟧.loan self.old }
        ensures schedule { FollowsOr (is_spent (writing (mem_known self.old) file.0 from.now) (mem_world self.old))
            self.old result self.new }
        ensures made { UnlessFault result (mem_known self.old) (mem_known self.new)
            (WritesAt (mem_known self.old) file.0 from.now result (mem_known self.new)) }
        ensures lens { lens_left self.new ≡ lens_left self.old }
        ensures listings { listings_of self.new ≡ listings_of self.old }
    {
        if self.faults.next() {
            return Err(DiskError::Failed);
        }
        let answer = self.memory.write(file, from);
        self.faults.met = noted(self.faults.met, is_fault(&answer));
        answer
    }

    fn close(&mut self, file: Handle)
        requires { IsSome ((mem_state self.old).live file.0) }
        ensures done { Closes (mem_state self.old) file.0 (mem_state self.new) }
        ensures made { mem_known self.new ≡ with_closed (mem_known self.old) file.0 }
        ensures loan { ⟦<MemDisk as Disk>⟧.loan self.new ≡ ⟦<MemDisk as Disk>⟧.loan self.old }
        ensures fails { fails_at self.new ≡ fails_at self.old }
        ensures lens { lens_left self.new ≡ lens_left self.old }
        ensures listings { listings_of self.new ≡ listings_of self.old }
    {
        self.memory.close(file);
    }

    fn list(&mut self, path: &FsPath) -> Result<Lister, DiskError>
        ensures done { Lists (mem_state self.old) path.now result (mem_state self.new) }
        ensures order { IfOk result (λ l. IfSome ((mem_world self.new).listings l.0) AreSorted) }
        ensures loan { ⟦<MemDisk as Disk>⟧.loan self.new ≡ ⟦<MemDisk as Disk>⟧.loan self.old }
        ensures schedule { Follows self.old result self.new }
        ensures lens { lens_left self.new ≡ lens_left self.old }
        ensures listings { listings_of self.new ≡ one_more (listings_of self.old) }
    {
        self.listings = self.listings.saturating_add(1);
        if self.faults.next() {
            return Err(DiskError::Failed);
        }
        self.memory.list(path)
    }

    fn list_next(&mut self, _alloc: Global, at: Lister) -> Result<Option<Text>, DiskError>
        requires { IsSome ((mem_state self.old).listers at.0) }
        ensures done { ListsOn (mem_state self.old) at.0 result (mem_state self.new) }
        ensures loan { ⟦<MemDisk as Disk>⟧.loan self.new ≡ ⟦<MemDisk as Disk>⟧.loan self.old }
        ensures schedule { Follows self.old result self.new }
        ensures lens { lens_left self.new ≡ lens_left self.old }
        ensures listings { listings_of self.new ≡ listings_of self.old }
    {
        if self.faults.next() {
            return Err(DiskError::Failed);
        }
        match self.memory.list_next(at) {
            Ok(found) => Ok(found),
            Err(NoMemory) => Err(DiskError::NoMemory),
        }
    }

    fn end_list(&mut self, at: Lister)
        requires { IsSome ((mem_state self.old).listers at.0) }
        ensures done { EndsListing (mem_state self.old) at.0 (mem_state self.new) }
        ensures loan { ⟦<MemDisk as Disk>⟧.loan self.new ≡ ⟦<MemDisk as Disk>⟧.loan self.old }
        ensures fails { fails_at self.new ≡ fails_at self.old }
        ensures lens { lens_left self.new ≡ lens_left self.old }
        ensures listings { listings_of self.new ≡ listings_of self.old }
    {
        self.memory.end_list(at);
    }

    fn create_dir(&mut self, path: &FsPath, _public: bool) -> Result<(), DiskError>
        ensures done { CreatesDir (mem_state self.old) path.now result (mem_state self.new) }
        ensures loan { ⟦<MemDisk as Disk>⟧.loan self.new ≡ ⟦<MemDisk as Disk>⟧.loan self.old }
        ensures made { Makes (making_dir (mem_world self.old).tree path.now) self.old result self.new }
    {
        self.perform(PathCall::CreateDir(path))
    }

    fn remove_dir(&mut self, path: &FsPath) -> Result<(), DiskError>
        ensures done { RemovesDir (mem_state self.old) path.now result (mem_state self.new) }
        ensures loan { ⟦<MemDisk as Disk>⟧.loan self.new ≡ ⟦<MemDisk as Disk>⟧.loan self.old }
        ensures made { Makes (taking_dir (mem_world self.old).tree path.now) self.old result self.new }
    {
        self.perform(PathCall::RemoveDir(path))
    }

    fn remove_file(&mut self, path: &FsPath) -> Result<(), DiskError>
        ensures done { RemovesFile (mem_state self.old) path.now result (mem_state self.new) }
        ensures loan { ⟦<MemDisk as Disk>⟧.loan self.new ≡ ⟦<MemDisk as Disk>⟧.loan self.old }
        ensures made { Makes (taking_file (mem_world self.old).tree path.now) self.old result self.new }
    {
        self.perform(PathCall::RemoveFile(path))
    }

    fn rename(&mut self, from: &FsPath, to: &FsPath) -> Result<(), DiskError>
        ensures done { Renames (mem_state self.old) from.now to.now result (mem_state self.new) }
        ensures loan { ⟦<MemDisk as Disk>⟧.loan self.new ≡ ⟦<MemDisk as Disk>⟧.loan self.old }
        ensures made { Makes (moving (mem_world self.old).tree from.now to.now) self.old result self.new }
    {
        self.perform(PathCall::Rename(from, to))
    }

    fn copy(&mut self, from: &FsPath, to: &FsPath) -> Result<(), DiskError>
        ensures done { Copies (mem_state self.old) from.now to.now result (mem_state self.new) }
        ensures loan { ⟦<MemDisk as Disk>⟧.loan self.new ≡ ⟦<MemDisk as Disk>⟧.loan self.old }
        ensures made { Makes (copying (mem_world self.old) from.now to.now) self.old result self.new }
    {
        self.perform(PathCall::Copy(from, to))
    }

    fn turn(&mut self) -> Result<(), NoMemory>
        ensures done { Turns (mem_state self.old) result (mem_state self.new) }
        ensures made { OnOk result (mem_known self.new ≡ record (mem_known self.old)
            { world = turned (mem_world self.old) }) }
        ensures loan { ⟦<MemDisk as Disk>⟧.loan self.new ≡ ⟦<MemDisk as Disk>⟧.loan self.old }
        ensures fails { fails_at self.new ≡ fails_at self.old }
        ensures lens { lens_left self.new ≡ lens_left self.old }
        ensures listings { listings_of self.new ≡ listings_of self.old }
    {
        self.memory.turn()
    }

    ghost world = { λ d w e. told_world (mem_world d) w d.memory.tree d.memory.plain d.memory.stored d.memory.given e };

    ghost tells_live = { λ d. told_live d.memory d.faults.met d.faults.asked (is_empty d.lens.items) };
}
