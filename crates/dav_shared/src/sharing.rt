ghost use Rattle.std.specs.Prelude.{◌≡◌, ◌&&◌, ◌<◌, IfOk, IsTrue, List, None, OnErr, OnOk, Ok, Some, Err, true, false};
ghost use Rattle.std.specs.List.{list_any};
ghost use Rattle.dav_core.specs.Disk.{Metas};
ghost use Rattle.dav_memory.specs.Trees.{Name, same_name};
ghost use Rattle.dav_memory.specs.Calls.{LacksMemory};
ghost use Rattle.dav_memory.specs.Entries.{are_sealable};
ghost use Rattle.dav_memory.specs.Memory.{Gets, GetsOpen, Inserts, Negates, Purges, SealsIn};
ghost use Rattle.dav_shared.specs.Books.{kept_by};
ghost use Rattle.dav_shared.specs.Holds.{AsksFor, LooksAt, OpensToRead};
ghost use Rattle.dav_shared.specs.Waits.{WaitsThen, listing_of, lists, waiting};

use crate::waiting::Waiting;
use crate::{Book, SharedCache};
use dav_cache::Names;
use dav_core::{Disk, FileTime, FsPath, Handle, Meta};
use dav_io::{Moment, NoMemory, Text};
use dav_memory::{DuKey, Remember, Sealed, dir_key};
use std::alloc::Global;
use std::sync::Wait;

/// One thread's way to caches that threads share. It keeps the handle by which their locks are waited for. A listing
/// that it is sealed with waits until it is settled: only who knows the disk's world can say that it has the names of
/// the book.
#[derive(Drop)]
pub struct Sharing<'a, B: Book, W: Wait> {
    rt: &'a W,
    cache: &'a SharedCache<B>,
    waits: Option<Waiting>,
}

impl<'a, B: Book, W: Wait> Sharing<'a, B, W> {
    pub fn new(rt: &'a W, cache: &'a SharedCache<B>) -> Self
        ensures cache { result.cache.now.folder ≡ cache.now.folder }
        ensures waits { result.waits ≡ None }
    {
        Sharing {
            rt,
            cache,
            waits: None,
        }
    }

    /// The listing that waits.
    pub fn into_waiting(self) -> Option<Waiting>
        ensures { result ≡ self.entry.waits }
    {
        let Sharing {
            rt: _,
            cache: _,
            waits,
        } = self;
        waits
    }

    // Whether the name was listed in the directory, by what waits.
    fn was_listed(&self, dir: &FsPath, name: &Text) -> bool
        ensures { result ≡ lists (waiting self.now.waits) dir.now name.now }
    {
        match &self.waits {
            Some(listing) => listing.key.dir == *dir && has_name(listing.names.as_slice(), name),
            None => false,
        }
    }
}

// Whether a name is one of these.
fn has_name(names: &[Text], name: &Text) -> bool
    ensures { result ≡ list_any (same_name name.now) names.now }
{
    names.iter().any(|other| name == other)
}

fn copy_names(alloc: Global, names: &[Text]) -> Result<Names, NoMemory>
    ensures { IfOk result (λ copy. copy ≡ names.now) }
{
    let mut copies = Vec::new(alloc);
    for name in names {
        copies.push(name.try_clone()?)?;
    }
    Ok(Names::new(copies))
}

// A copy of a listing.
fn wait_with(
    alloc: Global,
    dir: &DuKey,
    time: FileTime,
    names: &[Text],
    now: Moment,
) -> Result<Waiting, NoMemory>
    requires dir { dir.now.name ≡ None }
    requires names { are_sealable names.now ≡ true }
    ensures listing { IfOk result (λ w. listing_of w ≡ record { dir = dir.now.dir; time = time; names = names.now }) }
    ensures now { IfOk result (λ w. w.now ≡ now) }
{
    let key = dir_key(&dir.dir)?;
    let names = copy_names(alloc, names)?;
    Ok(Waiting {
        key,
        time,
        names,
        now,
    })
}

impl<'a, B: Book, W: Wait> Remember for Sharing<'a, B, W> {
    ghost state = { λ s. kept_by (B.names s.cache.now.folder) (waiting s.waits) };

    fn get<D: Disk>(
        &mut self,
        _alloc: Global,
        path: &FsPath,
        disk: &mut D,
    ) -> Result<Option<(FsPath, Meta)>, NoMemory>
        ensures done { IfOk result (λ found. Gets
            (kept_by (B.names self.old.cache.now.folder) (waiting self.old.waits)) path.now (D.state disk.old) found
            (kept_by (B.names self.new.cache.now.folder) (waiting self.new.waits)) (D.state disk.new)) }
        ensures err { OnErr result (self.new ≡ self.old) }
        ensures same { self.new ≡ self.old }
        ensures asks { AsksFor Metas path.now (D.state disk.old) (D.state disk.new) }
        ensures unasked { OnErr result (D.state disk.new ≡ D.state disk.old) }
        ensures loan { D.loan disk.new ≡ D.loan disk.old }
    {
        self.cache.get(self.rt, path, disk)
    }

    fn get_open<D: Disk>(
        &mut self,
        _alloc: Global,
        path: &FsPath,
        disk: &mut D,
    ) -> Result<Option<(FsPath, Handle)>, NoMemory>
        ensures done { IfOk result (λ found. GetsOpen
            (kept_by (B.names self.old.cache.now.folder) (waiting self.old.waits)) path.now (D.state disk.old) found
            (kept_by (B.names self.new.cache.now.folder) (waiting self.new.waits)) (D.state disk.new)) }
        ensures err { OnErr result (self.new ≡ self.old) }
        ensures same { self.new ≡ self.old }
        ensures asks { AsksFor OpensToRead path.now (D.state disk.old) (D.state disk.new) }
        ensures starved { OnErr result (LacksMemory (D.state disk.old) (D.state disk.new)) }
        ensures loan { D.loan disk.new ≡ D.loan disk.old }
    {
        self.cache.get_open(self.rt, path, disk)
    }

    fn insert(&mut self, _alloc: Global, path: &FsPath, now: Moment) -> Result<(), NoMemory>
        ensures done { OnOk result (Inserts
            (kept_by (B.names self.old.cache.now.folder) (waiting self.old.waits)) path.now now
            (kept_by (B.names self.new.cache.now.folder) (waiting self.new.waits))) }
        ensures err { OnErr result (self.new ≡ self.old) }
        ensures same { self.new ≡ self.old }
    {
        self.cache.insert(self.rt, path, now)
    }

    fn negative<D: Disk>(
        &mut self,
        _alloc: Global,
        dir: &FsPath,
        name: &Text,
        disk: &mut D,
    ) -> Result<bool, NoMemory>
        ensures done { IfOk result (λ absent. Negates
            (kept_by (B.names self.old.cache.now.folder) (waiting self.old.waits)) dir.now name.now (D.state disk.old)
            absent (kept_by (B.names self.new.cache.now.folder) (waiting self.new.waits)) (D.state disk.new)) }
        ensures err { OnErr result (self.new ≡ self.old) }
        ensures same { self.new ≡ self.old }
        ensures listed { lists (waiting self.old.waits) dir.now name.now ≡ true
            → (result ≡ Ok false) × (D.state disk.new ≡ D.state disk.old) }
        ensures asks { LooksAt dir.now (D.state disk.old) (D.state disk.new) }
        ensures unasked { OnErr result (D.state disk.new ≡ D.state disk.old) }
        ensures loan { D.loan disk.new ≡ D.loan disk.old }
    {
        if self.was_listed(dir, name) {
            return Ok(false);
        }
        self.cache.negative(self.rt, dir, name, disk)
    }

    fn seal(
        &mut self,
        alloc: Global,
        dir: &DuKey,
        time: FileTime,
        names: &[Text],
        now: Moment,
    ) -> Sealed
        requires dir { dir.now.name ≡ None }
        requires names { are_sealable names.now ≡ true }
        ensures done { SealsIn (kept_by (B.names self.old.cache.now.folder) (waiting self.old.waits)) dir.now time
            names.now now result (kept_by (B.names self.new.cache.now.folder) (waiting self.new.waits)) }
        ensures waits { WaitsThen self.old.waits (record { dir = dir.now.dir; time = time; names = names.now }) now
            result self.new.waits }
        ensures cache { self.new.cache.now.folder ≡ self.old.cache.now.folder }
    {
        if self.waits.is_some() {
            return Sealed::Done;
        }
        match wait_with(alloc, dir, time, names, now) {
            Ok(listing) => {
                self.waits = Some(listing);
                Sealed::Done
            }
            Err(_) => Sealed::NoMemory,
        }
    }

    fn purge(&mut self, now: Moment)
        ensures done { Purges (kept_by (B.names self.old.cache.now.folder) (waiting self.old.waits)) now
            (kept_by (B.names self.new.cache.now.folder) (waiting self.new.waits)) }
        ensures same { self.new ≡ self.old }
    {
        self.cache.purge(self.rt, now);
    }
}
