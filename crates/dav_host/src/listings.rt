// The table of open listings.
ghost use Rattle.std.specs.Prelude.{◌≡◌, ◌<◌, ◌^◌, false, None, Some, IsSome, Ok, IfOk, IfErr};
ghost use Rattle.std.specs.Iterator.{IsFinite};
ghost use Rattle.dav_core.specs.Listing.{IsNamed, MayRefuseNext, ListersAfterNext};
ghost use Rattle.dav_host.specs.Entries.{Says, TellsName};
ghost use Rattle.dav_host.specs.Listings.{listers_at, IsFewer, Goes, GoesAt};

use dav_core::{DiskError, is_plain};
use dav_io::Text;
use std::alloc::Global;
use std::collections::BTreeMap;
use std::fs::{DirEntry, ReadDir};
use std::io;
use std::io::ErrorKind;
use std::rt::Files;

// The most names that a listing gives, 2^60 - 1.
const MOST: u64 = 0x0FFF_FFFF_FFFF_FFFF;

// An open listing of the machine.
#[derive(Drop)]
pub struct HostListing<R: Files + Drop> {
    pub names: ReadDir<R, Global>,
    // The most names that it still gives.
    pub left: u64,
    // Whether it met a name that can't be told.
    pub missed: bool,
}

// What the machine's names are at first.
pub fn listing_of<R: Files + Drop>(names: ReadDir<R, Global>) -> HostListing<R>
    ensures left { result.left < 2 ^ 60 }
    ensures missed { result.missed ≡ false }
{
    HostListing {
        names,
        left: MOST,
        missed: false,
    }
}

// The name of an entry, or none where it can't be told: it isn't UTF-8, or not plain.
fn name_of<R: Files + Drop>(
    alloc: Global,
    entry: io::Result<DirEntry<R, Global>>,
) -> Result<Option<Text>, DiskError>
    ensures plain { IsNamed result }
    ensures only { IfErr result MayRefuseNext }
    ensures says { Says entry result }
{
    match entry {
        Ok(entry) => {
            let name = entry.file_name();
            if !is_plain(name.as_bytes()) {
                return Ok(None);
            }
            match Text::copy(alloc, name) {
                Ok(name) => Ok(Some(name)),
                Err(_) => Err(DiskError::NoMemory),
            }
        }
        Err(error) => match error.kind() {
            ErrorKind::InvalidFilename => Ok(None),
            ErrorKind::OutOfMemory => Err(DiskError::NoMemory),
            _ => Err(DiskError::Failed),
        },
    }
}

// The next name that can be told, of entries as they come. Where names were met that can't, one fault stands for them
// after all others. It is for entries of any kind, so that its clause says what it does with each that it takes.
fn next_told<R: Files + Drop, I: Iterator<Item = io::Result<DirEntry<R, Global>>>>(
    alloc: Global,
    names: &mut I,
    missed: &mut bool,
) -> Result<Option<Text>, DiskError>
    requires { I.can_next names.old × IsFinite (I.remaining names.old) }
    ensures plain { IsNamed result }
    ensures only { IfErr result MayRefuseNext }
    ensures told { TellsName I.next_gives names.old missed.old result names.new missed.new }
{
    'names: for _ in 0..u32::MAX {
        let Some(entry) = names.next() else {
            let has_missed = *missed;
            *missed = false;
            return if has_missed {
                Err(DiskError::Failed)
            } else {
                Ok(None)
            };
        };
        match name_of(alloc, entry) {
            Ok(Some(name)) => return Ok(Some(name)),
            Ok(None) => *missed = true,
            Err(e) => return Err(e),
        }
    }
    Err(DiskError::Failed)
}

// How many names are to come behind what was found: one fewer behind a name.
fn left_behind(left: u64, found: &Option<Text>) -> u64
    requires { 0 < left }
    ensures { IsFewer left (Ok found.now) result }
{
    match found {
        Some(_) => left - 1,
        None => left,
    }
}

impl<R: Files + Clone + Drop> HostListing<R> {
    // The next name that can be told, and one fewer to come.
    fn next(&mut self, alloc: Global) -> Result<Option<Text>, DiskError>
        ensures plain { IsNamed result }
        ensures only { IfErr result MayRefuseNext }
        ensures left { IsFewer self.old.left result self.new.left }
        ensures goes { Goes ⟦<ReadDir<R, Global> as Iterator>⟧.next_gives self.old result self.new }
    {
        if self.left == 0 {
            return Err(DiskError::Failed);
        }
        match next_told(alloc, &mut self.names, &mut self.missed) {
            Ok(found) => {
                self.left = left_behind(self.left, &found);
                Ok(found)
            }
            Err(e) => Err(e),
        }
    }
}

// The next name of a live lister, or none after the last. `Failed` is a fault.
pub fn next_name<R: Files + Clone + Drop>(
    alloc: Global,
    listings: &mut BTreeMap<u32, HostListing<R>>,
    lister: u32,
) -> Result<Option<Text>, DiskError>
    requires { IsSome (listers_at listings.old lister) }
    ensures plain { IsNamed result }
    ensures only { IfErr result MayRefuseNext }
    ensures listers { ListersAfterNext lister result (listers_at listings.old) (listers_at listings.new) }
    ensures goes { GoesAt ⟦<ReadDir<R, Global> as Iterator>⟧.next_gives lister listings.old result listings.new }
{
    match listings.get_mut(&lister) {
        Some(listing) => listing.next(alloc),
        None => Err(DiskError::NoMemory),
    }
}
