ghost use Rattle.std.specs.Prelude.{◌≡◌, ◌⊎◌, Err, None, Ok, Some, false, true};
ghost use Rattle.dav_core.specs.Path.{is_plain};
ghost use Rattle.dav_core.specs.Unchanged.{Keeps};
ghost use Rattle.dav_store.specs.Listings.{GoesOn, HasLister, ListsOne, Nearer};
ghost use Rattle.dav_local.specs.Listing.{Begins, Filled, GivesEntry, Gives, NextEntry, ReadsOne, Refilled, is_ended as the_is_ended, stopped, to_come, with_given};

use crate::lists::{begin_list, look_by, next_name};
use crate::meta::said;
use crate::{EntryMeta, LocalFsDirEntry};
use dav_core::{Disk, DiskError, FsError, FsPath, Lister};
use dav_io::Text;
use dav_store::ReadDirMeta;
use std::collections::VecDeque;
use std::marker::Model;

// How many names are read at a time.
const BATCH: u32 = 256;

// A listing of a disk, of which the names are read in batches of at most 256, with their metadata where it is asked
// for. A fault ends it.
#[derive(Drop)]
pub struct Reading {
    lister: Lister,
    path: FsPath,
    wanted: ReadDirMeta,
    // What was read and is to be given.
    batch: VecDeque<LocalFsDirEntry>,
    // What is answered once behind it.
    refused: Option<FsError>,
    // The disk is asked no more.
    over: bool,
}

impl Model for Reading {
    ghost use Rattle.dav_local.specs.Listing.{ListingState};

    ghost Value = { ListingState };

    ghost view = { λ d. record {
      lister = d.lister;
      path = d.path;
      wanted = d.wanted;
      batch = d.batch.items;
      refused = d.refused;
      over = d.over;
    } };
}

impl Reading {
    // The disk's lister.
    pub(crate) fn lister(&self) -> Lister
        ensures { result ≡ self.now.lister }
    {
        self.lister
    }

    // Gives nothing more, and asks the disk no more.
    pub(crate) fn stop(&mut self)
        ensures { self.new ≡ stopped self.old }
    {
        self.batch.clear();
        self.refused = None;
        self.over = true;
    }

    // Whether nothing more is read for a batch.
    fn is_ended(&self) -> bool
        ensures { result ≡ the_is_ended self.now }
    {
        self.over || self.refused.is_some()
    }

    // Adds an entry, or notes that memory for it was refused.
    fn keep(&mut self, entry: LocalFsDirEntry)
        ensures { (self.new ≡ with_given self.old (Ok entry))
            ⊎ (self.new ≡ with_given self.old (Err FsError.NoMemory)) }
    {
        match self.batch.push_back(entry) {
            Ok(()) => {}
            Err(_) => self.refused = Some(FsError::NoMemory),
        }
    }
}

// Begins a listing of the directory at a path.
pub fn begin<D: Disk>(disk: &mut D, path: FsPath, wanted: ReadDirMeta) -> Result<Reading, FsError>
    ensures done { Begins (D.state disk.old) path wanted result (D.state disk.new) }
    ensures one { ListsOne (λ d. Some d.lister.0) (D.state disk.old) result (D.state disk.new) }
    ensures loan { D.loan disk.new ≡ D.loan disk.old }
{
    let alloc = path.allocator();
    match begin_list(disk, &path) {
        Ok(lister) => Ok(Reading {
            lister,
            path,
            wanted,
            batch: VecDeque::new(alloc),
            refused: None,
            over: false,
        }),
        Err(error) => Err(error.into()),
    }
}

// The entry of a name that the disk gave. The path of the directory is that of the member while the disk is asked.
fn entry_of<D: Disk>(
    disk: &mut D,
    dir: &mut FsPath,
    wanted: ReadDirMeta,
    name: Text,
) -> Result<LocalFsDirEntry, FsError>
    requires { is_plain name ≡ true }
    ensures done { GivesEntry name dir.old wanted (D.state disk.old) result (D.state disk.new) }
    ensures path { dir.new ≡ dir.old }
    ensures keeps { Keeps (D.state disk.old) (D.state disk.new) }
    ensures loan { D.loan disk.new ≡ D.loan disk.old }
{
    let follows = match wanted {
        ReadDirMeta::Data => true,
        ReadDirMeta::DataSymlink => false,
        ReadDirMeta::None => {
            let Ok(path) = dir.child(name.as_str()) else {
                return Err(FsError::NoMemory);
            };
            return Ok(LocalFsDirEntry::new(name, EntryMeta::At(path)));
        }
    };
    let Ok(()) = dir.push(name.as_str()) else {
        return Err(FsError::NoMemory);
    };
    let answer = look_by(disk, follows, dir);
    dir.pop();
    Ok(LocalFsDirEntry::new(name, EntryMeta::Read(said(answer))))
}

// Asks the disk for one name more.
fn read_one<D: Disk>(disk: &mut D, dir: &mut Reading)
    requires live { HasLister (D.state disk.old) (Some dir.old.lister.0) }
    requires going { the_is_ended dir.old ≡ false }
    ensures done { ReadsOne (D.state disk.old) dir.old (D.state disk.new) dir.new }
    ensures goes_on { GoesOn (D.state disk.old) (Some dir.old.lister.0) (D.state disk.new) }
    ensures lister { dir.new.lister ≡ dir.old.lister }
    ensures loan { D.loan disk.new ≡ D.loan disk.old }
{
    match next_name(dir.path.allocator(), disk, dir.lister) {
        Ok(Some(name)) => match entry_of(disk, &mut dir.path, dir.wanted, name) {
            Ok(entry) => dir.keep(entry),
            Err(error) => dir.refused = Some(error),
        },
        Ok(None) => dir.over = true,
        Err(DiskError::NoMemory) => dir.refused = Some(FsError::NoMemory),
        Err(error) => {
            dir.refused = Some(error.into());
            dir.over = true;
        }
    }
}

// Reads the next batch.
fn fill<D: Disk>(disk: &mut D, dir: &mut Reading)
    requires { HasLister (D.state disk.old) (Some dir.old.lister.0) }
    ensures done { Filled (D.state disk.old) dir.old (D.state disk.new) dir.new }
    ensures loan { D.loan disk.new ≡ D.loan disk.old }
{
    let mut left = BATCH;
    while left > 0 && !dir.is_ended() {
        read_one(disk, dir);
        left -= 1;
    }
}

// Reads the next batch where nothing is left to be given.
fn refill<D: Disk>(disk: &mut D, dir: &mut Reading)
    requires { HasLister (D.state disk.old) (Some dir.old.lister.0) }
    ensures done { Refilled (D.state disk.old) dir.old (D.state disk.new) dir.new }
    ensures loan { D.loan disk.new ≡ D.loan disk.old }
{
    if dir.batch.is_empty() {
        fill(disk, dir);
    }
}

// Gives what stands first.
fn give(dir: &mut Reading) -> Result<Option<LocalFsDirEntry>, FsError>
    ensures { Gives dir.old.batch dir.old.refused dir.old result dir.new }
{
    if let Some(entry) = dir.batch.pop_front() {
        return Ok(Some(entry));
    }
    match dir.refused.take() {
        Some(error) => Err(error),
        None => Ok(None),
    }
}

// The next entry.
pub fn next<D: Disk>(disk: &mut D, dir: &mut Reading) -> Result<Option<LocalFsDirEntry>, FsError>
    requires { HasLister (D.state disk.old) (Some dir.old.lister.0) }
    ensures done { NextEntry (D.state disk.old) dir.old result (D.state disk.new) dir.new }
    ensures goes_on { GoesOn (D.state disk.old) (Some dir.old.lister.0) (D.state disk.new) }
    ensures nearer { Nearer (to_come dir.old ((D.state disk.old).listers dir.old.lister.0)) result
        (to_come dir.new ((D.state disk.new).listers dir.new.lister.0)) }
    ensures lister { dir.new.lister ≡ dir.old.lister }
    ensures loan { D.loan disk.new ≡ D.loan disk.old }
{
    refill(disk, dir);
    give(dir)
}
