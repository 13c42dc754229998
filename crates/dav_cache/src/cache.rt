ghost use Rattle.std.specs.Prelude.{◌≡◌, ◌↔◌, ◌<◌, ◌-◌, [], length, take, Option, Some, None, option_map, false, is_ok, IfOk, IfSome, IsTrue, OnOk, OnErr};
ghost use Rattle.std.specs.Option.{option_map_or};
ghost use Rattle.std.specs.Map.{lookup};
ghost use Rattle.lru.specs.LruCache.{last_entry};
ghost use Rattle.dav_memory.specs.Trees.{same_path, fold_path};
ghost use Rattle.dav_memory.specs.Entries as entries;
ghost use Rattle.dav_memory.specs.declared.entry.PathEntry.{PathEntry};
ghost use Rattle.dav_memory.specs.Calls.{LacksMemory, Looks, LooksBy, Opening, found_by, is_starved as the_is_starved, probed};

use crate::valid::no_key_stands_twice;
use dav_core::{Disk, DiskError, FsPath, Handle, Meta, OpenOptions};
use dav_io::{Moment, NoMemory};
use dav_memory::{FoldedPath, PathEntry, fold};
use lru::LruCache;
use std::alloc::Global;
use std::marker::Model;
use std::num::NonZeroUsize;

/// Remembers for folded paths where they were found. A contract sees its entries, the most recently used first, and
/// how many it may have.
#[derive(Drop)]
pub struct Cache {
    entries: LruCache<FoldedPath, PathEntry>,
}

impl Model for Cache {
    ghost use Rattle.dav_memory.specs.Entries.{PathCache, AllFolded};

    ghost Value = { PathCache };

    ghost view = { λ c. record { entries = c.entries.entries; size = c.entries.cap } };

    ghost invariant = { λ c. AllFolded c.entries.entries };
}

/// Whether a call of the disk was refused for want of memory.
pub fn is_starved<A>(answer: &Result<A, DiskError>) -> bool
    ensures { result ≡ the_is_starved answer.now }
{
    match answer {
        Ok(_) => false,
        Err(error) => *error == DiskError::NoMemory,
    }
}

impl Cache {
    /// An empty cache for this many entries. It reserves no room for them.
    pub fn new(alloc: Global, size: usize) -> Result<Self, NoMemory>
        requires { 0 < size }
        ensures { IfOk result (λ cache. cache ≡ record { entries = []; size = size }) }
    {
        let cap = NonZeroUsize::new(size).unwrap();
        Ok(Cache {
            entries: LruCache::sparse(alloc, cap)?,
        })
    }

    /// The number of entries.
    pub fn len(&self) -> usize
        ensures value { result ≡ length self.now.entries }
        ensures folded { entries.AllFolded self.now.entries }
    {
        self.entries.len()
    }

    /// Whether there is no entry.
    pub fn is_empty(&self) -> bool
        ensures { IsTrue result ↔ (self.now.entries ≡ []) }
    {
        self.entries.is_empty()
    }

    /// Puts an entry for where the path is, first. A full cache drops its last entry. A moment is in nanoseconds.
    pub fn insert(&mut self, path: &FsPath, now: Moment) -> Result<(), NoMemory>
        ensures ok { OnOk result (self.new ≡ record self.old
            { entries = entries.inserted self.old.size path.now now self.old.entries }) }
        ensures err { OnErr result (self.new ≡ self.old) }
    {
        let key = fold(self.allocator(), path)?;
        let entry = PathEntry {
            path: path.try_clone()?,
            secs: now.0 / 1_000_000_000,
        };
        self.put(key, entry)
    }

    /// Looks a path up. Where an entry has the folded path, the disk is asked for what stands at the entry's path: the
    /// entry comes to the front, and where the disk refuses goes instead. Memory is taken before both.
    pub fn get<D: Disk>(
        &mut self,
        path: &FsPath,
        disk: &mut D,
    ) -> Result<Option<(FsPath, Meta)>, NoMemory>
        ensures looked { IfOk result (λ found. Looks (lookup (same_path (fold_path path.now)) self.old.entries) self.old
            path.now (D.state disk.old) found self.new (D.state disk.new)) }
        ensures folds { IfOk result (λ found. IfSome found (λ f. fold_path f.0 ≡ fold_path path.now)) }
        ensures err { OnErr result (self.new ≡ self.old) }
        ensures unasked { OnErr result (D.state disk.new ≡ D.state disk.old) }
        ensures loan { D.loan disk.new ≡ D.loan disk.old }
    {
        let Some((key, place)) = self.place_of(path)? else {
            return Ok(None);
        };
        let answer = disk.meta(&place);
        Ok(self.settle(&key, place, answer))
    }

    /// Looks a path up as `get` does, by an opening for reading of what stands at the entry's path. Where the disk
    /// refuses that for want of memory, the entry stays.
    pub fn get_open<D: Disk>(
        &mut self,
        path: &FsPath,
        disk: &mut D,
    ) -> Result<Option<(FsPath, Handle)>, NoMemory>
        ensures looked { IfOk result (λ found. LooksBy Opening
            (lookup (same_path (fold_path path.now)) self.old.entries)
            self.old path.now (D.state disk.old) found self.new (D.state disk.new)) }
        ensures folds { IfOk result (λ found. IfSome found (λ f. fold_path f.0 ≡ fold_path path.now)) }
        ensures err { OnErr result (self.new ≡ self.old) }
        ensures starved { OnErr result (LacksMemory (D.state disk.old) (D.state disk.new)) }
        ensures loan { D.loan disk.new ≡ D.loan disk.old }
    {
        let Some((key, place)) = self.place_of(path)? else {
            return Ok(None);
        };
        let answer = disk.open(&place, OpenOptions::read(), false);
        if is_starved(&answer) {
            return Err(NoMemory);
        }
        Ok(self.settle(&key, place, answer))
    }

    /// Removes the last entry as long as it is 900 s old. A moment is in nanoseconds.
    pub fn purge(&mut self, now: Moment)
        ensures { self.new ≡ record self.old { entries = entries.purged (entries.is_old_path now) self.old.entries } }
    {
        while self.last_is_old(now) {
            self.drop_last();
        }
    }

    fn allocator(&self) -> Global {
        *self.entries.allocator()
    }

    /// The folded path and the path that its entry tells. The order stays.
    pub fn place_of(&self, path: &FsPath) -> Result<Option<(FoldedPath, FsPath)>, NoMemory>
        ensures value { IfOk result (λ found. found ≡ option_map (λ e. (fold_path path.now, e.path))
            (lookup (same_path (fold_path path.now)) self.now.entries)) }
        ensures folds { IfOk result (λ found. IfSome found (λ f. fold_path f.1 ≡ fold_path path.now)) }
    {
        let key = fold(self.allocator(), path)?;
        match self.path_of(&key)? {
            Some(place) => Ok(Some((key, place))),
            None => Ok(None),
        }
    }

    // What was found by what the disk answered at the entry's path. The entry comes to the front, or goes.
    fn settle<A>(
        &mut self,
        key: &FoldedPath,
        place: FsPath,
        answer: Result<A, DiskError>,
    ) -> Option<(FsPath, A)>
        ensures found { result ≡ found_by place answer }
        ensures entries { (e : PathEntry) → lookup (same_path key.now) self.old.entries ≡ Some e
            → self.new ≡ record self.old { entries = probed (is_ok answer) key.now e self.old.entries } }
    {
        match answer {
            Ok(answer) => {
                self.promote(key);
                Some((place, answer))
            }
            Err(_) => {
                self.remove(key);
                None
            }
        }
    }

    /// The path that the key's entry tells.
    pub(crate) fn path_of(&self, key: &FoldedPath) -> Result<Option<FsPath>, NoMemory>
        ensures value { IfOk result (λ found. found ≡ option_map (λ e. e.path)
            (lookup (same_path key.now) self.now.entries)) }
        ensures folds { IfOk result (λ found. IfSome found (λ path. fold_path path ≡ key.now)) }
    {
        match self.entries.peek(key) {
            Some(entry) => Ok(Some(entry.path.try_clone()?)),
            None => Ok(None),
        }
    }

    /// Brings the key's entry to the front.
    pub fn promote(&mut self, key: &FoldedPath)
        ensures { self.new ≡ record self.old
            { entries = entries.promoted key.now (lookup (same_path key.now) self.old.entries) self.old.entries } }
    {
        no_key_stands_twice(&self.entries);
        self.entries.promote(key);
    }

    /// Takes the key's entry out.
    pub fn remove(&mut self, key: &FoldedPath)
        ensures { self.new ≡ record self.old { entries = entries.without (same_path key.now) self.old.entries } }
    {
        no_key_stands_twice(&self.entries);
        let _entry = self.entries.pop(key);
    }

    /// Puts an entry first.
    fn put(&mut self, key: FoldedPath, entry: PathEntry) -> Result<(), NoMemory>
        requires { key ≡ fold_path entry.path }
        ensures ok { OnOk result (self.new ≡ record self.old
            { entries = entries.put self.old.size (same_path key) key entry self.old.entries }) }
        ensures err { OnErr result (self.new ≡ self.old) }
    {
        no_key_stands_twice(&self.entries);
        self.entries.put(key, entry)?;
        Ok(())
    }

    fn drop_last(&mut self)
        ensures { self.new ≡ record self.old { entries = take (length self.old.entries - 1) self.old.entries } }
    {
        let _pair = self.entries.pop_lru();
    }

    fn last_is_old(&self, now: Moment) -> bool
        ensures { result ≡ option_map_or (λ e. entries.is_old_path now e.1) (last_entry self.now.entries) false }
    {
        match self.entries.peek_lru() {
            Some((_, entry)) => match entry.secs.checked_add(900) {
                Some(end) => end <= now.0 / 1_000_000_000,
                None => false,
            },
            None => false,
        }
    }
}
