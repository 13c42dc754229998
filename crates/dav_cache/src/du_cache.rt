ghost use Rattle.std.specs.Prelude.{◌≡◌, ◌↔◌, ◌<◌, ◌≤◌, ◌+◌, ◌-◌, ◌^◌, ◌&&◌, not, nat_lt, [], ◌++◌, length, take, Option, Some, None, option_map, true, false, IfOk, OnOk, OnErr, IsTrue};
ghost use Rattle.std.specs.Option.{option_map_or, option_copied};
ghost use Rattle.std.specs.List.{list_all};
ghost use Rattle.dav_memory.specs.Trees.{is_after, is_dot as begins_with_dot};
ghost use Rattle.std.specs.Map.{lookup};
ghost use Rattle.lru.specs.LruCache.{lru_cache, last_entry, IsValid};
ghost use Rattle.dav_memory.specs.Entries as dots;
ghost use Rattle.dav_memory.specs.Calls as calls;
ghost use Rattle.dav_cache.specs.Listings.{OneListingEach};

use crate::trees::is_dot;
use crate::valid::no_key_stands_twice;
use dav_core::{Disk, DiskError, FileTime, FsPath, Kind, Meta};
use dav_io::{Moment, NoMemory, Text};
use dav_memory::{DuEntry, DuKey, Sealed, copy_name, dir_key, name_key};
use lru::LruCache;
use std::alloc::Global;
use std::marker::Model;
use std::num::NonZeroUsize;

/// Remembers which names that begin with `._` a directory had at a time. A contract sees its entries, the most
/// recently used first, how many it may have, and the number of the next listing.
#[derive(Drop)]
pub struct DuCache {
    entries: LruCache<DuKey, DuEntry>,
    next: u64,
}

impl Model for DuCache {
    ghost use Rattle.dav_memory.specs.Entries.{DotCache};
    ghost use Rattle.dav_cache.specs.Listings.{AreKept};

    ghost Value = { DotCache };

    ghost view = { λ c. record { entries = c.entries.entries; size = c.entries.cap; next = c.next } };

    ghost invariant = { λ c. AreKept c.next c.entries.entries };
}

impl DuCache {
    /// An empty cache for this many entries. It reserves no room for them. Numbers start at 1.
    pub fn new(alloc: Global, size: usize) -> Result<Self, NoMemory>
        requires { 0 < size }
        ensures { IfOk result (λ cache. cache ≡ record { entries = []; size = size; next = 1 }) }
    {
        let cap = NonZeroUsize::new(size).unwrap();
        Ok(DuCache {
            entries: LruCache::sparse(alloc, cap)?,
            next: 1,
        })
    }

    /// The number of entries.
    pub fn len(&self) -> usize
        ensures value { result ≡ length self.now.entries }
        ensures counted { dots.AreCounted self.now.next self.now.entries }
        ensures listings { OneListingEach self.now.entries }
    {
        self.entries.len()
    }

    /// Whether there is no entry.
    pub fn is_empty(&self) -> bool
        ensures { IsTrue result ↔ (self.now.entries ≡ []) }
    {
        self.entries.is_empty()
    }

    /// The number and the time of the key's entry. The order stays.
    pub fn peek_dir(&self, dir: &DuKey) -> Option<(u64, FileTime)>
        ensures { result ≡ option_map (λ e. (e.number, e.time)) (lookup (dots.same_key dir.now) self.now.entries) }
    {
        match self.entries.peek(dir) {
            Some(entry) => Some((entry.number, entry.time)),
            None => None,
        }
    }

    /// Whether the directory's entry stands with the number, and the name's entry doesn't.
    pub fn conclude(&self, dir: &DuKey, name: &DuKey, number: u64) -> bool
        ensures { result ≡ (dots.stands self.now.entries dir.now number && not
            (dots.stands self.now.entries name.now number)) }
    {
        self.stands(dir, number) && !self.stands(name, number)
    }

    /// Takes the directory's entry out.
    pub fn drop_dir(&mut self, dir: &DuKey)
        requires { dir.now.name ≡ None }
        ensures { self.new ≡ record self.old { entries = dots.without (dots.same_key dir.now) self.old.entries } }
    {
        drop_key(&mut self.entries, dir);
    }

    /// Whether the names may be sealed, as `seal` needs them: each begins with `._`, they are in order, and none
    /// stands twice.
    pub fn fits(names: &[Text]) -> bool
        ensures { result ≡ dots.are_sealable names.now }
    {
        begin_with_dots(names) && are_rising(names)
    }

    /// Puts the directory's entry with the next number, and then each name in order.
    pub fn seal(&mut self, dir: &DuKey, time: FileTime, names: &[Text], now: Moment) -> Sealed
        requires dir { dir.now.name ≡ None }
        requires names { dots.are_sealable names.now ≡ true }
        ensures { calls.Seals self.old dir.now time now names.now result self.new }
    {
        if self.next == u64::MAX {
            return Sealed::Last;
        }
        let count = names.len() as u64;
        let made = self.seal_within(dir, time, names, now, count + 1);
        if made > count {
            Sealed::Done
        } else {
            Sealed::NoMemory
        }
    }

    /// Seals with so many puts at most, and answers how many were made.
    pub(crate) fn seal_within(
        &mut self,
        dir: &DuKey,
        time: FileTime,
        names: &[Text],
        now: Moment,
        room: u64,
    ) -> u64
        requires dir { dir.now.name ≡ None }
        requires names { dots.is_rising None names.now ≡ true }
        requires next { self.old.next < 2 ^ 64 - 1 }
        ensures sealed { self.new ≡ calls.sealed_within self.old dir.now time now names.now result }
        ensures room { result ≤ room }
        ensures all { result ≤ length names.now + 1 }
    {
        let entry = DuEntry {
            moment: now,
            time,
            number: self.next,
            count: None,
        };
        self.next += 1;
        let made = put_listing(&mut self.entries, dir, entry, names, room);
        if made <= names.len() as u64 {
            drop_key(&mut self.entries, dir);
        }
        made
    }

    /// Whether the name is known to be absent: the directory has the time of its entry, and the name doesn't stand
    /// with that entry's number. Where the disk refuses, or finds no directory or another time, the entry goes. Memory
    /// is taken before the disk is asked. To be asked of names that begin with `._`, since no others are sealed.
    pub fn negative<D: Disk>(
        &mut self,
        dir: &FsPath,
        name: &Text,
        disk: &mut D,
    ) -> Result<bool, NoMemory>
        ensures denied { IfOk result (λ absent. calls.Denies
            (lookup (dots.same_key (dots.dir_key dir.now)) self.old.entries) self.old dir.now name.now
            (D.state disk.old) absent self.new (D.state disk.new)) }
        ensures err { OnErr result (self.new ≡ self.old) }
        ensures unasked { OnErr result (D.state disk.new ≡ D.state disk.old) }
        ensures loan { D.loan disk.new ≡ D.loan disk.old }
    {
        let dir_key = dir_key(dir)?;
        let name_key = name_key(dir, name)?;
        let Some((number, time)) = self.peek_dir(&dir_key) else {
            return Ok(false);
        };
        if has_time(time, disk.meta(dir)) {
            Ok(self.conclude(&dir_key, &name_key, number))
        } else {
            self.drop_dir(&dir_key);
            Ok(false)
        }
    }

    /// Removes the last entry as long as its age in whole seconds is above 60. A moment is in nanoseconds.
    pub fn purge(&mut self, now: Moment)
        ensures { self.new ≡ record self.old { entries = dots.purged (dots.is_old_dot now) self.old.entries } }
    {
        while self.last_is_old(now) {
            self.drop_last();
        }
    }

    /// Tells a proof what each cache keeps of its entries: their counts, and that a number belongs to one directory, one
    /// time of it and one moment. It is known where a field is read.
    pub fn are_counted(&self)
        ensures counted { dots.AreCounted self.now.next self.now.entries }
        ensures listings { OneListingEach self.now.entries }
    {
        let _next = self.next;
    }

    /// Whether the greatest number was given.
    pub(crate) fn is_last(&self) -> bool
        ensures { result ≡ not (nat_lt self.now.next (2 ^ 64 - 1)) }
    {
        self.next == u64::MAX
    }

    pub(crate) fn try_clone(&self) -> Result<Self, NoMemory>
        ensures { IfOk result (λ copy. copy ≡ self.now) }
    {
        no_key_stands_twice(&self.entries);
        let alloc: Global = *self.entries.allocator();
        let mut entries = LruCache::sparse(alloc, self.entries.cap())?;
        put_back(&mut entries, copy_pairs(alloc, &self.entries)?)?;
        Ok(DuCache {
            entries,
            next: self.next,
        })
    }

    fn drop_last(&mut self)
        ensures { self.new ≡ record self.old { entries = take (length self.old.entries - 1) self.old.entries } }
    {
        let _pair = self.entries.pop_lru();
    }

    fn last_is_old(&self, now: Moment) -> bool
        ensures { result ≡ option_map_or (λ e. dots.is_old_dot now e.1) (last_entry self.now.entries) false }
    {
        match self.entries.peek_lru() {
            Some((_, entry)) => now.0.saturating_sub(entry.moment.0) / 1_000_000_000 > 60,
            None => false,
        }
    }

    fn stands(&self, key: &DuKey, number: u64) -> bool
        ensures { result ≡ dots.stands self.now.entries key.now number }
    {
        match self.entries.peek(key) {
            Some(entry) => entry.number == number,
            None => false,
        }
    }
}

// Whether the name comes after the last one, if there was one.
fn follows(last: Option<&Text>, name: &Text) -> bool
    ensures { result ≡ is_after (option_copied last.entry) name.now }
{
    match last {
        Some(last) => last.cmp(name).is_lt(),
        None => true,
    }
}

// Whether the names begin with `._`.
fn begin_with_dots(names: &[Text]) -> bool
    ensures { result ≡ list_all begins_with_dot names.now }
{
    names.iter().all(|name| is_dot(name))
}

// Whether the names are in order, and none stands twice.
fn are_rising(names: &[Text]) -> bool
    ensures { result ≡ dots.is_rising None names.now }
{
    let mut last: Option<&Text> = None;
    for name in names {
        if !follows(last, name) {
            return false;
        }
        last = Some(name);
    }
    true
}

// Whether the disk found the directory with this time.
fn has_time(time: FileTime, found: Result<Meta, DiskError>) -> bool
    ensures { result ≡ calls.has_time time found }
{
    match found {
        Ok(meta) => meta.kind == Kind::Dir && meta.modified == Some(time),
        Err(_) => false,
    }
}

// Takes the key's entry out.
fn drop_key(entries: &mut LruCache<DuKey, DuEntry>, key: &DuKey)
    ensures { entries.new ≡ lru_cache (dots.without (dots.same_key key.now) entries.old.entries) entries.old.cap }
{
    no_key_stands_twice(entries);
    let _entry = entries.pop(key);
}

// Puts an entry first, and answers whether memory was found.
fn put_entry(entries: &mut LruCache<DuKey, DuEntry>, key: DuKey, entry: DuEntry) -> bool
    ensures ok { IsTrue result → entries.new ≡ lru_cache
        (dots.put entries.old.cap (dots.same_key key) key entry entries.old.entries) entries.old.cap }
    ensures err { result ≡ false → entries.new ≡ entries.old }
{
    no_key_stands_twice(entries);
    entries.put(key, entry).is_ok()
}

// Puts a name of the listing that the entry is of.
fn put_name(
    entries: &mut LruCache<DuKey, DuEntry>,
    dir: &DuKey,
    name: &Text,
    entry: DuEntry,
) -> bool
    ensures ok { IsTrue result → entries.new ≡ lru_cache
        (dots.put_name entries.old.cap (dots.listed_by dir.now entry) name.now entries.old.entries) entries.old.cap }
    ensures err { result ≡ false → entries.new ≡ entries.old }
{
    let entry = DuEntry {
        moment: entry.moment,
        time: entry.time,
        number: entry.number,
        count: None,
    };
    match name_key(&dir.dir, name) {
        Ok(key) => put_entry(entries, key, entry),
        Err(_) => false,
    }
}

// Puts the directory of the listing that the entry is of, with the count of its names.
fn put_dir(entries: &mut LruCache<DuKey, DuEntry>, dir: &DuKey, entry: DuEntry, count: u64) -> bool
    ensures ok { IsTrue result → entries.new ≡ lru_cache
        (dots.put_dir entries.old.cap (dots.listed_by dir.now entry) count entries.old.entries) entries.old.cap }
    ensures err { result ≡ false → entries.new ≡ entries.old }
{
    let entry = DuEntry {
        moment: entry.moment,
        time: entry.time,
        number: entry.number,
        count: Some(count),
    };
    match dir.dir.try_clone() {
        Ok(copy) => put_entry(
            entries,
            DuKey {
                dir: copy,
                name: None,
            },
            entry,
        ),
        Err(_) => false,
    }
}

// Puts the directory and then the names, as far as there are room and memory, and answers how many puts were made.
fn put_listing(
    entries: &mut LruCache<DuKey, DuEntry>,
    dir: &DuKey,
    entry: DuEntry,
    names: &[Text],
    room: u64,
) -> u64
    ensures puts { entries.new ≡ lru_cache (dots.some_put entries.old.cap (dots.listed_by dir.now entry) names.now
        result entries.old.entries) entries.old.cap }
    ensures room { result ≤ room }
    ensures all { result ≤ length names.now + 1 }
{
    if room == 0 {
        return 0;
    }
    if !put_dir(entries, dir, entry, names.len() as u64) {
        return 0;
    }
    let mut made: u64 = 1;
    for name in names {
        if made >= room {
            return made;
        }
        if !put_name(entries, dir, name, entry) {
            return made;
        }
        made += 1;
    }
    made
}

fn copy_key(key: &DuKey) -> Result<DuKey, NoMemory>
    ensures { IfOk result (λ copy. copy ≡ key.now) }
{
    let dir = key.dir.try_clone()?;
    let name = copy_name(&key.name)?;
    Ok(DuKey { dir, name })
}

fn copy_pairs(
    alloc: Global,
    entries: &LruCache<DuKey, DuEntry>,
) -> Result<Vec<(DuKey, DuEntry)>, NoMemory>
    ensures { IfOk result (λ pairs. pairs.items ≡ entries.now.entries) }
{
    let mut pairs = Vec::new(alloc);
    for (key, entry) in entries.iter() {
        pairs.push((copy_key(key)?, *entry))?;
    }
    Ok(pairs)
}

// Puts pairs of which no key stands twice, from the last to the first.
fn put_back(
    entries: &mut LruCache<DuKey, DuEntry>,
    pairs: Vec<(DuKey, DuEntry)>,
) -> Result<(), NoMemory>
    requires { IsValid dots.same_key (lru_cache (pairs.items ++ entries.old.entries) entries.old.cap) }
    ensures { OnOk result (entries.new ≡ lru_cache (pairs.items ++ entries.old.entries) entries.old.cap) }
{
    let mut pairs = pairs;
    while let Some((key, entry)) = pairs.pop() {
        if !put_entry(entries, key, entry) {
            return Err(NoMemory);
        }
    }
    Ok(())
}
