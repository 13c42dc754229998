// The cache of absent names as its lock keeps it.
ghost use Rattle.std.specs.Prelude.{◌≡◌, ◌<◌, ◌==◌, ◌&&◌, [], IfOk, IsTrue, None, not, option_map, true, if◌then◌else◌};
ghost use Rattle.dav_memory.specs.Trees.{Name};
ghost use Rattle.dav_memory.specs.Entries.{are_sealable, is_old_dot, purged, same_key, stands, without, name_key as the_name_key};
ghost use Rattle.std.specs.Map.{lookup};
ghost use Rattle.dav_shared.specs.Books.{IsUntold, KeepsTo, MaySeal, denies_at, stands_at};
ghost use Rattle.dav_shared.specs.Holds.{SealsFor};

use crate::Book;
use dav_cache::DuCache;
use dav_core::FileTime;
use dav_io::{Moment, NoMemory, Text};
use dav_memory::{DuKey, Sealed};
use std::alloc::Global;
use std::marker::PhantomData;

/// A cache of absent names that keeps to what a book tells of a folder. Who holds its lock can't know which folder that
/// is, so `peek`, `denies` and `seal` are told it, and tell and remember nothing for another.
#[derive(Drop)]
pub struct BookedDots<B: Book> {
    folder: u64,
    dots: DuCache,
    book: PhantomData<B>,
    ghost keeps: { KeepsTo (B.names folder) dots.entries },
}

impl<B: Book> BookedDots<B> {
    #[tactic(auto, using(crate::proofs::Keeping::keeps_none))]
    pub fn new(alloc: Global, folder: u64, size: usize) -> Result<Self, NoMemory>
        requires { 0 < size }
        ensures { IfOk result (λ made. (made.folder ≡ folder)
            × (made.dots ≡ record { entries = []; size = size; next = 1 })) }
    {
        Ok(BookedDots {
            folder,
            dots: DuCache::new(alloc, size)?,
            book: PhantomData,
        })
    }

    /// The number and the time of a directory's entry.
    pub fn peek(&self, folder: u64, dir: &DuKey) -> Option<(u64, FileTime)>
        ensures { result ≡ (if self.now.folder == folder
            then option_map (λ e. (e.number, e.time)) (lookup (same_key dir.now) self.now.dots.entries) else None) }
    {
        if self.folder == folder {
            self.dots.peek_dir(dir)
        } else {
            None
        }
    }

    #[tactic(auto, using(crate::proofs::Keeping::denies_rightly))]
    /// Whether the directory's entry stands with this number and time, and the name's doesn't stand with the number.
    pub fn denies(
        &self,
        folder: u64,
        dir: &DuKey,
        name: &DuKey,
        number: u64,
        time: FileTime,
    ) -> bool
        requires { dir.now.name ≡ None }
        ensures value { result ≡ ((self.now.folder == folder)
            && denies_at self.now.dots.entries dir.now name.now number time) }
        ensures untold { IsTrue result → (x : Name) → name.now ≡ the_name_key dir.now.dir x
            → IsUntold (B.names folder) dir.now.dir time x }
    {
        if self.folder != folder {
            return false;
        }
        if !self.has_time(dir, time) {
            return false;
        }
        self.dots.conclude(dir, name, number)
    }

    // Whether the directory's entry has this time.
    fn has_time(&self, dir: &DuKey, time: FileTime) -> bool
        ensures { result ≡ stands_at self.now.dots.entries dir.now time }
    {
        match self.dots.peek_dir(dir) {
            Some((_, at)) => at == time,
            None => false,
        }
    }

    #[tactic(auto, using(crate::proofs::Keeping::keeps_dropped))]
    /// Takes the directory's entry out.
    pub fn drop_dir(&mut self, dir: &DuKey)
        requires { dir.now.name ≡ None }
        ensures folder { self.new.folder ≡ self.old.folder }
        ensures dots { self.new.dots ≡ record self.old.dots
            { entries = without (same_key dir.now) self.old.dots.entries } }
    {
        self.dots.drop_dir(dir);
    }

    /// What follows on a look at the directory: whether the name is absent, where the disk found the directory with this
    /// time, the one of its entry. Else the entry is taken out.
    pub fn conclude(
        &mut self,
        folder: u64,
        dir: &DuKey,
        name: &DuKey,
        number: u64,
        time: FileTime,
        found: bool,
    ) -> bool
        requires { dir.now.name ≡ None }
        ensures value { result ≡ (found && ((self.old.folder == folder)
            && denies_at self.old.dots.entries dir.now name.now number time)) }
        ensures untold { IsTrue result → (x : Name) → name.now ≡ the_name_key dir.now.dir x
            → IsUntold (B.names folder) dir.now.dir time x }
        ensures folder { self.new.folder ≡ self.old.folder }
        ensures dots { self.new.dots ≡ (if found then self.old.dots
            else record self.old.dots { entries = without (same_key dir.now) self.old.dots.entries }) }
    {
        if found {
            return self.denies(folder, dir, name, number, time);
        }
        self.drop_dir(dir);
        false
    }

    #[tactic(auto, using(crate::proofs::Keeping::keeps_sealed))]
    /// Puts the directory's entry with the next number, and then each name in order.
    pub fn seal(
        &mut self,
        folder: u64,
        dir: &DuKey,
        time: FileTime,
        names: &[Text],
        now: Moment,
    ) -> Sealed
        requires dir { dir.now.name ≡ None }
        requires names { are_sealable names.now ≡ true }
        requires may { MaySeal (B.names folder) dir.now.dir time names.now }
        ensures folder { self.new.folder ≡ self.old.folder }
        ensures dots { SealsFor (self.old.folder == folder) self.old.dots dir.now time now names.now result
            self.new.dots }
    {
        if self.folder != folder {
            return Sealed::Done;
        }
        self.dots.are_counted();
        self.dots.seal(dir, time, names, now)
    }

    #[tactic(auto, using(crate::proofs::Keeping::keeps_purged))]
    /// Forgets what is old.
    pub fn purge(&mut self, now: Moment)
        ensures folder { self.new.folder ≡ self.old.folder }
        ensures dots { self.new.dots ≡ record self.old.dots { entries = purged (is_old_dot now) self.old.dots.entries } }
    {
        self.dots.are_counted();
        self.dots.purge(now);
    }
}
