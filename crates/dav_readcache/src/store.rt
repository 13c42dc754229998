ghost use Rattle.std.specs.Prelude.{◌≡◌, ◌<◌, ◌≤◌, [], IfOk, IsTrue, length, false, true};
ghost use Rattle.dav_core.specs.Writing.{reading as the_reading};
ghost use Rattle.dav_store.specs.Frames.{OpensOne};
ghost use Rattle.dav_store.specs.View.{StaysBy};
ghost use Rattle.dav_readcache.specs.Opening.{OpensBy, is_reading};
ghost use Rattle.dav_readcache.specs.Shelf.{total};
ghost use Rattle.dav_readcache.specs.Store.{cache_view};

use crate::CachedFile;
use crate::keeping::hold_opened;
use crate::shelf::Shelf;
use dav_core::{DavPath, FsError, OpenOptions};
use dav_io::{Moment, NoMemory};
use dav_store::{GuardedFileSystem, ReadDirMeta};
use std::alloc::Global;
use std::marker::PhantomData;

/// A store that holds the contents of files by their entity tags.
#[derive(Drop)]
pub struct ReadCache<S, C> {
    pub(crate) store: S,
    pub(crate) shelf: Shelf,
    pub(crate) credentials: PhantomData<C>,
}

impl<S: Drop, C> ReadCache<S, C> {
    /// A store over this one, without entries, for so many entries, with so many bytes in all and at most so many in
    /// one.
    pub fn new(
        alloc: Global,
        store: S,
        entries: usize,
        room: u64,
        most: u64,
    ) -> Result<Self, NoMemory>
        requires some { 0 < entries }
        requires within { most ≤ room }
        ensures { IfOk result (λ cache. (cache.store ≡ store)
            × (cache.shelf ≡ record { entries = []; size = entries; room = room; most = most })) }
    {
        let shelf = Shelf::new(alloc, entries, room, most)?;
        Ok(ReadCache {
            store,
            shelf,
            credentials: PhantomData,
        })
    }
}

impl<S, C> ReadCache<S, C> {
    ghost use Rattle.std.specs.Prelude.{◌≡◌, ◌≤◌, [], length};
    ghost use Rattle.std.specs.Borrow.{sem, Lends};
    ghost use Rattle.dav_readcache.specs.Shelf.{total};
    ghost use Rattle.dav_readcache.specs.Store.{with_store};
    ghost use Rattle.dav_readcache.specs.contracts.store.ReadCache.{the_row};

    /// Lends the store inside.
    pub fn inner(&mut self) -> &mut S
        ensures* writes_back { sem 𝓛 (Lends (the_row S.row C.row) S.row self.entry result (with_store self.old)) }
        ensures value { result.now ≡ self.old.store }
    {
        &mut self.store
    }

    /// The sum of the bytes that are kept.
    pub fn held(&self) -> u64
        ensures value { result ≡ total self.now.shelf.entries }
        ensures within { result ≤ self.now.shelf.room }
    {
        self.shelf.held()
    }

    /// The number of entries.
    pub fn count(&self) -> usize
        ensures value { result ≡ length self.now.shelf.entries }
        ensures within { result ≤ self.now.shelf.size }
    {
        self.shelf.count()
    }

    /// Drops all entries. Files that are open keep what they hold.
    pub fn clear(&mut self)
        ensures { self.new ≡ record self.old { shelf = record self.old.shelf { entries = [] } } }
    {
        self.shelf.clear();
    }
}

// Whether a file is opened for reading alone.
fn is_reading(how: OpenOptions) -> bool
    ensures { result ≡ is_reading how }
{
    how.read && !how.write && !how.append && !how.truncate && !how.create && !how.create_new
}

impl<S: GuardedFileSystem<C>, C> ReadCache<S, C> {
    // Opens a file of the store, of which every call passes on.
    fn pass_on(
        &mut self,
        path: &DavPath,
        options: OpenOptions,
        credentials: &C,
    ) -> Result<CachedFile<S::File>, FsError>
        ensures done { OpensBy S.view false self.old credentials.now path.now options result self.new }
        ensures stays { StaysBy (cache_view S.view) (λ s t. OpensOne (cache_view S.view).file options s result t)
            self.old self.new }
        ensures reads_from { IfOk result (λ file. (cache_view S.view).file.reads_from file
            ((cache_view S.view).state self.new)) }
    {
        match self.store.open(path, options, credentials) {
            Ok(file) => Ok(CachedFile {
                file,
                reading: None,
            }),
            Err(refusal) => Err(refusal),
        }
    }

    // Opens a file for reading alone, which holds its content where that is had.
    fn open_held(&mut self, path: &DavPath, credentials: &C) -> Result<CachedFile<S::File>, FsError>
        ensures done { OpensBy S.view true self.old credentials.now path.now the_reading result self.new }
        ensures stays { StaysBy (cache_view S.view) (λ s t. OpensOne (cache_view S.view).file the_reading s result t)
            self.old self.new }
        ensures reads_from { IfOk result (λ file. (cache_view S.view).file.reads_from file
            ((cache_view S.view).state self.new)) }
    {
        match self.store.open(path, OpenOptions::read(), credentials) {
            Ok(file) => hold_opened(&mut self.store, &mut self.shelf, file),
            Err(refusal) => Err(refusal),
        }
    }
}

impl<S: GuardedFileSystem<C>, C> GuardedFileSystem<C> for ReadCache<S, C> {
    ghost use Rattle.dav_readcache.specs.Store.{cache_fits, cache_listings, cache_view, puts_store, with_store};

    type Disk = S::Disk;

    type Meta = S::Meta;

    type File = CachedFile<S::File>;

    type Dir = S::Dir;

    type Entry = S::Entry;

    ghost inside = { λ s. S.inside s.store };

    ghost with_disk = { λ s d. with_store s (S.with_disk s.store d) };

    ghost with_now = { λ s now. with_store s (S.with_now s.store now) };

    ghost void = { λ s. S.void s.store };

    ghost view = { cache_view S.view };

    ghost listings = { cache_listings S.listings };

    fn disk(&mut self) -> &mut S::Disk {
        self.store.disk()
    }

    fn set_now(&mut self, now: Moment) {
        self.store.set_now(now)
    }

    fn folds(&self) -> bool {
        self.store.folds()
    }

    fn is_void(&self) -> bool {
        self.store.is_void()
    }

    fn metadata(&mut self, path: &DavPath, credentials: &C) -> Result<S::Meta, FsError> {
        self.store.metadata(path, credentials)
    }

    fn symlink_metadata(&mut self, path: &DavPath, credentials: &C) -> Result<S::Meta, FsError> {
        self.store.symlink_metadata(path, credentials)
    }

    fn open(
        &mut self,
        path: &DavPath,
        options: OpenOptions,
        credentials: &C,
    ) -> Result<CachedFile<S::File>, FsError> {
        if !is_reading(options) {
            return self.pass_on(path, options, credentials);
        }
        self.open_held(path, credentials)
    }

    fn read_dir(
        &mut self,
        path: &DavPath,
        meta: ReadDirMeta,
        credentials: &C,
    ) -> Result<S::Dir, FsError> {
        self.store.read_dir(path, meta, credentials)
    }

    fn next_entry(&mut self, dir: &mut S::Dir) -> Result<Option<S::Entry>, FsError> {
        self.store.next_entry(dir)
    }

    fn end_dir(&mut self, dir: S::Dir) {
        self.store.end_dir(dir)
    }

    fn create_dir(&mut self, path: &DavPath, credentials: &C) -> Result<(), FsError> {
        self.store.create_dir(path, credentials)
    }

    fn remove_dir(&mut self, path: &DavPath, credentials: &C) -> Result<(), FsError> {
        self.store.remove_dir(path, credentials)
    }

    fn remove_file(&mut self, path: &DavPath, credentials: &C) -> Result<(), FsError> {
        self.store.remove_file(path, credentials)
    }

    fn rename(&mut self, from: &DavPath, to: &DavPath, credentials: &C) -> Result<(), FsError> {
        self.store.rename(from, to, credentials)
    }

    fn copy(&mut self, from: &DavPath, to: &DavPath, credentials: &C) -> Result<(), FsError> {
        self.store.copy(from, to, credentials)
    }

    ghost puts_inside = { λ s d. S.puts_inside s.store d };

    ghost puts_over = { λ s d e. puts_store s (S.puts_over s.store d e) };

    ghost puts_back = { λ s. puts_store s (S.puts_back s.store) };

    ghost fits = { cache_fits S.fits };
}
