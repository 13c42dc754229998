ghost use Rattle.std.specs.Prelude.{◌≡◌, ℕ, Bool, Option, Result, IfOk};
ghost use Rattle.std.specs.Borrow.{sem, Lends};
ghost use Rattle.dav_io.specs.declared.clock.Moment.{Moment};
ghost use Rattle.dav_core.specs.declared.error.FsError.{FsError};
ghost use Rattle.dav_core.specs.declared.handle.OpenOptions.{OpenOptions};
ghost use Rattle.dav_core.specs.DavPath.{WebPath};
ghost use Rattle.dav_core.specs.Info.{Info};
ghost use Rattle.dav_store.specs.Standing.{info_in};
ghost use Rattle.dav_store.specs.Frames.{OpensOne};
ghost use Rattle.dav_store.specs.View.{Fits, View, Listings, Stays, StaysBy, StaysOpen};
ghost use Rattle.dav_store.specs.Listings.{EndsList, GoesOn, HasLister, ListsOne, Nearer, left_of};
ghost use Rattle.dav_store.specs.declared.entry.ReadDirMeta.{ReadDirMeta};

use crate::{DavDirEntry, DavFile, GuardedFileSystem, ReadDirMeta};
use dav_core::{DavMetaData, DavPath, Disk, FsError, OpenOptions};
use dav_io::Moment;

/// A store without credentials. Each call and each word is that of `GuardedFileSystem`.
pub trait DavFileSystem {
    type Disk: Disk;

    type Meta: DavMetaData + Drop;

    type File: DavFile<Self::Disk, Meta = Self::Meta>;

    type Dir;

    type Entry: DavDirEntry<Self::Disk, Meta = Self::Meta> + Drop;

    ghost inside: { Self → Self.Disk };

    ghost with_disk: { Self → Self.Disk → Self };

    ghost with_now: { Self → Moment → Self };

    ghost void: { Self → Bool };

    /// What each call may answer, and what a store shows.
    ghost view: { View Self Unit Self.File };

    /// The same of its listings.
    ghost listings: { Listings Self Unit Self.Dir Self.Entry };

    /// Lends the disk.
    fn disk(&mut self) -> &mut Self::Disk
        ensures* writes_back { sem 𝓛 (Lends Self.row Self.Disk.row self.entry result (with_disk self.old)) }
        ensures value { result.now ≡ inside self.old };

    /// Sets the moment by which its memory judges what is too old.
    fn set_now(&mut self, now: Moment)
        ensures done { self.new ≡ with_now self.old now }
        ensures disk { inside self.new ≡ inside self.old };

    /// Whether names that fold alike are one.
    fn folds(&self) -> bool
        ensures { result ≡ view.folding self.now };

    /// Whether it has nothing and does nothing.
    fn is_void(&self) -> bool
        ensures { result ≡ void self.now };

    /// What stands at a path, links followed.
    fn metadata(&mut self, path: &DavPath) -> Result<Self::Meta, FsError>
        ensures done { view.looks self.old tt path.now (info_in Self.Meta.info result) self.new }
        ensures stays { Stays view self.old self.new };

    /// What stands at a path, links not followed.
    fn symlink_metadata(&mut self, path: &DavPath) -> Result<Self::Meta, FsError>
        ensures done { view.looks_at_link self.old tt path.now (info_in Self.Meta.info result) self.new }
        ensures stays { Stays view self.old self.new };

    /// Opens what stands at a path, at its first byte.
    fn open(&mut self, path: &DavPath, options: OpenOptions) -> Result<Self::File, FsError>
        ensures done { view.opens self.old tt path.now options result self.new }
        ensures stays { StaysBy view (λ s t. OpensOne view.file options s result t) self.old self.new }
        ensures reads_from { IfOk result (λ file. view.file.reads_from file (view.state self.new)) };

    /// Begins a listing of the directory at a path.
    fn read_dir(&mut self, path: &DavPath, meta: ReadDirMeta) -> Result<Self::Dir, FsError>
        ensures done { listings.lists self.old tt path.now meta result self.new }
        ensures stays { StaysBy view (λ s t. ListsOne listings.lister s result t) self.old self.new };

    /// The next entry, or None after the last. Each answer but None and want of memory leaves fewer answers to come.
    fn next_entry(&mut self, dir: &mut Self::Dir) -> Result<Option<Self::Entry>, FsError>
        requires live { HasLister (view.state self.old) (listings.lister dir.old) }
        ensures done { listings.lists_on self.old dir.old result self.new dir.new }
        ensures nearer { Nearer (listings.to_come dir.old (left_of (view.state self.old) (listings.lister dir.old)))
            result (listings.to_come dir.new (left_of (view.state self.new) (listings.lister dir.new))) }
        ensures lister { listings.lister dir.new ≡ listings.lister dir.old }
        ensures stays { StaysBy view (λ s t. GoesOn s (listings.lister dir.old) t) self.old self.new };

    /// Ends a listing.
    fn end_dir(&mut self, dir: Self::Dir)
        requires { HasLister (view.state self.old) (listings.lister dir) }
        ensures done { listings.ends_list self.old dir self.new }
        ensures stays { StaysBy view (λ s t. EndsList s (listings.lister dir) t) self.old self.new };

    /// Makes a directory at a path.
    fn create_dir(&mut self, path: &DavPath) -> Result<(), FsError>
        ensures done { view.makes_dir self.old tt path.now result self.new }
        ensures stays { StaysOpen view self.old self.new };

    /// Removes the directory at a path.
    fn remove_dir(&mut self, path: &DavPath) -> Result<(), FsError>
        ensures done { view.removes_dir self.old tt path.now result self.new }
        ensures stays { StaysOpen view self.old self.new };

    /// Removes the file at a path.
    fn remove_file(&mut self, path: &DavPath) -> Result<(), FsError>
        ensures done { view.removes_file self.old tt path.now result self.new }
        ensures stays { StaysOpen view self.old self.new };

    /// Moves what stands at a path to another.
    fn rename(&mut self, from: &DavPath, to: &DavPath) -> Result<(), FsError>
        ensures done { view.renames self.old tt from.now to.now result self.new }
        ensures stays { StaysOpen view self.old self.new };

    /// Copies a file's bytes to another path.
    fn copy(&mut self, from: &DavPath, to: &DavPath) -> Result<(), FsError>
        ensures done { view.copies self.old tt from.now to.now result self.new }
        ensures stays { StaysOpen view self.old self.new };

    ghost puts_inside: { (s : Self) (d : Self.Disk) → inside (with_disk s d) ≡ d };

    ghost puts_over: { (s : Self) (d e : Self.Disk) → with_disk (with_disk s d) e ≡ with_disk s e };

    ghost puts_back: { (s : Self) → with_disk s (inside s) ≡ s };

    /// The view speaks of the disk inside, of the files and of the entries as they are.
    ghost fits: { Fits view listings inside with_disk Self.Disk.state Self.Disk.loan Self.File.view
        Self.Entry.called Self.Entry.says };
}

impl<S: DavFileSystem> GuardedFileSystem<()> for S {
    type Disk = S::Disk;

    type Meta = S::Meta;

    type File = S::File;

    type Dir = S::Dir;

    type Entry = S::Entry;

    ghost inside = { S.inside };

    ghost with_disk = { S.with_disk };

    ghost with_now = { S.with_now };

    ghost void = { S.void };

    ghost view = { S.view };

    ghost listings = { S.listings };

    fn disk(&mut self) -> &mut S::Disk {
        DavFileSystem::disk(self)
    }

    fn set_now(&mut self, now: Moment) {
        DavFileSystem::set_now(self, now)
    }

    fn folds(&self) -> bool {
        DavFileSystem::folds(self)
    }

    fn is_void(&self) -> bool {
        DavFileSystem::is_void(self)
    }

    fn metadata(&mut self, path: &DavPath, _credentials: &()) -> Result<S::Meta, FsError> {
        DavFileSystem::metadata(self, path)
    }

    fn symlink_metadata(&mut self, path: &DavPath, _credentials: &()) -> Result<S::Meta, FsError> {
        DavFileSystem::symlink_metadata(self, path)
    }

    fn open(
        &mut self,
        path: &DavPath,
        options: OpenOptions,
        _credentials: &(),
    ) -> Result<S::File, FsError> {
        DavFileSystem::open(self, path, options)
    }

    fn read_dir(
        &mut self,
        path: &DavPath,
        meta: ReadDirMeta,
        _credentials: &(),
    ) -> Result<S::Dir, FsError> {
        DavFileSystem::read_dir(self, path, meta)
    }

    fn next_entry(&mut self, dir: &mut S::Dir) -> Result<Option<S::Entry>, FsError> {
        DavFileSystem::next_entry(self, dir)
    }

    fn end_dir(&mut self, dir: S::Dir) {
        DavFileSystem::end_dir(self, dir)
    }

    fn create_dir(&mut self, path: &DavPath, _credentials: &()) -> Result<(), FsError> {
        DavFileSystem::create_dir(self, path)
    }

    fn remove_dir(&mut self, path: &DavPath, _credentials: &()) -> Result<(), FsError> {
        DavFileSystem::remove_dir(self, path)
    }

    fn remove_file(&mut self, path: &DavPath, _credentials: &()) -> Result<(), FsError> {
        DavFileSystem::remove_file(self, path)
    }

    fn rename(&mut self, from: &DavPath, to: &DavPath, _credentials: &()) -> Result<(), FsError> {
        DavFileSystem::rename(self, from, to)
    }

    fn copy(&mut self, from: &DavPath, to: &DavPath, _credentials: &()) -> Result<(), FsError> {
        DavFileSystem::copy(self, from, to)
    }

    ghost puts_inside = { S.puts_inside };

    ghost puts_over = { S.puts_over };

    ghost puts_back = { S.puts_back };

    ghost fits = { S.fits };
}
