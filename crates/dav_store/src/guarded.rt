ghost use Rattle.std.specs.Prelude.{◌≡◌, ℕ, Bool, Option, Result, IfOk};
ghost use Rattle.std.specs.Borrow.{sem, Lends};
ghost use Rattle.dav_io.specs.declared.clock.Moment.{Moment};
ghost use Rattle.dav_core.specs.declared.error.FsError.{FsError};
ghost use Rattle.dav_core.specs.declared.handle.OpenOptions.{OpenOptions};
ghost use Rattle.dav_core.specs.DavPath.{WebPath};
ghost use Rattle.dav_core.specs.Info.{Info};
ghost use Rattle.dav_store.specs.Standing.{info_in};
ghost use Rattle.dav_store.specs.Frames.{OpensOne};
ghost use Rattle.dav_store.specs.View.{Fits, View, Listings, Stays, StaysBy, StaysOpen};
ghost use Rattle.dav_store.specs.Listings.{EndsList, GoesOn, HasLister, ListsOne, Nearer, left_of};
ghost use Rattle.dav_store.specs.declared.entry.ReadDirMeta.{ReadDirMeta};

use crate::{DavDirEntry, DavFile, ReadDirMeta};
use dav_core::{DavMetaData, DavPath, Disk, FsError, OpenOptions};
use dav_io::Moment;

/// A store whose calls are made with credentials. What each call may answer, and which store it leaves, is a relation
/// of the store; that a call closes no file and opens none but its own is said of every store.
pub trait GuardedFileSystem<C> {
    type Disk: Disk;

    type Meta: DavMetaData + Drop;

    type File: DavFile<Self::Disk, Meta = Self::Meta>;

    /// An open listing. It isn't dropped: `end_dir` ends it.
    type Dir;

    type Entry: DavDirEntry<Self::Disk, Meta = Self::Meta> + Drop;

    /// The disk inside it.
    ghost inside: { Self → Self.Disk };

    /// The store with another disk inside.
    ghost with_disk: { Self → Self.Disk → Self };

    /// The store with its moment set.
    ghost with_now: { Self → Moment → Self };

    /// Whether it has nothing and does nothing.
    ghost void: { Self → Bool };

    /// What each call may answer, and what a store shows.
    ghost view: { View Self C Self.File };

    /// The same of its listings.
    ghost listings: { Listings Self C Self.Dir Self.Entry };

    /// Lends the disk.
    fn disk(&mut self) -> &mut Self::Disk
        ensures* writes_back { sem 𝓛 (Lends Self.row Self.Disk.row self.entry result (with_disk self.old)) }
        ensures value { result.now ≡ inside self.old };

    /// Sets the moment by which its memory judges what is too old.
    fn set_now(&mut self, now: Moment)
        ensures done { self.new ≡ with_now self.old now }
        ensures disk { inside self.new ≡ inside self.old };

    /// Whether names that fold alike are one.
    fn folds(&self) -> bool
        ensures { result ≡ view.folding self.now };

    /// Whether it has nothing and does nothing.
    fn is_void(&self) -> bool
        ensures { result ≡ void self.now };

    /// What stands at a path, links followed.
    fn metadata(&mut self, path: &DavPath, credentials: &C) -> Result<Self::Meta, FsError>
        ensures done { view.looks self.old credentials.now path.now (info_in Self.Meta.info result) self.new }
        ensures stays { Stays view self.old self.new };

    /// What stands at a path, links not followed.
    fn symlink_metadata(&mut self, path: &DavPath, credentials: &C) -> Result<Self::Meta, FsError>
        ensures done { view.looks_at_link self.old credentials.now path.now (info_in Self.Meta.info result) self.new }
        ensures stays { Stays view self.old self.new };

    /// Opens what stands at a path, at its first byte.
    fn open(
        &mut self,
        path: &DavPath,
        options: OpenOptions,
        credentials: &C,
    ) -> Result<Self::File, FsError>
        ensures done { view.opens self.old credentials.now path.now options result self.new }
        ensures stays { StaysBy view (λ s t. OpensOne view.file options s result t) self.old self.new }
        ensures reads_from { IfOk result (λ file. view.file.reads_from file (view.state self.new)) };

    /// Begins a listing of the directory at a path.
    fn read_dir(
        &mut self,
        path: &DavPath,
        meta: ReadDirMeta,
        credentials: &C,
    ) -> Result<Self::Dir, FsError>
        ensures done { listings.lists self.old credentials.now path.now meta result self.new }
        ensures stays { StaysBy view (λ s t. ListsOne listings.lister s result t) self.old self.new };

    /// The next entry, or None after the last. Each answer but None and want of memory leaves fewer answers to come.
    fn next_entry(&mut self, dir: &mut Self::Dir) -> Result<Option<Self::Entry>, FsError>
        requires live { HasLister (view.state self.old) (listings.lister dir.old) }
        ensures done { listings.lists_on self.old dir.old result self.new dir.new }
        ensures nearer { Nearer (listings.to_come dir.old (left_of (view.state self.old) (listings.lister dir.old)))
            result (listings.to_come dir.new (left_of (view.state self.new) (listings.lister dir.new))) }
        ensures lister { listings.lister dir.new ≡ listings.lister dir.old }
        ensures stays { StaysBy view (λ s t. GoesOn s (listings.lister dir.old) t) self.old self.new };

    /// Ends a listing.
    fn end_dir(&mut self, dir: Self::Dir)
        requires { HasLister (view.state self.old) (listings.lister dir) }
        ensures done { listings.ends_list self.old dir self.new }
        ensures stays { StaysBy view (λ s t. EndsList s (listings.lister dir) t) self.old self.new };

    /// Makes a directory at a path.
    fn create_dir(&mut self, path: &DavPath, credentials: &C) -> Result<(), FsError>
        ensures done { view.makes_dir self.old credentials.now path.now result self.new }
        ensures stays { StaysOpen view self.old self.new };

    /// Removes the directory at a path.
    fn remove_dir(&mut self, path: &DavPath, credentials: &C) -> Result<(), FsError>
        ensures done { view.removes_dir self.old credentials.now path.now result self.new }
        ensures stays { StaysOpen view self.old self.new };

    /// Removes the file at a path.
    fn remove_file(&mut self, path: &DavPath, credentials: &C) -> Result<(), FsError>
        ensures done { view.removes_file self.old credentials.now path.now result self.new }
        ensures stays { StaysOpen view self.old self.new };

    /// Moves what stands at a path to another.
    fn rename(&mut self, from: &DavPath, to: &DavPath, credentials: &C) -> Result<(), FsError>
        ensures done { view.renames self.old credentials.now from.now to.now result self.new }
        ensures stays { StaysOpen view self.old self.new };

    /// Copies a file's bytes to another path.
    fn copy(&mut self, from: &DavPath, to: &DavPath, credentials: &C) -> Result<(), FsError>
        ensures done { view.copies self.old credentials.now from.now to.now result self.new }
        ensures stays { StaysOpen view self.old self.new };

    /// What is put inside is inside.
    ghost puts_inside: { (s : Self) (d : Self.Disk) → inside (with_disk s d) ≡ d };

    /// Of two disks put inside the second stays.
    ghost puts_over: { (s : Self) (d e : Self.Disk) → with_disk (with_disk s d) e ≡ with_disk s e };

    /// Putting inside what is inside changes nothing.
    ghost puts_back: { (s : Self) → with_disk s (inside s) ≡ s };

    /// The view speaks of the disk inside, of the files and of the entries as they are.
    ghost fits: { Fits view listings inside with_disk Self.Disk.state Self.Disk.loan Self.File.view
        Self.Entry.called Self.Entry.says };
}
