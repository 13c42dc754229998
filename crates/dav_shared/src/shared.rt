ghost use Rattle.std.specs.Prelude.{◌≡◌, ◌<◌, IfOk, IfSome, IsTrue, OnErr, None, option_map, true};
ghost use Rattle.std.specs.Map.{lookup};
ghost use Rattle.dav_core.specs.Disk.{Metas};
ghost use Rattle.dav_memory.specs.Calls.{LacksMemory, Opening, Seeing, has_time as the_has_time};
ghost use Rattle.dav_memory.specs.Entries.{are_sealable, promoted, name_key as the_name_key};
ghost use Rattle.dav_memory.specs.Memory.{GetsBy, Negates};
ghost use Rattle.dav_memory.specs.Trees.{Name, fold_path, same_path};
ghost use Rattle.dav_shared.specs.Books.{IsUntold, MaySeal, MaySettle, kept_by};
ghost use Rattle.dav_shared.specs.Holds.{AsksFor, LooksAt, OpensToRead};
ghost use Rattle.dav_shared.specs.Waits.{waiting};

use crate::Book;
use crate::booked::BookedDots;
use crate::waiting::Waiting;
use dav_cache::{Cache, is_starved};
use dav_core::{Disk, DiskError, FileTime, FsPath, Handle, Kind, Meta, OpenOptions};
use dav_io::{Moment, NoMemory, Text};
use dav_memory::{DuKey, FoldedPath, Sealed, dir_key, name_key};
use std::alloc::Global;
use std::sync::{Mutex, Wait};

/// The two caches, each behind a lock of its own. No lock is held while a disk is asked, and no clause ties what one
/// hold of a lock saw to the next.
#[derive(Drop)]
pub struct SharedCache<B: Book> {
    folder: u64,
    paths: Mutex<Cache>,
    dots: Mutex<BookedDots<B>>,
}

impl<B: Book> SharedCache<B> {
    /// Empty caches of a folder for this many paths, and for this many directories and names together.
    pub fn new(alloc: Global, folder: u64, paths: usize, dots: usize) -> Result<Self, NoMemory>
        requires paths { 0 < paths }
        requires dots { 0 < dots }
        ensures { IfOk result (λ cache. cache.folder ≡ folder) }
    {
        let paths = Cache::new(alloc, paths)?;
        let dots = BookedDots::new(alloc, folder, dots)?;
        Ok(SharedCache {
            folder,
            paths: Mutex::new(paths),
            dots: Mutex::new(dots),
        })
    }

    // ---- the holds, each one event

    fn recall<W: Wait>(
        &self,
        rt: &W,
        path: &FsPath,
    ) -> Result<Option<(FoldedPath, FsPath)>, NoMemory>
        ensures { IfOk result (λ found. IfSome found (λ f. fold_path f.1 ≡ fold_path path.now)) }
    {
        let mut paths = self.paths.lock(rt);
        recalled(&mut *paths, path)
    }

    fn forget<W: Wait>(&self, rt: &W, key: &FoldedPath) {
        self.paths.lock(rt).remove(key);
    }

    fn peek<W: Wait>(&self, rt: &W, dir: &DuKey) -> Option<(u64, FileTime)> {
        self.dots.lock(rt).peek(self.folder, dir)
    }

    fn conclude<W: Wait>(
        &self,
        rt: &W,
        dir: &DuKey,
        name: &DuKey,
        number: u64,
        time: FileTime,
        found: bool,
    ) -> bool
        requires { dir.now.name ≡ None }
        ensures found { IsTrue result → IsTrue found }
        ensures untold { IsTrue result → (x : Name) → name.now ≡ the_name_key dir.now.dir x
            → IsUntold (B.names self.now.folder) dir.now.dir time x }
    {
        self.dots
            .lock(rt)
            .conclude(self.folder, dir, name, number, time, found)
    }

    // ---- the calls

    /// Looks a path up, and asks the disk what stands where it was found.
    pub fn get<W: Wait, D: Disk>(
        &self,
        rt: &W,
        path: &FsPath,
        disk: &mut D,
    ) -> Result<Option<(FsPath, Meta)>, NoMemory>
        ensures done { IfOk result (λ found. GetsBy Seeing (kept_by (B.names self.now.folder) None) path.now
            (D.state disk.old) found (kept_by (B.names self.now.folder) None) (D.state disk.new)) }
        ensures asks { AsksFor Metas path.now (D.state disk.old) (D.state disk.new) }
        ensures unasked { OnErr result (D.state disk.new ≡ D.state disk.old) }
        ensures loan { D.loan disk.new ≡ D.loan disk.old }
    {
        let Some((key, place)) = self.recall(rt, path)? else {
            return Ok(None);
        };
        match disk.meta(&place) {
            Ok(meta) => Ok(Some((place, meta))),
            Err(_) => {
                self.forget(rt, &key);
                Ok(None)
            }
        }
    }

    /// Looks a path up, and opens for reading what stands where it was found. Where the disk refuses that for want of
    /// memory, the path stays remembered.
    pub fn get_open<W: Wait, D: Disk>(
        &self,
        rt: &W,
        path: &FsPath,
        disk: &mut D,
    ) -> Result<Option<(FsPath, Handle)>, NoMemory>
        ensures done { IfOk result (λ found. GetsBy Opening (kept_by (B.names self.now.folder) None) path.now
            (D.state disk.old) found (kept_by (B.names self.now.folder) None) (D.state disk.new)) }
        ensures asks { AsksFor OpensToRead path.now (D.state disk.old) (D.state disk.new) }
        ensures starved { OnErr result (LacksMemory (D.state disk.old) (D.state disk.new)) }
        ensures loan { D.loan disk.new ≡ D.loan disk.old }
    {
        let Some((key, place)) = self.recall(rt, path)? else {
            return Ok(None);
        };
        let answer = disk.open(&place, OpenOptions::read(), false);
        if is_starved(&answer) {
            return Err(NoMemory);
        }
        match answer {
            Ok(handle) => Ok(Some((place, handle))),
            Err(_) => {
                self.forget(rt, &key);
                Ok(None)
            }
        }
    }

    /// Remembers where a path is.
    pub fn insert<W: Wait>(&self, rt: &W, path: &FsPath, now: Moment) -> Result<(), NoMemory> {
        self.paths.lock(rt).insert(path, now)
    }

    /// Whether the name is known to be absent from the directory, as the disk has it now.
    pub fn negative<W: Wait, D: Disk>(
        &self,
        rt: &W,
        dir: &FsPath,
        name: &Text,
        disk: &mut D,
    ) -> Result<bool, NoMemory>
        ensures done { IfOk result (λ absent. Negates (kept_by (B.names self.now.folder) None) dir.now name.now
            (D.state disk.old) absent (kept_by (B.names self.now.folder) None) (D.state disk.new)) }
        ensures asks { LooksAt dir.now (D.state disk.old) (D.state disk.new) }
        ensures unasked { OnErr result (D.state disk.new ≡ D.state disk.old) }
        ensures loan { D.loan disk.new ≡ D.loan disk.old }
    {
        let dir_key = dir_key(dir)?;
        let name_key = name_key(dir, name)?;
        let Some((number, time)) = self.peek(rt, &dir_key) else {
            return Ok(false);
        };
        let found = has_time(time, disk.meta(dir));
        Ok(self.conclude(rt, &dir_key, &name_key, number, time, found))
    }

    /// Remembers the names of a directory that begin with `._`, as it had them at this time.
    pub fn seal<W: Wait>(
        &self,
        rt: &W,
        dir: &DuKey,
        time: FileTime,
        names: &[Text],
        now: Moment,
    ) -> Sealed
        requires dir { dir.now.name ≡ None }
        requires names { are_sealable names.now ≡ true }
        requires may { MaySeal (B.names self.now.folder) dir.now.dir time names.now }
    {
        self.dots.lock(rt).seal(self.folder, dir, time, names, now)
    }

    /// Puts a listing that waits into the cache of absent names.
    pub fn settle<W: Wait>(&self, rt: &W, listing: Option<Waiting>)
        requires { MaySettle (B.names self.now.folder) (waiting listing) }
    {
        if let Some(listing) = listing {
            let _sealed = self.seal(
                rt,
                &listing.key,
                listing.time,
                listing.names.as_slice(),
                listing.now,
            );
        }
    }

    /// Forgets what is old.
    pub fn purge<W: Wait>(&self, rt: &W, now: Moment) {
        self.paths.lock(rt).purge(now);
        self.dots.lock(rt).purge(now);
    }
}

// What is remembered of a path. Its entry comes to the front.
fn recalled(paths: &mut Cache, path: &FsPath) -> Result<Option<(FoldedPath, FsPath)>, NoMemory>
    ensures found { IfOk result (λ found. found ≡ option_map (λ e. (fold_path path.now, e.path))
        (lookup (same_path (fold_path path.now)) paths.old.entries)) }
    ensures folds { IfOk result (λ found. IfSome found (λ f. fold_path f.1 ≡ fold_path path.now)) }
    ensures entries { IfOk result (λ found. paths.new ≡ record paths.old {
      entries = promoted (fold_path path.now)
          (lookup (same_path (fold_path path.now)) paths.old.entries) paths.old.entries;
    }) }
    ensures err { OnErr result (paths.new ≡ paths.old) }
{
    let found = paths.place_of(path)?;
    if let Some((key, _)) = &found {
        paths.promote(key);
    }
    Ok(found)
}

// Whether the disk found the directory with this time.
fn has_time(time: FileTime, found: Result<Meta, DiskError>) -> bool
    ensures { result ≡ the_has_time time found }
{
    match found {
        Ok(meta) => meta.kind == Kind::Dir && meta.modified == Some(time),
        Err(_) => false,
    }
}
