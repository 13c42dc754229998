ghost use Rattle.std.specs.Prelude.{◌≡◌, ◌<◌, [], IfOk};
ghost use Rattle.dav_memory.specs.Memory.{memory_of};

use crate::{Cache, DuCache};
use dav_core::{Disk, FileTime, FsPath, Handle, Meta};
use dav_io::{Moment, NoMemory, Text};
use dav_memory::{DuKey, Remember, Sealed};
use std::alloc::Global;
use std::marker::Model;

/// A memory with two caches of its own. A contract sees both.
#[derive(Drop)]
pub struct Owned {
    paths: Cache,
    dots: DuCache,
}

impl Model for Owned {
    ghost use Rattle.dav_memory.specs.Memory.{OwnedState};

    ghost Value = { OwnedState };

    ghost view = { λ o. record { paths = o.paths; dots = o.dots } };
}

impl Owned {
    /// Empty caches for this many paths, and for this many directories and names together.
    pub fn new(alloc: Global, paths: usize, dots: usize) -> Result<Self, NoMemory>
        requires paths { 0 < paths }
        requires dots { 0 < dots }
        ensures { IfOk result (λ memory. memory ≡ record
            { paths = record { entries = []; size = paths }; dots = record { entries = []; size = dots; next = 1 } }) }
    {
        Ok(Owned {
            paths: Cache::new(alloc, paths)?,
            dots: DuCache::new(alloc, dots)?,
        })
    }

    /// The cache of paths.
    pub fn paths(&self) -> &Cache
        ensures { result.now ≡ self.now.paths }
    {
        &self.paths
    }

    /// The cache of absent names.
    pub fn dots(&self) -> &DuCache
        ensures { result.now ≡ self.now.dots }
    {
        &self.dots
    }
}

impl Remember for Owned {
    ghost state = { λ o. memory_of o };

    fn get<D: Disk>(
        &mut self,
        _alloc: Global,
        path: &FsPath,
        disk: &mut D,
    ) -> Result<Option<(FsPath, Meta)>, NoMemory> {
        self.paths.get(path, disk)
    }

    fn get_open<D: Disk>(
        &mut self,
        _alloc: Global,
        path: &FsPath,
        disk: &mut D,
    ) -> Result<Option<(FsPath, Handle)>, NoMemory> {
        self.paths.get_open(path, disk)
    }

    fn insert(&mut self, _alloc: Global, path: &FsPath, now: Moment) -> Result<(), NoMemory> {
        self.paths.insert(path, now)
    }

    fn negative<D: Disk>(
        &mut self,
        _alloc: Global,
        dir: &FsPath,
        name: &Text,
        disk: &mut D,
    ) -> Result<bool, NoMemory> {
        self.dots.negative(dir, name, disk)
    }

    fn seal(
        &mut self,
        _alloc: Global,
        dir: &DuKey,
        time: FileTime,
        names: &[Text],
        now: Moment,
    ) -> Sealed {
        self.dots.are_counted();
        self.dots.seal(dir, time, names, now)
    }

    fn purge(&mut self, now: Moment) {
        self.dots.are_counted();
        self.paths.purge(now);
        self.dots.purge(now);
    }
}
