ghost use Rattle.std.specs.Prelude.{◌≡◌, ◌+◌, OnOk, IfOk, Some, ℕ};
ghost use Rattle.dav_core.specs.World.{World, ArePlain, put, bytes_or_none};
ghost use Rattle.dav_core.specs.Tree.{look as found};
ghost use Rattle.dav_core.specs.Changes.{changed, all_changed, dir_added, file_added, cut_found, removed_found, renamed_found, resized};
ghost use Rattle.dav_disk.specs.Files.{stored_at};
ghost use Rattle.dav_disk.specs.Moves.{may_move, placed_at, touched_above};

use crate::indexed_rows::IndexedRows;
use crate::paths::{is_front, move_rows, parent_of, rows_without, tick, yields};
use crate::rows::is_free;
use crate::tables::{StoredFile, bytes_at, put_file};
use crate::tree::{has_dir, look};
use dav_core::{Change, FileTime, FsPath, Kind, Row};
use dav_io::{NoMemory, Text};
use std::alloc::Global;
use std::collections::BTreeMap;

// The rows and files of a disk in memory, on which a batch of changes is made.
#[derive(Drop)]
pub struct Drawn {
    pub rows: IndexedRows,
    pub files: BTreeMap<u64, StoredFile>,
    pub greatest: u64,
    pub latest: FileTime,
    ghost plain: { ArePlain rows },
}

// A copy of files.
fn copy_files(files: &BTreeMap<u64, StoredFile>) -> Result<BTreeMap<u64, StoredFile>, NoMemory>
    ensures { IfOk result (λ copy. stored_at copy ≡ stored_at files.now) }
{
    Ok(files.clone()?)
}

// Makes a file so long, shortened or lengthened with zeros, and sets its time.
fn resize(
    alloc: Global,
    files: &mut BTreeMap<u64, StoredFile>,
    number: u64,
    len: u64,
    time: FileTime,
) -> Result<(), NoMemory>
    ensures { OnOk result (stored_at files.new ≡ put number
        (Some (record { bytes = resized len (bytes_or_none (stored_at files.old number)); time = time }))
        (stored_at files.old)) }
{
    let mut bytes = match files.remove(&number) {
        Some(file) => file.bytes,
        None => Vec::new(alloc),
    };
    bytes.resize(len as usize, 0)?;
    put_file(files, number, bytes, time)
}

impl Drawn {
    ghost use Rattle.dav_disk.specs.Making.{drawn_in};

    // A copy of a disk's rows and files.
    pub fn copy(
        rows: &IndexedRows,
        files: &BTreeMap<u64, StoredFile>,
        greatest: u64,
        latest: FileTime,
    ) -> Result<Drawn, NoMemory>
        requires { ArePlain rows.now }
        ensures { IfOk result (λ d. (w : World)
            → drawn_in d w ≡ record w {
              tree = rows.now;
              files = stored_at files.now;
              greatest = greatest;
              latest = latest;
            }) }
    {
        let rows = rows.try_clone()?;
        let files = copy_files(files)?;
        Ok(Drawn {
            rows,
            files,
            greatest,
            latest,
        })
    }

    // Gives its rows and files, and the latest number and time, in place of others.
    pub fn give(
        self,
        rows: &mut IndexedRows,
        files: &mut BTreeMap<u64, StoredFile>,
        greatest: &mut u64,
        latest: &mut FileTime,
    )
        ensures drawn { (w : World) → record w {
          tree = rows.new;
          files = stored_at files.new;
          greatest = greatest.new;
          latest = latest.new;
        } ≡ drawn_in self w }
        ensures plain { ArePlain rows.new }
    {
        *rows = self.rows;
        *files = self.files;
        *greatest = self.greatest;
        *latest = self.latest;
    }

    // A directory at a free path under a directory.
    fn add_dir(&mut self, path: &FsPath) -> Result<(), NoMemory>
        ensures { OnOk result ((w : World) → drawn_in self.new w ≡ dir_added (drawn_in self.old w) path.now) }
    {
        if !is_free(&self.rows, path.as_slice()) || self.greatest == u64::MAX {
            return Ok(());
        }
        let Some(made) = tick(self.latest) else {
            return Ok(());
        };
        let Some(touched) = tick(made) else {
            return Ok(());
        };
        self.rows.push(Row {
            path: path.try_clone()?,
            kind: Kind::Dir,
            number: self.greatest + 1,
            time: made,
        })?;
        self.rows.set_time(parent_of(path.as_slice()), touched);
        self.greatest += 1;
        self.latest = touched;
        Ok(())
    }

    // A file with these bytes at a free path under a directory.
    pub fn add_file(&mut self, path: &FsPath, bytes: &[u8]) -> Result<(), NoMemory>
        ensures { OnOk result ((w : World) → drawn_in self.new w
            ≡ file_added (drawn_in self.old w) path.now bytes.now) }
    {
        if !is_free(&self.rows, path.as_slice()) || self.greatest == u64::MAX {
            return Ok(());
        }
        let Some(made) = tick(self.latest) else {
            return Ok(());
        };
        let Some(touched) = tick(made) else {
            return Ok(());
        };
        let alloc: Global = self.rows.allocator();
        let bytes = Vec::from_slice(alloc, bytes)?;
        put_file(&mut self.files, self.greatest + 1, bytes, made)?;
        self.rows.push(Row {
            path: path.try_clone()?,
            kind: Kind::File,
            number: self.greatest + 1,
            time: made,
        })?;
        self.rows.set_time(parent_of(path.as_slice()), touched);
        self.greatest += 1;
        self.latest = touched;
        Ok(())
    }

    // A file gets this length.
    fn cut(&mut self, path: &FsPath, len: u64) -> Result<(), NoMemory>
        ensures { OnOk result ((w : World) → drawn_in self.new w ≡ cut_found (found (drawn_in self.old w).tree path.now)
            len (drawn_in self.old w)) }
    {
        let Ok(row) = look(&self.rows, path.as_slice()) else {
            return Ok(());
        };
        if row.kind != Kind::File || bytes_at(&self.files, row.number).len() as u64 == len {
            return Ok(());
        }
        let Some(time) = tick(self.latest) else {
            return Ok(());
        };
        let alloc: Global = self.rows.allocator();
        let number = row.number;
        resize(alloc, &mut self.files, number, len, time)?;
        self.rows.set_time(path.as_slice(), time);
        self.latest = time;
        Ok(())
    }

    // What stands at a path goes, with all below it.
    fn remove(&mut self, path: &FsPath) -> Result<(), NoMemory>
        ensures { OnOk result ((w : World) → drawn_in self.new w
            ≡ removed_found (found (drawn_in self.old w).tree path.now)
            (drawn_in self.old w)) }
    {
        let names = path.as_slice();
        let Ok(_) = look(&self.rows, names) else {
            return Ok(());
        };
        if names.is_empty() {
            return Ok(());
        }
        let Some(time) = tick(self.latest) else {
            return Ok(());
        };
        self.rows.take_away(names)?;
        self.rows.set_time(parent_of(names), time);
        self.latest = time;
        Ok(())
    }

    // Whether what stands at a path may be moved to another.
    fn may_rename(&self, kind: Kind, from: &[Text], to: &[Text]) -> bool
        ensures { result ≡ may_move kind self.now.rows from.now to.now }
    {
        if from.is_empty() || to.is_empty() || is_front(from, to) {
            return false;
        }
        has_dir(&self.rows, parent_of(to)) && yields(&self.rows, kind, to)
    }

    // The directory above a path gets a time.
    fn touch(&mut self, path: &[Text], time: FileTime)
        ensures { (w : World) → drawn_in self.new w ≡ touched_above (drawn_in self.old w) path.now time }
    {
        self.rows.set_time(parent_of(path), time);
        self.latest = time;
    }

    // The rows of a path are moved to another in place of what stands there, and the directory that they leave gets a
    // time.
    fn place(&mut self, from: &[Text], to: &FsPath, time: FileTime) -> Result<(), NoMemory>
        ensures { OnOk result ((w : World) → drawn_in self.new w
            ≡ placed_at (drawn_in self.old w) from.now to.now time) }
    {
        let alloc: Global = self.rows.allocator();
        let kept = rows_without(alloc, self.rows.as_slice(), to.as_slice())?;
        self.rows = IndexedRows::of(move_rows(alloc, &kept, from, to)?)?;
        self.rows.set_time(parent_of(from), time);
        self.latest = time;
        Ok(())
    }

    // What stands at a path is moved to another.
    fn rename(&mut self, from: &FsPath, to: &FsPath) -> Result<(), NoMemory>
        ensures { OnOk result ((w : World) → drawn_in self.new w ≡ renamed_found
            (found (drawn_in self.old w).tree from.now) to.now (drawn_in self.old w)) }
    {
        let (names, target) = (from.as_slice(), to.as_slice());
        let Ok(row) = look(&self.rows, names) else {
            return Ok(());
        };
        if !self.may_rename(row.kind, names, target) {
            return Ok(());
        }
        let Some(first) = tick(self.latest) else {
            return Ok(());
        };
        if parent_of(names) == parent_of(target) {
            return self.place(names, to, first);
        }
        let Some(second) = tick(first) else {
            return Ok(());
        };
        self.place(names, to, first)?;
        self.touch(target, second);
        Ok(())
    }

    // Makes a change, or skips it where the tree doesn't allow it or no number or tick is left.
    pub fn change(&mut self, change: &Change) -> Result<(), NoMemory>
        ensures { OnOk result ((w : World) → drawn_in self.new w ≡ changed (drawn_in self.old w) change.now) }
    {
        match change {
            Change::AddDir(path) => self.add_dir(path),
            Change::AddFile(path, bytes) => self.add_file(path, bytes.as_slice()),
            Change::Cut(path, len) => self.cut(path, *len),
            Change::Remove(path) => self.remove(path),
            Change::Rename(from, to) => self.rename(from, to),
        }
    }

    // Makes changes, one after the other.
    pub fn make(&mut self, changes: &[Change]) -> Result<(), NoMemory>
        ensures { OnOk result ((w : World) → drawn_in self.new w ≡ all_changed (drawn_in self.old w) changes.now) }
    {
        for change in changes {
            self.change(change)?;
        }
        Ok(())
    }
}
