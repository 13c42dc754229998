ghost use Rattle.std.specs.Prelude.{◌≡◌, ◌<◌, ◌≤◌, ◌⊎◌, ◌+◌, ℕ, [], length, not, is_none, None, Some, Ok, Err, Option, IfOk, OnOk, OnErr, IsSome, IfSome, true, option_map, is_some, MatchResult};
ghost use Rattle.dav_core.specs.Tree.{is_tree, is_file};
ghost use Rattle.dav_core.specs.declared.tree.Kind.TheVariants.{File as AFile};
ghost use Rattle.dav_core.specs.World.{AreGiven, ArePlain, at_key, time_of};
ghost use Rattle.dav_disk.specs.Files.{AreBare, AreKept, AreStored, HasNoLength, NamesNoDir, SaysNoMore, open_at, open_of, stored_at};
ghost use Rattle.dav_disk.specs.Rows.{root_row as the_root};

use crate::drawn::Drawn;
use crate::indexed_rows::IndexedRows;
use crate::judge::{
    Copying, empties, may_copy, may_make_dir, may_move, may_open, may_take_dir, may_take_file,
};
use crate::listing::Listing;
use crate::listings::{listing_of, take_name};
use crate::path_call::PathCall;
use crate::paths::{parent_of, tick};
use crate::rows::{can_be_set, has_number, is_free, later_of, second_past};
use crate::tables::{
    Opened, StoredFile, bytes_at, can_be_written, copy_from, is_stored, open_file, set_place,
    store_file, time_at,
};
use crate::tree::look;
use crate::writing::{spliced, written_end};
use dav_core::{
    Batch, Change, DiskError, FileTime, FsPath, Handle, Kind, Lister, Meta, OpenOptions, Row,
    free_key,
};
use dav_io::{NoMemory, Octets, Text};
use std::alloc::Global;
use std::collections::BTreeMap;

// The rows, files, open files and open listings of a disk in memory, without its faults and counts.
#[derive(Drop)]
pub struct Memory {
    rows: IndexedRows,
    files: BTreeMap<u64, StoredFile>,
    opens: BTreeMap<u32, Opened>,
    listings: BTreeMap<u32, Listing>,
    greatest: u64,
    latest: FileTime,
    script: Vec<Batch>,
    ghost tree: { is_tree rows ≡ true },
    ghost plain: { ArePlain rows },
    ghost stored: { AreStored rows (stored_at files) },
    ghost given: { AreGiven rows (stored_at files) (open_at opens) greatest latest },
    ghost bare: { AreBare rows (stored_at files) },
    ghost kept: { AreKept (at_key opens) (stored_at files) },
}

// The row of a root.
fn root_row(alloc: Global) -> Row
    ensures { result ≡ the_root }
{
    Row {
        path: FsPath::new(Vec::new(alloc)),
        kind: Kind::Dir,
        number: 1,
        time: FileTime { secs: 0, nanos: 0 },
    }
}

impl Memory {
    ghost use Rattle.dav_disk.specs.Rows.{first_world, is_new_number, can_add as the_can_add, with_dir, with_file, with_batch};
    ghost use Rattle.dav_disk.specs.Calls.{FindsMeta, Places, ReadsAt, with_closed, with_place, ListsAt, NextAt, with_names};
    ghost use Rattle.dav_disk.specs.Memory.{known_of};
    ghost use Rattle.dav_core.specs.Disk.{FileMetaIn, kind_at};
    ghost use Rattle.dav_core.specs.Path.{is_plain};
    ghost use Rattle.dav_core.specs.Changes.{turned, changed, is_free_in, tick as the_tick};
    ghost use Rattle.dav_core.specs.Allowed.{place as the_place, making_dir, taking_dir, taking_file, moving, copying};
    ghost use Rattle.dav_core.specs.declared.handle.DiskError.TheVariants.{NoMemory as OutOfMemory};
    ghost use Rattle.dav_disk.specs.Making.{MakesAt, OpensAs, OpensBy, WritesAt, allows, copies, edited, filled_now, to_unit, row_is_left, move_is_left};
    ghost use Rattle.dav_core.specs.declared.tree.Kind.TheVariants.{File as TheFile};
    ghost use Rattle.dav_core.specs.Edits.{makes, fills, takes};
    ghost use Rattle.dav_core.specs.Writing.{write_place, written};
    ghost use Rattle.dav_core.specs.World.{bytes_of};

    // The root alone.
    pub fn new(alloc: Global) -> Result<Self, NoMemory>
        ensures { IfOk result (λ m. known_of m ≡ record { world = first_world; live = λ _. None }) }
    {
        let mut rows = IndexedRows::new(alloc);
        rows.push(root_row(alloc))?;
        Ok(Memory {
            rows,
            files: BTreeMap::new(alloc),
            opens: BTreeMap::new(alloc),
            listings: BTreeMap::new(alloc),
            greatest: 1,
            latest: FileTime { secs: 1, nanos: 0 },
            script: Vec::new(alloc),
        })
    }

    // What stands at a path.
    pub fn meta(&self, path: &FsPath) -> Result<Meta, DiskError>
        ensures found { FindsMeta (known_of self.now).world path.now result }
        ensures more { IfOk result SaysNoMore }
        ensures dirs { IfOk result HasNoLength }
    {
        let row = match look(&self.rows, path.as_slice()) {
            Ok(row) => row,
            Err(e) => return Err(e),
        };
        Ok(Meta {
            kind: row.kind,
            number: row.number,
            len: bytes_at(&self.files, row.number).len() as u64,
            modified: Some(row.time),
            created: None,
            accessed: None,
            changed: None,
            exec: false,
        })
    }

    // The time of what a live handle has open.
    fn modified(&self, opened: Opened) -> Option<FileTime>
        ensures { is_file opened.kind ≡ true → result ≡ time_of (known_of self.now).world opened.number }
    {
        if opened.kind == Kind::File {
            return time_at(&self.files, opened.number);
        }
        let row = self
            .rows
            .as_slice()
            .iter()
            .find(|row| row.number == opened.number)?;
        Some(row.time)
    }

    // What is known of an open file.
    pub fn file_meta(&self, file: Handle) -> Meta
        requires { IsSome ((known_of self.now).live file.0) }
        ensures kind { option_map (λ l. l.kind) ((known_of self.now).live file.0) ≡ Some result.kind }
        ensures found { FileMetaIn file.0 (Ok result) (known_of self.now).world }
        ensures more { SaysNoMore result }
    {
        let opened = open_file(&self.opens, file.0);
        Meta {
            kind: opened.kind,
            number: opened.number,
            len: bytes_at(&self.files, opened.number).len() as u64,
            modified: self.modified(opened),
            created: None,
            accessed: None,
            changed: None,
            exec: false,
        }
    }

    // Sets the place of an open file.
    pub fn seek(&mut self, file: Handle, place: u64)
        requires { IsSome ((known_of self.old).live file.0) }
        ensures { Places (known_of self.old) file.0 place (known_of self.new) }
    {
        let opened = open_file(&self.opens, file.0);
        self.move_open(file, opened, place);
    }

    // Moves an open file to a place.
    fn move_open(&mut self, file: Handle, opened: Opened, place: u64)
        requires { at_key self.old.opens file.0 ≡ Some opened }
        ensures { known_of self.new ≡ with_place (known_of self.old) file.0 (open_of opened) place }
    {
        set_place(&mut self.opens, file.0, opened, place);
    }

    // Reads at most so many bytes.
    pub fn read(&mut self, file: Handle, most: usize, into: &mut [u8]) -> Result<usize, DiskError>
        requires { IsSome ((known_of self.old).live file.0) }
        ensures { ReadsAt (known_of self.old) file.0 most into.new result (known_of self.new) }
    {
        let opened = open_file(&self.opens, file.0);
        if opened.kind != Kind::File || !opened.how.read {
            return Err(DiskError::IsDir);
        }
        let count = copy_from(
            bytes_at(&self.files, opened.number),
            opened.place,
            most,
            into,
        );
        self.move_open(file, opened, opened.place + count as u64);
        Ok(count)
    }

    // Ends an open file.
    pub fn close(&mut self, file: Handle)
        ensures { known_of self.new ≡ with_closed (known_of self.old) file.0 }
    {
        let _ = self.opens.remove(&file.0);
    }

    // Begins a listing of the directory at a path, under a lister that was free.
    pub fn list(&mut self, path: &FsPath) -> Result<Lister, DiskError>
        ensures { ListsAt (known_of self.old) path.now result (known_of self.new) }
    {
        let row = match look(&self.rows, path.as_slice()) {
            Ok(row) => row,
            Err(e) => return Err(e),
        };
        if row.kind != Kind::Dir {
            return Err(DiskError::NotDir);
        }
        let Some(lister) = free_key(&self.listings) else {
            return Err(DiskError::NoMemory);
        };
        let alloc: Global = self.rows.allocator();
        let Ok(listing) = listing_of(alloc, &mut self.rows, path.as_slice()) else {
            return Err(DiskError::NoMemory);
        };
        match self.listings.insert(lister, listing) {
            Ok(_) => Ok(Lister(lister)),
            Err(_) => Err(DiskError::NoMemory),
        }
    }

    // The next name of a listing, if there is one. Where memory is refused it is still to come.
    pub fn list_next(&mut self, at: Lister) -> Result<Option<Text>, NoMemory>
        requires { IsSome ((known_of self.old).world.listings at.0) }
        ensures next { IfOk result (λ found. NextAt (known_of self.old) at.0 found (known_of self.new)) }
        ensures plain { IfOk result (λ found. IfSome found (λ name. is_plain name ≡ true)) }
        ensures err { OnErr result (known_of self.new ≡ known_of self.old) }
    {
        take_name(&mut self.listings, at.0)
    }

    // Ends a listing.
    pub fn end_list(&mut self, at: Lister)
        ensures { known_of self.new ≡ with_names (known_of self.old) at.0 None }
    {
        let _ = self.listings.remove(&at.0);
    }

    // Whether no row and no file has the number.
    fn is_new(&self, number: u64) -> bool
        ensures { result ≡ is_new_number (known_of self.now).world number }
    {
        !has_number(self.rows.as_slice(), number) && !is_stored(&self.files, number)
    }

    // Whether a row of this number and time may be set at a path.
    pub fn can_add(&self, path: &FsPath, number: u64, time: FileTime) -> bool
        ensures { result ≡ the_can_add (known_of self.now).world path.now number time }
    {
        if !is_free(&self.rows, path.as_slice()) {
            return false;
        }
        if !self.is_new(number) {
            return false;
        }
        number < 0x8000_0000_0000_0000 && can_be_set(time)
    }

    // Sets a directory.
    pub fn add_dir(&mut self, path: &FsPath, number: u64, time: FileTime) -> Result<(), NoMemory>
        requires { the_can_add (known_of self.old).world path.now number time ≡ true }
        ensures ok { OnOk result (known_of self.new ≡ record (known_of self.old)
            { world = with_dir (known_of self.old).world path.now number time }) }
        ensures err { OnErr result (known_of self.new ≡ known_of self.old) }
    {
        let latest = later_of(self.latest, second_past(time));
        self.rows.push(Row {
            path: path.try_clone()?,
            kind: Kind::Dir,
            number,
            time,
        })?;
        self.greatest = self.greatest.max(number);
        self.latest = latest;
        Ok(())
    }

    // Sets a file with these bytes.
    pub fn add_file(
        &mut self,
        path: &FsPath,
        number: u64,
        time: FileTime,
        bytes: &[u8],
    ) -> Result<(), NoMemory>
        requires { the_can_add (known_of self.old).world path.now number time ≡ true }
        ensures ok { OnOk result (known_of self.new ≡ record (known_of self.old)
            { world = with_file (known_of self.old).world path.now number time bytes.now }) }
        ensures err { OnErr result (known_of self.new ≡ known_of self.old) }
    {
        let latest = later_of(self.latest, second_past(time));
        let alloc: Global = self.rows.allocator();
        let row = Row {
            path: path.try_clone()?,
            kind: Kind::File,
            number,
            time,
        };
        let bytes = Vec::from_slice(alloc, bytes)?;
        self.files.insert(number, StoredFile { bytes, time })?;
        if self.rows.push(row).is_err() {
            let _ = self.files.remove(&number);
            return Err(NoMemory);
        }
        self.greatest = self.greatest.max(number);
        self.latest = latest;
        Ok(())
    }

    // Adds a batch of changes to come.
    pub fn script(&mut self, batch: Vec<Change>) -> Result<(), NoMemory>
        ensures ok { OnOk result (known_of self.new ≡ record (known_of self.old)
            { world = with_batch (known_of self.old).world batch.items }) }
        ensures err { OnErr result (known_of self.new ≡ known_of self.old) }
    {
        self.script.push(Batch::new(batch))?;
        Ok(())
    }

    // Makes the next batch of changes, whole.
    pub fn turn(&mut self) -> Result<(), NoMemory>
        ensures ok { OnOk result (known_of self.new ≡ record (known_of self.old)
            { world = turned (known_of self.old).world }) }
        ensures err { OnErr result (known_of self.new ≡ known_of self.old) }
        ensures listings { (known_of self.new).world.listings ≡ (known_of self.old).world.listings }
    {
        if self.script.is_empty() {
            return Ok(());
        }
        let alloc: Global = self.rows.allocator();
        let mut drawn = Drawn::copy(&self.rows, &self.files, self.greatest, self.latest)?;
        drawn.make(self.script[0].as_slice())?;
        let _ = self.script.remove(0);
        drawn.give(
            &mut self.rows,
            &mut self.files,
            &mut self.greatest,
            &mut self.latest,
        );
        Ok(())
    }

    // Makes a change, where there is memory for it, as a batch makes it.
    fn make(&mut self, change: &Change) -> Result<(), DiskError>
        ensures ok { OnOk result (known_of self.new ≡ record (known_of self.old)
            { world = changed (known_of self.old).world change.now }) }
        ensures err { OnErr result ((known_of self.new ≡ known_of self.old) × (result ≡ Err OutOfMemory)) }
    {
        let alloc: Global = self.rows.allocator();
        let copy = Drawn::copy(&self.rows, &self.files, self.greatest, self.latest);
        let Ok(mut drawn) = copy else {
            return Err(DiskError::NoMemory);
        };
        if drawn.change(change).is_err() {
            return Err(DiskError::NoMemory);
        }
        drawn.give(
            &mut self.rows,
            &mut self.files,
            &mut self.greatest,
            &mut self.latest,
        );
        Ok(())
    }

    // Whether a next number, a tick and another after it are left, as a row that is made needs them.
    fn has_row_left(&self) -> bool
        ensures { result ≡ row_is_left (known_of self.now).world }
    {
        if self.greatest == u64::MAX {
            return false;
        }
        match tick(self.latest) {
            Some(time) => tick(time).is_some(),
            None => false,
        }
    }

    // Whether a tick is left, as it is needed where something goes.
    fn has_tick_left(&self) -> bool
        ensures { result ≡ is_some (the_tick (known_of self.now).world.latest) }
    {
        tick(self.latest).is_some()
    }

    // Whether a tick is left for each directory whose names a move changes.
    fn has_move_left(&self, from: &[Text], to: &[Text]) -> bool
        ensures { result ≡ move_is_left from.now to.now (known_of self.now).world }
    {
        let Some(time) = tick(self.latest) else {
            return false;
        };
        if parent_of(from) == parent_of(to) {
            return true;
        }
        tick(time).is_some()
    }

    // Makes a directory.
    fn create_dir(&mut self, path: &FsPath) -> Result<(), DiskError>
        ensures { MakesAt (making_dir (known_of self.old).world.tree path.now) (known_of self.old) result
            (known_of self.new) }
    {
        if let Err(e) = may_make_dir(&self.rows, path.as_slice()) {
            return Err(e);
        }
        if !self.has_row_left() {
            return Err(DiskError::Failed);
        }
        let Ok(path) = path.try_clone() else {
            return Err(DiskError::NoMemory);
        };
        self.make(&Change::AddDir(path))
    }

    // Removes what stands at a path, where the tree allows it.
    fn remove(&mut self, path: &FsPath) -> Result<(), DiskError>
        requires { (taking_dir (known_of self.old).world.tree path.now ≡ Ok (Some (takes path.now)))
            ⊎ (taking_file (known_of self.old).world.tree path.now ≡ Ok (Some (takes path.now))) }
        ensures { MakesAt (Ok (Some (takes path.now))) (known_of self.old) result (known_of self.new) }
    {
        if !self.has_tick_left() {
            return Err(DiskError::Failed);
        }
        let Ok(path) = path.try_clone() else {
            return Err(DiskError::NoMemory);
        };
        self.make(&Change::Remove(path))
    }

    // Removes a directory without members.
    fn remove_dir(&mut self, path: &FsPath) -> Result<(), DiskError>
        ensures { MakesAt (taking_dir (known_of self.old).world.tree path.now) (known_of self.old) result
            (known_of self.new) }
    {
        match may_take_dir(&self.rows, path.as_slice()) {
            Ok(()) => self.remove(path),
            Err(e) => Err(e),
        }
    }

    // Removes what is no directory.
    fn remove_file(&mut self, path: &FsPath) -> Result<(), DiskError>
        ensures { MakesAt (taking_file (known_of self.old).world.tree path.now) (known_of self.old) result
            (known_of self.new) }
    {
        match may_take_file(&self.rows, path.as_slice()) {
            Ok(()) => self.remove(path),
            Err(e) => Err(e),
        }
    }

    // Moves what stands at a path to another.
    fn rename(&mut self, from: &FsPath, to: &FsPath) -> Result<(), DiskError>
        ensures { MakesAt (moving (known_of self.old).world.tree from.now to.now) (known_of self.old) result
            (known_of self.new) }
    {
        let moves = match may_move(&self.rows, from.as_slice(), to.as_slice()) {
            Ok(moves) => moves,
            Err(e) => return Err(e),
        };
        if !moves {
            return Ok(());
        }
        if !self.has_move_left(from.as_slice(), to.as_slice()) {
            return Err(DiskError::Failed);
        }
        let Ok(from) = from.try_clone() else {
            return Err(DiskError::NoMemory);
        };
        let Ok(to) = to.try_clone() else {
            return Err(DiskError::NoMemory);
        };
        self.make(&Change::Rename(from, to))
    }

    // Makes a file with the bytes of another.
    fn copy_new(&mut self, number: u64, to: &FsPath) -> Result<(), DiskError>
        requires { is_free_in (known_of self.old).world.tree to.now ≡ true }
        ensures { MakesAt (Ok (Some (makes to.now TheFile (bytes_of (known_of self.old).world number))))
            (known_of self.old) result (known_of self.new) }
    {
        if !self.has_row_left() {
            return Err(DiskError::Failed);
        }
        let Ok(path) = to.try_clone() else {
            return Err(DiskError::NoMemory);
        };
        let alloc: Global = self.rows.allocator();
        let Ok(bytes) = Vec::from_slice(alloc, bytes_at(&self.files, number)) else {
            return Err(DiskError::NoMemory);
        };
        self.make(&Change::AddFile(path, Octets::new(bytes)))
    }

    // Gives a file the bytes of another.
    fn copy_over(&mut self, number: u64, there: u64) -> Result<(), DiskError>
        requires given { there ≤ self.old.greatest }
        requires file { NamesNoDir self.old.rows there }
        ensures { MakesAt (Ok (Some (fills there (bytes_of (known_of self.old).world number)))) (known_of self.old)
            result (known_of self.new) }
    {
        let bytes = bytes_at(&self.files, number);
        if bytes == bytes_at(&self.files, there) {
            return Ok(());
        }
        let Some(time) = tick(self.latest) else {
            return Err(DiskError::Failed);
        };
        let alloc: Global = self.rows.allocator();
        let Ok(copy) = Vec::from_slice(alloc, bytes) else {
            return Err(DiskError::NoMemory);
        };
        self.store(there, copy, time)
    }

    // What a copy from a path to another makes.
    fn judge_copy(&self, from: &FsPath, to: &FsPath) -> Result<Copying, DiskError>
        ensures { MatchResult result (λ c. copies (known_of self.now).world.tree from.now to.now ≡ Ok c)
            (λ e. copies (known_of self.now).world.tree from.now to.now ≡ Err e) }
    {
        may_copy(&self.rows, from.as_slice(), to.as_slice())
    }

    // Copies a file's bytes into the file at another path.
    fn copy(&mut self, from: &FsPath, to: &FsPath) -> Result<(), DiskError>
        ensures { MakesAt (copying (known_of self.old).world from.now to.now) (known_of self.old) result
            (known_of self.new) }
    {
        match self.judge_copy(from, to) {
            Err(e) => Err(e),
            Ok(Copying::Stays) => Ok(()),
            Ok(Copying::Makes(number)) => self.copy_new(number, to),
            Ok(Copying::Fills(number, there)) => self.copy_over(number, there),
        }
    }

    // Does what a call asks for.
    pub fn perform(&mut self, call: PathCall) -> Result<(), DiskError>
        ensures { MakesAt (allows call.entry (known_of self.old).world) (known_of self.old) result (known_of self.new) }
    {
        match call {
            PathCall::CreateDir(path) => self.create_dir(path),
            PathCall::RemoveDir(path) => self.remove_dir(path),
            PathCall::RemoveFile(path) => self.remove_file(path),
            PathCall::Rename(from, to) => self.rename(from, to),
            PathCall::Copy(from, to) => self.copy(from, to),
        }
    }

    // Stores the bytes of a file with a tick, which its row gets too.
    fn store(&mut self, number: u64, bytes: Vec<u8>, time: FileTime) -> Result<(), DiskError>
        requires given { number ≤ self.old.greatest }
        requires file { NamesNoDir self.old.rows number }
        requires ticked { the_tick self.old.latest ≡ Some time }
        ensures ok { OnOk result (known_of self.new ≡ record (known_of self.old)
            { world = filled_now number bytes.items time (known_of self.old).world }) }
        ensures err { OnErr result ((known_of self.new ≡ known_of self.old) × (result ≡ Err OutOfMemory)) }
        ensures opens { self.new.opens ≡ self.old.opens }
    {
        if store_file(&mut self.files, number, bytes, time).is_err() {
            return Err(DiskError::NoMemory);
        }
        self.rows.set_number_time(number, time);
        self.latest = time;
        Ok(())
    }

    // Writes bytes into the file of a number, from a place on, and answers the place behind them.
    fn write_into(&mut self, number: u64, place: u64, from: &[u8]) -> Result<u64, DiskError>
        requires given { number ≤ self.old.greatest }
        requires file { NamesNoDir self.old.rows number }
        requires some { 0 < length from.now }
        ensures made { MakesAt
            (Ok (Some (fills number (written place from.now (bytes_of (known_of self.old).world number)))))
            (known_of self.old) (to_unit result) (known_of self.new) }
        ensures end { IfOk result (λ end. end ≡ place + length from.now) }
        ensures opens { self.new.opens ≡ self.old.opens }
    {
        let bytes = bytes_at(&self.files, number);
        if let Some(end) = written_end(bytes, place, from) {
            return Ok(end);
        }
        let Some(time) = tick(self.latest) else {
            return Err(DiskError::Failed);
        };
        let Some(end) = place.checked_add(from.len() as u64) else {
            return Err(DiskError::NoMemory);
        };
        let alloc: Global = self.rows.allocator();
        let Ok(all) = spliced(alloc, bytes, place, from) else {
            return Err(DiskError::NoMemory);
        };
        match self.store(number, all, time) {
            Ok(()) => Ok(end),
            Err(e) => Err(e),
        }
    }

    // The place at which an open file is written.
    fn place_of(&self, opened: Opened) -> u64
        ensures { result ≡ write_place opened.how.append (known_of self.now).world (open_of opened) }
    {
        if opened.how.append {
            return bytes_at(&self.files, opened.number).len() as u64;
        }
        opened.place
    }

    // Writes bytes at an open file's place, or at its end.
    pub fn write(&mut self, file: Handle, from: &[u8]) -> Result<usize, DiskError>
        requires live { IsSome ((known_of self.old).live file.0) }
        requires some { 0 < length from.now }
        ensures { WritesAt (known_of self.old) file.0 from.now result (known_of self.new) }
    {
        let opened = open_file(&self.opens, file.0);
        if !can_be_written(opened) {
            return Err(DiskError::IsDir);
        }
        let place = self.place_of(opened);
        let end = match self.write_into(opened.number, place, from) {
            Ok(end) => end,
            Err(e) => return Err(e),
        };
        self.move_open(file, opened, end);
        Ok(from.len())
    }

    // Opens the file or directory of a number under a handle that was free.
    fn open_number(
        &mut self,
        number: u64,
        kind: Kind,
        how: OpenOptions,
    ) -> Result<Handle, DiskError>
        requires given { number ≤ self.old.greatest }
        requires kept { kind ≡ AFile → is_some (stored_at self.old.files number) ≡ true }
        ensures { OpensBy None number kind how (known_of self.old) result (known_of self.new) }
    {
        let Some(handle) = free_key(&self.opens) else {
            return Err(DiskError::NoMemory);
        };
        let opened = Opened {
            number,
            place: 0,
            kind,
            how,
        };
        match self.opens.insert(handle, opened) {
            Ok(_) => Ok(Handle(handle)),
            Err(_) => Err(DiskError::NoMemory),
        }
    }

    // Takes all bytes from a file.
    fn empty(&mut self, number: u64) -> Result<(), DiskError>
        requires given { number ≤ self.old.greatest }
        requires file { NamesNoDir self.old.rows number }
        ensures { MakesAt (Ok (Some (fills number []))) (known_of self.old) result (known_of self.new) }
    {
        if bytes_at(&self.files, number).is_empty() {
            return Ok(());
        }
        let Some(time) = tick(self.latest) else {
            return Err(DiskError::Failed);
        };
        let alloc: Global = self.rows.allocator();
        self.store(number, Vec::new(alloc), time)
    }

    // Whether a file has no bytes, or a tick is left with which they can be taken.
    fn can_empty(&self, number: u64) -> bool
        ensures { result ≡ not (is_none (edited (fills number []) (known_of self.now).world)) }
    {
        bytes_at(&self.files, number).is_empty() || tick(self.latest).is_some()
    }

    // Takes all bytes from a file and opens it.
    fn open_emptied(
        &mut self,
        number: u64,
        kind: Kind,
        how: OpenOptions,
    ) -> Result<Handle, DiskError>
        requires given { number ≤ self.old.greatest }
        requires kept { is_some (stored_at self.old.files number) ≡ true }
        ensures { OpensBy (Some (fills number [])) number kind how (known_of self.old) result (known_of self.new) }
    {
        if !self.can_empty(number) {
            return Err(DiskError::Failed);
        }
        let handle = match self.open_number(number, kind, how) {
            Ok(handle) => handle,
            Err(e) => return Err(e),
        };
        match self.empty(number) {
            Ok(()) => Ok(handle),
            Err(e) => {
                self.close(handle);
                Err(e)
            }
        }
    }

    // Makes a file and opens it.
    fn open_new(&mut self, path: &FsPath, how: OpenOptions) -> Result<Handle, DiskError>
        requires { the_place (known_of self.old).world.tree path.now ≡ Ok None }
        ensures { OpensBy (Some (makes path.now TheFile [])) ((known_of self.old).world.greatest + 1) TheFile how
            (known_of self.old) result (known_of self.new) }
    {
        if !self.has_row_left() {
            return Err(DiskError::Failed);
        }
        let Some(handle) = free_key(&self.opens) else {
            return Err(DiskError::NoMemory);
        };
        let alloc: Global = self.rows.allocator();
        let copy = Drawn::copy(&self.rows, &self.files, self.greatest, self.latest);
        let Ok(mut drawn) = copy else {
            return Err(DiskError::NoMemory);
        };
        if drawn.add_file(path, &[]).is_err() {
            return Err(DiskError::NoMemory);
        }
        let opened = Opened {
            number: self.greatest + 1,
            place: 0,
            kind: Kind::File,
            how,
        };
        if self.opens.insert(handle, opened).is_err() {
            return Err(DiskError::NoMemory);
        }
        drawn.give(
            &mut self.rows,
            &mut self.files,
            &mut self.greatest,
            &mut self.latest,
        );
        Ok(Handle(handle))
    }

    // Opens what stands at a path, or makes a file there, under a handle that was free.
    pub fn open(&mut self, path: &FsPath, how: OpenOptions) -> Result<Handle, DiskError>
        ensures { OpensAs (known_of self.old) path.now how result (known_of self.new) }
    {
        let (number, kind) = match may_open(&self.rows, path.as_slice(), how) {
            Ok(Some(row)) => (row.number, row.kind),
            Ok(None) => return self.open_new(path, how),
            Err(e) => return Err(e),
        };
        if empties(kind, how) {
            return self.open_emptied(number, kind, how);
        }
        self.open_number(number, kind, how)
    }
}
