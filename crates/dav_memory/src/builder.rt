ghost use Rattle.std.specs.Prelude.{◌≡◌, [], ◌∷◌, ◌++◌, Some, OnOk, OnErr, true};
ghost use Rattle.std.specs.List.{list_all};
ghost use Rattle.dav_memory.specs.Trees.{is_dot};
ghost use Rattle.dav_memory.specs.Entries.{are_sealable, dir_key, in_order};
ghost use Rattle.dav_memory.specs.Memory.{SealsIn};
ghost use Rattle.dav_memory.specs.Entries.{one_time as the_one_time};
ghost use Rattle.dav_memory.specs.Builder as builder;

use crate::times::is_time;
use crate::{DuKey, Remember, Sealed};
use dav_core::{Disk, DiskError, FileTime, FsPath, Kind, Meta};
use dav_io::{Moment, NoMemory, Text};
use std::alloc::Global;
use std::marker::Model;

/// Gathers the names of a listing that begin with `._`, to be sealed at its end. A contract sees them in order and each
/// once, however they were added.
#[derive(Drop)]
pub struct DUCacheBuilder {
    key: DuKey,
    before: Option<FileTime>,
    // As they came. Only `finish` puts them in order.
    names: Vec<Text>,
    faulted: bool,
    finished: bool,
}

impl Model for DUCacheBuilder {
    ghost use Rattle.std.specs.Prelude.{◌≡◌, None, true};
    ghost use Rattle.dav_memory.specs.Builder.{BuilderState};
    ghost use Rattle.std.specs.List.{list_all};
    ghost use Rattle.dav_memory.specs.Trees.{is_dot};
    ghost use Rattle.dav_memory.specs.Entries.{in_order};

    ghost Value = { BuilderState };

    ghost view = { λ b. record {
      dir = b.key.dir;
      before = b.before;
      names = in_order b.names.items;
      faulted = b.faulted;
      finished = b.finished;
    } };

    ghost invariant = { λ b. (b.key.name ≡ None) × (list_all is_dot b.names.items ≡ true) };
}

impl DUCacheBuilder {
    /// Begins a listing: asks the disk for the directory's time.
    pub fn start<D: Disk>(alloc: Global, dir: FsPath, disk: &mut D) -> Self
        ensures done { builder.Starts (D.state disk.old) dir result (D.state disk.new) }
        ensures loan { D.loan disk.new ≡ D.loan disk.old }
    {
        let before = time_found(disk.meta(&dir));
        DUCacheBuilder {
            key: DuKey { dir, name: None },
            before,
            names: Vec::new(alloc),
            faulted: false,
            finished: false,
        }
    }

    /// Keeps a name of the listing, where it begins with `._`. Memory that is refused is a listing fault too.
    pub fn add(&mut self, name: &str) -> Result<(), NoMemory>
        ensures ok { OnOk result (self.new ≡ builder.with_name name.now self.old) }
        ensures err { OnErr result (self.new ≡ record self.old { faulted = true }) }
    {
        if !begins_dot(name.as_bytes()) {
            return Ok(());
        }
        let alloc: Global = *self.names.allocator();
        match keep(&mut self.names, alloc, name) {
            Ok(()) => Ok(()),
            Err(error) => {
                self.faulted = true;
                Err(error)
            }
        }
    }

    /// Notes a listing fault: nothing will be sealed.
    pub fn fault(&mut self)
        ensures { self.new ≡ record self.old { faulted = true } }
    {
        self.faulted = true;
    }

    /// Ends the listing: asks the disk for the directory's time again, and seals the names where both times are known
    /// and equal and no fault was noted. It is ended then also where memory is refused, and a second end does nothing.
    pub fn finish<D: Disk, R: Remember>(
        &mut self,
        disk: &mut D,
        memory: &mut R,
        now: Moment,
    ) -> Result<(), NoMemory>
        ensures done { builder.Finishes R.state self.old.finished
            (record { builder = self.old; disk = D.state disk.old; memory = memory.old }) now result
            (record { builder = self.new; disk = D.state disk.new; memory = memory.new }) }
        ensures loan { D.loan disk.new ≡ D.loan disk.old }
    {
        if self.finished {
            return Ok(());
        }
        let before = self.may_settle();
        self.finished = true;
        let after = time_found(disk.meta(&self.key.dir));
        let Some(time) = one_time(before, after) else {
            return Ok(());
        };
        match self.seal_into(memory, time, now) {
            Sealed::NoMemory => Err(NoMemory),
            Sealed::Done | Sealed::Last => Ok(()),
        }
    }

    // Seals the names with a time that the directory has.
    fn seal_into<R: Remember>(&mut self, memory: &mut R, time: FileTime, now: Moment) -> Sealed
        ensures sealed { SealsIn (R.state memory.old) (dir_key self.old.dir) time self.old.names now result
            (R.state memory.new) }
        ensures same { self.new ≡ self.old }
    {
        put_in_order(&mut self.names);
        let alloc: Global = *self.names.allocator();
        memory.seal(alloc, &self.key, time, self.names.as_slice(), now)
    }

    // The time that the names may be sealed with, if the directory still has it.
    fn may_settle(&self) -> Option<FileTime>
        ensures { result ≡ builder.may_settle self.now }
    {
        if self.finished {
            return None;
        }
        if self.faulted { None } else { self.before }
    }
}

// The time of a directory that was found.
fn time_found(found: Result<Meta, DiskError>) -> Option<FileTime>
    ensures { result ≡ builder.time_found found }
{
    match found {
        Ok(meta) => if meta.kind == Kind::Dir {
            meta.modified
        } else {
            None
        },
        Err(_) => None,
    }
}

// The time that was found before and after.
fn one_time(before: Option<FileTime>, after: Option<FileTime>) -> Option<FileTime>
    ensures { result ≡ the_one_time before after }
{
    let before = before?;
    if is_time(before, after) {
        Some(before)
    } else {
        None
    }
}

// Whether the bytes of a name begin with `._`.
fn begins_dot(name: &[u8]) -> bool
    ensures { result ≡ is_dot name.now }
{
    match name {
        [a, b, ..] => *a == b'.' && *b == b'_',
        _ => false,
    }
}

// Adds a name.
fn keep(names: &mut Vec<Text>, alloc: Global, name: &str) -> Result<(), NoMemory>
    ensures ok { OnOk result (names.new.items ≡ names.old.items ++ name.now ∷ []) }
    ensures err { OnErr result (names.new.items ≡ names.old.items) }
{
    names.push(Text::copy(alloc, name)?)?;
    Ok(())
}

// Puts names that begin with `._` in order, each once. It takes no memory.
fn put_in_order(names: &mut Vec<Text>)
    requires { list_all is_dot names.old.items ≡ true }
    ensures value { names.new.items ≡ in_order names.old.items }
    ensures same { in_order names.new.items ≡ in_order names.old.items }
    ensures dots { list_all is_dot names.new.items ≡ true }
    ensures sealable { are_sealable names.new.items ≡ true }
{
    names.sort_unstable();
    names.dedup();
}
