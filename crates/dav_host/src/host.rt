ghost use Rattle.std.specs.Prelude.{◌≡◌, ◌≢◌, ◌≤◌, ◌<◌, length, is_ok, None, Some, IsSome, IfOk, IfSome, IfErr, refl, string_bytes, string_capacity};
ghost use Rattle.dav_io.specs.Counts.{Rose, one_more};
ghost use Rattle.dav_host.specs.Host.{room, live_at, untold, never_told};
ghost use Rattle.dav_host.specs.Listings.{listers_at, BeginsAt, GoesAt};
ghost use Rattle.dav_host.specs.Places.{SeeksAt, ReadsAt};
ghost use Rattle.std.specs.Result.{result_ok};
ghost use Rattle.dav_core.specs.Disk.{Seeks, Reads};
ghost use Rattle.dav_core.specs.Listing.{Lists, ListsOn};
ghost use Rattle.dav_core.proofs.Untold.{untold_live};

use crate::listings::{HostListing, listing_of, next_name};
use crate::opens::{
    Opens, can_read, can_write, free_handle, may_change, meta_at, open_meta, read_at, seek_at,
    write_at,
};
use crate::paths::{ROOM, lay_path};
use crate::refusals::{list_refusal, open_refusal};
use crate::writing::{
    copy_file, look_at, look_at_link, make_dir, move_to, take_dir, take_file, way_of,
};
use dav_core::{Disk, DiskError, FsPath, Handle, Lister, Meta, OpenOptions, free_key};
use dav_io::{NoMemory, Text};
use std::alloc::Global;
use std::collections::BTreeMap;
use std::fs::ReadDir;
use std::os::unix::fs::{FileExt, OpenOptionsExt};
use std::rt::Files;
use std::{fs, io};

/// The machine's files below a folder. It doesn't tell what they hold, and keeps its counts, its live handles and its
/// live listers. A path whose text, with the folder's, has more than 8,192 bytes is a fault, as is every error of the
/// machine that has no refusal of its own, permission denied among them. So are names that can't be told, which aren't
/// UTF-8 or not plain: a listing gives all others first, and then one fault for them.
#[derive(Drop)]
pub struct HostDisk<R: Files + AllocGlobal + Clone + Drop> {
    rt: R,
    root: String,
    path: String,
    // The second path of a call that has two.
    other: String,
    faults: u64,
    asked: u64,
    opens: Opens<R::File>,
    listings: BTreeMap<u32, HostListing<R>>,
    ghost path_room: { room ≤ string_capacity path },
    ghost other_room: { room ≤ string_capacity other },
}

// Opens a file of the machine. New files may be read by everybody where `public` is set, and else by their owner alone.
// What isn't opened to be written isn't emptied.
fn open_file<R: Files>(rt: &R, path: &str, how: OpenOptions, public: bool) -> io::Result<R::File> {
    let mut options = fs::OpenOptions::new();
    options
        .read(how.read)
        .write(how.write)
        .append(how.append)
        .truncate(how.truncate && how.write)
        .create(how.create)
        .create_new(how.create_new)
        .mode(if public { 0o644 } else { 0o600 });
    options.open(rt, path)
}

impl<R: Files + AllocGlobal + Clone + Drop> HostDisk<R>
where
    R::File: FileExt,
{
    /// The folder `root`, with room for the texts of two paths.
    pub fn new(alloc: Global, rt: R, root: &str) -> Result<HostDisk<R>, NoMemory>
        ensures state { IfOk result (λ d. ⟦<HostDisk<R> as Disk>⟧.state d ≡ untold 0 0 (λ _. None) (λ _. None)) }
        ensures root { IfOk result (λ d. string_bytes d.root ≡ root.now) }
    {
        Ok(HostDisk {
            rt,
            root: String::from_str(alloc, root)?,
            path: String::with_capacity(alloc, ROOM)?,
            other: String::with_capacity(alloc, ROOM)?,
            faults: 0,
            asked: 0,
            opens: Opens::new(alloc),
            listings: BTreeMap::new(alloc),
        })
    }

    /// How many faults were met. It stays at the greatest u64 once it is there.
    pub fn faults(&self) -> u64
        ensures { result ≡ (⟦<HostDisk<R> as Disk>⟧.state self.now).faults }
    {
        self.faults
    }

    // Counts a fault.
    fn fault(&mut self) -> DiskError
        ensures failed { result ≡ DiskError.Failed }
        ensures met { self.new.faults ≡ one_more self.old.faults }
        ensures counts { self.old.faults ≤ self.new.faults }
        ensures rose { Rose self.old.faults self.new.faults }
        ensures asked { self.new.asked ≡ self.old.asked }
        ensures opens { self.new.opens ≡ self.old.opens }
        ensures listings { self.new.listings ≡ self.old.listings }
    {
        self.faults = self.faults.saturating_add(1);
        DiskError::Failed
    }

    // Counts a fault, unless memory was refused.
    fn counted(&mut self, error: DiskError) -> DiskError
        ensures same { result ≡ error }
        ensures counts { self.old.faults ≤ self.new.faults }
        ensures rose { error ≡ DiskError.Failed → Rose self.old.faults self.new.faults }
        ensures asked { self.new.asked ≡ self.old.asked }
        ensures opens { self.new.opens ≡ self.old.opens }
        ensures listings { self.new.listings ≡ self.old.listings }
    {
        match error {
            DiskError::NoMemory => DiskError::NoMemory,
            other => {
                let _ = self.fault();
                other
            }
        }
    }
}

impl<R: Files + AllocGlobal + Clone + Drop> Disk for HostDisk<R>
where
    R::File: FileExt,
{
    ghost state = { λ d. untold d.faults d.asked (live_at d.opens) (listers_at d.listings) };

    fn meta(&mut self, path: &FsPath) -> Result<Meta, DiskError> {
        self.asked = self.asked.saturating_add(1);
        if !lay_path(&mut self.path, self.root.as_str(), path.as_slice()) {
            return Err(self.fault());
        }
        match look_at(&self.rt, self.path.as_str()) {
            Err(DiskError::Failed) => Err(self.fault()),
            answer => answer,
        }
    }

    fn link_meta(&mut self, path: &FsPath) -> Result<Meta, DiskError> {
        self.asked = self.asked.saturating_add(1);
        if !lay_path(&mut self.path, self.root.as_str(), path.as_slice()) {
            return Err(self.fault());
        }
        let is_root = path.as_slice().is_empty();
        match look_at_link(&self.rt, self.path.as_str(), is_root) {
            Err(DiskError::Failed) => Err(self.fault()),
            answer => answer,
        }
    }

    fn open(&mut self, path: &FsPath, how: OpenOptions, public: bool) -> Result<Handle, DiskError> {
        self.asked = self.asked.saturating_add(1);
        let Some(handle) = free_handle(&self.opens) else {
            return Err(DiskError::NoMemory);
        };
        if !lay_path(&mut self.path, self.root.as_str(), path.as_slice()) {
            return Err(self.fault());
        }
        let file = match open_file(&self.rt, self.path.as_str(), how, public) {
            Ok(file) => file,
            Err(error) => match open_refusal(&error, may_change(how)) {
                Some(e) => return Err(e),
                None => return Err(self.fault()),
            },
        };
        let Ok(meta) = open_meta(&file) else {
            return Err(self.fault());
        };
        match self.opens.keep(handle, file, how, &meta) {
            Ok(()) => Ok(Handle(handle)),
            Err(_) => Err(DiskError::NoMemory),
        }
    }

    fn file_meta(&mut self, file: Handle) -> Result<Meta, DiskError> {
        self.asked = self.asked.saturating_add(1);
        match meta_at(&mut self.opens, file.0) {
            Err(DiskError::Failed) => Err(self.fault()),
            answer => answer,
        }
    }

    /// Of a file that is opened to be read alone the place is kept here, and the machine isn't asked: each read behind it is
    /// one call, at that place. Refused are places that no call can name, above 2^63 - 1; where the machine has more to
    /// say of a place, the next read does.
    fn seek(&mut self, file: Handle, place: u64) -> Result<(), DiskError>
        requires { IsSome ((⟦<HostDisk<R> as Disk>⟧.state self.old).live file.0) }
        ensures done { Seeks (⟦<HostDisk<R> as Disk>⟧.state self.old) file.0 place result (⟦<HostDisk<R> as Disk>⟧.state self.new) }
        ensures loan { ⟦<HostDisk<R> as Disk>⟧.loan self.new ≡ ⟦<HostDisk<R> as Disk>⟧.loan self.old }
        ensures place { SeeksAt file.0 place (is_ok result) self.old.opens self.new.opens }
    {
        self.asked = self.asked.saturating_add(1);
        if seek_at(&mut self.opens, file.0, place) {
            return Ok(());
        }
        Err(self.fault())
    }

    /// A place that is kept moves by what was read. It is that of this file alone.
    fn read(&mut self, file: Handle, into: &mut [u8]) -> Result<usize, DiskError>
        requires live { IsSome ((⟦<HostDisk<R> as Disk>⟧.state self.old).live file.0) }
        requires room { 0 < length into.old }
        ensures done { Reads (⟦<HostDisk<R> as Disk>⟧.state self.old) file.0 into.new result (⟦<HostDisk<R> as Disk>⟧.state self.new) }
        ensures loan { ⟦<HostDisk<R> as Disk>⟧.loan self.new ≡ ⟦<HostDisk<R> as Disk>⟧.loan self.old }
        ensures place { ReadsAt file.0 (result_ok result) self.old.opens self.new.opens }
    {
        self.asked = self.asked.saturating_add(1);
        if !can_read(&self.opens, file.0) {
            return Err(DiskError::IsDir);
        }
        match read_at(&mut self.opens, file.0, into) {
            Some(count) => Ok(count),
            None => Err(self.fault()),
        }
    }

    fn write(&mut self, file: Handle, from: &[u8]) -> Result<usize, DiskError> {
        self.asked = self.asked.saturating_add(1);
        if !can_write(&self.opens, file.0) {
            return Err(DiskError::IsDir);
        }
        match write_at(&mut self.opens, file.0, from) {
            Some(count) => Ok(count),
            None => Err(self.fault()),
        }
    }

    fn close(&mut self, file: Handle) {
        self.opens.remove(file.0);
    }

    /// A listing that is begun has missed no name.
    fn list(&mut self, path: &FsPath) -> Result<Lister, DiskError>
        ensures done { Lists (⟦<HostDisk<R> as Disk>⟧.state self.old) path.now result (⟦<HostDisk<R> as Disk>⟧.state self.new) }
        ensures loan { ⟦<HostDisk<R> as Disk>⟧.loan self.new ≡ ⟦<HostDisk<R> as Disk>⟧.loan self.old }
        ensures begins { BeginsAt self.old.listings result self.new.listings }
    {
        self.asked = self.asked.saturating_add(1);
        let Some(lister) = free_key(&self.listings) else {
            return Err(DiskError::NoMemory);
        };
        if !lay_path(&mut self.path, self.root.as_str(), path.as_slice()) {
            return Err(self.fault());
        }
        let names = match fs::read_dir(&self.rt, self.path.as_str()) {
            Ok(names) => names,
            Err(error) => match list_refusal(&error) {
                Some(e) => return Err(e),
                None => return Err(self.fault()),
            },
        };
        match self.listings.insert(lister, listing_of(names)) {
            Ok(_) => Ok(Lister(lister)),
            Err(_) => Err(DiskError::NoMemory),
        }
    }

    /// Names that can't be told are passed over and missed. The end of a listing that missed any is a fault, and no clean
    /// end; it is told once. Names that can be told are told before.
    fn list_next(&mut self, alloc: Global, at: Lister) -> Result<Option<Text>, DiskError>
        requires { IsSome (listers_at self.old.listings at.0) }
        ensures done { ListsOn (⟦<HostDisk<R> as Disk>⟧.state self.old) at.0 result (⟦<HostDisk<R> as Disk>⟧.state self.new) }
        ensures loan { ⟦<HostDisk<R> as Disk>⟧.loan self.new ≡ ⟦<HostDisk<R> as Disk>⟧.loan self.old }
        ensures goes { GoesAt ⟦<ReadDir<R, Global> as Iterator>⟧.next_gives at.0 self.old.listings result self.new.listings }
    {
        self.asked = self.asked.saturating_add(1);
        match next_name(alloc, &mut self.listings, at.0) {
            Ok(found) => Ok(found),
            Err(error) => Err(self.counted(error)),
        }
    }

    fn end_list(&mut self, at: Lister) {
        let _ = self.listings.remove(&at.0);
    }

    fn create_dir(&mut self, path: &FsPath, public: bool) -> Result<(), DiskError> {
        self.asked = self.asked.saturating_add(1);
        if !lay_path(&mut self.path, self.root.as_str(), path.as_slice()) {
            return Err(self.fault());
        }
        let is_root = path.as_slice().is_empty();
        match make_dir(&self.rt, self.path.as_str(), is_root, public) {
            Ok(()) => Ok(()),
            Err(Some(e)) => Err(e),
            Err(None) => Err(self.fault()),
        }
    }

    fn remove_dir(&mut self, path: &FsPath) -> Result<(), DiskError> {
        self.asked = self.asked.saturating_add(1);
        if !lay_path(&mut self.path, self.root.as_str(), path.as_slice()) {
            return Err(self.fault());
        }
        let is_root = path.as_slice().is_empty();
        match take_dir(&self.rt, self.path.as_str(), is_root) {
            Ok(()) => Ok(()),
            Err(Some(e)) => Err(e),
            Err(None) => Err(self.fault()),
        }
    }

    fn remove_file(&mut self, path: &FsPath) -> Result<(), DiskError> {
        self.asked = self.asked.saturating_add(1);
        if !lay_path(&mut self.path, self.root.as_str(), path.as_slice()) {
            return Err(self.fault());
        }
        let is_root = path.as_slice().is_empty();
        match take_file(&self.rt, self.path.as_str(), is_root) {
            Ok(()) => Ok(()),
            Err(Some(e)) => Err(e),
            Err(None) => Err(self.fault()),
        }
    }

    fn rename(&mut self, from: &FsPath, to: &FsPath) -> Result<(), DiskError> {
        self.asked = self.asked.saturating_add(1);
        if !lay_path(&mut self.path, self.root.as_str(), from.as_slice())
            || !lay_path(&mut self.other, self.root.as_str(), to.as_slice())
        {
            return Err(self.fault());
        }
        let way = way_of(from.as_slice(), to.as_slice());
        match move_to(&self.rt, self.path.as_str(), self.other.as_str(), way) {
            Ok(()) => Ok(()),
            Err(Some(e)) => Err(e),
            Err(None) => Err(self.fault()),
        }
    }

    fn copy(&mut self, from: &FsPath, to: &FsPath) -> Result<(), DiskError> {
        self.asked = self.asked.saturating_add(1);
        if !lay_path(&mut self.path, self.root.as_str(), from.as_slice())
            || !lay_path(&mut self.other, self.root.as_str(), to.as_slice())
        {
            return Err(self.fault());
        }
        match copy_file(&self.rt, self.path.as_str(), self.other.as_str()) {
            Ok(()) => Ok(()),
            Err(Some(e)) => Err(e),
            Err(None) => Err(self.fault()),
        }
    }

    fn turn(&mut self) -> Result<(), NoMemory> {
        Ok(())
    }

    ghost world = { λ d w e. never_told w e };

    ghost tells_live = { λ d. untold_live (untold d.faults d.asked (live_at d.opens) (listers_at d.listings)) refl };
}
