// The table of open files.
ghost use Rattle.std.specs.Prelude.{◌≡◌, ◌≤◌, ◌<◌, ◌^◌, ◌⊎◌, ℕ, true, nat_le, Some, None, IsSome, IfOk, IfErr, IfSome, IfNone, OnOk, OnErr, length, option_map};
ghost use Rattle.dav_core.specs.World.{put};
ghost use Rattle.dav_core.specs.Disk.{can_read as the_can_read, may_change as the_may_change};
ghost use Rattle.dav_core.specs.Writing.{can_write as the_can_write};
ghost use Rattle.dav_host.specs.Host.{live_at, live_of};
ghost use Rattle.dav_host.specs.Places.{is_only_read as the_is_only_read, last_place, place_at, sought, behind, SeeksAt, ReadsAt};

use crate::meta::told;
use crate::stream::{read_again, read_again_at, write_again};
use dav_core::{DiskError, Kind, Meta, OpenOptions};
use dav_io::NoMemory;
use std::alloc::Global;
use std::collections::BTreeMap;
use std::fs::OpenFile;
use std::io::{Read, Seek, SeekFrom, Write};
use std::os::unix::fs::FileExt;

// The last place that a call of the machine can name, 2^63 - 1.
const LAST_PLACE: u64 = 0x7FFF_FFFF_FFFF_FFFF;

// An open file of the machine, with the kind that was seen when it was opened, and how it was opened.
#[derive(Drop)]
pub struct HostFile<F> {
    pub file: F,
    pub kind: Kind,
    pub how: OpenOptions,
    // Where a file that is only read is read next, once its place was set. Before, and of every other, the machine has it.
    pub place: Option<u64>,
}

// What the machine says of an open file. `Failed` is a fault.
pub fn open_meta<F: OpenFile>(file: &F) -> Result<Meta, DiskError>
    ensures { IfErr result (λ e. e ≡ DiskError.Failed) }
{
    match file.metadata() {
        Ok(found) => told(&found),
        Err(_) => Err(DiskError::Failed),
    }
}

// What the machine says of an open file, if it has still the kind that was seen when it was opened. `Failed` is a fault.
fn look_again<F: OpenFile>(opened: &HostFile<F>) -> Result<Meta, DiskError>
    ensures kind { IfOk result (λ meta. meta.kind ≡ opened.now.kind) }
    ensures fault { IfErr result (λ e. e ≡ DiskError.Failed) }
{
    match open_meta(&opened.file) {
        Ok(meta) if meta.kind != opened.kind => Err(DiskError::Failed),
        answer => answer,
    }
}

// What was seen of an open file, which is told once, or else what the machine says of it now. `Failed` is a fault.
fn seen_or<F: OpenFile>(seen: &mut Option<Meta>, opened: &HostFile<F>) -> Result<Meta, DiskError>
    ensures kind { IfOk result (λ meta. meta.kind ≡ opened.now.kind) }
    ensures fault { IfErr result (λ e. e ≡ DiskError.Failed) }
{
    let Some(meta) = *seen else {
        return look_again(opened);
    };
    *seen = None;
    if meta.kind == opened.kind {
        return Ok(meta);
    }
    Err(DiskError::Failed)
}

// The open files, by their handles. That of handle 0 stands beside the map, so that one file at a time takes no memory.
#[derive(Drop)]
pub struct Opens<F> {
    pub first: Option<HostFile<F>>,
    pub others: BTreeMap<u32, HostFile<F>>,
    // What was seen of the file of handle 0 when it was opened, until it is asked for. It is kept only of a file that isn't
    // written.
    pub seen: Option<Meta>,
}

impl<F: Drop> Opens<F> {
    // No open file.
    #[tactic(auto, unfolding(crate::specs::Host::live_at))]
    pub fn new(alloc: Global) -> Opens<F>
        ensures { live_at result ≡ (λ _. None) }
    {
        Opens {
            first: None,
            others: BTreeMap::new(alloc),
            seen: None,
        }
    }

    // Keeps an open file by its handle.
    #[tactic(auto, unfolding(crate::specs::Host::live_at, crate::specs::Places::place_at))]
    fn insert(&mut self, handle: u32, file: HostFile<F>) -> Result<(), NoMemory>
        ensures ok { OnOk result (live_at self.new ≡ put handle (Some (live_of file)) (live_at self.old)) }
        ensures place { OnOk result (place_at self.new handle ≡ file.place) }
        ensures err { OnErr result (live_at self.new ≡ live_at self.old) }
    {
        if handle == 0 {
            self.first = Some(file);
            self.seen = None;
            return Ok(());
        }
        match self.others.insert(handle, file) {
            Ok(_) => Ok(()),
            Err(_) => Err(NoMemory),
        }
    }

    // Keeps a file that was opened so by its handle, and what was seen of it then. No place of it was set yet.
    #[tactic(auto, unfolding(crate::specs::Host::live_at, crate::specs::Places::place_at))]
    pub fn keep(
        &mut self,
        handle: u32,
        file: F,
        how: OpenOptions,
        seen: &Meta,
    ) -> Result<(), NoMemory>
        ensures ok { OnOk result (live_at self.new
            ≡ put handle (Some (record { kind = seen.now.kind; how = how })) (live_at self.old)) }
        ensures place { OnOk result (place_at self.new handle ≡ None) }
        ensures err { OnErr result (live_at self.new ≡ live_at self.old) }
    {
        let kind = seen.kind;
        let opened = HostFile {
            file,
            kind,
            how,
            place: None,
        };
        match self.insert(handle, opened) {
            Ok(()) => {}
            Err(error) => return Err(error),
        }
        if handle == 0 && !how.write && !how.append {
            self.seen = Some(*seen);
        }
        Ok(())
    }

    // Ends the open file of a handle, if there is one.
    #[tactic(auto, unfolding(crate::specs::Host::live_at))]
    pub fn remove(&mut self, handle: u32)
        ensures { live_at self.new ≡ put handle None (live_at self.old) }
    {
        if handle == 0 {
            self.first = None;
            return;
        }
        let _ = self.others.remove(&handle);
    }
}

// The least handle that isn't live, or none where all are.
#[tactic(auto, unfolding(crate::specs::Host::live_at))]
pub fn free_handle<F>(opens: &Opens<F>) -> Option<u32>
    ensures free { IfSome result (λ h. live_at opens.now h ≡ None) }
    ensures full { IfNone result ((h : ℕ) → h < 2 ^ 32 → IsSome (live_at opens.now h)) }
{
    if opens.first.is_none() {
        return Some(0);
    }
    for handle in 1..=u32::MAX {
        if !opens.others.contains_key(&handle) {
            return Some(handle);
        }
    }
    None
}

// Whether a regular file is open for reading.
fn is_read<F>(file: &HostFile<F>) -> bool
    ensures { result ≡ the_can_read (Some (live_of file.now)) }
{
    file.kind == Kind::File && file.how.read
}

// Whether a regular file was opened for reading.
#[tactic(auto, unfolding(crate::specs::Host::live_at))]
pub fn can_read<F>(opens: &Opens<F>, handle: u32) -> bool
    ensures { result ≡ the_can_read (live_at opens.now handle) }
{
    let found = if handle == 0 {
        opens.first.as_ref()
    } else {
        opens.others.get(&handle)
    };
    match found {
        Some(opened) => is_read(opened),
        None => false,
    }
}

// Whether a regular file is open to be written.
fn is_written<F>(file: &HostFile<F>) -> bool
    ensures { result ≡ the_can_write (Some (live_of file.now)) }
{
    file.kind == Kind::File && (file.how.write || file.how.append)
}

// Whether a regular file was opened to be written.
#[tactic(auto, unfolding(crate::specs::Host::live_at))]
pub fn can_write<F>(opens: &Opens<F>, handle: u32) -> bool
    ensures { result ≡ the_can_write (live_at opens.now handle) }
{
    let found = if handle == 0 {
        opens.first.as_ref()
    } else {
        opens.others.get(&handle)
    };
    match found {
        Some(opened) => is_written(opened),
        None => false,
    }
}

// Whether an opening may change what stands at its path, or make it.
pub fn may_change(how: OpenOptions) -> bool
    ensures { result ≡ the_may_change how }
{
    how.write || how.append || how.truncate || how.create || how.create_new
}

// What is said of an open file: first what was seen when it was opened. `Failed` is a fault.
#[tactic(auto, unfolding(crate::specs::Host::live_at))]
pub fn meta_at<F: OpenFile>(opens: &mut Opens<F>, handle: u32) -> Result<Meta, DiskError>
    ensures live { live_at opens.new ≡ live_at opens.old }
    ensures kind { IfOk result (λ meta. option_map (λ l. l.kind) (live_at opens.old handle) ≡ Some meta.kind) }
    ensures fault { IfErr result (λ e. e ≡ DiskError.Failed) }
{
    if handle != 0 {
        return match opens.others.get(&handle) {
            Some(opened) => look_again(opened),
            None => Err(DiskError::Failed),
        };
    }
    match &opens.first {
        Some(opened) => seen_or(&mut opens.seen, opened),
        None => Err(DiskError::Failed),
    }
}

// Reads on in a file: from the place that is kept, or else from where the machine has it. None is a fault.
fn read_on<F: Read + FileExt>(opened: &mut HostFile<F>, into: &mut [u8]) -> Option<usize>
    ensures live { live_of opened.new ≡ live_of opened.old }
    ensures place { opened.new.place ≡ behind opened.old.place result }
    ensures within { IfSome result (λ n. n ≤ length into.new) }
{
    let Some(place) = opened.place else {
        return read_again(&mut opened.file, into).ok();
    };
    match read_again_at(&opened.file, into, place) {
        Ok(count) => {
            opened.place = Some(place.saturating_add(count as u64));
            Some(count)
        }
        Err(_) => None,
    }
}

// Reads from an open file. None is a fault.
#[tactic(auto, unfolding(crate::specs::Host::live_at, crate::specs::Places::place_at))]
pub fn read_at<F: Read + FileExt>(
    opens: &mut Opens<F>,
    handle: u32,
    into: &mut [u8],
) -> Option<usize>
    ensures live { live_at opens.new ≡ live_at opens.old }
    ensures within { IfSome result (λ n. n ≤ length into.new) }
    ensures place { ReadsAt handle result opens.old opens.new }
{
    if handle == 0 {
        return match &mut opens.first {
            Some(opened) => read_on(opened, into),
            None => None,
        };
    }
    match opens.others.get_mut(&handle) {
        Some(opened) => read_on(opened, into),
        None => None,
    }
}

// Writes to an open file. None is a fault.
#[tactic(auto, unfolding(crate::specs::Host::live_at))]
pub fn write_at<F: Write>(opens: &mut Opens<F>, handle: u32, from: &[u8]) -> Option<usize>
    ensures live { live_at opens.new ≡ live_at opens.old }
    ensures within { IfSome result (λ n. n ≤ length from.now) }
    ensures some { IfSome result (λ n. 0 < n) }
{
    if handle == 0 {
        return match &mut opens.first {
            Some(opened) => write_again(&mut opened.file, from).ok(),
            None => None,
        };
    }
    match opens.others.get_mut(&handle) {
        Some(opened) => write_again(&mut opened.file, from).ok(),
        None => None,
    }
}

// Whether a regular file was opened to be read and for nothing else.
fn is_only_read<F>(file: &HostFile<F>) -> bool
    ensures { result ≡ the_is_only_read (live_of file.now) }
{
    file.kind == Kind::File && file.how.read && !(file.how.write || file.how.append)
}

// Sets the place of a file. Of one that is only read it is kept, and no call of the machine is made. False is a fault.
fn go_to<F: Seek>(opened: &mut HostFile<F>, place: u64) -> bool
    ensures live { live_of opened.new ≡ live_of opened.old }
    ensures place { opened.new.place ≡ sought (Some (live_of opened.old)) place result opened.old.place }
    ensures named { the_is_only_read (live_of opened.old) ≡ true → result ≡ nat_le place last_place }
{
    if !is_only_read(opened) {
        return opened.file.seek(SeekFrom::Start(place)).is_ok();
    }
    if place > LAST_PLACE {
        return false;
    }
    opened.place = Some(place);
    true
}

// Sets the place of an open file. False is a fault.
#[tactic(auto, unfolding(crate::specs::Host::live_at, crate::specs::Places::place_at))]
pub fn seek_at<F: Seek>(opens: &mut Opens<F>, handle: u32, place: u64) -> bool
    ensures live { live_at opens.new ≡ live_at opens.old }
    ensures place { SeeksAt handle place result opens.old opens.new }
{
    if handle == 0 {
        return match &mut opens.first {
            Some(opened) => go_to(opened, place),
            None => false,
        };
    }
    match opens.others.get_mut(&handle) {
        Some(opened) => go_to(opened, place),
        None => false,
    }
}
