// The tables of a disk in memory: files by their numbers, open files by their handles.
ghost use Rattle.std.specs.Prelude.{◌≡◌, ◌≤◌, ◌<◌, ◌+◌, ◌^◌, ℕ, [], None, Some, Option, IsSome, IfSome, IfNone, OnOk, OnErr, length, take, drop, min, true, is_some, option_map};
ghost use Rattle.dav_core.specs.World.{put, bytes_or_none, at_key};
ghost use Rattle.dav_disk.specs.Files.{stored_at, live_at, live_of};
ghost use Rattle.dav_core.specs.Writing.{can_write};

use dav_core::{FileTime, Kind, OpenOptions};
use dav_io::NoMemory;
use std::alloc::AllocError;
use std::collections::BTreeMap;

// The bytes of a file, and the time of its last change.
#[derive(Drop)]
pub struct StoredFile {
    pub bytes: Vec<u8>,
    pub time: FileTime,
}

impl Clone for StoredFile {
    ghost use Rattle.dav_disk.specs.Files.{stored_of};

    ghost is_clone = { λ file copy. stored_of copy ≡ stored_of file };

    fn clone(&self) -> Result<StoredFile, AllocError> {
        Ok(StoredFile {
            bytes: self.bytes.clone()?,
            time: self.time,
        })
    }
}

// An open file or directory: its number, the place at which it is read, its kind, and how it was opened.
#[derive(Clone, Copy)]
pub struct Opened {
    pub number: u64,
    pub place: u64,
    pub kind: Kind,
    pub how: OpenOptions,
}

// The bytes of a file number.
pub fn bytes_at(files: &BTreeMap<u64, StoredFile>, number: u64) -> &[u8]
    ensures { result.now ≡ bytes_or_none (stored_at files.now number) }
{
    match files.get(&number) {
        Some(file) => file.bytes.as_slice(),
        None => &[],
    }
}

// Whether a file has the number.
pub fn is_stored(files: &BTreeMap<u64, StoredFile>, number: u64) -> bool
    ensures { result ≡ is_some (stored_at files.now number) }
{
    files.get(&number).is_some()
}

// The time of a file number.
pub fn time_at(files: &BTreeMap<u64, StoredFile>, number: u64) -> Option<FileTime>
    ensures { result ≡ option_map (λ s. s.time) (stored_at files.now number) }
{
    match files.get(&number) {
        Some(file) => Some(file.time),
        None => None,
    }
}

// The open file of a live handle.
pub fn open_file(opens: &BTreeMap<u32, Opened>, handle: u32) -> Opened
    requires { IsSome (live_at opens.now handle) }
    ensures { at_key opens.now handle ≡ Some result }
{
    match opens.get(&handle) {
        Some(found) => *found,
        None => unreachable!(),
    }
}

// Whether an open file was opened to be written.
pub fn can_be_written(opened: Opened) -> bool
    ensures { result ≡ can_write (Some (live_of opened)) }
{
    opened.kind == Kind::File && (opened.how.write || opened.how.append)
}

// Stores a file under a number. Where memory is refused the files stay.
pub fn store_file(
    files: &mut BTreeMap<u64, StoredFile>,
    number: u64,
    bytes: Vec<u8>,
    time: FileTime,
) -> Result<(), NoMemory>
    ensures ok { OnOk result (stored_at files.new ≡ put number (Some (record { bytes = bytes.items; time = time }))
        (stored_at files.old)) }
    ensures err { OnErr result (stored_at files.new ≡ stored_at files.old) }
{
    files.insert(number, StoredFile { bytes, time })?;
    Ok(())
}

// Stores a file under a number.
pub fn put_file(
    files: &mut BTreeMap<u64, StoredFile>,
    number: u64,
    bytes: Vec<u8>,
    time: FileTime,
) -> Result<(), NoMemory>
    ensures { OnOk result (stored_at files.new ≡ put number (Some (record { bytes = bytes.items; time = time }))
        (stored_at files.old)) }
{
    store_file(files, number, bytes, time)
}

// Sets the place of an open file.
pub fn set_place(opens: &mut BTreeMap<u32, Opened>, handle: u32, opened: Opened, place: u64)
    requires { at_key opens.old handle ≡ Some opened }
    ensures { at_key opens.new ≡ put handle (Some (record opened { place = place })) (at_key opens.old) }
{
    if let Some(found) = opens.get_mut(&handle) {
        found.place = place;
    }
}

// Copies bytes from a place on, at most so many, and answers how many.
pub fn copy_from(bytes: &[u8], place: u64, most: usize, into: &mut [u8]) -> usize
    ensures count { result ≡ min most (min (length into.new) (length (drop place bytes.now))) }
    ensures copied { take result into.new ≡ take result (drop place bytes.now) }
    ensures fits { place + result < 2 ^ 64 }
{
    if place >= bytes.len() as u64 {
        return 0;
    }
    let (_, rest) = bytes.split_at(place as usize);
    let count = rest.len().min(into.len()).min(most);
    into[..count].copy_from_slice(&rest[..count]);
    count
}
