//! Calls of a local store whose names don't fold, one after the other.
//!
//!     look PATH               what stands at a path: its kind and length
//!     link PATH               the same, a link at its end not followed
//!     times PATH              the four times of what stands there
//!     tag PATH TAG            its entity tag, whether TAG is it, and whether its owner may run it
//!     home PATH PLACE         whether it would lie in a calendar or an address book at a place
//!     entry PATH              an entry of a listing with its metadata
//!     open PATH WORD..        opens a file so and closes it; a word is an option
//!     read PATH PLACE         four bytes from a place on, and the file's length
//!     give PATH COUNT         so many bytes at once, where the file sends a client, and a writing of nothing
//!     write PATH BYTES        writes bytes twice, as a slice and as a buffer
//!     list PATH WORD          the entries of a listing to its end, each with its metadata; WORD is `data`, `link` or
//!                             `none`
//!     members PATH            how many members are read, and each with kind, length and time
//!     rest PATH               the calls that change what stands, of the path and onto itself
//!
//! A row begins with `store`, and sets its disk as `scene.rt` says. What a call answers stands before a `|`.
ghost use Rattle.std.specs.Prelude.{◌≡◌};
ghost use Rattle.dav_store.specs.Listings.{HasLister};

use bytes::Bytes;
use dav_core::{DavMetaData, DavPath, FileTime, FsError, Kind, Member, OpenOptions};
use dav_disk::MemDisk;
use dav_io::{Moment, Text};
use dav_local::{EntryMeta, LocalFs, LocalFsDirEntry, LocalFsMetaData};
use dav_memory::Forget;
use dav_rows::{Line, word};
use dav_scenes::{bytes_of, number, set_disk, tell_bytes, tell_time};
use dav_store::{
    DavDirEntry, DavFile, DavFileSystem, GuardedFileSystem, ReadDirMeta, file_close, file_metadata,
    file_read, file_seek, read_members,
};
use std::alloc::Global;

type Store = LocalFs<MemDisk, Forget>;

// The most calls of a listing.
const MOST_ENTRIES: u32 = 100;

fn kind_word<M: DavMetaData>(meta: &M) -> &'static str {
    if meta.is_dir() {
        "dir"
    } else if meta.is_file() {
        "file"
    } else if meta.is_symlink() {
        "link"
    } else {
        "nothing"
    }
}

fn tell_length<M: DavMetaData>(line: &mut Line, meta: &M) {
    line.add(kind_word(meta));
    line.add_number(" ", meta.len());
}

fn tell_looked(line: &mut Line, answer: Result<LocalFsMetaData, FsError>) {
    match answer {
        Ok(meta) => tell_length(line, &meta),
        Err(error) => line.add_value(&error),
    }
}

fn look(line: &mut Line, store: &mut Store, path: &DavPath) {
    tell_looked(line, GuardedFileSystem::metadata(store, path, &()));
}

fn look_at_link(line: &mut Line, store: &mut Store, path: &DavPath) {
    tell_looked(line, GuardedFileSystem::symlink_metadata(store, path, &()));
}

fn meta_at(store: &mut Store, path: &DavPath) -> Result<LocalFsMetaData, FsError> {
    DavFileSystem::metadata(store, path)
}

fn tell_said_time(line: &mut Line, time: Result<FileTime, FsError>) {
    match time {
        Ok(time) => tell_time(line, time),
        Err(error) => line.add_value(&error),
    }
}

fn tell_times(line: &mut Line, meta: &LocalFsMetaData) {
    tell_said_time(line, meta.modified());
    line.add(", ");
    tell_said_time(line, meta.created());
    line.add(", ");
    tell_said_time(line, meta.accessed());
    line.add(", ");
    tell_said_time(line, meta.status_changed());
}

fn times(line: &mut Line, store: &mut Store, path: &DavPath) {
    match meta_at(store, path) {
        Ok(meta) => tell_times(line, &meta),
        Err(error) => line.add_value(&error),
    }
}

fn tag(alloc: Global, line: &mut Line, store: &mut Store, path: &DavPath, tag: &str) {
    match meta_at(store, path) {
        Ok(meta) => tell_run(alloc, line, &meta, tag),
        Err(error) => line.add_value(&error),
    }
}

fn tell_run(alloc: Global, line: &mut Line, meta: &LocalFsMetaData, tag: &str) {
    match meta.executable() {
        Ok(runs) => tell_tag(alloc, line, meta, tag, runs),
        Err(error) => line.add_value(&error),
    }
}

fn tell_tag(alloc: Global, line: &mut Line, meta: &LocalFsMetaData, tag: &str, runs: bool) {
    match meta.etag(alloc) {
        Ok(Some(text)) => line.add(text.as_str()),
        Ok(None) => line.add("none"),
        Err(_) => line.refuse(),
    }
    line.add_whether(" ", meta.has_tag(tag.as_bytes()));
    line.add_whether(" ", runs);
}

fn home(alloc: Global, line: &mut Line, store: &mut Store, path: &DavPath, place: &str) {
    match meta_at(store, path) {
        Ok(meta) => tell_home(alloc, line, &meta, place),
        Err(error) => line.add_value(&error),
    }
}

fn tell_home(alloc: Global, line: &mut Line, meta: &LocalFsMetaData, place: &str) {
    match DavPath::new(alloc, place) {
        Ok(place) => {
            line.add_whether("calendar ", meta.is_calendar(&place));
            line.add_whether(", address book ", meta.is_addressbook(&place));
        }
        Err(error) => line.add_value(&error),
    }
}

fn entry(line: &mut Line, store: &mut Store, path: &DavPath) {
    match meta_at(store, path) {
        Ok(meta) => entry_of(line, DavFileSystem::disk(store), path, meta),
        Err(error) => line.add_value(&error),
    }
}

// An entry of a listing. Its name is that of a path's last name, so it is plain.
fn entry_of(line: &mut Line, disk: &mut MemDisk, path: &DavPath, meta: LocalFsMetaData) {
    match path.names().as_slice().last() {
        Some(name) => match name.try_clone() {
            Ok(name) => {
                let entry = LocalFsDirEntry::new(name, EntryMeta::Read(Ok(meta)));
                tell_entry(line, disk, &entry);
            }
            Err(_) => line.refuse(),
        },
        None => line.refuse(),
    }
}

fn tell_entry(line: &mut Line, disk: &mut MemDisk, entry: &LocalFsDirEntry) {
    line.add(DavDirEntry::<MemDisk>::name(entry));
    match entry.metadata(disk) {
        Ok(meta) => line.add_number(" ", meta.len()),
        Err(error) => line.add_value(&error),
    }
    tell_kind(line, entry.is_dir(disk));
    tell_kind(line, entry.is_file(disk));
    tell_kind(line, entry.is_symlink(disk));
}

fn tell_kind(line: &mut Line, answer: Result<bool, FsError>) {
    match answer {
        Ok(is_so) => line.add_whether(" ", is_so),
        Err(error) => line.add_value(&error),
    }
}

fn options_of(words: &str) -> OpenOptions {
    let mut options = OpenOptions::read();
    for word in words.split(' ').skip(2) {
        match word {
            "unread" => options.read = false,
            "write" => options.write = true,
            "append" => options.append = true,
            "truncate" => options.truncate = true,
            "create" => options.create = true,
            "new" => options.create_new = true,
            _ => {}
        }
    }
    options
}

fn open(line: &mut Line, store: &mut Store, path: &DavPath, part: &str) {
    match GuardedFileSystem::open(store, path, options_of(part), &()) {
        Ok(file) => {
            file.close(DavFileSystem::disk(store));
            line.add("opened");
        }
        Err(error) => line.add_value(&error),
    }
}

// The first of two faults, or both answers.
fn both<A: Drop, B: Drop>(
    first: Result<A, FsError>,
    second: Result<B, FsError>,
) -> Result<(A, B), FsError> {
    match first {
        Ok(first) => match second {
            Ok(second) => Ok((first, second)),
            Err(error) => Err(error),
        },
        Err(error) => Err(error),
    }
}

fn length_of(meta: Result<LocalFsMetaData, FsError>) -> Result<u64, FsError> {
    match meta {
        Ok(meta) => Ok(meta.len()),
        Err(error) => Err(error),
    }
}

// Where a file was sought, how long it is, and how many bytes were read of it.
fn tell_read(
    line: &mut Line,
    sought: Result<u64, FsError>,
    len: Result<u64, FsError>,
    read: Result<usize, FsError>,
    into: &[u8],
) {
    match both(both(sought, len), read) {
        Ok(((at, len), count)) => {
            line.add_number("at ", at);
            line.add_number(" of ", len);
            line.add(": ");
            tell_bytes(line, into.get(..count).unwrap_or(b"?"));
        }
        Err(error) => line.add_value(&error),
    }
}

fn read(line: &mut Line, store: &mut Store, path: &DavPath, place: u64) {
    match GuardedFileSystem::open(store, path, OpenOptions::read(), &()) {
        Ok(mut file) => {
            let mut into = [0u8; 4];
            let sought = file_seek::<Store, ()>(store, &mut file, place);
            let read = file_read::<Store, ()>(store, &mut file, &mut into);
            let meta = file_metadata::<Store, ()>(store, &mut file);
            file_close::<Store, ()>(store, file);
            tell_read(line, sought, length_of(meta), read, &into);
        }
        Err(error) => line.add_value(&error),
    }
}

fn give(alloc: Global, line: &mut Line, store: &mut Store, path: &DavPath, count: u64) {
    let count = (count.min(10_000) as usize).max(1);
    match DavFileSystem::open(store, path, OpenOptions::read()) {
        Ok(mut file) => {
            let disk = DavFileSystem::disk(store);
            let bytes = file.read_bytes(alloc, disk, count);
            let address = file.redirect_url(alloc, disk);
            let nothing = file.write_bytes(disk, b"");
            let flushed = file.flush(disk);
            file.close(disk);
            tell_given(line, nothing, flushed, bytes, address);
        }
        Err(error) => line.add_value(&error),
    }
}

fn tell_given(
    line: &mut Line,
    nothing: Result<(), FsError>,
    flushed: Result<(), FsError>,
    bytes: Result<Bytes, FsError>,
    address: Result<Option<Text>, FsError>,
) {
    match both(both(nothing, flushed), both(bytes, address)) {
        Ok((_, (bytes, address))) => tell_sent(line, &bytes, address.is_some()),
        Err(error) => line.add_value(&error),
    }
}

fn tell_sent(line: &mut Line, bytes: &Bytes, elsewhere: bool) {
    tell_bytes(line, bytes.as_slice());
    line.add(if elsewhere { " elsewhere" } else { " here" });
}

fn tell_done(line: &mut Line, answer: Result<(), FsError>) {
    match answer {
        Ok(()) => line.add("done"),
        Err(error) => line.add_value(&error),
    }
}

fn tell_written(line: &mut Line, once: Result<(), FsError>, again: Result<(), FsError>) {
    tell_done(line, once);
    line.add(", ");
    tell_done(line, again);
}

// Writes bytes as a slice, and then as a buffer that has the same.
fn write_twice(line: &mut Line, store: &mut Store, path: &DavPath, bytes: &[u8], buffer: Bytes) {
    match DavFileSystem::open(store, path, OpenOptions::read()) {
        Ok(mut file) => {
            let disk = DavFileSystem::disk(store);
            let once = file.write_bytes(disk, bytes);
            let again = file.write_buf(disk, buffer);
            file.close(disk);
            tell_written(line, once, again);
        }
        Err(error) => line.add_value(&error),
    }
}

fn write_bytes(alloc: Global, line: &mut Line, store: &mut Store, path: &DavPath, bytes: &[u8]) {
    match Bytes::copy_from_slice(alloc, bytes) {
        Ok(buffer) => write_twice(line, store, path, bytes, buffer),
        Err(_) => line.refuse(),
    }
}

fn write(alloc: Global, line: &mut Line, store: &mut Store, path: &DavPath, cell: &str) {
    match bytes_of(alloc, cell) {
        Ok(bytes) => write_bytes(alloc, line, store, path, &bytes),
        Err(_) => line.refuse(),
    }
}

// Asks a listing for its entries, to its end. A fault is told, and the listing asked on.
fn list_on<S: GuardedFileSystem<()>>(
    store: &mut S,
    dir: &mut S::Dir,
    entries: &mut Vec<S::Entry>,
    line: &mut Line,
)
    requires live { HasLister (S.view.state store.old) (S.listings.lister dir.old) }
    ensures live { HasLister (S.view.state store.new) (S.listings.lister dir.new) }
    ensures lister { S.listings.lister dir.new ≡ S.listings.lister dir.old }
{
    'entries: for _ in 0..MOST_ENTRIES {
        match store.next_entry(dir) {
            Ok(Some(entry)) => {
                if entries.push(entry).is_err() {
                    line.refuse();
                }
            }
            Ok(None) => {
                line.add("end");
                return;
            }
            Err(error) => {
                line.add_value(&error);
                line.add(", ");
            }
        }
    }
}

fn tell_member(line: &mut Line, disk: &mut MemDisk, entry: &LocalFsDirEntry) {
    line.add(", ");
    line.add(DavDirEntry::<MemDisk>::name(entry));
    line.add(" ");
    match entry.metadata(disk) {
        Ok(meta) => tell_length(line, &meta),
        Err(error) => line.add_value(&error),
    }
}

fn wanted(word: &str) -> ReadDirMeta {
    match word {
        "none" => ReadDirMeta::None,
        "link" => ReadDirMeta::DataSymlink,
        _ => ReadDirMeta::Data,
    }
}

// Adds the entries of a listing, to its end.
fn add_entries(
    line: &mut Line,
    store: &mut Store,
    path: &DavPath,
    word: &str,
    entries: &mut Vec<LocalFsDirEntry>,
) {
    match DavFileSystem::read_dir(store, path, wanted(word)) {
        Ok(mut dir) => {
            list_on(store, &mut dir, entries, line);
            DavFileSystem::end_dir(store, dir);
        }
        Err(error) => line.add_value(&error),
    }
}

fn list(alloc: Global, line: &mut Line, store: &mut Store, path: &DavPath, word: &str) {
    let mut entries = Vec::new(alloc);
    add_entries(line, store, path, word, &mut entries);
    tell_entries(line, DavFileSystem::disk(store), &entries);
}

fn tell_entries(line: &mut Line, disk: &mut MemDisk, entries: &[LocalFsDirEntry]) {
    for entry in entries {
        tell_member(line, disk, entry);
    }
}

fn kind_of(kind: Kind) -> &'static str {
    match kind {
        Kind::Dir => " dir",
        Kind::File => " file",
        Kind::Link => " link",
    }
}

fn tell_listed(line: &mut Line, member: &Member) {
    line.tell(", ", member.name.as_str());
    line.add(kind_of(member.kind));
    line.add_number(" ", member.len);
    line.add(" ");
    match member.modified {
        Some(time) => tell_time(line, time),
        None => line.add("none"),
    }
}

fn tell_members(line: &mut Line, members: &[Member]) {
    line.add_number("", members.len() as u64);
    for member in members {
        tell_listed(line, member);
    }
}

fn members(alloc: Global, line: &mut Line, store: &mut Store, path: &DavPath) {
    match read_members(alloc, store, path, &()) {
        Ok(members) => tell_members(line, &members),
        Err(error) => line.add_value(&error),
    }
}

fn tell_change(line: &mut Line, answer: Result<(), FsError>) {
    tell_done(line, answer);
    line.add(", ");
}

// What the calls answer that change what stands.
fn change(line: &mut Line, store: &mut Store, path: &DavPath) {
    tell_change(line, GuardedFileSystem::create_dir(store, path, &()));
    tell_change(line, GuardedFileSystem::remove_dir(store, path, &()));
    tell_change(line, GuardedFileSystem::remove_file(store, path, &()));
    tell_change(line, GuardedFileSystem::rename(store, path, path, &()));
    tell_change(line, GuardedFileSystem::copy(store, path, path, &()));
}

fn rest(line: &mut Line, store: &mut Store, path: &DavPath) {
    change(line, store, path);
    GuardedFileSystem::<()>::set_now(store, Moment(5));
    line.add_whether("void ", GuardedFileSystem::<()>::is_void(store));
    line.add_whether(", folds ", GuardedFileSystem::<()>::folds(store));
}

// Makes the call of a part at a path.
fn call_at(alloc: Global, line: &mut Line, store: &mut Store, path: &DavPath, part: &str) {
    let third = word(part, 2);
    match word(part, 0) {
        "look" => look(line, store, path),
        "link" => look_at_link(line, store, path),
        "times" => times(line, store, path),
        "tag" => tag(alloc, line, store, path, third),
        "home" => home(alloc, line, store, path, third),
        "entry" => entry(line, store, path),
        "open" => open(line, store, path, part),
        "read" => read(line, store, path, number(third)),
        "give" => give(alloc, line, store, path, number(third)),
        "write" => write(alloc, line, store, path, third),
        "list" => list(alloc, line, store, path, third),
        "members" => members(alloc, line, store, path),
        "rest" => rest(line, store, path),
        _ => line.refuse(),
    }
}

// Makes the call of a part.
fn call(alloc: Global, line: &mut Line, store: &mut Store, part: &str) {
    match DavPath::new(alloc, word(part, 1)) {
        Ok(path) => call_at(alloc, line, store, &path, part),
        Err(error) => line.add_value(&error),
    }
    line.add(" | ");
}

fn call_all(alloc: Global, line: &mut Line, store: &mut Store, row: &str) {
    for part in row.split('|').skip(1) {
        if !set_disk(alloc, DavFileSystem::disk(store), line, part.trim()) {
            call(alloc, line, store, part.trim());
        }
    }
}

fn tell_counts(line: &mut Line, disk: &MemDisk) {
    line.add_number("asked ", disk.asked());
    line.add_number(", failed ", disk.faults());
}

fn tell_calls(alloc: Global, line: &mut Line, store: &mut Store, row: &str) {
    call_all(alloc, line, store, row);
    tell_counts(line, DavFileSystem::disk(store));
}

/// Adds what a store answers.
pub fn calls(alloc: Global, line: &mut Line, row: &str) {
    match MemDisk::new(alloc) {
        Ok(disk) => {
            let mut store = LocalFs::new(disk, Forget, false, false, false);
            tell_calls(alloc, line, &mut store, row);
        }
        Err(_) => line.refuse(),
    }
}
