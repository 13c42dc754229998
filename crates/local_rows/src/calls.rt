//! Calls of the local store.
//!
//!     look PATH         what stands at a path: its kind and length, and its entity tag
//!     link PATH         the same, a link at its end not followed
//!     where PATH        where it is found
//!     read PATH         the bytes of a file, at most 64
//!     write PATH BYTES  makes a file, or empties the one that stands there, and writes bytes
//!     list PATH         the members of a directory, each with its kind
//!     front PATH COUNT  the names that its listing gives first, so many, where it is left
//!     while PATH COUNT mv PATH PATH  the names of a directory; behind so many others do this on the disk, as at `out`
//!     mkdir PATH        makes a directory; `rmdir`, `rm`, `mv`, `cp` likewise
//!     copy PATH PREFIX NAME:VALUE..  the status of a COPY with these fields, of a MOVE at `move`, and of a DELETE at
//!                       `delete`; a prefix `-` is empty, and each `%XX` in a value is a byte
//!     defaults          makes the directories that a store has from its start
//!     rules PATH        whether the path is one of the two empty files, and whether it is forbidden
//!     asked             how many calls the disk was asked so far
//!     kept              how many paths are remembered, and how many directories and names together
//!     now SECONDS       the moment of the calls behind it; nanoseconds behind a point
//!     purge SECONDS     what is too old at that moment is forgotten
//!     out mv PATH PATH  what others do on the disk: a rename, or with `cp` a copy. Its paths are the disk's.
use crate::carrying::carry;
use crate::listing::{front, list_while};
use crate::outside::outside;
use crate::scene::moment_of;
use dav_cache::{Owned, Remember};
use dav_core::{DavMetaData, DavPath, FsError, FsPath, Kind, Member, OpenOptions};
use dav_disk::MemDisk;
use dav_local::{LocalFs, LocalFsMetaData};
use dav_rows::{Line, word};
use dav_store::{DavFile, DavFileSystem, GuardedFileSystem, read_members};
use std::alloc::Global;

type Store = LocalFs<MemDisk, Owned>;

// The most bytes that are read of a file.
const MOST_BYTES: usize = 64;

fn kind_word(kind: Kind) -> &'static str {
    match kind {
        Kind::Dir => "dir",
        Kind::File => "file",
        Kind::Link => "link",
    }
}

fn tell_meta(alloc: Global, line: &mut Line, meta: &LocalFsMetaData) {
    line.add(if meta.is_dir() { "dir" } else { "file" });
    line.add_number(" ", meta.len());
    match meta.etag(alloc) {
        Ok(Some(tag)) => line.tell(" ", tag.as_str()),
        Ok(None) => line.add(" untagged"),
        Err(_) => line.refuse(),
    }
}

fn tell_looked(alloc: Global, line: &mut Line, answer: Result<LocalFsMetaData, FsError>) {
    match answer {
        Ok(meta) => tell_meta(alloc, line, &meta),
        Err(error) => line.add_value(&error),
    }
}

fn tell_done(line: &mut Line, answer: Result<(), FsError>) {
    match answer {
        Ok(()) => line.add("done"),
        Err(error) => line.add_value(&error),
    }
}

fn tell_path(line: &mut Line, path: &FsPath) {
    if path.as_slice().is_empty() {
        line.add("/");
    }
    for name in path.as_slice() {
        line.tell("/", name.as_str());
    }
}

fn tell_members(line: &mut Line, members: &[Member]) {
    line.add_number("members ", members.len() as u64);
    for member in members {
        line.tell(", ", member.name.as_str());
        line.tell(" ", kind_word(member.kind));
    }
}

fn list(alloc: Global, line: &mut Line, store: &mut Store, path: &DavPath) {
    match read_members(alloc, store, path, &()) {
        Ok(members) => tell_members(line, members.as_slice()),
        Err(error) => line.add_value(&error),
    }
}

fn tell_bytes(line: &mut Line, read: Result<usize, FsError>, bytes: &[u8]) {
    match read {
        Ok(count) => {
            let text = str::from_utf8(bytes.get(..count).unwrap_or(b"?"));
            line.tell("read ", text.unwrap_or("?"));
        }
        Err(error) => line.add_value(&error),
    }
}

fn read(line: &mut Line, store: &mut Store, path: &DavPath) {
    match GuardedFileSystem::open(store, path, OpenOptions::read(), &()) {
        Ok(mut file) => {
            let mut into = [0u8; MOST_BYTES];
            let disk = DavFileSystem::disk(store);
            let read = file.read_into(disk, &mut into);
            file.close(disk);
            tell_bytes(line, read, &into);
        }
        Err(error) => line.add_value(&error),
    }
}

fn write(line: &mut Line, store: &mut Store, path: &DavPath, bytes: &str) {
    let options = OpenOptions {
        read: false,
        write: true,
        append: false,
        truncate: true,
        create: true,
        create_new: false,
    };
    match GuardedFileSystem::open(store, path, options, &()) {
        Ok(mut file) => {
            let disk = DavFileSystem::disk(store);
            let written = file.write_bytes(disk, bytes.as_bytes());
            file.close(disk);
            tell_done(line, written);
        }
        Err(error) => line.add_value(&error),
    }
}

fn look(alloc: Global, line: &mut Line, store: &mut Store, path: &DavPath, kind: &str) {
    let answer = if kind == "look" {
        DavFileSystem::metadata(store, path)
    } else {
        DavFileSystem::symlink_metadata(store, path)
    };
    tell_looked(alloc, line, answer);
}

fn find(line: &mut Line, store: &mut Store, path: &DavPath) {
    match store.resolve(path) {
        Ok(at) => tell_path(line, &at),
        Err(error) => line.add_value(&error),
    }
}

// Makes a call that changes what stands at one path or two.
fn change(line: &mut Line, store: &mut Store, kind: &str, path: &DavPath, to: &DavPath) {
    match kind {
        "mkdir" => tell_done(line, DavFileSystem::create_dir(store, path)),
        "rmdir" => tell_done(line, DavFileSystem::remove_dir(store, path)),
        "rm" => tell_done(line, DavFileSystem::remove_file(store, path)),
        "mv" => tell_done(line, DavFileSystem::rename(store, path, to)),
        "cp" => tell_done(line, DavFileSystem::copy(store, path, to)),
        _ => line.refuse(),
    }
}

fn tell_rules(line: &mut Line, store: &Store, path: &DavPath) {
    line.add_whether("empty ", store.is_virtual(path));
    line.add_whether(", forbidden ", store.is_forbidden(path));
}

fn third(part: &str) -> &str {
    part.split(' ').nth(2).unwrap_or("/")
}

fn change_at(alloc: Global, line: &mut Line, store: &mut Store, path: &DavPath, part: &str) {
    match DavPath::new(alloc, third(part)) {
        Ok(to) => change(line, store, word(part, 0), path, &to),
        Err(_) => line.refuse(),
    }
}

// Makes the call of a part at its path.
fn call_at(alloc: Global, line: &mut Line, store: &mut Store, path: &DavPath, part: &str) {
    match word(part, 0) {
        "look" | "link" => look(alloc, line, store, path, word(part, 0)),
        "where" => find(line, store, path),
        "read" => read(line, store, path),
        "write" => write(line, store, path, third(part)),
        "list" => list(alloc, line, store, path),
        "front" => front(line, store, path, part),
        "while" => list_while(alloc, line, store, path, part),
        "rules" => tell_rules(line, store, path),
        _ => change_at(alloc, line, store, path, part),
    }
}

fn call_path(alloc: Global, line: &mut Line, store: &mut Store, part: &str) {
    match DavPath::new(alloc, part.split(' ').nth(1).unwrap_or("/")) {
        Ok(path) => call_at(alloc, line, store, &path, part),
        Err(_) => line.refuse(),
    }
}

fn tell_kept(line: &mut Line, memory: &Owned) {
    line.add_number("kept ", memory.paths().len() as u64);
    line.add_number(" and ", memory.dots().len() as u64);
}

fn set_now(line: &mut Line, store: &mut Store, word: &str) {
    let now = moment_of(line, word);
    DavFileSystem::set_now(store, now);
    line.add("done");
}

// Forgets what is too old at a moment.
fn purge(line: &mut Line, memory: &mut Owned, word: &str) {
    let now = moment_of(line, word);
    memory.purge(now);
    line.add("done");
}

fn tell_asked(line: &mut Line, disk: &MemDisk) {
    line.add_number("asked ", disk.asked());
}

fn create_defaults(alloc: Global, line: &mut Line, store: &mut Store) {
    tell_done(line, store.create_defaults(alloc));
}

/// Makes the call of a part.
pub fn call(alloc: Global, line: &mut Line, store: &mut Store, part: &str) {
    match word(part, 0) {
        "asked" => tell_asked(line, LocalFs::disk(store)),
        "defaults" => create_defaults(alloc, line, store),
        "kept" => tell_kept(line, store.memory()),
        "now" => set_now(line, store, word(part, 1)),
        "purge" => purge(line, store.memory(), word(part, 1)),
        "out" => outside(alloc, line, DavFileSystem::disk(store), part),
        "copy" | "move" | "delete" => carry(alloc, line, store, part),
        _ => call_path(alloc, line, store, part),
    }
}
