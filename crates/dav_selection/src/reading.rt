// Reading a resource of a store.
ghost use Rattle.std.specs.Prelude.{◌≡◌, ◌⊎◌, ◌<◌, ◌≤◌, ◌+◌, IfOk, OnErr, IsSome, Some, Err, Ok, length, min, unwrap_or, [], true, ℕ};
ghost use Rattle.dav_core.specs.Disk.{Live, can_read};
ghost use Rattle.dav_core.specs.Unchanged.{KeepsBut};
ghost use Rattle.dav_store.specs.Files.{Spoiled};
ghost use Rattle.dav_store.specs.Standing.{Seen};
ghost use Rattle.dav_store.specs.View.{Stays};
ghost use Rattle.dav_selection.specs.Pieces.{Appends, Asks, ClosesAfter, Touches};
ghost use Rattle.dav_selection.specs.Resources.{AfterMeta, AfterOpen, Fetches, ReadsTo, content_of};

use crate::resource::{Resource, Unread};
use dav_core::{DavMetaData, DavPath, FsError, OpenOptions};
use dav_io::{NoMemory, Octets, Text};
use dav_store::{GuardedFileSystem, file_close, file_metadata, file_read};
use std::alloc::Global;

/// The most bytes that are asked for at once, `piece_size` of the contracts.
const PIECE: usize = 16_384;

// Reads a piece of the file, at most so many bytes, and appends it. It answers how many they are.
fn read_piece<S: GuardedFileSystem<C>, C>(
    fs: &mut S,
    file: &mut S::File,
    left: u64,
    buffer: &mut [u8],
    bytes: &mut Vec<u8>,
) -> Result<usize, FsError>
    requires live { IsSome ((S.view.state fs.old).live (S.view.file.handle file.old)) }
    requires reads_from { S.view.file.reads_from file.old (S.view.state fs.old) }
    requires some { 0 < left }
    requires room { 0 < length buffer.old }
    ensures touches { Touches S.view fs.old file.old fs.new file.new }
    ensures reads_from { S.view.file.reads_from file.new (S.view.state fs.new) }
    ensures refused { can_read ((S.view.state fs.old).live (S.view.file.handle file.old)) ≡ true
        → OnErr result (Spoiled (S.view.state fs.old) result (S.view.state fs.new)) }
    ensures asks { (n : ℕ) × Asks S.view (min left (length buffer.old)) n fs.old file.old fs.new file.new
        × IfOk result (λ count. count ≡ n) }
    ensures within { IfOk result (λ n. n ≤ left) }
    ensures len { IfOk result (λ n. length bytes.new.items ≡ length bytes.old.items + n) }
    ensures told { (f : Seen) → S.view.file.seen file.old (S.view.state fs.old) ≡ Some f
        → Appends S.view f bytes.old.items result bytes.new.items fs.new file.new }
{
    let most = left.min(buffer.len() as u64) as usize;
    prove!(most <= buffer.len());
    match file_read(fs, file, &mut buffer[..most]) {
        Ok(count) => match bytes.extend_from_slice(&buffer[..count]) {
            Ok(()) => Ok(count),
            Err(_) => Err(FsError::NoMemory),
        },
        Err(error) => Err(error),
    }
}

// Reads the file from its place on, to so many bytes or its end.
fn read_to<S: GuardedFileSystem<C>, C>(
    alloc: Global,
    fs: &mut S,
    file: &mut S::File,
    len: u64,
) -> Result<Octets, FsError>
    requires live { IsSome ((S.view.state fs.old).live (S.view.file.handle file.old)) }
    requires reads_from { S.view.file.reads_from file.old (S.view.state fs.old) }
    ensures { ReadsTo S.view fs.old file.old len result fs.new file.new }
{
    let mut bytes = Vec::new(alloc);
    let Ok(mut buffer) = vec![in alloc; 0u8; PIECE] else {
        return Err(FsError::NoMemory);
    };
    let mut left = len;
    'pieces: while left > 0 {
        let count = match read_piece(fs, file, left, buffer.as_mut_slice(), &mut bytes) {
            Ok(count) => count,
            Err(error) => return Err(error),
        };
        if count == 0 {
            return Ok(Octets::new(bytes));
        }
        left -= count as u64;
    }
    Ok(Octets::new(bytes))
}

// The text of its entity tag, and the empty text where it has none.
fn etag_of<M: DavMetaData>(alloc: Global, meta: &M) -> Result<Text, NoMemory>
    ensures { IfOk result (λ text. text ≡ unwrap_or (M.info meta.now).tag []) }
{
    match meta.etag(alloc)? {
        Some(tag) => Ok(tag),
        None => Text::copy(alloc, ""),
    }
}

// What was read, with its tag.
fn with_tag<M: DavMetaData>(
    alloc: Global,
    meta: &M,
    read: Result<Octets, FsError>,
) -> Result<Resource, Unread>
    ensures { (result ≡ content_of (M.info meta.now) read) ⊎ (result ≡ Err Unread.NoMemory) }
{
    match read {
        Ok(content) => match etag_of(alloc, meta) {
            Ok(etag) => Ok(Resource { etag, content }),
            Err(_) => Err(Unread::NoMemory),
        },
        Err(FsError::NoMemory) => Err(Unread::NoMemory),
        Err(_) => Err(Unread::Refused),
    }
}

// Reads a regular file to the length that its metadata gave, and closes it. All else is closed unread.
fn read_content<S: GuardedFileSystem<C>, C>(
    alloc: Global,
    fs: &mut S,
    file: S::File,
    meta: &S::Meta,
) -> Result<Resource, Unread>
    requires live { IsSome ((S.view.state fs.old).live (S.view.file.handle file)) }
    requires reads_from { S.view.file.reads_from file (S.view.state fs.old) }
    ensures table { AfterMeta S.view (Ok (S.Meta.info meta.now)) file fs.old result fs.new
        ⊎ (result ≡ Err Unread.NoMemory) }
    ensures closed { ClosesAfter S.view (S.view.file.handle file) fs.old fs.new }
{
    if !meta.is_file() {
        file_close(fs, file);
        return Err(Unread::Refused);
    }
    let mut file = file;
    let read = read_to(alloc, fs, &mut file, meta.len());
    file_close(fs, file);
    with_tag(alloc, meta, read)
}

// Asks a file that was opened for its metadata, reads it to its length, and closes it.
fn read_file<S: GuardedFileSystem<C>, C>(
    alloc: Global,
    fs: &mut S,
    file: S::File,
) -> Result<Resource, Unread>
    requires live { IsSome ((S.view.state fs.old).live (S.view.file.handle file)) }
    requires reads_from { S.view.file.reads_from file (S.view.state fs.old) }
    ensures table { AfterOpen S.view (Ok file) fs.old result fs.new }
    ensures closed { ClosesAfter S.view (S.view.file.handle file) fs.old fs.new }
{
    let mut file = file;
    match file_metadata(fs, &mut file) {
        Ok(meta) => read_content(alloc, fs, file, &meta),
        Err(error) => {
            file_close(fs, file);
            Err(Unread::Unsaid(error))
        }
    }
}

/// Opens and reads the resource at a path. The file is closed again.
pub(crate) fn fetch<S: GuardedFileSystem<C>, C>(
    alloc: Global,
    fs: &mut S,
    credentials: &C,
    path: &DavPath,
) -> Result<Resource, Unread>
    ensures table { Fetches S.view credentials.now path.now fs.old result fs.new }
    ensures stays { Stays S.view fs.old fs.new }
{
    match fs.open(path, OpenOptions::read(), credentials) {
        Ok(file) => read_file(alloc, fs, file),
        Err(FsError::NoMemory) => Err(Unread::NoMemory),
        Err(_) => Err(Unread::Refused),
    }
}
