// A content is held where it is had: from an entry of its tag, or read whole.
ghost use Rattle.std.specs.Prelude.{◌≡◌, ◌≤◌, ◌<◌, ◌⊎◌, Err, IfOk, IsSome, None, Result, drop, length, take};
ghost use Rattle.dav_core.specs.declared.error.FsError.{FsError};
ghost use Rattle.dav_core.specs.Info.{Info};
ghost use Rattle.dav_store.specs.View.{Reads, Says};
ghost use Rattle.dav_readcache.specs.Opening.{Fetches, Holds, HoldsOpened, HoldsWanted, Keeps, ReadsWhole, Starves, holding, says_tag, unheld, wanted_of};
ghost use Rattle.dav_readcache.specs.Shelf.{bytes_for};

use crate::shelf::Shelf;
use crate::{CachedFile, Content, Reading};
use bytes::Bytes;
use dav_core::{DavMetaData, FsError};
use dav_io::{NoMemory, Text};
use dav_store::{GuardedFileSystem, file_close, file_metadata, file_read};
use std::alloc::Global;

// What is to be held of a file: the text of its entity tag, and its length in bytes.
#[derive(Drop)]
pub(crate) struct Wanted {
    tag: Text,
    len: u64,
}

// What is to be held of what has this metadata.
fn to_hold<M: DavMetaData>(alloc: Global, most: u64, meta: &M) -> Result<Option<Wanted>, NoMemory>
    ensures { IfOk result (λ wanted. wanted ≡ wanted_of most (M.info meta.now)) }
{
    if !meta.is_file() || meta.len() > most {
        return Ok(None);
    }
    match meta.etag(alloc)? {
        Some(tag) => Ok(Some(Wanted {
            tag,
            len: meta.len(),
        })),
        None => Ok(None),
    }
}

impl Reading {
    // Of a file of which so many bytes were read, and of which no content is held.
    fn unheld(count: usize) -> Self
        ensures { result ≡ unheld count }
    {
        let mut reading = Reading {
            content: None,
            pending: None,
            at: Some(count as u64),
        };
        reading.place_at(0);
        reading
    }

    // The same where its content is held.
    fn holding(tag: Text, bytes: Bytes, count: usize) -> Self
        ensures { result ≡ holding tag bytes count }
    {
        let mut reading = Reading {
            content: Some(Content { tag, bytes }),
            pending: None,
            at: Some(count as u64),
        };
        reading.place_at(0);
        reading
    }
}

// Reads behind what was read already.
fn read_behind<S: GuardedFileSystem<C>, C>(
    store: &mut S,
    file: &mut S::File,
    into: &mut [u8],
    count: usize,
) -> Result<usize, FsError>
    requires live { IsSome ((S.view.state store.old).live (S.view.file.handle file.old)) }
    requires reads_from { S.view.file.reads_from file.old (S.view.state store.old) }
    requires room { count < length into.old }
    ensures reads { Reads S.view store.old file.old (drop count into.new) result store.new file.new }
    ensures front { take count into.new ≡ take count into.old }
{
    file_read(store, file, &mut into[count..])
}

// Reads until the buffer is full, no byte stands there, or a read is refused. It answers how many bytes came.
fn read_whole<S: GuardedFileSystem<C>, C>(
    store: &mut S,
    file: &mut S::File,
    into: &mut [u8],
) -> usize
    requires live { IsSome ((S.view.state store.old).live (S.view.file.handle file.old)) }
    requires reads_from { S.view.file.reads_from file.old (S.view.state store.old) }
    ensures { ReadsWhole S.view store.old file.old into.new result store.new file.new }
{
    let mut count = 0;
    'reads: while count < into.len() {
        match read_behind(store, file, into, count) {
            Ok(0) => return count,
            Ok(more) => count += more,
            Err(_) => return count,
        }
    }
    count
}

// Asks whether the file still has this tag.
fn still_has<S: GuardedFileSystem<C>, C>(store: &mut S, file: &mut S::File, tag: &Text) -> bool
    requires { IsSome ((S.view.state store.old).live (S.view.file.handle file.old)) }
    ensures { (said : Result Info FsError) × Says S.view store.old file.old said store.new file.new
        × (result ≡ says_tag tag.now said) }
{
    match file_metadata(store, file) {
        Ok(meta) => meta.has_tag(tag.as_slice()),
        Err(_) => false,
    }
}

// Puts what was read whole first.
fn keep(shelf: &mut Shelf, tag: Text, buffer: Vec<u8>) -> Result<Reading, NoMemory>
    requires none { bytes_for tag shelf.old ≡ None }
    requires within { length buffer.items ≤ shelf.old.most }
    ensures { Keeps tag buffer.items shelf.old result shelf.new }
{
    let count = buffer.len();
    let bytes = Bytes::from_vec(buffer)?;
    let copy = bytes.clone()?;
    let key = tag.try_clone()?;
    shelf.put_first(key, copy)?;
    Ok(Reading::holding(tag, bytes, count))
}

// Reads a file whole and asks for its tag again, and puts the content first where all bytes came and the tag is the
// same.
fn fetch<S: GuardedFileSystem<C>, C>(
    store: &mut S,
    shelf: &mut Shelf,
    file: &mut S::File,
    wanted: Wanted,
) -> Result<Reading, NoMemory>
    requires live { IsSome ((S.view.state store.old).live (S.view.file.handle file.old)) }
    requires reads_from { S.view.file.reads_from file.old (S.view.state store.old) }
    requires none { bytes_for wanted.tag shelf.old ≡ None }
    requires within { wanted.len ≤ shelf.old.most }
    ensures { Starves (record { store = store.old; file = file.old; shelf = shelf.old }) result
        (record { store = store.new; file = file.new; shelf = shelf.new })
        ⊎ Fetches S.view wanted (record { store = store.old; file = file.old; shelf = shelf.old }) result
        (record { store = store.new; file = file.new; shelf = shelf.new }) }
{
    let Ok(mut buffer) = vec![in shelf.allocator(); 0u8; wanted.len as usize] else {
        return Err(NoMemory);
    };
    let count = read_whole(store, file, buffer.as_mut_slice());
    let same = still_has(store, file, &wanted.tag);
    if count as u64 == wanted.len && same {
        return keep(shelf, wanted.tag, buffer);
    }
    Ok(Reading::unheld(count))
}

// Holds a content that is wanted.
fn hold_wanted<S: GuardedFileSystem<C>, C>(
    store: &mut S,
    shelf: &mut Shelf,
    file: &mut S::File,
    wanted: Wanted,
) -> Result<Reading, NoMemory>
    requires live { IsSome ((S.view.state store.old).live (S.view.file.handle file.old)) }
    requires reads_from { S.view.file.reads_from file.old (S.view.state store.old) }
    requires within { wanted.len ≤ shelf.old.most }
    ensures { Starves (record { store = store.old; file = file.old; shelf = shelf.old }) result
        (record { store = store.new; file = file.new; shelf = shelf.new })
        ⊎ HoldsWanted S.view (Some wanted) (record { store = store.old; file = file.old; shelf = shelf.old }) result
        (record { store = store.new; file = file.new; shelf = shelf.new }) }
{
    match shelf.find(&wanted.tag)? {
        Some(bytes) => {
            shelf.promote(&wanted.tag);
            Ok(Reading::holding(wanted.tag, bytes, 0))
        }
        None => fetch(store, shelf, file, wanted),
    }
}

// Asks a file that was opened for its metadata, and holds its content where that is had.
fn hold<S: GuardedFileSystem<C>, C>(
    store: &mut S,
    shelf: &mut Shelf,
    file: &mut S::File,
) -> Result<Reading, NoMemory>
    requires live { IsSome ((S.view.state store.old).live (S.view.file.handle file.old)) }
    requires reads_from { S.view.file.reads_from file.old (S.view.state store.old) }
    ensures { Holds S.view (record { store = store.old; file = file.old; shelf = shelf.old }) result
        (record { store = store.new; file = file.new; shelf = shelf.new }) }
{
    let Ok(meta) = file_metadata(store, file) else {
        return Ok(Reading::unheld(0));
    };
    match to_hold(shelf.allocator(), shelf.most(), &meta)? {
        Some(wanted) => hold_wanted(store, shelf, file, wanted),
        None => Ok(Reading::unheld(0)),
    }
}

/// Holds the content of a file that was opened for reading alone, where that is had. Where memory is refused, the file
/// is closed.
pub(crate) fn hold_opened<S: GuardedFileSystem<C>, C>(
    store: &mut S,
    shelf: &mut Shelf,
    file: S::File,
) -> Result<CachedFile<S::File>, FsError>
    requires live { IsSome ((S.view.state store.old).live (S.view.file.handle file)) }
    requires reads_from { S.view.file.reads_from file (S.view.state store.old) }
    ensures { HoldsOpened S.view (record { store = store.old; file = file; shelf = shelf.old }) result store.new
        shelf.new }
{
    let mut file = file;
    match hold(store, shelf, &mut file) {
        Ok(reading) => Ok(CachedFile {
            file,
            reading: Some(reading),
        }),
        Err(_) => {
            file_close(store, file);
            Err(FsError::NoMemory)
        }
    }
}
