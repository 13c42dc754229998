ghost use Rattle.std.specs.Prelude.{◌≡◌, ◌<◌, ◌≤◌, ◌+◌, ◌^◌, ℕ, Ok, Err, None, Some, Option, Result, length, take, drop, min, true, IsSome, OnErr, OnOk};
ghost use Rattle.dav_core.specs.declared.error.FsError.{FsError};
ghost use Rattle.dav_core.specs.Info.{Info};
ghost use Rattle.dav_store.specs.Files.{FileReads, FileSays, IsFault};
ghost use Rattle.dav_core.specs.Disk.{can_read};
ghost use Rattle.dav_readcache.specs.Cached.{AsksOn, IsFresh, IsHit, IsKnown, MovesThere, Stays, StepsBy, added, place_in, seen_reading};

use bytes::{Buf, Bytes};
use dav_core::{DavMetaData, Disk, FsError};
use dav_io::Text;
use dav_store::DavFile;
use std::alloc::Global;

/// The content of a file as it was read whole: the text of its entity tag then, and its bytes.
#[derive(Drop)]
pub struct Content {
    pub tag: Text,
    pub bytes: Bytes,
}

/// How a file that was opened for reading alone is read: its content, where it is held, the place where it is read next,
/// where that isn't the place of the store's file, and that file's place, where it is known.
#[derive(Drop)]
pub struct Reading {
    pub(crate) content: Option<Content>,
    pub(crate) pending: Option<u64>,
    pub(crate) at: Option<u64>,
}

/// An open file of a store, whose content may be held.
#[derive(Drop)]
pub struct CachedFile<F> {
    pub(crate) file: F,
    pub(crate) reading: Option<Reading>,
}

// Copies bytes from a place on to the front of a buffer, as many as there are and fit, and answers how many.
fn copy_from(bytes: &[u8], place: u64, into: &mut [u8]) -> usize
    ensures room { length into.new ≡ length into.old }
    ensures count { result ≡ min (length into.new) (length (drop place bytes.now)) }
    ensures copied { take result into.new ≡ take result (drop place bytes.now) }
    ensures fits { place + result < 2 ^ 64 }
{
    if place >= bytes.len() as u64 {
        return 0;
    }
    let (_, rest) = bytes.split_at(place as usize);
    let count = rest.len().min(into.len());
    into[..count].copy_from_slice(&rest[..count]);
    count
}

impl Reading {
    ghost use Rattle.dav_readcache.specs.Cached.{placed_at};

    // It is read from this place on.
    pub(crate) fn place_at(&mut self, place: u64)
        ensures { self.new ≡ placed_at place self.old }
    {
        self.pending = match self.at {
            Some(at) => { if at == place { None } else { Some(place) } }
            None => Some(place),
        };
    }

    // The place where it is read next, where it is known.
    fn place(&self) -> Option<u64>
        ensures { result ≡ place_in self.now }
    {
        match self.pending {
            Some(place) => Some(place),
            None => self.at,
        }
    }
}

impl Reading {
    ghost use Rattle.dav_readcache.specs.Cached.{Copies};

    // Copies bytes of the content that is held from its place on.
    fn copy(&mut self, into: &mut [u8]) -> usize
        requires room { 0 < length into.old }
        requires content { IsSome self.old.content }
        requires at { IsSome self.old.at }
        ensures { Copies self.old into.new result self.new }
    {
        let Some(place) = self.place() else {
            unreachable!("the place of a held content is known");
        };
        let Some(content) = &self.content else {
            unreachable!("a content is held");
        };
        let count = copy_from(content.bytes.as_slice(), place, into);
        self.place_at(place + count as u64);
        count
    }
}

// Moves the store's file to the place where it is read next, where it stands elsewhere.
fn move_there<D: Disk, F: DavFile<D>>(
    file: &mut F,
    reading: &mut Reading,
    disk: &mut D,
) -> Result<(), FsError>
    requires live { IsSome ((D.state disk.old).live (F.view.handle file.old)) }
    requires reads_from { F.view.reads_from file.old (D.state disk.old) }
    requires known { IsKnown reading.old (F.view.seen file.old (D.state disk.old)) }
    requires none { reading.old.content ≡ None }
    ensures kept { Stays (F.view.handle file.old) (D.state disk.old)
        (seen_reading (Some reading.old) (F.view.seen file.old (D.state disk.old))) (D.state disk.new)
        (seen_reading (Some reading.new) (F.view.seen file.new (D.state disk.new))) }
    ensures refused { can_read ((D.state disk.old).live (F.view.handle file.old)) ≡ true
        → OnErr result (IsFault (D.state disk.old) result (D.state disk.new)) }
    ensures asks { MovesThere F.view.asks_once reading.old.pending result (D.state disk.old) (D.state disk.new) }
    ensures here { OnOk result (reading.new.pending ≡ None) }
    ensures reads_from { F.view.reads_from file.new (D.state disk.new) }
    ensures known { IsKnown reading.new (F.view.seen file.new (D.state disk.new)) }
    ensures none { reading.new.content ≡ None }
    ensures handle { F.view.handle file.new ≡ F.view.handle file.old }
    ensures becomes { F.view.becomes file.old file.new }
    ensures loan { D.loan disk.new ≡ D.loan disk.old }
{
    let Some(place) = reading.pending else {
        return Ok(());
    };
    match file.seek(disk, place) {
        Ok(_) => {
            reading.at = Some(place);
            reading.pending = None;
            Ok(())
        }
        Err(error) => Err(error),
    }
}

// The store's file has read so many bytes.
fn pass(reading: &mut Reading, count: usize)
    ensures { reading.new ≡ record reading.old { at = added reading.old.at count } }
{
    reading.at = match reading.at {
        Some(at) => at.checked_add(count as u64),
        None => None,
    };
}

#[tactic(auto, using(crate::proofs::Stepping::reads_then))]
// Reads by the store's file, where no content is held.
fn read_on<D: Disk, F: DavFile<D>>(
    file: &mut F,
    reading: &mut Reading,
    disk: &mut D,
    into: &mut [u8],
) -> Result<usize, FsError>
    requires live { IsSome ((D.state disk.old).live (F.view.handle file.old)) }
    requires reads_from { F.view.reads_from file.old (D.state disk.old) }
    requires known { IsKnown reading.old (F.view.seen file.old (D.state disk.old)) }
    requires none { reading.old.content ≡ None }
    requires room { 0 < length into.old }
    ensures done { FileReads (D.state disk.old) (F.view.handle file.old)
        (seen_reading (Some reading.old) (F.view.seen file.old (D.state disk.old))) into.new result (D.state disk.new)
        (seen_reading (Some reading.new) (F.view.seen file.new (D.state disk.new))) }
    ensures asks { F.view.asks_once → AsksOn reading.old.pending result (D.state disk.old) (D.state disk.new) }
    ensures reads_from { F.view.reads_from file.new (D.state disk.new) }
    ensures known { IsKnown reading.new (F.view.seen file.new (D.state disk.new)) }
    ensures none { reading.new.content ≡ None }
    ensures handle { F.view.handle file.new ≡ F.view.handle file.old }
    ensures becomes { F.view.becomes file.old file.new }
    ensures loan { D.loan disk.new ≡ D.loan disk.old }
{
    match move_there(file, reading, disk) {
        Err(error) => Err(error),
        Ok(()) => match file.read_into(disk, into) {
            Err(error) => Err(error),
            Ok(count) => {
                pass(reading, count);
                Ok(count)
            }
        },
    }
}

// Asks whether the file still has the tag of the content that is held. Where it hasn't, that is dropped.
fn is_fresh<D: Disk, F: DavFile<D>>(
    file: &mut F,
    reading: &mut Reading,
    disk: &mut D,
) -> Result<bool, FsError>
    requires live { IsSome ((D.state disk.old).live (F.view.handle file.old)) }
    requires content { IsSome reading.old.content }
    ensures says { (r : Result Info FsError) × FileSays (D.state disk.old) (F.view.handle file.old)
        (F.view.seen file.old (D.state disk.old)) r (D.state disk.new) (F.view.seen file.new (D.state disk.new))
        × IsFresh r reading.old result reading.new }
    ensures reads_from { F.view.reads_from file.old (D.state disk.old) → F.view.reads_from file.new (D.state disk.new) }
    ensures handle { F.view.handle file.new ≡ F.view.handle file.old }
    ensures becomes { F.view.becomes file.old file.new }
    ensures loan { D.loan disk.new ≡ D.loan disk.old }
{
    let meta = match file.metadata(disk) {
        Ok(meta) => meta,
        Err(error) => return Err(error),
    };
    if reading.is_of(&meta) {
        return Ok(true);
    }
    reading.content = None;
    Ok(false)
}

impl Reading {
    ghost use Rattle.dav_readcache.specs.Cached.{is_held};

    // Whether the content that is held is of what has this metadata.
    fn is_of<M: DavMetaData>(&self, meta: &M) -> bool
        ensures { result ≡ is_held self.now.content (M.info meta.now) }
    {
        match &self.content {
            Some(content) => meta.is_file() && meta.has_tag(content.tag.as_slice()),
            None => false,
        }
    }
}

// Reads from the content that is held, as long as the file has its tag, and else by the store's file.
fn read_reading<D: Disk, F: DavFile<D>>(
    file: &mut F,
    reading: &mut Reading,
    disk: &mut D,
    into: &mut [u8],
) -> Result<usize, FsError>
    requires live { IsSome ((D.state disk.old).live (F.view.handle file.old)) }
    requires reads_from { F.view.reads_from file.old (D.state disk.old) }
    requires known { IsKnown reading.old (F.view.seen file.old (D.state disk.old)) }
    requires room { 0 < length into.old }
    ensures done { FileReads (D.state disk.old) (F.view.handle file.old)
        (seen_reading (Some reading.old) (F.view.seen file.old (D.state disk.old))) into.new result (D.state disk.new)
        (seen_reading (Some reading.new) (F.view.seen file.new (D.state disk.new))) }
    ensures hit { IsHit reading.old (F.view.seen file.old (D.state disk.old)) (D.state disk.old) into.new result
        (D.state disk.new) }
    ensures steps { StepsBy F.view
        (record { file = file.old; reading = reading.old; disk = D.state disk.old }) into.new result
        (record { file = file.new; reading = reading.new; disk = D.state disk.new }) }
    ensures reads_from { F.view.reads_from file.new (D.state disk.new) }
    ensures known { IsKnown reading.new (F.view.seen file.new (D.state disk.new)) }
    ensures handle { F.view.handle file.new ≡ F.view.handle file.old }
    ensures becomes { F.view.becomes file.old file.new }
    ensures loan { D.loan disk.new ≡ D.loan disk.old }
{
    if reading.content.is_none() {
        return read_on(file, reading, disk, into);
    }
    match is_fresh(file, reading, disk) {
        Err(error) => Err(error),
        Ok(true) => Ok(reading.copy(into)),
        Ok(false) => read_on(file, reading, disk, into),
    }
}

impl<D: Disk, F: DavFile<D>> DavFile<D> for CachedFile<F> {
    ghost use Rattle.dav_readcache.specs.Cached.{becomes_by, GivesBySteps, HitsBy, MovesFree, Steps, cached_file, moved_to, read_at, reads_by, seen_by};
    ghost use Rattle.dav_readcache.specs.CachedStays.{cached_reads_on, cached_stays};
    ghost use Rattle.dav_store.specs.Files.{FileGives, FileReads, FileSeeks};

    type Meta = F::Meta;

    ghost view = { cached_file F.view };

    fn metadata(&mut self, disk: &mut D) -> Result<F::Meta, FsError> {
        self.file.metadata(disk)
    }

    /// Sets its place. Of a file that was opened for reading alone the disk is asked nothing.
    fn seek(&mut self, disk: &mut D, place: u64) -> Result<u64, FsError>
        requires live { IsSome ((D.state disk.old).live (F.view.handle self.old.file)) }
        requires reads_from { reads_by F.view self.old (D.state disk.old) }
        ensures done { FileSeeks (D.state disk.old) (F.view.handle self.old.file)
            (seen_by F.view self.old (D.state disk.old)) place result (D.state disk.new)
            (seen_by F.view self.new (D.state disk.new)) }
        ensures reads_from { reads_by F.view self.new (D.state disk.new) }
        ensures handle { F.view.handle self.new.file ≡ F.view.handle self.old.file }
        ensures becomes { becomes_by F.view self.old self.new }
        ensures loan { D.loan disk.new ≡ D.loan disk.old }
        ensures free { MovesFree self.old.reading (D.state disk.old) place result (D.state disk.new) }
        ensures placed { self.new.reading ≡ moved_to place self.old.reading }
    {
        let Some(reading) = &mut self.reading else {
            return self.file.seek(disk, place);
        };
        reading.place_at(place);
        Ok(place)
    }

    /// Reads bytes from its place on. Where a content is held, its metadata is asked, and as long as that has the
    /// content's tag all bytes that stand there and fit come from the content. Else the store's file is moved, where it
    /// stands elsewhere, and read.
    fn read_into(&mut self, disk: &mut D, into: &mut [u8]) -> Result<usize, FsError>
        requires live { IsSome ((D.state disk.old).live (F.view.handle self.old.file)) }
        requires reads_from { reads_by F.view self.old (D.state disk.old) }
        requires room { 0 < length into.old }
        ensures done { FileReads (D.state disk.old) (F.view.handle self.old.file)
            (seen_by F.view self.old (D.state disk.old)) into.new result (D.state disk.new)
            (seen_by F.view self.new (D.state disk.new)) }
        ensures reads_from { reads_by F.view self.new (D.state disk.new) }
        ensures handle { F.view.handle self.new.file ≡ F.view.handle self.old.file }
        ensures becomes { becomes_by F.view self.old self.new }
        ensures loan { D.loan disk.new ≡ D.loan disk.old }
        ensures hit { HitsBy self.old.reading (F.view.seen self.old.file (D.state disk.old)) (D.state disk.old) into.new
            result (D.state disk.new) }
        ensures steps { Steps F.view (read_at self.old (D.state disk.old)) into.new result
            (read_at self.new (D.state disk.new)) }
    {
        match &mut self.reading {
            Some(reading) => read_reading(&mut self.file, reading, disk, into),
            None => self.file.read_into(disk, into),
        }
    }

    /// Reads at most `count` bytes from its place on, by one read into memory that was had before.
    fn read_bytes(&mut self, alloc: Global, disk: &mut D, count: usize) -> Result<Bytes, FsError>
        requires live { IsSome ((D.state disk.old).live (F.view.handle self.old.file)) }
        requires reads_from { reads_by F.view self.old (D.state disk.old) }
        requires some { 0 < count }
        ensures done { FileGives (D.state disk.old) (F.view.handle self.old.file)
            (seen_by F.view self.old (D.state disk.old)) count result (D.state disk.new)
            (seen_by F.view self.new (D.state disk.new)) }
        ensures reads_from { reads_by F.view self.new (D.state disk.new) }
        ensures handle { F.view.handle self.new.file ≡ F.view.handle self.old.file }
        ensures becomes { becomes_by F.view self.old self.new }
        ensures loan { D.loan disk.new ≡ D.loan disk.old }
        ensures steps { GivesBySteps F.view (read_at self.old (D.state disk.old)) count result
            (read_at self.new (D.state disk.new)) }
    {
        let Ok(mut buffer) = vec![in alloc; 0u8; count] else {
            return Err(FsError::NoMemory);
        };
        let length = match self.read_into(disk, buffer.as_mut_slice()) {
            Ok(length) => length,
            Err(error) => return Err(error),
        };
        buffer.truncate(length);
        match Bytes::from_vec(buffer) {
            Ok(bytes) => Ok(bytes),
            Err(_) => Err(FsError::NoMemory),
        }
    }

    fn write_bytes(&mut self, disk: &mut D, buf: &[u8]) -> Result<(), FsError> {
        self.file.write_bytes(disk, buf)
    }

    fn write_buf<B: Buf + Drop>(&mut self, disk: &mut D, buf: B) -> Result<(), FsError> {
        self.file.write_buf(disk, buf)
    }

    fn flush(&mut self, disk: &mut D) -> Result<(), FsError> {
        self.file.flush(disk)
    }

    fn redirect_url(&mut self, alloc: Global, disk: &mut D) -> Result<Option<Text>, FsError> {
        self.file.redirect_url(alloc, disk)
    }

    fn close(self, disk: &mut D) {
        let CachedFile { file, reading: _ } = self;
        file.close(disk);
    }

    ghost stays = { λ f s t leaves. cached_stays F.view f s t (F.stays f.file s t leaves) };

    ghost reads_on = { λ f s t leaves reads. cached_reads_on F.view f s t leaves (F.stays f.file s t leaves)
        (F.reads_on f.file s t leaves) reads };
}
