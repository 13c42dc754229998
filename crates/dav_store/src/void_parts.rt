//! What the void store would give, if it gave something: its types stand only to name them.
ghost use Rattle.std.specs.Prelude.{◌≡◌};

use crate::{DavDirEntry, DavFile, EmptyMetaData, NoDisk};
use bytes::{Buf, Bytes};
use dav_core::{Disk, FsError, Handle};
use dav_io::Text;
use std::alloc::Global;

/// A file of the void store, which opens none. Its calls are faults of the disk that has nothing.
#[derive(Debug, Drop)]
pub struct VoidFile;

/// A listing of the void store, which begins none. It answers `NotImplemented` once, and then has no entry.
#[derive(Debug, Drop)]
pub struct VoidDir {
    pub(crate) over: bool,
}

/// An entry of a listing of the void store, which has none.
#[derive(Clone, Copy, Debug)]
pub struct VoidEntry;

impl DavDirEntry<NoDisk> for VoidEntry {
    ghost use Rattle.std.specs.Prelude.{codes};
    ghost use Rattle.dav_store.specs.Void.{Unbuilt};

    type Meta = EmptyMetaData;

    ghost called = { λ _. codes "void" };

    ghost says = { λ _ s result t. Unbuilt s result t };

    fn name(&self) -> &str {
        "void"
    }

    fn metadata(&self, _disk: &mut NoDisk) -> Result<EmptyMetaData, FsError> {
        Err(FsError::NotImplemented)
    }
}

impl DavFile<NoDisk> for VoidFile {
    ghost use Rattle.std.specs.Prelude.{◌<◌, None, length};
    ghost use Rattle.dav_store.specs.Files.{FileCloses, FileFlushes, FileGives, FileReads, FileRedirects, FileSays, FileSeeks, FileWrites};
    ghost use Rattle.dav_store.specs.Standing.{info_in};
    ghost use Rattle.dav_store.specs.Void.{Unbuilt, empty_info, no_disk_state, no_handle, void_file};

    type Meta = EmptyMetaData;

    ghost view = { void_file };

    fn metadata(&mut self, disk: &mut NoDisk) -> Result<EmptyMetaData, FsError>
        ensures done { FileSays (no_disk_state disk.old.faults disk.old.asked) no_handle None
            (info_in (λ _. empty_info) result) (no_disk_state disk.new.faults disk.new.asked) None }
        ensures handle { no_handle ≡ no_handle }
        ensures loan { ⟦<NoDisk as Disk>⟧.loan disk.new ≡ ⟦<NoDisk as Disk>⟧.loan disk.old }
    {
        match disk.file_meta(Handle(0)) {
            Ok(_) => Err(FsError::GeneralFailure),
            Err(error) => Err(error.into()),
        }
    }

    fn seek(&mut self, disk: &mut NoDisk, place: u64) -> Result<u64, FsError>
        ensures done { FileSeeks (no_disk_state disk.old.faults disk.old.asked) no_handle None place result
            (no_disk_state disk.new.faults disk.new.asked) None }
        ensures handle { no_handle ≡ no_handle }
        ensures loan { ⟦<NoDisk as Disk>⟧.loan disk.new ≡ ⟦<NoDisk as Disk>⟧.loan disk.old }
    {
        match disk.seek(Handle(0), place) {
            Ok(()) => Ok(place),
            Err(error) => Err(error.into()),
        }
    }

    fn read_into(&mut self, disk: &mut NoDisk, into: &mut [u8]) -> Result<usize, FsError>
        requires { 0 < length into.old }
        ensures done { FileReads (no_disk_state disk.old.faults disk.old.asked) no_handle None into.new result
            (no_disk_state disk.new.faults disk.new.asked) None }
        ensures handle { no_handle ≡ no_handle }
        ensures loan { ⟦<NoDisk as Disk>⟧.loan disk.new ≡ ⟦<NoDisk as Disk>⟧.loan disk.old }
    {
        match disk.read(Handle(0), into) {
            Ok(count) => Ok(count),
            Err(error) => Err(error.into()),
        }
    }

    /// A fault, or want of memory before it.
    fn read_bytes(
        &mut self,
        alloc: Global,
        disk: &mut NoDisk,
        count: usize,
    ) -> Result<Bytes, FsError>
        requires { 0 < count }
        ensures done { FileGives (no_disk_state disk.old.faults disk.old.asked) no_handle None count result
            (no_disk_state disk.new.faults disk.new.asked) None }
        ensures handle { no_handle ≡ no_handle }
        ensures loan { ⟦<NoDisk as Disk>⟧.loan disk.new ≡ ⟦<NoDisk as Disk>⟧.loan disk.old }
    {
        let _ = (alloc, count);
        match disk.file_meta(Handle(0)) {
            Ok(_) => Err(FsError::GeneralFailure),
            Err(error) => Err(error.into()),
        }
    }

    fn write_bytes(&mut self, _disk: &mut NoDisk, _buf: &[u8]) -> Result<(), FsError>
        ensures done { Unbuilt _disk.old result _disk.new }
        ensures one { FileWrites (no_disk_state _disk.old.faults _disk.old.asked) no_handle None _buf.now result
            (no_disk_state _disk.new.faults _disk.new.asked) None }
        ensures handle { no_handle ≡ no_handle }
        ensures loan { ⟦<NoDisk as Disk>⟧.loan _disk.new ≡ ⟦<NoDisk as Disk>⟧.loan _disk.old }
    {
        Err(FsError::NotImplemented)
    }

    fn write_buf<B: Buf + Drop>(&mut self, _disk: &mut NoDisk, _buf: B) -> Result<(), FsError>
        ensures done { Unbuilt _disk.old result _disk.new }
        ensures one { FileWrites (no_disk_state _disk.old.faults _disk.old.asked) no_handle None (B.unread _buf) result
            (no_disk_state _disk.new.faults _disk.new.asked) None }
        ensures handle { no_handle ≡ no_handle }
        ensures loan { ⟦<NoDisk as Disk>⟧.loan _disk.new ≡ ⟦<NoDisk as Disk>⟧.loan _disk.old }
    {
        Err(FsError::NotImplemented)
    }

    fn flush(&mut self, _disk: &mut NoDisk) -> Result<(), FsError>
        ensures done { FileFlushes (no_disk_state _disk.old.faults _disk.old.asked) None result
            (no_disk_state _disk.new.faults _disk.new.asked) None }
        ensures handle { no_handle ≡ no_handle }
        ensures loan { ⟦<NoDisk as Disk>⟧.loan _disk.new ≡ ⟦<NoDisk as Disk>⟧.loan _disk.old }
    {
        Ok(())
    }

    /// It sends nobody elsewhere.
    fn redirect_url(&mut self, _alloc: Global, _disk: &mut NoDisk) -> Result<Option<Text>, FsError>
        ensures done { FileRedirects (no_disk_state _disk.old.faults _disk.old.asked) None result
            (no_disk_state _disk.new.faults _disk.new.asked) None }
        ensures handle { no_handle ≡ no_handle }
        ensures loan { ⟦<NoDisk as Disk>⟧.loan _disk.new ≡ ⟦<NoDisk as Disk>⟧.loan _disk.old }
    {
        Ok(None)
    }

    fn close(self, _disk: &mut NoDisk)
        ensures done { FileCloses (no_disk_state _disk.old.faults _disk.old.asked) no_handle
            (no_disk_state _disk.new.faults _disk.new.asked) }
        ensures loan { ⟦<NoDisk as Disk>⟧.loan _disk.new ≡ ⟦<NoDisk as Disk>⟧.loan _disk.old }
    {
        let VoidFile = self;
    }

    ghost stays = { λ f s t leaves. tt };

    ghost reads_on = { λ f s t leaves reads. reads };
}
