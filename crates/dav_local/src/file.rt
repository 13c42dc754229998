ghost use Rattle.std.specs.Prelude.{◌≡◌, ◌⊎◌, ◌<◌, ℕ, Err, IsSome, None, Ok, OnErr, false, length};
ghost use Rattle.dav_core.specs.Disk.{can_read};
ghost use Rattle.dav_local.specs.Files.{local_info};
ghost use Rattle.dav_store.specs.Files.{FileReads, FileRedirects, FileSays, FileSeeks, IsFault};
ghost use Rattle.dav_store.specs.Standing.{info_in};

use crate::LocalFsMetaData;
use crate::writing::{write_all, write_pieces};
use bytes::Buf;
use dav_core::{Disk, FsError, Handle};
use dav_io::Text;
use dav_store::DavFile;
use std::alloc::Global;

/// A file that is open on a disk.
#[derive(Debug, Drop)]
pub struct LocalFsFile {
    pub(crate) handle: Handle,
}

impl LocalFsFile {
    /// The handle of the disk that it holds.
    pub fn handle(&self) -> Handle
        ensures { result ≡ self.now.handle }
    {
        self.handle
    }
}

impl<D: Disk> DavFile<D> for LocalFsFile {
    ghost use Rattle.dav_local.specs.Files.{AsksMeta, AsksRead, AsksSeek, seen_by};
    ghost use Rattle.dav_local.specs.LocalFiles.{local_file};
    ghost use Rattle.dav_local.specs.LocalStays.{local_stays};

    type Meta = LocalFsMetaData;

    ghost view = { local_file };

    /// Its metadata as it is now, by one call of the disk.
    fn metadata(&mut self, disk: &mut D) -> Result<LocalFsMetaData, FsError>
        requires { IsSome ((D.state disk.old).live self.old.handle.0) }
        ensures done { FileSays (D.state disk.old) self.old.handle.0 (seen_by self.old (D.state disk.old))
            (info_in local_info result) (D.state disk.new) (seen_by self.new (D.state disk.new)) }
        ensures handle { self.new.handle.0 ≡ self.old.handle.0 }
        ensures loan { D.loan disk.new ≡ D.loan disk.old }
        ensures asks { AsksMeta (D.state disk.old) self.old.handle.0 result (D.state disk.new) }
    {
        match disk.file_meta(self.handle) {
            Ok(meta) => Ok(LocalFsMetaData::Found(meta)),
            Err(e) => Err(e.into()),
        }
    }

    /// Sets its place, by one call of the disk. It is refused only by a fault, whatever it is.
    fn seek(&mut self, disk: &mut D, place: u64) -> Result<u64, FsError>
        requires { IsSome ((D.state disk.old).live self.old.handle.0) }
        ensures done { FileSeeks (D.state disk.old) self.old.handle.0 (seen_by self.old (D.state disk.old)) place result
            (D.state disk.new) (seen_by self.new (D.state disk.new)) }
        ensures handle { self.new.handle.0 ≡ self.old.handle.0 }
        ensures loan { D.loan disk.new ≡ D.loan disk.old }
        ensures only { OnErr result (IsFault (D.state disk.old) result (D.state disk.new)) }
        ensures asks { AsksSeek (D.state disk.old) self.old.handle.0 place result (D.state disk.new) }
    {
        match disk.seek(self.handle, place) {
            Ok(()) => Ok(place),
            Err(e) => Err(e.into()),
        }
    }

    /// Reads bytes from its place on, by one call of the disk. What is no regular file opened for reading may be
    /// forbidden.
    fn read_into(&mut self, disk: &mut D, into: &mut [u8]) -> Result<usize, FsError>
        requires live { IsSome ((D.state disk.old).live self.old.handle.0) }
        requires room { 0 < length into.old }
        ensures done { FileReads (D.state disk.old) self.old.handle.0 (seen_by self.old (D.state disk.old)) into.new
            result (D.state disk.new) (seen_by self.new (D.state disk.new)) }
        ensures handle { self.new.handle.0 ≡ self.old.handle.0 }
        ensures loan { D.loan disk.new ≡ D.loan disk.old }
        ensures only { OnErr result (IsFault (D.state disk.old) result (D.state disk.new)
            ⊎ ((result ≡ Err FsError.Forbidden) × (can_read ((D.state disk.old).live self.old.handle.0) ≡ false))) }
        ensures asks { AsksRead (D.state disk.old) self.old.handle.0 into.new result (D.state disk.new) }
    {
        match disk.read(self.handle, into) {
            Ok(count) => Ok(count),
            Err(e) => Err(e.into()),
        }
    }

    /// Writes all these bytes, by as many calls of the disk as it takes.
    fn write_bytes(&mut self, disk: &mut D, buf: &[u8]) -> Result<(), FsError> {
        write_all(disk, self.handle, buf)
    }

    /// The same of the bytes of a buffer, one of its pieces after the other.
    fn write_buf<B: Buf + Drop>(&mut self, disk: &mut D, buf: B) -> Result<(), FsError> {
        write_pieces(disk, self.handle, buf)
    }

    fn flush(&mut self, _disk: &mut D) -> Result<(), FsError> {
        Ok(())
    }

    /// None: it sends nobody elsewhere. It asks the disk nothing.
    fn redirect_url(&mut self, _alloc: Global, _disk: &mut D) -> Result<Option<Text>, FsError>
        requires { IsSome ((D.state _disk.old).live self.old.handle.0) }
        ensures done { FileRedirects (D.state _disk.old) (seen_by self.old (D.state _disk.old)) result
            (D.state _disk.new) (seen_by self.new (D.state _disk.new)) }
        ensures handle { self.new.handle.0 ≡ self.old.handle.0 }
        ensures loan { D.loan _disk.new ≡ D.loan _disk.old }
        ensures none { result ≡ Ok None }
        ensures asks { D.state _disk.new ≡ D.state _disk.old }
    {
        Ok(None)
    }

    fn close(self, disk: &mut D) {
        disk.close(self.handle);
        let LocalFsFile { handle: _ } = self;
    }

    ghost stays = { local_stays };

    ghost reads_on = { λ f s t leaves reads. reads };
}
