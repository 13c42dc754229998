ghost use Rattle.std.specs.Prelude.{◌≡◌, ◌<◌, length, IsSome};
ghost use Rattle.dav_core.specs.Disk.{DiskState};
ghost use Rattle.dav_store.specs.FileView.{FileView};
ghost use Rattle.dav_store.specs.Standing.{info_in};
ghost use Rattle.dav_store.specs.Files.{AsksOnce, AsksToGive, SameSeen, LeavesOpen, FileSays, FileSeeks, FileReads, FileGives, FileRedirects, FileFlushes, FileWrites, FileCloses};

use bytes::{Buf, Bytes};
use dav_core::{DavMetaData, Disk, FsError};
use dav_io::Text;
use std::alloc::Global;

/// An open file. Its calls take the disk on which it was opened, and it is live there. A file isn't dropped: `close`
/// ends it.
pub trait DavFile<D: Disk> {
    type Meta: DavMetaData + Drop;

    /// What it is on its disk, and what its calls may answer.
    ghost view: { FileView Self };

    /// Its metadata as it is now. It is refused only by a fault.
    fn metadata(&mut self, disk: &mut D) -> Result<Self::Meta, FsError>
        requires { IsSome ((D.state disk.old).live (view.handle self.old)) }
        ensures done { FileSays (D.state disk.old) (view.handle self.old) (view.seen self.old (D.state disk.old))
            (info_in Self.Meta.info result) (D.state disk.new) (view.seen self.new (D.state disk.new)) }
        ensures reads_from { view.reads_from self.old (D.state disk.old) → view.reads_from self.new (D.state disk.new) }
        ensures handle { view.handle self.new ≡ view.handle self.old }
        ensures becomes { view.becomes self.old self.new }
        ensures loan { D.loan disk.new ≡ D.loan disk.old };

    /// Sets its place, in bytes from its first, and answers that place. A regular file that was opened for reading is
    /// refused only by a fault.
    fn seek(&mut self, disk: &mut D, place: u64) -> Result<u64, FsError>
        requires live { IsSome ((D.state disk.old).live (view.handle self.old)) }
        requires reads_from { view.reads_from self.old (D.state disk.old) }
        ensures done { FileSeeks (D.state disk.old) (view.handle self.old) (view.seen self.old (D.state disk.old))
            place result (D.state disk.new) (view.seen self.new (D.state disk.new)) }
        ensures reads_from { view.reads_from self.new (D.state disk.new) }
        ensures asks { view.asks_once → AsksOnce (D.state disk.old) (D.state disk.new) }
        ensures handle { view.handle self.new ≡ view.handle self.old }
        ensures becomes { view.becomes self.old self.new }
        ensures loan { D.loan disk.new ≡ D.loan disk.old };

    /// Reads bytes from its place on to the front of `into`, and answers how many. 0 comes exactly where no byte stands
    /// there. A regular file that was opened for reading is refused only by a fault.
    fn read_into(&mut self, disk: &mut D, into: &mut [u8]) -> Result<usize, FsError>
        requires live { IsSome ((D.state disk.old).live (view.handle self.old)) }
        requires reads_from { view.reads_from self.old (D.state disk.old) }
        requires room { 0 < length into.old }
        ensures done { FileReads (D.state disk.old) (view.handle self.old) (view.seen self.old (D.state disk.old))
            into.new result (D.state disk.new) (view.seen self.new (D.state disk.new)) }
        ensures reads_from { view.reads_from self.new (D.state disk.new) }
        ensures asks { view.asks_once → AsksOnce (D.state disk.old) (D.state disk.new) }
        ensures handle { view.handle self.new ≡ view.handle self.old }
        ensures becomes { view.becomes self.old self.new }
        ensures loan { D.loan disk.new ≡ D.loan disk.old };

    /// Reads at most `count` bytes from its place on, by one read of the disk. Where the memory of the answer is
    /// refused, the bytes may be read already.
    fn read_bytes(&mut self, alloc: Global, disk: &mut D, count: usize) -> Result<Bytes, FsError>
        requires live { IsSome ((D.state disk.old).live (view.handle self.old)) }
        requires reads_from { view.reads_from self.old (D.state disk.old) }
        requires some { 0 < count }
        ensures done { FileGives (D.state disk.old) (view.handle self.old) (view.seen self.old (D.state disk.old))
            count result (D.state disk.new) (view.seen self.new (D.state disk.new)) }
        ensures reads_from { view.reads_from self.new (D.state disk.new) }
        ensures asks { view.asks_once → AsksToGive result (D.state disk.old) (D.state disk.new) }
        ensures handle { view.handle self.new ≡ view.handle self.old }
        ensures becomes { view.becomes self.old self.new }
        ensures loan { D.loan disk.new ≡ D.loan disk.old }
    {
        let Ok(mut buffer) = vec![in alloc; 0u8; count] else {
            return Err(FsError::NoMemory);
        };
        let length = self.read_into(disk, buffer.as_mut_slice())?;
        buffer.truncate(length);
        match Bytes::from_vec(buffer) {
            Ok(bytes) => Ok(bytes),
            Err(_) => Err(FsError::NoMemory),
        }
    }

    /// Writes all these bytes at its place, or at its end where it was opened to append. A refused write may have
    /// written a front of them.
    fn write_bytes(&mut self, disk: &mut D, buf: &[u8]) -> Result<(), FsError>
        requires live { IsSome ((D.state disk.old).live (view.handle self.old)) }
        requires reads_from { view.reads_from self.old (D.state disk.old) }
        ensures done { view.writes self.old (D.state disk.old) buf.now result self.new (D.state disk.new) }
        ensures one { FileWrites (D.state disk.old) (view.handle self.old) (view.seen self.old (D.state disk.old))
            buf.now result (D.state disk.new) (view.seen self.new (D.state disk.new)) }
        ensures reads_from { view.reads_from self.new (D.state disk.new) }
        ensures handle { view.handle self.new ≡ view.handle self.old }
        ensures becomes { view.becomes self.old self.new }
        ensures loan { D.loan disk.new ≡ D.loan disk.old };

    /// The same of the bytes of a buffer.
    fn write_buf<B: Buf + Drop>(&mut self, disk: &mut D, buf: B) -> Result<(), FsError>
        requires live { IsSome ((D.state disk.old).live (view.handle self.old)) }
        requires reads_from { view.reads_from self.old (D.state disk.old) }
        ensures done { view.writes self.old (D.state disk.old) (B.unread buf) result self.new (D.state disk.new) }
        ensures one { FileWrites (D.state disk.old) (view.handle self.old) (view.seen self.old (D.state disk.old))
            (B.unread buf) result (D.state disk.new) (view.seen self.new (D.state disk.new)) }
        ensures reads_from { view.reads_from self.new (D.state disk.new) }
        ensures handle { view.handle self.new ≡ view.handle self.old }
        ensures becomes { view.becomes self.old self.new }
        ensures loan { D.loan disk.new ≡ D.loan disk.old };

    /// Writes out what is held back, of which there is nothing. It asks the disk nothing.
    fn flush(&mut self, disk: &mut D) -> Result<(), FsError>
        requires { IsSome ((D.state disk.old).live (view.handle self.old)) }
        ensures done { FileFlushes (D.state disk.old) (view.seen self.old (D.state disk.old)) result (D.state disk.new)
            (view.seen self.new (D.state disk.new)) }
        ensures reads_from { view.reads_from self.old (D.state disk.old) → view.reads_from self.new (D.state disk.new) }
        ensures handle { view.handle self.new ≡ view.handle self.old }
        ensures becomes { view.becomes self.old self.new }
        ensures loan { D.loan disk.new ≡ D.loan disk.old };

    /// The address to which it sends a client, where it has one: a text of printable ASCII. It asks the disk at most
    /// once.
    fn redirect_url(&mut self, alloc: Global, disk: &mut D) -> Result<Option<Text>, FsError>
        requires { IsSome ((D.state disk.old).live (view.handle self.old)) }
        ensures done { FileRedirects (D.state disk.old) (view.seen self.old (D.state disk.old)) result
            (D.state disk.new) (view.seen self.new (D.state disk.new)) }
        ensures reads_from { view.reads_from self.old (D.state disk.old) → view.reads_from self.new (D.state disk.new) }
        ensures handle { view.handle self.new ≡ view.handle self.old }
        ensures becomes { view.becomes self.old self.new }
        ensures loan { D.loan disk.new ≡ D.loan disk.old };

    /// Ends it.
    fn close(self, disk: &mut D)
        requires { IsSome ((D.state disk.old).live (view.handle self)) }
        ensures done { FileCloses (D.state disk.old) (view.handle self) (D.state disk.new) }
        ensures loan { D.loan disk.new ≡ D.loan disk.old };

    /// What others do leaves its number and its place.
    ghost stays: { (f : Self) (s t : DiskState) → LeavesOpen (view.handle f) s t
        → SameSeen (view.seen f s) (view.seen f t) };

    /// Nor does it keep it from being moved, read or written.
    ghost reads_on: { (f : Self) (s t : DiskState) → LeavesOpen (view.handle f) s t
        → view.reads_from f s → view.reads_from f t };
}
