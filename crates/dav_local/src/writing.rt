// Bytes that are written by as many calls of a disk as it takes.
ghost use Rattle.std.specs.Prelude.{◌≡◌, IsSome};
ghost use Rattle.dav_local.specs.Writing.{WritesAll};

use bytes::Buf;
use dav_core::{Disk, FsError, Handle};

// Writes all bytes to an open file.
pub fn write_all<D: Disk>(disk: &mut D, file: Handle, bytes: &[u8]) -> Result<(), FsError>
    requires { IsSome ((D.state disk.old).live file.0) }
    ensures done { WritesAll file.0 (D.state disk.old) bytes.now result (D.state disk.new) }
    ensures loan { D.loan disk.new ≡ D.loan disk.old }
{
    let mut rest = bytes;
    while !rest.is_empty() {
        match disk.write(file, rest) {
            Ok(count) => {
                let (_, left) = rest.split_at(count);
                rest = left;
            }
            Err(error) => return Err(error.into()),
        }
    }
    Ok(())
}

// Writes all bytes of a buffer to an open file, one of its pieces after the other.
pub fn write_pieces<D: Disk, B: Buf + Drop>(
    disk: &mut D,
    file: Handle,
    mut bytes: B,
) -> Result<(), FsError>
    requires { IsSome ((D.state disk.old).live file.0) }
    ensures done { WritesAll file.0 (D.state disk.old) (B.unread bytes) result (D.state disk.new) }
    ensures loan { D.loan disk.new ≡ D.loan disk.old }
{
    while bytes.has_remaining() {
        match disk.write(file, bytes.chunk()) {
            Ok(count) => bytes.advance(count),
            Err(error) => return Err(error.into()),
        }
    }
    Ok(())
}
