// What the machine says of a file, as a disk's answer.
ghost use Rattle.std.specs.Prelude.{◌≡◌, ◌<◌, pos, IfSome};
ghost use Rattle.std.specs.Fs.{file_type};
ghost use Rattle.dav_host.specs.Kinds.{IsKind, Tells};

use dav_core::{DiskError, FileTime, Kind, Meta};
use std::fs::Metadata;
use std::os::unix::fs::MetadataExt;
use std::time::UNIX_EPOCH;

fn file_time(secs: i64, nanos: i64) -> Option<FileTime>
    ensures { IfSome result (λ time. (time.secs ≡ secs) × (pos time.nanos ≡ nanos) × (time.nanos < 1_000_000_000)) }
{
    let nanos = u32::try_from(nanos).ok()?;
    (nanos < 1_000_000_000).then_some(FileTime { secs, nanos })
}

fn created_time(found: &Metadata) -> Option<FileTime> {
    let since = found.created().ok()?.duration_since(UNIX_EPOCH).ok()?;
    let secs = i64::try_from(since.as_secs()).ok()?;
    Some(FileTime {
        secs,
        nanos: since.subsec_nanos(),
    })
}

// None for what is neither a directory nor a regular file nor a symbolic link.
fn kind_of(found: &Metadata) -> Option<Kind>
    ensures { IsKind (file_type found.now) result }
{
    if found.is_dir() {
        return Some(Kind::Dir);
    }
    if found.is_symlink() {
        return Some(Kind::Link);
    }
    found.is_file().then_some(Kind::File)
}

// What the machine says, or `Failed` where a disk has no kind for it. The owner may run it where bit 0o100 of its mode is
// set.
pub fn told(found: &Metadata) -> Result<Meta, DiskError>
    ensures { Tells found.now result }
{
    let Some(kind) = kind_of(found) else {
        return Err(DiskError::Failed);
    };
    Ok(Meta {
        kind,
        number: found.ino(),
        len: found.len(),
        modified: file_time(found.mtime(), found.mtime_nsec()),
        created: created_time(found),
        accessed: file_time(found.atime(), found.atime_nsec()),
        changed: file_time(found.ctime(), found.ctime_nsec()),
        exec: found.mode() & 0o100 != 0,
    })
}
