// What the machine's errors are to the calls of a disk: a refusal that the call may give, or None where it is a fault.
// Each call is refused as a look is, or in a way of its own.
ghost use Rattle.std.specs.Prelude.{◌≡◌, IfSome};
ghost use Rattle.std.specs.IoError.{error_kind};
ghost use Rattle.dav_host.specs.Host.{IsListRefusal, IsWalkRefusal, list_refusal_of, refusal_of};
ghost use Rattle.dav_host.specs.Refusals.{IsFileRefusal, IsMakeRefusal, IsMoveRefusal, IsOpenRefusal, IsTakeDirRefusal};
ghost use Rattle.dav_host.specs.Refusals.{file_refusal_of, make_refusal_of, move_refusal_of, open_refusal_of, take_dir_refusal_of};

use dav_core::DiskError;
use std::io;
use std::io::ErrorKind;

// Of a look.
pub fn refusal(error: &io::Error) -> Option<DiskError>
    ensures value { result ≡ refusal_of (error_kind error.now) }
    ensures walk { IfSome result IsWalkRefusal }
{
    match error.kind() {
        ErrorKind::NotFound => Some(DiskError::NotFound),
        ErrorKind::NotADirectory => Some(DiskError::NotDir),
        _ => None,
    }
}

// Of a listing.
pub fn list_refusal(error: &io::Error) -> Option<DiskError>
    ensures value { result ≡ list_refusal_of (error_kind error.now) }
    ensures may { IfSome result IsListRefusal }
{
    match error.kind() {
        ErrorKind::OutOfMemory => Some(DiskError::NoMemory),
        _ => refusal(error),
    }
}

// Of an opening, which may change something or not.
pub fn open_refusal(error: &io::Error, may_change: bool) -> Option<DiskError>
    ensures value { result ≡ open_refusal_of may_change (error_kind error.now) }
    ensures may { IfSome result (IsOpenRefusal may_change) }
{
    match error.kind() {
        ErrorKind::AlreadyExists if may_change => Some(DiskError::Exists),
        ErrorKind::IsADirectory if may_change => Some(DiskError::IsDir),
        _ => refusal(error),
    }
}

// Of the making of a directory.
pub fn make_refusal(error: &io::Error) -> Option<DiskError>
    ensures value { result ≡ make_refusal_of (error_kind error.now) }
    ensures may { IfSome result IsMakeRefusal }
{
    match error.kind() {
        ErrorKind::AlreadyExists => Some(DiskError::Exists),
        _ => refusal(error),
    }
}

// Of the removal of a directory. Of one with members some file systems say that something stands there.
pub fn take_dir_refusal(error: &io::Error) -> Option<DiskError>
    ensures value { result ≡ take_dir_refusal_of (error_kind error.now) }
    ensures may { IfSome result IsTakeDirRefusal }
{
    match error.kind() {
        ErrorKind::DirectoryNotEmpty | ErrorKind::AlreadyExists => Some(DiskError::NotEmpty),
        _ => refusal(error),
    }
}

// Of the removal of a file, and of a copy.
pub fn file_refusal(error: &io::Error) -> Option<DiskError>
    ensures value { result ≡ file_refusal_of (error_kind error.now) }
    ensures may { IfSome result IsFileRefusal }
{
    match error.kind() {
        ErrorKind::IsADirectory => Some(DiskError::IsDir),
        _ => refusal(error),
    }
}

// Of a renaming, which leads into what is renamed or doesn't.
pub fn move_refusal(error: &io::Error, inside: bool) -> Option<DiskError>
    ensures value { result ≡ move_refusal_of inside (error_kind error.now) }
    ensures may { IfSome result IsMoveRefusal }
{
    match error.kind() {
        ErrorKind::IsADirectory => Some(DiskError::IsDir),
        ErrorKind::InvalidInput if inside => Some(DiskError::NotEmpty),
        _ => take_dir_refusal(error),
    }
}
