//! What runs that were cut off left is removed.
ghost use Rattle.dav_store.specs.View.{StaysOpen};
ghost use Rattle.dav_walks.specs.Walking.{member_at, members_at};
ghost use Rattle.dav_upload.specs.Uploading.{Sweeps, TakesAll, TakesMember, hidden_files};

use crate::error::{UploadError, refused_by};
use crate::names::is_hidden;
use dav_core::DavPath;
use dav_store::GuardedFileSystem;
use dav_walks::{Member, read_members};
use std::alloc::Global;

// Removes a member of a directory, where it is a file with a hidden name, and answers how many that are.
fn take_member<S: GuardedFileSystem<C>, C>(
    fs: &mut S,
    credentials: &C,
    dir: &DavPath,
    member: &Member,
) -> Result<u64, UploadError>
    ensures table { TakesMember S.view S.listings credentials.now dir.now (member_at dir.now member.now) fs.old result fs.new }
    ensures stays { StaysOpen S.view fs.old fs.new }
{
    if member.dir || !is_hidden(member.name.as_str()) {
        return Ok(0);
    }
    let Ok(mut path) = dir.try_clone() else {
        return Err(UploadError::NoMemory);
    };
    let Ok(()) = path.push_segment(member.name.as_str()) else {
        return Err(UploadError::NoMemory);
    };
    match fs.remove_file(&path, credentials) {
        Ok(()) => Ok(1),
        Err(refusal) => Err(refused_by(refusal)),
    }
}

// Removes the files with hidden names among the members of a directory, and answers how many.
fn take_members<S: GuardedFileSystem<C>, C>(
    fs: &mut S,
    credentials: &C,
    dir: &DavPath,
    members: &[Member],
) -> Result<u64, UploadError>
    ensures table { TakesAll S.view S.listings credentials.now (hidden_files dir.now (members_at dir.now members.now)) 0 fs.old
        result fs.new }
    ensures stays { StaysOpen S.view fs.old fs.new }
{
    let mut count: u64 = 0;
    'members: for member in members {
        match take_member(fs, credentials, dir, member) {
            Ok(taken) => count += taken,
            Err(error) => return Err(error),
        }
    }
    Ok(count)
}

/// Removes the files with hidden names of a directory, in the order of their names, and answers how many. No upload in
/// it may be open.
///
/// Errors: what the store refuses the reading of the directory with; the first refusal of a removal, where those before
/// it stay removed; want of memory.
pub fn sweep<S: GuardedFileSystem<C>, C>(
    alloc: Global,
    fs: &mut S,
    credentials: &C,
    dir: &DavPath,
) -> Result<u64, UploadError>
    ensures table { Sweeps S.view S.listings credentials.now dir.now fs.old result fs.new }
    ensures stays { StaysOpen S.view fs.old fs.new }
{
    match read_members(alloc, fs, credentials, dir) {
        Ok(members) => take_members(fs, credentials, dir, &members),
        Err(refusal) => Err(refused_by(refusal)),
    }
}
