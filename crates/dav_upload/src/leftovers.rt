//! What was left before a time is chosen, and removed.
ghost use Rattle.std.specs.Prelude.{◌≡◌, ◌++◌, [], ◌∷◌, Err, IfOk, MatchResult, Ok, OnOk};
ghost use Rattle.std.specs.List.{AllByRecursion};
ghost use Rattle.dav_store.specs.Members.{IsNamedPlain};
ghost use Rattle.dav_store.specs.View.{Stays, StaysOpen};
ghost use Rattle.dav_upload.specs.Uploading.{in_dir};
ghost use Rattle.dav_upload.specs.Sweeping.{Chooses, SweepsBefore, TakesEach, TakesPath, is_before as the_is_before, is_left_before as the_is_left_before, left_before as the_left_before, was_before as the_was_before};

use crate::error::{UploadError, refused_by};
use crate::names::is_hidden;
use dav_core::{DavPath, FileTime, FsError, Kind, Member};
use dav_io::NoMemory;
use dav_store::{GuardedFileSystem, read_members};
use std::alloc::Global;

// Whether a time is before another.
fn is_before(time: FileTime, limit: FileTime) -> bool
    ensures { result ≡ the_is_before time limit }
{
    time.secs < limit.secs || (time.secs == limit.secs && time.nanos < limit.nanos)
}

// Whether what is known of a time is before another.
fn was_before(limit: FileTime, known: Option<FileTime>) -> bool
    ensures { result ≡ the_was_before limit known }
{
    match known {
        Some(time) => is_before(time, limit),
        None => false,
    }
}

// Whether a member is a regular file with a hidden name that was changed before a time.
fn is_left_before(limit: FileTime, member: &Member) -> bool
    ensures { result ≡ the_is_left_before limit member.now }
{
    member.kind == Kind::File
        && (is_hidden(member.name.as_str()) && was_before(limit, member.modified))
}

// The path of a member of a directory, as one of no directory.
fn path_in(dir: &DavPath, member: &Member) -> Result<DavPath, NoMemory>
    requires { IsNamedPlain member.now }
    ensures { IfOk result (λ path. path ≡ in_dir dir.now member.now.name) }
{
    let mut path = dir.try_clone()?;
    path.push_segment(member.name.as_str())?;
    Ok(path)
}

// Adds the path of a member, where it was left before a time.
fn add_left(
    dir: &DavPath,
    limit: FileTime,
    member: &Member,
    paths: &mut Vec<DavPath>,
) -> Result<(), NoMemory>
    requires { IsNamedPlain member.now }
    ensures { OnOk result (paths.new.items ≡ paths.old.items ++ the_left_before limit dir.now (member.now ∷ [])) }
{
    if is_left_before(limit, member) {
        paths.push(path_in(dir, member)?)?;
    }
    Ok(())
}

// The paths of those of a directory's members that were left before a time.
fn paths_before(
    alloc: Global,
    dir: &DavPath,
    limit: FileTime,
    members: &[Member],
) -> Result<Vec<DavPath>, NoMemory>
    requires plain { AllByRecursion IsNamedPlain members.now }
    ensures { IfOk result (λ paths. paths.items ≡ the_left_before limit dir.now members.now) }
{
    let mut paths = Vec::new(alloc);
    'members: for member in members {
        add_left(dir, limit, member, &mut paths)?;
    }
    Ok(paths)
}

/// The paths of the regular files with hidden names of a directory that were changed before a time, by what the store
/// tells of them. A member whose metadata it refuses, as of one that is gone meanwhile, isn't among them, and nor is one
/// whose time isn't known.
///
/// Errors: what the store refuses the listing with; want of memory.
pub fn left_before<S: GuardedFileSystem<C>, C>(
    alloc: Global,
    fs: &mut S,
    credentials: &C,
    dir: &DavPath,
    limit: FileTime,
) -> Result<Vec<DavPath>, UploadError>
    ensures table { MatchResult result
        (λ paths. Chooses S.view S.listings credentials.now dir.now limit fs.old (Ok paths.items) fs.new)
        (λ e. Chooses S.view S.listings credentials.now dir.now limit fs.old (Err e) fs.new) }
    ensures stays { Stays S.view fs.old fs.new }
{
    match read_members(alloc, fs, dir, credentials) {
        Ok(members) => match paths_before(alloc, dir, limit, &members) {
            Ok(paths) => Ok(paths),
            Err(_) => Err(UploadError::NoMemory),
        },
        Err(refusal) => Err(refused_by(refusal)),
    }
}

// Removes the file at a path, and answers how many that are: none, where its name is gone.
fn take_path<S: GuardedFileSystem<C>, C>(
    fs: &mut S,
    credentials: &C,
    path: &DavPath,
) -> Result<u64, UploadError>
    ensures table { TakesPath S.view credentials.now path.now fs.old result fs.new }
    ensures stays { StaysOpen S.view fs.old fs.new }
{
    match fs.remove_file(path, credentials) {
        Ok(()) => Ok(1),
        Err(FsError::NotFound) => Ok(0),
        Err(refusal) => Err(refused_by(refusal)),
    }
}

/// Removes the files at these paths, in their order, and answers how many. A name that is gone meanwhile is passed over:
/// so what `left_before` chose can be looked at before it goes.
///
/// Errors: the first refusal of a removal, where those before it stay removed.
pub fn take_each<S: GuardedFileSystem<C>, C>(
    fs: &mut S,
    credentials: &C,
    paths: &[DavPath],
) -> Result<u64, UploadError>
    ensures table { TakesEach S.view credentials.now paths.now 0 fs.old result fs.new }
    ensures stays { StaysOpen S.view fs.old fs.new }
{
    let mut count: u64 = 0;
    'paths: for path in paths {
        match take_path(fs, credentials, path) {
            Ok(taken) => count += taken,
            Err(error) => return Err(error),
        }
    }
    Ok(count)
}

/// Removes the regular files with hidden names of a directory that were changed before a time, as `left_before` chooses
/// them, and answers how many. A name that is gone meanwhile is passed over. Uploads may be open in it: the time is to
/// be so long ago that each of them was written to since.
///
/// Errors: what the store refuses the listing with; the first refusal of a removal, where those before it stay removed;
/// want of memory.
pub fn sweep_before<S: GuardedFileSystem<C>, C>(
    alloc: Global,
    fs: &mut S,
    credentials: &C,
    dir: &DavPath,
    limit: FileTime,
) -> Result<u64, UploadError>
    ensures table { SweepsBefore S.view S.listings credentials.now dir.now limit fs.old result fs.new }
    ensures stays { StaysOpen S.view fs.old fs.new }
{
    match left_before(alloc, fs, credentials, dir, limit) {
        Ok(paths) => take_each(fs, credentials, &paths),
        Err(error) => Err(error),
    }
}
