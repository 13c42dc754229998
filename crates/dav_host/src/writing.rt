// The machine's calls that change what stands. Of an error None is a fault. The root stays: a call that names it is
// answered by a look.
ghost use Rattle.std.specs.Prelude.{◌≡◌, ◌⊎◌, IfErr, IfSome};
ghost use Rattle.dav_host.specs.Host.{IsWalkRefusal};
ghost use Rattle.dav_host.specs.Refusals.{IsFileRefusal, IsMakeRefusal, IsMoveRefusal, IsTakeDirRefusal};

use crate::meta::told;
use crate::refusals::{file_refusal, make_refusal, move_refusal, refusal, take_dir_refusal};
use dav_core::{DiskError, Meta};
use dav_io::Text;
use std::fs::{Metadata, OpenFile};
use std::os::unix::fs::{DirBuilderExt, MetadataExt, OpenOptionsExt};
use std::rt::Files;
use std::{fs, io};

// What a look of the machine says. `Failed` is a fault.
fn looked(answer: &io::Result<Metadata>) -> Result<Meta, DiskError>
    ensures { IfErr result (λ e. IsWalkRefusal e ⊎ (e ≡ DiskError.Failed)) }
{
    match answer {
        Ok(found) => told(found),
        Err(error) => Err(refusal(error).unwrap_or(DiskError::Failed)),
    }
}

// What stands at a path. `Failed` is a fault.
pub fn look_at<R: Files>(rt: &R, path: &str) -> Result<Meta, DiskError>
    ensures { IfErr result (λ e. IsWalkRefusal e ⊎ (e ≡ DiskError.Failed)) }
{
    looked(&fs::metadata(rt, path))
}

// What stands at a path, a link at its end not followed. The root is a directory, also where a link leads to it. `Failed`
// is a fault.
pub fn look_at_link<R: Files>(rt: &R, path: &str, is_root: bool) -> Result<Meta, DiskError>
    ensures { IfErr result (λ e. IsWalkRefusal e ⊎ (e ≡ DiskError.Failed)) }
{
    if is_root {
        return look_at(rt, path);
    }
    looked(&fs::symlink_metadata(rt, path))
}

// Why a call doesn't change the root: what the look at a path says, or else this refusal.
fn kept<R: Files>(rt: &R, path: &str, stays: DiskError) -> Option<DiskError>
    ensures { IfSome result (λ e. IsWalkRefusal e ⊎ (e ≡ stays)) }
{
    match look_at(rt, path) {
        Ok(_) => Some(stays),
        Err(DiskError::Failed) => None,
        Err(error) => Some(error),
    }
}

// Makes a directory, open to everybody where `public` is set and else to its owner, less what the process masks.
pub fn make_dir<R: Files>(
    rt: &R,
    path: &str,
    is_root: bool,
    public: bool,
) -> Result<(), Option<DiskError>>
    ensures { IfErr result (λ e. IfSome e IsMakeRefusal) }
{
    if is_root {
        return Err(kept(rt, path, DiskError::Exists));
    }
    let mut builder = fs::DirBuilder::new();
    builder.mode(if public { 0o755 } else { 0o700 });
    match builder.create(rt, path) {
        Ok(()) => Ok(()),
        Err(error) => Err(make_refusal(&error)),
    }
}

// Removes a directory without members.
pub fn take_dir<R: Files>(rt: &R, path: &str, is_root: bool) -> Result<(), Option<DiskError>>
    ensures { IfErr result (λ e. IfSome e IsTakeDirRefusal) }
{
    if is_root {
        return Err(kept(rt, path, DiskError::NotEmpty));
    }
    match fs::remove_dir(rt, path) {
        Ok(()) => Ok(()),
        Err(error) => Err(take_dir_refusal(&error)),
    }
}

// Removes what is no directory.
pub fn take_file<R: Files>(rt: &R, path: &str, is_root: bool) -> Result<(), Option<DiskError>>
    ensures { IfErr result (λ e. IfSome e IsFileRefusal) }
{
    if is_root {
        return Err(kept(rt, path, DiskError::IsDir));
    }
    match fs::remove_file(rt, path) {
        Ok(()) => Ok(()),
        Err(error) => Err(file_refusal(&error)),
    }
}

// How the two paths of a renaming lie to each other: one of them is the root, the second lies below the first or is it,
// or neither.
#[derive(Clone, Copy, PartialEq, Eq)]
pub enum Way {
    OfRoot,
    Inside,
    Apart,
}

pub fn way_of(from: &[Text], to: &[Text]) -> Way {
    if from.is_empty() || to.is_empty() {
        return Way::OfRoot;
    }
    if to.starts_with(from) {
        Way::Inside
    } else {
        Way::Apart
    }
}

// Moves what stands at a path to another.
pub fn move_to<R: Files>(rt: &R, from: &str, to: &str, way: Way) -> Result<(), Option<DiskError>>
    ensures { IfErr result (λ e. IfSome e IsMoveRefusal) }
{
    if way == Way::OfRoot {
        return Err(kept(rt, from, DiskError::NotEmpty));
    }
    match fs::rename(rt, from, to) {
        Ok(()) => Ok(()),
        Err(error) => Err(move_refusal(&error, way == Way::Inside)),
    }
}

// Whether the machine has one file behind both.
fn is_same(one: &Metadata, other: &Metadata) -> bool {
    one.ino() == other.ino() && one.dev() == other.dev()
}

// Opens the file at a path to be read, with what the machine says of it.
fn open_source<R: Files>(rt: &R, path: &str) -> Result<(R::File, Metadata), Option<DiskError>>
    ensures { IfErr result (λ e. IfSome e IsFileRefusal) }
{
    let file = match fs::File::open(rt, path) {
        Ok(file) => file,
        Err(error) => return Err(file_refusal(&error)),
    };
    let Ok(found) = file.metadata() else {
        return Err(None);
    };
    if found.is_dir() {
        return Err(Some(DiskError::IsDir));
    }
    if !found.is_file() {
        return Err(None);
    }
    Ok((file, found))
}

// Opens the file at a path to be written, as it stands, or makes one with the permissions of `like`.
fn open_target<R: Files>(
    rt: &R,
    path: &str,
    like: &Metadata,
) -> Result<(R::File, Metadata), Option<DiskError>>
    ensures { IfErr result (λ e. IfSome e IsFileRefusal) }
{
    let mut options = fs::OpenOptions::new();
    options.write(true).create(true).mode(like.mode() & 0o777);
    let file = match options.open(rt, path) {
        Ok(file) => file,
        Err(error) => return Err(file_refusal(&error)),
    };
    let Ok(found) = file.metadata() else {
        return Err(None);
    };
    Ok((file, found))
}

// Copies a file's bytes into the file at another path, which is made where nothing stands. Where both paths lead to one
// file nothing changes.
pub fn copy_file<R: Files>(rt: &R, from: &str, to: &str) -> Result<(), Option<DiskError>>
    ensures { IfErr result (λ e. IfSome e IsFileRefusal) }
{
    let (mut source, found) = open_source(rt, from)?;
    let (mut target, there) = open_target(rt, to, &found)?;
    if is_same(&found, &there) {
        return Ok(());
    }
    if target.set_len(0).is_err() {
        return Err(None);
    }
    match io::copy(&mut source, &mut target) {
        Ok(_) => Ok(()),
        Err(_) => Err(None),
    }
}
