// Calls of a disk at places that were found, as a store answers them, each with what it leaves of what is open.
ghost use Rattle.std.specs.Prelude.{◌≡◌, Result, true};
ghost use Rattle.dav_core.specs.declared.handle.DiskError.{DiskError};
ghost use Rattle.dav_core.specs.declared.handle.Handle.{Handle};
ghost use Rattle.dav_core.specs.Disk.{DiskState, Opens};
ghost use Rattle.dav_core.specs.Writing.{Copies, CreatesDir, RemovesDir, RemovesFile, Renames};
ghost use Rattle.dav_store.specs.Frames.{KeepsOpen, OpensOne};
ghost use Rattle.dav_local.specs.Calls.{AfterMove, MakesMissing, MovesAgain, again_by, blocked_by};
ghost use Rattle.dav_local.specs.Files.{done_by, filed};
ghost use Rattle.dav_local.specs.LocalFiles.{local_file};

use crate::LocalFsFile;
use crate::lists::look;
use crate::meta::done;
use dav_core::{Disk, DiskError, FsError, FsPath, Kind, OpenOptions};

// Opens what stands at a place.
pub fn open_at<D: Disk>(
    disk: &mut D,
    at: &FsPath,
    options: OpenOptions,
    public: bool,
) -> Result<LocalFsFile, FsError>
    ensures done { (answer : Result Handle DiskError)
        × Opens (D.state disk.old) at.now options answer (D.state disk.new) × (result ≡ filed answer) }
    ensures one { OpensOne local_file options (D.state disk.old) result (D.state disk.new) }
    ensures loan { D.loan disk.new ≡ D.loan disk.old }
{
    match disk.open(at, options, public) {
        Ok(handle) => Ok(LocalFsFile { handle }),
        Err(error) => Err(error.into()),
    }
}

// Makes a directory.
pub fn make_at<D: Disk>(disk: &mut D, at: &FsPath, public: bool) -> Result<(), FsError>
    ensures done { (answer : Result Unit DiskError) × CreatesDir (D.state disk.old) at.now answer (D.state disk.new)
        × (result ≡ done_by answer) }
    ensures keeps { KeepsOpen (D.state disk.old) (D.state disk.new) }
    ensures loan { D.loan disk.new ≡ D.loan disk.old }
{
    done(disk.create_dir(at, public))
}

// Removes a directory.
pub fn take_dir_at<D: Disk>(disk: &mut D, at: &FsPath) -> Result<(), FsError>
    ensures done { (answer : Result Unit DiskError) × RemovesDir (D.state disk.old) at.now answer (D.state disk.new)
        × (result ≡ done_by answer) }
    ensures keeps { KeepsOpen (D.state disk.old) (D.state disk.new) }
    ensures loan { D.loan disk.new ≡ D.loan disk.old }
{
    done(disk.remove_dir(at))
}

// Removes a file at the disk.
fn remove_at<D: Disk>(disk: &mut D, at: &FsPath) -> Result<(), DiskError>
    ensures done { RemovesFile (D.state disk.old) at.now result (D.state disk.new) }
    ensures keeps { KeepsOpen (D.state disk.old) (D.state disk.new) }
    ensures loan { D.loan disk.new ≡ D.loan disk.old }
{
    disk.remove_file(at)
}

// Removes a file.
pub fn take_file_at<D: Disk>(disk: &mut D, at: &FsPath) -> Result<(), FsError>
    ensures done { (answer : Result Unit DiskError) × RemovesFile (D.state disk.old) at.now answer (D.state disk.new)
        × (result ≡ done_by answer) }
    ensures keeps { KeepsOpen (D.state disk.old) (D.state disk.new) }
    ensures loan { D.loan disk.new ≡ D.loan disk.old }
{
    done(remove_at(disk, at))
}

// Copies a file.
pub fn copy_at<D: Disk>(disk: &mut D, from: &FsPath, to: &FsPath) -> Result<(), FsError>
    ensures done { (answer : Result Unit DiskError)
        × Copies (D.state disk.old) from.now to.now answer (D.state disk.new) × (result ≡ done_by answer) }
    ensures keeps { KeepsOpen (D.state disk.old) (D.state disk.new) }
    ensures loan { D.loan disk.new ≡ D.loan disk.old }
{
    done(disk.copy(from, to))
}

// Moves what stands there.
fn rename_at<D: Disk>(disk: &mut D, from: &FsPath, to: &FsPath) -> Result<(), DiskError>
    ensures done { Renames (D.state disk.old) from.now to.now result (D.state disk.new) }
    ensures keeps { KeepsOpen (D.state disk.old) (D.state disk.new) }
    ensures loan { D.loan disk.new ≡ D.loan disk.old }
{
    disk.rename(from, to)
}

// Why a move stays refused that met what is no directory: what refused the call behind it, if that was the disk.
fn blocked(error: DiskError) -> FsError
    ensures { result ≡ blocked_by error }
{
    match error {
        DiskError::Failed | DiskError::NoMemory => error.into(),
        _ => FsError::Forbidden,
    }
}

// What a second move answers, by what the removal did before it.
fn again(removal: Result<(), DiskError>, moved: Result<(), DiskError>) -> Result<(), FsError>
    ensures { result ≡ again_by removal moved }
{
    match (removal, moved) {
        (Err(error), Err(DiskError::NotDir)) => Err(blocked(error)),
        _ => done(moved),
    }
}

// Removes what stands in the way of a directory, and moves it again.
fn move_over<D: Disk>(disk: &mut D, from: &FsPath, to: &FsPath) -> Result<(), FsError>
    ensures done { MovesAgain true from.now to.now (D.state disk.old) result (D.state disk.new) }
    ensures keeps { KeepsOpen (D.state disk.old) (D.state disk.new) }
    ensures loan { D.loan disk.new ≡ D.loan disk.old }
{
    let removal = remove_at(disk, to);
    again(removal, rename_at(disk, from, to))
}

// Moves what stands at a place to another. A directory takes the place of a file.
pub fn move_at<D: Disk>(disk: &mut D, from: &FsPath, to: &FsPath) -> Result<(), FsError>
    ensures done { (answer : Result Unit DiskError) × (m : DiskState)
        × Renames (D.state disk.old) from.now to.now answer m
        × AfterMove answer from.now to.now m result (D.state disk.new) }
    ensures keeps { KeepsOpen (D.state disk.old) (D.state disk.new) }
    ensures loan { D.loan disk.new ≡ D.loan disk.old }
{
    match rename_at(disk, from, to) {
        Err(DiskError::NotDir) => match look(disk, from) {
            Ok(meta) if meta.kind == Kind::Dir => move_over(disk, from, to),
            Ok(_) => Err(FsError::Forbidden),
            Err(error) => Err(blocked(error)),
        },
        answer => done(answer),
    }
}

// Makes a directory where nothing stands.
pub fn make_missing<D: Disk>(disk: &mut D, at: &FsPath, public: bool) -> Result<(), FsError>
    ensures done { MakesMissing at.now (D.state disk.old) result (D.state disk.new) }
    ensures keeps { KeepsOpen (D.state disk.old) (D.state disk.new) }
    ensures loan { D.loan disk.new ≡ D.loan disk.old }
{
    match look(disk, at) {
        Ok(_) => Ok(()),
        Err(DiskError::NotFound) => make_at(disk, at, public),
        Err(error) => Err(error.into()),
    }
}
