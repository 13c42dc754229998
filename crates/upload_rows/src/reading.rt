//! Readers of files, over any store: one that ends with its call, and one that stays open from one call to the next. What
//! they answer is added to a line.
ghost use Rattle.std.specs.Prelude.{◌≡◌, IsSome, None, Some};
ghost use Rattle.dav_core.specs.Disk.{DiskState};
ghost use Rattle.dav_store.specs.Frames.{KeepsOpen};
ghost use Rattle.upload_rows.specs.Slots.{Goes, IsLive, file_of};

use dav_core::{DavPath, FsError, OpenOptions};
use dav_rows::Line;
use dav_store::{DavFile, GuardedFileSystem, file_close, file_read};

// The most bytes that are read of a file at once.
const MOST_BYTES: usize = 64;

/// A call of the reader that stays open.
#[derive(Clone, Copy)]
pub enum Reading<'a> {
    Open(&'a DavPath),
    Read(usize),
    Close,
}

// Adds what was read, behind a mark.
fn tell_read(line: &mut Line, mark: &str, read: Result<usize, FsError>, into: &[u8]) {
    match read {
        Ok(count) => {
            let text = str::from_utf8(into.get(..count).unwrap_or(b"?"));
            line.tell(mark, text.unwrap_or("?"));
        }
        Err(error) => line.add_value(&error),
    }
}

/// Reads a file.
#[tactic(auto, using(crate::proofs::SlotsGo::read_closed))]
pub fn get<S: GuardedFileSystem<()>>(line: &mut Line, fs: &mut S, path: &DavPath)
    ensures { KeepsOpen (S.view.state fs.old) (S.view.state fs.new) }
{
    match fs.open(path, OpenOptions::read(), &()) {
        Ok(mut file) => {
            let mut into = [0u8; MOST_BYTES];
            let read = file_read::<S, ()>(fs, &mut file, &mut into);
            file_close::<S, ()>(fs, file);
            tell_read(line, "has ", read, &into);
        }
        Err(error) => line.add_value(&error),
    }
}

// Opens a file where none is open.
#[tactic(auto, using(crate::proofs::SlotsGo::goes_opened, crate::proofs::SlotsGo::goes_unopened))]
fn open_here<S: GuardedFileSystem<()>>(
    line: &mut Line,
    fs: &mut S,
    path: &DavPath,
) -> Option<S::File>
    ensures { Goes None (S.view.state fs.old) (file_of S.view.file.handle result) (S.view.state fs.new) }
{
    match fs.open(path, OpenOptions::read(), &()) {
        Ok(file) => {
            line.add("ok");
            Some(file)
        }
        Err(error) => {
            line.add_value(&error);
            None
        }
    }
}

// Reads on. More bytes than are read at once, or none, aren't asked for.
#[tactic(auto, using(crate::proofs::SlotsGo::goes_read, crate::proofs::SlotsGo::goes_same))]
fn read_here<S: GuardedFileSystem<()>>(
    line: &mut Line,
    fs: &mut S,
    mut file: S::File,
    count: usize,
) -> Option<S::File>
    requires live { IsSome ((S.view.state fs.old).live (S.view.file.handle file)) }
    requires reads_from { (f : S.File) (s : DiskState) → S.view.file.reads_from f s }
    ensures { Goes (Some (S.view.file.handle file)) (S.view.state fs.old) (file_of S.view.file.handle result)
        (S.view.state fs.new) }
{
    if count == 0 || count > MOST_BYTES {
        line.add("no bytes");
        return Some(file);
    }
    let mut into = [0u8; MOST_BYTES];
    let read = file_read::<S, ()>(fs, &mut file, &mut into[..count]);
    tell_read(line, "gives ", read, &into);
    Some(file)
}

/// Closes the file that may be open.
#[tactic(auto, using(crate::proofs::SlotsGo::goes_closed, crate::proofs::SlotsGo::goes_same))]
pub fn close<S: GuardedFileSystem<()>>(fs: &mut S, held: Option<S::File>)
    requires { IsLive (file_of S.view.file.handle held) (S.view.state fs.old) }
    ensures { Goes (file_of S.view.file.handle held) (S.view.state fs.old) None (S.view.state fs.new) }
{
    match held {
        Some(file) => file_close::<S, ()>(fs, file),
        None => {}
    }
}

/// Makes a call of the reader that may be open, and gives what is open then.
#[tactic(auto, using(crate::proofs::SlotsGo::goes_same))]
pub fn read_on<S: GuardedFileSystem<()>>(
    line: &mut Line,
    fs: &mut S,
    held: Option<S::File>,
    call: &Reading<'_>,
) -> Option<S::File>
    requires live { IsLive (file_of S.view.file.handle held) (S.view.state fs.old) }
    requires reads_from { (f : S.File) (s : DiskState) → S.view.file.reads_from f s }
    ensures { Goes (file_of S.view.file.handle held) (S.view.state fs.old) (file_of S.view.file.handle result)
        (S.view.state fs.new) }
{
    match held {
        None => match call {
            Reading::Open(path) => open_here(line, fs, path),
            _ => {
                line.add("none is open");
                None
            }
        },
        Some(file) => match call {
            Reading::Open(_path) => {
                line.add("one is open");
                Some(file)
            }
            Reading::Read(count) => read_here(line, fs, file, *count),
            Reading::Close => {
                close(fs, Some(file));
                line.add("closed");
                None
            }
        },
    }
}
