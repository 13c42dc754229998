//! The calls of an upload that may be under way, over any store. What they answer is added to a line.
ghost use Rattle.std.specs.Prelude.{◌≡◌, ◌<◌, IsSome, None, Some, length};
ghost use Rattle.dav_core.specs.Disk.{DiskState};
ghost use Rattle.upload_rows.specs.Slots.{Goes, IsLive, upload_of};

use dav_core::{DavError, DavPath, FsError, ParseError};
use dav_rows::Line;
use dav_store::{DavFile, GuardedFileSystem};
use dav_upload::{Upload, UploadError, abort, begin, commit, piece};
use http::HeaderMap;
use std::alloc::Global;

/// A call of an upload.
#[derive(Clone, Copy)]
pub enum Call<'a> {
    Begin { path: &'a DavPath, token: u64 },
    Piece(&'a str),
    Commit,
    Abort,
}

// Want of memory has no status.
fn tell_dav(line: &mut Line, error: DavError) {
    match error {
        DavError::NoMemory
        | DavError::Path(ParseError::NoMemory)
        | DavError::Fs(FsError::NoMemory) => line.refuse(),
        DavError::Body => line.add("broken"),
        _ => line.add_number("refused ", u64::from(error.statuscode().as_u16())),
    }
}

/// Adds a refusal.
pub fn tell_refusal(line: &mut Line, error: UploadError) {
    match error {
        UploadError::Dav(error) => tell_dav(line, error),
        UploadError::Busy { name } => line.tell("busy ", name.as_str()),
        UploadError::Hidden => line.add("hidden"),
        UploadError::NoMemory => line.refuse(),
    }
}

fn tell_done(line: &mut Line, answer: Result<(), UploadError>) {
    match answer {
        Ok(()) => line.add("ok"),
        Err(error) => tell_refusal(line, error),
    }
}

// Begins an upload where none is under way.
#[tactic(auto, using(crate::proofs::SlotsGo::goes_made, crate::proofs::SlotsGo::goes_kept))]
fn begin_here<S: GuardedFileSystem<()>>(
    alloc: Global,
    line: &mut Line,
    fs: &mut S,
    path: &DavPath,
    fields: &HeaderMap,
    token: u64,
) -> Option<Upload<S::File>>
    ensures { Goes None (S.view.state fs.old) (upload_of S.view.file.handle result) (S.view.state fs.new) }
{
    match begin(alloc, fs, &(), path, fields, token) {
        Ok(upload) => {
            line.add("ok");
            Some(upload)
        }
        Err(error) => {
            tell_refusal(line, error);
            None
        }
    }
}

// Writes a piece. One without bytes isn't handed on.
#[tactic(auto, using(crate::proofs::SlotsGo::goes_on, crate::proofs::SlotsGo::goes_kept))]
fn piece_here<S: GuardedFileSystem<()>>(
    line: &mut Line,
    fs: &mut S,
    mut upload: Upload<S::File>,
    bytes: &str,
) -> Option<Upload<S::File>>
    requires live { IsSome ((S.view.state fs.old).live (S.view.file.handle upload.file)) }
    requires reads_from { (f : S.File) (s : DiskState) → S.view.file.reads_from f s }
    ensures { Goes (Some (S.view.file.handle upload.file)) (S.view.state fs.old) (upload_of S.view.file.handle result)
        (S.view.state fs.new) }
{
    if bytes.is_empty() {
        line.add("no bytes");
        return Some(upload);
    }
    let answer = piece::<S, ()>(fs, &mut upload, bytes.as_bytes());
    tell_done(line, answer);
    Some(upload)
}

#[tactic(auto, using(crate::proofs::SlotsGo::goes_ended))]
fn commit_here<S: GuardedFileSystem<()>>(
    alloc: Global,
    line: &mut Line,
    fs: &mut S,
    upload: Upload<S::File>,
    fields: &HeaderMap,
) -> Option<Upload<S::File>>
    requires { IsSome ((S.view.state fs.old).live (S.view.file.handle upload.file)) }
    ensures { Goes (Some (S.view.file.handle upload.file)) (S.view.state fs.old) (upload_of S.view.file.handle result)
        (S.view.state fs.new) }
{
    match commit(alloc, fs, &(), upload, fields) {
        Ok(outcome) => line.add_number("", u64::from(outcome.status)),
        Err(error) => tell_refusal(line, error),
    }
    None
}

#[tactic(auto, using(crate::proofs::SlotsGo::goes_ended))]
fn abort_here<S: GuardedFileSystem<()>>(
    line: &mut Line,
    fs: &mut S,
    upload: Upload<S::File>,
) -> Option<Upload<S::File>>
    requires { IsSome ((S.view.state fs.old).live (S.view.file.handle upload.file)) }
    ensures { Goes (Some (S.view.file.handle upload.file)) (S.view.state fs.old) (upload_of S.view.file.handle result)
        (S.view.state fs.new) }
{
    tell_done(line, abort(fs, &(), upload));
    None
}

/// Makes a call of the upload that may be under way, and gives what is under way then.
#[tactic(auto, using(crate::proofs::SlotsGo::goes_same))]
pub fn step<S: GuardedFileSystem<()>>(
    alloc: Global,
    line: &mut Line,
    fs: &mut S,
    slot: Option<Upload<S::File>>,
    call: &Call<'_>,
    fields: &HeaderMap,
) -> Option<Upload<S::File>>
    requires live { IsLive (upload_of S.view.file.handle slot) (S.view.state fs.old) }
    requires reads_from { (f : S.File) (s : DiskState) → S.view.file.reads_from f s }
    ensures { Goes (upload_of S.view.file.handle slot) (S.view.state fs.old) (upload_of S.view.file.handle result)
        (S.view.state fs.new) }
{
    match slot {
        None => match call {
            Call::Begin { path, token } => begin_here(alloc, line, fs, path, fields, *token),
            _ => {
                line.add("none is under way");
                None
            }
        },
        Some(upload) => match call {
            Call::Begin {
                path: _path,
                token: _token,
            } => {
                line.add("one is under way");
                Some(upload)
            }
            Call::Piece(bytes) => piece_here(line, fs, upload, bytes),
            Call::Commit => commit_here(alloc, line, fs, upload, fields),
            Call::Abort => abort_here(line, fs, upload),
        },
    }
}
