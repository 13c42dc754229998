//! An upload: its pieces go to a hidden file beside the target, which takes the target's place when all is there.
ghost use Rattle.std.specs.Prelude.{◌≡◌, ◌<◌, ℕ, IfOk, IsSome, Ok, length};
ghost use Rattle.dav_store.specs.View.{StaysBy, StaysOpen};
ghost use Rattle.dav_upload.specs.Pieces.{ClosesUpload, KeepsUpload, upload_options as the_upload_options};
ghost use Rattle.dav_upload.specs.Uploading.{AfterClose, AfterJudged, AfterJudging, Aborts, Begins, Commits, OpensUpload, TriesToRemove, WritesPiece, named_for};
ghost use Rattle.dav_core.specs.DavPath.{WebPath};
ghost use Rattle.dav_walks.specs.Pouring.{WritesFile};

use crate::error::{UploadError, refusal_of, refused_by};
use crate::names::{Named, is_taken, names_of};
use dav_core::{DavError, DavPath, FsError, OpenOptions};
use dav_methods::judge_put;
use dav_model::Outcome;
use dav_store::{DavFile, GuardedFileSystem, file_close};
use http::HeaderMap;
use std::alloc::Global;

/// An upload of a target, with its hidden path, its hidden file open, and whether a piece was refused. It isn't
/// dropped: `commit` or `abort` ends it.
pub struct Upload<F> {
    pub(crate) target: DavPath,
    pub(crate) hidden: DavPath,
    pub(crate) file: F,
    pub(crate) broken: bool,
}

// How a hidden file is opened: it is made, and nothing may stand there.
fn upload_options() -> OpenOptions
    ensures { result ≡ the_upload_options }
{
    OpenOptions {
        read: false,
        write: true,
        append: false,
        truncate: false,
        create: false,
        create_new: true,
    }
}

// Makes the hidden file.
fn open_hidden<S: GuardedFileSystem<C>, C>(
    fs: &mut S,
    credentials: &C,
    named: Named,
    outcome: Outcome,
) -> Result<Upload<S::File>, UploadError>
    ensures opens { (target : WebPath) (token : ℕ) → named ≡ named_for target token
        → AfterJudging S.view credentials.now (Ok outcome) target token fs.old result fs.new }
    ensures stays { StaysBy S.view (λ s t. OpensUpload S.view.file.handle s result t) fs.old fs.new }
    ensures reads_from { IfOk result (λ upload. S.view.file.reads_from upload.file (S.view.state fs.new)) }
{
    let Named {
        target,
        hidden,
        name,
    } = named;
    match fs.open(&hidden, upload_options(), credentials) {
        Ok(file) => Ok(Upload {
            target,
            hidden,
            file,
            broken: false,
        }),
        Err(FsError::Exists) => Err(UploadError::Busy { name }),
        Err(refusal) => Err(refused_by(refusal)),
    }
}

/// Begins an upload to a path, over any store: judges a PUT there up to its precondition, and makes the hidden file of
/// the token beside the target. What is shown stays as it is.
///
/// Errors, in this order: `Hidden` exactly where the path's last name begins with `.upload-`; what a PUT is refused
/// with up to its precondition; `Busy` exactly where the hidden name stands already; the refusal of the opening. Want
/// of memory comes before anything is asked, in the judging, or from the store. `table` tells which call of the store
/// gave the answer.
pub fn begin<S: GuardedFileSystem<C>, C>(
    alloc: Global,
    fs: &mut S,
    credentials: &C,
    path: &DavPath,
    fields: &HeaderMap,
    token: u64,
) -> Result<Upload<S::File>, UploadError>
    ensures table { Begins S.view credentials.now path.now fields.now token fs.old result fs.new }
    ensures stays { StaysBy S.view (λ s t. OpensUpload S.view.file.handle s result t) fs.old fs.new }
    ensures reads_from { IfOk result (λ upload. S.view.file.reads_from upload.file (S.view.state fs.new)) }
{
    if is_taken(path) {
        return Err(UploadError::Hidden);
    }
    let Ok(named) = names_of(alloc, path, token) else {
        return Err(UploadError::NoMemory);
    };
    match judge_put(alloc, fs, credentials, path, fields) {
        Ok(outcome) => open_hidden(fs, credentials, named, outcome),
        Err(error) => Err(refusal_of(error)),
    }
}

// Writes a piece to the hidden file.
fn write_piece<S: GuardedFileSystem<C>, C>(
    fs: &mut S,
    file: &mut S::File,
    bytes: &[u8],
) -> Result<(), FsError>
    requires live { IsSome ((S.view.state fs.old).live (S.view.file.handle file.old)) }
    requires reads_from { S.view.file.reads_from file.old (S.view.state fs.old) }
    ensures writes { WritesFile S.view S.File.view.writes fs.old file.old bytes.now result fs.new file.new }
{
    file.write_bytes(fs.disk(), bytes)
}

// Tries to remove the hidden file. What that answers isn't looked at.
fn try_to_remove<S: GuardedFileSystem<C>, C>(fs: &mut S, credentials: &C, hidden: &DavPath)
    ensures table { TriesToRemove S.view credentials.now hidden.now fs.old fs.new }
    ensures stays { StaysOpen S.view fs.old fs.new }
{
    let _answer = fs.remove_file(hidden, credentials);
}

// Moves the hidden file to the target, or tries to remove it.
fn move_hidden<S: GuardedFileSystem<C>, C>(
    fs: &mut S,
    credentials: &C,
    target: &DavPath,
    hidden: &DavPath,
    outcome: Outcome,
) -> Result<Outcome, UploadError>
    ensures table { AfterJudged S.view credentials.now (Ok outcome) target.now hidden.now fs.old result fs.new }
    ensures stays { StaysOpen S.view fs.old fs.new }
{
    match fs.rename(hidden, target, credentials) {
        Ok(()) => Ok(outcome),
        Err(refusal) => {
            try_to_remove(fs, credentials, hidden);
            Err(refused_by(refusal))
        }
    }
}

// What follows where the hidden file was closed.
fn end<S: GuardedFileSystem<C>, C>(
    alloc: Global,
    fs: &mut S,
    credentials: &C,
    target: &DavPath,
    hidden: &DavPath,
    broken: bool,
    fields: &HeaderMap,
) -> Result<Outcome, UploadError>
    ensures table { AfterClose S.view credentials.now broken target.now hidden.now fields.now fs.old result fs.new }
    ensures stays { StaysOpen S.view fs.old fs.new }
{
    if broken {
        try_to_remove(fs, credentials, hidden);
        return Err(UploadError::Dav(DavError::Body));
    }
    match judge_put(alloc, fs, credentials, target, fields) {
        Ok(outcome) => move_hidden(fs, credentials, target, hidden, outcome),
        Err(error) => {
            try_to_remove(fs, credentials, hidden);
            Err(refusal_of(error))
        }
    }
}

/// Writes a piece of an upload behind those before. Once a piece was refused the upload is broken.
///
/// Errors: `Body` where the upload is broken already, with nothing asked; the refusal of the writing.
pub fn piece<S: GuardedFileSystem<C>, C>(
    fs: &mut S,
    upload: &mut Upload<S::File>,
    bytes: &[u8],
) -> Result<(), UploadError>
    requires live { IsSome ((S.view.state fs.old).live (S.view.file.handle upload.old.file)) }
    requires reads_from { S.view.file.reads_from upload.old.file (S.view.state fs.old) }
    requires some { 0 < length bytes.now }
    ensures table { WritesPiece S.view S.File.view.writes upload.old bytes.now fs.old result fs.new upload.new }
    ensures stays { StaysBy S.view
        (KeepsUpload (S.view.file.handle upload.old.file) (S.view.file.handle upload.new.file)) fs.old fs.new }
    ensures reads_from { S.view.file.reads_from upload.new.file (S.view.state fs.new) }
{
    if upload.broken {
        return Err(UploadError::Dav(DavError::Body));
    }
    match write_piece(fs, &mut upload.file, bytes) {
        Ok(()) => Ok(()),
        Err(refusal) => {
            upload.broken = true;
            Err(refused_by(refusal))
        }
    }
}

/// Ends an upload: closes its file, judges the PUT again up to its precondition, and moves the hidden file to the
/// target: 201 where nothing stood there, 204 where a file did. After any refusal it tries to remove the hidden name.
///
/// Errors, in this order: `Body` where the upload is broken; what a PUT is refused with up to its precondition; the
/// refusal of the move.
pub fn commit<S: GuardedFileSystem<C>, C>(
    alloc: Global,
    fs: &mut S,
    credentials: &C,
    upload: Upload<S::File>,
    fields: &HeaderMap,
) -> Result<Outcome, UploadError>
    requires { IsSome ((S.view.state fs.old).live (S.view.file.handle upload.file)) }
    ensures table { Commits S.view credentials.now upload fields.now fs.old result fs.new }
    ensures stays { StaysBy S.view (ClosesUpload (S.view.file.handle upload.file)) fs.old fs.new }
{
    let Upload {
        target,
        hidden,
        file,
        broken,
    } = upload;
    file_close(fs, file);
    end(alloc, fs, credentials, &target, &hidden, broken, fields)
}

/// Gives an upload up: closes its file, and removes the hidden name.
///
/// Errors: the refusal of the removal.
pub fn abort<S: GuardedFileSystem<C>, C>(
    fs: &mut S,
    credentials: &C,
    upload: Upload<S::File>,
) -> Result<(), UploadError>
    requires { IsSome ((S.view.state fs.old).live (S.view.file.handle upload.file)) }
    ensures table { Aborts S.view credentials.now upload fs.old result fs.new }
    ensures stays { StaysBy S.view (ClosesUpload (S.view.file.handle upload.file)) fs.old fs.new }
{
    let Upload {
        target: _target,
        hidden,
        file,
        broken: _broken,
    } = upload;
    file_close(fs, file);
    match fs.remove_file(&hidden, credentials) {
        Ok(()) => Ok(()),
        Err(refusal) => Err(refused_by(refusal)),
    }
}
