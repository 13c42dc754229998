//! PUT: a file gets the body of the request.
ghost use Rattle.std.specs.Prelude.{◌≡◌, ◌⊎◌, true, IfOk, Ok, Err};
ghost use Rattle.dav_store.specs.View.{Stays, StaysOpen};
ghost use Rattle.dav_methods.specs.Lines.{made, may_put, silent as the_silent, unless};
ghost use Rattle.dav_methods.specs.Putting.{AfterChecks, AfterChecksWhole, MayPut, Puts, PutsWhole, put_options as the_put_options};

use crate::lines::{may_put_new, may_put_over, pass_parent};
use crate::outcomes::{answer, answer_written, created, silent};
use dav_core::{DavError, DavMetaData, DavPath, FsError, OpenOptions};
use dav_model::Outcome;
use dav_store::{BodyReader, GuardedFileSystem, file_close};
use dav_walks::{file_write, pour};
use http::{HeaderMap, StatusCode};
use std::alloc::Global;

// How a PUT opens its file: it is made where nothing stands, and emptied where a file does.
fn put_options() -> OpenOptions
    ensures { result ≡ the_put_options }
{
    OpenOptions {
        read: false,
        write: true,
        append: false,
        truncate: true,
        create: true,
        create_new: false,
    }
}

// The answer of a PUT over what stands, or its refusal.
fn put_over<M: DavMetaData>(
    alloc: Global,
    fields: &HeaderMap,
    meta: &M,
) -> Result<Outcome, DavError>
    ensures { (result ≡ Err DavError.NoMemory) ⊎ (result ≡ unless (may_put fields.now (Ok (M.info meta.now)))
        the_silent) }
{
    answer(may_put_over(alloc, fields, meta), silent(alloc))
}

// The answer of a PUT where a look was refused, or its refusal.
fn put_new(alloc: Global, fields: &HeaderMap, refusal: FsError) -> Result<Outcome, DavError>
    ensures { (result ≡ Err DavError.NoMemory) ⊎ (result ≡ unless (may_put fields.now (Err refusal)) made) }
{
    let outcome = created(alloc)?;
    answer(may_put_new(alloc, fields, refusal), outcome)
}

/// Judges a PUT up to its precondition, before anything is opened, and gives the answer to be given where all goes well:
/// 201 where nothing stands at the path, 204 where a file does.
///
/// Errors, in this order: 405 where a slash ends the path; 409 where no directory stands above, or the refusal of a
/// look there that failed; a refused look at the path, unless nothing stands; 405 where a directory stands; 412 where a
/// precondition isn't met; want of memory.
pub fn judge_put<S: GuardedFileSystem<C>, C>(
    alloc: Global,
    fs: &mut S,
    credentials: &C,
    path: &DavPath,
    fields: &HeaderMap,
) -> Result<Outcome, DavError>
    ensures table { MayPut S.view credentials.now path.now fields.now fs.old result fs.new }
    ensures stays { Stays S.view fs.old fs.new }
{
    if path.is_collection() {
        return Err(DavError::Status(StatusCode::METHOD_NOT_ALLOWED));
    }
    let above = path.parent()?;
    pass_parent(fs, credentials, &above)?;
    match fs.metadata(path, credentials) {
        Ok(meta) => put_over(alloc, fields, &meta),
        Err(refusal) => put_new(alloc, fields, refusal),
    }
}

// Opens the file, writes the body to it, and closes it.
fn put_body<S: GuardedFileSystem<C>, C, B: BodyReader>(
    fs: &mut S,
    credentials: &C,
    path: &DavPath,
    outcome: Outcome,
    body: &mut B,
) -> Result<Outcome, DavError>
    ensures table { AfterChecks S.view S.File.view.writes credentials.now (Ok outcome)
        path.now (B.state body.old) fs.old result fs.new (B.state body.new) }
    ensures stays { StaysOpen S.view fs.old fs.new }
    ensures body_loan { B.loan body.new ≡ B.loan body.old }
{
    let mut file = match fs.open(path, put_options(), credentials) {
        Ok(file) => file,
        Err(refusal) => return Err(DavError::from(refusal)),
    };
    let ended = pour::<S, C, B>(fs, &mut file, body);
    file_close(fs, file);
    answer(ended, outcome)
}

/// Answers a PUT (RFC 9110, section 9.3.4, and RFC 4918, section 9.7) over any store: 201 where nothing stood at the
/// path, 204 where a file did. The reader gave its last piece before; each piece is written as it comes.
///
/// Errors, in this order: 405 where a slash ends the path; 409 where no directory stands above, or the refusal of a
/// look there that failed; a refused look at the path, unless nothing stands; 405 where a directory stands; 412 where a
/// precondition isn't met; the refusal of the opening; and then, the file holding the pieces that were written, `Body`
/// where the reader failed, 413 where it gave 2^60 bytes, and the refusal of a writing. Want of memory comes only
/// before the opening, or from the store. Up to the opening the reader is as it was. `table` tells which call of the
/// store and the reader gave the answer.
pub fn put<S: GuardedFileSystem<C>, C, B: BodyReader>(
    alloc: Global,
    fs: &mut S,
    credentials: &C,
    path: &DavPath,
    fields: &HeaderMap,
    body: &mut B,
) -> Result<Outcome, DavError>
    ensures table { Puts S.view S.File.view.writes credentials.now
        path.now fields.now (B.state body.old) fs.old result fs.new (B.state body.new) }
    ensures read { IfOk result (λ _. (B.state body.new).ended ≡ true) }
    ensures stays { StaysOpen S.view fs.old fs.new }
    ensures body_loan { B.loan body.new ≡ B.loan body.old }
{
    let outcome = match judge_put(alloc, fs, credentials, path, fields) {
        Ok(outcome) => outcome,
        Err(error) => return Err(error),
    };
    put_body(fs, credentials, path, outcome, body)
}

// Opens the file, writes these bytes to it, and closes it.
fn put_bytes<S: GuardedFileSystem<C>, C>(
    fs: &mut S,
    credentials: &C,
    path: &DavPath,
    outcome: Outcome,
    bytes: &[u8],
) -> Result<Outcome, DavError>
    ensures table { AfterChecksWhole S.view S.File.view.writes
        credentials.now (Ok outcome) path.now bytes.now fs.old result fs.new }
    ensures stays { StaysOpen S.view fs.old fs.new }
{
    let mut file = match fs.open(path, put_options(), credentials) {
        Ok(file) => file,
        Err(refusal) => return Err(DavError::from(refusal)),
    };
    let ended = file_write(fs, &mut file, bytes);
    file_close(fs, file);
    answer_written(ended, outcome)
}

/// Answers a PUT as `put` does, where the whole body is in memory: it is written in one call.
///
/// Errors, in this order: 405 where a slash ends the path; 409 where no directory stands above, or the refusal of a
/// look there that failed; a refused look at the path, unless nothing stands; 405 where a directory stands; 412 where a
/// precondition isn't met; the refusal of the opening; and then, the file holding a front of the bytes, the refusal of
/// the writing. Want of memory comes only before the opening, or from the store. `table` tells which call of the store
/// gave the answer.
pub fn put_whole<S: GuardedFileSystem<C>, C>(
    alloc: Global,
    fs: &mut S,
    credentials: &C,
    path: &DavPath,
    fields: &HeaderMap,
    bytes: &[u8],
) -> Result<Outcome, DavError>
    ensures table { PutsWhole S.view S.File.view.writes
        credentials.now path.now fields.now bytes.now fs.old result fs.new }
    ensures stays { StaysOpen S.view fs.old fs.new }
{
    let outcome = match judge_put(alloc, fs, credentials, path, fields) {
        Ok(outcome) => outcome,
        Err(error) => return Err(error),
    };
    put_bytes(fs, credentials, path, outcome, bytes)
}
