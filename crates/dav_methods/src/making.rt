//! MKCOL, MKCALENDAR and MKADDRESSBOOK: a directory is made.
ghost use Rattle.dav_store.specs.View.{StaysOpen};
ghost use Rattle.dav_methods.specs.Table.{Below, EndsMade, MkCalendars, MkCols, Next, Unless};

use crate::lines::{may_make, pass_parent, pass_unfailed};
use crate::outcomes::created;
use dav_core::{DavError, DavMethod, DavPath};
use dav_model::Outcome;
use dav_store::GuardedFileSystem;
use http::{HeaderMap, StatusCode};
use std::alloc::Global;

// Makes a directory where memory for the answer is had.
fn make<S: GuardedFileSystem<C>, C>(
    alloc: Global,
    fs: &mut S,
    credentials: &C,
    path: &DavPath,
) -> Result<Outcome, DavError>
    ensures table { Next (EndsMade S.view credentials.now path.now) fs.old result fs.new }
    ensures stays { StaysOpen S.view fs.old fs.new }
{
    let outcome = created(alloc)?;
    match fs.create_dir(path, credentials) {
        Ok(()) => Ok(outcome),
        Err(refusal) => Err(DavError::from(refusal)),
    }
}

// Makes a directory where one stands above it.
fn make_below<S: GuardedFileSystem<C>, C>(
    alloc: Global,
    fs: &mut S,
    credentials: &C,
    path: &DavPath,
) -> Result<Outcome, DavError>
    ensures table { Next (Below S.view credentials.now path.now (EndsMade S.view credentials.now path.now))
        fs.old result fs.new }
    ensures stays { StaysOpen S.view fs.old fs.new }
{
    let above = path.parent()?;
    pass_parent(fs, credentials, &above)?;
    make(alloc, fs, credentials, path)
}

// Makes a directory where what a look was refused with lets it.
fn make_if<S: GuardedFileSystem<C>, C>(
    alloc: Global,
    fs: &mut S,
    credentials: &C,
    path: &DavPath,
    may: Result<(), DavError>,
) -> Result<Outcome, DavError>
    ensures table { Next (Unless may (Below S.view credentials.now path.now (EndsMade S.view credentials.now path.now)))
        fs.old result fs.new }
    ensures stays { StaysOpen S.view fs.old fs.new }
{
    match may {
        Ok(()) => make_below(alloc, fs, credentials, path),
        Err(error) => Err(error),
    }
}

/// Answers a MKCOL (RFC 4918, section 9.3) over any store: 201 where the directory was made.
///
/// Errors, in this order: 405 where something stands at the path; a refused look there, unless nothing stands; 412
/// where a precondition isn't met; 409 where no directory stands above, or the refusal of a look there that failed; the
/// refusal of the making; and want of memory. `table` tells which call of the store gave the answer.
pub fn mkcol<S: GuardedFileSystem<C>, C>(
    alloc: Global,
    fs: &mut S,
    credentials: &C,
    path: &DavPath,
    fields: &HeaderMap,
) -> Result<Outcome, DavError>
    ensures table { MkCols S.view credentials.now path.now fields.now fs.old result fs.new }
    ensures stays { StaysOpen S.view fs.old fs.new }
{
    let Err(refusal) = fs.metadata(path, credentials) else {
        return Err(DavError::Status(StatusCode::METHOD_NOT_ALLOWED));
    };
    let may = may_make(alloc, fields, refusal);
    make_if(alloc, fs, credentials, path, may)
}

/// Answers a MKCALENDAR (RFC 4791, section 5.3.1) or a MKADDRESSBOOK over any store: 201 where a directory was made. No
/// field counts.
///
/// Errors, in this order: 405 where something stands at the path, and the connection closes; a look there that failed;
/// the refusal of the making, also where nothing stands above; and want of memory. `table` tells which call of the
/// store gave the answer.
pub fn mkcalendar<S: GuardedFileSystem<C>, C>(
    alloc: Global,
    fs: &mut S,
    credentials: &C,
    path: &DavPath,
    _fields: &HeaderMap,
) -> Result<Outcome, DavError>
    ensures table { MkCalendars S.view credentials.now path.now fs.old result fs.new }
    ensures stays { StaysOpen S.view fs.old fs.new }
{
    match fs.metadata(path, credentials) {
        Ok(_) => Err(DavError::StatusClose(StatusCode::METHOD_NOT_ALLOWED)),
        Err(refusal) => {
            pass_unfailed(refusal)?;
            make(alloc, fs, credentials, path)
        }
    }
}
