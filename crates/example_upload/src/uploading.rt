//! An upload whose pieces come from a connection.
ghost use Rattle.std.specs.Prelude.{IsSome};

use crate::connection::Connection;
use dav_core::{DavError, DavPath, FsError, ParseError};
use dav_io::Source;
use dav_store::{DavFile, GuardedFileSystem};
use dav_upload::{Upload, UploadError, abort, begin, commit, piece};
use http::HeaderMap;
use std::alloc::Global;

/// How a request ended.
#[derive(Clone, Copy)]
pub enum Ended {
    /// With this status.
    Answered(u16),
    /// Its connection was over before its body was.
    BrokeOff,
    NoMemory,
}

// How it ended by a refusal of the method's table, or of the store.
fn refused(error: DavError) -> Ended {
    match error {
        DavError::NoMemory
        | DavError::Path(ParseError::NoMemory)
        | DavError::Fs(FsError::NoMemory) => Ended::NoMemory,
        _ => Ended::Answered(error.statuscode().as_u16()),
    }
}

fn ended_by(error: UploadError) -> Ended {
    match error {
        UploadError::Dav(error) => refused(error),
        UploadError::Busy { name: _name } => Ended::Answered(409),
        UploadError::Hidden => Ended::Answered(403),
        UploadError::NoMemory => Ended::NoMemory,
    }
}

// Writes so many bytes of a connection, each piece as it comes, and tells whether all came.
fn pour<S: GuardedFileSystem<()>, R: Source + Drop>(
    store: &mut S,
    upload: &mut Upload<S::File>,
    connection: &mut Connection<R>,
    length: u64,
) -> Result<bool, UploadError>
    requires live { IsSome ((S.view.state store.old).live (S.view.file.handle upload.old.file)) }
    requires reads_from { S.view.file.reads_from upload.old.file (S.view.state store.old) }
    ensures { IsSome ((S.view.state store.new).live (S.view.file.handle upload.new.file)) }
{
    let mut left = length;
    'pieces: while left > 0 {
        if !connection.has_more() {
            return Ok(false);
        }
        let held = connection.held();
        let count = left.min(held.len() as u64) as usize;
        match piece::<S, ()>(store, upload, &held[..count]) {
            Ok(()) => {}
            Err(error) => return Err(error),
        }
        connection.pass(count);
        left -= count as u64;
    }
    Ok(true)
}

// Ends an upload: its target gets all that came, or stays as it was.
fn end<S: GuardedFileSystem<()>>(
    alloc: Global,
    store: &mut S,
    upload: Upload<S::File>,
    fields: &HeaderMap,
    poured: Result<bool, UploadError>,
) -> Ended
    requires { IsSome ((S.view.state store.old).live (S.view.file.handle upload.file)) }
{
    match poured {
        Ok(true) => match commit(alloc, store, &(), upload, fields) {
            Ok(outcome) => Ended::Answered(outcome.status),
            Err(error) => ended_by(error),
        },
        Ok(false) => {
            let _removed = abort(store, &(), upload);
            Ended::BrokeOff
        }
        Err(error) => {
            let _removed = abort(store, &(), upload);
            ended_by(error)
        }
    }
}

/// Uploads so many bytes of a connection to a path, as a PUT with these fields. Where it is refused before its first
/// piece, none is read.
pub fn upload<S: GuardedFileSystem<()>, R: Source + Drop>(
    alloc: Global,
    store: &mut S,
    connection: &mut Connection<R>,
    path: &DavPath,
    fields: &HeaderMap,
    length: u64,
    token: u64,
) -> Ended {
    match begin(alloc, store, &(), path, fields, token) {
        Ok(mut upload) => {
            let poured = pour(store, &mut upload, connection, length);
            end(alloc, store, upload, fields, poured)
        }
        Err(error) => ended_by(error),
    }
}
