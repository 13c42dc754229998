//! DELETE: what stands at a path is removed, a directory's members before it.
ghost use Rattle.std.specs.Prelude.{◌≡◌};
ghost use Rattle.dav_store.specs.View.{StaysOpen};
ghost use Rattle.dav_methods.specs.Deleting.{Deletes, RemovesAll, is_root as the_is_root};
ghost use Rattle.dav_methods.specs.Table.{Next, Unless};

use crate::lines::may_delete_it;
use crate::outcomes::{answer, silent};
use dav_core::{DavError, DavMetaData, DavPath};
use dav_model::Outcome;
use dav_store::GuardedFileSystem;
use dav_walks::remove_all;
use http::{HeaderMap, StatusCode};
use std::alloc::Global;

// Removes what stands at a path, where a line lets it.
fn delete_if<S: GuardedFileSystem<C>, C>(
    alloc: Global,
    fs: &mut S,
    credentials: &C,
    path: &DavPath,
    dir: bool,
    may: Result<(), DavError>,
) -> Result<Outcome, DavError>
    ensures table { Next (Unless may (RemovesAll S.view S.listings credentials.now path.now dir)) fs.old result fs.new }
    ensures stays { StaysOpen S.view fs.old fs.new }
{
    if let Err(error) = may {
        return Err(error);
    }
    let all = remove_all(alloc, fs, credentials, path, dir);
    answer(all, silent(alloc))
}

// Whether a path has no names.
fn is_root(path: &DavPath) -> bool
    ensures { result ≡ the_is_root path.now.names }
{
    path.names().as_slice().is_empty()
}

/// Answers a DELETE (RFC 9110, section 9.3.5, and RFC 4918, section 9.6) over any store: 204 where all was removed. A
/// directory's listing is read to its end and ended before its first member goes; its members go first, in the order of
/// their names by bytes, each with its own members before it. No link is followed.
///
/// Errors, in this order: 403 for the root; a refused look; 412 where a precondition isn't met; and then, what was
/// removed staying removed, the first refusal of a listing, of a member's metadata or of a removal, and 403 where a
/// directory's path has more than 65,536 names. `table` tells which call of the store gave the answer.
pub fn delete<S: GuardedFileSystem<C>, C>(
    alloc: Global,
    fs: &mut S,
    credentials: &C,
    path: &DavPath,
    fields: &HeaderMap,
) -> Result<Outcome, DavError>
    ensures table { Deletes S.view S.listings credentials.now path.now fields.now fs.old result fs.new }
    ensures stays { StaysOpen S.view fs.old fs.new }
{
    if is_root(path) {
        return Err(DavError::Status(StatusCode::FORBIDDEN));
    }
    let meta = match fs.symlink_metadata(path, credentials) {
        Ok(meta) => meta,
        Err(refusal) => return Err(DavError::from(refusal)),
    };
    let may = may_delete_it(alloc, fields, &meta);
    delete_if(alloc, fs, credentials, path, meta.is_dir(), may)
}
