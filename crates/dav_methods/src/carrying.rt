//! COPY and MOVE: what stands at a path is copied or moved to another, in place of what stands there.
ghost use Rattle.std.specs.Prelude.{◌≡◌, ◌⊎◌, Ok, Err};
ghost use Rattle.dav_methods.specs.Carrying.{Arrives, Carries, CopiesTo, Goes, MovesTo, Replaces, carried};
ghost use Rattle.dav_model.specs.CarryPlans.{method_of as the_method_of};
ghost use Rattle.dav_walks.specs.Lines.{fails_when};
ghost use Rattle.dav_model.specs.Overlap.{overlap};
ghost use Rattle.dav_store.specs.View.{StaysOpen};
ghost use Rattle.dav_methods.specs.Deleting.{LooksAtLink};
ghost use Rattle.dav_methods.specs.Table.{Below, Next, Unless};

use crate::destination::asked;
use crate::lines::{pass_met, pass_missing, pass_parent};
use crate::outcomes::{answer, created, silent};
use crate::overlap::overlaps;
use dav_core::{DavError, DavMetaData, DavMethod, DavPath, FsError};
use dav_model::{Asked, Outcome};
use dav_store::GuardedFileSystem;
use dav_walks::{Copied, copy_all, line_of, remove_all};
use http::{HeaderMap, StatusCode};
use std::alloc::Global;

// What is carried: what the fields ask for, the path of the source, and whether a directory stands there.
#[derive(Drop)]
struct Carriage<'a> {
    asked: Asked,
    path: &'a DavPath,
    dir: bool,
}

// The method that moves, or copies.
fn method_of(moving: bool) -> DavMethod
    ensures { result ≡ the_method_of moving }
{
    if moving {
        return DavMethod::Move;
    }
    DavMethod::Copy
}

// Refuses paths of which one lies inside the other.
fn pass_apart(alloc: Global, folds: bool, from: &DavPath, to: &DavPath) -> Result<(), DavError>
    ensures { (result ≡ Err DavError.NoMemory) ⊎ (result ≡ fails_when (overlap folds from.now.names to.now.names)
        403) }
{
    if overlaps(alloc, folds, from, to)? {
        return Err(DavError::Status(StatusCode::FORBIDDEN));
    }
    Ok(())
}

// The last act: what stands at the source is moved, or copied.
fn go<S: GuardedFileSystem<C>, C>(
    alloc: Global,
    fs: &mut S,
    credentials: &C,
    carriage: &Carriage<'_>,
    outcome: Outcome,
) -> Result<Outcome, DavError>
    ensures table { Goes S.view S.listings credentials.now carriage.now.asked.moving carriage.now.asked
        (carried carriage.now) outcome fs.old result fs.new }
    ensures stays { StaysOpen S.view fs.old fs.new }
{
    let asked = &carriage.asked;
    if asked.moving {
        return answer(
            line_of(fs.rename(carriage.path, &asked.to, credentials)),
            outcome,
        );
    }
    let copied = Copied {
        from: carriage.path,
        to: &asked.to,
        dir: carriage.dir,
    };
    answer(
        copy_all(alloc, fs, credentials, asked.alone, copied),
        outcome,
    )
}

// What stands at the destination goes, and the source takes its place.
fn replace<S: GuardedFileSystem<C>, C>(
    alloc: Global,
    fs: &mut S,
    credentials: &C,
    carriage: &Carriage<'_>,
    dir_there: bool,
) -> Result<Outcome, DavError>
    ensures table { Replaces S.view S.listings credentials.now carriage.now.asked (carried carriage.now) dir_there
        fs.old result fs.new }
    ensures stays { StaysOpen S.view fs.old fs.new }
{
    match remove_all(alloc, fs, credentials, &carriage.asked.to, dir_there) {
        Ok(()) => go(alloc, fs, credentials, carriage, silent(alloc)),
        Err(error) => Err(error),
    }
}

// Nothing stood at the destination, or a look there was refused.
fn fill<S: GuardedFileSystem<C>, C>(
    alloc: Global,
    fs: &mut S,
    credentials: &C,
    carriage: &Carriage<'_>,
    refusal: FsError,
) -> Result<Outcome, DavError>
    ensures table { Next (Arrives S.view S.listings credentials.now carriage.now.asked (carried carriage.now)
        (Err refusal)) fs.old result fs.new }
    ensures stays { StaysOpen S.view fs.old fs.new }
{
    pass_missing(refusal)?;
    let outcome = created(alloc)?;
    go(alloc, fs, credentials, carriage, outcome)
}

// Looks at the destination, and goes on by what stands there.
fn arrive<S: GuardedFileSystem<C>, C>(
    alloc: Global,
    fs: &mut S,
    credentials: &C,
    carriage: &Carriage<'_>,
) -> Result<Outcome, DavError>
    ensures table { LooksAtLink S.view S.listings credentials.now carriage.now.asked.to (Arrives S.view S.listings
        credentials.now carriage.now.asked (carried carriage.now)) fs.old result fs.new }
    ensures stays { StaysOpen S.view fs.old fs.new }
{
    match fs.symlink_metadata(&carriage.asked.to, credentials) {
        Ok(meta) => {
            if !carriage.asked.replaces {
                return Err(DavError::Status(StatusCode::PRECONDITION_FAILED));
            }
            replace(alloc, fs, credentials, carriage, meta.is_dir())
        }
        Err(refusal) => fill(alloc, fs, credentials, carriage, refusal),
    }
}

// Goes on where a line lets it.
fn arrive_if<S: GuardedFileSystem<C>, C>(
    alloc: Global,
    fs: &mut S,
    credentials: &C,
    carriage: &Carriage<'_>,
    may: Result<(), DavError>,
) -> Result<Outcome, DavError>
    ensures table { Next (Unless may (LooksAtLink S.view S.listings credentials.now carriage.now.asked.to (Arrives
        S.view S.listings credentials.now carriage.now.asked (carried carriage.now)))) fs.old result fs.new }
    ensures stays { StaysOpen S.view fs.old fs.new }
{
    match may {
        Ok(()) => arrive(alloc, fs, credentials, carriage),
        Err(error) => Err(error),
    }
}

// Goes on from the source, where a directory stands above the destination and then a line lets it.
fn leave<S: GuardedFileSystem<C>, C>(
    alloc: Global,
    fs: &mut S,
    credentials: &C,
    carriage: &Carriage<'_>,
    may: Result<(), DavError>,
) -> Result<Outcome, DavError>
    ensures table { Next (Below S.view credentials.now carriage.now.asked.to (Unless may (LooksAtLink S.view S.listings
        credentials.now carriage.now.asked.to (Arrives S.view S.listings credentials.now carriage.now.asked
        (carried carriage.now))))) fs.old result fs.new }
    ensures stays { StaysOpen S.view fs.old fs.new }
{
    let above = carriage.asked.to.parent()?;
    pass_parent(fs, credentials, &above)?;
    arrive_if(alloc, fs, credentials, carriage, may)
}

// Does what the fields ask for, or answers their refusal. The precondition is judged by the first look, but it refuses
// only once a directory was found above the destination.
fn carry<S: GuardedFileSystem<C>, C>(
    alloc: Global,
    fs: &mut S,
    credentials: &C,
    path: &DavPath,
    fields: &HeaderMap,
    asked: Result<Asked, DavError>,
) -> Result<Outcome, DavError>
    ensures table { Next (Carries S.view S.listings credentials.now path.now fields.now asked) fs.old result fs.new }
    ensures stays { StaysOpen S.view fs.old fs.new }
{
    let asked = match asked {
        Ok(asked) => asked,
        Err(error) => return Err(error),
    };
    let folds = fs.folds();
    let meta = match fs.metadata(path, credentials) {
        Ok(meta) => meta,
        Err(refusal) => return Err(DavError::from(refusal)),
    };
    match pass_apart(alloc, folds, path, &asked.to) {
        Ok(()) => {
            let may = pass_met(alloc, method_of(asked.moving), fields, Some(&meta));
            let dir = meta.is_dir();
            let carriage = Carriage { asked, path, dir };
            leave(alloc, fs, credentials, &carriage, may)
        }
        Err(error) => Err(error),
    }
}

/// Answers a COPY (RFC 4918, section 9.8) over any store: 201 where nothing stood at the destination, 204 where
/// something did, which was removed before. A directory is made before its members are copied, in the order of their
/// names by bytes, each with its own members; with Depth 0 it goes without them. A directory's listing is read to its
/// end and ended before its first member is copied. Of the source a link is followed, at the destination it is the link
/// that goes. `prefix` is the one under which `path` was read; the destination is read under it, and its host is passed
/// over.
///
/// Errors, in this order: 400 where Destination is missing, or is neither a path nor a URI with a scheme; the refusal
/// of its path; 400 where Overwrite is neither `T` nor `F`, and where Depth is neither `infinity` nor `0`; and then, no
/// call of the store having been made before, a refused look at the source; 403 where one of both paths lies inside the
/// other, or they are one, by folded names where the store folds them; 409 where no directory stands above the
/// destination, or the refusal of a look there that failed; 412 where a precondition isn't met by the source; a refused
/// look at the destination, unless nothing stands there; 412 where something does and Overwrite is `F`; and then, what
/// was done staying done, the first refusal of a listing, of a member's metadata, of a removal, a making or a copy, and
/// 403 where a directory's path has more than 65,536 names. Want of memory may come anywhere. `table` tells which call
/// of the store gave the answer.
pub fn copy<S: GuardedFileSystem<C>, C>(
    alloc: Global,
    fs: &mut S,
    credentials: &C,
    path: &DavPath,
    fields: &HeaderMap,
    prefix: &str,
) -> Result<Outcome, DavError>
    ensures table { CopiesTo S.view S.listings credentials.now prefix.now path.now fields.now fs.old result fs.new }
    ensures stays { StaysOpen S.view fs.old fs.new }
{
    let said = asked(alloc, false, fields, prefix);
    carry(alloc, fs, credentials, path, fields, said)
}

/// Answers a MOVE (RFC 4918, section 9.9) over any store, by a renaming. All else is as for `copy`, save that Depth may
/// be `infinity` alone.
pub fn move_to<S: GuardedFileSystem<C>, C>(
    alloc: Global,
    fs: &mut S,
    credentials: &C,
    path: &DavPath,
    fields: &HeaderMap,
    prefix: &str,
) -> Result<Outcome, DavError>
    ensures table { MovesTo S.view S.listings credentials.now prefix.now path.now fields.now fs.old result fs.new }
    ensures stays { StaysOpen S.view fs.old fs.new }
{
    let said = asked(alloc, true, fields, prefix);
    carry(alloc, fs, credentials, path, fields, said)
}
