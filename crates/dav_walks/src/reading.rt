// The members of a directory, for the methods that walk. Nothing is passed over.
ghost use Rattle.std.specs.Prelude.{◌≡◌, ◌⊎◌, ◌++◌, ◌∷◌, [], Result, MatchResult, IfErr, IfOk, IsOk, IsOkAnd, OnOk, Err, true};
ghost use Rattle.std.specs.List.Sorted.{IsPermutation, IsSortedByKey};
ghost use Rattle.std.specs.Cmp.Lexicographic.{slice_cmp};
ghost use Rattle.std.specs.Ordering.{nat_cmp};
ghost use Rattle.dav_core.specs.declared.error.FsError.{FsError};
ghost use Rattle.dav_core.specs.DavPath.{WebPath};
ghost use Rattle.dav_core.specs.Info.{Info};
ghost use Rattle.dav_core.specs.Path.{is_plain};
ghost use Rattle.dav_store.specs.Listings.{HasLister};
ghost use Rattle.dav_store.specs.View.{Stays, StaysListing};
ghost use Rattle.dav_walks.specs.Reading.{AddsChild, HasMembers, HasNoMembers, ReadRefused, ReadsAll};
ghost use Rattle.dav_walks.specs.Walking.{members_at};

use crate::member::Member;
use crate::name::Name;
use dav_core::{DavMetaData, DavPath, FsError};
use dav_io::NoMemory;
use dav_store::{DavDirEntry, GuardedFileSystem, ReadDirMeta, entry_metadata};
use std::alloc::Global;

// Adds the member of this name, which is plain.
fn push_member(
    alloc: Global,
    name: &str,
    dir: bool,
    members: &mut Vec<Member>,
) -> Result<(), NoMemory>
    requires { is_plain name.now ≡ true }
    ensures { OnOk result (members.new.items ≡ members.old.items ++ record { name = name.now; dir = dir } ∷ []) }
{
    let name = Name::copy(alloc, name)?;
    members.push(Member { name, dir })?;
    Ok(())
}

// Asks an entry for its metadata, and adds the member that it tells of.
fn add_child<S: GuardedFileSystem<C>, C>(
    alloc: Global,
    fs: &mut S,
    entry: &S::Entry,
    members: &mut Vec<Member>,
) -> Result<(), FsError>
    ensures told { (said : Result Info FsError) × S.listings.says entry.now (S.view.state fs.old)
        said (S.view.state fs.new) × ((path : WebPath) → AddsChild path (S.listings.called entry.now)
        said (members_at path members.old.items) result (members_at path members.new.items)) }
    ensures store { S.view.lends fs.old fs.new }
    ensures stays { Stays S.view fs.old fs.new }
{
    match entry_metadata::<S, C>(fs, entry) {
        Ok(meta) => match push_member(alloc, entry.name(), meta.is_dir(), members) {
            Ok(()) => Ok(()),
            Err(_) => Err(FsError::NoMemory),
        },
        Err(refusal) => Err(refusal),
    }
}

// The members that a listing has to come.
fn read_to_end<S: GuardedFileSystem<C>, C>(
    alloc: Global,
    fs: &mut S,
    dir: &mut S::Dir,
) -> Result<Vec<Member>, FsError>
    requires live { HasLister (S.view.state fs.old) (S.listings.lister dir.old) }
    ensures reads { (path : WebPath) → MatchResult result
        (λ members. ReadsAll S.view S.listings fs.old dir.old path (members_at path members.items) fs.new dir.new)
        (λ e. ReadRefused S.view S.listings fs.old dir.old e fs.new dir.new) }
    ensures stays { StaysListing S.view S.listings fs.old dir.old fs.new dir.new }
{
    let mut members = Vec::new(alloc);
    'entries: loop {
        match fs.next_entry(dir) {
            Ok(None) => return Ok(members),
            Ok(Some(entry)) => {
                match add_child::<S, C>(alloc, fs, &entry, &mut members) {
                    Ok(()) => {}
                    Err(refusal) => return Err(refusal),
                }
            }
            Err(refusal) => return Err(refusal),
        }
    }
}

// What was read of a listing, its members in the order of their names, by bytes.
fn in_order(read: Result<Vec<Member>, FsError>) -> Result<Vec<Member>, FsError>
    ensures each_once { IfOk result (λ members. IsOkAnd read (λ was. IsPermutation was.items members.items)) }
    ensures in_order { IfOk result (λ members. IsSortedByKey (λ m. m.name) (slice_cmp nat_cmp) members.items) }
    ensures refused { IfErr result (λ e. (read ≡ Err e) ⊎ (IsOk read × (e ≡ FsError.NoMemory))) }
{
    let mut members = match read {
        Ok(members) => members,
        Err(refusal) => return Err(refusal),
    };
    match members.sort_by(|one, other| one.name.as_text().cmp(other.name.as_text())) {
        Ok(()) => Ok(members),
        Err(_) => Err(FsError::NoMemory),
    }
}

/// The members of the directory at a path, in the order of their names, by bytes. Its listing is read to its end and
/// ended.
///
/// Errors: the first refusal of the listing or of a member's metadata; want of memory.
pub fn read_members<S: GuardedFileSystem<C>, C>(
    alloc: Global,
    fs: &mut S,
    credentials: &C,
    path: &DavPath,
) -> Result<Vec<Member>, FsError>
    ensures read { MatchResult result (λ members. HasMembers S.view
        S.listings fs.old credentials.now path.now (members_at path.now members.items) fs.new)
        (λ e. HasNoMembers S.view S.listings fs.old credentials.now path.now e fs.new) }
    ensures stays { Stays S.view fs.old fs.new }
{
    let mut dir = match fs.read_dir(path, ReadDirMeta::DataSymlink, credentials) {
        Ok(dir) => dir,
        Err(refusal) => return Err(refusal),
    };
    let read = read_to_end(alloc, fs, &mut dir);
    fs.end_dir(dir);
    in_order(read)
}
