//! The members of a directory, for any store.
ghost use Rattle.std.specs.Prelude.{◌≡◌, ◌++◌, ◌⊎◌, Err, IfOk, IfErr, MatchResult, OnOk, Result, List};
ghost use Rattle.std.specs.List.{AllByRecursion};
ghost use Rattle.dav_core.specs.declared.error.FsError.{FsError};
ghost use Rattle.dav_core.specs.declared.member.Member.{Member};
ghost use Rattle.dav_core.specs.Info.{Info};
ghost use Rattle.dav_store.specs.Leads.{LeadsOn, ListedOn};
ghost use Rattle.dav_store.specs.Listings.{HasLister};
ghost use Rattle.dav_store.specs.Members.{IsNamedPlain, ReadOut, ReadsThere, RefusesThere, ShowsMembers, WalksOut, WasListed, member_said, told_of};
ghost use Rattle.dav_store.specs.View.{Stays, StaysListing};
ghost use Rattle.dav_store.specs.declared.entry.ReadDirMeta.TheVariants.{Data};

use crate::through::entry_metadata;
use crate::{DavDirEntry, GuardedFileSystem, ReadDirMeta};
use dav_core::{DavMetaData, DavPath, FsError, Kind, Member};
use dav_io::{NoMemory, Text};
use std::alloc::Global;

fn kind_of<M: DavMetaData>(meta: &M) -> Kind
    ensures { result ≡ (M.info meta.now).kind }
{
    if meta.is_dir() {
        Kind::Dir
    } else if meta.is_file() {
        Kind::File
    } else {
        Kind::Link
    }
}

// The member that metadata tells of.
fn member_of<M: DavMetaData>(name: Text, meta: &M) -> Member
    ensures { result ≡ member_said name (M.info meta.now) }
{
    let modified = match meta.modified() {
        Ok(time) => Some(time),
        Err(_) => None,
    };
    Member {
        name,
        kind: kind_of(meta),
        len: meta.len(),
        modified,
    }
}

// Asks an entry for its metadata, and adds the member that it tells of.
fn add_member<S: GuardedFileSystem<C>, C>(
    alloc: Global,
    fs: &mut S,
    entry: &S::Entry,
    members: &mut Vec<Member>,
) -> Result<(), NoMemory>
    ensures told { (r : Result Info FsError) × S.listings.says entry.now (S.view.state fs.old) r (S.view.state fs.new)
        × OnOk result (members.new.items ≡ members.old.items ++ told_of (S.listings.called entry.now) r) }
    ensures plain { AllByRecursion IsNamedPlain members.old.items → AllByRecursion IsNamedPlain members.new.items }
    ensures store { S.view.lends fs.old fs.new }
    ensures stays { Stays S.view fs.old fs.new }
{
    let Ok(meta) = entry_metadata::<S, C>(fs, entry) else {
        return Ok(());
    };
    let name = Text::copy(alloc, entry.name())?;
    members.push(member_of(name, &meta))?;
    Ok(())
}

// Asks a listing on behind a fault, up to its end, where a store ends what it gathered. What it still gives is passed
// over.
fn run_out<S: GuardedFileSystem<C>, C>(fs: &mut S, dir: &mut S::Dir) -> Result<(), FsError>
    requires live { HasLister (S.view.state fs.old) (S.listings.lister dir.old) }
    ensures ends { OnOk result (ReadOut S.view S.listings fs.old dir.old fs.new dir.new) }
    ensures on { ListedOn S.view S.listings fs.old dir.old fs.new dir.new }
    ensures error { IfErr result (λ e. e ≡ FsError.NoMemory) }
    ensures stays { StaysListing S.view S.listings fs.old dir.old fs.new dir.new }
{
    'entries: loop {
        match fs.next_entry(dir) {
            Ok(None) => return Ok(()),
            Err(FsError::NoMemory) => return Err(FsError::NoMemory),
            Ok(Some(_entry)) => {}
            Err(_) => {}
        }
    }
}

// The members that a listing has to come, up to its end or a fault, behind which it is asked on to its end.
fn read_on<S: GuardedFileSystem<C>, C>(
    alloc: Global,
    fs: &mut S,
    dir: &mut S::Dir,
) -> Result<Vec<Member>, FsError>
    requires live { HasLister (S.view.state fs.old) (S.listings.lister dir.old) }
    ensures walks { IfOk result (λ members. WalksOut S.view S.listings fs.old dir.old members.items fs.new dir.new) }
    ensures plain { IfOk result (λ members. AllByRecursion IsNamedPlain members.items) }
    ensures on { ListedOn S.view S.listings fs.old dir.old fs.new dir.new }
    ensures error { IfErr result (λ e. e ≡ FsError.NoMemory) }
    ensures stays { StaysListing S.view S.listings fs.old dir.old fs.new dir.new }
{
    let mut members = Vec::new(alloc);
    'entries: loop {
        match fs.next_entry(dir) {
            Ok(None) => return Ok(members),
            Ok(Some(entry)) => {
                let Ok(()) = add_member::<S, C>(alloc, fs, &entry, &mut members) else {
                    return Err(FsError::NoMemory);
                };
            }
            Err(FsError::NoMemory) => return Err(FsError::NoMemory),
            Err(_) => {
                return match run_out::<S, C>(fs, dir) {
                    Ok(()) => Ok(members),
                    Err(error) => Err(error),
                };
            }
        }
    }
}

/// The members of the directory at a path whose metadata the store gives, in the order of its listing, up to the end or
/// a fault. The listing is read to its end, also behind a fault, and ended, and nothing is left open.
///
/// Errors: what the store refuses a listing with, and want of memory.
pub fn read_members<S: GuardedFileSystem<C>, C>(
    alloc: Global,
    fs: &mut S,
    path: &DavPath,
    credentials: &C,
) -> Result<Vec<Member>, FsError>
    ensures listed { IfOk
        result (λ members. WasListed S.view S.listings fs.old credentials.now path.now members.items fs.new) }
    ensures plain { IfOk result (λ members. AllByRecursion IsNamedPlain members.items) }
    ensures refused { IfErr result
        (λ e. S.listings.lists fs.old credentials.now path.now Data (Err e) fs.new ⊎ (e ≡ FsError.NoMemory)) }
    ensures shown { (found : Result (List Member) FsError)
        → ShowsMembers S.view S.listings fs.old credentials.now path.now found
        → MatchResult result (λ members. ReadsThere found (S.view.state fs.old).faults members.items
        (S.view.state fs.new).faults) (λ e. RefusesThere found (S.view.state fs.old) e (S.view.state fs.new)) }
    ensures stays { Stays S.view fs.old fs.new }
    ensures leads { LeadsOn S.view S.listings credentials.now fs.old fs.new }
{
    let mut dir = match fs.read_dir(path, ReadDirMeta::Data, credentials) {
        Ok(dir) => dir,
        Err(error) => return Err(error),
    };
    let members = read_on(alloc, fs, &mut dir);
    fs.end_dir(dir);
    members
}
