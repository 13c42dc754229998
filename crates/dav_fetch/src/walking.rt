ghost use Rattle.std.specs.Prelude.{true, false, ◌≡◌, ◌<◌, ◌≤◌, ◌+◌, ◌-◌, ◌++◌, [], ◌∷◌, ℕ, List, IfOk, IfErr, OnOk, length, slice_index_or};
ghost use Rattle.std.specs.List.{list_all};
ghost use Rattle.dav_core.specs.Disk.{DiskState};
ghost use Rattle.dav_core.specs.Path.{is_plain};
ghost use Rattle.dav_fetch.specs.Fetching.{AtPage, Visited, WholeVisits, is_peer_failure};
ghost use Rattle.dav_fetch.specs.Peer.{Counts};
ghost use Rattle.dav_fetch.specs.Reading.{IsOver};
ghost use Rattle.dav_fetch.specs.Naming.{AreNamed};
ghost use Rattle.dav_fetch.specs.Steps.{WalksTo};
ghost use Rattle.dav_fetch.specs.Walk.{IsPageOf, Pages, Visit, dirs_on, each_once, files_on, way_of, with_new};

use crate::due::{dir_of, may_ask};
use crate::error::MirrorError;
use crate::found::Found;
use crate::paging::ask_page;
use crate::peer::Peer;
use dav_core::FsPath;
use dav_io::{NoMemory, Text};
use std::alloc::Global;
use std::collections::BTreeSet;

// What the pages of a tree name: its directories in the order of finding, the root first, and its files; and how many
// pages were asked.
#[derive(Drop)]
pub(crate) struct Walked {
    pub(crate) dirs: Vec<FsPath>,
    pub(crate) files: Vec<FsPath>,
    pub(crate) made: u64,
}

// Adds a directory that is found in another, unless its name is among those that were found there.
fn add_new(
    dirs: &mut Vec<FsPath>,
    names: &mut BTreeSet<Text>,
    dir: &FsPath,
    name: &Text,
) -> Result<(), NoMemory>
    requires plain { is_plain name.now ≡ true }
    requires named { AreNamed dir.now dirs.old.items names.old }
    ensures dirs { OnOk result (dirs.new.items ≡ with_new (dir.now ++ name.now ∷ []) dirs.old.items) }
    ensures named { OnOk result (AreNamed dir.now dirs.new.items names.new) }
{
    if names.insert(name.try_clone()?)? {
        let path = dir.child(name.as_str())?;
        dirs.push(path)?;
    }
    Ok(())
}

// The directories that are found in a directory, each once. Their names are kept in order, so that none is sought among
// all of a long page.
fn new_dirs(alloc: Global, dir: &FsPath, found: &[Found]) -> Result<Vec<FsPath>, NoMemory>
    requires { list_all (λ one. is_plain one.name) found.now ≡ true }
    ensures { IfOk result (λ dirs. dirs.items ≡ each_once (dirs_on dir.now found.now)) }
{
    let mut dirs = Vec::new(alloc);
    let mut names = BTreeSet::new(alloc);
    for one in found {
        if one.is_dir {
            add_new(&mut dirs, &mut names, dir, &one.name)?;
        }
    }
    Ok(dirs)
}

// Adds the files that are found in a directory.
fn add_files(files: &mut Vec<FsPath>, dir: &FsPath, found: &[Found]) -> Result<(), NoMemory>
    requires { list_all (λ one. is_plain one.name) found.now ≡ true }
    ensures { OnOk result (files.new.items ≡ files.old.items ++ files_on dir.now found.now) }
{
    for one in found {
        if !one.is_dir {
            let path = dir.child(one.name.as_str())?;
            files.push(path)?;
        }
    }
    Ok(())
}

// Adds what the page of a directory names.
fn add_all(
    alloc: Global,
    dirs: &mut Vec<FsPath>,
    files: &mut Vec<FsPath>,
    at: usize,
    found: &[Found],
) -> Result<(), NoMemory>
    requires at { at < length dirs.old.items }
    requires plain { list_all (λ one. is_plain one.name) found.now ≡ true }
    ensures dirs { OnOk result (dirs.new.items ≡ dirs.old.items
        ++ each_once (dirs_on (slice_index_or dirs.old.items at []) found.now)) }
    ensures files { OnOk result (files.new.items ≡ files.old.items
        ++ files_on (slice_index_or dirs.old.items at []) found.now) }
{
    let mut new = new_dirs(alloc, &dirs[at], found)?;
    add_files(files, &dirs[at], found)?;
    dirs.append(&mut new)?;
    Ok(())
}

// The page of a directory that is due is asked for, where it may be.
fn ask_due<P: Peer>(
    alloc: Global,
    peer: &mut P,
    dir: &FsPath,
    made: u64,
    most: u64,
) -> Result<Vec<Found>, MirrorError>
    requires { made ≤ most }
    ensures ok { IfOk result (λ found. (visit : Visit) × Visited (P.state peer.old) visit (P.state peer.new)
        × IsPageOf dir.now visit found.items × IsOver (P.state peer.new)) }
    ensures few { OnOk result (made < most) }
    ensures err { IfErr result (λ e. (last : List Visit)
        × AtPage dir.now (record { made = made; most = most }) e
        (record { before = P.state peer.old; visits = last; after = P.state peer.new })) }
    ensures counts { Counts 1 (is_peer_failure result) (P.calls peer.old) (P.calls peer.new) }
    ensures within { Counts (most - made) (is_peer_failure result) (P.calls peer.old) (P.calls peer.new) }
    ensures loan { P.loan peer.new ≡ P.loan peer.old }
    ensures since { (s : DiskState) → P.since peer.old s → P.since peer.new s }
{
    let Ok(path) = dir_of(alloc, dir) else {
        return Err(MirrorError::NoMemory);
    };
    match may_ask(&path, made, most) {
        Ok(()) => {}
        Err(error) => return Err(error),
    }
    ask_page(alloc, peer, &path)
}

// The page that is due is asked for, and what it names is added.
fn go_on<P: Peer>(
    alloc: Global,
    peer: &mut P,
    walked: &mut Walked,
    at: usize,
    most: u64,
) -> Result<(), MirrorError>
    requires at { at < length walked.old.dirs.items }
    requires made { walked.old.made ≤ most }
    ensures done { OnOk result ((visit : Visit) × WholeVisits (P.state peer.old) (visit ∷ []) (P.state peer.new)
        × Pages (way_of at walked.old.dirs.items walked.old.files.items) (visit ∷ [])
        (way_of (at + 1) walked.new.dirs.items walked.new.files.items)) }
    ensures inside { OnOk result (at < length walked.new.dirs.items) }
    ensures made { OnOk result ((walked.new.made ≡ walked.old.made + 1) × (walked.new.made ≤ most)) }
    ensures ends { IfErr result (λ e. (last : List Visit)
        × AtPage (slice_index_or walked.old.dirs.items at []) (record { made = walked.old.made; most = most }) e
        (record { before = P.state peer.old; visits = last; after = P.state peer.new })) }
    ensures counts { Counts 1 (is_peer_failure result) (P.calls peer.old) (P.calls peer.new) }
    ensures within { Counts (most - walked.old.made) (is_peer_failure result) (P.calls peer.old) (P.calls peer.new) }
    ensures loan { P.loan peer.new ≡ P.loan peer.old }
    ensures since { (s : DiskState) → P.since peer.old s → P.since peer.new s }
{
    let found = match ask_due(alloc, peer, &walked.dirs[at], walked.made, most) {
        Ok(found) => found,
        Err(error) => return Err(error),
    };
    match add_all(alloc, &mut walked.dirs, &mut walked.files, at, &found) {
        Ok(()) => {}
        Err(_) => return Err(MirrorError::NoMemory),
    }
    walked.made += 1;
    Ok(())
}

// Asks for the page of each directory that is found, in the order of finding, from the root on.
pub(crate) fn walk<P: Peer>(alloc: Global, peer: &mut P, most: u64) -> Result<Walked, MirrorError>
    ensures walks { WalksTo (P.state peer.old) most result (P.state peer.new) }
    ensures counts { IfOk result (λ walked. Counts walked.made false (P.calls peer.old) (P.calls peer.new)) }
    ensures within { Counts most (is_peer_failure result) (P.calls peer.old) (P.calls peer.new) }
    ensures loan { P.loan peer.new ≡ P.loan peer.old }
    ensures since { (s : DiskState) → P.since peer.old s → P.since peer.new s }
{
    let mut walked = Walked {
        dirs: Vec::new(alloc),
        files: Vec::new(alloc),
        made: 0,
    };
    let root = FsPath::new(Vec::new(alloc));
    if walked.dirs.push(root).is_err() {
        return Err(MirrorError::NoMemory);
    }
    let mut at = 0usize;
    while at < walked.dirs.len() {
        match go_on(alloc, peer, &mut walked, at, most) {
            Ok(()) => {}
            Err(error) => return Err(error),
        }
        at += 1;
    }
    Ok(walked)
}
