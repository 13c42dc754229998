// What stands at a path is removed, a directory's members before it.
ghost use Rattle.std.specs.Prelude.{◌≡◌, ◌<◌, ◌∷◌, [], List, true, Ok};
ghost use Rattle.dav_store.specs.View.{StaysOpen};
ghost use Rattle.dav_walks.specs.Lines.{fails_when};
ghost use Rattle.dav_walks.specs.Removing.{Removes, is_deep, line_of as the_line_of};
ghost use Rattle.dav_walks.specs.Walking.{RemovesOn, works_at};
ghost use Rattle.dav_walks.specs.Weights.{weight};
ghost use Rattle.dav_walks.specs.declared.pending.Pending.TheVariants.{Below};
ghost use Rattle.dav_walks.specs.declared.work.Work.{Work};
ghost use Rattle.dav_walks.specs.declared.work.Work.TheVariants.{Emptied, Whole};

use crate::member::Member;
use crate::pending::{Pending, go_down, read_pending};
use dav_core::{DavError, DavPath, FsError};
use dav_store::GuardedFileSystem;
use http::StatusCode;
use std::alloc::Global;
use std::collections::VecDeque;

// A directory whose path has more names isn't walked into.
const MOST_NAMES: usize = 65_536;

/// The line of a store's call: its refusal as an error.
pub fn line_of(answer: Result<(), FsError>) -> Result<(), DavError>
    ensures { result ≡ the_line_of answer }
{
    match answer {
        Ok(()) => Ok(()),
        Err(refusal) => Err(DavError::from(refusal)),
    }
}

// Refuses a directory whose path has too many names to be walked into.
pub fn pass_shallow(path: &DavPath) -> Result<(), DavError>
    ensures { result ≡ fails_when (is_deep path.now) 403 }
{
    if path.names().as_slice().len() > MOST_NAMES {
        return Err(DavError::Status(StatusCode::FORBIDDEN));
    }
    Ok(())
}

// Goes down to a member: a file is removed there, and of a directory the members come before what is pending.
fn remove_member<S: GuardedFileSystem<C>, C>(
    alloc: Global,
    fs: &mut S,
    credentials: &C,
    path: &mut DavPath,
    member: &Member,
    works: &mut VecDeque<Pending>,
) -> Result<(), DavError>
    requires slash { path.old.slash ≡ true }
    ensures removes { (last : List Work) → RemovesOn S.view S.listings credentials.now (works_at path.old
        (Below member.now ∷ works.old.items) last) fs.old result fs.new (works_at path.new works.new.items last) }
    ensures slash { result ≡ Ok tt → path.new.slash ≡ true }
    ensures lighter { result ≡ Ok tt → weight (works_at path.new works.new.items [])
        < weight (works_at path.old (Below member.now ∷ works.old.items) []) }
    ensures stays { StaysOpen S.view fs.old fs.new }
{
    let Ok(()) = go_down(path, member) else {
        return Err(DavError::NoMemory);
    };
    if !member.dir {
        let gone = line_of(fs.remove_file(path, credentials));
        path.pop_segment();
        return gone;
    }
    pass_shallow(path)?;
    let Ok(()) = works.push_front(Pending::Up) else {
        return Err(DavError::NoMemory);
    };
    read_pending(alloc, fs, credentials, path, works)
}

// Does the first of what is pending.
fn remove_one<S: GuardedFileSystem<C>, C>(
    alloc: Global,
    fs: &mut S,
    credentials: &C,
    path: &mut DavPath,
    work: Pending,
    works: &mut VecDeque<Pending>,
) -> Result<(), DavError>
    requires slash { path.old.slash ≡ true }
    ensures removes { (last : List Work) → RemovesOn S.view S.listings credentials.now (works_at
        path.old (work ∷ works.old.items) last) fs.old result fs.new (works_at path.new works.new.items last) }
    ensures slash { result ≡ Ok tt → path.new.slash ≡ true }
    ensures lighter { result ≡ Ok tt → weight (works_at path.new works.new.items [])
        < weight (works_at path.old (work ∷ works.old.items) []) }
    ensures stays { StaysOpen S.view fs.old fs.new }
{
    match work {
        Pending::Below(member) => remove_member(alloc, fs, credentials, path, &member, works),
        Pending::Up => {
            let gone = line_of(fs.remove_dir(path, credentials));
            path.pop_segment();
            gone
        }
    }
}

// Does all that is pending.
fn remove_pending<S: GuardedFileSystem<C>, C>(
    alloc: Global,
    fs: &mut S,
    credentials: &C,
    path: DavPath,
    works: VecDeque<Pending>,
) -> Result<(), DavError>
    requires slash { path.slash ≡ true }
    ensures removes { (last : List Work) → RemovesOn S.view S.listings credentials.now
        (works_at path works.items last) fs.old result fs.new last }
    ensures stays { StaysOpen S.view fs.old fs.new }
{
    let mut path = path;
    let mut works = works;
    'works: loop {
        match works.pop_front() {
            Some(work) => match remove_one(alloc, fs, credentials, &mut path, work, &mut works) {
                Ok(()) => {}
                Err(error) => return Err(error),
            },
            None => return Ok(()),
        }
    }
}

// Removes all that stands below a directory. The path of the walk ends with a slash, as each directory's has that it
// comes to; the one that it begins with may have none.
fn empty_dir<S: GuardedFileSystem<C>, C>(
    alloc: Global,
    fs: &mut S,
    credentials: &C,
    path: &DavPath,
) -> Result<(), DavError>
    ensures removes { RemovesOn S.view S.listings credentials.now (Whole path.now true ∷ []) fs.old
        result fs.new (Emptied path.now ∷ []) }
    ensures stays { StaysOpen S.view fs.old fs.new }
{
    pass_shallow(path)?;
    let Ok(mut below) = path.try_clone() else {
        return Err(DavError::NoMemory);
    };
    below.add_slash();
    let mut works = VecDeque::new(alloc);
    match read_pending(alloc, fs, credentials, path, &mut works) {
        Ok(()) => remove_pending(alloc, fs, credentials, below, works),
        Err(error) => Err(error),
    }
}

/// Removes what stands at a path, a directory with all below it. A directory's listing is read to its end and ended before
/// its first member goes; its members go first, in the order of their names by bytes, each with its own members before it.
/// No link is followed.
///
/// Errors, what was removed staying removed: the first refusal of a listing, of a member's metadata or of a removal; 403
/// where a directory's path has more than 65,536 names; want of memory.
pub fn remove_all<S: GuardedFileSystem<C>, C>(
    alloc: Global,
    fs: &mut S,
    credentials: &C,
    path: &DavPath,
    dir: bool,
) -> Result<(), DavError>
    ensures removes { Removes S.view S.listings credentials.now (Whole path.now dir ∷ []) fs.old result fs.new }
    ensures stays { StaysOpen S.view fs.old fs.new }
{
    if !dir {
        return line_of(fs.remove_file(path, credentials));
    }
    match empty_dir(alloc, fs, credentials, path) {
        Ok(()) => line_of(fs.remove_dir(path, credentials)),
        Err(error) => Err(error),
    }
}
