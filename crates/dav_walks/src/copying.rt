// A copy of what stands at a path, a directory before its members.
ghost use Rattle.std.specs.Prelude.{◌≡◌, ◌<◌, ◌∷◌, [], true, IfOk, Ok, Result};
ghost use Rattle.dav_core.specs.declared.error.FsError.{FsError};
ghost use Rattle.dav_store.specs.View.{StaysOpen};
ghost use Rattle.dav_walks.specs.Copying.{Copies};
ghost use Rattle.dav_walks.specs.Lines.{above};
ghost use Rattle.dav_walks.specs.Removing.{line_of as the_line_of};
ghost use Rattle.dav_walks.specs.Walking.{CopiesOn, ends_above, transfer_dir, transfers_at, transfers_left, weight_left, works_at};
ghost use Rattle.dav_walks.specs.Weights.{weight};
ghost use Rattle.dav_walks.specs.declared.pending.Pending.TheVariants.{Below};
ghost use Rattle.dav_walks.specs.declared.work.Work.TheVariants.{Whole};

use crate::ends::Ends;
use crate::member::Member;
use crate::pending::{Pending, read_pending};
use crate::removing::{line_of, pass_shallow};
use dav_core::{DavError, DavPath};
use dav_io::NoMemory;
use dav_store::GuardedFileSystem;
use std::alloc::Global;
use std::collections::VecDeque;

/// What is copied: what stands at a path, which may be a directory, to another path.
#[derive(Clone, Copy)]
pub struct Copied<'a> {
    pub from: &'a DavPath,
    pub to: &'a DavPath,
    pub dir: bool,
}

// What a copy of a directory is at: both paths, and what is pending there.
#[derive(Drop)]
struct CopyWalk {
    ends: Ends,
    works: VecDeque<Pending>,
}

// Copies what stands at a path and is no directory.
fn copy_file<S: GuardedFileSystem<C>, C>(
    fs: &mut S,
    credentials: &C,
    from: &DavPath,
    to: &DavPath,
) -> Result<(), DavError>
    ensures copies { (copied : Result Unit FsError) × S.view.copies fs.old credentials.now from.now to.now copied fs.new
        × (result ≡ the_line_of copied) }
    ensures stays { StaysOpen S.view fs.old fs.new }
{
    line_of(fs.copy(from, to, credentials))
}

// Makes a directory, and puts its members before what is pending, unless it goes without them.
fn copy_dir<S: GuardedFileSystem<C>, C>(
    alloc: Global,
    fs: &mut S,
    credentials: &C,
    alone: bool,
    walk: &mut CopyWalk,
) -> Result<(), DavError>
    ensures copies { CopiesOn S.view S.listings credentials.now alone (transfer_dir walk.old.ends ∷ transfers_at
        (ends_above walk.old.ends) walk.old.works.items) fs.old result fs.new (transfers_left walk.new) }
    ensures lighter { result ≡ Ok tt → weight_left walk.new < weight (Whole walk.old.ends.from true
        ∷ works_at (above walk.old.ends.from) walk.old.works.items []) }
    ensures stays { StaysOpen S.view fs.old fs.new }
{
    pass_shallow(&walk.ends.from)?;
    let Ok(()) = walk.works.push_front(Pending::Up) else {
        return Err(DavError::NoMemory);
    };
    match fs.create_dir(&walk.ends.to, credentials) {
        Ok(()) => {}
        Err(refusal) => return Err(DavError::from(refusal)),
    }
    if alone {
        return Ok(());
    }
    read_pending(alloc, fs, credentials, &walk.ends.from, &mut walk.works)
}

// Goes down to a member, and copies it: a file, or a directory, whose members come before what is pending.
fn copy_member<S: GuardedFileSystem<C>, C>(
    alloc: Global,
    fs: &mut S,
    credentials: &C,
    alone: bool,
    walk: &mut CopyWalk,
    member: &Member,
) -> Result<(), DavError>
    ensures copies { CopiesOn S.view S.listings credentials.now alone (transfers_at walk.old.ends
        (Below member.now ∷ walk.old.works.items)) fs.old result fs.new (transfers_left walk.new) }
    ensures lighter { result ≡ Ok tt → weight_left walk.new
        < weight (works_at walk.old.ends.from (Below member.now ∷ walk.old.works.items) []) }
    ensures stays { StaysOpen S.view fs.old fs.new }
{
    let Ok(()) = walk.ends.down(member) else {
        return Err(DavError::NoMemory);
    };
    if member.dir {
        return copy_dir(alloc, fs, credentials, alone, walk);
    }
    let copied = copy_file(fs, credentials, &walk.ends.from, &walk.ends.to);
    walk.ends.up();
    copied
}

// Does the first of what is pending, which was taken off before.
fn copy_one<S: GuardedFileSystem<C>, C>(
    alloc: Global,
    fs: &mut S,
    credentials: &C,
    alone: bool,
    walk: &mut CopyWalk,
    work: Pending,
) -> Result<(), DavError>
    ensures copies { CopiesOn S.view S.listings credentials.now alone (transfers_at walk.old.ends
        (work ∷ walk.old.works.items)) fs.old result fs.new (transfers_left walk.new) }
    ensures lighter { result ≡ Ok tt → weight_left walk.new
        < weight (works_at walk.old.ends.from (work ∷ walk.old.works.items) []) }
    ensures stays { StaysOpen S.view fs.old fs.new }
{
    match work {
        Pending::Below(member) => copy_member(alloc, fs, credentials, alone, walk, &member),
        Pending::Up => {
            walk.ends.up();
            Ok(())
        }
    }
}

// Does all that is pending.
fn copy_pending<S: GuardedFileSystem<C>, C>(
    alloc: Global,
    fs: &mut S,
    credentials: &C,
    alone: bool,
    walk: CopyWalk,
) -> Result<(), DavError>
    ensures copies { Copies S.view S.listings credentials.now alone (transfers_left walk) fs.old result fs.new }
    ensures stays { StaysOpen S.view fs.old fs.new }
{
    let mut walk = walk;
    'works: loop {
        match walk.works.pop_front() {
            Some(work) => match copy_one(alloc, fs, credentials, alone, &mut walk, work) {
                Ok(()) => {}
                Err(error) => return Err(error),
            },
            None => return Ok(()),
        }
    }
}

// Copies a directory, with all below it unless it goes without its members.
fn copy_tree<S: GuardedFileSystem<C>, C>(
    alloc: Global,
    fs: &mut S,
    credentials: &C,
    alone: bool,
    ends: Ends,
) -> Result<(), DavError>
    ensures copies { Copies S.view S.listings credentials.now alone (transfer_dir ends ∷ []) fs.old result fs.new }
    ensures stays { StaysOpen S.view fs.old fs.new }
{
    let mut walk = CopyWalk {
        ends,
        works: VecDeque::new(alloc),
    };
    match copy_dir(alloc, fs, credentials, alone, &mut walk) {
        Ok(()) => copy_pending(alloc, fs, credentials, alone, walk),
        Err(error) => Err(error),
    }
}

// Copies of both paths.
fn ends_of(from: &DavPath, to: &DavPath) -> Result<Ends, NoMemory>
    ensures { IfOk result (λ ends. ends ≡ record { from = from.now; to = to.now }) }
{
    Ok(Ends {
        from: from.try_clone()?,
        to: to.try_clone()?,
    })
}

/// Copies what stands at a path to another path. A directory is made before its members are
/// copied, in the order of their names by bytes, each with its own members; alone, it goes without them. Its listing is read
/// to its end and ended before its first member is copied.
///
/// Errors, what was copied staying: the first refusal of a call of the store; 403 where the path of a directory that is
/// copied has more than 65,536 names; want of memory.
pub fn copy_all<S: GuardedFileSystem<C>, C>(
    alloc: Global,
    fs: &mut S,
    credentials: &C,
    alone: bool,
    copied: Copied<'_>,
) -> Result<(), DavError>
    ensures copies { Copies S.view S.listings credentials.now alone
        (record { from = copied.entry.from.now; to = copied.entry.to.now; dir = copied.entry.dir } ∷ [])
        fs.old result fs.new }
    ensures stays { StaysOpen S.view fs.old fs.new }
{
    if !copied.dir {
        return copy_file(fs, credentials, copied.from, copied.to);
    }
    match ends_of(copied.from, copied.to) {
        Ok(ends) => copy_tree(alloc, fs, credentials, alone, ends),
        Err(_) => Err(DavError::NoMemory),
    }
}
