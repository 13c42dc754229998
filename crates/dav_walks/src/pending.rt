// What a walk below a directory still has to do.
ghost use Rattle.std.specs.Prelude.{◌≡◌, ◌++◌, map, OnOk};
ghost use Rattle.dav_store.specs.View.{StaysOpen};
ghost use Rattle.dav_walks.specs.declared.pending.Pending.TheVariants.{Below};
ghost use Rattle.dav_walks.specs.Lines.{above as the_above};
ghost use Rattle.dav_walks.specs.Reading.{child_named};
ghost use Rattle.dav_walks.specs.Walking.{ReadsPending};

use crate::member::Member;
use crate::reading::read_members;
use dav_core::{DavError, DavPath};
use dav_io::NoMemory;
use dav_store::GuardedFileSystem;
use std::alloc::Global;
use std::collections::VecDeque;

// What is still to be done at the path that a walk is at. A walk has one path, and goes down and up by it: so what is
// pending holds no path of its own.
#[derive(Drop)]
pub enum Pending {
    // A member of the directory there.
    Below(Member),
    // The directory there has had its members, and the walk goes up.
    Up,
}

// The path goes down to the member of this name.
pub fn go_down(path: &mut DavPath, member: &Member) -> Result<(), NoMemory>
    ensures { OnOk result (path.new ≡ (child_named path.old member.now.name member.now.dir).path) }
{
    path.push_segment(member.name.as_str())?;
    if member.dir {
        path.add_slash();
    }
    Ok(())
}

// Puts the members of a directory before what is pending.
fn push_members(members: Vec<Member>, works: &mut VecDeque<Pending>) -> Result<(), NoMemory>
    ensures { OnOk result (works.new.items ≡ map Below members.items ++ works.old.items) }
{
    let mut members = members;
    'members: while let Some(member) = members.pop() {
        works.push_front(Pending::Below(member))?;
    }
    Ok(())
}

// Reads the members of the directory at a path, and puts them before what is pending.
pub fn read_pending<S: GuardedFileSystem<C>, C>(
    alloc: Global,
    fs: &mut S,
    credentials: &C,
    path: &DavPath,
    works: &mut VecDeque<Pending>,
) -> Result<(), DavError>
    ensures reads { ReadsPending S.view S.listings credentials.now path.now works.old.items fs.old
        result fs.new works.new.items }
    ensures stays { StaysOpen S.view fs.old fs.new }
{
    let members = match read_members(alloc, fs, credentials, path) {
        Ok(members) => members,
        Err(refusal) => return Err(DavError::from(refusal)),
    };
    let Ok(()) = push_members(members, works) else {
        return Err(DavError::NoMemory);
    };
    Ok(())
}
