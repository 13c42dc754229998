//! What others do on the disk.
ghost use Rattle.std.specs.Prelude.{◌≡◌};

use crate::scene::path_of;
use dav_core::{Disk, DiskError, FsPath};
use dav_rows::{Line, word};
use std::alloc::Global;

/// A change of the disk: a rename, or a copy of a file.
#[derive(Drop)]
pub struct Outer {
    copies: bool,
    from: FsPath,
    to: FsPath,
}

fn is_copy(line: &mut Line, kind: &str) -> bool {
    match kind {
        "mv" => false,
        "cp" => true,
        _ => {
            line.refuse();
            false
        }
    }
}

/// The change of these words.
pub fn outer_of(alloc: Global, line: &mut Line, kind: &str, from: &str, to: &str) -> Outer {
    let copies = is_copy(line, kind);
    let from = path_of(alloc, line, from);
    let to = path_of(alloc, line, to);
    Outer { copies, from, to }
}

/// Makes a change. What is listed goes on to be.
pub fn make_outer<D: Disk>(disk: &mut D, outer: &Outer) -> Result<(), DiskError>
    ensures { (D.state disk.new).listers ≡ (D.state disk.old).listers }
{
    if outer.copies {
        disk.copy(&outer.from, &outer.to)
    } else {
        disk.rename(&outer.from, &outer.to)
    }
}

/// Adds how a change was answered.
pub fn tell_outer(line: &mut Line, answer: Result<(), DiskError>) {
    match answer {
        Ok(()) => line.add("done"),
        Err(error) => line.add_value(&error),
    }
}

/// Makes the change of a part, whose first word is passed over.
pub fn outside<D: Disk>(alloc: Global, line: &mut Line, disk: &mut D, part: &str) {
    let outer = outer_of(alloc, line, word(part, 1), word(part, 2), word(part, 3));
    tell_outer(line, make_outer(disk, &outer));
}
