//! What stands on a disk, path by path.
ghost use Rattle.std.specs.Prelude.{◌≡◌, IsSome};

use crate::calls::show_meta;
use crate::cells::{add_name, root, show};
use dav_core::{Disk, FsPath, Handle, Kind, Lister, OpenOptions};
use dav_rows::Line;
use std::alloc::Global;

// The most rows that are shown, and the most names of a directory.
const MOST: u32 = 100;

// The most bytes that are shown of a file.
const MOST_BYTES: usize = 64;

fn copied(line: &mut Line, path: &FsPath) -> FsPath {
    match path.try_clone() {
        Ok(copy) => copy,
        Err(_) => {
            line.refuse();
            root(path.allocator())
        }
    }
}

// Adds a path with a name more to the paths that were found.
fn add_below(line: &mut Line, found: &mut Vec<FsPath>, path: &FsPath, name: &str) {
    let mut below = copied(line, path);
    add_name(line, &mut below, name);
    line.need(found.push(below).ok());
}

// Adds the next path in the directory of a listing, and tells whether there was one.
#[tactic(auto, using(crate::proofs::Listing::stays_live))]
fn add_next<D: Disk>(
    alloc: Global,
    line: &mut Line,
    disk: &mut D,
    path: &FsPath,
    at: Lister,
    found: &mut Vec<FsPath>,
) -> bool
    requires { IsSome ((D.state disk.old).listers at.0) }
    ensures { IsSome ((D.state disk.new).listers at.0) }
{
    match disk.list_next(alloc, at) {
        Ok(Some(name)) => {
            add_below(line, found, path, name.as_str());
            true
        }
        _ => false,
    }
}

// Adds the paths in the directory of a listing, to its end.
fn add_paths<D: Disk>(
    alloc: Global,
    line: &mut Line,
    disk: &mut D,
    path: &FsPath,
    at: Lister,
    found: &mut Vec<FsPath>,
)
    requires { IsSome ((D.state disk.old).listers at.0) }
    ensures { IsSome ((D.state disk.new).listers at.0) }
{
    'names: for _ in 0..MOST {
        if !add_next(alloc, line, disk, path, at, found) {
            return;
        }
    }
}

// Adds the paths in a directory.
fn add_members<D: Disk>(
    alloc: Global,
    line: &mut Line,
    disk: &mut D,
    path: &FsPath,
    found: &mut Vec<FsPath>,
) {
    match disk.list(path) {
        Ok(at) => {
            add_paths(alloc, line, disk, path, at, found);
            disk.end_list(at);
        }
        Err(_) => {}
    }
}

// Puts the paths in a directory before those that wait, the first one first.
fn put_before<D: Disk>(
    alloc: Global,
    line: &mut Line,
    disk: &mut D,
    path: &FsPath,
    waiting: &mut Vec<FsPath>,
) {
    let mut found = Vec::new(alloc);
    add_members(alloc, line, disk, path, &mut found);
    found.reverse();
    line.need(waiting.append(&mut found).ok());
}

// Adds the bytes of an open file.
fn show_bytes<D: Disk>(line: &mut Line, disk: &mut D, file: Handle)
    requires { IsSome ((D.state disk.old).live file.0) }
    ensures { (D.state disk.new).live ≡ (D.state disk.old).live }
{
    let mut buffer = [0u8; MOST_BYTES];
    line.add(" =");
    match disk.read(file, &mut buffer) {
        Ok(count) => show(line, buffer.get(..count).unwrap_or(b"?")),
        Err(_) => line.refuse(),
    }
}

fn show_file<D: Disk>(line: &mut Line, disk: &mut D, path: &FsPath) {
    match disk.open(path, OpenOptions::read(), false) {
        Ok(file) => {
            show_bytes(line, disk, file);
            disk.close(file);
        }
        Err(_) => line.refuse(),
    }
}

fn show_path(line: &mut Line, path: &FsPath) {
    if path.as_slice().is_empty() {
        line.add("/");
    }
    for name in path.as_slice() {
        line.add("/");
        show(line, name.as_str().as_bytes());
    }
}

// Adds what stands at a path, and tells its kind.
fn show_kind<D: Disk>(line: &mut Line, disk: &mut D, path: &FsPath) -> Kind {
    match disk.meta(path) {
        Ok(meta) => {
            show_meta(line, meta);
            meta.kind
        }
        Err(error) => {
            line.add_value(&error);
            Kind::Link
        }
    }
}

// Adds what stands at a path. What is below it waits before all else.
fn show_row<D: Disk>(
    alloc: Global,
    line: &mut Line,
    disk: &mut D,
    path: &FsPath,
    waiting: &mut Vec<FsPath>,
) {
    show_path(line, path);
    line.add(" ");
    let kind = show_kind(line, disk, path);
    if kind == Kind::File {
        show_file(line, disk, path);
    }
    line.add(" | ");
    if kind == Kind::Dir {
        put_before(alloc, line, disk, path, waiting);
    }
}

fn show_next<D: Disk>(alloc: Global, line: &mut Line, disk: &mut D, waiting: &mut Vec<FsPath>) {
    if let Some(path) = waiting.pop() {
        show_row(alloc, line, disk, &path, waiting);
    }
}

fn show_waiting<D: Disk>(alloc: Global, line: &mut Line, disk: &mut D, waiting: &mut Vec<FsPath>) {
    for _ in 0..MOST {
        show_next(alloc, line, disk, waiting);
    }
}

/// Adds what stands on a disk: each directory before its members, which stand in the order of their names' bytes.
pub fn show_tree<D: Disk>(alloc: Global, line: &mut Line, disk: &mut D) {
    let mut waiting = Vec::new(alloc);
    line.need(waiting.push(root(alloc)).ok());
    show_waiting(alloc, line, disk, &mut waiting);
}
