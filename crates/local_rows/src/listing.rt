//! Listings that are left, or during which the disk changes.
ghost use Rattle.std.specs.Prelude.{◌≡◌};
ghost use Rattle.dav_store.specs.Listings.{HasLister};

use crate::outside::{Outer, make_outer, outer_of, tell_outer};
use crate::scene::number;
use dav_cache::Owned;
use dav_core::{DavPath, DiskError};
use dav_disk::MemDisk;
use dav_local::LocalFs;
use dav_rows::{Line, word};
use dav_store::{DavDirEntry, DavFileSystem, GuardedFileSystem, ReadDirMeta};
use std::alloc::Global;

type Store = LocalFs<MemDisk, Owned>;

// More answers than any listing of a row gives.
const MOST: u64 = 10_000;

// Asks a listing for an answer, adds the name or the fault, and tells whether it may be asked on.
fn list_next<S: GuardedFileSystem<()>>(store: &mut S, dir: &mut S::Dir, line: &mut Line) -> bool
    requires live { HasLister (S.view.state store.old) (S.listings.lister dir.old) }
    ensures live { HasLister (S.view.state store.new) (S.listings.lister dir.new) }
    ensures lister { S.listings.lister dir.new ≡ S.listings.lister dir.old }
{
    match store.next_entry(dir) {
        Ok(Some(entry)) => {
            line.tell(" ", entry.name());
            true
        }
        Ok(None) => {
            line.add(" end");
            false
        }
        Err(error) => {
            line.add(" ");
            line.add_value(&error);
            true
        }
    }
}

// Asks a listing for so many answers at most, and adds the names. A fault is told, and the listing asked on.
fn list_on<S: GuardedFileSystem<()>>(store: &mut S, dir: &mut S::Dir, most: u64, line: &mut Line)
    requires live { HasLister (S.view.state store.old) (S.listings.lister dir.old) }
    ensures live { HasLister (S.view.state store.new) (S.listings.lister dir.new) }
    ensures lister { S.listings.lister dir.new ≡ S.listings.lister dir.old }
{
    'entries: for _ in 0..most.min(MOST) {
        if !list_next(store, dir, line) {
            return;
        }
    }
}

/// Adds the names that a listing gives first, and leaves it there.
pub fn front(line: &mut Line, store: &mut Store, path: &DavPath, part: &str) {
    let count = number(line, word(part, 2));
    match DavFileSystem::read_dir(store, path, ReadDirMeta::Data) {
        Ok(mut dir) => {
            line.add("names");
            list_on(store, &mut dir, count, line);
            DavFileSystem::end_dir(store, dir);
            line.add(" left");
        }
        Err(error) => line.add_value(&error),
    }
}

// Others change the disk, while a listing of the store is open.
fn change<S: GuardedFileSystem<()>>(
    store: &mut S,
    dir: &S::Dir,
    outer: &Outer,
) -> Result<(), DiskError>
    requires { HasLister (S.view.state store.old) (S.listings.lister dir.now) }
    ensures { HasLister (S.view.state store.new) (S.listings.lister dir.now) }
{
    let _dir = dir;
    make_outer(store.disk(), outer)
}

// Adds the names of a directory. Behind so many of them others change the disk.
fn list_around(line: &mut Line, store: &mut Store, path: &DavPath, count: u64, outer: &Outer) {
    match DavFileSystem::read_dir(store, path, ReadDirMeta::Data) {
        Ok(mut dir) => {
            line.add("names");
            list_on(store, &mut dir, count, line);
            let answer = change(store, &dir, outer);
            line.add(" ");
            tell_outer(line, answer);
            list_on(store, &mut dir, MOST, line);
            DavFileSystem::end_dir(store, dir);
        }
        Err(error) => line.add_value(&error),
    }
}

/// The same, by the words of a part.
pub fn list_while(alloc: Global, line: &mut Line, store: &mut Store, path: &DavPath, part: &str) {
    let count = number(line, word(part, 2));
    let outer = outer_of(alloc, line, word(part, 3), word(part, 4), word(part, 5));
    list_around(line, store, path, count, &outer);
}
