//! Disks in memory that rows write: what stands there, and what changes in turns of the outside.
use crate::ready::body;
use dav_core::{Change, FileTime, FsPath};
use dav_disk::MemDisk;
use dav_io::{NoMemory, Octets, Text};
use dav_rows::text_of;
use std::alloc::Global;

const SECOND: FileTime = FileTime { secs: 1, nanos: 0 };

// The number of the first file or directory of a disk but for its root.
const FIRST: u64 = 0x20;

// The path of names with slashes between them, or none where they are no names.
fn path_of(alloc: Global, text: &str) -> Result<Option<FsPath>, NoMemory> {
    let mut names = Vec::new(alloc);
    for name in text.split('/') {
        if !name.is_empty() {
            names.push(Text::new(text_of(alloc, name)?))?;
        }
    }
    if FsPath::fits(&names) {
        Ok(Some(FsPath::new(names)))
    } else {
        Ok(None)
    }
}

// Adds what an entry says, where the disk takes it: `PATH/` is a directory, and `PATH=BODY` a file.
fn add(alloc: Global, disk: &mut MemDisk, entry: &str, number: u64) -> Result<(), NoMemory> {
    let (name, text) = entry.split_once('=').unwrap_or((entry, ""));
    let Some(path) = path_of(alloc, name)? else {
        return Ok(());
    };
    if !disk.can_add(&path, number, SECOND) {
        return Ok(());
    }
    if name.ends_with('/') {
        return disk.add_dir(&path, number, SECOND);
    }
    let bytes = body(alloc, text)?;
    disk.add_file(&path, number, SECOND, bytes.as_slice())
}

fn file_change(alloc: Global, path: FsPath, text: &str) -> Result<Change, NoMemory> {
    Ok(Change::AddFile(path, Octets::new(body(alloc, text)?)))
}

// The change that a text says, or none: `cut:PATH:COUNT`, `remove:PATH` or `file:PATH:BODY`.
fn change_of(alloc: Global, text: &str) -> Result<Option<Change>, NoMemory> {
    let mut parts = text.splitn(3, ':');
    let word = parts.next().unwrap_or("");
    let path = path_of(alloc, parts.next().unwrap_or(""))?;
    let more = parts.next().unwrap_or("");
    let Some(path) = path else {
        return Ok(None);
    };
    match word {
        "cut" => Ok(Some(Change::Cut(path, more.parse::<u64>().unwrap_or(0)))),
        "remove" => Ok(Some(Change::Remove(path))),
        "file" => Ok(Some(file_change(alloc, path, more)?)),
        _ => Ok(None),
    }
}

// Adds a turn with the changes of a text, with commas between them.
fn add_turn(alloc: Global, disk: &mut MemDisk, text: &str) -> Result<(), NoMemory> {
    let mut batch = Vec::new(alloc);
    for part in text.split(',') {
        if let Some(change) = change_of(alloc, part)? {
            batch.push(change)?;
        }
    }
    disk.script(batch)
}

/// A disk with these entries and turns, whose calls of these numbers fail.
pub fn disk_of(alloc: Global, tree: &str, turns: &str, fails: &[u64]) -> Result<MemDisk, NoMemory> {
    let mut disk = MemDisk::new(alloc)?;
    let mut number = FIRST;
    for entry in tree.split(',') {
        add(alloc, &mut disk, entry, number)?;
        number = number.saturating_add(1);
    }
    if turns != "-" {
        for turn in turns.split(';') {
            add_turn(alloc, &mut disk, turn)?;
        }
    }
    for call in fails {
        disk.fail(*call)?;
    }
    Ok(disk)
}
