//! What a row sets on the disk: what stands there, and what changes there in turns of the outside.
use crate::cells::{bytes_of, number, word_of};
use anyhow::{Result, bail};
use dav_core::{Change, FileTime, FsPath};
use dav_disk::MemDisk;
use dav_io::{Octets, Text};
use std::alloc::Global;

const SECOND: FileTime = FileTime { secs: 1, nanos: 0 };

// The path of these names, with slashes between them.
fn path_of(alloc: Global, text: &str) -> Result<FsPath> {
    let mut names = Vec::new(alloc);
    for name in text.split('/') {
        names.push(Text::copy(alloc, word_of(alloc, name)?.as_str())?)?;
    }
    if !FsPath::fits(&names) {
        bail!("no path");
    }
    Ok(FsPath::new(names))
}

/// Sets a file, where the disk takes it.
pub fn set_file(
    alloc: Global,
    disk: &mut MemDisk,
    text: &str,
    number: u64,
    bytes: &[u8],
) -> Result<()> {
    let path = path_of(alloc, text)?;
    if disk.can_add(&path, number, SECOND) {
        disk.add_file(&path, number, SECOND, bytes)?;
    }
    Ok(())
}

/// Sets a directory, where the disk takes it.
pub fn set_dir(alloc: Global, disk: &mut MemDisk, text: &str, number: u64) -> Result<()> {
    let path = path_of(alloc, text)?;
    if disk.can_add(&path, number, SECOND) {
        disk.add_dir(&path, number, SECOND)?;
    }
    Ok(())
}

/// A folder with a file of ten bytes and an empty one.
pub fn folder(alloc: Global) -> Result<MemDisk> {
    let mut disk = MemDisk::new(alloc)?;
    set_file(alloc, &mut disk, "f.txt", 0x1a, b"0123456789")?;
    set_file(alloc, &mut disk, "e.txt", 0x1b, b"")?;
    Ok(disk)
}

/// A directory with a file of ten bytes.
pub fn add_docs(alloc: Global, disk: &mut MemDisk) -> Result<()> {
    set_dir(alloc, disk, "Docs", 0x1d)?;
    set_file(alloc, disk, "Docs/A.txt", 0x1e, b"0123456789")
}

/// The words before and behind the first blank.
pub fn parted(text: &str) -> (&str, &str) {
    text.split_once(' ').unwrap_or((text, ""))
}

// The change that a text says, or none where it is empty.
fn change_of(alloc: Global, text: &str) -> Result<Option<Change>> {
    let (word, behind) = parted(text);
    let (path, more) = parted(behind);
    match word {
        "" => Ok(None),
        "remove" => Ok(Some(Change::Remove(path_of(alloc, path)?))),
        "cut" => Ok(Some(Change::Cut(path_of(alloc, path)?, number(more)?))),
        "dir" => Ok(Some(Change::AddDir(path_of(alloc, path)?))),
        "file" => {
            let mut octets = Octets::empty(alloc);
            octets.extend(bytes_of(alloc, more)?.as_slice())?;
            Ok(Some(Change::AddFile(path_of(alloc, path)?, octets)))
        }
        _ => bail!("no change: {word}"),
    }
}

/// Adds a turn with the changes of a text, which stand with commas between them.
pub fn add_turn(alloc: Global, disk: &mut MemDisk, text: &str) -> Result<()> {
    let mut batch = Vec::new(alloc);
    for part in text.split(',') {
        if let Some(change) = change_of(alloc, part)? {
            batch.push(change)?;
        }
    }
    disk.script(batch)?;
    Ok(())
}
