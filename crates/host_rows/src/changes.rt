//! Calls of a disk that change what stands.
use crate::calls::path_of;
use anyhow::{Result, bail};
use dav_core::{Disk, DiskError, FsPath, OpenOptions};
use std::alloc::Global;

/// How a file is opened, by letters.
pub fn options(letters: &str) -> OpenOptions {
    OpenOptions {
        read: letters.contains('r'),
        write: letters.contains('w'),
        append: letters.contains('a'),
        truncate: letters.contains('t'),
        create: letters.contains('c'),
        create_new: letters.contains('n'),
    }
}

// Opens a file, for its owner alone unless it is to be public, writes once at a place and closes it: how many bytes
// went.
fn put<D: Disk>(
    disk: &mut D,
    path: &FsPath,
    how: OpenOptions,
    public: bool,
    place: u64,
    text: &str,
) -> Result<usize, DiskError> {
    let file = disk.open(path, how, public)?;
    let sought = disk.seek(file, place);
    let wrote = if text.is_empty() {
        Ok(0)
    } else {
        disk.write(file, text.as_bytes())
    };
    disk.close(file);
    sought?;
    wrote
}

/// Writes to the file at a path, by the words of a part.
pub fn write<D: Disk>(disk: &mut D, path: &FsPath, part: &str, line: &mut String) -> Result<()> {
    let mut words = part.split(' ').skip(2);
    let letters = words.next().unwrap_or("");
    let (how, public) = (options(letters), letters.contains('p'));
    let place = words.next().unwrap_or("").parse::<u64>().unwrap_or(0);
    let text = words.next().unwrap_or("");
    match put(disk, path, how, public, place, text) {
        Ok(count) => Ok(write!(line, "wrote {count}")?),
        Err(error) => Ok(write!(line, "{error}")?),
    }
}

fn show(line: &mut String, done: Result<(), DiskError>) -> Result<()> {
    match done {
        Ok(()) => Ok(line.push_str("done")?),
        Err(error) => Ok(write!(line, "{error}")?),
    }
}

/// Makes the call of a part that names one path or two.
pub fn change<D: Disk>(alloc: Global, disk: &mut D, part: &str, line: &mut String) -> Result<()> {
    let mut words = part.split(' ');
    let kind = words.next().unwrap_or("");
    let path = path_of(alloc, words.next().unwrap_or(""))?;
    let other = path_of(alloc, words.next().unwrap_or(""))?;
    match kind {
        "make" => show(line, disk.create_dir(&path, false)),
        "share" => show(line, disk.create_dir(&path, true)),
        "clear" => show(line, disk.remove_dir(&path)),
        "remove" => show(line, disk.remove_file(&path)),
        "rename" => show(line, disk.rename(&path, &other)),
        "copy" => show(line, disk.copy(&path, &other)),
        _ => bail!("no call of a disk"),
    }
}
