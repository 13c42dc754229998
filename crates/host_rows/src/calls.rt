//! Calls of a disk of the machine, one after the other.
use crate::changes::{change, write};
use crate::looks::{Kept, look};
use crate::steps::steps;
use anyhow::{Result, bail};
use dav_core::{Disk, DiskError, FsPath, Kind, Meta, OpenOptions};
use dav_host::HostDisk;
use dav_io::Text;
use std::alloc::Global;

fn name_of(alloc: Global, word: &str) -> Result<Text> {
    match word.split_once('*') {
        Some((count, name)) => {
            let count = count.parse::<u16>().unwrap_or(0);
            Ok(Text::new(name.repeat(alloc, usize::from(count))?))
        }
        None => Ok(Text::copy(alloc, word)?),
    }
}

/// The path of a word, whose names stand between slashes.
pub fn path_of(alloc: Global, word: &str) -> Result<FsPath> {
    let mut names = Vec::new(alloc);
    for name in word.split('/') {
        if !name.is_empty() {
            names.push(name_of(alloc, name)?)?;
        }
    }
    if !FsPath::fits(&names) {
        bail!("no path");
    }
    Ok(FsPath::new(names))
}

fn kind_word(kind: Kind) -> &'static str {
    match kind {
        Kind::Dir => "folder",
        Kind::File => "file",
        Kind::Link => "link",
    }
}

// The length of a folder is the machine's, so it isn't told.
fn show_meta(line: &mut String, meta: Meta) -> Result<()> {
    line.push_str(kind_word(meta.kind))?;
    if meta.kind == Kind::File {
        write!(line, " of {}", meta.len)?;
    }
    Ok(())
}

fn show_looked(line: &mut String, answer: Result<Meta, DiskError>) -> Result<()> {
    match answer {
        Ok(meta) => show_meta(line, meta),
        Err(error) => Ok(write!(line, "{error}")?),
    }
}

// Opens a file, reads once from a place on and closes it: what is open, and the bytes.
fn piece<D: Disk>(
    disk: &mut D,
    path: &FsPath,
    place: u64,
    into: &mut [u8; 4],
) -> Result<(Meta, usize), DiskError> {
    let file = disk.open(path, OpenOptions::read(), false)?;
    let sought = disk.seek(file, place);
    let read = disk.read(file, into);
    let meta = disk.file_meta(file);
    disk.close(file);
    sought?;
    Ok((meta?, read?))
}

fn read<D: Disk>(disk: &mut D, path: &FsPath, place: u64, line: &mut String) -> Result<()> {
    let mut into = [0u8; 4];
    match piece(disk, path, place, &mut into) {
        Ok((meta, count)) => {
            show_meta(line, meta)?;
            line.push_str(": ")?;
            let bytes = into.get(..count).unwrap_or(b"?");
            Ok(line.push_str(std::str::from_utf8(bytes).unwrap_or("?"))?)
        }
        Err(error) => Ok(write!(line, "{error}")?),
    }
}

// Asks a folder for two names and ends the listing.
fn names<D: Disk>(
    alloc: Global,
    disk: &mut D,
    path: &FsPath,
) -> Result<(Option<Text>, Option<Text>), DiskError> {
    let at = disk.list(path)?;
    let first = disk.list_next(alloc, at);
    let second = disk.list_next(alloc, at);
    disk.end_list(at);
    Ok((first?, second?))
}

fn show_name(line: &mut String, name: Option<Text>) -> Result<()> {
    match name {
        Some(name) => line.push_str(name.as_str())?,
        None => line.push_str("end")?,
    }
    Ok(())
}

fn list<D: Disk>(alloc: Global, disk: &mut D, path: &FsPath, line: &mut String) -> Result<()> {
    match names(alloc, disk, path) {
        Ok((first, second)) => {
            show_name(line, first)?;
            line.push_str(", ")?;
            show_name(line, second)
        }
        Err(error) => Ok(write!(line, "{error}")?),
    }
}

// Makes the call of a part.
fn call<D: Disk>(
    rt: &HostRuntime,
    disk: &mut D,
    part: &str,
    kept: &mut Kept,
    line: &mut String,
) -> Result<()> {
    let alloc = rt.alloc();
    let mut words = part.split(' ');
    let kind = words.next().unwrap_or("");
    let path = path_of(alloc, words.next().unwrap_or(""))?;
    let place = words.next().unwrap_or("").parse::<u64>().unwrap_or(0);
    match kind {
        "look" => show_looked(line, disk.meta(&path))?,
        "link" => show_looked(line, disk.link_meta(&path))?,
        "read" => read(disk, &path, place, line)?,
        "list" => list(alloc, disk, &path, line)?,
        "turn" => {
            disk.turn()?;
            line.push_str("turned")?;
        }
        "write" => write(disk, &path, part, line)?,
        "steps" => steps(alloc, disk, &path, part, line)?,
        "keep" | "same" | "number" | "since" | "when" => look(rt, disk, part, kept, line)?,
        _ => change(alloc, disk, part, line)?,
    }
    Ok(line.push_str(" | ")?)
}

/// What a disk below a folder answers.
pub fn calls(rt: &HostRuntime, root: &str, parts: &str) -> Result<String> {
    let alloc = rt.alloc();
    let mut disk = HostDisk::new(alloc, rt, root)?;
    let mut line = String::new(alloc);
    let mut kept = Kept::none();
    for part in parts.split('|').skip(1) {
        call(rt, &mut disk, part.trim(), &mut kept, &mut line)?;
    }
    write!(line, "failed {}", disk.faults())?;
    Ok(line)
}
