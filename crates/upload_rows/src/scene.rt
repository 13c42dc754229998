//! What stands where a row begins.
//!
//!     dir PATH NUMBER SECONDS          a directory
//!     file PATH NUMBER SECONDS BYTES   a file
//!     fail CALL..                      the calls of the disk of these numbers fail
//!
//! What the disk doesn't take isn't set.
use dav_core::{FileTime, FsPath};
use dav_disk::MemDisk;
use dav_io::{NoMemory, Text};
use dav_rows::{Line, text_of, word};
use std::alloc::Global;

/// Whether a part sets something.
pub fn is_set(part: &str) -> bool {
    matches!(word(part, 0), "dir" | "file" | "fail")
}

fn add_name(alloc: Global, names: &mut Vec<Text>, name: &str) -> Result<(), NoMemory> {
    let name = Text::new(text_of(alloc, name)?);
    names.push(name)?;
    Ok(())
}

fn add_names(alloc: Global, names: &mut Vec<Text>, word: &str) -> Result<(), NoMemory> {
    for name in word.split('/') {
        if !name.is_empty() {
            add_name(alloc, names, name)?;
        }
    }
    Ok(())
}

// The path of a word: its names, each behind a slash. Each `%XX` in a name is a byte.
fn path_of(alloc: Global, word: &str) -> Option<FsPath> {
    let mut names = Vec::new(alloc);
    let read = add_names(alloc, &mut names, word);
    if read.is_ok() && FsPath::fits(&names) {
        Some(FsPath::new(names))
    } else {
        None
    }
}

// The number of a word.
fn number(line: &mut Line, word: &str) -> u64 {
    match word.parse::<u64>() {
        Ok(number) => number,
        Err(_) => {
            line.refuse();
            0
        }
    }
}

fn time_of(line: &mut Line, word: &str) -> FileTime {
    match word.parse::<i64>() {
        Ok(secs) => FileTime { secs, nanos: 0 },
        Err(_) => {
            line.refuse();
            FileTime { secs: 0, nanos: 0 }
        }
    }
}

fn stand_at(disk: &mut MemDisk, line: &mut Line, path: &FsPath, part: &str) {
    let number = number(line, word(part, 2));
    let time = time_of(line, word(part, 3));
    if !disk.can_add(path, number, time) {
        return;
    }
    let added = if part.starts_with("file ") {
        disk.add_file(path, number, time, word(part, 4).as_bytes())
    } else {
        disk.add_dir(path, number, time)
    };
    line.need(added.ok());
}

fn stand(alloc: Global, disk: &mut MemDisk, line: &mut Line, part: &str) {
    match path_of(alloc, word(part, 1)) {
        Some(path) => stand_at(disk, line, &path, part),
        None => line.refuse(),
    }
}

fn add_fails(disk: &mut MemDisk, line: &mut Line, part: &str) {
    for word in part.split(' ').skip(1) {
        let call = number(line, word);
        line.need(disk.fail(call).ok());
    }
}

// Sets what a part says.
fn set(alloc: Global, disk: &mut MemDisk, line: &mut Line, part: &str) {
    if part.starts_with("fail ") {
        add_fails(disk, line, part);
    } else {
        stand(alloc, disk, line, part);
    }
}

/// Sets what a row says.
pub fn set_all(alloc: Global, disk: &mut MemDisk, line: &mut Line, row: &str) {
    for part in row.split('|') {
        if is_set(part.trim()) {
            set(alloc, disk, line, part.trim());
        }
    }
}
