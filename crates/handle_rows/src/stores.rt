//! The stores of rows, in which each path is meant as it is written.
//!
//! On the disk of a row stand the file `/f.txt` (number 26, 1 s, `0123456789`) and the directory `/d` (number 27, 2 s). A
//! word `store` among those of a configuration that is given gives it a disk of its own, with the file `/f.txt` (number
//! 36, 3 s, `abcde`), whose calls of the numbers in words `!CALL` fail.
use crate::settings::{Config, Store, config_of};
use dav_core::{FileTime, FsPath, is_plain};
use dav_disk::MemDisk;
use dav_local::LocalFs;
use dav_memory::Forget;
use dav_rows::Line;
use std::alloc::Global;

fn add_name(line: &mut Line, path: &mut FsPath, name: &str) {
    if is_plain(name.as_bytes()) {
        line.need(path.push(name).ok());
    } else {
        line.refuse();
    }
}

// The path of a member of the root.
fn path_of(alloc: Global, line: &mut Line, name: &str) -> FsPath {
    let mut path = FsPath::new(Vec::new(alloc));
    add_name(line, &mut path, name);
    path
}

fn put_file(
    line: &mut Line,
    disk: &mut MemDisk,
    file: &FsPath,
    number: u64,
    secs: i64,
    bytes: &[u8],
) {
    let time = FileTime { secs, nanos: 0 };
    if disk.can_add(file, number, time) {
        line.need(disk.add_file(file, number, time, bytes).ok());
    } else {
        line.refuse();
    }
}

fn put_dir(line: &mut Line, disk: &mut MemDisk, dir: &FsPath) {
    let time = FileTime { secs: 2, nanos: 0 };
    if disk.can_add(dir, 27, time) {
        line.need(disk.add_dir(dir, 27, time).ok());
    } else {
        line.refuse();
    }
}

/// Sets the disk on which the rows run.
pub fn set_own(alloc: Global, line: &mut Line, disk: &mut MemDisk) {
    let file = path_of(alloc, line, "f.txt");
    put_file(line, disk, &file, 26, 1, b"0123456789");
    let dir = path_of(alloc, line, "d");
    put_dir(line, disk, &dir);
}

fn fail(line: &mut Line, disk: &mut MemDisk, call: &str) {
    match call.parse::<u64>() {
        Ok(call) => line.need(disk.fail(call).ok()),
        Err(_) => line.refuse(),
    }
}

fn fail_calls(line: &mut Line, disk: &mut MemDisk, words: &str) {
    for word in words.split(' ') {
        if let Some(call) = word.strip_prefix("!") {
            fail(line, disk, call);
        }
    }
}

// Sets the disk of a configuration that is given, some of whose calls fail.
fn set_given(alloc: Global, line: &mut Line, disk: &mut MemDisk, words: &str) {
    let file = path_of(alloc, line, "f.txt");
    put_file(line, disk, &file, 36, 3, b"abcde");
    fail_calls(line, disk, words);
}

/// A store over a disk.
pub fn store_of(disk: MemDisk) -> Store {
    LocalFs::new(disk, Forget, false, false, false)
}

// A configuration with the store of one that is given.
fn given_store(alloc: Global, line: &mut Line, config: Config, words: &str) -> Config {
    match MemDisk::new(alloc) {
        Ok(mut disk) => {
            set_given(alloc, line, &mut disk, words);
            config.filesystem(store_of(disk))
        }
        Err(_) => {
            line.refuse();
            config
        }
    }
}

fn has_store(words: &str) -> bool {
    words.split(' ').any(|word| word == "store")
}

/// The configuration that is given with a request.
pub fn given_config(alloc: Global, line: &mut Line, words: &str) -> Config {
    let has_store = has_store(words);
    let config = config_of(alloc, line, words);
    if has_store {
        given_store(alloc, line, config, words)
    } else {
        config
    }
}
