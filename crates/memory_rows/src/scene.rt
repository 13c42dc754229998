//! What a row sets before its calls.
//!
//!     dir PATH NUMBER TIME          a directory; TIME is in seconds, and nanoseconds behind a point
//!     file PATH NUMBER TIME BYTES   a file; what the disk doesn't take isn't set
//!     fail CALL..                   the calls of these numbers fail
//!
//! Each other part is a call.
use crate::cells::{bytes, number, path_of, time_of};
use dav_core::{Disk, FileTime, FsPath};
use dav_disk::{MemDisk, SureDisk};
use dav_rows::{Line, word};
use std::alloc::Global;

/// Whether a part is a call.
pub fn is_call(part: &str) -> bool {
    !matches!(
        part.split(' ').next().unwrap_or(""),
        "dir" | "file" | "fail"
    )
}

/// What is to stand at a path: a directory, or a file with its bytes.
#[derive(Drop)]
pub struct Standing {
    path: FsPath,
    number: u64,
    time: FileTime,
    bytes: Option<Vec<u8>>,
}

fn content_of(alloc: Global, line: &mut Line, part: &str) -> Option<Vec<u8>> {
    if word(part, 0) == "file" {
        Some(bytes(alloc, line, word(part, 4)))
    } else {
        None
    }
}

// What a part `dir` or `file` sets.
fn standing_of(alloc: Global, line: &mut Line, part: &str) -> Standing {
    let number = number(line, word(part, 2));
    let time = time_of(line, word(part, 3));
    let path = path_of(alloc, line, word(part, 1));
    let bytes = content_of(alloc, line, part);
    Standing {
        path,
        number,
        time,
        bytes,
    }
}

/// A disk in memory that a row sets.
pub trait Scene: Disk {
    /// Sets what is to stand at a path, where the disk takes it.
    fn stand(&mut self, line: &mut Line, new: &Standing);

    /// Lets the call of this number fail.
    fn fail_at(&mut self, line: &mut Line, call: u64);

    /// How often the disk was asked, and how many faults it met.
    fn counts(&self) -> (u64, u64);
}

fn stand_in_mem(disk: &mut MemDisk, new: &Standing) -> Option<()> {
    if !disk.can_add(&new.path, new.number, new.time) {
        return Some(());
    }
    match &new.bytes {
        Some(bytes) => disk
            .add_file(&new.path, new.number, new.time, bytes.as_slice())
            .ok(),
        None => disk.add_dir(&new.path, new.number, new.time).ok(),
    }
}

fn stand_in_sure(disk: &mut SureDisk, new: &Standing) -> Option<()> {
    if !disk.can_add(&new.path, new.number, new.time) {
        return Some(());
    }
    match &new.bytes {
        Some(bytes) => disk
            .add_file(&new.path, new.number, new.time, bytes.as_slice())
            .ok(),
        None => disk.add_dir(&new.path, new.number, new.time).ok(),
    }
}

impl Scene for MemDisk {
    fn stand(&mut self, line: &mut Line, new: &Standing) {
        line.need(stand_in_mem(self, new));
    }

    fn fail_at(&mut self, line: &mut Line, call: u64) {
        line.need(self.fail(call).ok());
    }

    fn counts(&self) -> (u64, u64) {
        (self.asked(), self.faults())
    }
}

// It has no schedule of faults.
impl Scene for SureDisk {
    fn stand(&mut self, line: &mut Line, new: &Standing) {
        line.need(stand_in_sure(self, new));
    }

    fn fail_at(&mut self, line: &mut Line, _call: u64) {
        line.refuse();
    }

    fn counts(&self) -> (u64, u64) {
        (self.asked(), self.faults())
    }
}

fn fail_all<D: Scene>(line: &mut Line, disk: &mut D, part: &str) {
    for word in part.split(' ').skip(1) {
        let call = number(line, word);
        disk.fail_at(line, call);
    }
}

/// Sets what a part says, where it is understood. What the disk doesn't take isn't set.
pub fn set<D: Scene>(alloc: Global, line: &mut Line, disk: &mut D, part: &str) {
    if word(part, 0) == "fail" {
        fail_all(line, disk, part);
    } else {
        let new = standing_of(alloc, line, part);
        disk.stand(line, &new);
    }
}
