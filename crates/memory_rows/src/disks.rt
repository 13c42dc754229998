//! Calls on disks in memory.
//!
//! A row is parts with ` | ` between them. The first says which disk: `mem` may fail, `sure` has no schedule of faults.
//! The parts behind it set what stands there (`scene.rt`) or are calls (`calls.rt`); each call's answer stands before a
//! `|`. The last words tell what stands on the disk then, path by path in the order of bytes: kind, number, time and,
//! of a file, its bytes; and how many calls were asked and how many failed.
use crate::calls::call;
use crate::scene::{Scene, is_call, set};
use crate::trees::show_tree;
use dav_disk::{MemDisk, SureDisk};
use dav_rows::{Line, word};
use std::alloc::Global;

fn play_part<D: Scene>(alloc: Global, line: &mut Line, disk: &mut D, part: &str) {
    if is_call(part) {
        call(alloc, line, disk, part);
    } else {
        set(alloc, line, disk, part);
    }
}

fn play_parts<D: Scene>(alloc: Global, line: &mut Line, disk: &mut D, parts: &str) {
    for part in parts.split('|').skip(1) {
        play_part(alloc, line, disk, part.trim());
    }
}

// What a disk answers, and what stands there afterwards.
fn play<D: Scene>(alloc: Global, line: &mut Line, disk: &mut D, parts: &str) {
    play_parts(alloc, line, disk, parts);
    let (asked, faults) = disk.counts();
    show_tree(alloc, line, disk);
    line.add_number("asked ", asked);
    line.add_number(", failed ", faults);
}

fn answer_mem(alloc: Global, line: &mut Line, row: &str) {
    match MemDisk::new(alloc) {
        Ok(mut disk) => play(alloc, line, &mut disk, row),
        Err(_) => line.refuse(),
    }
}

fn answer_sure(alloc: Global, line: &mut Line, row: &str) {
    match SureDisk::new(alloc) {
        Ok(mut disk) => play(alloc, line, &mut disk, row),
        Err(_) => line.refuse(),
    }
}

/// Adds the answer to a row.
pub fn answer(alloc: Global, line: &mut Line, row: &str) {
    match word(row, 0) {
        "mem" => answer_mem(alloc, line, row),
        "sure" => answer_sure(alloc, line, row),
        _ => line.add(row),
    }
}
