//! What a row sets: the disk, the settings and the steps.
//!
//!     dir PATH NUMBER TIME          a directory; TIME is in seconds, and nanoseconds behind a point
//!     file PATH NUMBER TIME BYTES   a file; what the disk doesn't take isn't set
//!     fail CALL..                   the calls of these numbers fail
//!     short LENGTH..                the next reads give no more bytes than these
//!     batch CHANGE..                changes that are made in one turn, as `steps.rt` reads them
//!     set NAME VALUE..              a setting
//!     set memory PATHS NAMES        the store remembers so many paths, and so many directories and names together
//!     folds                         the store may find names that fold like those asked
//!     macos                         the rules for clients of macOS hold
//!     uncounted                     how often the disk is asked isn't told
//!     now SECONDS                   the moment of the requests behind it; nanoseconds behind a point
//!
//! Each other part is a step, as `steps.rt` reads it.
use crate::cells::{bytes_of, moment_of, number, path_of};
use crate::steps::{add_steps, batch_of};
use dav_core::{DavMethod, DavMethodSet, FileTime, FsPath, dav_method};
use dav_disk::MemDisk;
use dav_handler::{Settings, Step};
use dav_io::{Moment, NoMemory, Text};
use dav_rows::{Line, word};
use http::Method;
use std::alloc::Global;

/// How many paths are remembered, and how many directories and names together.
#[derive(Clone, Copy)]
pub struct Room {
    pub paths: usize,
    pub dots: usize,
}

/// What a row sets. Without a room nothing is remembered.
#[derive(Drop)]
pub struct Scene {
    pub disk: MemDisk,
    pub settings: Settings,
    pub room: Option<Room>,
    pub folds: bool,
    pub macos: bool,
    pub counted: bool,
    /// Of the requests that are read next.
    pub now: Moment,
    pub steps: Vec<Step>,
}

fn time_of(word: &str) -> FileTime {
    let mut halves = word.splitn(2, '.');
    let secs = halves.next().unwrap_or("").parse::<i64>().unwrap_or(0);
    let nanos = halves.next().unwrap_or("").parse::<u32>().unwrap_or(0);
    FileTime { secs, nanos }
}

/// What is to stand at a path: a directory, or a file with its bytes.
#[derive(Drop)]
pub struct Standing {
    pub path: FsPath,
    pub number: u64,
    pub time: FileTime,
    pub bytes: Option<Vec<u8>>,
}

// What is to stand at a path, by the words behind it.
fn standing_at(alloc: Global, path: FsPath, part: &str) -> Option<Standing> {
    match bytes_of(alloc, word(part, 4)) {
        Ok(bytes) => Some(Standing {
            path,
            number: number(word(part, 2)),
            time: time_of(word(part, 3)),
            bytes: if part.starts_with("file ") {
                Some(bytes)
            } else {
                None
            },
        }),
        Err(_) => None,
    }
}

/// What a part `dir` or `file` sets.
pub fn standing_of(alloc: Global, part: &str) -> Option<Standing> {
    match path_of(alloc, word(part, 1)) {
        Some(path) => standing_at(alloc, path, part),
        None => None,
    }
}

// Sets a directory or a file, where the disk takes it.
fn add_standing(disk: &mut MemDisk, new: &Standing) -> Result<(), NoMemory> {
    if !disk.can_add(&new.path, new.number, new.time) {
        return Ok(());
    }
    match &new.bytes {
        Some(bytes) => disk.add_file(&new.path, new.number, new.time, bytes.as_slice()),
        None => disk.add_dir(&new.path, new.number, new.time),
    }
}

fn set_standing(alloc: Global, disk: &mut MemDisk, line: &mut Line, part: &str) {
    match standing_of(alloc, part) {
        Some(new) => line.need(add_standing(disk, &new).ok()),
        None => line.refuse(),
    }
}

fn add_fails(disk: &mut MemDisk, line: &mut Line, part: &str) {
    for word in part.split(' ').skip(1) {
        line.need(disk.fail(number(word)).ok());
    }
}

// Adds the lengths of a part.
fn add_lens(lens: &mut Vec<usize>, line: &mut Line, part: &str) {
    for word in part.split(' ').skip(1) {
        line.need(lens.push(number(word) as usize).ok());
    }
}

// A read gives a byte at least.
fn shorten(alloc: Global, disk: &mut MemDisk, line: &mut Line, part: &str) {
    let mut lens: Vec<usize> = Vec::new(alloc);
    add_lens(&mut lens, line, part);
    if lens.iter().all(|len| 0 < *len) {
        disk.short(lens);
    } else {
        line.refuse();
    }
}

fn add_batch(alloc: Global, disk: &mut MemDisk, line: &mut Line, part: &str) {
    match batch_of(alloc, part) {
        Some(batch) => line.need(disk.script(batch).ok()),
        None => line.refuse(),
    }
}

fn method_of(alloc: Global, word: &str) -> Option<DavMethod> {
    let method = Method::from_bytes(alloc, word.as_bytes()).ok()?;
    dav_method(&method).ok()
}

// The methods behind a part's first two words.
fn methods_of(alloc: Global, line: &mut Line, part: &str) -> DavMethodSet {
    let mut methods = DavMethodSet::none();
    for word in part.split(' ').skip(2) {
        match method_of(alloc, word) {
            Some(method) => methods.add(method),
            None => line.refuse(),
        }
    }
    methods
}

// Sets what is a text.
fn set_text(settings: &mut Settings, name: &str, text: Text) {
    match name {
        "prefix" => settings.prefix = text,
        "principal" => settings.principal = Some(text),
        _ => settings.indexfile = Some(text),
    }
}

// Sets what is yes or no.
fn set_flag(settings: &mut Settings, name: &str, is_so: bool) {
    match name {
        "hide" => settings.hide_symlinks = Some(is_so),
        "autoindex" => settings.autoindex = Some(is_so),
        _ => settings.redirect = Some(is_so),
    }
}

fn copy_text(alloc: Global, settings: &mut Settings, line: &mut Line, name: &str, value: &str) {
    match Text::copy(alloc, value) {
        Ok(text) => set_text(settings, name, text),
        Err(_) => line.refuse(),
    }
}

fn set(alloc: Global, settings: &mut Settings, line: &mut Line, part: &str) {
    let name = word(part, 1);
    let value = word(part, 2);
    match name {
        "prefix" | "principal" | "index" => copy_text(alloc, settings, line, name, value),
        "hide" | "autoindex" | "redirect" => set_flag(settings, name, value == "yes"),
        "allow" => settings.allow = Some(methods_of(alloc, line, part)),
        "buffer" => settings.read_buf_size = Some(number(value) as usize),
        _ => line.refuse(),
    }
}

/// Sets what a part says of a disk, and answers whether it says something.
pub fn set_disk(alloc: Global, disk: &mut MemDisk, line: &mut Line, part: &str) -> bool {
    match word(part, 0) {
        "dir" | "file" => set_standing(alloc, disk, line, part),
        "fail" => add_fails(disk, line, part),
        "short" => shorten(alloc, disk, line, part),
        "batch" => add_batch(alloc, disk, line, part),
        _ => return false,
    }
    true
}

// The room that a part sets.
fn room_of(part: &str) -> Room {
    Room {
        paths: number(word(part, 2)) as usize,
        dots: number(word(part, 3)) as usize,
    }
}

// Sets what a part of one word says of the store, and answers whether it says something.
fn set_way(scene: &mut Scene, part: &str) -> bool {
    match part {
        "folds" => scene.folds = true,
        "macos" => scene.macos = true,
        "uncounted" => scene.counted = false,
        _ => return false,
    }
    true
}

// Adds a part to a scene that says nothing of its disk.
fn add_other(alloc: Global, scene: &mut Scene, line: &mut Line, part: &str) {
    if part.starts_with("set memory ") {
        scene.room = Some(room_of(part));
    } else if part.starts_with("set ") {
        set(alloc, &mut scene.settings, line, part);
    } else if let Some(seconds) = part.strip_prefix("now ") {
        scene.now = moment_of(seconds);
    } else {
        add_steps(alloc, &mut scene.steps, line, part, scene.now);
    }
}

// Adds a part to a scene.
fn add(alloc: Global, scene: &mut Scene, line: &mut Line, part: &str) {
    if !set_disk(alloc, &mut scene.disk, line, part) && !set_way(scene, part) {
        add_other(alloc, scene, line, part);
    }
}

fn add_all(alloc: Global, scene: &mut Scene, line: &mut Line, parts: &str) {
    for part in parts.split('|') {
        add(alloc, scene, line, part.trim());
    }
}

// The scene of these parts over an empty disk.
fn scene_over(alloc: Global, line: &mut Line, disk: MemDisk, parts: &str) -> Scene {
    let mut scene = Scene {
        disk,
        settings: Settings::defaults(alloc),
        room: None,
        folds: false,
        macos: false,
        counted: true,
        now: Moment(0),
        steps: Vec::new(alloc),
    };
    add_all(alloc, &mut scene, line, parts);
    scene
}

/// The scene of these parts.
pub fn scene_of(alloc: Global, line: &mut Line, parts: &str) -> Option<Scene> {
    match MemDisk::new(alloc) {
        Ok(disk) => Some(scene_over(alloc, line, disk, parts)),
        Err(_) => None,
    }
}
