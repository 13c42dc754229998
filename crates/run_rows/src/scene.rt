//! What a row sets.
use crate::cells::{bytes_of, number, word_of};
use crate::tree::{add_docs, add_turn, folder, parted, set_dir, set_file};
use anyhow::{Result, bail};
use dav_disk::MemDisk;
use dav_io::Octets;
use std::alloc::Global;

// More bytes than any row writes.
const ROOM: usize = 100_000;

// The number of the first file or directory that a row adds by its path.
const FIRST: u64 = 0x20;

/// The program's words, and the objects that it runs over.
#[derive(Drop)]
pub struct Scene {
    pub words: Vec<String>,
    pub disk: MemDisk,
    pub input: Octets,
    pub take: usize,
    pub put: usize,
    pub room: usize,
    pub source_fails: Vec<u64>,
    pub sink_fails: Vec<u64>,
    // How many seconds the clock gains at each call.
    pub gain: u64,
    // The number of the next file or directory that is added by its path.
    next: u64,
}

// The third turn of a run is the one behind the first piece of a body.
fn cut(alloc: Global, disk: &mut MemDisk, count: &str) -> Result<()> {
    add_turn(alloc, disk, "")?;
    add_turn(alloc, disk, "")?;
    let change = format!(in alloc; "cut f.txt {count}")?;
    add_turn(alloc, disk, change.as_str())
}

fn words_of(alloc: Global, cell: Option<&str>) -> Result<Vec<String>> {
    let mut words = Vec::new(alloc);
    let Some(cell) = cell else {
        return Ok(words);
    };
    for word in cell.split(',') {
        words.push(word_of(alloc, word)?)?;
    }
    Ok(words)
}

fn octets_of(alloc: Global, cell: &str) -> Result<Octets> {
    let mut octets = Octets::empty(alloc);
    octets.extend(bytes_of(alloc, cell)?.as_slice())?;
    Ok(octets)
}

// A number of bytes.
fn count_of(cell: &str) -> Result<usize> {
    Ok(number(cell)?.min(1_000_000) as usize)
}

// Adds a file or a directory by its path.
fn add(alloc: Global, scene: &mut Scene, word: &str, text: &str) -> Result<()> {
    let (path, bytes) = parted(text);
    let number = scene.next;
    scene.next = number.saturating_add(1);
    if word == "dir" {
        return set_dir(alloc, &mut scene.disk, path, number);
    }
    let bytes = bytes_of(alloc, bytes)?;
    set_file(alloc, &mut scene.disk, path, number, bytes.as_slice())
}

fn set(alloc: Global, scene: &mut Scene, part: &str) -> Result<()> {
    let (word, cell) = match part.split_once(' ') {
        Some((word, cell)) => (word, Some(cell)),
        None => (part, None),
    };
    let text = cell.unwrap_or("");
    match word {
        "words" => scene.words = words_of(alloc, cell)?,
        "in" => scene.input = octets_of(alloc, text)?,
        "take" => scene.take = count_of(text)?,
        "put" => scene.put = count_of(text)?,
        "room" => scene.room = count_of(text)?,
        "source-fails" => scene.source_fails.push(number(text)?)?,
        "sink-fails" => scene.sink_fails.push(number(text)?)?,
        "disk-fails" => scene.disk.fail(number(text)?)?,
        "cut" => cut(alloc, &mut scene.disk, text)?,
        "bare" => scene.disk = MemDisk::new(alloc)?,
        "dir" | "file" => add(alloc, scene, word, text)?,
        "turn" => add_turn(alloc, &mut scene.disk, text)?,
        "long" => {
            let bytes = Vec::from_elem(alloc, 7u8, count_of(text)?)?;
            set_file(alloc, &mut scene.disk, "long.bin", 0x1c, bytes.as_slice())?;
        }
        "docs" => add_docs(alloc, &mut scene.disk)?,
        "gains" => scene.gain = number(text)?,
        "listings" | "report" | "rooms" => {}
        _ => bail!("no part of a row: {word}"),
    }
    Ok(())
}

fn set_all(alloc: Global, scene: &mut Scene, row: &str) -> Result<()> {
    for part in row.split('|') {
        set(alloc, scene, part.trim())?;
    }
    Ok(())
}

/// The scene of a row.
pub fn scene_of(alloc: Global, row: &str) -> Result<Scene> {
    let mut scene = Scene {
        words: words_of(alloc, Some("folder,serve"))?,
        disk: folder(alloc)?,
        input: Octets::empty(alloc),
        take: ROOM,
        put: ROOM,
        room: ROOM,
        source_fails: Vec::new(alloc),
        sink_fails: Vec::new(alloc),
        gain: 0,
        next: FIRST,
    };
    set_all(alloc, &mut scene, row)?;
    Ok(scene)
}
