//! Texts of words. In a text each `%XX` is a byte, `N*TEXT` is so many copies of a text, and `^` stands between texts
//! that are joined. A path is its names, each behind a slash; the root is a slash alone.
use dav_core::{FileTime, FsPath};
use dav_io::{Moment, Text};
use dav_rows::Line;
use percent_encoding::{CONTROLS, percent_decode};
use std::alloc::{AllocError, Global};

/// A number of digits. What is none is 0.
pub fn number(word: &str) -> u64 {
    word.parse::<u64>().unwrap_or(0)
}

/// The moment of a word: seconds, at most a million, and nanoseconds behind a point.
pub fn moment_of(word: &str) -> Moment {
    let mut halves = word.splitn(2, '.');
    let secs = number(halves.next().unwrap_or("")).min(1_000_000);
    let nanos = number(halves.next().unwrap_or("")).min(999_999_999);
    Moment(secs * 1_000_000_000 + nanos)
}

// Appends the bytes of a text without `^`.
fn add_copies(bytes: &mut Vec<u8>, text: &str) -> Result<(), AllocError> {
    let (count, copied) = text.split_once('*').unwrap_or(("", ""));
    let Ok(count) = count.parse::<u32>() else {
        return percent_decode(text.as_bytes()).append_to(bytes);
    };
    for _ in 0..count {
        percent_decode(copied.as_bytes()).append_to(bytes)?;
    }
    Ok(())
}

/// The bytes of a text.
pub fn bytes_of(alloc: Global, text: &str) -> Result<Vec<u8>, AllocError> {
    let mut bytes = Vec::new(alloc);
    for part in text.split('^') {
        add_copies(&mut bytes, part)?;
    }
    Ok(bytes)
}

fn add_name(alloc: Global, names: &mut Vec<Text>, name: &str) -> Option<()> {
    let name = Text::copy(alloc, name).ok()?;
    names.push(name).ok()
}

// Adds the names of a word. They may be refused for want of memory.
fn add_names(alloc: Global, names: &mut Vec<Text>, word: &str) -> Option<()> {
    for name in word.split('/') {
        if !name.is_empty() {
            add_name(alloc, names, name)?;
        }
    }
    Some(())
}

/// The path of a word, unless it has none or memory is refused.
pub fn path_of(alloc: Global, word: &str) -> Option<FsPath> {
    let mut names = Vec::new(alloc);
    let read = add_names(alloc, &mut names, word);
    if read.is_some() && FsPath::fits(&names) {
        Some(FsPath::new(names))
    } else {
        None
    }
}

/// Adds bytes as a text spells them, blanks as they are.
pub fn tell_bytes(line: &mut Line, bytes: &[u8]) {
    line.add_bytes(bytes, CONTROLS.add(b'%').add(b'|'));
}

/// Adds a time in seconds, and the nanoseconds behind a point.
pub fn tell_time(line: &mut Line, time: FileTime) {
    line.add_value(&time.secs);
    line.add_number(".", u64::from(time.nanos));
}
