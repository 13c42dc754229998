//! Texts of rows.
use anyhow::{Result, bail};
use percent_encoding::{AsciiSet, CONTROLS, percent_decode, percent_encode};
use std::alloc::Global;

/// A number of digits.
pub fn number(word: &str) -> Result<u64> {
    match word.parse::<u64>() {
        Ok(number) => Ok(number),
        Err(_) => bail!("no number"),
    }
}

// Appends the bytes of a text without `^`. Only what has digits before a `*` is copied.
fn add_copies(bytes: &mut Vec<u8>, text: &str) -> Result<()> {
    let (count, copied) = match text.split_once('*') {
        Some((digits, copied)) => match digits.parse::<u32>() {
            Ok(count) => (count, copied),
            Err(_) => (1, text),
        },
        None => (1, text),
    };
    for _ in 0..count {
        percent_decode(copied.as_bytes()).append_to(bytes)?;
    }
    Ok(())
}

/// The bytes of a text.
pub fn bytes_of(alloc: Global, text: &str) -> Result<Vec<u8>> {
    let mut bytes = Vec::new(alloc);
    for part in text.split('^') {
        add_copies(&mut bytes, part)?;
    }
    Ok(bytes)
}

/// The text of a cell.
pub fn word_of(alloc: Global, cell: &str) -> Result<String> {
    match String::from_utf8(bytes_of(alloc, cell)?) {
        Ok(word) => Ok(word),
        Err(_) => bail!("no text"),
    }
}

// Appends a byte that comes so often in a row.
fn show_run(line: &mut String, byte: u8, count: u64) -> Result<()> {
    let set: AsciiSet = CONTROLS.add(b'%');
    let one = [byte];
    if count >= 10 {
        write!(line, "{{{count}*")?;
        percent_encode(&one, set).append_to(line)?;
        return Ok(line.push('}')?);
    }
    for _ in 0..count {
        percent_encode(&one, set).append_to(line)?;
    }
    Ok(())
}

/// Appends bytes, long runs of one byte by their length.
pub fn show(line: &mut String, bytes: &[u8]) -> Result<()> {
    let mut last = 0;
    let mut count: u64 = 0;
    for byte in bytes {
        if *byte != last {
            show_run(line, last, count)?;
            last = *byte;
            count = 0;
        }
        count = count.saturating_add(1);
    }
    show_run(line, last, count)
}
