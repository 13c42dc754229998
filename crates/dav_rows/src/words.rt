//! Rows of words, and texts in words. `\n` is a line feed, `\r` a carriage return, `\t` a tab, `\_` a blank, and a
//! backslash before any other character is that character. A word has cells with `|` between them.

use dav_io::{NoMemory, Text};
use std::alloc::Global;

/// The word of this number in a row.
pub fn word(row: &str, n: usize) -> &str {
    row.split(' ').nth(n).unwrap_or("")
}

/// The cell of this number in a word.
pub fn cell(word: &str, n: usize) -> &str {
    word.split('|').nth(n).unwrap_or("")
}

fn meant(escaped: char) -> char {
    match escaped {
        'n' => '\n',
        'r' => '\r',
        't' => '\t',
        '_' => ' ',
        other => other,
    }
}

/// The text that a cell writes.
pub fn unescaped(alloc: Global, cell: &str) -> Result<String, NoMemory> {
    let mut text = String::new(alloc);
    let mut is_escaped = false;
    for c in cell.chars() {
        if is_escaped {
            text.push(meant(c))?;
            is_escaped = false;
        } else if c == '\\' {
            is_escaped = true;
        } else {
            text.push(c)?;
        }
    }
    Ok(text)
}

/// The text that a cell writes, as an element holds it.
pub fn unescaped_text(alloc: Global, cell: &str) -> Result<Text, NoMemory> {
    Ok(Text::new(unescaped(alloc, cell)?))
}
