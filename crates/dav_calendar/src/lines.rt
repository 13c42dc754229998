//! The lines of a calendar text (RFC 5545 section 3.1).
ghost use Rattle.std.specs.Prelude.{◌≡◌, ◌+◌, ◌<◌, IfOk, MatchOption, None, Some, true, drop, length, option_copied, slice_index};
ghost use Rattle.std.specs.List.{position};
ghost use Rattle.dav_calendar.specs.Reading as reading;

use dav_io::{NoMemory, Text};
use std::alloc::Global;

/// Whether a line continues the one before it.
fn goes_on(line: &str) -> bool
    ensures { result ≡ reading.goes_on line.now }
{
    match line.as_bytes().first() {
        Some(b) => *b == b' ' || *b == b'\t',
        None => false,
    }
}

/// What a line adds to the one before it.
fn behind_first(line: &str) -> &str
    requires { reading.goes_on line.now ≡ true }
    ensures { result.now ≡ drop 1 line.now }
{
    &line[1..]
}

/// The lines of a text, unfolded, behind an empty one, which a first line continues that begins with a blank.
pub(crate) fn unfold(alloc: Global, text: &str) -> Result<Vec<Text>, NoMemory>
    ensures { IfOk result (λ v. v.items ≡ reading.unfolded text.now) }
{
    let mut done = Vec::new(alloc);
    let mut current = String::new(alloc);
    for line in text.lines() {
        if goes_on(line) {
            current.push_str(behind_first(line))?;
        } else {
            done.push(Text::new(current))?;
            current = String::from_str(alloc, line)?;
        }
    }
    done.push(Text::new(current))?;
    Ok(done)
}

/// The place of the first colon outside quotes.
fn colon_in(line: &[u8]) -> Option<usize>
    ensures { MatchOption result (reading.value_of line.now ≡ None) (λ i. (i < length line.now)
        × (slice_index line.now i ≡ 58) × (reading.value_of line.now ≡ Some (drop (i + 1) line.now))) }
{
    let mut quoted = false;
    for i in 0..line.len() {
        let b = line[i];
        if b == b'"' {
            quoted = !quoted;
        } else if b == b':' && !quoted {
            return Some(i);
        }
    }
    None
}

/// What follows the first colon outside quotes.
pub(crate) fn value_of(line: &str) -> Option<&str>
    ensures { option_copied result ≡ reading.value_of line.now }
{
    match colon_in(line.as_bytes()) {
        Some(place) => Some(&line[place + 1..]),
        None => None,
    }
}

/// What stands before the first semicolon or colon.
fn before_mark(line: &str) -> &str
    ensures { result.now ≡ reading.before_mark line.now }
{
    match mark_in(line.as_bytes()) {
        Some(place) => &line[..place],
        None => line,
    }
}

/// The place of the first semicolon or colon.
fn mark_in(line: &[u8]) -> Option<usize>
    ensures { result ≡ position reading.is_mark line.now }
{
    line.iter().position(|b| *b == b';' || *b == b':')
}

/// The name of a line, in ASCII capitals.
pub(crate) fn name_of(alloc: Global, line: &str) -> Result<Text, NoMemory>
    ensures { IfOk result (λ name. name ≡ reading.name_of line.now) }
{
    Ok(Text::new(before_mark(line).to_ascii_uppercase(alloc)?))
}

/// The name of a component that the value of a `BEGIN` or `END` says.
pub(crate) fn component_name(alloc: Global, value: &str) -> Result<Text, NoMemory>
    ensures { IfOk result (λ name. name ≡ reading.component_name value.now) }
{
    Ok(Text::new(value.trim_ascii().to_ascii_uppercase(alloc)?))
}
