//! Components in words: `b|NAME` begins one, `p|NAME|VALUE` is a property of it, and `/` ends it. Texts are written as
//! words write them.
use crate::texts::tell_word;
use dav_calendar::{Component, Components};
use dav_io::NoMemory;
use dav_rows::Line;
use std::alloc::Global;

fn tell_begin(line: &mut Line, component: &Component) {
    tell_word(line, " b|", &component.name);
    for property in component.properties.as_slice() {
        tell_word(line, " p|", &property.name);
        tell_word(line, "|", &property.value);
    }
}

/// Adds components, with those in them.
pub fn tell_all(alloc: Global, line: &mut Line, found: &Components) -> Result<(), NoMemory> {
    line.add("tree");
    let mut waiting = Vec::new(alloc);
    waiting.push(found.as_slice())?;
    for _ in 0..u64::MAX {
        let (first, others) = match waiting.pop() {
            Some([first, others @ ..]) => (first, others),
            Some([]) => {
                if !waiting.is_empty() {
                    line.add(" /");
                }
                continue;
            }
            None => break,
        };
        waiting.push(others)?;
        tell_begin(line, first);
        waiting.push(first.children.as_slice())?;
    }
    Ok(())
}

/// Adds how many components there are, with those in others.
pub fn count_all(alloc: Global, line: &mut Line, found: &Components) -> Result<(), NoMemory> {
    let mut count: u64 = 0;
    let mut waiting = Vec::new(alloc);
    waiting.push(found.as_slice())?;
    for _ in 0..u64::MAX {
        let (first, others) = match waiting.pop() {
            Some([first, others @ ..]) => (first, others),
            Some([]) => continue,
            None => break,
        };
        count = count.saturating_add(1);
        waiting.push(others)?;
        waiting.push(first.children.as_slice())?;
    }
    line.add_number("", count);
    Ok(())
}
