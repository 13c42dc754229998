//! What is told of texts.
use dav_io::{NoMemory, Text};
use dav_rows::Line;

/// Adds a text behind a mark, or a minus sign where there is none.
pub fn tell_maybe(line: &mut Line, mark: &str, text: &Option<Text>) {
    match text {
        Some(text) => line.tell(mark, text.as_str()),
        None => line.tell(mark, "-"),
    }
}

/// Adds whether something holds.
pub fn tell_whether(line: &mut Line, holds: bool) {
    line.add(if holds { "yes" } else { "no" });
}

fn tell_char(line: &mut Line, c: char) {
    match c {
        '\n' => line.add("\\n"),
        '\r' => line.add("\\r"),
        '\t' => line.add("\\t"),
        ' ' => line.add("\\_"),
        '\\' => line.add("\\\\"),
        _ => line.add_value(&c),
    }
}

/// Adds a text behind a mark, as words write it.
pub fn tell_word(line: &mut Line, mark: &str, text: &Text) {
    line.add(mark);
    for c in text.as_str().chars() {
        tell_char(line, c);
    }
}

/// Adds a part to a text so many times.
pub fn add_times(text: &mut String, part: &str, times: u64) -> Result<(), NoMemory> {
    for _ in 0..times {
        text.push_str(part)?;
    }
    Ok(())
}
