//! Reads calendar texts and judges them, and vCards, by the filters of requests.
//!
//! `text WORD` is the text from here on, and `more COUNT WORD` adds to it so many times. Neither is answered, but where
//! memory is refused.
//!
//! - `tree` prints the components of the text, and `count` how many components there are, with those in others.
//! - `moment WORD` and `duration WORD` print what a text says in seconds.
//! - `overlaps START END` asks whether the first component of the text is at some time of a range of seconds; a bound `-`
//!   is missing.
//! - `calendar TREE` and `cards TREE` ask whether the filter of a request matches the text.

use crate::components::{count_all, tell_all};
use crate::texts::add_times;
use crate::trees::root;
use dav_calendar::{Components, overlaps, read_components, read_duration, read_moment};
use dav_io::{NoMemory, Text};
use dav_lock::Element;
use dav_matching::{Folds, address_matches, calendar_matches};
use dav_report::caldav::CalDavReportType;
use dav_report::carddav::CardDavReportType;
use dav_report::{parse_addressbook_report, parse_calendar_report};
use dav_rows::{Line, unescaped_text, word};
use std::alloc::Global;

// The text with what a row adds to it.
fn with_more(alloc: Global, text: &Text, row: &str) -> Result<Text, NoMemory> {
    let part = unescaped_text(alloc, word(row, 2))?;
    let mut whole = String::from_str(alloc, text.as_str())?;
    let times = word(row, 1).parse::<u64>().unwrap_or(0);
    add_times(&mut whole, part.as_str(), times)?;
    Ok(Text::new(whole))
}

fn text_of(alloc: Global, text: &Text, row: &str) -> Result<Text, NoMemory> {
    if word(row, 0) == "text" {
        return unescaped_text(alloc, word(row, 1));
    }
    with_more(alloc, text, row)
}

fn set(alloc: Global, line: &mut Line, text: &mut Text, row: &str) -> bool {
    match text_of(alloc, text, row) {
        Ok(new) => {
            *text = new;
            false
        }
        Err(_) => {
            line.refuse();
            true
        }
    }
}

/// Adds the answer to a row, and says whether it has one.
pub fn answer(alloc: Global, line: &mut Line, text: &mut Text, row: &str) -> bool {
    match word(row, 0) {
        "text" | "more" => set(alloc, line, text, row),
        _ => {
            tell(alloc, line, text, row);
            true
        }
    }
}

fn tell(alloc: Global, line: &mut Line, text: &Text, row: &str) {
    match word(row, 0) {
        "tree" | "count" | "overlaps" => match read_components(alloc, text.as_str()) {
            Ok(Some(found)) => components(alloc, line, &found, row),
            Ok(None) => line.add("no tree"),
            Err(_) => line.refuse(),
        },
        "moment" | "duration" => match unescaped_text(alloc, word(row, 1)) {
            Ok(value) => tell_value(line, word(row, 0), value.as_slice()),
            Err(_) => line.refuse(),
        },
        "calendar" => match root(alloc, row, 1) {
            Ok(root) => calendar(alloc, line, text, &root),
            Err(_) => line.refuse(),
        },
        "cards" => match root(alloc, row, 1) {
            Ok(root) => cards(alloc, line, text, &root),
            Err(_) => line.refuse(),
        },
        _ => line.refuse(),
    }
}

fn components(alloc: Global, line: &mut Line, found: &Components, row: &str) {
    let told = match word(row, 0) {
        "tree" => tell_all(alloc, line, found),
        "count" => count_all(alloc, line, found),
        _ => {
            overlap(line, found, row);
            Ok(())
        }
    };
    if told.is_err() {
        line.refuse();
    }
}

fn seconds(word: &str) -> Option<i64> {
    match word.parse::<i64>() {
        Ok(seconds) => Some(seconds),
        Err(_) => None,
    }
}

fn overlap(line: &mut Line, found: &Components, row: &str) {
    match found.as_slice().first() {
        Some(first) => {
            let is_there = overlaps(first, seconds(word(row, 1)), seconds(word(row, 2)));
            line.add_whether("", is_there);
        }
        None => line.add("no component"),
    }
}

fn tell_value(line: &mut Line, call: &str, value: &[u8]) {
    if call == "duration" {
        match read_duration(value) {
            Some(seconds) => line.add_number("", seconds),
            None => line.add("none"),
        }
        return;
    }
    match read_moment(value) {
        Some(moment) => {
            line.add_value(&moment.seconds);
            line.add(if moment.is_day { " day" } else { " time" });
        }
        None => line.add("none"),
    }
}

fn tell_match(line: &mut Line, matched: Result<bool, NoMemory>) {
    match matched {
        Ok(matched) => line.add_whether("", matched),
        Err(_) => line.refuse(),
    }
}

fn calendar(alloc: Global, line: &mut Line, text: &Text, root: &Element) {
    match parse_calendar_report(alloc, root) {
        Ok(CalDavReportType::CalendarQuery(query)) => {
            let mut folds = Folds::new(alloc);
            tell_match(line, calendar_matches(&mut folds, &query.comp_filter, text));
        }
        Ok(_) => line.add("no query"),
        Err(error) => line.add_value(&error),
    }
}

fn cards(alloc: Global, line: &mut Line, text: &Text, root: &Element) {
    match parse_addressbook_report(alloc, root) {
        Ok(CardDavReportType::AddressBookQuery(query)) => {
            let mut folds = Folds::new(alloc);
            tell_match(line, address_matches(&mut folds, &query.prop_filter, text));
        }
        Ok(_) => line.add("no query"),
        Err(error) => line.add_value(&error),
    }
}
