//! What calls answer that read and make elements.
//!
//! Those that read are `calendar TREE`, `addresses TREE`, and, of a text, `is-calendar`, `is-vcard`, `calendar-uid`,
//! `vcard-uid` and `vcard-fn`. `making.rt`, `values.rt`, `levels.rt` and `locks.rt` have the others.

use crate::texts::{tell_maybe, tell_whether};
use crate::trees::root;
use crate::{filters, levels, locks, making, values};
use dav_io::{NoMemory, Text};
use dav_lock::Element;
use dav_report::*;
use dav_rows::{Line, unescaped, word};
use std::alloc::Global;

/// Adds the answer to a row.
pub fn answer(alloc: Global, line: &mut Line, row: &str) {
    match word(row, 0) {
        "calendar" => match root(alloc, row, 1) {
            Ok(root) => calendar(alloc, line, &root),
            Err(_) => line.refuse(),
        },
        "addresses" => match root(alloc, row, 1) {
            Ok(root) => addresses(alloc, line, &root),
            Err(_) => line.refuse(),
        },
        "lock" => locks::lock(alloc, line, row),
        "refresh" => locks::refresh(alloc, line, row),
        "let-go" => locks::let_go(alloc, line, row),
        "copy-levels" => levels::tell_copy(alloc, line, row),
        "filter-levels" => levels::tell_filter(alloc, line, row),
        _ => {
            content(alloc, line, row);
            making::make(alloc, line, row);
            values::make(alloc, line, row);
        }
    }
}

// A copy of the report is told, so that copies are looked at too.
fn calendar(alloc: Global, line: &mut Line, root: &Element) {
    match parse_calendar_report(alloc, root) {
        Ok(asked) => match asked.try_clone() {
            Ok(copy) => filters::tell_calendar(alloc, line, &copy),
            Err(_) => line.refuse(),
        },
        Err(error) => line.add_value(&error),
    }
}

fn addresses(alloc: Global, line: &mut Line, root: &Element) {
    match parse_addressbook_report(alloc, root) {
        Ok(asked) => match asked.try_clone() {
            Ok(copy) => filters::tell_addresses(line, &copy),
            Err(_) => line.refuse(),
        },
        Err(error) => line.add_value(&error),
    }
}

fn content(alloc: Global, line: &mut Line, row: &str) {
    match unescaped(alloc, word(row, 1)) {
        Ok(text) => tell_content(alloc, line, word(row, 0), text.as_str()),
        Err(_) => line.refuse(),
    }
}

fn tell_content(alloc: Global, line: &mut Line, call: &str, text: &str) {
    match call {
        "is-calendar" => tell_whether(line, is_calendar_data(text.as_bytes())),
        "is-vcard" => tell_whether(line, is_vcard_data(text.as_bytes())),
        "calendar-uid" => tell_found(line, extract_calendar_uid(alloc, text)),
        "vcard-uid" => tell_found(line, extract_vcard_uid(alloc, text)),
        "vcard-fn" => tell_found(line, extract_vcard_fn(alloc, text)),
        _ => {}
    }
}

fn tell_found(line: &mut Line, found: Result<Option<Text>, NoMemory>) {
    match found {
        Ok(found) => tell_maybe(line, "|", &found),
        Err(_) => line.refuse(),
    }
}
