//! Paths. Cells of a row stand between `|`.
//!
//!     path|PREFIX|TEXT      the path of a text under a prefix
//!     target|PREFIX|TARGET  that of a request's target
//!     child|PREFIX|TEXT     its text with a final slash, then that path with the name `b` added
//!     home|TEXT             whether it lies in a calendar, and whether in an address book
//!     prefix|TEXT           whether a server may have this prefix
//!     long|COUNT|TEXT       of a slash and so many copies of a text: the number of names, and the length of the last
//!                           one
//!
//! and what `values.rt` reads. A path is told by the number of its names, `=` and the last one, its text, its link, its
//! content type and its parent's text; a fault by its status.

use crate::values;
use dav_core::{DavError, DavMetaData, DavPath, FileTime, Kind, Meta, ParseError};
use dav_rows::{Line, text_of};
use http_uri::Uri;
use percent_encoding::CONTROLS;
use std::alloc::{AllocError, Global};

/// Adds bytes as a cell spells them.
pub fn tell_bytes(line: &mut Line, bytes: &[u8]) {
    line.add_bytes(bytes, CONTROLS.add(b'%').add(b' ').add(b'|'));
}

fn tell_text(line: &mut Line, path: &DavPath) {
    match path.with_prefix() {
        Ok(text) => tell_bytes(line, text.as_slice()),
        Err(_) => line.refuse(),
    }
}

fn tell_link(line: &mut Line, path: &DavPath) {
    match path.as_url_string() {
        Ok(link) => line.add(link.as_str()),
        Err(_) => line.refuse(),
    }
}

fn tell_parent(line: &mut Line, path: &DavPath) {
    match path.parent() {
        Ok(parent) => tell_text(line, &parent),
        Err(_) => line.refuse(),
    }
}

fn tell_path(line: &mut Line, path: &DavPath) {
    line.add_number("", path.names().as_slice().len() as u64);
    line.add(" =");
    tell_bytes(line, path.file_name().unwrap_or("").as_bytes());
    line.add(" ");
    tell_text(line, path);
    line.add(" ");
    tell_link(line, path);
    line.tell(" ", path.get_mime_type_str());
    line.add(" ");
    tell_parent(line, path);
}

fn tell_fault(line: &mut Line, fault: ParseError) {
    match fault {
        ParseError::NoMemory => line.refuse(),
        _ => line.add_number("", u64::from(DavError::Path(fault).statuscode().as_u16())),
    }
}

fn tell_read(line: &mut Line, read: Result<DavPath, ParseError>) {
    match read {
        Ok(path) => tell_path(line, &path),
        Err(fault) => tell_fault(line, fault),
    }
}

fn path(alloc: Global, line: &mut Line, prefix: &str, cell: &str) {
    match text_of(alloc, prefix) {
        Ok(prefix) => path_under(alloc, line, prefix.as_str(), cell),
        Err(_) => line.refuse(),
    }
}

fn path_under(alloc: Global, line: &mut Line, prefix: &str, cell: &str) {
    match text_of(alloc, cell) {
        Ok(text) => tell_read(
            line,
            DavPath::from_str_and_prefix(alloc, text.as_str(), prefix),
        ),
        Err(_) => line.refuse(),
    }
}

fn target(alloc: Global, line: &mut Line, prefix: &str, cell: &str) {
    match Uri::from_str(alloc, cell) {
        Ok(uri) => tell_read(line, DavPath::from_uri_and_prefix(alloc, &uri, prefix)),
        Err(_) => line.add("none"),
    }
}

fn child(alloc: Global, line: &mut Line, prefix: &str, cell: &str) {
    match DavPath::from_str_and_prefix(alloc, cell, prefix) {
        Ok(path) => match path.try_clone() {
            Ok(mut copy) => tell_child(line, &mut copy),
            Err(_) => line.refuse(),
        },
        Err(fault) => tell_fault(line, fault),
    }
}

fn tell_child(line: &mut Line, path: &mut DavPath) {
    path.add_slash();
    tell_text(line, path);
    line.add(" ");
    match path.push_segment("b") {
        Ok(()) => tell_path(line, path),
        Err(_) => line.refuse(),
    }
}

// Metadata of a directory.
fn directory() -> Meta {
    Meta {
        kind: Kind::Dir,
        number: 1,
        len: 0,
        modified: Some(FileTime { secs: 0, nanos: 0 }),
        created: None,
        accessed: None,
        changed: None,
        exec: false,
    }
}

fn home(alloc: Global, line: &mut Line, cell: &str) {
    match DavPath::new(alloc, cell) {
        Ok(path) => {
            line.add_whether("", directory().is_calendar(&path));
            line.add_whether(" ", directory().is_addressbook(&path));
        }
        Err(fault) => tell_fault(line, fault),
    }
}

// A slash and so many copies of a text.
fn copies(alloc: Global, count: &str, cell: &str) -> Result<String, AllocError> {
    let mut text = String::new(alloc);
    text.push('/')?;
    for _ in 0..count.parse::<u32>().unwrap_or(0) {
        text.push_str(cell)?;
    }
    Ok(text)
}

fn long(alloc: Global, line: &mut Line, count: &str, cell: &str) {
    match copies(alloc, count, cell) {
        Ok(text) => tell_long(alloc, line, text.as_str()),
        Err(_) => line.refuse(),
    }
}

fn tell_long(alloc: Global, line: &mut Line, text: &str) {
    match DavPath::new(alloc, text) {
        Ok(path) => {
            line.add_number("", path.names().as_slice().len() as u64);
            line.add_number(" ", path.file_name().unwrap_or("").len() as u64);
        }
        Err(fault) => tell_fault(line, fault),
    }
}

fn prefix(alloc: Global, line: &mut Line, cell: &str) {
    match text_of(alloc, cell) {
        Ok(text) => line.add_whether("", DavPath::prefix_fits(text.as_str())),
        Err(_) => line.refuse(),
    }
}

/// Adds the answer to a row.
pub fn answer(alloc: Global, line: &mut Line, row: &str) {
    let mut cells = row.splitn(3, '|');
    let word = cells.next().unwrap_or("");
    let second = cells.next().unwrap_or("");
    let third = cells.next().unwrap_or("");
    match word {
        "path" => path(alloc, line, second, third),
        "target" => target(alloc, line, second, third),
        "child" => child(alloc, line, second, third),
        "home" => home(alloc, line, second),
        "prefix" => prefix(alloc, line, second),
        "long" => long(alloc, line, second, third),
        _ => values::answer(alloc, line, word, second, third),
    }
}
