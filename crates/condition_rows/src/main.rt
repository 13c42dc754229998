//! Judges preconditions, If-Range and values of Range: a row a line on standard input, and an answer a line on standard
//! output.
//!
//! Cells stand between `|`, and the values of fields are percent-encoded.
//!
//!     condition|METHOD|TIME|NAME:VALUE..    what the preconditions say: a status, or `pass`
//!     range|TAG|TIME|NAME:VALUE..           whether ranges are heard: `heard` or `off`
//!     slices|LENGTH|VALUE                   what a value of `range` asks of a file: `whole`, `unmet`, or START+COUNT..
//!     #                                     is written as it stands
//!
//! At `condition` there stands a file of number 26 and ten bytes; TIME is the second of its last change, `unknown`, or
//! `nothing` where nothing stands. At `range` TAG is `strong` or `weak`, for the tag of that file at 1 s, or `none`.
#![tactic(auto)]

use dav_conditions::{if_match, ranges_are_heard};
use dav_core::{DavMethod, ETag, FileTime, Kind, Meta, dav_method};
use dav_get::slices;
use dav_io::Octets;
use dav_model::{Ranges, Slice};
use dav_rows::{Line, add_field, bytes_of, cell};
use http::{HeaderMap, Method};
use std::alloc::Global;
use std::io;

// The time of a cell, within its second.
fn time_of(cell: &str) -> Option<FileTime> {
    match cell.parse::<i64>() {
        Ok(secs) => Some(FileTime { secs, nanos: 5 }),
        Err(_) => None,
    }
}

// What stands, by the cell of its time.
fn meta_of(cell: &str) -> Option<Meta> {
    if cell == "nothing" {
        return None;
    }
    Some(Meta {
        kind: Kind::File,
        number: 0x1a,
        len: 10,
        modified: time_of(cell),
        created: None,
        accessed: None,
        changed: None,
        exec: false,
    })
}

// The tag of a file, weak or strong.
fn made_tag(alloc: Global, line: &mut Line, weak: bool) -> ETag {
    let mut tag = Octets::empty(alloc);
    line.need(tag.extend(b"1a-a-f4240").ok());
    ETag { weak, tag }
}

fn tag_of(alloc: Global, line: &mut Line, cell: &str) -> Option<ETag> {
    match cell {
        "none" => None,
        _ => Some(made_tag(alloc, line, cell == "weak")),
    }
}

// Adds the fields behind the first three cells.
fn add_fields(alloc: Global, fields: &mut HeaderMap, line: &mut Line, row: &str) {
    for cell in row.split('|').skip(3) {
        add_field(alloc, line, fields, cell);
    }
}

fn method_of(alloc: Global, word: &str) -> Option<DavMethod> {
    let method = Method::from_bytes(alloc, word.as_bytes()).ok()?;
    dav_method(&method).ok()
}

fn judge(alloc: Global, line: &mut Line, method: DavMethod, time: &str, fields: &HeaderMap) {
    let meta = meta_of(time);
    match if_match(alloc, method, fields, meta.as_ref()) {
        Ok(Some(status)) => line.add_number("", u64::from(status.as_u16())),
        Ok(None) => line.add("pass"),
        Err(_) => line.refuse(),
    }
}

fn condition(alloc: Global, line: &mut Line, row: &str, fields: &HeaderMap) {
    match method_of(alloc, cell(row, 1)) {
        Some(method) => judge(alloc, line, method, cell(row, 2), fields),
        None => line.refuse(),
    }
}

fn range(alloc: Global, line: &mut Line, row: &str, fields: &HeaderMap) {
    let tag = tag_of(alloc, line, cell(row, 1));
    match ranges_are_heard(alloc, fields, tag.as_ref(), time_of(cell(row, 2))) {
        Ok(heard) => line.add(if heard { "heard" } else { "off" }),
        Err(_) => line.refuse(),
    }
}

fn with_fields(alloc: Global, line: &mut Line, row: &str) {
    let mut fields = HeaderMap::new(alloc);
    add_fields(alloc, &mut fields, line, row);
    match cell(row, 0) {
        "condition" => condition(alloc, line, row, &fields),
        _ => range(alloc, line, row, &fields),
    }
}

fn tell_parts(line: &mut Line, parts: &[Slice]) {
    for part in parts {
        line.add_number("", part.start);
        line.add_number("+", part.count);
        line.add(" ");
    }
}

fn tell_ranges(line: &mut Line, ranges: &Ranges) {
    match ranges {
        Ranges::Whole => line.add("whole"),
        Ranges::Unsatisfiable => line.add("unmet"),
        Ranges::Parts(parts) => tell_parts(line, parts.as_slice()),
    }
}

fn ask(alloc: Global, line: &mut Line, length: u64, value: &[u8]) {
    match slices(alloc, Some(value), length) {
        Ok(ranges) => tell_ranges(line, &ranges),
        Err(_) => line.refuse(),
    }
}

fn asked(alloc: Global, line: &mut Line, row: &str) {
    let length = cell(row, 1).parse::<u64>().unwrap_or(0);
    match bytes_of(alloc, cell(row, 2)) {
        Ok(value) => ask(alloc, line, length, value.as_slice()),
        Err(_) => line.refuse(),
    }
}

fn answer(alloc: Global, line: &mut Line, row: &str) {
    match cell(row, 0) {
        "condition" | "range" => with_fields(alloc, line, row),
        "slices" => asked(alloc, line, row),
        _ => line.add(row),
    }
}

fn main(rt: HostRuntime) -> io::Result<()> {
    for row in rt.lines(rt.alloc()) {
        let mut line = Line::new(rt.alloc());
        answer(rt.alloc(), &mut line, row?.as_str());
        println!(rt; "{}", line.as_str())?;
    }
    Ok(())
}
