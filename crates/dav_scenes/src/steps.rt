//! Steps and changes.
//!
//!     METHOD TARGET NAME:VALUE..    a request of these fields; a word that begins with `=` is its body
//!     poll BODY COUNT               so many polls of a body, without COUNT one
//!     abandon BODY
//!     purge SECONDS                 at a moment; nanoseconds behind a point
//!     turn                          a turn of the outside
//!
//! A change is a word: `dir:PATH`, `file:PATH:BYTES`, `cut:PATH:LENGTH`, `remove:PATH` or `rename:PATH:PATH`.
use crate::cells::{bytes_of, moment_of, number, path_of};
use dav_core::{Change, FsPath};
use dav_handler::Step;
use dav_io::{Moment, Octets};
use dav_rows::{Line, add_value, word};
use http::{HeaderMap, Method, Request, Uri};
use std::alloc::Global;

// More polls than any part asks.
const POLLS: u64 = 10_000;

// A file of these bytes at a path.
fn added_file(alloc: Global, path: FsPath, text: &str) -> Option<Change> {
    match bytes_of(alloc, text) {
        Ok(bytes) => Some(Change::AddFile(path, Octets::new(bytes))),
        Err(_) => None,
    }
}

// What stands at a path goes to that of a word.
fn renamed(alloc: Global, path: FsPath, word: &str) -> Option<Change> {
    match path_of(alloc, word) {
        Some(to) => Some(Change::Rename(path, to)),
        None => None,
    }
}

// The change of a kind at a path.
fn change_at(alloc: Global, path: FsPath, kind: &str, third: &str) -> Option<Change> {
    match kind {
        "dir" => Some(Change::AddDir(path)),
        "cut" => Some(Change::Cut(path, number(third))),
        "remove" => Some(Change::Remove(path)),
        "file" => added_file(alloc, path, third),
        "rename" => renamed(alloc, path, third),
        _ => None,
    }
}

fn change_of(alloc: Global, word: &str) -> Option<Change> {
    let mut cells = word.splitn(3, ':');
    let kind = cells.next().unwrap_or("");
    let second = cells.next().unwrap_or("");
    let third = cells.next().unwrap_or("");
    match path_of(alloc, second) {
        Some(path) => change_at(alloc, path, kind, third),
        None => None,
    }
}

/// The changes behind a part's first word.
pub fn batch_of(alloc: Global, part: &str) -> Option<Vec<Change>> {
    let mut batch = Vec::new(alloc);
    match add_changes(alloc, &mut batch, part) {
        Some(()) => Some(batch),
        None => None,
    }
}

fn add_change(alloc: Global, batch: &mut Vec<Change>, word: &str) -> Option<()> {
    match change_of(alloc, word) {
        Some(change) => batch.push(change).ok(),
        None => None,
    }
}

fn add_changes(alloc: Global, batch: &mut Vec<Change>, part: &str) -> Option<()> {
    for word in part.split(' ').skip(1) {
        add_change(alloc, batch, word)?;
    }
    Some(())
}

fn add_field(alloc: Global, line: &mut Line, fields: &mut HeaderMap, word: &str) {
    let (name, text) = word.split_once(':').unwrap_or((word, ""));
    match bytes_of(alloc, text) {
        Ok(value) => add_value(alloc, line, fields, name, value.as_slice()),
        Err(_) => line.refuse(),
    }
}

// Adds the words of a part that are fields.
fn add_fields(alloc: Global, fields: &mut HeaderMap, line: &mut Line, part: &str) {
    for word in part.split(' ').skip(2) {
        if !word.starts_with('=') {
            add_field(alloc, line, fields, word);
        }
    }
}

fn set_body(alloc: Global, body: &mut Vec<u8>, line: &mut Line, text: &str) {
    match bytes_of(alloc, text) {
        Ok(bytes) => *body = bytes,
        Err(_) => line.refuse(),
    }
}

// Sets the bytes of the last word that is a body.
fn read_body(alloc: Global, body: &mut Vec<u8>, line: &mut Line, part: &str) {
    for word in part.split(' ').skip(2) {
        if let Some(text) = word.strip_prefix("=") {
            set_body(alloc, body, line, text);
        }
    }
}

fn set_method(alloc: Global, request: &mut Request<Octets>, line: &mut Line, word: &str) {
    match Method::from_bytes(alloc, word.as_bytes()) {
        Ok(method) => *request.method_mut() = method,
        Err(_) => line.refuse(),
    }
}

fn set_target(alloc: Global, request: &mut Request<Octets>, line: &mut Line, word: &str) {
    match Uri::from_str(alloc, word) {
        Ok(uri) => *request.uri_mut() = uri,
        Err(_) => line.refuse(),
    }
}

// The request of a part, with this body.
fn request_with(alloc: Global, line: &mut Line, part: &str, body: Vec<u8>) -> Request<Octets> {
    let mut request = Request::new(alloc, Octets::new(body));
    set_method(alloc, &mut request, line, word(part, 0));
    set_target(alloc, &mut request, line, word(part, 1));
    add_fields(alloc, request.headers_mut(), line, part);
    request
}

fn request_of(alloc: Global, line: &mut Line, part: &str) -> Request<Octets> {
    let mut body = Vec::new(alloc);
    read_body(alloc, &mut body, line, part);
    request_with(alloc, line, part, body)
}

fn push(steps: &mut Vec<Step>, line: &mut Line, step: Step) {
    if steps.push(step).is_err() {
        line.refuse();
    }
}

// Adds the request of a part, at a moment.
fn add_request(alloc: Global, steps: &mut Vec<Step>, line: &mut Line, part: &str, now: Moment) {
    let request = request_of(alloc, line, part);
    push(steps, line, Step::Request { request, now });
}

// The body of a number.
fn body_of(word: &str) -> u32 {
    number(word).min(u64::from(u32::MAX)) as u32
}

fn add_polls(steps: &mut Vec<Step>, line: &mut Line, body: u32, count: &str) {
    let count = if count.is_empty() { 1 } else { number(count) };
    for _ in 0..count.min(POLLS) {
        push(steps, line, Step::Poll(body));
    }
}

/// Adds the steps of a part, a request at a moment.
pub fn add_steps(alloc: Global, steps: &mut Vec<Step>, line: &mut Line, part: &str, now: Moment) {
    let second = word(part, 1);
    match word(part, 0) {
        "poll" => add_polls(steps, line, body_of(second), word(part, 2)),
        "abandon" => push(steps, line, Step::Abandon(body_of(second))),
        "purge" => push(steps, line, Step::Purge(moment_of(second))),
        "turn" => push(steps, line, Step::Turn),
        _ => add_request(alloc, steps, line, part, now),
    }
}
