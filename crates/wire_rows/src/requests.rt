//! Requests of an input, one after the other.
use crate::cells::{joined_of, show};
use crate::outside::numbers;
use dav_io::{MemSource, NoMemory, Octets};
use dav_rows::{Line, word};
use dav_wire::{Found, Input, ReadError, asks_close, is_old, takes_chunks};
use http::{HeaderMap, Request};
use std::alloc::Global;

// More calls of a source than any row makes.
const CALLS: usize = 100_000;

/// What stands next in an input.
#[derive(Clone, Copy)]
pub enum Seen {
    /// A request, which was read.
    Request,
    Over(&'static str),
}

/// How a reader ended, in words.
pub fn error_word(error: ReadError) -> &'static str {
    match error {
        ReadError::Failed => "failed",
        ReadError::TooMuch => "too much",
        ReadError::NoMemory => "out of memory",
        ReadError::Unsent => "unsent",
    }
}

/// Reads the next head of an input into a request.
pub fn next(
    alloc: Global,
    input: &mut Input,
    source: &mut MemSource,
    request: &mut Request<Octets>,
) -> Seen {
    for _ in 0..CALLS {
        match input.next_head(alloc, request) {
            Ok(Found::Whole(_)) => return Seen::Request,
            Ok(Found::Refused) => return Seen::Over("refused"),
            Ok(Found::More) => match input.fill(source) {
                Ok(0) => return Seen::Over(end_of(input)),
                Ok(_) => {}
                Err(error) => return Seen::Over(error_word(error)),
            },
            Err(_) => return Seen::Over("no memory"),
        }
    }
    Seen::Over("waits")
}

// How an input ends.
fn end_of(input: &Input) -> &'static str {
    if input.pending().is_empty() {
        "end"
    } else {
        "cut"
    }
}

fn show_each(line: &mut Line, fields: &HeaderMap) {
    for (name, value) in fields.iter() {
        line.tell(" ", name.as_str());
        line.add("=");
        show(line, value.as_bytes());
    }
}

// The fields, or their number where they are many.
fn show_fields(line: &mut Line, fields: &HeaderMap) {
    let count = fields.len();
    if count <= 9 {
        show_each(line, fields);
        return;
    }
    line.add_number(" ", count as u64);
    line.add(" fields");
}

// What a request asks of the connection and of the body.
fn show_asked(line: &mut Line, request: &Request<Octets>) {
    let old = is_old(request.version());
    line.add(if old { " 1.0" } else { " 1.1" });
    let closes = asks_close(request.headers());
    line.add(if closes { " closes" } else { " stays" });
    let chunks = takes_chunks(request);
    line.add(if chunks { " chunks" } else { " plain" });
}

/// A request: its method and path.
pub fn show_target(line: &mut Line, request: &Request<Octets>) {
    line.add(request.method().as_str());
    line.tell(" ", request.uri().path());
}

fn show_request(line: &mut Line, request: &Request<Octets>) {
    show_target(line, request);
    show_asked(line, request);
    show_fields(line, request.headers());
    line.add("; ");
}

// Reads the requests of a source into one, and shows each, and how they end.
fn show_all(
    alloc: Global,
    line: &mut Line,
    input: &mut Input,
    source: &mut MemSource,
    request: &mut Request<Octets>,
) {
    for _ in 0..99 {
        match next(alloc, input, source, request) {
            Seen::Request => show_request(line, request),
            Seen::Over(word) => {
                line.add(word);
                return;
            }
        }
    }
}

// The requests of a source, and how they end.
fn show_requests(alloc: Global, line: &mut Line, input: &mut Input, source: &mut MemSource) {
    let mut request = Request::new(alloc, Octets::empty(alloc));
    show_all(alloc, line, input, source, &mut request);
}

fn requests_of(alloc: Global, line: &mut Line, source: &mut MemSource) {
    match Input::new(alloc) {
        Ok(mut input) => show_requests(alloc, line, &mut input, source),
        Err(_) => line.refuse(),
    }
}

/// The source that a row says.
pub fn source_of(alloc: Global, row: &str) -> Result<MemSource, NoMemory> {
    let bytes = joined_of(alloc, row, 2)?;
    let (most, calls) = numbers(alloc, word(row, 1))?;
    Ok(MemSource::new(bytes, most.max(1), calls))
}

/// The requests of the bytes of a row, and how they end.
pub fn requests(alloc: Global, line: &mut Line, row: &str) {
    match source_of(alloc, row) {
        Ok(mut source) => requests_of(alloc, line, &mut source),
        Err(_) => line.refuse(),
    }
}
