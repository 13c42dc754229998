//! Heads of answers, as they are read, and what they announce.
ghost use Rattle.std.specs.Prelude.{◌≤◌, IfOk, IfSome, All, length};
ghost use Rattle.httparse.specs.Spans.{IsHeaderWithin};

use dav_fetch::{Got, PeerFault};
use dav_io::{Fields, NoMemory, Source, Text, add_field};
use dav_wire::{Announced, Input};
use http::header::{HeaderName, HeaderNameError};
use httparse::Status;
use httparse::spans::{EMPTY_HEADER_SPAN, HeaderSpan, parse_response};
use std::alloc::Global;

// The most bytes of a head, and so the most calls for one.
const MOST: usize = 65_536;

// The most fields of a head.
const MOST_FIELDS: usize = 64;

// A head, and how many bytes it takes.
struct Head {
    got: Got,
    len: usize,
}

// A name in lower case.
fn name_of(alloc: Global, name: &[u8]) -> Result<Text, PeerFault> {
    let name = match HeaderName::from_bytes(alloc, name) {
        Ok(name) => name,
        Err(HeaderNameError::Invalid) => return Err(PeerFault::Failed),
        Err(HeaderNameError::OutOfMemory) => return Err(PeerFault::NoMemory),
    };
    match Text::copy(alloc, name.as_str()) {
        Ok(text) => Ok(text),
        Err(NoMemory) => Err(PeerFault::NoMemory),
    }
}

// The fields of a head.
fn fields_at(alloc: Global, bytes: &[u8], spans: &[HeaderSpan]) -> Result<Fields, PeerFault>
    requires { All (IsHeaderWithin (length bytes.now)) spans.now }
{
    let mut fields = Vec::new(alloc);
    for span in spans {
        let name = name_of(alloc, span.name.of(bytes))?;
        match add_field(&mut fields, name, span.value.of(bytes)) {
            Ok(()) => {}
            Err(NoMemory) => return Err(PeerFault::NoMemory),
        }
    }
    Ok(Fields::new(fields))
}

// The head at the front, where it is whole.
fn head_at(alloc: Global, bytes: &[u8]) -> Result<Option<Head>, PeerFault>
    ensures { IfOk result (λ o. IfSome o (λ head. head.len ≤ length bytes.now)) }
{
    let mut spans = [EMPTY_HEADER_SPAN; MOST_FIELDS];
    match parse_response(bytes, &mut spans) {
        Ok(Status::Complete(head)) => {
            let headers = fields_at(alloc, bytes, &spans[..head.headers])?;
            let status = head.code;
            Ok(Some(Head {
                got: Got { status, headers },
                len: head.len,
            }))
        }
        Ok(Status::Partial) => Ok(None),
        Err(_) => Err(PeerFault::Failed),
    }
}

/// Reads the head of the next answer.
pub fn read_head<S: Source>(
    alloc: Global,
    input: &mut Input,
    source: &mut S,
) -> Result<Got, PeerFault> {
    'bytes: for _calls in 0..MOST {
        match head_at(alloc, input.pending())? {
            Some(Head { got, len }) => {
                input.pass(len);
                return Ok(got);
            }
            None => {}
        }
        if input.pending().len() > MOST {
            return Err(PeerFault::Failed);
        }
        match input.fill(source) {
            Ok(count) => {
                if count == 0 {
                    return Err(PeerFault::Failed);
                }
            }
            Err(_) => return Err(PeerFault::Failed),
        }
    }
    Err(PeerFault::Failed)
}

// The value of a field.
fn value_of<'a>(fields: &'a Fields, name: &str) -> Option<&'a [u8]> {
    for field in fields.as_slice() {
        if field.name.as_str() == name {
            return Some(field.value.as_slice());
        }
    }
    None
}

// The number that a text writes.
fn number_of(text: &[u8]) -> Option<u64> {
    let text = str::from_utf8(text).ok()?;
    text.parse::<u64>().ok()
}

/// The body that an answer to a GET announces. One that ends with its connection isn't read.
pub fn announced_by(got: &Got) -> Announced {
    if got.status == 204 || got.status == 304 {
        return Announced::Nothing;
    }
    if value_of(&got.headers, "transfer-encoding").is_some() {
        return Announced::InChunks;
    }
    match number_of(value_of(&got.headers, "content-length").unwrap_or(b"")) {
        Some(size) => Announced::Sized(size),
        None => Announced::Unclear,
    }
}
