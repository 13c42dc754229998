//! The requests of a row: a part has its method, its target, and fields as `NAME:VALUE`. A word `=COUNT` is a body of so
//! many bytes in pieces of at most 30,000; `!CALL` lets the reader fail at that call.
//! What isn't understood, or is refused memory, refuses the line, and is left out.
use crate::readers::Pieces;
use dav_rows::{Line, add_value, word};
use http::{HeaderMap, Method, Request, Uri};
use std::alloc::Global;

fn add_field(alloc: Global, line: &mut Line, fields: &mut HeaderMap, word: &str) {
    let (name, value) = word.split_once(':').unwrap_or((word, ""));
    add_value(alloc, line, fields, name, value.as_bytes());
}

fn add_fields(alloc: Global, line: &mut Line, fields: &mut HeaderMap, part: &str) {
    for word in part.split(' ').skip(2) {
        if word.contains(":") {
            add_field(alloc, line, fields, word);
        }
    }
}

fn number_behind(word: &str, sign: &str) -> Option<u64> {
    match word.strip_prefix(sign) {
        Some(digits) => digits.parse::<u64>().ok(),
        None => None,
    }
}

// The last number behind a sign, or 0.
fn last_behind(part: &str, sign: &str) -> u64 {
    let mut last: u64 = 0;
    for word in part.split(' ').skip(2) {
        if let Some(number) = number_behind(word, sign) {
            last = number;
        }
    }
    last
}

fn set_method(alloc: Global, line: &mut Line, request: &mut Request<Pieces>, word: &str) {
    match Method::from_bytes(alloc, word.as_bytes()) {
        Ok(method) => *request.method_mut() = method,
        Err(_) => line.refuse(),
    }
}

fn set_target(alloc: Global, line: &mut Line, request: &mut Request<Pieces>, word: &str) {
    match Uri::from_str(alloc, word) {
        Ok(target) => *request.uri_mut() = target,
        Err(_) => line.refuse(),
    }
}

/// The request of a part.
pub fn request_of(alloc: Global, line: &mut Line, part: &str) -> Request<Pieces> {
    let body = Pieces::new(last_behind(part, "=") as usize, last_behind(part, "!"));
    let mut request = Request::new(alloc, body);
    set_method(alloc, line, &mut request, word(part, 0));
    set_target(alloc, line, &mut request, word(part, 1));
    add_fields(alloc, line, request.headers_mut(), part);
    request
}
