//! The fields of a request, as a row's words name them.
use crate::{Line, bytes_of};
use http::HeaderMap;
use http::header::{HeaderName, HeaderValue};
use std::alloc::Global;

fn append(alloc: Global, fields: &mut HeaderMap, name: &str, value: &[u8]) -> Option<()> {
    let name = HeaderName::from_bytes(alloc, name.as_bytes()).ok()?;
    let value = HeaderValue::from_bytes(alloc, value).ok()?;
    fields.append(name, value).ok()?;
    Some(())
}

/// Adds a field with this value. What is none, and want of memory, refuse the line.
pub fn add_value(alloc: Global, line: &mut Line, fields: &mut HeaderMap, name: &str, value: &[u8]) {
    line.need(append(alloc, fields, name, value));
}

/// Adds the field that a word `NAME:VALUE` says, each `%XX` of whose value is a byte. What is none, and want of memory,
/// refuse the line.
pub fn add_field(alloc: Global, line: &mut Line, fields: &mut HeaderMap, word: &str) {
    let (name, value) = word.split_once(':').unwrap_or((word, ""));
    match bytes_of(alloc, value) {
        Ok(bytes) => add_value(alloc, line, fields, name, bytes.as_slice()),
        Err(_) => line.refuse(),
    }
}
