// What a COPY or MOVE asks for, read from its fields.
ghost use Rattle.std.specs.Prelude.{◌≡◌, ◌≢◌, ◌==◌, ◌≤◌, ◌⊎◌, length, IfOk, IfErr, Ok, Err, Some, codes};
ghost use Rattle.std.specs.List.{position_or_len};
ghost use Rattle.http_uri.specs.Uri.{uri_path};
ghost use Rattle.dav_core.specs.Grammar as grammar;
ghost use Rattle.dav_core.specs.Grammar.{parsed};
ghost use Rattle.dav_model.specs.Conditions.{first_bytes};
ghost use Rattle.dav_model.specs.Destination.{Asks, IsAddress, IsDestination, IsPlace, asked_by as the_asked_by, depth_of as the_depth_of, overwrite_of as the_overwrite_of, path_or_refusal};

use dav_core::{DavError, DavPath, ParseError};
use dav_model::Asked;
use http::{HeaderMap, StatusCode};
use http_uri::{Uri, UriError};
use std::alloc::Global;

fn begins_with_slash(text: &[u8]) -> bool
    ensures { result ≡ grammar.begins_with_slash text.now }
{
    match text {
        [first, ..] => *first == b'/',
        [] => false,
    }
}

// The place of the first `?`, or the length where there is none.
fn query_at(text: &[u8]) -> usize
    ensures first { result ≡ position_or_len (λ b. b == 63) text.now }
    ensures within { result ≤ length text.now }
{
    for (at, b) in text.iter().enumerate() {
        if *b == b'?' {
            return at;
        }
    }
    text.len()
}

// The text before its first `?`.
fn before_query(text: &[u8]) -> &[u8]
    ensures { result.now ≡ grammar.before_query text.now }
{
    let (front, _) = text.split_at(query_at(text));
    front
}

// The path that bytes give under a prefix, or their first fault.
fn path_in(alloc: Global, text: &[u8], prefix: &str) -> Result<DavPath, ParseError>
    ensures ok { IfOk result (λ path. parsed text.now prefix.now ≡ Ok path) }
    ensures err { IfErr result (λ fault. fault ≢ ParseError.NoMemory → parsed text.now prefix.now ≡ Err fault) }
{
    match std::str::from_utf8(before_query(text)) {
        Ok(text) => DavPath::from_str_and_prefix(alloc, text, prefix),
        Err(_) => Err(ParseError::InvalidPath),
    }
}

// The path that a text gives as it stands.
fn path_said(alloc: Global, text: &[u8], prefix: &str) -> Result<DavPath, DavError>
    ensures { (result ≡ Err DavError.NoMemory) ⊎ (result ≡ path_or_refusal (parsed text.now prefix.now)) }
{
    match path_in(alloc, text, prefix) {
        Ok(path) => Ok(path),
        Err(fault) => Err(DavError::from(fault)),
    }
}

// The path of a URI.
fn path_of(alloc: Global, uri: &Uri, prefix: &str) -> Result<DavPath, DavError>
    ensures { (result ≡ Err DavError.NoMemory) ⊎ (result ≡ path_or_refusal (parsed (uri_path uri.now) prefix.now)) }
{
    match DavPath::from_uri_and_prefix(alloc, uri, prefix) {
        Ok(path) => Ok(path),
        Err(fault) => Err(DavError::from(fault)),
    }
}

// The path of the URI with a scheme that a text is.
fn address(alloc: Global, text: &[u8], prefix: &str) -> Result<DavPath, DavError>
    ensures { (result ≡ Err DavError.NoMemory) ⊎ IsAddress prefix.now text.now result }
{
    let uri = match Uri::from_bytes(alloc, text) {
        Ok(uri) => uri,
        Err(UriError::Invalid(_)) => return Err(DavError::Status(StatusCode::BAD_REQUEST)),
        Err(UriError::OutOfMemory) => return Err(DavError::NoMemory),
    };
    if uri.scheme_str().is_none() {
        return Err(DavError::Status(StatusCode::BAD_REQUEST));
    }
    path_of(alloc, &uri, prefix)
}

// The path that a value of the field says.
fn place(alloc: Global, text: &[u8], prefix: &str) -> Result<DavPath, DavError>
    ensures { (result ≡ Err DavError.NoMemory) ⊎ IsPlace (grammar.begins_with_slash text.now) prefix.now text.now
        result }
{
    if begins_with_slash(text) {
        return path_said(alloc, text, prefix);
    }
    address(alloc, text, prefix)
}

// The path that the field says.
fn destination(alloc: Global, fields: &HeaderMap, prefix: &str) -> Result<DavPath, DavError>
    ensures { (result ≡ Err DavError.NoMemory) ⊎ IsDestination prefix.now
        (first_bytes fields.now (codes "destination")) result }
{
    match fields.get("destination") {
        Some(value) => place(alloc, value.as_bytes(), prefix),
        None => Err(DavError::Status(StatusCode::BAD_REQUEST)),
    }
}

// Whether what stands at the destination may go, by a value of the field.
fn overwrite_said(text: &[u8]) -> Option<bool>
    ensures { result ≡ the_overwrite_of (Some text.now) }
{
    if text == b"T".as_slice() {
        return Some(true);
    }
    if text == b"F".as_slice() {
        return Some(false);
    }
    None
}

fn overwrite(fields: &HeaderMap) -> Option<bool>
    ensures { result ≡ the_overwrite_of (first_bytes fields.now (codes "overwrite")) }
{
    match fields.get("overwrite") {
        Some(value) => overwrite_said(value.as_bytes()),
        None => Some(true),
    }
}

// Whether a directory goes without its members, by a value of the field.
fn depth_said(moving: bool, text: &[u8]) -> Option<bool>
    ensures { result ≡ the_depth_of moving (Some text.now) }
{
    if text == b"infinity".as_slice() {
        return Some(false);
    }
    if !moving && text == b"0".as_slice() {
        return Some(true);
    }
    None
}

fn depth(moving: bool, fields: &HeaderMap) -> Option<bool>
    ensures { result ≡ the_depth_of moving (first_bytes fields.now (codes "depth")) }
{
    match fields.get("depth") {
        Some(value) => depth_said(moving, value.as_bytes()),
        None => Some(false),
    }
}

// What is asked for, where both fields say something.
fn asked_by(
    moving: bool,
    to: DavPath,
    replaces: Option<bool>,
    alone: Option<bool>,
) -> Result<Asked, DavError>
    ensures { result ≡ the_asked_by moving (Ok to) replaces alone }
{
    let (Some(replaces), Some(alone)) = (replaces, alone) else {
        return Err(DavError::Status(StatusCode::BAD_REQUEST));
    };
    Ok(Asked {
        moving,
        to,
        replaces,
        alone,
    })
}

// What the fields of a COPY or MOVE ask for.
pub fn asked(
    alloc: Global,
    moving: bool,
    fields: &HeaderMap,
    prefix: &str,
) -> Result<Asked, DavError>
    ensures { (result ≡ Err DavError.NoMemory) ⊎ Asks moving prefix.now fields.now result }
{
    let to = match destination(alloc, fields, prefix) {
        Ok(to) => to,
        Err(refusal) => return Err(refusal),
    };
    asked_by(moving, to, overwrite(fields), depth(moving, fields))
}
