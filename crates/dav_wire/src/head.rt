//! The head of a request, read from the front of a buffer.
ghost use Rattle.std.specs.Prelude.{◌≡◌, ◌≤◌, ◌<◌, [], map, length, slice_index, true, All, Err, IfOk, Ok, OnOk};
ghost use Rattle.http.specs.Request.{head_of};
ghost use Rattle.http_header.specs.FieldName.{IsFieldName};
ghost use Rattle.http_header.specs.FieldValue.{IsFieldValue, plain_value};
ghost use Rattle.http_header.specs.HeaderMap.{append, append_all, value_count};
ghost use Rattle.http_header.specs.Token.{IsToken, lowercase};
ghost use Rattle.http_uri.specs.Uri.{Spells, SpellsNone};
ghost use Rattle.httparse.specs.Spans.{IsHeaderWithin, IsWithin, header_bytes, span_bytes, IsRequestWithin, IsRequestOf};
ghost use Rattle.dav_wire.specs.Fields.{ArePlain, is_apart};
ghost use Rattle.dav_wire.specs.Heads.{IsReadAt, IsField, kept_span, version_of, Parses};
ghost use Rattle.dav_wire.specs.Requests.{Refusal};
ghost use Rattle.dav_wire.specs.declared.head.PartError.TheVariants.{Refused};

use bytes::Bytes;
use dav_io::{NoMemory, Octets};
use http::header::{HeaderMapError, HeaderName, HeaderNameError, HeaderValue};
use http::method::MethodError;
use http::{HeaderMap, Method, Request, Uri, Version};
use http_uri::UriError;
use httparse::Status;
use httparse::spans::{HeaderSpan, RequestSpans, Span, parse_request};
use std::alloc::Global;

// Why a part of a head was not read.
#[derive(Clone, Copy, Debug, PartialEq, Eq, Drop)]
pub enum PartError {
    Refused,
    NoMemory,
}

// A head that was read: how many bytes it takes, and whether its fields are known to be plain.
#[derive(Clone, Copy, Debug, PartialEq, Eq)]
pub struct Head {
    pub len: usize,
    pub plain: bool,
}

// Reads the head at the front of a buffer into a request, in place of what that had, and answers how many bytes it takes
// and what is known of its fields; or nothing where more bytes may make one. The memory of the fields that the request had
// is used again.
pub fn read_head(
    alloc: Global,
    buf: &[u8],
    spans: &mut [HeaderSpan],
    request: &mut Request<Octets>,
) -> Result<Option<Head>, PartError>
    requires short { length buf.now ≤ 65536 }
    requires room { length spans.old ≡ 256 }
    ensures { Parses buf.now result (head_of request.new) }
{
    match parse_request(buf, spans) {
        Ok(Status::Complete(head)) => {
            let len = head.len;
            match read_parts(alloc, buf, spans, head, request) {
                Ok(plain) => Ok(Some(Head { len, plain })),
                Err(PartError::Refused) => Err(PartError::Refused),
                Err(PartError::NoMemory) => Err(PartError::NoMemory),
            }
        }
        Ok(Status::Partial) => Ok(None),
        Err(_) => Err(PartError::Refused),
    }
}

// Reads the parts of a head, from where they stand in the buffer, into a request, and answers whether its fields are
// known to be plain. What its target and its values say shares one copy of it.
fn read_parts(
    alloc: Global,
    buf: &[u8],
    spans: &[HeaderSpan],
    head: RequestSpans,
    request: &mut Request<Octets>,
) -> Result<bool, PartError>
    requires short { length buf.now ≤ 65536 }
    requires room { length spans.now ≤ 256 }
    requires within { IsRequestWithin buf.now spans.now head }
    requires complete { IsRequestOf buf.now spans.now head }
    ensures ok { OnOk result (IsReadAt buf.now head.len (head_of request.new)) }
    ensures plain { result ≡ Ok true → ArePlain (head_of request.new).headers }
    ensures refused { result ≡ Err Refused → Refusal buf.now }
{
    let front = &buf[..head.len];
    let Ok(whole) = Bytes::copy_from_slice(alloc, front) else {
        return Err(PartError::NoMemory);
    };
    match read_target(&whole, head.path) {
        Ok(uri) => *request.uri_mut() = uri,
        Err(error) => return Err(error),
    }
    match read_method(alloc, head.method.of(buf)) {
        Ok(method) => *request.method_mut() = method,
        Err(_) => return Err(PartError::NoMemory),
    }
    *request.version_mut() = version(head.version);
    match read_fields(
        alloc,
        front,
        &whole,
        &spans[..head.headers],
        request.headers_mut(),
    ) {
        Ok(plain) => Ok(plain),
        Err(_) => Err(PartError::NoMemory),
    }
}

fn read_method(alloc: Global, word: &[u8]) -> Result<Method, NoMemory>
    requires { IsToken word.now }
    ensures { IfOk result (λ method. method ≡ word.now) }
{
    match Method::from_bytes(alloc, word) {
        Ok(method) => Ok(method),
        Err(MethodError::Invalid) => unreachable!("the word was read as one"),
        Err(MethodError::OutOfMemory) => Err(NoMemory),
    }
}

// The target that a part of a copy spells, which shares its memory.
fn read_target(whole: &Bytes, span: Span) -> Result<Uri, PartError>
    requires { IsWithin (length whole.now) span }
    ensures ok { IfOk result (Spells (span_bytes whole.now span)) }
    ensures refused { result ≡ Err Refused → SpellsNone (span_bytes whole.now span) }
{
    let Ok(text) = part_of(whole, span) else {
        return Err(PartError::NoMemory);
    };
    match Uri::from_shared(text) {
        Ok(uri) => Ok(uri),
        Err(UriError::Invalid(_)) => Err(PartError::Refused),
        Err(UriError::OutOfMemory) => Err(PartError::NoMemory),
    }
}

// The version of a head, by its minor number.
fn version(minor: u8) -> Version
    ensures { result ≡ version_of minor }
{
    if minor == 0 {
        Version::HTTP_10
    } else {
        Version::HTTP_11
    }
}

// A part of a copy, which shares its memory.
fn part_of(whole: &Bytes, span: Span) -> Result<Bytes, NoMemory>
    requires { IsWithin (length whole.now) span }
    ensures { IfOk result (λ part. part ≡ span_bytes whole.now span) }
{
    let part = whole.slice(span.start..span.end)?;
    Ok(part)
}

// Reads the fields of a head into a map, in place of those that it had, and answers whether they are known to be plain:
// the first letters of their names tell it of most requests, for less than a look into the map. Their values share one
// copy of the head.
fn read_fields(
    alloc: Global,
    buf: &[u8],
    whole: &Bytes,
    spans: &[HeaderSpan],
    headers: &mut HeaderMap,
) -> Result<bool, NoMemory>
    requires copied { whole.now ≡ buf.now }
    requires few { length spans.now ≤ 256 }
    requires within { All (IsHeaderWithin (length buf.now)) spans.now }
    requires fields { All (λ span. IsField (header_bytes buf.now span)) spans.now }
    ensures ok { OnOk result (headers.new ≡ append_all [] (map (kept_span buf.now) spans.now)) }
    ensures plain { result ≡ Ok true → ArePlain headers.new }
{
    headers.clear();
    if headers.reserve(spans.len()).is_err() {
        return Err(NoMemory);
    }
    let mut plain = true;
    for span in spans {
        if !begins_apart(span.name.of(buf)) {
            plain = false;
        }
        add_span(alloc, headers, buf, whole, *span)?;
    }
    Ok(plain)
}

// Does the name begin with another letter than those of the fields that announce a body or a close, in any case?
fn begins_apart(name: &[u8]) -> bool
    requires { 0 < length name.now }
    ensures { result ≡ is_apart (slice_index name.now 0) }
{
    !matches!(name[0], b'c' | b'C' | b't' | b'T')
}

// Adds the field that two spans cover. Its value is a part of the copy.
fn add_span(
    alloc: Global,
    headers: &mut HeaderMap,
    buf: &[u8],
    whole: &Bytes,
    span: HeaderSpan,
) -> Result<(), NoMemory>
    requires copied { whole.now ≡ buf.now }
    requires within { IsHeaderWithin (length buf.now) span }
    requires field { IsField (header_bytes buf.now span) }
    requires names { length headers.old < 256 }
    requires values { value_count headers.old < 256 }
    ensures { OnOk result (headers.new ≡ append headers.old (kept_span buf.now span).0 (kept_span buf.now span).1) }
{
    let value = part_of(whole, span.value)?;
    add_field(alloc, headers, span.name.of(buf), value)
}

fn add_field(
    alloc: Global,
    headers: &mut HeaderMap,
    name: &[u8],
    value: Bytes,
) -> Result<(), NoMemory>
    requires name { IsFieldName name.now }
    requires value { IsFieldValue value }
    requires names { length headers.old < 256 }
    requires values { value_count headers.old < 256 }
    ensures { OnOk result (headers.new ≡ append headers.old (lowercase name.now) (plain_value value)) }
{
    let name = match HeaderName::from_bytes(alloc, name) {
        Ok(name) => name,
        Err(HeaderNameError::Invalid) => unreachable!("the name was read as one"),
        Err(HeaderNameError::OutOfMemory) => return Err(NoMemory),
    };
    let value = HeaderValue::from_known_valid(value);
    match headers.append(name, value) {
        Ok(_) => Ok(()),
        Err(HeaderMapError::MaxSizeReached) => unreachable!("there is room"),
        Err(HeaderMapError::OutOfMemory) => Err(NoMemory),
    }
}
