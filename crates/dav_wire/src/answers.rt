//! The bytes of answers.
ghost use Rattle.std.specs.Prelude.{◌≡◌, ◌+◌, ◌%◌, ◌++◌, ◌≤◌, bytes_eq, length, IfOk, IfSome, OnOk};
ghost use Rattle.dav_wire.specs.Answers.{phrase, three_digits, status_line, field_lines, has_close_field, is_close_field, place as the_place, with_framing, written_fields, head_text, bad_request_text as refusal, refusal_text as the_refusal_text};
ghost use Rattle.dav_wire.specs.Framing.{framing as the_framing, has_length as length_given, is_bodiless as bodiless};

use crate::chunks::Framing;
use crate::laying::{lay_fields, lines_len};
use crate::next::Flaw;
use dav_io::{Field, NoMemory, Octets};
use std::alloc::Global;
use std::cmp::Ordering;

/// The answer to a request that can't be read.
pub fn bad_request_text() -> &'static [u8]
    ensures { result.now ≡ refusal }
{
    b"HTTP/1.1 400 Bad Request\r\nconnection: close\r\ncontent-length: 0\r\n\r\n"
}

/// The answer to a request that can't be one.
pub fn refusal_text(flaw: Flaw) -> &'static [u8]
    ensures { result.now ≡ the_refusal_text flaw }
{
    match flaw {
        Flaw::Malformed => bad_request_text(),
        Flaw::TooLarge => {
            b"HTTP/1.1 413 Payload Too Large\r\nconnection: close\r\ncontent-length: 0\r\n\r\n"
        }
    }
}

/// How the body of an answer is written. `chunks`: whether the request takes chunks.
pub fn framing(chunks: bool, status: u16, fields: &[Field]) -> Framing
    ensures { result ≡ the_framing chunks status fields.now }
{
    if chunks && !is_bodiless(status) && !has_length(fields) {
        return Framing::Chunked;
    }
    Framing::Raw
}

// Has an answer of this status no body?
fn is_bodiless(status: u16) -> bool
    ensures { result ≡ bodiless status }
{
    status == 204 || status == 304
}

fn has_length(fields: &[Field]) -> bool
    ensures { result ≡ length_given fields.now }
{
    fields.iter().any(|field| is_named(field, "content-length"))
}

// Has a field this name? Most have another length, so they are told apart without a call.
fn is_named(field: &Field, name: &str) -> bool
    ensures { result ≡ bytes_eq field.now.name name.now }
{
    let own = field.name.as_str();
    own.len() == name.len() && own == name
}

/// The head of an answer. `connection: close` is put in its place where the answer closes and the fields don't say so,
/// and so is `transfer-encoding: chunked` where its body is written in chunks.
pub fn answer_head(
    alloc: Global,
    status: u16,
    fields: &[Field],
    closing: bool,
    framing: Framing,
) -> Result<Octets, NoMemory>
    ensures { IfOk result (λ text. text ≡ head_text status fields.now closing framing) }
{
    let mut text = Vec::with_capacity(alloc, 256)?;
    push_head(&mut text, status, fields, closing, framing)?;
    Ok(Octets::new(text))
}

/// Appends the head of an answer.
pub fn push_head(
    text: &mut Vec<u8>,
    status: u16,
    fields: &[Field],
    closing: bool,
    framing: Framing,
) -> Result<(), NoMemory>
    ensures { OnOk result (text.new.items ≡ text.old.items ++ head_text status fields.now closing framing) }
{
    write_status(text, status)?;
    write_all(text, fields, closing, framing)?;
    text.extend_from_slice(b"\r\n")?;
    Ok(())
}

fn write_all(
    text: &mut Vec<u8>,
    fields: &[Field],
    closing: bool,
    framing: Framing,
) -> Result<(), NoMemory>
    ensures { OnOk result (text.new.items ≡ text.old.items ++ field_lines (written_fields closing framing fields.now)) }
{
    if !closing || says_close(fields) {
        return write_framed(text, fields, framing);
    }
    let (front, back) = fields.split_at(place(fields, b"connection"));
    write_fields(text, front)?;
    text.extend_from_slice(b"connection: close\r\n")?;
    write_framed(text, back, framing)?;
    Ok(())
}

// Writes fields, and how the body is written where their names say that it belongs.
fn write_framed(text: &mut Vec<u8>, fields: &[Field], framing: Framing) -> Result<(), NoMemory>
    ensures { OnOk result (text.new.items ≡ text.old.items ++ field_lines (with_framing framing fields.now)) }
{
    let Framing::Chunked = framing else {
        return write_fields(text, fields);
    };
    let (front, back) = fields.split_at(place(fields, b"transfer-encoding"));
    write_fields(text, front)?;
    text.extend_from_slice(b"transfer-encoding: chunked\r\n")?;
    write_fields(text, back)?;
    Ok(())
}

/// Is `connection: close` among the fields?
pub fn says_close(fields: &[Field]) -> bool
    ensures { result ≡ has_close_field fields.now }
{
    fields.iter().any(|field| is_close(field))
}

fn is_close(field: &Field) -> bool
    ensures { result ≡ is_close_field field.now }
{
    is_named(field, "connection") && field.value.as_slice() == b"close".as_slice()
}

// Where a name has its place among the names.
fn place(fields: &[Field], name: &[u8]) -> usize
    ensures value { result ≡ the_place name.now fields.now }
    ensures within { result ≤ length fields.now }
{
    let mut count = 0;
    for field in fields {
        if field.name.as_slice().cmp(name) == Ordering::Greater {
            return count;
        }
        count += 1;
    }
    count
}

// Writes fields: the memory for their lines is taken at once, and they are laid into it.
fn write_fields(text: &mut Vec<u8>, fields: &[Field]) -> Result<(), NoMemory>
    ensures { OnOk result (text.new.items ≡ text.old.items ++ field_lines fields.now) }
{
    let start = text.len();
    text.resize(start.saturating_add(lines_len(fields)), 0)?;
    let _end = lay_fields(text.as_mut_slice(), start, fields);
    Ok(())
}

// The first line of an answer of a usual status, in one piece.
fn usual_line(status: u16) -> Option<&'static [u8]>
    ensures { IfSome result (λ line. line.now ≡ status_line status) }
{
    match status {
        200 => Some(b"HTTP/1.1 200 OK\r\n"),
        206 => Some(b"HTTP/1.1 206 Partial Content\r\n"),
        304 => Some(b"HTTP/1.1 304 Not Modified\r\n"),
        404 => Some(b"HTTP/1.1 404 Not Found\r\n"),
        _ => None,
    }
}

fn write_status(text: &mut Vec<u8>, status: u16) -> Result<(), NoMemory>
    ensures { OnOk result (text.new.items ≡ text.old.items ++ status_line status) }
{
    if let Some(line) = usual_line(status) {
        text.extend_from_slice(line)?;
        return Ok(());
    }
    text.extend_from_slice(b"HTTP/1.1 ")?;
    text.extend_from_slice(&digits(status))?;
    text.extend_from_slice(b" ")?;
    text.extend_from_slice(phrase_of(status).as_bytes())?;
    text.extend_from_slice(b"\r\n")?;
    Ok(())
}

fn digits(status: u16) -> [u8; 3]
    ensures { result ≡ three_digits status }
{
    [
        digit_of(status / 100),
        digit_of(status / 10),
        digit_of(status),
    ]
}

fn digit_of(n: u16) -> u8
    ensures { result ≡ 48 + n % 10 }
{
    b'0' + (n % 10) as u8
}

#[tactic(auto, unfolding(crate::specs::Answers::phrase))]
fn phrase_of(status: u16) -> &'static str
    ensures { result.now ≡ phrase status }
{
    match status {
        200 => "OK",
        201 => "Created",
        204 => "No Content",
        206 => "Partial Content",
        302 => "Found",
        304 => "Not Modified",
        400 => "Bad Request",
        403 => "Forbidden",
        404 => "Not Found",
        405 => "Method Not Allowed",
        409 => "Conflict",
        412 => "Precondition Failed",
        413 => "Payload Too Large",
        414 => "URI Too Long",
        415 => "Unsupported Media Type",
        416 => "Range Not Satisfiable",
        500 => "Internal Server Error",
        501 => "Not Implemented",
        502 => "Bad Gateway",
        507 => "Insufficient Storage",
        508 => "Loop Detected",
        _ => "",
    }
}
