//! Texts that are escaped and decoded. A row is a word, a blank and a text.
//!
//!     minimal TEXT      what `encode_minimal` answers
//!     attribute TEXT    what `encode_attribute` answers
//!     decode TEXT       `=` and the text that stands for it, or the fault and its position
//!     stream BYTES      the same, as bytes that come one a call; then what was written
//!     characters BYTES  the codes of the characters, and `broken` in the place of bytes that are none
//!     room ROOM TEXT    whether `encode_attribute_w` wrote all into so much room, and what it wrote
//!     all TEXT          what the two encoders and `write_char` write, one after the other
//!     failing CALL,CALL ROOM BYTES       as `stream`, where these calls of the source fail, into so much room
//!     interrupted CALL,CALL BYTES        as `characters`, where these calls of the source fail
//!     lent BYTES        as `stream`, and then what is left of the source, which was only lent
//!     errors            the texts of faults, and which kinds are equal

use dav_io::{Failed, MemSink, MemSource, NoMemory, Octets, Source, SureSink, SureSource};
use dav_rows::{Line, bytes_of, text_of};
use htmlescape::{
    Chars, CharsError, DecodeErr, DecodeErrKind, IoFault, NAMED_ENTITIES, chars, decode_chars,
    decode_html, decode_html_rw, encode_attribute, encode_attribute_w, encode_minimal,
    encode_minimal_w, write_char,
};
use percent_encoding::CONTROLS;
use std::alloc::Global;

// Room for what a row writes.
const ROOM: usize = 4096;

// Adds bytes as a cell spells them.
fn tell_shown(line: &mut Line, bytes: &[u8]) {
    line.add_bytes(bytes, CONTROLS.add(b'%'));
}

fn tell_text(line: &mut Line, escaped: Result<String, NoMemory>) {
    match escaped {
        Ok(text) => tell_shown(line, text.as_str().as_bytes()),
        Err(_) => line.refuse(),
    }
}

fn word_of(kind: DecodeErrKind) -> &'static str {
    match kind {
        DecodeErrKind::UnknownEntity => "unknown",
        DecodeErrKind::MalformedNumEscape => "malformed",
        DecodeErrKind::InvalidCharacter => "invalid",
        DecodeErrKind::PrematureEnd => "premature",
        DecodeErrKind::IoError(IoFault::Read) => "read",
        DecodeErrKind::IoError(IoFault::Write) => "write",
        DecodeErrKind::EncodingError => "encoding",
        DecodeErrKind::TooLong => "long",
        DecodeErrKind::NoMemory => "memory",
    }
}

fn tell_fault(line: &mut Line, error: DecodeErr) {
    line.add(word_of(error.kind));
    line.add_number(" ", error.position as u64);
}

fn decode(alloc: Global, line: &mut Line, text: &str) {
    match decode_html(alloc, text) {
        Ok(value) => {
            line.add("=");
            tell_shown(line, value.as_str().as_bytes());
        }
        Err(error) => tell_fault(line, error),
    }
}

// A source of the bytes of a cell, which gives one a call. The calls of the numbers fail.
fn source(alloc: Global, fails: &str, cell: &str) -> Result<MemSource, NoMemory> {
    let mut fail = Vec::new(alloc);
    for call in fails.split(',') {
        if let Ok(call) = call.parse::<u64>() {
            fail.push(call)?;
        }
    }
    let bytes = Octets::new(bytes_of(alloc, cell)?);
    Ok(MemSource::new(bytes, 1, fail))
}

// Adds how a decoding ended, and what it wrote.
fn tell_ended(line: &mut Line, answer: Result<(), DecodeErr>, written: &[u8]) {
    match answer {
        Ok(()) => line.add("whole"),
        Err(error) => tell_fault(line, error),
    }
    line.add(" =");
    tell_shown(line, written);
}

fn stream(alloc: Global, line: &mut Line, fails: &str, room: usize, cell: &str) {
    match MemSink::new(alloc, room, 3, Vec::new(alloc)) {
        Ok(mut sink) => stream_into(alloc, line, fails, cell, &mut sink),
        Err(_) => line.refuse(),
    }
}

fn stream_into(alloc: Global, line: &mut Line, fails: &str, cell: &str, sink: &mut MemSink) {
    match source(alloc, fails, cell) {
        Ok(source) => {
            let answer = decode_html_rw(source, sink);
            tell_ended(line, answer, sink.written());
        }
        Err(_) => line.refuse(),
    }
}

fn failing(alloc: Global, line: &mut Line, cell: &str) {
    let (calls, rest) = cell.split_once(' ').unwrap_or((cell, ""));
    let (room, bytes) = rest.split_once(' ').unwrap_or((rest, ""));
    let room = room.parse::<usize>().unwrap_or(ROOM);
    stream(alloc, line, calls, room, bytes)
}

fn lent(alloc: Global, line: &mut Line, cell: &str) {
    match SureSink::new(alloc, ROOM) {
        Ok(mut sink) => match bytes_of(alloc, cell) {
            Ok(bytes) => lend(line, SureSource::new(Octets::new(bytes)), &mut sink),
            Err(_) => line.refuse(),
        },
        Err(_) => line.refuse(),
    }
}

fn lend(line: &mut Line, source: SureSource, sink: &mut SureSink) {
    let mut text = chars(source);
    let answer = decode_chars(&mut text, sink);
    tell_ended(line, answer, sink.written());
    tell_rest(line, text.into_inner());
}

fn tell_rest(line: &mut Line, mut source: SureSource) {
    let mut rest = [0u8; 64];
    line.add(" left ");
    match source.take(&mut rest) {
        Ok(count) => tell_shown(line, rest.get(..count).unwrap_or(b"?")),
        Err(_) => line.refuse(),
    }
}

fn room(alloc: Global, line: &mut Line, room: &str, text: &str) {
    let room = room.parse::<usize>().unwrap_or(0);
    match MemSink::new(alloc, room, 3, Vec::new(alloc)) {
        Ok(mut sink) => {
            let whole = encode_attribute_w(text, &mut sink).is_ok();
            line.add(if whole { "whole =" } else { "part =" });
            tell_shown(line, sink.written());
        }
        Err(_) => line.refuse(),
    }
}

// Whether all was written.
fn write_all(sink: &mut SureSink, text: &str) -> Result<(), Failed> {
    encode_minimal_w(text, sink)?;
    encode_attribute_w(text, sink)?;
    for c in text.chars() {
        write_char(sink, c)?;
    }
    Ok(())
}

fn all(alloc: Global, line: &mut Line, text: &str) {
    match SureSink::new(alloc, ROOM) {
        Ok(mut sink) => match write_all(&mut sink, text) {
            Ok(()) => tell_shown(line, sink.written()),
            Err(_) => line.refuse(),
        },
        Err(_) => line.refuse(),
    }
}

// Adds the next character to a line. False at the end.
fn add_next(line: &mut Line, text: &mut Chars<MemSource>) -> bool {
    match text.next() {
        Some(Ok(c)) => line.add_number(" ", u64::from(c as u32)),
        Some(Err(CharsError::NotUtf8)) => line.add(" broken"),
        Some(Err(CharsError::Other(_))) => line.add(" failed"),
        None => return false,
    }
    true
}

fn characters(alloc: Global, line: &mut Line, fails: &str, cell: &str) {
    match source(alloc, fails, cell) {
        Ok(source) => tell_characters(line, source),
        Err(_) => line.refuse(),
    }
}

fn tell_characters(line: &mut Line, source: MemSource) {
    let mut text = chars(source);
    line.add("are");
    for _ in 0..ROOM {
        if !add_next(line, &mut text) {
            break;
        }
    }
}

fn errors(line: &mut Line) {
    let reading = DecodeErrKind::IoError(IoFault::Read);
    let writing = DecodeErrKind::IoError(IoFault::Write);
    line.add_value(&CharsError::NotUtf8);
    line.add("; ");
    line.add_value(&Failed);
    line.add_whether("; ", reading == writing);
    line.add_whether("; ", DecodeErrKind::TooLong == DecodeErrKind::NoMemory);
    line.add_number("; ", NAMED_ENTITIES.len() as u64);
}

fn of_text(alloc: Global, line: &mut Line, word: &str, cell: &str) {
    match text_of(alloc, cell) {
        Ok(text) => escape(alloc, line, word, text.as_str()),
        Err(_) => line.refuse(),
    }
}

fn escape(alloc: Global, line: &mut Line, word: &str, text: &str) {
    match word {
        "minimal" => tell_text(line, encode_minimal(alloc, text)),
        "attribute" => tell_text(line, encode_attribute(alloc, text)),
        "decode" => decode(alloc, line, text),
        "all" => all(alloc, line, text),
        size => room(alloc, line, size, text),
    }
}

/// Adds the answer to a row of this word, or says that there is no such row.
pub fn answer(alloc: Global, line: &mut Line, word: &str, cell: &str) -> bool {
    let (second, rest) = cell.split_once(' ').unwrap_or((cell, ""));
    match word {
        "minimal" | "attribute" | "decode" | "all" => of_text(alloc, line, word, cell),
        "room" => of_text(alloc, line, second, rest),
        "stream" => stream(alloc, line, "", ROOM, cell),
        "characters" => characters(alloc, line, "", cell),
        "failing" => failing(alloc, line, cell),
        "interrupted" => characters(alloc, line, second, rest),
        "lent" => lent(alloc, line, cell),
        "errors" => errors(line),
        _ => return false,
    }
    true
}
