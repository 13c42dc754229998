// The steps by which a path's text is read.
ghost use Rattle.std.specs.Prelude.{◌≡◌, ◌≢◌, ◌==◌, ◌&&◌, ◌++◌, IfOk, IfErr, OnOk, OnErr, Ok, Err, map, true, false, length, ◌≤◌};
ghost use Rattle.std.specs.List.{list_all, position_or_len};
ghost use Rattle.std.specs.Str.{is_utf8};
ghost use Rattle.percent_encoding.specs.Percent.{percent_decode as decoding};
ghost use Rattle.dav_core.specs.Grammar as grammar;
ghost use Rattle.dav_core.specs.Grammar.{readable as the_readable};
ghost use Rattle.dav_core.specs.Path.{all_plain};

use crate::ParseError;
use crate::plain_name::is_plain;
use dav_io::{NoMemory, Text};
use percent_encoding::percent_decode;
use std::alloc::Global;

// The first place of a byte, or the length where it stands nowhere.
pub fn place_of(byte: u8, text: &[u8]) -> usize
    ensures first { result ≡ position_or_len (λ b. b == byte) text.now }
    ensures within { result ≤ length text.now }
{
    for (at, b) in text.iter().enumerate() {
        if *b == byte {
            return at;
        }
    }
    text.len()
}

// The text before its first `?`.
pub fn before_query(text: &[u8]) -> &[u8]
    ensures { result.now ≡ grammar.before_query text.now }
{
    let (front, _) = text.split_at(place_of(b'?', text));
    front
}

pub fn begins_with_slash(text: &[u8]) -> bool
    ensures { result ≡ grammar.begins_with_slash text.now }
{
    match text {
        [first, ..] => *first == b'/',
        [] => false,
    }
}

fn is_path_byte(b: u8) -> bool
    ensures { result ≡ grammar.is_path_byte b }
{
    b >= 0x21 && b <= 0x7e && b != b'#'
}

fn has_path_bytes(text: &[u8]) -> bool
    ensures { result ≡ list_all grammar.is_path_byte text.now }
{
    text.iter().all(|b| is_path_byte(*b))
}

// Whether a text that was cut can be a path's.
pub fn is_readable(text: &[u8]) -> bool
    ensures { result ≡ (list_all grammar.is_path_byte text.now && grammar.begins_with_slash text.now) }
{
    if !has_path_bytes(text) {
        return false;
    }
    begins_with_slash(text)
}

// The segments of a text.
pub fn segments(alloc: Global, text: &[u8]) -> Result<Vec<&[u8]>, NoMemory>
    ensures { IfOk result (λ v. map (λ s. s.now) v.items ≡ grammar.segments text.now) }
{
    let all = text.split(|b| *b == b'/').collect(alloc)?;
    Ok(all)
}

fn is_skipped(segment: &[u8]) -> bool
    ensures { result ≡ grammar.is_skipped segment.now }
{
    if segment.is_empty() {
        return true;
    }
    segment == b".".as_slice()
}

fn is_up(segment: &[u8]) -> bool
    ensures { result ≡ grammar.is_up segment.now }
{
    segment == b"..".as_slice()
}

// Drops the last segment that was kept.
fn drop_last(kept: &mut Vec<&[u8]>) -> Result<(), ParseError>
    ensures ok { OnOk result (grammar.without_last (map (λ s. s.now) kept.old.items) ≡ Ok
        (map (λ s. s.now) kept.new.items)) }
    ensures err { IfErr result (λ e. grammar.without_last (map (λ s. s.now) kept.old.items) ≡ Err e) }
{
    match kept.pop() {
        Some(_) => Ok(()),
        None => Err(ParseError::ForbiddenPath),
    }
}

// Keeps a segment, or drops what it drops.
fn keep<'a>(kept: &mut Vec<&'a [u8]>, segment: &'a [u8]) -> Result<(), ParseError>
    ensures ok { OnOk result (grammar.keep segment.now (map (λ s. s.now) kept.old.items) ≡ Ok
        (map (λ s. s.now) kept.new.items)) }
    ensures err { IfErr result (λ e. e ≢ ParseError.NoMemory
        → grammar.keep segment.now (map (λ s. s.now) kept.old.items) ≡ Err e) }
{
    if is_skipped(segment) {
        return Ok(());
    }
    if is_up(segment) {
        return drop_last(kept);
    }
    kept.push(segment)?;
    Ok(())
}

// The segments that are kept.
fn kept_of<'a>(alloc: Global, segments: &[&'a [u8]]) -> Result<Vec<&'a [u8]>, ParseError>
    ensures ok { IfOk result (λ kept. grammar.kept_of (map (λ s. s.now) segments.now) ≡ Ok
        (map (λ s. s.now) kept.items)) }
    ensures err { IfErr result (λ e. e ≢ ParseError.NoMemory → grammar.kept_of (map (λ s. s.now) segments.now)
        ≡ Err e) }
{
    let mut kept = Vec::new(alloc);
    for segment in segments {
        if let Err(fault) = keep(&mut kept, *segment) {
            return Err(fault);
        }
    }
    Ok(kept)
}

// The name that bytes are.
fn name_of(bytes: Vec<u8>) -> Result<Text, ParseError>
    ensures ok { IfOk result (λ name. grammar.name_of bytes.items ≡ Ok name) }
    ensures err { IfErr result (λ e. grammar.name_of bytes.items ≡ Err e) }
{
    if !is_plain(&bytes) {
        return Err(ParseError::InvalidPath);
    }
    text_of(bytes)
}

// The text that bytes are.
fn text_of(bytes: Vec<u8>) -> Result<Text, ParseError>
    ensures ok { IfOk result (λ text. (is_utf8 bytes.items ≡ true) × (text ≡ bytes.items)) }
    ensures err { IfErr result (λ e. (is_utf8 bytes.items ≡ false) × (e ≡ ParseError.NotText)) }
{
    match String::from_utf8(bytes) {
        Ok(text) => {
            let text = Text::new(text);
            let _utf8 = text.as_str();
            Ok(text)
        }
        Err(_) => Err(ParseError::NotText),
    }
}

// Appends what a segment says. Without a `%` that is the segment itself.
fn append_decoded(bytes: &mut Vec<u8>, segment: &[u8]) -> Result<(), NoMemory>
    ensures { OnOk result (bytes.new.items ≡ bytes.old.items ++ decoding segment.now) }
{
    if segment.contains(&b'%') {
        percent_decode(segment).append_to(bytes)?;
    } else {
        bytes.extend_from_slice(segment)?;
    }
    Ok(())
}

// The name that a kept segment says.
pub fn decoded(alloc: Global, segment: &[u8]) -> Result<Text, ParseError>
    ensures ok { IfOk result (λ name. grammar.decoded segment.now ≡ Ok name) }
    ensures err { IfErr result (λ e. e ≢ ParseError.NoMemory → grammar.decoded segment.now ≡ Err e) }
{
    let mut bytes = Vec::with_capacity(alloc, segment.len())?;
    append_decoded(&mut bytes, segment)?;
    name_of(bytes)
}

// The names that kept segments say.
fn all_decoded(alloc: Global, kept: &[&[u8]]) -> Result<Vec<Text>, ParseError>
    ensures ok { IfOk result (λ names. grammar.all_decoded (map (λ s. s.now) kept.now) ≡ Ok names.items) }
    ensures err { IfErr result (λ e. e ≢ ParseError.NoMemory → grammar.all_decoded (map (λ s. s.now) kept.now)
        ≡ Err e) }
{
    let mut names = Vec::new(alloc);
    for segment in kept {
        names.push(decoded(alloc, *segment)?)?;
    }
    Ok(names)
}

// The names that segments say, without regard to the prefix.
pub fn names_in(alloc: Global, segments: &[&[u8]]) -> Result<Vec<Text>, ParseError>
    ensures ok { IfOk result (λ names. grammar.names_in (map (λ s. s.now) segments.now) ≡ Ok names.items) }
    ensures err { IfErr result (λ e. e ≢ ParseError.NoMemory → grammar.names_in (map (λ s. s.now) segments.now)
        ≡ Err e) }
    ensures plain { IfOk result (λ names. all_plain names.items ≡ true) }
{
    let kept = match kept_of(alloc, segments) {
        Ok(kept) => kept,
        Err(fault) => return Err(fault),
    };
    all_decoded(alloc, kept.as_slice())
}
