ghost use Rattle.std.specs.Prelude.{◌≡◌, ◌⊎◌, ◌^◌, ℕ, List, IsErr, IsSome, IfOk, IfErr, MatchResult, string_bytes, encode_utf8_all};
ghost use Rattle.std.specs.Str.{chars};
ghost use Rattle.htmlescape.specs.Grammar.{IsText, HasFault};
ghost use Rattle.htmlescape.specs.Decoding.{Decoding, IsDecoded, IsFault, IsOfText, IsOnly, in_memory};
ghost use Rattle.htmlescape.specs.declared.faults.DecodeErrKind.{DecodeErrKind};
ghost use Rattle.dav_io.specs.Appending.{Appends};
ghost use Rattle.htmlescape.specs.Characters.{bytes_of};

use crate::characters::{Chars, CharsError};
use crate::decoder::Decoder;
use crate::memory::Growing;
use crate::readings::{Characters, TextChars};
use crate::writing::write_char;
use crate::{DecodeErr, DecodeErrKind, IoFault};
use dav_io::{Failed, Sink, Source};
use std::alloc::Global;

/// How many characters `decode_html_rw` reads at most.
pub const MOST_CHARACTERS: usize = 1 << 60;

// Writes the character that an item stands for, where one is at its end.
fn put_found<W: Sink>(writer: &mut W, found: Option<char>) -> Result<(), Failed>
    ensures appends { Appends (W.stream writer.old) (bytes_of found) result (W.stream writer.new) }
    ensures some { IsErr result → IsSome found }
{
    match found {
        Some(c) => write_char(writer, c),
        None => Ok(()),
    }
}

/// Decodes up to `limit` characters.
pub fn decode<C: Characters, W: Sink>(
    limit: usize,
    characters: &mut C,
    writer: &mut W,
) -> Result<(), DecodeErr>
    ensures { Decoding limit (C.stream characters.old) (W.stream writer.old) result (C.stream characters.new)
        (W.stream writer.new) }
{
    let mut decoder = Decoder::new();
    for count in 0..limit {
        let c = match characters.read() {
            Some(Ok(c)) => c,
            Some(Err(CharsError::NotUtf8)) => {
                return Err(DecodeErr {
                    position: count,
                    kind: DecodeErrKind::EncodingError,
                });
            }
            Some(Err(CharsError::Other(_))) => {
                return Err(DecodeErr {
                    position: count,
                    kind: DecodeErrKind::IoError(IoFault::Read),
                });
            }
            None => return decoder.end(),
        };
        let place = decoder.place;
        let found = match decoder.take(c) {
            Ok(found) => found,
            Err(fault) => return Err(fault),
        };
        match put_found(writer, found) {
            Ok(()) => {}
            Err(_) => {
                return Err(DecodeErr {
                    position: place,
                    kind: DecodeErrKind::IoError(IoFault::Write),
                });
            }
        }
    }
    Err(DecodeErr {
        position: limit,
        kind: DecodeErrKind::TooLong,
    })
}

/// Decodes the characters that a reader of characters has left. It answers and writes what `decode_html_rw` does, and
/// the reader is at hand afterwards: at its end, or right behind the character at which a fault was met.
pub fn decode_chars<R: Source, W: Sink>(
    characters: &mut Chars<R>,
    writer: &mut W,
) -> Result<(), DecodeErr>
    ensures done { Decoding (2 ^ 60) (R.stream characters.old.inner) (W.stream writer.old) result
        (R.stream characters.new.inner) (W.stream writer.new) }
    ensures exact { IsOnly (2 ^ 60) (R.stream characters.old.inner) (W.stream writer.old) result (W.stream writer.new) }
{
    decode(MOST_CHARACTERS, characters, writer)
}

/// Decodes the entities in what a reader gives, and writes the text. It keeps at most eight bytes of a name, and takes
/// no memory.
pub fn decode_html_rw<R: Source + Drop, W: Sink>(reader: R, writer: &mut W) -> Result<(), DecodeErr>
    ensures done { (after : R) × Decoding (2 ^ 60) (R.stream reader) (W.stream writer.old) result (R.stream after)
        (W.stream writer.new) }
    ensures exact { IsOnly (2 ^ 60) (R.stream reader) (W.stream writer.old) result (W.stream writer.new) }
{
    let mut characters = Chars { inner: reader };
    decode_chars(&mut characters, writer)
}

// A writer in memory fails for want of memory alone.
fn memory_fault(fault: DecodeErr) -> DecodeErr
    ensures position { result.position ≡ fault.position }
    ensures kind { result.kind ≡ in_memory fault.kind }
{
    match fault.kind {
        DecodeErrKind::IoError(_) => DecodeErr {
            position: fault.position,
            kind: DecodeErrKind::NoMemory,
        },
        _ => fault,
    }
}

/// Decodes the entities of a text.
///
/// Case matters: `&AMP;` is no entity, but `&#x2e;` and `&#x2E;` are the same. It gives `UnknownEntity`,
/// `MalformedNumEscape`, `InvalidCharacter` and `PrematureEnd`, and `NoMemory` where memory is refused.
pub fn decode_html(alloc: Global, s: &str) -> Result<String, DecodeErr>
    // What is decoded is a text of the grammar, and any other text has the fault that is answered.
    ensures ok { IfOk result (λ t. IsDecoded (chars s.now) (string_bytes t)) }
    ensures err { IfErr result (λ e. IsFault (chars s.now) e) }
    ensures kind { IfErr result (λ e. IsOfText e.kind) }
    // A text of the grammar is decoded, and the fault of any other is answered, unless memory is refused.
    ensures text { (value : List ℕ) → IsText (chars s.now) value
        → MatchResult result (λ t. string_bytes t ≡ encode_utf8_all value) (λ e. e.kind ≡ DecodeErrKind.NoMemory) }
    ensures fault { (kind : DecodeErrKind) (position : ℕ) (value : List ℕ) → HasFault (chars s.now) kind position value
        → MatchResult result (λ t. ⊥) (λ e. (e.kind ≡ DecodeErrKind.NoMemory)
        ⊎ ((e.kind ≡ kind) × (e.position ≡ position))) }
{
    let mut characters = TextChars { left: s.chars() };
    let mut text = Growing::new(alloc);
    match decode(s.len() + 1, &mut characters, &mut text) {
        Ok(()) => Ok(text.into_text()),
        Err(fault) => Err(memory_fault(fault)),
    }
}
