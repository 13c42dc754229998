ghost use Rattle.std.specs.Prelude.{◌≡◌, ◌<◌, ℕ, ◌++◌, ◌≢◌, List, [], ◌∷◌, Some, Ok, length, slice_index, codes, MatchOption, encode_utf8, option_map};
ghost use Rattle.std.specs.Char.{IsScalar};
ghost use Rattle.htmlescape.specs.Characters.{width, ReadsByte, ReadsAfter, ReadsChar};

use dav_io::{Failed, Source};
use std::error::Error;
use std::{fmt, str};

/// Why a character couldn't be read.
#[derive(Clone, Copy, Debug, PartialEq, Eq)]
pub enum CharsError {
    /// The bytes aren't UTF-8, or the input ends inside a character.
    NotUtf8,
    /// The reader failed. Its count of faults rose.
    Other(Failed),
}

impl fmt::Display for CharsError {
    ghost use Rattle.htmlescape.specs.Characters.{message};

    ghost output = { message };

    fn fmt<W: fmt::Write>(&self, f: &mut fmt::Formatter<W>) -> fmt::Result {
        match self {
            CharsError::NotUtf8 => f.write_str("byte stream did not contain valid utf8"),
            CharsError::Other(refused) => fmt::Display::fmt(refused, f),
        }
    }
}

impl Error for CharsError {}

/// The characters that a reader's bytes spell in UTF-8, in order. A fault is an item, and reading goes on behind the
/// bytes taken. The first byte of a character gives its width.
#[derive(Drop)]
pub struct Chars<R> {
    pub(crate) inner: R,
}

impl<R> Chars<R> {
    /// The reader, behind the bytes that were taken.
    pub fn into_inner(self) -> R
        ensures { result ≡ self.inner }
    {
        self.inner
    }
}

impl<R: Source + Drop> Iterator for Chars<R> {
    type Item = Result<char, CharsError>;

    ghost next_gives = { λ s r t. ReadsChar (R.stream s.inner) r (R.stream t.inner) };

    fn next(&mut self) -> Option<Result<char, CharsError>> {
        read_char(&mut self.inner)
    }
}

// How many bytes a character has that begins with this one, or 0.
fn width_of(first: u8) -> usize
    ensures { result ≡ width first }
{
    match first {
        0..=0x7f => 1,
        0x80..=0xbf => 0,
        0xc0..=0xdf => 2,
        0xe0..=0xef => 3,
        0xf0..=0xf7 => 4,
        _ => 0,
    }
}

// The next byte, or `None` at the end of the input.
fn read_byte<R: Source>(reader: &mut R) -> Result<Option<u8>, Failed>
    ensures { ReadsByte (R.stream reader.old) result (R.stream reader.new) }
{
    let mut byte = [0; 1];
    match reader.take(&mut byte) {
        Ok(0) => Ok(None),
        Ok(_) => Ok(Some(byte[0])),
        Err(refused) => Err(refused),
    }
}

// The character that these bytes spell, where its width is their number.
fn character(bytes: &[u8]) -> Option<char>
    requires some { 0 < length bytes.now }
    requires width { width (slice_index bytes.now 0) ≡ length bytes.now }
    ensures scalar { MatchOption result (Unit {0}) (λ c. IsScalar c) }
    ensures spelled { MatchOption result ((c : ℕ) (more : List ℕ) → IsScalar c → bytes.now ≢ encode_utf8 c ++ more)
        (λ c. bytes.now ≡ encode_utf8 c) }
{
    match str::from_utf8(bytes) {
        Ok(text) => text.chars().next(),
        Err(_) => None,
    }
}

// The character that begins with this byte.
fn read_after<R: Source>(reader: &mut R, first: u8) -> Result<char, CharsError>
    ensures { ReadsAfter first (R.stream reader.old) result (R.stream reader.new) }
{
    let width = width_of(first);
    if width == 0 {
        return Err(CharsError::NotUtf8);
    }
    let mut bytes = [first, 0, 0, 0];
    for at in 1..width {
        match read_byte(reader) {
            Ok(Some(byte)) => bytes[at] = byte,
            Ok(None) => return Err(CharsError::NotUtf8),
            Err(refused) => return Err(CharsError::Other(refused)),
        }
    }
    match character(&bytes[..width]) {
        Some(c) => Ok(c),
        None => Err(CharsError::NotUtf8),
    }
}

/// The next character, or `None` at the end of the input.
pub fn read_char<R: Source>(reader: &mut R) -> Option<Result<char, CharsError>>
    ensures { ReadsChar (R.stream reader.old) result (R.stream reader.new) }
{
    match read_byte(reader) {
        Ok(Some(first)) => Some(read_after(reader, first)),
        Ok(None) => None,
        Err(refused) => Some(Err(CharsError::Other(refused))),
    }
}
