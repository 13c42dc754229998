// The text of the entity tag of a disk's metadata: as a text, as a field's value, and compared without either.
ghost use Rattle.std.specs.Prelude.{◌≡◌, ◌↔◌, ◌++◌, ◌∷◌, ◌+◌, ◌<◌, ◌≤◌, true, false, IfOk, IsTrue, MatchOption, codes, drop};
ghost use Rattle.std.specs.Fmt.{digit_glyph};
ghost use Rattle.dav_core.specs.Grammar.{EndsOtherwise};
ghost use Rattle.dav_core.specs.Info.{hex, micros as the_micros, tag_at, is_in_years};
ghost use Rattle.dav_core.specs.Tags.{quoted};

use crate::{FileTime, Kind, Meta};
use dav_io::{FieldValue, NoMemory, Text};
use std::alloc::Global;

// The most bytes of the text of a tag between its quotes: three numbers of at most 16 digits, and two dashes.
const MOST_TAG: usize = 52;

// The digits of numbers below 16.
const DIGITS: &[u8; 16] = b"0123456789abcdef";

// Whole microseconds since 1970.
fn micros(time: FileTime) -> u64
    requires { is_in_years time.secs ≡ true }
    ensures { result ≡ the_micros time }
{
    time.secs as u64 * 1_000_000 + u64::from(time.nanos / 1000)
}

// The text of the tag at a known time.
pub fn tag_text(alloc: Global, meta: &Meta, time: FileTime) -> Result<Text, NoMemory>
    requires { is_in_years time.secs ≡ true }
    ensures { IfOk result (λ text. text ≡ tag_at meta.now.kind meta.now.number meta.now.len time) }
{
    let (number, len, micros) = (meta.number, meta.len, micros(time));
    match meta.kind {
        Kind::File => Ok(Text::new(format!(in alloc; "{number:x}-{len:x}-{micros:x}")?)),
        Kind::Dir | Kind::Link => Ok(Text::new(format!(in alloc; "{number:x}-{micros:x}")?)),
    }
}

// The digit of a number below 16.
fn digit(n: u64) -> u8
    requires { n < 16 }
    ensures { result ≡ digit_glyph false n }
{
    DIGITS[n as usize]
}

// Writes a byte right before an end, and answers where it stands.
fn put_byte(into: &mut [u8; MOST_TAG], end: usize, byte: u8) -> usize
    requires some { 0 < end }
    requires within { end ≤ 52 }
    ensures at { result + 1 ≡ end }
    ensures put { drop result into.new ≡ byte ∷ drop end into.old }
{
    into[end - 1] = byte;
    end - 1
}

// Writes the digits of a number right before an end, and answers where they begin.
fn put_digits(into: &mut [u8; MOST_TAG], end: usize, number: u64) -> usize
    requires room { 16 ≤ end }
    requires within { end ≤ 52 }
    ensures some { result < end }
    ensures few { end ≤ result + 16 }
    ensures digits { drop result into.new ≡ hex number ++ drop end into.old }
{
    let mut at = end - 1;
    let mut rest = number;
    into[at] = digit(rest % 16);
    while rest >= 16 {
        rest /= 16;
        at -= 1;
        into[at] = digit(rest % 16);
    }
    at
}

// Writes a dash and the digits of a number right before an end, and answers where the dash stands.
fn put_part(into: &mut [u8; MOST_TAG], end: usize, number: u64) -> usize
    requires room { 17 ≤ end }
    requires within { end ≤ 52 }
    ensures some { result < end }
    ensures few { end ≤ result + 17 }
    ensures part { drop result into.new ≡ codes "-" ++ (hex number ++ drop end into.old) }
{
    let at = put_digits(into, end, number);
    put_byte(into, at, b'-')
}

// Writes the text of the tag at a known time between quotes, and answers where it begins: from its end on, since each
// number is written from its last digit on.
fn put_tag(into: &mut [u8; MOST_TAG], meta: &Meta, time: FileTime) -> usize
    requires { is_in_years time.secs ≡ true }
    ensures within { result < 52 }
    ensures tag { drop result into.new ≡ quoted (tag_at meta.now.kind meta.now.number meta.now.len time) }
{
    let mut at = put_byte(into, MOST_TAG, b'"');
    at = put_part(into, at, micros(time));
    match meta.kind {
        Kind::File => at = put_part(into, at, meta.len),
        Kind::Dir | Kind::Link => {}
    }
    at = put_digits(into, at, meta.number);
    put_byte(into, at, b'"')
}

// The text of the tag at a known time between quotes, as a field's value.
pub fn quoted_tag(alloc: Global, meta: &Meta, time: FileTime) -> Result<FieldValue, NoMemory>
    requires { is_in_years time.secs ≡ true }
    ensures { IfOk result (λ value. value ≡ quoted (tag_at meta.now.kind meta.now.number meta.now.len time)) }
{
    let mut text = [0; MOST_TAG];
    let at = put_tag(&mut text, meta, time);
    FieldValue::copy(alloc, &text[at..])
}

// What stands before the digits of a number at the end of a text.
fn before_digits<'a>(text: &'a [u8], number: u64) -> Option<&'a [u8]>
    ensures { MatchOption result (EndsOtherwise text.now (hex number)) (λ front. text.now ≡ front.now ++ hex number) }
{
    let Some((last, front)) = text.split_last() else {
        return None;
    };
    if *last != digit(number % 16) {
        return None;
    }
    if number < 16 {
        return Some(front);
    }
    before_digits(front, number / 16)
}

// What stands before a dash and the digits of a number at the end of a text.
fn before_part<'a>(text: &'a [u8], number: u64) -> Option<&'a [u8]>
    ensures { MatchOption result (EndsOtherwise text.now (codes "-" ++ hex number))
        (λ front. text.now ≡ front.now ++ (codes "-" ++ hex number)) }
{
    let Some(rest) = before_digits(text, number) else {
        return None;
    };
    let Some((last, front)) = rest.split_last() else {
        return None;
    };
    if *last == b'-' { Some(front) } else { None }
}

// Whether a text is the digits of a number.
fn is_digits(text: &[u8], number: u64) -> bool
    ensures { IsTrue result ↔ (text.now ≡ hex number) }
{
    match before_digits(text, number) {
        Some(front) => front.is_empty(),
        None => false,
    }
}

// Whether a text is two numbers with a dash between.
fn is_pair(text: &[u8], first: u64, last: u64) -> bool
    ensures { IsTrue result ↔ (text.now ≡ hex first ++ (codes "-" ++ hex last)) }
{
    match before_part(text, last) {
        Some(front) => is_digits(front, first),
        None => false,
    }
}

// Whether a text is three numbers with dashes between.
fn is_triple(text: &[u8], first: u64, middle: u64, last: u64) -> bool
    ensures { IsTrue result ↔ (text.now ≡ hex first ++ (codes "-" ++ (hex middle ++ (codes "-" ++ hex last)))) }
{
    match before_part(text, last) {
        Some(front) => is_pair(front, first, middle),
        None => false,
    }
}

// Whether a text is that of the tag at a known time.
pub fn has_text(meta: &Meta, time: FileTime, text: &[u8]) -> bool
    requires { is_in_years time.secs ≡ true }
    ensures { IsTrue result ↔ (tag_at meta.now.kind meta.now.number meta.now.len time ≡ text.now) }
{
    let (number, len, micros) = (meta.number, meta.len, micros(time));
    match meta.kind {
        Kind::File => is_triple(text, number, len, micros),
        Kind::Dir | Kind::Link => is_pair(text, number, micros),
    }
}
