// The forms of links, dates and sizes, as a reader takes them.
ghost use Rattle.std.specs.Prelude.{◌≡◌, ◌==◌, ◌↔◌, IsTrue, codes};
ghost use Rattle.std.specs.List.{list_all, list_any};
ghost use Rattle.std.specs.Char.{is_digit as is_digit_of};
ghost use Rattle.std.specs.Cmp.Lexicographic.{pointwise};
ghost use Rattle.htmlescape.specs.Grammar.{are_digits as digits_are};
ghost use Rattle.dav_page.specs.Pages as form;
ghost use Rattle.dav_page.specs.Cuts.{IsNumber};

use crate::cutting::{expect, until};
use crate::literals::NO_SIZE;

fn is_digit(b: u8) -> bool
    ensures { result ≡ is_digit_of b 10 }
{
    b >= b'0' && b <= b'9'
}

fn is_hex_digit(b: u8) -> bool
    ensures { result ≡ is_digit_of b 16 }
{
    (b >= b'0' && b <= b'9') || (b >= b'A' && b <= b'F') || (b >= b'a' && b <= b'f')
}

// A letter, a digit, or one of `-._~/`.
fn is_link_byte(b: u8) -> bool
    ensures { result ≡ form.is_link_byte b }
{
    b.is_ascii_alphanumeric() || b == b'-' || b == b'.' || b == b'_' || b == b'~' || b == b'/'
}

// Whether two hexadecimal digits stand at the front.
fn has_two_digits(bytes: &[u8]) -> bool
    ensures { result ≡ form.has_two_digits bytes.now }
{
    match bytes {
        [high, low, ..] => is_hex_digit(*high) && is_hex_digit(*low),
        _ => false,
    }
}

// Whether the bytes are those of a link.
pub(crate) fn is_link(bytes: &[u8]) -> bool
    ensures { result ≡ form.is_link bytes.now }
{
    let mut rest = bytes;
    'link: while let Some((first, behind)) = rest.split_first() {
        let is_escape = *first == b'%' && has_two_digits(behind);
        if !is_link_byte(*first) && !is_escape {
            return false;
        }
        rest = behind;
    }
    true
}

// A digit where the form has a zero, and the form's byte elsewhere.
fn fits(expected: u8, b: u8) -> bool
    ensures { result ≡ form.fits expected b }
{
    if expected == b'0' {
        is_digit(b)
    } else {
        expected == b
    }
}

fn has_form(expected: &[u8], text: &[u8]) -> bool
    ensures { result ≡ pointwise form.fits expected.now text.now }
{
    let mut rest = text;
    'form: for b in expected {
        let Some((first, behind)) = rest.split_first() else {
            return false;
        };
        if !fits(*b, *first) {
            return false;
        }
        rest = behind;
    }
    rest.is_empty()
}

// Whether the text is empty, or is of the form `YYYY-MM-DD HH:MM`. No calendar is asked.
pub(crate) fn is_date(text: &str) -> bool
    ensures { result ≡ form.is_date text.now }
{
    text.is_empty() || has_form(b"0000-00-00 00:00", text.as_bytes())
}

fn has_only_digits(text: &str) -> bool
    ensures { result ≡ list_all (λ b. is_digit_of b 10) text.now }
{
    text.as_bytes().iter().all(|b| is_digit(*b))
}

fn are_digits(text: &str) -> bool
    ensures { result ≡ digits_are 10 text.now }
{
    !text.is_empty() && has_only_digits(text)
}

// Nothing, or a point and one digit or two.
fn is_fraction(text: &str) -> bool
    ensures { result ≡ form.is_fraction text.now }
{
    match expect(text, ".") {
        Some(digits) => are_digits(digits) && digits.len() <= 2,
        None => text.is_empty(),
    }
}

// Digits, and a fraction.
fn is_number(text: &str) -> bool
    ensures { IsTrue result ↔ IsNumber text.now }
{
    match until(text, '.') {
        Some((whole, fraction)) => are_digits(whole) && is_fraction(fraction),
        None => are_digits(text),
    }
}

fn is_unit(text: &str) -> bool
    ensures { result ≡ form.is_unit text.now }
{
    text == "B"
        || (text == "KiB" || (text == "MiB" || (text == "GiB" || (text == "TiB" || text == "PiB"))))
}

// A number, a blank and a unit.
fn is_amount(text: &str) -> bool
    ensures { IsTrue result ↔ form.IsAmount text.now }
{
    let Some((number, rest)) = until(text, ' ') else {
        return false;
    };
    match expect(rest, " ") {
        Some(unit) => is_number(number) && is_unit(unit),
        None => false,
    }
}

// Whether the text is a size as pages show it.
pub(crate) fn is_size(text: &str) -> bool
    ensures { IsTrue result ↔ form.IsSize text.now }
{
    text == NO_SIZE || is_amount(text)
}

// One of `<`, `>` and `"`.
fn is_mark(b: u8) -> bool
    ensures { result ≡ list_any (λ m. b == m) (codes "<>\"") }
{
    b == b'<' || b == b'>' || b == b'"'
}

// Whether a name's text has a mark that it may not have.
pub(crate) fn has_mark(text: &str) -> bool
    ensures { result ≡ list_any (λ c. list_any (λ m. c == m) (codes "<>\"")) text.now }
{
    text.as_bytes().iter().any(|b| is_mark(*b))
}
