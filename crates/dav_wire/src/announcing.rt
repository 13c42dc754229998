//! Which body the head of a request announces.
ghost use Rattle.std.specs.Prelude.{◌≡◌, ◌≤◌, ◌&&◌, false, [], IsTrue, if◌then◌else◌, codes, length};
ghost use Rattle.http.specs.Request.{head_of};
ghost use Rattle.std.specs.Char.{is_ascii_digit};
ghost use Rattle.std.specs.List.{list_all};
ghost use Rattle.std.specs.Str.Parse.{digits_value};
ghost use Rattle.dav_wire.specs.Announced.{announced_by as the_announced_by, body_by, is_chunked as the_is_chunked, is_length as the_is_length};
ghost use Rattle.dav_wire.specs.Fields.{values_of};
ghost use Rattle.dav_wire.specs.declared.announcing.Announced.TheVariants.{Sized, Unclear};

use dav_io::Octets;
use http::header::{CONTENT_LENGTH, TRANSFER_ENCODING};
use http::{HeaderMap, Request, Version};

/// The body that the head of a request announces (RFC 9112, section 6.3).
#[derive(Clone, Copy, Debug, PartialEq, Eq)]
pub enum Announced {
    /// No body.
    Nothing,
    /// A body of so many bytes.
    Sized(u64),
    /// A body in chunks.
    InChunks,
    /// The fields break the rules: 400 is owed.
    Unclear,
}

// The most digits of a length.
const MOST_DIGITS: usize = 19;

/// The body that the head of a request announces. Several fields `content-length` are the same text, of 1 to 19 decimal
/// digits; a field `transfer-encoding` is the only one, `chunked` in any case, in version 1.1, and without a
/// `content-length`.
pub fn announced_by(request: &Request<Octets>) -> Announced
    ensures { result ≡ the_announced_by (head_of request.now) }
{
    let mut codings = request.headers().get_all(&TRANSFER_ENCODING).iter();
    let Some(coding) = codings.next() else {
        return by_lengths(request.headers());
    };
    if codings.next().is_some() {
        return Announced::Unclear;
    }
    let mut sizes = request.headers().get_all(&CONTENT_LENGTH).iter();
    if sizes.next().is_some() {
        return Announced::Unclear;
    }
    if request.version() == Version::HTTP_11 && is_chunked(coding.as_bytes()) {
        return Announced::InChunks;
    }
    Announced::Unclear
}

fn is_chunked(text: &[u8]) -> bool
    ensures { result ≡ the_is_chunked text.now }
{
    text.eq_ignore_ascii_case(b"chunked")
}

// What the fields `content-length` announce, where there is no other.
fn by_lengths(fields: &HeaderMap) -> Announced
    ensures { result ≡ body_by false [] (values_of fields.now (codes "content-length")) }
{
    let mut sizes = fields.get_all(&CONTENT_LENGTH).iter();
    let Some(first) = sizes.next() else {
        return Announced::Nothing;
    };
    let size = first.as_bytes();
    while let Some(other) = sizes.next() {
        if other.as_bytes() != size {
            return Announced::Unclear;
        }
    }
    by_length(size)
}

fn by_length(text: &[u8]) -> Announced
    ensures { result ≡ (if the_is_length text.now then Sized (digits_value 10 text.now) else Unclear) }
{
    if text.is_empty() || text.len() > MOST_DIGITS {
        return Announced::Unclear;
    }
    if !all_digits(text) {
        return Announced::Unclear;
    }
    Announced::Sized(number(text))
}

fn all_digits(text: &[u8]) -> bool
    ensures { result ≡ list_all is_ascii_digit text.now }
{
    text.iter().all(|byte| byte.is_ascii_digit())
}

// The number that decimal digits write.
fn number(text: &[u8]) -> u64
    requires few { length text.now ≤ 19 }
    requires digits { IsTrue (list_all is_ascii_digit text.now) }
    ensures { result ≡ digits_value 10 text.now }
{
    let mut value = 0;
    for byte in text {
        value = value * 10 + (*byte - b'0') as u64;
    }
    value
}
