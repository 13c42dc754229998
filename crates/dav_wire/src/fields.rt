//! What a server asks of the fields of a request.
ghost use Rattle.std.specs.Prelude.{◌≡◌, bytes_eq, codes};
ghost use Rattle.std.specs.List.{list_all};
ghost use Rattle.http_header.specs.Token.{lowercase};
ghost use Rattle.httparse.specs.Grammar.{is_ows, skip_ows};
ghost use Rattle.dav_wire.specs.Fields.{is_close_word, is_close_member, names_close as close_named, asks_close as close_asked};

use http::HeaderMap;
use http::header::CONNECTION;

/// Is `close` a member of a field `connection`, in any case?
pub fn asks_close(fields: &HeaderMap) -> bool
    ensures { result ≡ close_asked fields.now }
{
    let mut values = fields.get_all(&CONNECTION).iter();
    while let Some(value) = values.next() {
        if names_close(value.as_bytes()) {
            return true;
        }
    }
    false
}

// Is a member of the list `close`?
fn names_close(text: &[u8]) -> bool
    ensures { result ≡ close_named text.now }
{
    text.split(|byte| *byte == b',')
        .any(|member| is_close(member))
}

fn is_close(member: &[u8]) -> bool
    ensures { result ≡ is_close_member member.now }
{
    is_word(skip_blanks(member))
}

fn is_word(text: &[u8]) -> bool
    ensures { result ≡ is_close_word text.now }
{
    if text.len() < 5 {
        return false;
    }
    let (word, behind) = text.split_at(5);
    if !is_close_text(word) {
        return false;
    }
    all_blank(behind)
}

fn is_close_text(word: &[u8]) -> bool
    ensures { result ≡ bytes_eq (lowercase word.now) (codes "close") }
{
    word.eq_ignore_ascii_case(b"close")
}

fn all_blank(text: &[u8]) -> bool
    ensures { result ≡ list_all is_ows text.now }
{
    text.iter().all(|byte| is_blank(*byte))
}

fn is_blank(byte: u8) -> bool
    ensures { result ≡ is_ows byte }
{
    byte == b' ' || byte == b'\t'
}

fn skip_blanks(text: &[u8]) -> &[u8]
    ensures { result.now ≡ skip_ows text.now }
{
    let mut at = 0;
    while at < text.len() && is_blank(text[at]) {
        at += 1;
    }
    let (_, rest) = text.split_at(at);
    rest
}
