// Spaces and tabs around the members of a field.
ghost use Rattle.std.specs.Prelude.{◌≡◌};
ghost use Rattle.dav_core.specs.Blanks as blanks;

fn is_blank(b: u8) -> bool
    ensures { result ≡ blanks.is_blank b }
{
    b == b' ' || b == b'\t'
}

fn without_front(bytes: &[u8]) -> &[u8]
    ensures { result.now ≡ blanks.without_front bytes.now }
{
    let mut rest = bytes;
    while let Some((first, more)) = rest.split_first() {
        if !is_blank(*first) {
            return rest;
        }
        rest = more;
    }
    rest
}

fn without_end(bytes: &[u8]) -> &[u8]
    ensures { result.now ≡ blanks.without_end bytes.now }
{
    let mut rest = bytes;
    while let Some((last, front)) = rest.split_last() {
        if !is_blank(*last) {
            return rest;
        }
        rest = front;
    }
    rest
}

/// The bytes without the spaces and tabs at both ends (RFC 9110 section 5.6.3).
pub fn trimmed(bytes: &[u8]) -> &[u8]
    ensures { result.now ≡ blanks.trimmed bytes.now }
{
    without_end(without_front(bytes))
}
