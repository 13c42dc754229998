//! The bytes of bodies in chunks.
ghost use Rattle.std.specs.Prelude.{◌≡◌, ◌<◌, ◌≤◌, drop, false};
ghost use Rattle.std.specs.Fmt.{digit_glyph};
ghost use Rattle.dav_wire.specs.Chunks.{ending as the_ending, size_line};

/// How the bytes of a body are written (RFC 9112, section 6).
#[derive(Clone, Copy, Debug, PartialEq, Eq)]
pub enum Framing {
    /// As they are.
    Raw,
    /// In chunks, each with its size.
    Chunked,
}

// The most bytes of the line with a size: the digits of 64 bits, and the line's end.
pub const LINE: usize = 18;

// The digit of a number.
fn digit(value: usize) -> u8
    requires { value < 16 }
    ensures { result ≡ digit_glyph false value }
{
    let value = value as u8;
    if value < 10 {
        return b'0' + value;
    }
    b'a' + (value - 10)
}

// Writes the line with a size at the end of an array, and answers where it begins.
pub fn write_size(line: &mut [u8; LINE], size: usize) -> usize
    ensures within { result ≤ 18 }
    ensures text { drop result line.new ≡ size_line size }
{
    line[16] = b'\r';
    line[17] = b'\n';
    let mut at = 16;
    let mut rest = size;
    'digits: loop {
        at -= 1;
        line[at] = digit(rest % 16);
        rest /= 16;
        if rest == 0 {
            return at;
        }
    }
}

// What stands behind the last piece.
pub fn ending(framing: Framing) -> &'static [u8]
    ensures { result.now ≡ the_ending framing }
{
    match framing {
        Framing::Raw => b"",
        Framing::Chunked => b"0\r\n\r\n",
    }
}
