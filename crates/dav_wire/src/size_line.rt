//! The line with the size of a chunk (RFC 9112, section 7.1), read from the front of bytes.
ghost use Rattle.std.specs.Prelude.{◌≡◌, ◌≢◌, ◌≤◌, ◌<◌, min, length, take, drop, slice_index, All};
ghost use Rattle.std.specs.Char.{digit_value};
ghost use Rattle.std.specs.Str.Parse.{AllDigits, digits_value};
ghost use Rattle.dav_wire.specs.Chunks.{IsWithinLine};
ghost use Rattle.dav_wire.specs.SizeLines.{EndsExtension, FindsEnd, FindsSize};

// The most digits of a size.
const MOST_DIGITS: usize = 16;

// The most bytes of an extension behind its semicolon.
const MOST_EXTENSION: usize = 256;

// What stands where a line with a size is wanted.
#[derive(Clone, Copy)]
pub enum SizeFound {
    // A line with this size, and how many bytes it takes.
    Line(u64, usize),
    // More bytes are wanted.
    More,
    // No such line, whatever follows.
    Never,
}

// What stands where the end of a line is wanted.
#[derive(Clone, Copy)]
pub enum EndFound {
    Here,
    // The bytes are over in front of it, or inside it.
    Partly,
    // No end of a line, whatever follows.
    Nowhere,
}

// The line with a size at the front.
pub fn read_size(text: &[u8]) -> SizeFound
    ensures { FindsSize text.now result }
{
    let digits = count_digits(text);
    if digits > MOST_DIGITS {
        return SizeFound::Never;
    }
    if digits == text.len() {
        return SizeFound::More;
    }
    if digits == 0 {
        return SizeFound::Never;
    }
    let (number, behind) = text.split_at(digits);
    let extension = extension_len(behind);
    if extension > MOST_EXTENSION + 1 {
        return SizeFound::Never;
    }
    let (_, end) = behind.split_at(extension);
    match line_end_at(end) {
        EndFound::Here => SizeFound::Line(number_of(number), digits + extension + 2),
        EndFound::Partly => SizeFound::More,
        EndFound::Nowhere => SizeFound::Never,
    }
}

// The end of a line at the front.
pub fn line_end_at(text: &[u8]) -> EndFound
    ensures { FindsEnd text.now result }
{
    if text.is_empty() {
        return EndFound::Partly;
    }
    if text[0] != b'\r' {
        return EndFound::Nowhere;
    }
    if text.len() < 2 {
        return EndFound::Partly;
    }
    if text[1] != b'\n' {
        return EndFound::Nowhere;
    }
    EndFound::Here
}

// How many hexadecimal digits stand at the front.
fn count_digits(text: &[u8]) -> usize
    ensures within { result ≤ length text.now }
    ensures all { AllDigits 16 (take result text.now) }
    ensures ends { result < length text.now → 16 ≤ digit_value (slice_index text.now result) }
{
    let mut at = 0;
    while at < text.len() && digit_of(text[at]) < 16 {
        at += 1;
    }
    at
}

// The value of a hexadecimal digit, and 16 for another byte.
fn digit_of(byte: u8) -> u8
    ensures { result ≡ min (digit_value byte) 16 }
{
    match byte {
        b'0'..=b'9' => byte - b'0',
        b'a'..=b'f' => byte - b'a' + 10,
        b'A'..=b'F' => byte - b'A' + 10,
        _ => 16,
    }
}

// The number that hexadecimal digits write.
fn number_of(digits: &[u8]) -> u64
    requires few { length digits.now ≤ 16 }
    requires all { AllDigits 16 digits.now }
    ensures { result ≡ digits_value 16 digits.now }
{
    let mut value = 0;
    for byte in digits {
        value = value * 16 + digit_of(*byte) as u64;
    }
    value
}

// How many bytes stand in front of the end of the line, a semicolon and what follows it; of whatever length.
fn extension_len(behind: &[u8]) -> usize
    requires { 0 < length behind.now }
    ensures within { result ≤ length behind.now }
    ensures ends { EndsExtension behind.now result }
{
    if behind[0] != b';' {
        return 0;
    }
    let (_, bytes) = behind.split_at(1);
    1 + plain_len(bytes)
}

// How many bytes stand in front of the first CR or LF.
fn plain_len(text: &[u8]) -> usize
    ensures within { result ≤ length text.now }
    ensures all { All IsWithinLine (take result text.now) }
    ensures ends { result < length text.now → IsWithinLine (slice_index text.now result) → ⊥ }
{
    let mut at = 0;
    while at < text.len() && text[at] != b'\r' && text[at] != b'\n' {
        at += 1;
    }
    at
}
