ghost use Rattle.std.specs.Prelude.{◌≡◌, ◌≤◌, ◌<◌, ◌+◌, ◌*◌, ℕ, true, min, List, [], ◌∷◌, ◌++◌};
ghost use Rattle.htmlescape.specs.Running.{Pending, Keeps, KeepsNumber, Judged, Stepped, begins_name};

use crate::DecodeErrKind;
use crate::name::ShortName;

// One past the greatest u32.
const TOO_GREAT: u64 = 1 << 32;

/// What a decoder keeps of an unfinished entity.
#[derive(Clone, Copy)]
pub enum State {
    /// Outside an entity.
    Text,
    /// Behind `&`.
    Ampersand,
    /// Behind `&` and a front of a name.
    Named(ShortName),
    /// Behind `&#`.
    Hash,
    /// Behind `&#x`.
    HexMark,
    /// Behind `&#` and decimal digits. A value past the greatest u32 is kept as 2^32.
    Decimal(u64),
    /// Behind `&#x` and hexadecimal digits.
    Hexadecimal(u64),
}

/// What the next character makes of it.
#[derive(Clone, Copy)]
pub enum Step {
    /// The entity goes on.
    More(State),
    /// It stands for this character, and is at its end.
    Whole(char),
    /// It is no entity.
    Fault(DecodeErrKind),
}

impl State {
    /// The next character.
    pub fn step(self, c: char) -> Step
        ensures { (pending : List ℕ) → Pending self pending → Stepped (pending ++ c ∷ []) result }
    {
        match self {
            State::Text => after_text(c),
            State::Ampersand => after_ampersand(c),
            State::Named(name) => after_name(name, c),
            State::Hash => after_hash(c),
            State::HexMark => after_mark(c),
            State::Decimal(value) => after_decimal(value, c),
            State::Hexadecimal(value) => after_hexadecimal(value, c),
        }
    }
}

// Behind whole items.
fn after_text(c: char) -> Step
    ensures { Stepped (c ∷ []) result }
{
    if c == '&' {
        Step::More(State::Ampersand)
    } else {
        Step::Whole(c)
    }
}

// Behind `&`.
fn after_ampersand(c: char) -> Step
    ensures { Stepped (38 ∷ c ∷ []) result }
{
    match c {
        '#' => Step::More(State::Hash),
        ';' => Step::Fault(DecodeErrKind::UnknownEntity),
        _ => Step::More(State::Named(ShortName::empty().push(c))),
    }
}

// Behind `&` and a front of a name.
fn after_name(short: ShortName, c: char) -> Step
    ensures { (name : List ℕ) → begins_name name ≡ true → Keeps short name → Stepped (38 ∷ (name ++ c ∷ [])) result }
{
    if c != ';' {
        return Step::More(State::Named(short.push(c)));
    }
    match short.find() {
        Some(found) => Step::Whole(found),
        None => Step::Fault(DecodeErrKind::UnknownEntity),
    }
}

// Behind `&#`.
fn after_hash(c: char) -> Step
    ensures { Stepped (38 ∷ 35 ∷ c ∷ []) result }
{
    if c == 'x' {
        return Step::More(State::HexMark);
    }
    match c.to_digit(10) {
        Some(digit) => Step::More(State::Decimal(u64::from(digit))),
        None => Step::Fault(DecodeErrKind::MalformedNumEscape),
    }
}

// Behind `&#x`.
fn after_mark(c: char) -> Step
    ensures { Stepped (38 ∷ 35 ∷ 120 ∷ c ∷ []) result }
{
    match c.to_digit(16) {
        Some(digit) => Step::More(State::Hexadecimal(u64::from(digit))),
        None => Step::Fault(DecodeErrKind::MalformedNumEscape),
    }
}

// Behind `&#` and decimal digits.
fn after_decimal(value: u64, c: char) -> Step
    ensures { (digits : List ℕ) → KeepsNumber 10 value digits → Stepped (38 ∷ 35 ∷ (digits ++ c ∷ [])) result }
{
    match c.to_digit(10) {
        Some(digit) => Step::More(State::Decimal(longer(value, 10, digit))),
        None => at_end(value, c),
    }
}

// Behind `&#x` and hexadecimal digits.
fn after_hexadecimal(value: u64, c: char) -> Step
    ensures { (digits : List ℕ) → KeepsNumber 16 value digits → Stepped (38 ∷ 35 ∷ 120 ∷ (digits ++ c ∷ [])) result }
{
    match c.to_digit(16) {
        Some(digit) => Step::More(State::Hexadecimal(longer(value, 16, digit))),
        None => at_end(value, c),
    }
}

// The value with one digit more, or 2^32 in place of a greater one.
fn longer(value: u64, base: u64, digit: u32) -> u64
    requires digit { digit < base }
    requires base { base ≤ 16 }
    ensures { result ≡ min (min value 4294967296 * base + digit) 4294967296 }
{
    (value.min(TOO_GREAT) * base + u64::from(digit)).min(TOO_GREAT)
}

// Behind digits: what a character that is none makes of them.
fn at_end(value: u64, c: char) -> Step
    ensures { Judged value c result }
{
    if c != ';' || value >= TOO_GREAT {
        return Step::Fault(DecodeErrKind::MalformedNumEscape);
    }
    match char::from_u32(value as u32) {
        Some(found) => Step::Whole(found),
        None => Step::Fault(DecodeErrKind::InvalidCharacter),
    }
}
