ghost use Rattle.std.specs.Prelude.{◌≡◌, ◌<◌, ◌∷◌, [], true, encode_utf8_all, option_copied, MatchOption};
ghost use Rattle.std.specs.Fmt.{digit_glyph};
ghost use Rattle.htmlescape.specs.Escapes.{minimal_entity, other, escaped, escape_text};
ghost use Rattle.dav_io.specs.Appending.{Appends};

use crate::entities::MINIMAL_ENTITIES;
use dav_io::{Failed, Sink, put_all};

/// Which characters an encoder replaces.
#[derive(Clone, Copy)]
pub enum Alphabet {
    /// The five characters of markup.
    Minimal,
    /// These, and every other character below U+0100 that is no ASCII letter or digit.
    Attribute,
}

/// What stands for a character that is replaced.
#[derive(Clone, Copy)]
pub enum Escape {
    /// An entity of the minimal table.
    Entity(&'static str),
    /// The number of a character below U+0100, by two hexadecimal digits.
    Number(u8),
}

// The minimal entity of a character.
#[tactic(auto, unfolding(crate::specs::Escapes::minimal_entity))]
fn minimal(c: char) -> Option<&'static str>
    ensures { option_copied result ≡ minimal_entity c }
{
    match c {
        '"' => Some(MINIMAL_ENTITIES[0].1),
        '&' => Some(MINIMAL_ENTITIES[1].1),
        '\'' => Some(MINIMAL_ENTITIES[2].1),
        '<' => Some(MINIMAL_ENTITIES[3].1),
        '>' => Some(MINIMAL_ENTITIES[4].1),
        _ => None,
    }
}

impl Alphabet {
    /// What stands for a character, or `None` where it stays.
    pub fn escape(self, c: char) -> Option<Escape>
        ensures { MatchOption result (escaped self c ≡ c ∷ []) (λ e. escape_text e ≡ encode_utf8_all (escaped self c)) }
    {
        match minimal(c) {
            Some(entity) => Some(Escape::Entity(entity)),
            None => self.number(c),
        }
    }

    // The same for a character without a minimal entity.
    fn number(self, c: char) -> Option<Escape>
        ensures { MatchOption result (other self c ≡ c ∷ []) (λ e. escape_text e ≡ encode_utf8_all (other self c)) }
    {
        match self {
            Alphabet::Minimal => None,
            Alphabet::Attribute => {
                if (c as u32) < 256 && !c.is_ascii_alphanumeric() {
                    Some(Escape::Number(c as u32 as u8))
                } else {
                    None
                }
            }
        }
    }
}

// An upper-case hexadecimal digit.
fn digit(value: u8) -> u8
    requires { value < 16 }
    ensures { result ≡ digit_glyph true value }
{
    if value < 10 {
        b'0' + value
    } else {
        b'A' + (value - 10)
    }
}

impl Escape {
    /// Writes it. At `Failed` a front of it is written, and the writer's count of faults rose.
    pub fn put<W: Sink>(self, writer: &mut W) -> Result<(), Failed>
        ensures { Appends (W.stream writer.old) (escape_text self) result (W.stream writer.new) }
    {
        match self {
            Escape::Entity(text) => put_all(writer, text.as_bytes()),
            Escape::Number(code) => {
                let bytes = [b'&', b'#', b'x', digit(code / 16), digit(code % 16), b';'];
                put_all(writer, &bytes)
            }
        }
    }
}
