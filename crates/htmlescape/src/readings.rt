ghost use Rattle.std.specs.Prelude.{Some};
ghost use Rattle.dav_io.specs.Outside.{Stream};
ghost use Rattle.htmlescape.specs.Characters.{ReadsChar};

use crate::characters::{Chars, CharsError, read_char};
use dav_io::Source;
use std::str;

/// Gives the characters of some bytes, in order.
pub trait Characters {
    /// The stream of the bytes that are left.
    ghost stream: { Self → Stream };

    /// The next one, or `None` at the end.
    fn read(&mut self) -> Option<Result<char, CharsError>>
        ensures { ReadsChar (stream self.old) result (stream self.new) };
}

impl<R: Source> Characters for Chars<R> {
    ghost stream = { λ s. R.stream s.inner };

    fn read(&mut self) -> Option<Result<char, CharsError>> {
        read_char(&mut self.inner)
    }
}

/// The characters of a text. It never fails.
#[derive(Drop)]
pub struct TextChars<'a> {
    pub left: str::Chars<'a>,
}

impl<'a> Characters for TextChars<'a> {
    ghost stream = { λ s. record { bytes = Some s.left.rest.now; faults = 0; asked = 0 } };

    fn read(&mut self) -> Option<Result<char, CharsError>> {
        match self.left.next() {
            Some(c) => Some(Ok(c)),
            None => None,
        }
    }
}
