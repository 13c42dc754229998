ghost use Rattle.std.specs.Prelude.{◌≡◌, ◌<◌, ◌+◌, ℕ, List, []};
ghost use Rattle.std.specs.Result.{OnOk};
ghost use Rattle.htmlescape.specs.Progress.{Running, Took, Ended};

use crate::state::{State, Step};
use crate::{DecodeErr, DecodeErrKind};

/// A decoder of entities, which is given a text a character at a time. It takes no memory.
#[derive(Clone, Copy)]
pub struct Decoder {
    pub state: State,
    /// How many characters were read.
    pub read: usize,
    /// How many of them are before the unfinished entity.
    pub place: usize,
}

impl Decoder {
    pub fn new() -> Self
        ensures running { Running result [] [] }
        ensures read { result.read ≡ 0 }
    {
        Decoder {
            state: State::Text,
            read: 0,
            place: 0,
        }
    }

    /// The next character. Answers the character that an item stands for, where the item is at its end.
    pub fn take(&mut self, c: char) -> Result<Option<char>, DecodeErr>
        requires { self.old.read < usize.MAX }
        ensures read { OnOk result (self.new.read ≡ self.old.read + 1) }
        ensures took { (text value : List ℕ) → Running self.old text value
            → Took self.old.place text value c result self.new }
    {
        match self.state.step(c) {
            Step::More(state) => {
                self.state = state;
                self.read += 1;
                Ok(None)
            }
            Step::Whole(found) => {
                self.state = State::Text;
                self.read += 1;
                self.place = self.read;
                Ok(Some(found))
            }
            Step::Fault(kind) => Err(DecodeErr {
                position: self.place,
                kind,
            }),
        }
    }

    /// The text is at its end.
    pub fn end(&self) -> Result<(), DecodeErr>
        ensures { (text value : List ℕ) → Running self.now text value → Ended text value result }
    {
        match self.state {
            State::Text => Ok(()),
            _ => Err(DecodeErr {
                position: self.place,
                kind: DecodeErrKind::PrematureEnd,
            }),
        }
    }
}
