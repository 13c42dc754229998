ghost use Rattle.std.specs.Prelude.{◌≡◌, ◌≤◌, ℕ, List, [], ◌∷◌, ◌++◌};
ghost use Rattle.htmlescape.specs.Names.{named};
ghost use Rattle.htmlescape.specs.Running.{Keeps};

use crate::entities::entity;

// The longest name of the table.
const LONGEST: usize = 8;

/// A front of a name: its bytes, while it may still be one of the table.
#[derive(Clone, Copy)]
pub struct ShortName {
    pub bytes: [u8; 8],
    // More than `LONGEST` where no name of the table begins so.
    pub count: usize,
}

impl ShortName {
    pub fn empty() -> Self
        ensures { Keeps result [] }
    {
        ShortName {
            bytes: [0; 8],
            count: 0,
        }
    }

    /// One character more.
    pub fn push(self, c: char) -> Self
        ensures { (name : List ℕ) → Keeps self name → Keeps result (name ++ c ∷ []) }
    {
        let mut bytes = self.bytes;
        if self.count < LONGEST && c.is_ascii() {
            bytes[self.count] = c as u32 as u8;
            return ShortName {
                bytes,
                count: self.count + 1,
            };
        }
        ShortName {
            bytes,
            count: LONGEST + 1,
        }
    }

    /// The character that the name stands for.
    pub fn find(self) -> Option<char>
        ensures { (name : List ℕ) → Keeps self name → result ≡ named name }
    {
        if self.count <= LONGEST {
            entity(&self.bytes[..self.count])
        } else {
            None
        }
    }
}
