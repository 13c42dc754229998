// The name of a member of a directory.
ghost use Rattle.std.specs.Prelude.{◌≡◌, IfOk, true};
ghost use Rattle.dav_core.specs.Path.{is_plain};

use dav_io::{NoMemory, Text};
use std::alloc::Global;
use std::cmp::Ordering;
use std::marker::Model;

/// A plain name. A contract sees it as the list of its bytes.
#[derive(Drop)]
pub struct Name {
    text: Text,
}

impl Model for Name {
    ghost use Rattle.std.specs.Prelude.{ℕ, List, ◌≡◌, true};
    ghost use Rattle.dav_core.specs.Path.{is_plain};

    ghost Value = { List ℕ };

    ghost view = { λ n. n.text };

    ghost invariant = { λ n. is_plain n.text ≡ true };
}

impl Name {
    /// A copy of a plain name.
    pub fn copy(alloc: Global, name: &str) -> Result<Self, NoMemory>
        requires { is_plain name.now ≡ true }
        ensures { IfOk result (λ copy. copy ≡ name.now) }
    {
        Ok(Name {
            text: Text::copy(alloc, name)?,
        })
    }

    /// Its text.
    pub fn as_text(&self) -> &Text
        ensures { result.now ≡ self.now }
    {
        &self.text
    }

    /// Its characters.
    pub fn as_str(&self) -> &str
        ensures value { result.now ≡ self.now }
        ensures plain { is_plain self.now ≡ true }
    {
        self.text.as_str()
    }
}
