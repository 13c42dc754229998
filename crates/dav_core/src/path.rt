ghost use Rattle.std.specs.Prelude.{◌≡◌, ◌↔◌, ◌++◌, ◌∷◌, [], ◌==◌, IfOk, IsTrue, OnErr, OnOk, true, nat_eq};
ghost use Rattle.std.specs.Hash as fed;
ghost use Rattle.std.specs.Hash.{items_Alike};
ghost use Rattle.std.specs.Cmp.Lexicographic.{pointwise, lists_equiv, nat_list_eq_equiv};
ghost use Rattle.std.specs.Cmp.{partial_equiv_from_equiv};
ghost use Rattle.std.specs.Cmp.Rules.{hashing};
ghost use Rattle.std.proofs.Common.{rules};
ghost use Rattle.dav_core.specs.Path.{all_plain, is_plain as is_plain_name, parent_of};

use crate::names::copied_names;
use crate::plain_name::is_plain;
use dav_io::{NoMemory, Text};
use std::alloc::Global;
use std::hash::{Hash, Hasher};
use std::marker::Model;

/// A path from a disk's root: a list of plain names. A plain name is a nonempty text without slash and NUL that is
/// neither `.` nor `..`. A contract sees a path as the list of its names' bytes.
#[derive(Drop)]
pub struct FsPath {
    names: Vec<Text>,
}

impl Model for FsPath {
    ghost use Rattle.std.specs.Prelude.{ℕ, List, ◌≡◌, true};
    ghost use Rattle.dav_core.specs.Path.{all_plain};

    ghost Value = { List (List ℕ) };

    ghost view = { λ p. p.names.items };

    ghost invariant = { λ p. all_plain p.names.items ≡ true };
}

impl FsPath {
    /// Whether all names are plain, as `new` needs them.
    pub fn fits(names: &[Text]) -> bool
        ensures { result ≡ all_plain names.now }
    {
        names.iter().all(|name| is_plain(name.as_slice()))
    }

    /// A path of these names, from the root downwards. Each is to be a plain name, as `fits` tells.
    pub fn new(names: Vec<Text>) -> Self
        requires { all_plain names.items ≡ true }
        ensures { result ≡ names.items }
    {
        FsPath { names }
    }

    /// The names, from the root on.
    pub fn as_slice(&self) -> &[Text]
        ensures value { result.now ≡ self.now }
        ensures plain { all_plain self.now ≡ true }
    {
        self.names.as_slice()
    }

    /// What its memory is taken from.
    pub fn allocator(&self) -> Global {
        *self.names.allocator()
    }

    /// The path of the member with this plain name in the directory at this path.
    pub fn child(&self, name: &str) -> Result<Self, NoMemory>
        requires { is_plain_name name.now ≡ true }
        ensures { IfOk result (λ path. path ≡ self.now ++ name.now ∷ []) }
    {
        let alloc = self.allocator();
        let mut names = copied_names(alloc, self.as_slice())?;
        names.push(Text::copy(alloc, name)?)?;
        Ok(FsPath::new(names))
    }

    /// Adds a plain name behind the others. Where memory is refused, nothing changes.
    pub fn push(&mut self, name: &str) -> Result<(), NoMemory>
        requires { is_plain_name name.now ≡ true }
        ensures ok { OnOk result (self.new ≡ self.old ++ name.now ∷ []) }
        ensures err { OnErr result (self.new ≡ self.old) }
    {
        let name = Text::copy(self.allocator(), name)?;
        self.names.push(name)?;
        Ok(())
    }

    /// Takes the last name away, where there is one.
    pub fn pop(&mut self)
        ensures { self.new ≡ parent_of self.old }
    {
        let kept = self.names.len().saturating_sub(1);
        self.names.truncate(kept);
    }

    /// A copy, with memory of its own.
    pub fn try_clone(&self) -> Result<Self, NoMemory>
        ensures copy { IfOk result (λ copy. copy ≡ self.now) }
        ensures plain { all_plain self.now ≡ true }
    {
        let names = copied_names(self.allocator(), self.as_slice())?;
        Ok(FsPath { names })
    }
}

impl PartialEq for FsPath {
    ghost eq = { pointwise (pointwise nat_eq) };

    ghost laws = { partial_equiv_from_equiv (lists_equiv nat_list_eq_equiv) };

    fn eq(&self, other: &FsPath) -> bool {
        self.as_slice() == other.as_slice()
    }
}

impl Eq for FsPath {
    ghost laws = { lists_equiv nat_list_eq_equiv };
}

impl Hash for FsPath {
    ghost hash_input = { fed.slice (fed.slice fed.u8) };

    ghost respects_eq = { (items_Alike {F = fed.slice fed.u8} (record { fed = Prim.search (hashing, rules) })).fed };

    fn hash<H: Hasher>(&self, state: &mut H) {
        self.as_slice().hash(state);
    }
}
