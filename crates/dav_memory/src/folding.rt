ghost use Rattle.std.specs.Prelude.{◌≡◌, IfOk, nat_eq};
ghost use Rattle.std.specs.Hash as fed;
ghost use Rattle.std.specs.Hash.{items_Alike};
ghost use Rattle.std.specs.Cmp.Lexicographic.{pointwise, lists_equiv, nat_list_eq_equiv};
ghost use Rattle.std.specs.Cmp.{partial_equiv_from_equiv};
ghost use Rattle.std.specs.Cmp.Rules.{hashing};
ghost use Rattle.std.proofs.Common.{rules};
ghost use Rattle.dav_memory.specs.Trees.{fold_name, fold_path};

use caseless::default_case_fold_str;
use dav_core::FsPath;
use dav_io::{NoMemory, Text};
use std::alloc::Global;
use std::hash::{Hash, Hasher};
use std::marker::Model;

/// A path whose names are folded. A contract sees it as the list of its names' bytes.
#[derive(Drop)]
pub struct FoldedPath {
    names: Vec<Text>,
}

impl Model for FoldedPath {
    ghost use Rattle.std.specs.Prelude.{ℕ, List};

    ghost Value = { List (List ℕ) };

    ghost view = { λ p. p.names.items };
}

impl FoldedPath {
    /// The names, from the root on.
    pub fn as_slice(&self) -> &[Text]
        ensures { result.now ≡ self.now }
    {
        self.names.as_slice()
    }
}

impl PartialEq for FoldedPath {
    ghost eq = { pointwise (pointwise nat_eq) };

    ghost laws = { partial_equiv_from_equiv (lists_equiv nat_list_eq_equiv) };

    fn eq(&self, other: &FoldedPath) -> bool {
        self.as_slice() == other.as_slice()
    }
}

impl Eq for FoldedPath {
    ghost laws = { lists_equiv nat_list_eq_equiv };
}

impl Hash for FoldedPath {
    ghost hash_input = { fed.slice (fed.slice fed.u8) };

    ghost respects_eq = { (items_Alike {F = fed.slice fed.u8} (record { fed = Prim.search (hashing, rules) })).fed };

    fn hash<H: Hasher>(&self, state: &mut H) {
        self.as_slice().hash(state);
    }
}

/// Folds a name by Unicode's default full case folding. Of ASCII that is lower case, byte by byte.
#[tactic(auto, unfolding(crate::specs::Trees::fold_name))]
pub fn fold_text(alloc: Global, name: &Text) -> Result<Text, NoMemory>
    ensures { IfOk result (λ folded. folded ≡ fold_name name.now) }
{
    if name.as_str().is_ascii() {
        return Ok(Text::new(name.as_str().to_ascii_lowercase(alloc)?));
    }
    Ok(Text::new(default_case_fold_str(alloc, name.as_str())?))
}

/// Folds each name of a path by Unicode's default full case folding.
#[tactic(auto, unfolding(crate::specs::Trees::fold_path))]
pub fn fold(alloc: Global, path: &FsPath) -> Result<FoldedPath, NoMemory>
    ensures { IfOk result (λ folded. folded ≡ fold_path path.now) }
{
    let mut folded = Vec::new(alloc);
    for name in path.as_slice() {
        folded.push(fold_text(alloc, name)?)?;
    }
    Ok(FoldedPath { names: folded })
}
