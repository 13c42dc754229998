//! How texts are compared (RFC 4791 section 9.7.5 and RFC 6352 section 10.5.4).
ghost use Rattle.std.specs.Prelude.{◌≡◌, ◌↔◌, IfOk, IsTrue};
ghost use Rattle.std.specs.Str.Iter.{HasSubslice};
ghost use Rattle.dav_matching.specs.Texts as form;

use caseless::default_case_fold_str;
use dav_io::{NoMemory, Text};
use std::alloc::Global;

/// What a text has to do with the part that is looked for.
#[derive(Clone, Copy)]
pub(crate) enum Comparison {
    Equals,
    StartsWith,
    EndsWith,
    Contains,
}

/// The comparison that a match type asks for.
pub(crate) fn comparison_of(kind: &Option<Text>) -> Comparison
    ensures { result ≡ form.comparison kind.now }
{
    let Some(kind) = kind else {
        return Comparison::Contains;
    };
    match kind.as_str() {
        "equals" => Comparison::Equals,
        "starts-with" => Comparison::StartsWith,
        "ends-with" => Comparison::EndsWith,
        _ => Comparison::Contains,
    }
}

/// Whether the part stands somewhere in the text.
pub(crate) fn has(text: &str, part: &str) -> bool
    ensures value { result ≡ form.has part.now text.now }
    ensures stands { IsTrue result ↔ HasSubslice text.now part.now }
{
    text.contains(part)
}

/// Whether the text is to the part as the comparison asks.
pub(crate) fn compares(comparison: Comparison, text: &str, part: &str) -> bool
    ensures { result ≡ form.compares comparison part.now text.now }
{
    match comparison {
        Comparison::Equals => text == part,
        Comparison::StartsWith => text.as_bytes().starts_with(part.as_bytes()),
        Comparison::EndsWith => text.as_bytes().ends_with(part.as_bytes()),
        Comparison::Contains => has(text, part),
    }
}

/// The answer, or the other one where that is asked.
pub(crate) fn negated(is_negated: bool, matches: bool) -> bool
    ensures { result ≡ form.negated is_negated matches }
{
    if is_negated { !matches } else { matches }
}

/// The text by Unicode's default full case folding.
pub(crate) fn folded(alloc: Global, text: &Text) -> Result<Text, NoMemory>
    ensures { IfOk result (λ folded. folded ≡ form.folded text.now) }
{
    Ok(Text::new(default_case_fold_str(alloc, text.as_str())?))
}
