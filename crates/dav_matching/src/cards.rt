//! Which vCards a filter matches (RFC 6352 section 10.5).
ghost use Rattle.std.specs.Prelude.{◌≡◌, IfOk, Some, false, option_copied};
ghost use Rattle.std.specs.Option.{option_map_or};
ghost use Rattle.dav_report.specs.Lines.{value_of as the_value_of};
ghost use Rattle.dav_matching.specs.Cards as form;
ghost use Rattle.dav_matching.specs.Texts.{compares as the_compares};

use crate::folds::Folds;
use crate::texts::{Comparison, compares, comparison_of, folded, has, negated};
use dav_io::{NoMemory, Text};
use dav_report::TextMatch;
use dav_report::carddav::PropertyFilter;
use std::alloc::Global;

/// What follows the first colon of a line.
fn value_of(line: &str) -> Option<&str>
    ensures { option_copied result ≡ the_value_of line.now }
{
    match line.split_once(':') {
        Some((_, value)) => Some(value),
        None => None,
    }
}

/// Whether a value stands behind the first colon of a line that is to the part as the comparison asks.
fn line_has(comparison: Comparison, line: &str, part: &str) -> bool
    ensures { result ≡ option_map_or (the_compares comparison part.now) (the_value_of line.now) false }
{
    match value_of(line) {
        Some(value) => compares(comparison, value, part),
        None => false,
    }
}

/// Whether some line has such a value.
fn some_line_has(comparison: Comparison, text: &str, part: &str) -> bool
    ensures { result ≡ form.some_value (the_compares comparison part.now) text.now }
{
    for line in text.lines() {
        if line_has(comparison, line, part) {
            return true;
        }
    }
    false
}

/// Whether the text has the part, or a line of it a value that is as the comparison asks.
fn card_compares(comparison: Comparison, text: &str, part: &str) -> bool
    ensures { result ≡ form.card_compares comparison part.now text.now }
{
    match comparison {
        Comparison::Contains => has(text, part),
        Comparison::Equals => some_line_has(Comparison::Equals, text, part),
        Comparison::StartsWith => some_line_has(Comparison::StartsWith, text, part),
        Comparison::EndsWith => some_line_has(Comparison::EndsWith, text, part),
    }
}

/// Whether the text of a vCard, without regard to case, is as asked.
fn text_matches(folds: &mut Folds, asked: &TextMatch, text: &Text) -> Result<bool, NoMemory>
    ensures { IfOk result (λ matches. matches ≡ form.text_passes (Some asked.now) text.now) }
{
    let text = folded(folds.alloc(), text)?;
    let part = folds.folded(&asked.text)?;
    let passed = card_compares(
        comparison_of(&asked.match_type),
        text.as_str(),
        part.as_str(),
    );
    Ok(negated(asked.negate_condition, passed))
}

/// The name in ASCII capitals, and a colon behind it.
fn defining(alloc: Global, name: &Text) -> Result<Text, NoMemory>
    ensures { IfOk result (λ text. text ≡ form.defining name.now) }
{
    let mut text = name.as_str().to_ascii_uppercase(alloc)?;
    text.push_str(":")?;
    Ok(Text::new(text))
}

/// Whether a filter of properties matches the text of a vCard (RFC 6352 section 10.5.1). Every text matches where there
/// is no filter, or where it neither asks for a text nor that the property isn't there.
///
/// `is-not-defined` asks that the text hasn't the name in ASCII capitals directly followed by a colon. A text match is
/// judged over the whole text, by Unicode's default case folding: `equals`, `starts-with` and `ends-with` over what
/// follows the first colon of each line, any other match type over the text. Names, parameters and the collation aren't
/// looked at.
pub fn address_matches(
    folds: &mut Folds,
    filter: &Option<PropertyFilter>,
    text: &Text,
) -> Result<bool, NoMemory>
    ensures { IfOk result (λ matches. matches ≡ form.address_passes filter.now text.now) }
{
    let Some(filter) = filter else {
        return Ok(true);
    };
    if filter.is_not_defined {
        let defined = defining(folds.alloc(), &filter.name)?;
        return Ok(!has(text.as_str(), defined.as_str()));
    }
    let Some(text_match) = &filter.text_match else {
        return Ok(true);
    };
    text_matches(folds, text_match, text)
}
