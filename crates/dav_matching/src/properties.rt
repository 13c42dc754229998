//! Which properties of a component a filter asks for (RFC 4791 section 9.7.2).
ghost use Rattle.std.specs.Prelude.{◌≡◌, IfOk, Some};
ghost use Rattle.std.specs.List.{list_all, list_any};
ghost use Rattle.dav_matching.specs.Properties as form;

use crate::folds::Folds;
use crate::texts::{compares, comparison_of, folded, negated};
use dav_calendar::{Property, read_moment};
use dav_io::{NoMemory, Text};
use dav_report::TextMatch;
use dav_report::caldav::{PropertyFilter, TimeRange};

/// The seconds of a bound of a range. One that can't be read counts as missing.
pub(crate) fn bound(text: &Option<Text>) -> Option<i64>
    ensures { result ≡ form.bound text.now }
{
    let Some(text) = text else {
        return None;
    };
    match read_moment(text.as_slice()) {
        Some(moment) => Some(moment.seconds),
        None => None,
    }
}

/// Whether a value is a moment in a range, where there is one.
fn is_in_range(range: &Option<TimeRange>, value: &Text) -> bool
    ensures { result ≡ form.value_in_range range.now value.now }
{
    let Some(range) = range else {
        return true;
    };
    match read_moment(value.as_slice()) {
        Some(moment) => moment.is_within(bound(&range.start), bound(&range.end)),
        None => false,
    }
}

/// Whether a value, without regard to case, is as asked.
fn text_matches(folds: &mut Folds, asked: &TextMatch, value: &Text) -> Result<bool, NoMemory>
    ensures { IfOk result (λ matched. matched ≡ form.value_passes (Some asked.now) value.now) }
{
    let value = folded(folds.alloc(), value)?;
    let part = folds.folded(&asked.text)?;
    let passed = compares(
        comparison_of(&asked.match_type),
        value.as_str(),
        part.as_str(),
    );
    Ok(negated(asked.negate_condition, passed))
}

/// Whether a property has the name that a filter asks for, ASCII case ignored.
fn is_named(filter: &PropertyFilter, property: &Property) -> bool
    ensures { result ≡ form.is_named filter.now property.now }
{
    property
        .name
        .as_str()
        .eq_ignore_ascii_case(filter.name.as_str())
}

/// Whether one and the same property has the name, a moment in the range and the text that a filter asks for.
fn is_asked(
    folds: &mut Folds,
    filter: &PropertyFilter,
    property: &Property,
) -> Result<bool, NoMemory>
    ensures { IfOk result (λ matched. matched ≡ form.is_asked filter.now property.now) }
{
    if !is_named(filter, property) || !is_in_range(&filter.time_range, &property.value) {
        return Ok(false);
    }
    let Some(asked) = &filter.text_match else {
        return Ok(true);
    };
    text_matches(folds, asked, &property.value)
}

/// Whether some property has the name.
fn some_named(filter: &PropertyFilter, properties: &[Property]) -> bool
    ensures { result ≡ list_any (form.is_named filter.now) properties.now }
{
    for property in properties {
        if is_named(filter, property) {
            return true;
        }
    }
    false
}

/// Whether some property is as asked.
fn some_asked(
    folds: &mut Folds,
    filter: &PropertyFilter,
    properties: &[Property],
) -> Result<bool, NoMemory>
    ensures { IfOk result (λ matched. matched ≡ list_any (form.is_asked filter.now) properties.now) }
{
    for property in properties {
        if is_asked(folds, filter, property)? {
            return Ok(true);
        }
    }
    Ok(false)
}

/// Whether the properties of a component are as a filter asks.
fn filter_matches(
    folds: &mut Folds,
    filter: &PropertyFilter,
    properties: &[Property],
) -> Result<bool, NoMemory>
    ensures { IfOk result (λ matched. matched ≡ form.property_passes properties.now filter.now) }
{
    if filter.is_not_defined {
        return Ok(!some_named(filter, properties));
    }
    some_asked(folds, filter, properties)
}

/// Whether the properties of a component are as each filter asks.
pub(crate) fn properties_match(
    folds: &mut Folds,
    filters: &[PropertyFilter],
    properties: &[Property],
) -> Result<bool, NoMemory>
    ensures { IfOk result (λ matched. matched ≡ list_all (form.property_passes properties.now) filters.now) }
{
    for filter in filters {
        if !filter_matches(folds, filter, properties)? {
            return Ok(false);
        }
    }
    Ok(true)
}
