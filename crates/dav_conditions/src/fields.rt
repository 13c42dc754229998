// The values of the fields that carry preconditions.
ghost use Rattle.std.specs.Prelude.{◌≡◌, IfOk, option_copied};
ghost use Rattle.std.specs.List.{list_any};
ghost use Rattle.http_header.specs.HeaderMap.{keys};
ghost use Rattle.dav_model.specs.Conditions as conditions;
ghost use Rattle.dav_conditions.specs.Names.{begins_with_if as the_begins_with_if, has_refusing_name as the_has_refusing_name, only};

use dav_core::{EtagList, date_secs};
use dav_io::{NoMemory, Octets};
use http::HeaderMap;
use http::header::HeaderName;
use std::alloc::Global;

// Whether a name begins as those of preconditions do.
fn begins_with_if(name: &HeaderName) -> bool
    ensures { result ≡ the_begins_with_if name.now }
{
    match name.as_str().as_bytes() {
        [a, b, c, ..] => *a == b'i' && *b == b'f' && *c == b'-',
        _ => false,
    }
}

// Whether a precondition may be among fields. Most requests have none, and one look at the names tells so.
pub fn may_hold_conditions(fields: &HeaderMap) -> bool
    ensures { result ≡ list_any the_begins_with_if (keys fields.now) }
{
    fields.keys().any(|name| begins_with_if(name))
}

// Whether a name is as long as those of preconditions that refuse: `if-match` and `if-unmodified-since`.
fn has_refusing_name(name: &HeaderName) -> bool
    ensures { result ≡ the_has_refusing_name name.now }
{
    let len = name.as_str().len();
    if len != 8 && len != 19 {
        return false;
    }
    begins_with_if(name)
}

/// Whether a precondition that refuses may be among fields. Of requests that spare a client what it holds none is.
pub fn may_refuse(fields: &HeaderMap) -> bool
    ensures { result ≡ list_any the_has_refusing_name (keys fields.now) }
{
    fields.keys().any(|name| has_refusing_name(name))
}

/// The first value of a name.
pub fn first_value<'a>(fields: &'a HeaderMap, name: &HeaderName) -> Option<&'a [u8]>
    ensures { option_copied result ≡ conditions.first_bytes fields.now name.now }
{
    match fields.get(name) {
        Some(value) => Some(value.as_bytes()),
        None => None,
    }
}

/// The value of a name that has one alone.
pub fn only_value<'a>(fields: &'a HeaderMap, name: &HeaderName) -> Option<&'a [u8]>
    ensures { option_copied result ≡ only (conditions.values_of fields.now name.now) }
{
    let mut values = fields.get_all(name).iter();
    let Some(first) = values.next() else {
        return None;
    };
    if values.next().is_some() {
        return None;
    }
    Some(first.as_bytes())
}

// All values of a name, with a comma and a space between them.
fn all_values(alloc: Global, fields: &HeaderMap, name: &HeaderName) -> Result<Octets, NoMemory>
    ensures { IfOk result (λ text. text ≡ conditions.joined (conditions.values_of fields.now name.now)) }
{
    let mut text = Vec::new(alloc);
    let mut values = fields.get_all(name).iter();
    if let Some(first) = values.next() {
        text.extend_from_slice(first.as_bytes())?;
    }
    while let Some(value) = values.next() {
        text.extend_from_slice(b", ")?;
        text.extend_from_slice(value.as_bytes())?;
    }
    Ok(Octets::new(text))
}

// The list of tags that the values of a name are. Where there is none, nothing is read.
#[tactic(auto, using(crate::proofs::OwnTag::no_list))]
pub fn list_in(
    alloc: Global,
    fields: &HeaderMap,
    name: &HeaderName,
) -> Result<Option<EtagList>, NoMemory>
    ensures { IfOk result (λ list. list ≡ conditions.list_in fields.now name.now) }
{
    let text = all_values(alloc, fields, name)?;
    if text.as_slice().is_empty() {
        return Ok(None);
    }
    EtagList::parse(alloc, text.as_slice())
}

// The date that the first value of a name is, in whole seconds since 1970.
pub fn date_in(fields: &HeaderMap, name: &HeaderName) -> Option<u64>
    ensures { result ≡ conditions.date_in fields.now name.now }
{
    match first_value(fields, name) {
        Some(value) => date_secs(value),
        None => None,
    }
}
