ghost use Rattle.std.specs.Prelude.{◌≡◌, IfOk, IsTrue, None, Some, codes, if◌then◌else◌, option_copied, option_map, true};
ghost use Rattle.dav_core.specs.Tags.{equal_weakly};
ghost use Rattle.dav_model.specs.Conditions as conditions;
ghost use Rattle.dav_conditions.specs.Standing.{stands, tag_of, time_of};

use crate::fields::{date_in, first_value, list_in, may_hold_conditions, may_refuse, only_value};
use crate::standing::{is_at, is_own, is_unmodified, matches_strongly, matches_weakly};
use dav_core::{DavMetaData, DavMethod, ETag, FileTime, IfRange};
use dav_io::NoMemory;
use http::header::{
    HeaderName, IF_MATCH, IF_MODIFIED_SINCE, IF_NONE_MATCH, IF_RANGE, IF_UNMODIFIED_SINCE,
};
use http::{HeaderMap, StatusCode};
use std::alloc::Global;

// Whether `if-match`, or without it `if-unmodified-since`, is false.
#[tactic(auto, using(crate::proofs::Unconditional::unrefused))]
fn is_refused<M: DavMetaData>(
    alloc: Global,
    fields: &HeaderMap,
    there: Option<&M>,
) -> Result<bool, NoMemory>
    ensures { let info = option_map (λ m. M.info m.now) there.entry in IfOk result (λ refused.
        refused ≡ conditions.is_refused (conditions.list_in fields.now (codes "if-match"))
        (conditions.date_in fields.now (codes "if-unmodified-since")) (stands info) (tag_of info) (time_of info)) }
{
    if !may_refuse(fields) {
        return Ok(false);
    }
    if let Some(list) = list_in(alloc, fields, &IF_MATCH)? {
        return Ok(!matches_strongly(there, &list));
    }
    match date_in(fields, &IF_UNMODIFIED_SINCE) {
        Some(date) => Ok(!(there.is_some() && is_unmodified(there, date))),
        None => Ok(false),
    }
}

/// Whether a method reads: GET and HEAD do.
pub fn reads(method: DavMethod) -> bool
    ensures { result ≡ conditions.reads method }
{
    matches!(method, DavMethod::Get | DavMethod::Head)
}

// Whether the tags of `if-none-match` match what stands, where they are a list. A client that asks for what it holds
// names one tag alone, and where that is its own no list is made.
fn none_match<M: DavMetaData>(
    alloc: Global,
    fields: &HeaderMap,
    there: Option<&M>,
) -> Result<Option<bool>, NoMemory>
    ensures { let info = option_map (λ m. M.info m.now) there.entry in IfOk result (λ matched. matched
        ≡ option_map (conditions.matches equal_weakly (stands info) (tag_of info))
        (conditions.list_in fields.now (codes "if-none-match"))) }
{
    if is_only_own(fields, &IF_NONE_MATCH, there) {
        return Ok(Some(true));
    }
    match list_in(alloc, fields, &IF_NONE_MATCH)? {
        Some(list) => Ok(Some(matches_weakly(there, &list))),
        None => Ok(None),
    }
}

// Whether the only value of a name is the tag of what stands.
#[tactic(auto, using(crate::proofs::OwnTag::joined_only))]
fn is_only_own<M: DavMetaData>(fields: &HeaderMap, name: &HeaderName, there: Option<&M>) -> bool
    ensures { let info = option_map (λ m. M.info m.now) there.entry in IsTrue result
        → option_map (conditions.matches equal_weakly (stands info) (tag_of info))
        (conditions.list_in fields.now name.now) ≡ Some true }
{
    match only_value(fields, name) {
        Some(value) => is_own(there, value),
        None => false,
    }
}

// The status where the tags of `if-none-match` match what stands, or where they don't.
fn status_matched(method: DavMethod, matched: bool) -> Option<StatusCode>
    ensures { result ≡ (if matched then Some (if conditions.reads method then 304 else 412) else None) }
{
    if !matched {
        return None;
    }
    if reads(method) {
        return Some(StatusCode::NOT_MODIFIED);
    }
    Some(StatusCode::PRECONDITION_FAILED)
}

// The status where `if-none-match`, or without it `if-modified-since` of a method that reads, is false.
#[tactic(auto, using(crate::proofs::OwnTag::by_match))]
fn repeated<M: DavMetaData>(
    alloc: Global,
    method: DavMethod,
    fields: &HeaderMap,
    there: Option<&M>,
) -> Result<Option<StatusCode>, NoMemory>
    ensures { let info = option_map (λ m. M.info m.now) there.entry in IfOk result (λ status.
        status ≡ conditions.repeated method (conditions.list_in fields.now (codes "if-none-match"))
        (conditions.date_in fields.now (codes "if-modified-since")) (stands info) (tag_of info) (time_of info)) }
{
    if let Some(matched) = none_match(alloc, fields, there)? {
        return Ok(status_matched(method, matched));
    }
    match date_in(fields, &IF_MODIFIED_SINCE) {
        Some(date) if reads(method) && is_unmodified(there, date) => {
            Ok(Some(StatusCode::NOT_MODIFIED))
        }
        _ => Ok(None),
    }
}

/// The status that the preconditions of a request give in place of its method's own answer (RFC 9110 section 13.2.2):
/// 304, 412 or none. `meta` is that of what stands at the path, if anything does.
///
/// A field whose value isn't readable counts as absent. Of `if-match` and `if-none-match` all values count, of the two
/// dates the first. Where the time of the last change is unknown, `if-unmodified-since` gives 412.
#[tactic(auto, using(crate::proofs::TagsCompared::conditions_by_standing, crate::proofs::Unconditional::unconditional))]
pub fn if_match<M: DavMetaData>(
    alloc: Global,
    method: DavMethod,
    fields: &HeaderMap,
    meta: Option<&M>,
) -> Result<Option<StatusCode>, NoMemory>
    ensures { IfOk result (λ status. status ≡ conditions.condition_of method fields.now
        (option_map (λ m. M.info m.now) meta.entry)) }
{
    if !may_hold_conditions(fields) {
        return Ok(None);
    }
    if is_refused(alloc, fields, meta)? {
        return Ok(Some(StatusCode::PRECONDITION_FAILED));
    }
    repeated(alloc, method, fields, meta)
}

/// Whether a value of `if-range` matches a tag and the time of the last change (RFC 9110 section 13.1.5): a tag by
/// strong comparison, a date where it is the time in whole seconds. That section wants of a date that it is a strong
/// validator, too; this isn't asked, since no clock is, so a file that changes twice in one second is one file to a
/// date.
pub fn ifrange_match(r: &IfRange, tag: Option<&ETag>, modified: Option<FileTime>) -> bool
    ensures { result ≡ conditions.range_matches r.now (option_copied tag.entry) modified }
{
    match r {
        IfRange::Tag(wanted) => match tag {
            Some(tag) => wanted.strong_eq(tag),
            None => false,
        },
        IfRange::Date(date) => match modified {
            Some(time) => is_at(time.secs, *date),
            None => false,
        },
    }
}

/// Whether the ranges of a request are to be heard, by its first field `if-range`: where there is none, and where it
/// matches. A value that isn't readable doesn't match.
pub fn ranges_are_heard(
    alloc: Global,
    fields: &HeaderMap,
    tag: Option<&ETag>,
    modified: Option<FileTime>,
) -> Result<bool, NoMemory>
    ensures { IfOk result (λ heard. heard ≡ conditions.ranges_are_heard fields.now (option_copied tag.entry) modified) }
{
    let Some(value) = first_value(fields, &IF_RANGE) else {
        return Ok(true);
    };
    match IfRange::parse(alloc, value)? {
        Some(r) => Ok(ifrange_match(&r, tag, modified)),
        None => Ok(false),
    }
}
