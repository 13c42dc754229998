// What of a file is sent.
ghost use Rattle.std.specs.Prelude.{◌≡◌, ℕ, None, IfOk};
ghost use Rattle.dav_model.specs.Conditions.{ranges_are_heard as ranges_heard, strong};
ghost use Rattle.dav_model.specs.Head.{sent_of, sent_ranges};
ghost use Rattle.dav_model.specs.Slices.{AreWithin};
ghost use Rattle.dav_get.specs.Table.{stood_by, first_place as the_first_place};
ghost use Rattle.dav_get.specs.Prepared.{IsSentOf};

use crate::ranges::slices;
use dav_conditions::{first_value, if_match, ranges_are_heard};
use dav_core::{DavMetaData, DavMethod, ETag, FileTime};
use dav_io::NoMemory;
use dav_model::{Ranges, Sent};
use http::HeaderMap;
use http::header::{IF_RANGE, RANGE};
use std::alloc::Global;

// What of a file is sent for its ranges.
fn of_ranges(ranges: Ranges) -> Sent
    ensures sent { result ≡ sent_ranges ranges }
    ensures within { (len : ℕ) → AreWithin len ranges → IsSentOf len result }
{
    match ranges {
        Ranges::Whole => Sent::All,
        Ranges::Unsatisfiable => Sent::Unsatisfied,
        Ranges::Parts(parts) => match parts.as_slice() {
            [] => Sent::All,
            [part] => Sent::One(*part),
            _ => Sent::Several(parts),
        },
    }
}

/// What of a file is sent in answer to these fields. A precondition that fails decides; otherwise the ranges, where
/// they are heard. Where there are none, nobody asks whether they would be.
#[tactic(auto, using(crate::proofs::NoRanges::none_asked))]
pub(crate) fn decide<M: DavMetaData>(
    alloc: Global,
    method: DavMethod,
    fields: &HeaderMap,
    meta: &M,
) -> Result<Sent, NoMemory>
    ensures sent { IfOk result (λ sent. sent ≡ sent_of method fields.now (stood_by (M.info meta.now) None)) }
    ensures within { IfOk result (IsSentOf (M.info meta.now).len) }
{
    if let Some(status) = if_match(alloc, method, fields, Some(meta))? {
        return Ok(Sent::Alone(status.as_u16()));
    }
    let range = first_value(fields, &RANGE);
    if range.is_none() {
        return Ok(Sent::All);
    }
    if !are_heard(alloc, fields, meta)? {
        return Ok(Sent::All);
    }
    let ranges = slices(alloc, range, meta.len())?;
    Ok(of_ranges(ranges))
}

// Whether the ranges are heard. The tag is made only where a field is compared with it.
fn are_heard<M: DavMetaData>(alloc: Global, fields: &HeaderMap, meta: &M) -> Result<bool, NoMemory>
    ensures { IfOk result (λ heard. heard ≡ ranges_heard fields.now (strong (M.info meta.now).tag)
        (M.info meta.now).modified) }
{
    if first_value(fields, &IF_RANGE).is_none() {
        return Ok(true);
    }
    let tag = ETag::from_meta(alloc, meta)?;
    ranges_are_heard(alloc, fields, tag.as_ref(), modified(meta))
}

// The time of the last change, where it is known.
fn modified<M: DavMetaData>(meta: &M) -> Option<FileTime>
    ensures { result ≡ (M.info meta.now).modified }
{
    match meta.modified() {
        Ok(time) => Some(time),
        Err(_) => None,
    }
}

/// The place to which the file is moved before the first part is given.
pub(crate) fn first_place(sent: &Sent) -> Option<u64>
    ensures { result ≡ the_first_place sent.now }
{
    match sent {
        Sent::All | Sent::Alone(_) | Sent::Unsatisfied => None,
        Sent::One(part) => Some(part.start),
        Sent::Several(parts) => match parts.as_slice().first() {
            Some(part) => Some(part.start),
            None => None,
        },
    }
}
