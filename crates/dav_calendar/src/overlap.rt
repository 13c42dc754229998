//! When a component is (a profile of RFC 4791 section 9.9).
ghost use Rattle.std.specs.Prelude.{◌≡◌, ◌≤◌, ◌^◌, ◌≤ℤ◌, IfSome, neg_ℤ, option_copied, pos};
ghost use Rattle.dav_calendar.specs.TreeLists.{told_by};
ghost use Rattle.dav_calendar.specs.Overlaps as form;

use crate::component::Component;
use crate::durations::read_duration;
use crate::moments::{Moment, read_moment};
use crate::property::Property;

impl Moment {
    /// Whether it is in a range of seconds since 1970-01-01 in UTC, at its start or after it and before its end (RFC 4791
    /// section 9.9). A missing start is before every moment, a missing end after every moment.
    pub fn is_within(self, start: Option<i64>, end: Option<i64>) -> bool
        ensures { result ≡ form.is_within self.seconds start end }
    {
        starts_by(start, self.seconds) && ends_after(end, self.seconds)
    }
}

/// The value of the first property of this name.
fn first_value<'a>(name: &str, properties: &'a [Property]) -> Option<&'a [u8]>
    ensures { option_copied result ≡ form.first_value name.now properties.now }
{
    for property in properties {
        if property.name.as_str() == name {
            return Some(property.value.as_slice());
        }
    }
    None
}

/// Whether a range starts before a moment.
fn starts_before(start: Option<i64>, at: i64) -> bool
    ensures { result ≡ form.starts_before start at }
{
    match start {
        Some(start) => start < at,
        None => true,
    }
}

/// Whether a range starts before a moment, or at it.
fn starts_by(start: Option<i64>, at: i64) -> bool
    ensures { result ≡ form.starts_by start at }
{
    match start {
        Some(start) => start <= at,
        None => true,
    }
}

/// Whether a range ends after a moment.
fn ends_after(end: Option<i64>, at: i64) -> bool
    ensures { result ≡ form.ends_after end at }
{
    match end {
        Some(end) => at < end,
        None => true,
    }
}

/// Whether a range starts early enough for what begins at a moment and lasts so long, or a day where it is a day.
fn starts_lasting(start: Option<i64>, from: Moment, lasts: Option<u64>) -> bool
    requires from { (neg_ℤ (pos (2 ^ 51)) ≤ℤ from.seconds) × (from.seconds ≤ℤ pos (2 ^ 51)) }
    requires lasts { IfSome lasts (λ n. n ≤ 2 ^ 61) }
    ensures { result ≡ form.starts_lasting start from lasts }
{
    match lasts {
        Some(lasts) => {
            if lasts == 0 {
                starts_by(start, from.seconds)
            } else {
                starts_before(start, from.seconds + lasts as i64)
            }
        }
        None => {
            if from.is_day {
                starts_before(start, from.seconds + 86_400)
            } else {
                starts_by(start, from.seconds)
            }
        }
    }
}

/// Whether what begins and ends so, or lasts so long, is at some time of a range.
fn overlaps_from(
    is_event: bool,
    start: Option<i64>,
    end: Option<i64>,
    from: Option<Moment>,
    until: Option<Moment>,
    lasts: Option<u64>,
) -> bool
    requires from { IfSome from (λ m. (neg_ℤ (pos (2 ^ 51)) ≤ℤ m.seconds) × (m.seconds ≤ℤ pos (2 ^ 51))) }
    requires lasts { IfSome lasts (λ n. n ≤ 2 ^ 61) }
    ensures { result ≡ form.overlaps_from is_event start end from until lasts }
{
    let Some(from) = from else {
        return !is_event;
    };
    let starts = match until {
        Some(until) => starts_before(start, until.seconds),
        None => starts_lasting(start, from, lasts),
    };
    starts && ends_after(end, from.seconds)
}

/// The moment of the first property of this name, where it can be read.
fn first_moment(name: &str, properties: &[Property]) -> Option<Moment>
    ensures value { result ≡ form.first_moment name.now properties.now }
    ensures small { IfSome result (λ m. (neg_ℤ (pos (2 ^ 51)) ≤ℤ m.seconds) × (m.seconds ≤ℤ pos (2 ^ 51))) }
{
    match first_value(name, properties) {
        Some(text) => read_moment(text),
        None => None,
    }
}

/// The seconds of the first duration, where it can be read.
fn lasts_in(properties: &[Property]) -> Option<u64>
    ensures value { result ≡ form.lasts properties.now }
    ensures small { IfSome result (λ n. n ≤ 2 ^ 61) }
{
    match first_value("DURATION", properties) {
        Some(text) => read_duration(text),
        None => None,
    }
}

/// Whether a component is at some time of a range of seconds since 1970-01-01 in UTC (a profile of RFC 4791 section 9.9).
/// A missing start is before every moment, a missing end after every moment.
///
/// The first property of each name counts, and one that can't be read counts as missing. A component that has a `DTEND`
/// ends there; else it lasts as its `DURATION` says; else a day where its `DTSTART` is a day, and no time where it is a
/// time of a day. What lasts no time is in a range from its start on. Without a `DTSTART` a `VEVENT` is at no time, and
/// any other component at every time. Names are compared as they stand.
///
/// What the section has beyond that isn't looked at: `DUE`, `COMPLETED` and `CREATED` of a `VTODO`, the periods of a
/// `FREEBUSY`, triggers of alarms, time zones, recurrence, and that a `VJOURNAL` or `VFREEBUSY` without a `DTSTART` is at
/// no time.
pub fn overlaps(component: &Component, start: Option<i64>, end: Option<i64>) -> bool
    ensures { result ≡ form.overlaps (told_by component.now) start end }
{
    let properties = component.properties.as_slice();
    let from = first_moment("DTSTART", properties);
    let until = first_moment("DTEND", properties);
    let lasts = lasts_in(properties);
    overlaps_from(
        component.name.as_str() == "VEVENT",
        start,
        end,
        from,
        until,
        lasts,
    )
}
