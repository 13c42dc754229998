ghost use Rattle.std.specs.Prelude.{◌≡◌, IfOk};

use crate::filters::copy_match;
use crate::{ParameterFilters, TextMatch};
use dav_io::{Items, NoMemory, Text, TryClone};
use dav_lock::{both, copy_text};

/// The times between two dates, in the form of RFC 4791 section 9.9. A side that isn't given is open.
#[derive(Drop)]
pub struct TimeRange {
    pub start: Option<Text>,
    pub end: Option<Text>,
}

impl TimeRange {
    /// An equal range. It may be refused for want of memory.
    pub fn try_clone(&self) -> Result<Self, NoMemory>
        ensures { IfOk result (λ copy. copy ≡ self.now) }
    {
        match both(copy_text(&self.start), copy_text(&self.end)) {
            Ok((start, end)) => Ok(TimeRange { start, end }),
            Err(error) => Err(error),
        }
    }
}

/// A copy of a range, where there is one.
pub(crate) fn copy_range(range: &Option<TimeRange>) -> Result<Option<TimeRange>, NoMemory>
    ensures { IfOk result (λ copy. copy ≡ range.now) }
{
    match range {
        None => Ok(None),
        Some(range) => Ok(Some(range.try_clone()?)),
    }
}

/// What is asked of a property of a calendar component (RFC 4791 section 9.7.2).
#[derive(Drop)]
pub struct PropertyFilter {
    pub name: Text,
    /// The property must not be there.
    pub is_not_defined: bool,
    pub text_match: Option<TextMatch>,
    pub time_range: Option<TimeRange>,
    pub param_filters: ParameterFilters,
}

impl TryClone for PropertyFilter {
    fn try_clone(&self) -> Result<Self, NoMemory>
        ensures { IfOk result (λ copy. copy ≡ self.now) }
    {
        let named = both(self.name.try_clone(), self.param_filters.try_clone());
        let asked = both(copy_match(&self.text_match), copy_range(&self.time_range));
        match both(named, asked) {
            Ok(((name, param_filters), (text_match, time_range))) => Ok(PropertyFilter {
                name,
                is_not_defined: self.is_not_defined,
                text_match,
                time_range,
                param_filters,
            }),
            Err(error) => Err(error),
        }
    }
}

/// Filters of properties, in their order.
pub type PropertyFilters = Items<PropertyFilter>;
