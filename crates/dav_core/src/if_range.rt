ghost use Rattle.std.specs.Prelude.{◌≡◌, IfOk};
ghost use Rattle.httpdate.specs.Date.{parse_secs};
ghost use Rattle.dav_core.specs.TagReading.{if_range_of};

use crate::ETag;
use dav_io::NoMemory;
use httpdate::HttpDate;
use std::alloc::Global;

/// The value of a field `if-range` (RFC 9110 section 13.1.5).
#[derive(Drop)]
pub enum IfRange {
    Tag(ETag),
    /// A date, in whole seconds since 1970.
    Date(u64),
}

/// The whole seconds since 1970 of a date that a value is. None where it is no date.
pub fn date_secs(value: &[u8]) -> Option<u64>
    ensures { result ≡ parse_secs value.now }
{
    match HttpDate::parse_ascii(value) {
        Ok(date) => Some(date.unix_secs()),
        Err(_) => None,
    }
}

impl IfRange {
    /// The tag or the date that a value is. None exactly where it is neither.
    pub fn parse(alloc: Global, value: &[u8]) -> Result<Option<IfRange>, NoMemory>
        ensures { IfOk result (λ read. read ≡ if_range_of value.now) }
    {
        if let Some(tag) = ETag::parse(alloc, value)? {
            return Ok(Some(IfRange::Tag(tag)));
        }
        match date_secs(value) {
            Some(secs) => Ok(Some(IfRange::Date(secs))),
            None => Ok(None),
        }
    }
}
