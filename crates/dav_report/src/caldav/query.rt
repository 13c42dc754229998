ghost use Rattle.std.specs.Prelude.{◌≡◌, IfOk};

use crate::Names;
use crate::caldav::property_filter::copy_range;
use crate::caldav::{ComponentFilter, TimeRange};
use dav_io::NoMemory;
use dav_lock::both;

/// Which calendar resources are asked for, and which of their properties (RFC 4791 section 7.8).
#[derive(Drop)]
pub struct CalendarQuery {
    pub comp_filter: Option<ComponentFilter>,
    pub time_range: Option<TimeRange>,
    pub properties: Names,
}

impl CalendarQuery {
    /// An equal query. It may be refused for want of memory.
    pub fn try_clone(&self) -> Result<Self, NoMemory>
        ensures { IfOk result (λ copy. copy ≡ self.now) }
    {
        let asked = both(copy_filter(&self.comp_filter), copy_range(&self.time_range));
        match both(asked, self.properties.try_clone()) {
            Ok(((comp_filter, time_range), properties)) => Ok(CalendarQuery {
                comp_filter,
                time_range,
                properties,
            }),
            Err(error) => Err(error),
        }
    }
}

fn copy_filter(filter: &Option<ComponentFilter>) -> Result<Option<ComponentFilter>, NoMemory>
    ensures { IfOk result (λ copy. copy ≡ filter.now) }
{
    match filter {
        None => Ok(None),
        Some(filter) => Ok(Some(filter.try_clone()?)),
    }
}

/// A report that a calendar server is asked for.
#[derive(Drop)]
pub enum CalDavReportType {
    CalendarQuery(CalendarQuery),
    /// The resources at these links (RFC 4791 section 7.9).
    CalendarMultiget { hrefs: Names },
    /// When the owner is busy (RFC 4791 section 7.10).
    FreeBusyQuery { time_range: TimeRange },
}

impl CalDavReportType {
    /// An equal report. It may be refused for want of memory.
    pub fn try_clone(&self) -> Result<Self, NoMemory>
        ensures { IfOk result (λ copy. copy ≡ self.now) }
    {
        match self {
            CalDavReportType::CalendarQuery(query) => {
                Ok(CalDavReportType::CalendarQuery(query.try_clone()?))
            }
            CalDavReportType::CalendarMultiget { hrefs } => {
                Ok(CalDavReportType::CalendarMultiget {
                    hrefs: hrefs.try_clone()?,
                })
            }
            CalDavReportType::FreeBusyQuery { time_range } => {
                Ok(CalDavReportType::FreeBusyQuery {
                    time_range: time_range.try_clone()?,
                })
            }
        }
    }
}
