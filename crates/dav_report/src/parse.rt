//! The report that an element tree asks for.
ghost use Rattle.std.specs.Prelude.{◌≡◌};
ghost use Rattle.std.specs.Str.{bytes_eq};
ghost use Rattle.dav_report.specs.Calendars.{calendar_report};
ghost use Rattle.dav_report.specs.AddressBooks.{address_report};
ghost use Rattle.dav_report.specs.Requests.{Answers};

use crate::ReportError;
use crate::address_parts::read_address_query;
use crate::caldav::CalDavReportType;
use crate::calendar_parts::{read_calendar_query, read_free_busy};
use crate::carddav::CardDavReportType;
use crate::filter_parts::read_links;
use dav_lock::Element;
use std::alloc::Global;

/// Whether the element has this name. Its namespace isn't looked at.
fn is_named(element: &Element, name: &str) -> bool
    ensures { result ≡ bytes_eq element.now.name name.now }
{
    element.name.as_str() == name
}

/// The calendar report that this element asks for (RFC 4791 sections 7.8 to 7.10). It is `BadRequest` for an element of
/// another name, for a free-busy query without a range, and for a filter at any depth that has no name, or a
/// `time-range` with a `start` or an `end` that is no moment (RFC 5545 sections 3.3.4 and 3.3.5). The range of a
/// free-busy query isn't judged.
pub fn parse_calendar_report(alloc: Global, root: &Element) -> Result<CalDavReportType, ReportError>
    ensures { Answers (calendar_report root.now) result }
{
    if is_named(root, "calendar-query") {
        return match read_calendar_query(alloc, &root.children)? {
            Some(query) => Ok(CalDavReportType::CalendarQuery(query)),
            None => Err(ReportError::BadRequest),
        };
    }
    if is_named(root, "calendar-multiget") {
        let hrefs = read_links(alloc, &root.children)?;
        return Ok(CalDavReportType::CalendarMultiget { hrefs });
    }
    if is_named(root, "free-busy-query") {
        return match read_free_busy(&root.children)? {
            Some(time_range) => Ok(CalDavReportType::FreeBusyQuery { time_range }),
            None => Err(ReportError::BadRequest),
        };
    }
    Err(ReportError::BadRequest)
}

/// The address book report that this element asks for (RFC 6352 sections 8.6 and 8.7). It is `BadRequest` for an
/// element of another name, and for a filter without a name.
pub fn parse_addressbook_report(
    alloc: Global,
    root: &Element,
) -> Result<CardDavReportType, ReportError>
    ensures { Answers (address_report root.now) result }
{
    if is_named(root, "addressbook-query") {
        return match read_address_query(alloc, &root.children)? {
            Some(query) => Ok(CardDavReportType::AddressBookQuery(query)),
            None => Err(ReportError::BadRequest),
        };
    }
    if is_named(root, "addressbook-multiget") {
        let hrefs = read_links(alloc, &root.children)?;
        return Ok(CardDavReportType::AddressBookMultiget { hrefs });
    }
    Err(ReportError::BadRequest)
}
