//! Calendar reports.
ghost use Rattle.dav_report.specs.Calendars.{calendar_report as report_asked};
ghost use Rattle.dav_selection.specs.Selection.{calendar_selection};
ghost use Rattle.dav_selection.specs.Shown.{Selects};

use crate::following::follow;
use crate::walking::{query_dir, report_of};
use crate::wanted::Wanted;
use dav_core::DavPath;
use dav_lock::Element;
use dav_report::caldav::CalDavReportType;
use dav_report::{Report, ReportError, parse_calendar_report};
use dav_store::GuardedFileSystem;
use std::alloc::Global;

/// The resources of a store that a calendar request selects (RFC 4791 sections 7.8 and 7.9).
///
/// A query lists the directory at `path`, and reads its members in order of their names' bytes. A multiget reads what
/// its links lead to, as paths under `prefix`; a link that gives no record is missing, as it is written. A resource is
/// read to the length that its metadata gives, and is closed again; it gives a record where it is a calendar object
/// that the filter of the query matches. What can't be opened or read is passed over.
///
/// `Selects` tells which calls of the store gave the report (`table`), and that it is right for what the store shows
/// wherever it looks, or for what may stand in its place where a fault was met (`shown`).
///
/// Errors: `BadRequest` where the element asks for no report, `FreeBusy` where it asks for free-busy times, `Fs` where
/// the listing of a query, or the metadata of one of its files, is refused; and want of memory.
pub fn calendar_report<S: GuardedFileSystem<C>, C>(
    alloc: Global,
    root: &Element,
    path: &DavPath,
    prefix: &str,
    fs: &mut S,
    credentials: &C,
) -> Result<Report, ReportError>
    ensures { Selects S.view S.listings credentials.now
        (calendar_selection path.now prefix.now (report_asked root.now)) fs.old result fs.new }
{
    match parse_calendar_report(alloc, root) {
        Ok(CalDavReportType::FreeBusyQuery { .. }) => Err(ReportError::FreeBusy),
        Ok(CalDavReportType::CalendarQuery(query)) => {
            let wanted = Wanted::Calendars(&query.comp_filter);
            let given = query_dir(alloc, fs, credentials, path, wanted, None);
            report_of(alloc, given)
        }
        Ok(CalDavReportType::CalendarMultiget { hrefs }) => {
            let every = None;
            let wanted = Wanted::Calendars(&every);
            follow(alloc, fs, credentials, prefix, wanted, &hrefs)
        }
        Err(error) => Err(error),
    }
}
