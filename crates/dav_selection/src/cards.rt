//! Address book reports.
ghost use Rattle.dav_report.specs.AddressBooks.{address_report as report_asked};
ghost use Rattle.dav_selection.specs.Selection.{address_selection};
ghost use Rattle.dav_selection.specs.Shown.{Selects};

use crate::following::follow;
use crate::walking::{query_dir, report_of};
use crate::wanted::Wanted;
use dav_core::DavPath;
use dav_lock::Element;
use dav_report::carddav::CardDavReportType;
use dav_report::{Report, ReportError, parse_addressbook_report};
use dav_store::GuardedFileSystem;
use std::alloc::Global;

/// The resources of a store that an address book request selects (RFC 6352 sections 8.6 and 8.7): vCards, as
/// `calendar_report` selects calendar objects. A query ends as soon as it has as many records as its limit says, and
/// reads nothing where that is 0.
///
/// Errors: `BadRequest` where the element asks for no report, `Fs` where the listing of a query, or the metadata of one
/// of its files, is refused; and want of memory.
pub fn addressbook_report<S: GuardedFileSystem<C>, C>(
    alloc: Global,
    root: &Element,
    path: &DavPath,
    prefix: &str,
    fs: &mut S,
    credentials: &C,
) -> Result<Report, ReportError>
    ensures { Selects S.view S.listings credentials.now
        (address_selection path.now prefix.now (report_asked root.now)) fs.old result fs.new }
{
    match parse_addressbook_report(alloc, root) {
        Ok(CardDavReportType::AddressBookQuery(query)) => {
            let wanted = Wanted::Cards(&query.prop_filter);
            let given = query_dir(alloc, fs, credentials, path, wanted, query.limit);
            report_of(alloc, given)
        }
        Ok(CardDavReportType::AddressBookMultiget { hrefs }) => {
            let every = None;
            let wanted = Wanted::Cards(&every);
            follow(alloc, fs, credentials, prefix, wanted, &hrefs)
        }
        Err(error) => Err(error),
    }
}
