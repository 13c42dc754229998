// Following the links of a multiget.
ghost use Rattle.std.specs.Prelude.{◌≡◌, ◌⊎◌, ◌++◌, IfOk, OnOk, Option, Ok, Err};
ghost use Rattle.dav_io.specs.Counts.{Rose};
ghost use Rattle.dav_store.specs.View.{Stays};
ghost use Rattle.dav_selection.specs.Answered.{Answer, answer_given, is_given, unless};
ghost use Rattle.dav_selection.specs.Reports.{Follows, Leads};
ghost use Rattle.dav_selection.specs.Selection.{follows};
ghost use Rattle.dav_selection.specs.Shown.{IsFollowed, ShowsFor, Stock};
ghost use Rattle.dav_selection.specs.Taken.{taken};
ghost use Rattle.dav_selection.specs.Visits.{followed_by, links_asked};

use crate::resource::Unread;
use crate::walking::visit;
use crate::wanted::Wanted;
use dav_core::{DavPath, ParseError};
use dav_io::{NoMemory, Text};
use dav_matching::Folds;
use dav_report::{Names, Record, Records, Report, ReportError};
use dav_store::GuardedFileSystem;
use std::alloc::Global;

// Whether a link gave a record. Only want of memory ends a multiget.
fn gives_record(visited: Result<bool, Unread>) -> Result<bool, ReportError>
    ensures { result ≡ followed_by visited }
{
    match visited {
        Ok(added) => Ok(added),
        Err(Unread::NoMemory) => Err(ReportError::NoMemory),
        Err(Unread::Refused | Unread::Unsaid(_)) => Ok(false),
    }
}

// Asks for the resource that a link leads to, and adds its record, where it is wanted. It answers whether it added one.
fn follow_link<S: GuardedFileSystem<C>, C>(
    alloc: Global,
    fs: &mut S,
    credentials: &C,
    prefix: &str,
    wanted: Wanted<'_>,
    href: &Text,
    records: &mut Vec<Record>,
) -> Result<bool, ReportError>
    ensures table { ((answer : Option Answer) × Leads S.view credentials.now prefix.now href.now fs.old answer fs.new
        × (records.new.items ≡ records.old.items ++ answer_given (taken wanted.entry) answer)
        × (result ≡ Ok (is_given (answer_given (taken wanted.entry) answer)))) ⊎ (result ≡ Err ReportError.NoMemory) }
    ensures stays { Stays S.view fs.old fs.new }
{
    let path = match DavPath::from_str_and_prefix(alloc, href.as_str(), prefix) {
        Ok(path) => path,
        Err(ParseError::NoMemory) => return Err(ReportError::NoMemory),
        Err(_) => return Ok(false),
    };
    // A multiget has no filter, so nothing is searched for that could be kept.
    let mut folds = Folds::new(alloc);
    let visited = visit(alloc, fs, credentials, path, wanted, &mut folds, records);
    gives_record(visited)
}

// Notes a link that gave no record.
fn note(missing: &mut Vec<Text>, href: &Text, given: bool) -> Result<(), NoMemory>
    ensures { OnOk result (missing.new.items ≡ missing.old.items ++ unless given href.now) }
{
    if given {
        return Ok(());
    }
    missing.push(href.try_clone()?)?;
    Ok(())
}

/// Asks for the resource that each link leads to. Those that give no record are missing, as they are written.
pub(crate) fn follow<S: GuardedFileSystem<C>, C>(
    alloc: Global,
    fs: &mut S,
    credentials: &C,
    prefix: &str,
    wanted: Wanted<'_>,
    hrefs: &Names,
) -> Result<Report, ReportError>
    ensures table { Follows S.view credentials.now (links_asked prefix.now hrefs.now wanted.entry) fs.old result fs.new
        ⊎ (result ≡ Err ReportError.NoMemory) }
    ensures shown { (stock : Stock) → ShowsFor S.view S.listings fs.old credentials.now stock
        (follows (links_asked prefix.now hrefs.now wanted.entry))
        → IsFollowed (links_asked prefix.now hrefs.now wanted.entry) stock
        (Rose (S.view.state fs.old).faults (S.view.state fs.new).faults) result ⊎ (result ≡ Err ReportError.NoMemory) }
    ensures stays { Stays S.view fs.old fs.new }
{
    let mut records = Vec::new(alloc);
    let mut missing = Vec::new(alloc);
    for href in hrefs.as_slice() {
        let given = match follow_link(alloc, fs, credentials, prefix, wanted, href, &mut records) {
            Ok(given) => given,
            Err(error) => return Err(error),
        };
        if note(&mut missing, href, given).is_err() {
            return Err(ReportError::NoMemory);
        }
    }
    Ok(Report {
        records: Records::new(records),
        missing: Names::new(missing),
    })
}
