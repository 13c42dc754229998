// Selecting among the members of a directory.
ghost use Rattle.std.specs.Prelude.{◌≡◌, ◌⊎◌, ◌↔◌, IfOk, IsTrue, OnOk, Err, Result, length};
ghost use Rattle.std.specs.Cmp.Lexicographic.{slice_cmp};
ghost use Rattle.std.specs.List.{AllByRecursion};
ghost use Rattle.std.specs.List.Sorted.{IsPermutation, IsSortedByKey};
ghost use Rattle.std.specs.Ordering.{nat_cmp};
ghost use Rattle.dav_io.specs.Counts.{Rose};
ghost use Rattle.dav_store.specs.Members.{IsNamedPlain};
ghost use Rattle.dav_store.specs.View.{Stays};
ghost use Rattle.dav_selection.specs.declared.resource.Resource.{Resource};
ghost use Rattle.dav_selection.specs.declared.resource.Unread.{Unread};
ghost use Rattle.dav_selection.specs.Answered.{Wants};
ghost use Rattle.dav_selection.specs.Reports.{Queries, Selects, member_path as the_member_path, name_of};
ghost use Rattle.dav_selection.specs.Resources.{Fetches};
ghost use Rattle.dav_selection.specs.Selection.{of_records};
ghost use Rattle.dav_selection.specs.Shown.{IsQueried, ShowsDir, Stock};
ghost use Rattle.dav_selection.specs.Taken.{taken};
ghost use Rattle.dav_selection.specs.Visits.{Adds, passed as the_passed, sought};

use crate::reading::fetch;
use crate::resource::Unread;
use crate::wanted::{Wanted, add_wanted};
use dav_core::{DavPath, FsError, Member};
use dav_io::NoMemory;
use dav_matching::Folds;
use dav_report::{Names, Record, Records, Report, ReportError};
use dav_store::{GuardedFileSystem, read_members};
use std::alloc::Global;
use std::cmp::Ordering;

// Whether more records are wanted than these.
fn wants_more(limit: Option<u32>, records: &[Record]) -> bool
    ensures { IsTrue result ↔ Wants limit (length records.now) }
{
    match limit {
        Some(limit) => records.len() < limit as usize,
        None => true,
    }
}

// The path of a member of a directory.
fn member_path(dir: &DavPath, member: &Member) -> Result<DavPath, NoMemory>
    requires { IsNamedPlain member.now }
    ensures { IfOk result (λ path. path ≡ the_member_path dir.now member.now) }
{
    let mut path = dir.try_clone()?;
    path.push_segment(member.name.as_str())?;
    Ok(path)
}

/// Fetches the resource at a path, and adds its record, where it is wanted. It answers whether it added one, or why the
/// resource isn't read. What the filter searches for is folded once, as long as the same folds are lent.
pub(crate) fn visit<S: GuardedFileSystem<C>, C>(
    alloc: Global,
    fs: &mut S,
    credentials: &C,
    path: DavPath,
    wanted: Wanted<'_>,
    folds: &mut Folds,
    records: &mut Vec<Record>,
) -> Result<bool, Unread>
    ensures table { ((got : Result Resource Unread) × Fetches S.view credentials.now path fs.old got fs.new
        × Adds (taken wanted.entry) (record { path = path; got = got }) records.old.items result records.new.items)
        ⊎ (result ≡ Err Unread.NoMemory) }
    ensures stays { Stays S.view fs.old fs.new }
{
    match fetch(alloc, fs, credentials, &path) {
        Ok(resource) => match add_wanted(alloc, wanted, path, resource, folds, records) {
            Ok(added) => Ok(added),
            Err(_) => Err(Unread::NoMemory),
        },
        Err(unread) => Err(unread),
    }
}

// Whether a query goes on behind a resource, or what it is refused with.
fn passed(visited: Result<bool, Unread>) -> Result<(), ReportError>
    ensures { result ≡ the_passed visited }
{
    match visited {
        Ok(_) | Err(Unread::Refused) => Ok(()),
        Err(Unread::Unsaid(error)) => Err(ReportError::Fs(error)),
        Err(Unread::NoMemory) => Err(ReportError::NoMemory),
    }
}

// Asks for the resource of each member, and collects the records of those that are wanted, up to as many as are wanted.
fn walk<S: GuardedFileSystem<C>, C>(
    alloc: Global,
    fs: &mut S,
    credentials: &C,
    dir: &DavPath,
    wanted: Wanted<'_>,
    limit: Option<u32>,
    members: &[Member],
) -> Result<Records, ReportError>
    requires plain { AllByRecursion IsNamedPlain members.now }
    ensures table { Selects S.view credentials.now (sought dir.now limit wanted.entry) members.now fs.old result fs.new
        ⊎ (result ≡ Err ReportError.NoMemory) }
    ensures stays { Stays S.view fs.old fs.new }
{
    let mut folds = Folds::new(alloc);
    let mut records = Vec::new(alloc);
    for member in members {
        if !wants_more(limit, records.as_slice()) {
            return Ok(Records::new(records));
        }
        let Ok(path) = member_path(dir, member) else {
            return Err(ReportError::NoMemory);
        };
        let visited = visit(
            alloc,
            fs,
            credentials,
            path,
            wanted,
            &mut folds,
            &mut records,
        );
        if let Err(error) = passed(visited) {
            return Err(error);
        }
    }
    Ok(Records::new(records))
}

// The order of two members by their names' bytes.
fn name_order(one: &Member, other: &Member) -> Ordering
    ensures { result ≡ slice_cmp nat_cmp (name_of one.now) (name_of other.now) }
{
    one.name.cmp(&other.name)
}

// Brings members into the order of their names' bytes.
fn sort(members: &mut Vec<Member>) -> Result<(), NoMemory>
    ensures each { OnOk result (IsPermutation members.old.items members.new.items) }
    ensures order { OnOk result (IsSortedByKey name_of (slice_cmp nat_cmp) members.new.items) }
{
    members.sort_by(|one, other| name_order(one, other))?;
    Ok(())
}

/// Lists the directory, and asks for the resource of each member in order of their names' bytes, up to as many records
/// as are wanted.
pub(crate) fn query_dir<S: GuardedFileSystem<C>, C>(
    alloc: Global,
    fs: &mut S,
    credentials: &C,
    dir: &DavPath,
    wanted: Wanted<'_>,
    limit: Option<u32>,
) -> Result<Records, ReportError>
    ensures table { Queries S.view S.listings credentials.now (sought dir.now limit wanted.entry) fs.old result fs.new
        ⊎ (result ≡ Err ReportError.NoMemory) }
    ensures shown { (stock : Stock) → ShowsDir S.view S.listings fs.old credentials.now stock dir.now
        → IsQueried (sought dir.now limit wanted.entry) (stock.listed dir.now) stock
        (Rose (S.view.state fs.old).faults (S.view.state fs.new).faults) result ⊎ (result ≡ Err ReportError.NoMemory) }
    ensures stays { Stays S.view fs.old fs.new }
{
    let mut members = match read_members(alloc, fs, dir, credentials) {
        Ok(members) => members,
        Err(FsError::NoMemory) => return Err(ReportError::NoMemory),
        Err(error) => return Err(ReportError::Fs(error)),
    };
    if sort(&mut members).is_err() {
        return Err(ReportError::NoMemory);
    }
    walk(
        alloc,
        fs,
        credentials,
        dir,
        wanted,
        limit,
        members.as_slice(),
    )
}

/// A query's records as a report, in which nothing is missing.
pub(crate) fn report_of(
    alloc: Global,
    given: Result<Records, ReportError>,
) -> Result<Report, ReportError>
    ensures { result ≡ of_records given }
{
    match given {
        Ok(records) => Ok(Report {
            records,
            missing: Names::empty(alloc),
        }),
        Err(error) => Err(error),
    }
}
