//! Reports over a local store. Where its disk tells its world, they are those of what the store shows of it by its rules,
//! where names fold, with the rules for macOS and over one file as well.
ghost use Rattle.std.specs.Prelude.{◌≡◌, Some};
ghost use Rattle.dav_io.specs.Counts.{Rose};
ghost use Rattle.dav_core.specs.Unchanged.{Keeps};
ghost use Rattle.dav_core.specs.World.{World};
ghost use Rattle.dav_local_laws.specs.Ruled.{FindsOnce};
ghost use Rattle.dav_selection.specs.Selection.{Selection};
ghost use Rattle.dav_selection.specs.Shown.{ShowsFor};
ghost use Rattle.dav_selection.specs.Told.{IsOf, MeetsNoLink, TellsTheTree, selection_of, stock_in};

use crate::{addressbook_report, calendar_report};
use dav_core::{DavPath, Disk};
use dav_local::LocalFs;
use dav_local_laws::local_stores_show_the_tree;
use dav_lock::Element;
use dav_memory::Remember;
use dav_report::{Report, ReportError};
use dav_store::DavFileSystem;
use std::alloc::Global;

/// Where the disk tells its world, the rules find each path there in one place (they do unless names of a directory fold
/// alike) and no link is met, the store shows a selection what the rules say of the world, whatever its memory knows; a
/// query is one of the directory at the path. A law: the call does nothing.
pub fn shows_the_tree<D: Disk, R: Remember>(_fs: &LocalFs<D, R>, _path: &DavPath)
    ensures { (w : World) → (D.state _fs.now.disk).told ≡ Some w → FindsOnce _fs.now.ways w → (q : Selection)
        → IsOf _path.now q → MeetsNoLink _fs.now.ways w q
        → ShowsFor ⟦<LocalFs<D, R> as DavFileSystem>⟧.view ⟦<LocalFs<D, R> as DavFileSystem>⟧.listings _fs.now tt
        (stock_in _fs.now.ways w) q }
{
    local_stores_show_the_tree(_fs);
}

/// The two kinds of reports.
#[derive(Clone, Copy)]
pub enum ReportKind {
    /// As `calendar_report` answers.
    Calendars,
    /// As `addressbook_report` does.
    AddressBook,
}

/// A report over a local store: where its disk tells its world, the rules of the store find each path there in one place
/// and no link is met, it is the report of what the store shows of that world by its rules, or of what may stand in its
/// place where a fault was met.
pub fn local_report<D: Disk, R: Remember>(
    alloc: Global,
    kind: ReportKind,
    root: &Element,
    path: &DavPath,
    prefix: &str,
    fs: &mut LocalFs<D, R>,
) -> Result<Report, ReportError>
    ensures tree { TellsTheTree (D.state fs.old.disk).told fs.old.ways
        (selection_of kind path.now prefix.now root.now)
        (Rose (D.state fs.old.disk).faults (D.state fs.new.disk).faults) result }
    ensures keeps { Keeps (D.state fs.old.disk) (D.state fs.new.disk) }
    ensures loan { D.loan fs.new.disk ≡ D.loan fs.old.disk }
{
    shows_the_tree(fs, path);
    match kind {
        ReportKind::Calendars => calendar_report(alloc, root, path, prefix, fs, &()),
        ReportKind::AddressBook => addressbook_report(alloc, root, path, prefix, fs, &()),
    }
}
