//! Calendar and address book requests to a local store over a disk in memory, and what they select.
//!
//! A request is `calendar PATH PREFIX TREE` or `cards PATH PREFIX TREE`; a prefix `-` is empty. It is answered with path,
//! entity tag and text of each record, and what is missing; or with its error. How often the disk was asked comes last.
//!
//! `ways WORD` says how the store of the next requests finds paths: `plain`, as at first, `fold`, `macos`, `both`, or
//! `alone PATH`, where one file is served. Other rows change the disk (`disks.rt`). Neither is answered, but where it
//! can't be done.

use crate::disks::change;
use crate::stores::{Store, Ways, store_of, ways_of};
use crate::texts::tell_word;
use crate::trees::root as tree_of;
use dav_core::DavPath;
use dav_disk::MemDisk;
use dav_lock::Element;
use dav_report::{Record, Report, ReportError};
use dav_rows::{Line, word};
use dav_selection::{addressbook_report, calendar_report};
use std::alloc::Global;

/// What rows leave for the requests behind them.
#[derive(Drop)]
pub struct Stock {
    /// The disk, once a row made one.
    disk: Option<MemDisk>,
    /// The row that said how paths are found.
    ways: String,
}

impl Stock {
    /// No disk yet, whose paths are found as they are written.
    pub fn new(alloc: Global) -> Stock {
        Stock {
            disk: None,
            ways: String::new(alloc),
        }
    }
}

#[derive(Drop)]
struct Request<'a> {
    asks_for_cards: bool,
    root: &'a Element,
    path: &'a DavPath,
    prefix: &'a str,
}

/// Adds the answer to a row, and says whether it has one.
pub fn answer(alloc: Global, line: &mut Line, stock: &mut Stock, row: &str) -> bool {
    let done = match word(row, 0) {
        "calendar" | "cards" => {
            ask_tree(alloc, line, stock, row);
            return true;
        }
        "ways" => note_ways(alloc, &mut stock.ways, row),
        _ => change(alloc, &mut stock.disk, row),
    };
    line.need(done);
    done.is_none()
}

fn note_ways(alloc: Global, ways: &mut String, row: &str) -> Option<()> {
    *ways = String::from_str(alloc, row).ok()?;
    Some(())
}

fn ask_tree(alloc: Global, line: &mut Line, stock: &mut Stock, row: &str) {
    match tree_of(alloc, row, 3) {
        Ok(root) => ask_path(alloc, line, stock, row, &root),
        Err(_) => line.refuse(),
    }
}

fn prefix_of(word: &str) -> &str {
    if word == "-" { "" } else { word }
}

fn ask_path(alloc: Global, line: &mut Line, stock: &mut Stock, row: &str, root: &Element) {
    let prefix = prefix_of(word(row, 2));
    let asks_for_cards = word(row, 0) == "cards";
    match DavPath::from_str_and_prefix(alloc, word(row, 1), prefix) {
        Ok(path) => ask_stock(
            alloc,
            line,
            stock,
            &Request {
                asks_for_cards,
                root,
                path: &path,
                prefix,
            },
        ),
        Err(_) => line.refuse(),
    }
}

fn ask_stock(alloc: Global, line: &mut Line, stock: &mut Stock, request: &Request<'_>) {
    match ways_of(alloc, stock.ways.as_str()) {
        Some(ways) => ask_disk(alloc, line, &mut stock.disk, ways, request),
        None => line.refuse(),
    }
}

fn ask_disk(
    alloc: Global,
    line: &mut Line,
    held: &mut Option<MemDisk>,
    ways: Ways,
    request: &Request<'_>,
) {
    match held.take() {
        Some(disk) => *held = Some(ask(alloc, line, disk, ways, request)),
        None => line.refuse(),
    }
}

// What owns a disk or a store makes one call after the other, of which none has a way out.
fn ask(
    alloc: Global,
    line: &mut Line,
    disk: MemDisk,
    ways: Ways,
    request: &Request<'_>,
) -> MemDisk {
    let before = disk.asked();
    let mut store = store_of(disk, ways);
    tell(line, selected(alloc, &mut store, request));
    let (disk, _memory) = store.into_parts();
    line.add_number(" (", disk.asked().saturating_sub(before));
    line.add(")");
    disk
}

fn selected(
    alloc: Global,
    store: &mut Store,
    request: &Request<'_>,
) -> Result<Report, ReportError> {
    if request.asks_for_cards {
        return addressbook_report(
            alloc,
            request.root,
            request.path,
            request.prefix,
            store,
            &(),
        );
    }
    calendar_report(
        alloc,
        request.root,
        request.path,
        request.prefix,
        store,
        &(),
    )
}

fn tell(line: &mut Line, answer: Result<Report, ReportError>) {
    match answer {
        Ok(report) => tell_report(line, &report),
        Err(ReportError::Fs(error)) => line.add_value(&error),
        Err(error) => line.add_value(&error),
    }
}

fn tell_report(line: &mut Line, report: &Report) {
    line.add("selected");
    for record in report.records.as_slice() {
        tell_record(line, record);
    }
    for href in report.missing.as_slice() {
        line.tell(" missing ", href.as_str());
    }
}

fn tell_record(line: &mut Line, record: &Record) {
    match record.path.with_prefix() {
        Ok(path) => line.tell(" ", path.as_str()),
        Err(_) => line.refuse(),
    }
    line.tell(" ", record.etag.as_str());
    tell_word(line, " ", &record.text);
}
