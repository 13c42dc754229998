//! Values that calls give without a tree.
//!
//! - `calendar-defaults` and `address-defaults` print the properties of a collection, one behind each bar.
//! - `parameter NAME` prints the filter of a parameter, and `match` the comparison that is made first.
//! - `report PATH ETAG TEXT LINK` prints a report of one resource and one link that led to none.

use crate::filters;
use crate::texts::tell_maybe;
use dav_core::DavPath;
use dav_io::NoMemory;
use dav_report::caldav::CalendarProperties;
use dav_report::carddav::AddressBookProperties;
use dav_report::{Names, ParameterFilter, Record, Records, Report, TextMatch};
use dav_rows::{Line, unescaped_text, word};
use std::alloc::Global;

/// Adds what a row makes.
pub fn make(alloc: Global, line: &mut Line, row: &str) {
    match word(row, 0) {
        "calendar-defaults" => match calendar(alloc) {
            Ok(properties) => tell_calendar(line, &properties),
            Err(_) => line.refuse(),
        },
        "address-defaults" => match book(alloc) {
            Ok(properties) => tell_book(line, &properties),
            Err(_) => line.refuse(),
        },
        "parameter" => match ParameterFilter::new(alloc, word(row, 1)) {
            Ok(filter) => filters::tell_parameter(line, &filter),
            Err(_) => line.refuse(),
        },
        "match" => match TextMatch::defaults(alloc) {
            Ok(asked) => filters::tell_match(line, &Some(asked)),
            Err(_) => line.refuse(),
        },
        "report" => make_report(alloc, line, row),
        _ => {}
    }
}

fn calendar(alloc: Global) -> Result<CalendarProperties, NoMemory> {
    CalendarProperties::defaults(alloc)?.try_clone()
}

fn book(alloc: Global) -> Result<AddressBookProperties, NoMemory> {
    AddressBookProperties::defaults(alloc)?.try_clone()
}

fn tell_size(line: &mut Line, size: Option<u64>) {
    match size {
        Some(size) => line.add_number("|", size),
        None => line.add("|-"),
    }
}

fn tell_calendar(line: &mut Line, properties: &CalendarProperties) {
    tell_maybe(line, "|", &properties.description);
    tell_maybe(line, "|", &properties.timezone);
    for kind in properties.supported_components.as_slice() {
        line.tell("|", kind.as_str());
    }
    tell_size(line, properties.max_resource_size);
    tell_maybe(line, "|", &properties.color);
    tell_maybe(line, "|", &properties.display_name);
}

fn tell_book(line: &mut Line, properties: &AddressBookProperties) {
    tell_maybe(line, "|", &properties.description);
    tell_size(line, properties.max_resource_size);
    tell_maybe(line, "|", &properties.display_name);
}

fn make_report(alloc: Global, line: &mut Line, row: &str) {
    match report(alloc, row) {
        Ok(report) => match report.try_clone() {
            Ok(copy) => tell_report(line, &copy),
            Err(_) => line.refuse(),
        },
        Err(_) => line.refuse(),
    }
}

fn report(alloc: Global, row: &str) -> Result<Report, NoMemory> {
    let records = records(alloc, row)?;
    let missing = missing(alloc, row)?;
    Ok(Report { records, missing })
}

fn records(alloc: Global, row: &str) -> Result<Records, NoMemory> {
    let mut records = Records::empty(alloc);
    if let Ok(path) = DavPath::new(alloc, word(row, 1)) {
        let etag = unescaped_text(alloc, word(row, 2))?;
        let text = unescaped_text(alloc, word(row, 3))?;
        records.push(Record { path, etag, text })?;
    }
    Ok(records)
}

fn missing(alloc: Global, row: &str) -> Result<Names, NoMemory> {
    let mut missing = Names::empty(alloc);
    missing.push(unescaped_text(alloc, word(row, 4))?)?;
    Ok(missing)
}

fn tell_report(line: &mut Line, report: &Report) {
    for found in report.records.as_slice() {
        tell_record(line, found);
    }
    for link in report.missing.as_slice() {
        line.tell(" missing ", link.as_str());
    }
}

fn tell_record(line: &mut Line, found: &Record) {
    match found.path.as_url_string() {
        Ok(address) => line.tell("at ", address.as_str()),
        Err(_) => line.refuse(),
    }
    line.tell(" ", found.etag.as_str());
    line.tell(" ", found.text.as_str());
}
