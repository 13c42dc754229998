//! How deep trees and filters nest, for rows whose trees would be too long to print: `copy-levels TREE` tells it of a
//! copy of the tree, and `filter-levels TREE` of the filter in a copy of the calendar report. Each counts along the
//! first child.

use crate::trees::root;
use dav_lock::Element;
use dav_report::caldav::{CalDavReportType, ComponentFilter};
use dav_report::{ElementExt, parse_calendar_report};
use dav_rows::Line;
use std::alloc::Global;

fn tree_levels(root: &Element) -> u64 {
    let mut inner = root;
    for above in 0..u64::MAX {
        match inner.child_elems_iter().next() {
            Some(child) => inner = child,
            None => return above + 1,
        }
    }
    u64::MAX
}

fn filter_levels(outer: &ComponentFilter) -> u64 {
    let mut inner = outer;
    for above in 0..u64::MAX {
        match inner.comp_filters.as_slice().first() {
            Some(filter) => inner = filter,
            None => return above + 1,
        }
    }
    u64::MAX
}

/// Adds the levels of the copy of a tree.
pub fn tell_copy(alloc: Global, line: &mut Line, row: &str) {
    match root(alloc, row, 1) {
        Ok(root) => match root.try_clone() {
            Ok(copy) => line.add_number("", tree_levels(&copy)),
            Err(_) => line.refuse(),
        },
        Err(_) => line.refuse(),
    }
}

/// Adds the levels of the filter that a calendar query asks with.
pub fn tell_filter(alloc: Global, line: &mut Line, row: &str) {
    match root(alloc, row, 1) {
        Ok(root) => tell_asked(alloc, line, &root),
        Err(_) => line.refuse(),
    }
}

fn tell_asked(alloc: Global, line: &mut Line, root: &Element) {
    match parse_calendar_report(alloc, root) {
        Ok(asked) => match asked.try_clone() {
            Ok(copy) => tell_levels(line, &copy),
            Err(_) => line.refuse(),
        },
        Err(error) => line.add_value(&error),
    }
}

fn tell_levels(line: &mut Line, asked: &CalDavReportType) {
    match asked {
        CalDavReportType::CalendarQuery(query) => match &query.comp_filter {
            Some(filter) => line.add_number("", filter_levels(filter)),
            None => line.add("no filter"),
        },
        _ => line.add("no query"),
    }
}
