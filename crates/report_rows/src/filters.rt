//! Reports and their filters in words.
//!
//! A filter of a component is `{NAME`, then what it asks, then `}`; one of a property has `[` and `]`, and one of a
//! parameter `(` and `)`. It may ask `absent`, `within|START|END`, and `is|TEXT|COLLATION|TYPE` or its negation
//! `isnt|..`, where a minus sign stands for what isn't given.

use crate::texts::tell_maybe;
use dav_io::NoMemory;
use dav_report::caldav::{self, CalDavReportType, CalendarQuery, ComponentFilter, TimeRange};
use dav_report::carddav::{self, AddressBookQuery, CardDavReportType};
use dav_report::{Names, ParameterFilter, ParameterFilters, TextMatch};
use dav_rows::Line;
use std::alloc::Global;

fn tell_names(line: &mut Line, mark: &str, names: &Names) {
    for name in names.as_slice() {
        line.tell(mark, name.as_str());
    }
}

fn tell_absent(line: &mut Line, is_not_defined: bool) {
    if is_not_defined {
        line.add(" absent");
    }
}

fn tell_range(line: &mut Line, range: &TimeRange) {
    tell_maybe(line, " within|", &range.start);
    tell_maybe(line, "|", &range.end)
}

fn tell_maybe_range(line: &mut Line, range: &Option<TimeRange>) {
    if let Some(range) = range {
        tell_range(line, range);
    }
}

/// Adds a comparison, where there is one.
pub fn tell_match(line: &mut Line, asked: &Option<TextMatch>) {
    let asked = match asked {
        Some(asked) => asked,
        None => return,
    };
    let mark = if asked.negate_condition {
        " isnt|"
    } else {
        " is|"
    };
    line.tell(mark, asked.text.as_str());
    tell_maybe(line, "|", &asked.collation);
    tell_maybe(line, "|", &asked.match_type)
}

/// Adds a filter of a parameter.
pub fn tell_parameter(line: &mut Line, filter: &ParameterFilter) {
    line.tell(" (", filter.name.as_str());
    tell_absent(line, filter.is_not_defined);
    tell_match(line, &filter.text_match);
    line.add(" )");
}

fn tell_parameters(line: &mut Line, filters: &ParameterFilters) {
    for filter in filters.as_slice() {
        tell_parameter(line, filter);
    }
}

fn tell_property(line: &mut Line, filter: &caldav::PropertyFilter) {
    line.tell(" [", filter.name.as_str());
    tell_absent(line, filter.is_not_defined);
    tell_match(line, &filter.text_match);
    tell_maybe_range(line, &filter.time_range);
    tell_parameters(line, &filter.param_filters);
    line.add(" ]");
}

fn tell_card_property(line: &mut Line, filter: &Option<carddav::PropertyFilter>) {
    let filter = match filter {
        Some(filter) => filter,
        None => return,
    };
    line.tell(" [", filter.name.as_str());
    tell_absent(line, filter.is_not_defined);
    tell_match(line, &filter.text_match);
    tell_parameters(line, &filter.param_filters);
    line.add(" ]");
}

// What a filter asks itself, besides the filters of components in it.
fn tell_start(line: &mut Line, filter: &ComponentFilter) {
    line.tell(" {", filter.name.as_str());
    tell_absent(line, filter.is_not_defined);
    tell_maybe_range(line, &filter.time_range);
    for property in filter.prop_filters.as_slice() {
        tell_property(line, property);
    }
}

// Adds a filter, and those in it before those after it.
fn tell_component(alloc: Global, line: &mut Line, outer: &ComponentFilter) -> Result<(), NoMemory> {
    tell_start(line, outer);
    let mut waiting = Vec::new(alloc);
    waiting.push(outer.comp_filters.as_slice())?;
    for _ in 0..u64::MAX {
        let filters: &[ComponentFilter] = match waiting.pop() {
            Some(filters) => filters,
            None => break,
        };
        match filters.split_first() {
            Some((first, others)) => {
                waiting.push(others)?;
                waiting.push(first.comp_filters.as_slice())?;
                tell_start(line, first);
            }
            None => line.add(" }"),
        }
    }
    Ok(())
}

fn tell_query(alloc: Global, line: &mut Line, query: &CalendarQuery) {
    line.add("query");
    if let Some(filter) = &query.comp_filter {
        if tell_component(alloc, line, filter).is_err() {
            line.refuse();
        }
    }
    tell_maybe_range(line, &query.time_range);
    tell_names(line, " .", &query.properties)
}

/// Adds a report that a calendar server is asked for.
pub fn tell_calendar(alloc: Global, line: &mut Line, asked: &CalDavReportType) {
    match asked {
        CalDavReportType::CalendarQuery(query) => tell_query(alloc, line, query),
        CalDavReportType::CalendarMultiget { hrefs } => {
            line.add("links");
            tell_names(line, " ", hrefs)
        }
        CalDavReportType::FreeBusyQuery { time_range } => {
            line.add("busy");
            tell_range(line, time_range)
        }
    }
}

fn tell_book_query(line: &mut Line, query: &AddressBookQuery) {
    line.add("query");
    tell_card_property(line, &query.prop_filter);
    tell_names(line, " .", &query.properties);
    if let Some(limit) = query.limit {
        line.add_number(" limit|", u64::from(limit));
    }
}

/// Adds a report that an address book server is asked for.
pub fn tell_addresses(line: &mut Line, asked: &CardDavReportType) {
    match asked {
        CardDavReportType::AddressBookQuery(query) => tell_book_query(line, query),
        CardDavReportType::AddressBookMultiget { hrefs } => {
            line.add("links");
            tell_names(line, " ", hrefs)
        }
    }
}
