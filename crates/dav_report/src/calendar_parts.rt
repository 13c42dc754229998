//! Reading a calendar request.
ghost use Rattle.std.specs.Prelude.{◌≡◌, ◌&&◌, IfOk, option_map};
ghost use Rattle.dav_report.specs.Calendars.{time_range, is_bound as the_bound, readable_range, ranges, property_filter, property_filters, asked, component_filters, outer_filters, calendar_query, free_busy};
ghost use Rattle.dav_report.specs.Children.{last_of};
ghost use Rattle.dav_report.specs.FilterLists.{asked_by};

use crate::caldav::{
    CalendarQuery, ComponentFilter, ComponentFilters, PropertyFilter, PropertyFilters, TimeRange,
};
use crate::children::{copy_attribute, element_named, first_named, has_named};
use crate::filter_parts::{FromElement, Outer, later, read_each, read_query};
use crate::{ParameterFilter, ParameterFilters};
use dav_calendar::read_moment;
use dav_io::{NoMemory, Text};
use dav_lock::{Element, Nodes, XmlNode, both};
use std::alloc::Global;

fn read_range(element: &Element) -> Result<TimeRange, NoMemory>
    ensures { IfOk result (λ read. read ≡ time_range element.now) }
{
    match both(
        copy_attribute(element, "start"),
        copy_attribute(element, "end"),
    ) {
        Ok((start, end)) => Ok(TimeRange { start, end }),
        Err(error) => Err(error),
    }
}

/// Whether a bound of a range is missing, or a moment.
fn is_bound(text: &Option<Text>) -> bool
    ensures { result ≡ the_bound text.now }
{
    match text {
        Some(text) => read_moment(text.as_slice()).is_some(),
        None => true,
    }
}

fn is_readable(range: &TimeRange) -> bool
    ensures { result ≡ (the_bound range.now.start && the_bound range.now.end) }
{
    is_bound(&range.start) && is_bound(&range.end)
}

impl FromElement for TimeRange {
    ghost asked = { readable_range };

    fn read(_alloc: Global, element: &Element) -> Result<Option<Self>, NoMemory> {
        let range = read_range(element)?;
        if is_readable(&range) {
            return Ok(Some(range));
        }
        Ok(None)
    }
}

/// The range of the last `time-range`, where there is one; or nothing where a bound of any can't be read.
fn read_last_range(alloc: Global, children: &Nodes) -> Result<Option<Option<TimeRange>>, NoMemory>
    ensures { IfOk result (λ read. read ≡ option_map last_of (ranges children.now)) }
{
    match read_each(alloc, children, "time-range")? {
        Some(ranges) => Ok(Some(later(None, ranges))),
        None => Ok(None),
    }
}

/// The range of the first `time-range`.
pub(crate) fn read_free_busy(children: &Nodes) -> Result<Option<TimeRange>, NoMemory>
    ensures { IfOk result (λ read. read ≡ free_busy children.now) }
{
    match first_named(children, "time-range") {
        Some(element) => Ok(Some(read_range(element)?)),
        None => Ok(None),
    }
}

impl FromElement for PropertyFilter {
    ghost asked = { property_filter };

    fn read(alloc: Global, element: &Element) -> Result<Option<Self>, NoMemory> {
        let asked = match ParameterFilter::read(alloc, element)? {
            Some(asked) => asked,
            None => return Ok(None),
        };
        match read_last_range(alloc, &element.children)? {
            Some(time_range) => Ok(Some(PropertyFilter {
                name: asked.name,
                is_not_defined: asked.is_not_defined,
                text_match: asked.text_match,
                time_range,
                param_filters: ParameterFilters::empty(alloc),
            })),
            None => Ok(None),
        }
    }
}

/// The filters of properties, or nothing where one is at fault.
fn read_property_filters(
    alloc: Global,
    children: &Nodes,
) -> Result<Option<PropertyFilters>, NoMemory>
    ensures { IfOk result (λ read. read ≡ property_filters children.now) }
{
    match read_each(alloc, children, "prop-filter")? {
        Some(filters) => Ok(Some(PropertyFilters::new(filters))),
        None => Ok(None),
    }
}

/// What a filter of a component asks, with no filters of components in it; or nothing where it is at fault.
fn read_asked(alloc: Global, element: &Element) -> Result<Option<ComponentFilter>, NoMemory>
    ensures { IfOk result (λ read. option_map asked_by read ≡ asked element.now) }
{
    let name = match copy_attribute(element, "name")? {
        Some(name) => name,
        None => return Ok(None),
    };
    let prop_filters = match read_property_filters(alloc, &element.children)? {
        Some(filters) => filters,
        None => return Ok(None),
    };
    let time_range = match read_last_range(alloc, &element.children)? {
        Some(range) => range,
        None => return Ok(None),
    };
    Ok(Some(ComponentFilter {
        name,
        is_not_defined: has_named(&element.children, "is-not-defined"),
        time_range,
        prop_filters,
        comp_filters: ComponentFilters::empty(alloc),
    }))
}

/// A filter of a component of which the filters in it are being read.
#[derive(Drop)]
struct Open<'a> {
    /// The filter, with none in it yet.
    filter: ComponentFilter,
    /// The filters before it.
    before: ComponentFilters,
    /// What stands behind it, which is still to be read.
    behind: &'a [XmlNode],
}

/// The filters of components with those in them, or nothing where one is at fault. A loop reads them, so how deep they
/// nest costs memory and no stack.
fn read_components(alloc: Global, children: &Nodes) -> Result<Option<ComponentFilters>, NoMemory>
    ensures { IfOk result (λ read. read ≡ component_filters children.now) }
{
    let mut open: Vec<Open> = Vec::new(alloc);
    let mut done = ComponentFilters::empty(alloc);
    let mut left = children.as_slice();
    loop {
        match left.split_first() {
            Some((node, behind)) => match element_named(node, "comp-filter") {
                Some(element) => {
                    let filter = match read_asked(alloc, element)? {
                        Some(filter) => filter,
                        None => return Ok(None),
                    };
                    open.push(Open {
                        filter,
                        before: done,
                        behind,
                    })?;
                    done = ComponentFilters::empty(alloc);
                    left = element.children.as_slice();
                }
                None => left = behind,
            },
            None => match open.pop() {
                Some(
                    Open {
                        mut filter,
                        before,
                        behind,
                    },
                ) => {
                    filter.comp_filters = done;
                    done = before;
                    done.push(filter)?;
                    left = behind;
                }
                None => return Ok(Some(done)),
            },
        }
    }
}

impl Outer for ComponentFilter {
    ghost outer = { outer_filters };

    fn read_all(alloc: Global, children: &Nodes) -> Result<Option<Vec<Self>>, NoMemory> {
        match read_components(alloc, children)? {
            Some(filters) => Ok(Some(filters.into_vec())),
            None => Ok(None),
        }
    }
}

/// What a query asks for, or nothing where a filter is at fault.
pub(crate) fn read_calendar_query(
    alloc: Global,
    children: &Nodes,
) -> Result<Option<CalendarQuery>, NoMemory>
    ensures { IfOk result (λ read. read ≡ calendar_query children.now) }
{
    match read_query(alloc, children)? {
        Some((comp_filter, properties)) => Ok(Some(CalendarQuery {
            comp_filter,
            time_range: None,
            properties,
        })),
        None => Ok(None),
    }
}
