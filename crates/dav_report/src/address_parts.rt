//! Reading an address book request.
ghost use Rattle.std.specs.Prelude.{◌≡◌, IfOk, option_copied};
ghost use Rattle.std.specs.Option.{option_and_then};
ghost use Rattle.dav_report.specs.Children.{last_of};
ghost use Rattle.dav_report.specs.Requests.{number};
ghost use Rattle.dav_report.specs.AddressBooks.{property_filter, outer_filters, counts, all_counts, address_query};

use crate::ParameterFilter;
use crate::carddav::{AddressBookQuery, PropertyFilter};
use crate::children::{element_named, first_text};
use crate::filter_parts::{FromElement, Outer, read_each, read_parameters, read_query};
use dav_io::{NoMemory, Text};
use dav_lock::{Element, Nodes};
use std::alloc::Global;

impl FromElement for PropertyFilter {
    ghost asked = { property_filter };

    fn read(alloc: Global, element: &Element) -> Result<Option<Self>, NoMemory> {
        let asked = match ParameterFilter::read(alloc, element)? {
            Some(asked) => asked,
            None => return Ok(None),
        };
        match read_parameters(alloc, &element.children)? {
            Some(param_filters) => Ok(Some(PropertyFilter {
                name: asked.name,
                is_not_defined: asked.is_not_defined,
                text_match: asked.text_match,
                param_filters,
            })),
            None => Ok(None),
        }
    }
}

impl Outer for PropertyFilter {
    ghost outer = { outer_filters };

    fn read_all(alloc: Global, children: &Nodes) -> Result<Option<Vec<Self>>, NoMemory> {
        read_each(alloc, children, "prop-filter")
    }
}

/// The first text of the last `nresults` that has one.
fn last_count(children: &Nodes) -> Option<&Text>
    ensures { option_copied result ≡ last_of (counts children.now) }
{
    let mut last = None;
    for node in children.as_slice() {
        if let Some(element) = element_named(node, "nresults") {
            last = first_text(&element.children).or(last);
        }
    }
    last
}

/// The last count in the last `limit` that has one.
fn last_limit(children: &Nodes) -> Option<&Text>
    ensures { option_copied result ≡ last_of (all_counts children.now) }
{
    let mut last = None;
    for node in children.as_slice() {
        if let Some(element) = element_named(node, "limit") {
            last = last_count(&element.children).or(last);
        }
    }
    last
}

/// The number that a text stands for.
fn read_number(text: &Text) -> Option<u32>
    ensures { result ≡ number text.now }
{
    text.as_str().parse::<u32>().ok()
}

fn read_limit(children: &Nodes) -> Option<u32>
    ensures { result ≡ option_and_then number (last_of (all_counts children.now)) }
{
    match last_limit(children) {
        Some(text) => read_number(text),
        None => None,
    }
}

/// What a query asks for, or nothing where a filter is at fault.
pub(crate) fn read_address_query(
    alloc: Global,
    children: &Nodes,
) -> Result<Option<AddressBookQuery>, NoMemory>
    ensures { IfOk result (λ read. read ≡ address_query children.now) }
{
    match read_query(alloc, children)? {
        Some((prop_filter, properties)) => Ok(Some(AddressBookQuery {
            prop_filter,
            properties,
            limit: read_limit(children),
        })),
        None => Ok(None),
    }
}
