//! The calls that make elements and take them apart.
//!
//! - `component-set KIND..`, `calendar-data`, `address-data`, `calendar-home PREFIX PATH`, `address-home PREFIX PATH`,
//!   `calendar-type`, `inbox-type` and `outbox-type` print what they make.
//! - `is-collection TREE..` asks whether the trees have the type of a calendar.
//! - `copy TREE`, `text TEXT TREE`, `ns PREFIX URI TREE` and `push NAME TREE` print the tree that they answer.
//! - `children TREE` prints the names of the elements, as each of the three calls gives them, and `attribute NAME TREE`
//!   the value that each of the two calls finds.

use crate::texts::tell_whether;
use crate::trees::{read, root, tell_tree};
use dav_io::{NoMemory, Text};
use dav_lock::{Element, Pairs};
use dav_report::ElementExt;
use dav_report::caldav::*;
use dav_report::carddav::*;
use dav_rows::{Line, word};
use std::alloc::Global;

/// Adds what a row makes.
pub fn make(alloc: Global, line: &mut Line, row: &str) {
    match word(row, 0) {
        "children" => match root(alloc, row, 1) {
            Ok(outer) => children(alloc, line, outer),
            Err(_) => line.refuse(),
        },
        "attribute" => match root(alloc, row, 2) {
            Ok(element) => attribute(alloc, line, &element.attributes, word(row, 1)),
            Err(_) => line.refuse(),
        },
        "is-collection" => match elements(alloc, row) {
            Ok(types) => tell_whether(line, is_calendar_collection(types.as_slice())),
            Err(_) => line.refuse(),
        },
        "calendar-type" => tell_all(alloc, line, calendar_resource_type(alloc)),
        "inbox-type" => tell_all(alloc, line, schedule_inbox_resource_type(alloc)),
        "outbox-type" => tell_all(alloc, line, schedule_outbox_resource_type(alloc)),
        _ => match made(alloc, row) {
            Ok(Some(element)) => tell_tree(alloc, line, &element),
            Ok(None) => {}
            Err(_) => line.refuse(),
        },
    }
}

fn elements(alloc: Global, row: &str) -> Result<Vec<Element>, NoMemory> {
    read(alloc, row, 1)?.take_child_elems(alloc)
}

fn made(alloc: Global, row: &str) -> Result<Option<Element>, NoMemory> {
    let (first, second) = (word(row, 1), word(row, 2));
    match word(row, 0) {
        "component-set" => component_set(alloc, row).map(Some),
        "calendar-data" => create_supported_calendar_data(alloc).map(Some),
        "address-data" => create_supported_address_data(alloc).map(Some),
        "calendar-home" => create_calendar_home_set(alloc, first, second).map(Some),
        "address-home" => create_addressbook_home_set(alloc, first, second).map(Some),
        "copy" => root(alloc, row, 1)?.try_clone().map(Some),
        "text" => root(alloc, row, 2)?.text(alloc, first).map(Some),
        "ns" => root(alloc, row, 3)?.ns(alloc, first, second).map(Some),
        "push" => pushed(alloc, root(alloc, row, 2)?, first).map(Some),
        _ => Ok(None),
    }
}

fn pushed(alloc: Global, mut outer: Element, name: &str) -> Result<Element, NoMemory> {
    push_new(alloc, &mut outer, name)?;
    Ok(outer)
}

fn push_new(alloc: Global, outer: &mut Element, name: &str) -> Result<(), NoMemory> {
    outer.push_element(alloc, Element::new2(alloc, name)?)
}

fn kind(word: &str) -> CalendarComponentType {
    match word {
        "VEVENT" => CalendarComponentType::VEvent,
        "VTODO" => CalendarComponentType::VTodo,
        "VJOURNAL" => CalendarComponentType::VJournal,
        "VFREEBUSY" => CalendarComponentType::VFreeBusy,
        "VTIMEZONE" => CalendarComponentType::VTimezone,
        _ => CalendarComponentType::VAlarm,
    }
}

fn component_set(alloc: Global, row: &str) -> Result<Element, NoMemory> {
    let mut kinds = Vec::new(alloc);
    for word in row.split(' ').skip(1) {
        kinds.push(kind(word))?;
    }
    create_supported_calendar_component_set(alloc, kinds.as_slice())
}

fn tell_all(alloc: Global, line: &mut Line, made: Result<Vec<Element>, NoMemory>) {
    match made {
        Ok(elements) => tell_each(alloc, line, elements.as_slice()),
        Err(_) => line.refuse(),
    }
}

fn tell_each(alloc: Global, line: &mut Line, elements: &[Element]) {
    for element in elements {
        tell_tree(alloc, line, element);
    }
}

fn children(alloc: Global, line: &mut Line, outer: Element) {
    tell_whether(line, outer.has_child_elems());
    for inner in outer.child_elems_iter() {
        line.tell(" ", inner.name.as_str());
    }
    tell_taken(alloc, line, &outer);
    for inner in outer.child_elems_into_iter() {
        line.tell(" ", inner.name.as_str());
    }
}

// Adds the names of the elements that are taken out of a copy.
fn tell_taken(alloc: Global, line: &mut Line, outer: &Element) {
    match taken(alloc, outer) {
        Ok(elements) => tell_names(line, elements.as_slice()),
        Err(_) => line.refuse(),
    }
}

fn taken(alloc: Global, outer: &Element) -> Result<Vec<Element>, NoMemory> {
    outer.try_clone()?.take_child_elems(alloc)
}

fn tell_names(line: &mut Line, elements: &[Element]) {
    for inner in elements {
        line.tell(" ", inner.name.as_str());
    }
}

fn attribute(alloc: Global, line: &mut Line, attributes: &Pairs, word: &str) {
    match Text::copy(alloc, word) {
        Ok(name) => tell_value(line, attributes.get(&name)),
        Err(_) => line.refuse(),
    }
    tell_value(line, attributes.find(word));
}

fn tell_value(line: &mut Line, value: Option<&Text>) {
    match value {
        Some(value) => line.tell("|", value.as_str()),
        None => line.add("|-"),
    }
}
