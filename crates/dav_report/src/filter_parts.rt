//! Reading what calendar and address book filters share.
ghost use Rattle.std.specs.Prelude.{◌≡◌, [], ◌++◌, IfOk, List, OnOk, Option, codes, map, option_map, unwrap_or};
ghost use Rattle.std.specs.List.{flat_map};
ghost use Rattle.std.specs.Option.{option_or};
ghost use Rattle.dav_lock.specs.Forests.{Forest};
ghost use Rattle.dav_lock.specs.declared.element.Element.{Element as ElementValue};
ghost use Rattle.dav_report.specs.Children.{attribute, each, elements, first_of, last_of, named, texts};
ghost use Rattle.dav_report.specs.Requests.{is_yes, text_match, last_match, parameter_filter, parameter_filters, properties, hrefs};

use crate::children::{
    copy_attribute, element_named, element_of, first_text, has_named, last_named, text_of,
};
use crate::{Names, ParameterFilter, ParameterFilters, TextMatch};
use dav_io::{NoMemory, Text};
use dav_lock::{Element, Nodes, both};
use std::alloc::Global;

/// Whether the comparison of a `text-match` is negated.
fn is_negated(element: &Element) -> bool
    ensures { result ≡ is_yes (attribute (codes "negate-condition") element.now) }
{
    match element.attributes.find("negate-condition") {
        Some(value) => value.as_str() == "yes",
        None => false,
    }
}

/// The comparison that a `text-match` asks for.
fn read_match(alloc: Global, element: &Element) -> Result<TextMatch, NoMemory>
    ensures { IfOk result (λ read. read ≡ text_match element.now) }
{
    let collation = copy_attribute(element, "collation");
    let kinds = both(collation, copy_attribute(element, "match-type"));
    match both(read_text(alloc, &element.children), kinds) {
        Ok((text, (collation, match_type))) => Ok(TextMatch {
            text,
            collation,
            negate_condition: is_negated(element),
            match_type,
        }),
        Err(error) => Err(error),
    }
}

/// A copy of the first text, or no character where there is none.
fn read_text(alloc: Global, children: &Nodes) -> Result<Text, NoMemory>
    ensures { IfOk result (λ read. read ≡ unwrap_or (first_of (texts children.now)) []) }
{
    match first_text(children) {
        Some(text) => text.try_clone(),
        None => Text::copy(alloc, ""),
    }
}

/// The comparison of the last `text-match`.
pub(crate) fn read_last_match(
    alloc: Global,
    children: &Nodes,
) -> Result<Option<TextMatch>, NoMemory>
    ensures { IfOk result (λ read. read ≡ last_match children.now) }
{
    match last_named(children, "text-match") {
        Some(element) => Ok(Some(read_match(alloc, element)?)),
        None => Ok(None),
    }
}

/// A filter that an element stands for, unless it is at fault.
pub(crate) trait FromElement: Sized + Drop {
    /// The filter, or nothing where it is at fault.
    ghost asked: { ElementValue → Option Self };

    fn read(alloc: Global, element: &Element) -> Result<Option<Self>, NoMemory>
        ensures { IfOk result (λ read. read ≡ asked element.now) };
}

/// The filter of each element of this name, or nothing where one is at fault.
pub(crate) fn read_each<F: FromElement>(
    alloc: Global,
    children: &Nodes,
    name: &str,
) -> Result<Option<Vec<F>>, NoMemory>
    ensures { IfOk result
        (λ read. option_map (λ filters. filters.items) read
        ≡ each F.asked (named name.now children.now)) }
{
    let mut filters = Vec::new(alloc);
    for node in children.as_slice() {
        let element = match element_named(node, name) {
            Some(element) => element,
            None => continue,
        };
        let filter = match F::read(alloc, element)? {
            Some(filter) => filter,
            None => return Ok(None),
        };
        filters.push(filter)?;
    }
    Ok(Some(filters))
}

/// A filter of the kind that a query keeps, and those that a `filter` stands for.
pub(crate) trait Outer: Sized + Drop {
    /// The filters, or nothing where one is at fault.
    ghost outer: { Forest → Option (List Self) };

    fn read_all(alloc: Global, children: &Nodes) -> Result<Option<Vec<Self>>, NoMemory>
        ensures { IfOk result
            (λ read. option_map (λ filters. filters.items) read ≡ outer children.now) };
}

/// The filter that a query keeps, which is the last; or nothing where any is at fault.
fn kept_filter<F: Outer>(alloc: Global, children: &Nodes) -> Result<Option<Option<F>>, NoMemory>
    ensures { IfOk result
        (λ read. read
        ≡ option_map (λ filters. last_of (flat_map (λ fs. fs) filters))
        (each (λ f. F.outer f.children) (named (codes "filter") children.now))) }
{
    let mut kept = None;
    for node in children.as_slice() {
        let element = match element_named(node, "filter") {
            Some(element) => element,
            None => continue,
        };
        let filters = match F::read_all(alloc, &element.children)? {
            Some(filters) => filters,
            None => return Ok(None),
        };
        kept = later(kept, filters);
    }
    Ok(Some(kept))
}

impl FromElement for ParameterFilter {
    ghost asked = { parameter_filter };

    /// What a parameter is asked, a property is asked too: that it is there or isn't, and its text.
    fn read(alloc: Global, element: &Element) -> Result<Option<Self>, NoMemory> {
        match copy_attribute(element, "name")? {
            Some(name) => {
                let is_not_defined = has_named(&element.children, "is-not-defined");
                match read_last_match(alloc, &element.children) {
                    Ok(text_match) => Ok(Some(ParameterFilter {
                        name,
                        is_not_defined,
                        text_match,
                    })),
                    Err(error) => Err(error),
                }
            }
            None => Ok(None),
        }
    }
}

/// The filters of parameters, or nothing where one has no name.
pub(crate) fn read_parameters(
    alloc: Global,
    children: &Nodes,
) -> Result<Option<ParameterFilters>, NoMemory>
    ensures { IfOk result (λ read. read ≡ parameter_filters children.now) }
{
    match read_each(alloc, children, "param-filter")? {
        Some(filters) => Ok(Some(ParameterFilters::new(filters))),
        None => Ok(None),
    }
}

/// The filter that a query keeps and the properties that it asks for; or nothing where a filter is at fault.
pub(crate) fn read_query<F: Outer>(
    alloc: Global,
    children: &Nodes,
) -> Result<Option<(Option<F>, Names)>, NoMemory>
    ensures { IfOk result
        (λ read. read
        ≡ option_map (λ filters. (last_of (flat_map (λ fs. fs) filters), properties children.now))
        (each (λ f. F.outer f.children) (named (codes "filter") children.now))) }
{
    match both(
        kept_filter(alloc, children),
        read_properties(alloc, children),
    ) {
        Ok((kept, properties)) => match kept {
            Some(filter) => Ok(Some((filter, properties))),
            None => Ok(None),
        },
        Err(error) => Err(error),
    }
}

/// Adds the names of the elements.
fn add_names(names: &mut Names, nodes: &Nodes) -> Result<(), NoMemory>
    ensures { OnOk result (names.new ≡ names.old ++ map (λ e. e.name) (elements nodes.now)) }
{
    for node in nodes.as_slice() {
        let element = match element_of(node) {
            Some(element) => element,
            None => continue,
        };
        names.push(element.name.try_clone()?)?;
    }
    Ok(())
}

/// The names of the properties that each `prop` asks for.
fn read_properties(alloc: Global, children: &Nodes) -> Result<Names, NoMemory>
    ensures { IfOk result (λ read. read ≡ properties children.now) }
{
    let mut names = Names::empty(alloc);
    for node in children.as_slice() {
        let element = match element_named(node, "prop") {
            Some(element) => element,
            None => continue,
        };
        add_names(&mut names, &element.children)?;
    }
    Ok(names)
}

/// Adds the texts.
fn add_texts(names: &mut Names, nodes: &Nodes) -> Result<(), NoMemory>
    ensures { OnOk result (names.new ≡ names.old ++ texts nodes.now) }
{
    for node in nodes.as_slice() {
        let text = match text_of(node) {
            Some(text) => text,
            None => continue,
        };
        names.push(text.try_clone()?)?;
    }
    Ok(())
}

/// The links of a request for single resources: each text in each `href`.
pub(crate) fn read_links(alloc: Global, children: &Nodes) -> Result<Names, NoMemory>
    ensures { IfOk result (λ read. read ≡ hrefs children.now) }
{
    let mut names = Names::empty(alloc);
    for node in children.as_slice() {
        let element = match element_named(node, "href") {
            Some(element) => element,
            None => continue,
        };
        add_texts(&mut names, &element.children)?;
    }
    Ok(names)
}

/// The last of the newer ones, or else the one that was kept.
pub(crate) fn later<T: Drop>(kept: Option<T>, mut newer: Vec<T>) -> Option<T>
    ensures { result ≡ option_or (last_of newer.items) kept }
{
    match newer.pop() {
        Some(last) => Some(last),
        None => kept,
    }
}
