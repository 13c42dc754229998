//! Which calendar texts a filter matches (RFC 4791 section 9.7.1). A call goes deeper only into a component that is
//! there, so it goes as deep as components nest, however deep filters do.
ghost use Rattle.std.specs.Prelude.{◌≡◌, ◌&&◌, IfOk};
ghost use Rattle.std.specs.Str.{str_eq_ignore_ascii_case};
ghost use Rattle.dav_calendar.specs.TreeLists.{told_by, tree_of};
ghost use Rattle.dav_report.specs.FilterLists.{asked_by, filters_of};
ghost use Rattle.dav_matching.specs.Calendars as form;
ghost use Rattle.dav_matching.specs.Calendars.{all_pass, some_component};

use crate::folds::Folds;
use crate::properties::{bound, properties_match};
use dav_calendar::{Component, overlaps, read_components};
use dav_io::{NoMemory, Text};
use dav_report::caldav::{ComponentFilter, TimeRange};

/// Whether a component has the name that a filter asks for, ASCII case ignored.
fn is_named(filter: &ComponentFilter, component: &Component) -> bool
    ensures { result ≡ form.is_named filter.now.name (told_by component.now) }
{
    component
        .name
        .as_str()
        .eq_ignore_ascii_case(filter.name.as_str())
}

/// Whether a component is at some time of a range, where there is one.
fn is_in_range(range: &Option<TimeRange>, component: &Component) -> bool
    ensures { result ≡ form.told_in_range range.now (told_by component.now) }
{
    match range {
        Some(range) => overlaps(component, bound(&range.start), bound(&range.end)),
        None => true,
    }
}

/// Whether a component has the name, the time and the properties that a filter asks for.
fn fits(
    folds: &mut Folds,
    filter: &ComponentFilter,
    component: &Component,
) -> Result<bool, NoMemory>
    ensures { IfOk result (λ matched. matched ≡ form.fits (asked_by filter.now) (told_by component.now)) }
{
    if !is_named(filter, component) || !is_in_range(&filter.time_range, component) {
        return Ok(false);
    }
    properties_match(
        folds,
        filter.prop_filters.as_slice(),
        component.properties.as_slice(),
    )
}

/// Whether some component has the name.
fn some_named(filter: &ComponentFilter, components: &[Component]) -> bool
    ensures { result ≡ some_component (λ told children. form.is_named filter.now.name told) (tree_of components.now) }
{
    for component in components {
        if is_named(filter, component) {
            return true;
        }
    }
    false
}

/// Whether a component is as asked, and the components in it are as the filters in the filter ask.
#[cycle(matching)]
fn one_matches(
    folds: &mut Folds,
    filter: &ComponentFilter,
    component: &Component,
) -> Result<bool, NoMemory>
    ensures { IfOk result (λ matched. matched ≡ (form.fits (asked_by filter.now) (told_by component.now)
        && all_pass filter.now.comp_filters component.now.children)) }
{
    if !fits(folds, filter, component)? {
        return Ok(false);
    }
    all_match(
        folds,
        filter.comp_filters.as_slice(),
        component.children.as_slice(),
    )
}

/// Whether some component is so.
#[cycle(matching)]
fn some_match(
    folds: &mut Folds,
    filter: &ComponentFilter,
    components: &[Component],
) -> Result<bool, NoMemory>
    ensures { IfOk result (λ matched. matched ≡ some_component (λ told children. form.fits (asked_by filter.now) told
        && all_pass filter.now.comp_filters children) (tree_of components.now)) }
{
    for component in components {
        if one_matches(folds, filter, component)? {
            return Ok(true);
        }
    }
    Ok(false)
}

/// Whether a filter matches over these components.
#[cycle(matching)]
fn filter_matches(
    folds: &mut Folds,
    filter: &ComponentFilter,
    components: &[Component],
) -> Result<bool, NoMemory>
    ensures { IfOk result (λ matched. matched ≡ form.filter_passes (asked_by filter.now)
        (λ children. all_pass filter.now.comp_filters children) (tree_of components.now)) }
{
    if filter.is_not_defined {
        return Ok(!some_named(filter, components));
    }
    some_match(folds, filter, components)
}

/// Whether each filter matches over these components.
#[cycle(matching)]
fn all_match(
    folds: &mut Folds,
    filters: &[ComponentFilter],
    components: &[Component],
) -> Result<bool, NoMemory>
    ensures { IfOk result (λ matched. matched ≡ all_pass (filters_of filters.now) (tree_of components.now)) }
{
    for filter in filters {
        if !filter_matches(folds, filter, components)? {
            return Ok(false);
        }
    }
    Ok(true)
}

/// Whether a filter of components matches a calendar text (RFC 4791 section 9.7.1). Every text matches where there is no
/// filter, or where its name is empty; and else no text that has no component tree.
///
/// The filter is judged over the components that stand by themselves, and a filter in it over those in the component at
/// hand. With `is-not-defined` none of them has its name. Else one of them has the name, is at some time of the range,
/// has the properties that are asked for, and in it what the filters in the filter ask. Names are compared without
/// regard to ASCII case.
///
/// A property that is asked for has the name, a moment in the range, and a value that is to the searched text as the
/// match type says, by Unicode's default case folding: one and the same property all of them. Parameters and the
/// collation aren't looked at.
pub fn calendar_matches(
    folds: &mut Folds,
    filter: &Option<ComponentFilter>,
    text: &Text,
) -> Result<bool, NoMemory>
    ensures { IfOk result (λ matched. matched ≡ form.calendar_passes filter.now text.now) }
{
    let Some(filter) = filter else {
        return Ok(true);
    };
    if filter.name.as_slice().is_empty() {
        return Ok(true);
    }
    match read_components(folds.alloc(), text.as_str())? {
        Some(components) => filter_matches(folds, filter, components.as_slice()),
        None => Ok(false),
    }
}
