ghost use Rattle.std.specs.Prelude.{◌≡◌, IfOk, codes, map};
ghost use Rattle.dav_report.specs.Making.{component, component_set, calendar_data, home, caldav, holding, collection_types, is_in, is_calendar, has_calendar};

use crate::caldav::{CalendarComponentType, NS_CALDAV_URI};
use crate::makers::{add_node, make, make_content, make_home, make_types, make_with, put_copies};
use dav_io::NoMemory;
use dav_lock::{Element, Nodes, Pairs, XmlNode, both};
use std::alloc::Global;

/// The element of a kind of component (RFC 4791 section 9.6.1).
fn make_component(alloc: Global, kind: CalendarComponentType) -> Result<Element, NoMemory>
    ensures { IfOk result (λ e. e ≡ component kind) }
{
    let mut pairs = Pairs::empty(alloc);
    match put_copies(alloc, &mut pairs, "name", kind.as_str()) {
        Ok(()) => make_with(alloc, NS_CALDAV_URI, "C:comp", pairs),
        Err(error) => Err(error),
    }
}

fn make_components(alloc: Global, components: &[CalendarComponentType]) -> Result<Nodes, NoMemory>
    ensures { IfOk result (λ nodes. nodes ≡ holding (map component components.now)) }
{
    let mut nodes = Nodes::empty(alloc);
    for kind in components {
        nodes.push(XmlNode::Element(make_component(alloc, *kind)?))?;
    }
    Ok(nodes)
}

/// The kinds of components that a collection takes (RFC 4791 section 5.2.3).
pub fn create_supported_calendar_component_set(
    alloc: Global,
    components: &[CalendarComponentType],
) -> Result<Element, NoMemory>
    ensures { IfOk result (λ e. e ≡ component_set components.now) }
{
    let element = make(alloc, NS_CALDAV_URI, "C:supported-calendar-component-set");
    match both(element, make_components(alloc, components)) {
        Ok((mut element, nodes)) => {
            element.children = nodes;
            Ok(element)
        }
        Err(error) => Err(error),
    }
}

/// The content that a collection takes (RFC 4791 section 5.2.4).
pub fn create_supported_calendar_data(alloc: Global) -> Result<Element, NoMemory>
    ensures { IfOk result (λ e. e ≡ calendar_data) }
{
    let kind = make_content(
        alloc,
        NS_CALDAV_URI,
        "C:calendar-data",
        "text/calendar",
        "2.0",
    );
    let element = make(alloc, NS_CALDAV_URI, "C:supported-calendar-data");
    match both(element, kind) {
        Ok((element, kind)) => add_node(element, XmlNode::Element(kind)),
        Err(error) => Err(error),
    }
}

/// Where an owner's calendars stand (RFC 4791 section 6.2.1).
pub fn create_calendar_home_set(
    alloc: Global,
    prefix: &str,
    path: &str,
) -> Result<Element, NoMemory>
    ensures { IfOk result (λ e. e ≡ home caldav (codes "C:calendar-home-set") prefix.now path.now) }
{
    make_home(alloc, NS_CALDAV_URI, "C:calendar-home-set", prefix, path)
}

/// The types of a calendar (RFC 4791 section 4.2).
pub fn calendar_resource_type(alloc: Global) -> Result<Vec<Element>, NoMemory>
    ensures { IfOk result (λ types. types.items ≡ collection_types (codes "C:calendar")) }
{
    make_types(alloc, "C:calendar")
}

/// The types of an inbox for invitations (RFC 6638 section 2.2).
pub fn schedule_inbox_resource_type(alloc: Global) -> Result<Vec<Element>, NoMemory>
    ensures { IfOk result (λ types. types.items ≡ collection_types (codes "C:schedule-inbox")) }
{
    make_types(alloc, "C:schedule-inbox")
}

/// The types of an outbox for invitations (RFC 6638 section 2.1).
pub fn schedule_outbox_resource_type(alloc: Global) -> Result<Vec<Element>, NoMemory>
    ensures { IfOk result (λ types. types.items ≡ collection_types (codes "C:schedule-outbox")) }
{
    make_types(alloc, "C:schedule-outbox")
}

fn is_calendar_type(element: &Element) -> bool
    ensures { result ≡ is_calendar element.now }
{
    element.name.as_str() == "calendar" && is_in_caldav(element)
}

fn is_in_caldav(element: &Element) -> bool
    ensures { result ≡ is_in caldav element.now.namespace }
{
    match &element.namespace {
        Some(uri) => uri.as_str() == NS_CALDAV_URI,
        None => false,
    }
}

/// Whether the types of a resource have that of a calendar, by its name without a prefix and its namespace.
pub fn is_calendar_collection(resource_type: &[Element]) -> bool
    ensures { result ≡ has_calendar resource_type.now }
{
    for element in resource_type {
        if is_calendar_type(element) {
            return true;
        }
    }
    false
}
