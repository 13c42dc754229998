//! Looking into an element.
ghost use Rattle.std.specs.Prelude.{◌≡◌, [], IfOk, option_copied, option_to_list};
ghost use Rattle.dav_lock.specs.Forests.{then, bare};
ghost use Rattle.dav_lock.specs.Trees.{tree_of};
ghost use Rattle.dav_report.specs.Children.{elements, named, texts, first_of, last_of, has, attribute};

use crate::names::copy_reference;
use dav_io::{NoMemory, Text};
use dav_lock::{Element, Nodes, XmlNode};

/// The node, where it is an element of this name.
pub(crate) fn element_named<'a>(node: &'a XmlNode, name: &str) -> Option<&'a Element>
    ensures { option_to_list (option_copied result) ≡ named name.now (then (tree_of node.now) bare) }
{
    match node {
        XmlNode::Element(element) => {
            if element.name.as_slice() == name.as_bytes() {
                Some(element)
            } else {
                None
            }
        }
        _ => None,
    }
}

/// The node, where it is an element.
pub(crate) fn element_of(node: &XmlNode) -> Option<&Element>
    ensures { option_to_list (option_copied result) ≡ elements (then (tree_of node.now) bare) }
{
    match node {
        XmlNode::Element(element) => Some(element),
        _ => None,
    }
}

/// The node, where it is a text.
pub(crate) fn text_of(node: &XmlNode) -> Option<&Text>
    ensures { option_to_list (option_copied result) ≡ texts (then (tree_of node.now) bare) }
{
    match node {
        XmlNode::Text(text) => Some(text),
        _ => None,
    }
}

/// The last element of this name.
pub(crate) fn last_named<'a>(nodes: &'a Nodes, name: &str) -> Option<&'a Element>
    ensures { option_copied result ≡ last_of (named name.now nodes.now) }
{
    let mut last = None;
    for node in nodes.as_slice() {
        match element_named(node, name) {
            Some(element) => last = Some(element),
            None => {}
        }
    }
    last
}

/// The first element of this name.
pub(crate) fn first_named<'a>(nodes: &'a Nodes, name: &str) -> Option<&'a Element>
    ensures { option_copied result ≡ first_of (named name.now nodes.now) }
{
    for node in nodes.as_slice() {
        match element_named(node, name) {
            Some(element) => return Some(element),
            None => {}
        }
    }
    None
}

/// Whether an element of this name stands there.
pub(crate) fn has_named(nodes: &Nodes, name: &str) -> bool
    ensures { result ≡ has name.now nodes.now }
{
    first_named(nodes, name).is_some()
}

/// The first text.
pub(crate) fn first_text(nodes: &Nodes) -> Option<&Text>
    ensures { option_copied result ≡ first_of (texts nodes.now) }
{
    for node in nodes.as_slice() {
        match text_of(node) {
            Some(text) => return Some(text),
            None => {}
        }
    }
    None
}

/// A copy of the attribute of this name.
pub(crate) fn copy_attribute(element: &Element, name: &str) -> Result<Option<Text>, NoMemory>
    ensures { IfOk result (λ value. value ≡ attribute name.now element.now) }
{
    copy_reference(element.attributes.find(name))
}
