//! Elements of a namespace, as answers hold them.
ghost use Rattle.std.specs.Prelude.{◌≡◌, [], ◌++◌, IfOk, OnOk, codes};
ghost use Rattle.std.specs.BTreeMap.{insert_entry};
ghost use Rattle.dav_lock.specs.Forests.{bare, then, joined};
ghost use Rattle.dav_lock.specs.Pairs.{text_order};
ghost use Rattle.dav_lock.specs.Trees.{tree_of};
ghost use Rattle.dav_report.specs.Making.{made, content, dav, home_link, home, holding, caldav, collection_types};

use crate::caldav::NS_CALDAV_URI;
use dav_io::{NoMemory, Text};
use dav_lock::{Element, Nodes, Pairs, XmlNode, both};
use std::alloc::Global;

/// The namespace of WebDAV's own elements (RFC 4918 section 14).
const NS_DAV_URI: &str = "DAV:";

/// An element of a namespace, with these attributes and nothing in it.
pub(crate) fn make_with(
    alloc: Global,
    uri: &str,
    name: &str,
    attributes: Pairs,
) -> Result<Element, NoMemory>
    ensures { IfOk result (λ e. e ≡ made uri.now name.now attributes bare) }
{
    match both(Text::copy(alloc, uri), Text::copy(alloc, name)) {
        Ok((uri, name)) => Ok(Element {
            prefix: None,
            namespace: Some(uri),
            namespaces: None,
            name,
            attributes,
            children: Nodes::empty(alloc),
        }),
        Err(error) => Err(error),
    }
}

/// An element of a namespace, with nothing in it.
pub(crate) fn make(alloc: Global, uri: &str, name: &str) -> Result<Element, NoMemory>
    ensures { IfOk result (λ e. e ≡ made uri.now name.now [] bare) }
{
    make_with(alloc, uri, name, Pairs::empty(alloc))
}

/// Puts a copy of a text at a copy of a name.
pub(crate) fn put_copies(
    alloc: Global,
    pairs: &mut Pairs,
    name: &str,
    value: &str,
) -> Result<(), NoMemory>
    ensures { OnOk result (pairs.new ≡ insert_entry text_order pairs.old name.now value.now) }
{
    match both(Text::copy(alloc, name), Text::copy(alloc, value)) {
        Ok((name, value)) => pairs.put(name, value),
        Err(error) => Err(error),
    }
}

/// Puts a kind of content and its version.
fn put_content(alloc: Global, pairs: &mut Pairs, kind: &str, version: &str) -> Result<(), NoMemory>
    ensures { OnOk result
        (pairs.new
        ≡ insert_entry text_order
        (insert_entry text_order pairs.old (codes "content-type") kind.now)
        (codes "version") version.now) }
{
    put_copies(alloc, pairs, "content-type", kind)?;
    put_copies(alloc, pairs, "version", version)
}

/// The element with this node after those in it.
pub(crate) fn add_node(mut element: Element, node: XmlNode) -> Result<Element, NoMemory>
    ensures { IfOk result
        (λ e. e ≡ record element { children = joined element.children (then (tree_of node) bare) }) }
{
    match element.children.push(node) {
        Ok(()) => Ok(element),
        Err(error) => Err(error),
    }
}

/// An element that tells a kind of content and its version.
pub(crate) fn make_content(
    alloc: Global,
    uri: &str,
    name: &str,
    kind: &str,
    version: &str,
) -> Result<Element, NoMemory>
    ensures { IfOk result (λ e. e ≡ made uri.now name.now (content kind.now version.now) bare) }
{
    let mut pairs = Pairs::empty(alloc);
    match put_content(alloc, &mut pairs, kind, version) {
        Ok(()) => make_with(alloc, uri, name, pairs),
        Err(error) => Err(error),
    }
}

/// Two texts, one after the other.
fn join(alloc: Global, first: &str, second: &str) -> Result<Text, NoMemory>
    ensures { IfOk result (λ text. text ≡ first.now ++ second.now) }
{
    let mut text = String::from_str(alloc, first)?;
    text.push_str(second)?;
    Ok(Text::new(text))
}

/// A link of the prefix, then the path.
fn make_link(alloc: Global, prefix: &str, path: &str) -> Result<Element, NoMemory>
    ensures { IfOk result (λ e. e ≡ home_link prefix.now path.now) }
{
    match both(make(alloc, NS_DAV_URI, "D:href"), join(alloc, prefix, path)) {
        Ok((link, text)) => add_node(link, XmlNode::Text(text)),
        Err(error) => Err(error),
    }
}

/// An element that tells where an owner's collections stand.
pub(crate) fn make_home(
    alloc: Global,
    uri: &str,
    name: &str,
    prefix: &str,
    path: &str,
) -> Result<Element, NoMemory>
    ensures { IfOk result (λ e. e ≡ home uri.now name.now prefix.now path.now) }
{
    match both(make(alloc, uri, name), make_link(alloc, prefix, path)) {
        Ok((element, link)) => add_node(element, XmlNode::Element(link)),
        Err(error) => Err(error),
    }
}

/// The types of a calendar collection of this kind.
pub(crate) fn make_types(alloc: Global, name: &str) -> Result<Vec<Element>, NoMemory>
    ensures { IfOk result (λ types. types.items ≡ collection_types name.now) }
{
    let collection = make(alloc, NS_DAV_URI, "D:collection");
    match both(collection, make(alloc, NS_CALDAV_URI, name)) {
        Ok((collection, kind)) => Ok(vec![in alloc; collection, kind]?),
        Err(error) => Err(error),
    }
}
