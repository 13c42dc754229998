ghost use Rattle.std.specs.Prelude.{◌≡◌, IfOk, OnOk, OnErr, Some, is_some, unwrap_or, []};
ghost use Rattle.std.specs.BTreeMap.{insert_entry};
ghost use Rattle.dav_lock.specs.Forests.{bare, then, text, joined};
ghost use Rattle.dav_lock.specs.Pairs.{text_order};
ghost use Rattle.dav_lock.specs.declared.element.Element.{Element as ElementValue};
ghost use Rattle.dav_report.specs.Children.{elements, first_of, left, left_into};
ghost use Rattle.dav_report.specs.Making.{bare_element, element_called, with_namespace, with_text, with_child, without_texts, is_text_tree};
ghost use Rattle.dav_lock.specs.Trees.{tree_of};

use crate::content::cut_at;
use crate::element_iters::{Elements, ElementsInto};
use crate::makers::put_copies;
use dav_io::{NoMemory, Text};
use dav_lock::{Element, Nodes, Pairs, XmlNode, both};
use std::alloc::Global;
use std::mem;

/// What makes and takes apart elements.
pub trait ElementExt: Sized {
    /// The element that it is.
    ghost as_element: { Self → ElementValue };

    /// An element of this name, before which a prefix and a colon may stand.
    fn new2(alloc: Global, n: &str) -> Result<Self, NoMemory>
        ensures { IfOk result (λ made. as_element made ≡ element_called n.now) };

    /// The element that declares this namespace too, in place of one of the same prefix.
    fn ns(self, alloc: Global, prefix: &str, namespace: &str) -> Result<Self, NoMemory>
        ensures { IfOk result
            (λ made. as_element made ≡ with_namespace prefix.now namespace.now (as_element self)) };

    /// The element with this text after its nodes, in place of its texts.
    fn text(self, alloc: Global, t: &str) -> Result<Self, NoMemory>
        ensures { IfOk result (λ made. as_element made ≡ with_text t.now (as_element self)) };

    /// Adds an element after the nodes. Where memory is refused, nothing changes.
    fn push_element(&mut self, alloc: Global, e: Element) -> Result<(), NoMemory>
        ensures ok { OnOk result (as_element self.new ≡ with_child e (as_element self.old)) }
        ensures err { OnErr result (as_element self.new ≡ as_element self.old) };

    /// The elements among the nodes, in order.
    fn child_elems_into_iter(self) -> ElementsInto
        ensures { left_into result ≡ elements (as_element self).children };

    /// The elements among the nodes, in order.
    fn child_elems_iter(&self) -> Elements<'_>
        ensures { left result ≡ elements (as_element self.now).children };

    /// The elements among the nodes, in order.
    fn take_child_elems(self, alloc: Global) -> Result<Vec<Element>, NoMemory>
        ensures { IfOk result (λ taken. taken.items ≡ elements (as_element self).children) };

    /// Whether an element is among the nodes.
    fn has_child_elems(&self) -> bool
        ensures { result ≡ is_some (first_of (elements (as_element self.now).children)) };
}

impl ElementExt for Element {
    ghost as_element = { λ e. e };

    fn new2(alloc: Global, n: &str) -> Result<Self, NoMemory> {
        match cut_at(n, ':') {
            Some((prefix, name)) => {
                match both(Text::copy(alloc, prefix), Text::copy(alloc, name)) {
                    Ok((prefix, name)) => Ok(Element {
                        prefix: Some(prefix),
                        namespace: None,
                        namespaces: None,
                        name,
                        attributes: Pairs::empty(alloc),
                        children: Nodes::empty(alloc),
                    }),
                    Err(error) => Err(error),
                }
            }
            None => Ok(Element::new(alloc, Text::copy(alloc, n)?)),
        }
    }

    fn ns(self, alloc: Global, prefix: &str, namespace: &str) -> Result<Self, NoMemory> {
        let mut element = self;
        match declare(alloc, &mut element.namespaces, prefix, namespace) {
            Ok(()) => Ok(element),
            Err(error) => Err(error),
        }
    }

    fn text(self, alloc: Global, t: &str) -> Result<Self, NoMemory> {
        let mut element = self;
        match replace_texts(alloc, &mut element.children, t) {
            Ok(()) => Ok(element),
            Err(error) => Err(error),
        }
    }

    fn push_element(&mut self, _alloc: Global, e: Element) -> Result<(), NoMemory> {
        self.children.push(XmlNode::Element(e))
    }

    fn child_elems_into_iter(self) -> ElementsInto {
        ElementsInto::over(self.children.into_vec())
    }

    fn child_elems_iter(&self) -> Elements<'_> {
        Elements::over(self.children.as_slice())
    }

    fn take_child_elems(self, alloc: Global) -> Result<Vec<Element>, NoMemory> {
        Ok(self.child_elems_into_iter().collect(alloc)?)
    }

    fn has_child_elems(&self) -> bool {
        Elements::over(self.children.as_slice()).next().is_some()
    }
}

/// Declares a namespace, in place of one of the same prefix.
fn declare(
    alloc: Global,
    namespaces: &mut Option<Pairs>,
    prefix: &str,
    namespace: &str,
) -> Result<(), NoMemory>
    ensures { OnOk result
        (namespaces.new
        ≡ Some (insert_entry text_order (unwrap_or namespaces.old []) prefix.now namespace.now)) }
{
    let mut pairs = declared(alloc, namespaces.take());
    match put_copies(alloc, &mut pairs, prefix, namespace) {
        Ok(()) => {
            *namespaces = Some(pairs);
            Ok(())
        }
        Err(error) => Err(error),
    }
}

/// The namespaces that an element declares.
fn declared(alloc: Global, namespaces: Option<Pairs>) -> Pairs
    ensures { result ≡ unwrap_or namespaces [] }
{
    match namespaces {
        Some(pairs) => pairs,
        None => Pairs::empty(alloc),
    }
}

fn is_text(node: &XmlNode) -> bool
    ensures { result ≡ is_text_tree (tree_of node.now) }
{
    match node {
        XmlNode::Text(_) => true,
        _ => false,
    }
}

/// Lets the texts go, and adds this one behind what is left.
fn replace_texts(alloc: Global, nodes: &mut Nodes, t: &str) -> Result<(), NoMemory>
    ensures { OnOk result (nodes.new ≡ joined (without_texts nodes.old) (then (text t.now) bare)) }
{
    let added = Text::copy(alloc, t)?;
    let old = mem::replace(nodes, Nodes::empty(alloc));
    *nodes = drop_texts(old);
    nodes.push(XmlNode::Text(added))
}

/// The nodes that are no texts. It takes no memory.
fn drop_texts(nodes: Nodes) -> Nodes
    ensures { result ≡ without_texts nodes }
{
    let mut nodes = nodes.into_vec();
    nodes.retain(|node| !is_text(node));
    Nodes::new(nodes)
}
