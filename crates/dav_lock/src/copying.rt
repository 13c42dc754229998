//! Copies of element trees. A loop makes them, so how deep a tree nests costs memory and no stack.
ghost use Rattle.std.specs.Prelude.{◌≡◌, IfOk};
ghost use Rattle.dav_lock.specs.Trees.{forest_of, node_found};

use crate::element::copy_pairs;
use crate::{Element, Nodes, XmlNode, both, copy_text};
use dav_io::NoMemory;
use std::alloc::Global;

/// An element whose children are being copied.
#[derive(Drop)]
struct Open<'a> {
    /// Its copy, with no children yet.
    element: Element,
    /// The copies of the nodes before it.
    before: Nodes,
    /// The nodes behind it, which are still to be copied.
    behind: &'a [XmlNode],
}

impl<'a> Open<'a> {
    ghost use Rattle.std.specs.Prelude.{[], ◌∷◌};
    ghost use Rattle.dav_lock.specs.declared.element.XmlNode.TheVariants.{Element as node};
    ghost use Rattle.dav_lock.specs.Forests.{joined};

    /// The copies up to the element, which has these children; and the nodes behind it.
    fn close(self, children: Nodes) -> Result<(Nodes, &'a [XmlNode]), NoMemory>
        ensures { IfOk result
            (λ closed.
            (closed.0
            ≡ joined self.entry.before (forest_of (node (record self.entry.element { children = children }) ∷ [])))
            × (closed.1.now ≡ self.entry.behind.now)) }
    {
        let Open {
            mut element,
            before: mut done,
            behind,
        } = self;
        element.children = children;
        done.push(XmlNode::Element(element))?;
        Ok((done, behind))
    }
}

/// What a node is to the loop that copies it.
#[derive(Drop)]
pub(crate) enum Found<'a> {
    /// The copy of a node that is no element.
    Leaf(XmlNode),
    /// An element, whose children are to be copied first.
    Inner(&'a Element),
}

/// The copy of a node that is no element. It may be refused for want of memory.
pub(crate) fn copy_leaf(node: &XmlNode) -> Result<Found<'_>, NoMemory>
    ensures { IfOk result (λ found. node_found found ≡ node.now) }
{
    match node {
        XmlNode::Element(element) => Ok(Found::Inner(element)),
        XmlNode::Text(text) => Ok(Found::Leaf(XmlNode::Text(text.try_clone()?))),
        XmlNode::Comment(text) => Ok(Found::Leaf(XmlNode::Comment(text.try_clone()?))),
        XmlNode::CData(text) => Ok(Found::Leaf(XmlNode::CData(text.try_clone()?))),
        XmlNode::ProcessingInstruction(target, data) => {
            let target = target.try_clone()?;
            let data = copy_text(data)?;
            Ok(Found::Leaf(XmlNode::ProcessingInstruction(target, data)))
        }
    }
}

/// A copy of the element with these children. It may be refused for want of memory.
pub(crate) fn copy_around(element: &Element, children: Nodes) -> Result<Element, NoMemory>
    ensures { IfOk result
        (λ copy. copy
        ≡ record {
          prefix = element.now.prefix;
          namespace = element.now.namespace;
          namespaces = element.now.namespaces;
          name = element.now.name;
          attributes = element.now.attributes;
          children = children;
        }) }
{
    let spaces = both(
        copy_text(&element.namespace),
        copy_pairs(&element.namespaces),
    );
    let named = both(copy_text(&element.prefix), element.name.try_clone());
    match both(both(named, spaces), element.attributes.try_clone()) {
        Ok((((prefix, name), (namespace, namespaces)), attributes)) => Ok(Element {
            prefix,
            namespace,
            namespaces,
            name,
            attributes,
            children,
        }),
        Err(error) => Err(error),
    }
}

/// Equal nodes. They may be refused for want of memory.
pub(crate) fn copy_nodes(alloc: Global, nodes: &[XmlNode]) -> Result<Nodes, NoMemory>
    ensures { IfOk result (λ copy. copy ≡ forest_of nodes.now) }
{
    let mut open: Vec<Open> = Vec::new(alloc);
    let mut done = Nodes::empty(alloc);
    let mut left = nodes;
    loop {
        match left.split_first() {
            Some((node, behind)) => match copy_leaf(node)? {
                Found::Leaf(leaf) => {
                    done.push(leaf)?;
                    left = behind;
                }
                Found::Inner(inner) => {
                    let element = copy_around(inner, Nodes::empty(alloc))?;
                    open.push(Open {
                        element,
                        before: done,
                        behind,
                    })?;
                    done = Nodes::empty(alloc);
                    left = inner.children.as_slice();
                }
            },
            None => match open.pop() {
                Some(last) => (done, left) = last.close(done)?,
                None => return Ok(done),
            },
        }
    }
}
