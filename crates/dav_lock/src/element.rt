ghost use Rattle.std.specs.Prelude.{◌≡◌, [], IfOk, OnOk, OnErr, option_map};

use crate::Pairs;
use crate::copying::{Found, copy_around, copy_leaf, copy_nodes};
use dav_io::{NoMemory, Text};
use std::alloc::Global;
use std::marker::Model;

/// An element of an XML document, with what stands in it.
#[cycle(trees)]
#[derive(Drop)]
pub struct Element {
    pub prefix: Option<Text>,
    pub namespace: Option<Text>,
    /// The namespaces that the element declares, by prefix.
    pub namespaces: Option<Pairs>,
    pub name: Text,
    pub attributes: Pairs,
    pub children: Nodes,
}

/// What stands in an element.
#[cycle(trees)]
#[derive(Drop)]
pub enum XmlNode {
    Element(Element),
    Text(Text),
    Comment(Text),
    CData(Text),
    ProcessingInstruction(Text, Option<Text>),
}

/// The nodes in an element, in their order. A contract sees them as a forest.
#[cycle(trees)]
pub struct Nodes {
    nodes: Vec<XmlNode>,
}

impl Drop for Nodes {
    // The nodes in an element join those that wait, so how deep a tree nests takes no stack. Where memory for them is
    // refused, they are let go by themselves.
    #[cycle(drops)]
    fn drop(self) {
        let mut waiting = self.into_vec();
        while let Some(node) = waiting.pop() {
            let mut inner = match node.into_children() {
                Some(inner) => inner,
                None => continue,
            };
            let _ = waiting.append(&mut inner);
        }
    }
}

impl Model for Nodes {
    ghost use Rattle.dav_lock.specs.Forests.{Forest, height};
    ghost use Rattle.dav_lock.specs.ForestCodes.{forest_code};

    ghost Value = { Forest };

    ghost coded = { forest_code };

    ghost use Rattle.dav_lock.specs.Trees.{forest_of};

    ghost view = { λ n. forest_of n.nodes.items };

    ghost size = { height };

    ghost use Rattle.dav_lock.specs.NodesAreLower.{below_height};

    ghost size_decreases = { λ a h. below_height a.nodes.items };
}

impl Nodes {
    ghost use Rattle.dav_lock.specs.Trees.{forest_of, tree_of};
    ghost use Rattle.dav_lock.specs.Forests.{bare, then, joined};

    /// These nodes, in this order.
    pub fn new(nodes: Vec<XmlNode>) -> Self
        ensures { result ≡ forest_of nodes.items }
    {
        Nodes { nodes }
    }

    /// No nodes yet, from this allocator on.
    pub fn empty(alloc: Global) -> Self
        ensures { result ≡ bare }
    {
        Nodes {
            nodes: Vec::new(alloc),
        }
    }

    /// The nodes in their order.
    pub fn as_slice(&self) -> &[XmlNode]
        ensures { forest_of result.now ≡ self.now }
    {
        self.nodes.as_slice()
    }

    /// Gives the nodes back, and takes no memory.
    pub fn into_vec(self) -> Vec<XmlNode>
        ensures { forest_of result.items ≡ self }
    {
        let Nodes { nodes } = self;
        nodes
    }

    /// Adds a node after the others. Where memory is refused, nothing changes.
    pub fn push(&mut self, node: XmlNode) -> Result<(), NoMemory>
        ensures ok { OnOk result (self.new ≡ joined self.old (then (tree_of node) bare)) }
        ensures err { OnErr result (self.new ≡ self.old) }
    {
        self.nodes.push(node)?;
        Ok(())
    }

    /// Equal nodes. They may be refused for want of memory.
    pub fn try_clone(&self) -> Result<Self, NoMemory>
        ensures { IfOk result (λ copy. copy ≡ self.now) }
    {
        copy_nodes(*self.nodes.allocator(), self.nodes.as_slice())
    }
}

impl XmlNode {
    ghost use Rattle.dav_lock.specs.Forests.{children_of};
    ghost use Rattle.dav_lock.specs.Trees.{tree_of, forest_of};

    /// An equal node. It may be refused for want of memory.
    pub fn try_clone(&self) -> Result<Self, NoMemory>
        ensures { IfOk result (λ copy. copy ≡ self.now) }
    {
        match copy_leaf(self)? {
            Found::Leaf(leaf) => Ok(leaf),
            Found::Inner(inner) => Ok(XmlNode::Element(inner.try_clone()?)),
        }
    }

    /// The nodes in an element. What else stands in a node is let go.
    fn into_children(self) -> Option<Vec<XmlNode>>
        ensures { option_map (λ nodes. forest_of nodes.items) result ≡ children_of (tree_of self) }
    {
        match self {
            XmlNode::Element(element) => Some(element.children.into_vec()),
            XmlNode::Text(_) | XmlNode::Comment(_) | XmlNode::CData(_) => None,
            XmlNode::ProcessingInstruction(_, _) => None,
        }
    }
}

impl Element {
    ghost use Rattle.dav_lock.specs.Forests.{bare};

    /// An element of this name alone, with nothing in it.
    pub fn new(alloc: Global, name: Text) -> Self
        ensures { result
            ≡ record {
              prefix = None;
              namespace = None;
              namespaces = None;
              name = name;
              attributes = [];
              children = bare;
            } }
    {
        Element {
            prefix: None,
            namespace: None,
            namespaces: None,
            name,
            attributes: Pairs::empty(alloc),
            children: Nodes::empty(alloc),
        }
    }

    /// An equal element. It may be refused for want of memory.
    pub fn try_clone(&self) -> Result<Self, NoMemory>
        ensures { IfOk result (λ copy. copy ≡ self.now) }
    {
        copy_around(self, self.children.try_clone()?)
    }
}

/// An equal text, where there is one. It may be refused for want of memory.
pub fn copy_text(text: &Option<Text>) -> Result<Option<Text>, NoMemory>
    ensures { IfOk result (λ copy. copy ≡ text.now) }
{
    match text {
        None => Ok(None),
        Some(text) => Ok(Some(text.try_clone()?)),
    }
}

/// A copy of pairs, where there are any.
pub(crate) fn copy_pairs(pairs: &Option<Pairs>) -> Result<Option<Pairs>, NoMemory>
    ensures { IfOk result (λ copy. copy ≡ pairs.now) }
{
    match pairs {
        None => Ok(None),
        Some(pairs) => Ok(Some(pairs.try_clone()?)),
    }
}
