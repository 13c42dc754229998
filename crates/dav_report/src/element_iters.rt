use dav_lock::{Element, XmlNode};
use std::vec::IntoIter;

/// The elements that stand in an element, lent in their order.
#[derive(Drop)]
pub struct Elements<'a> {
    nodes: &'a [XmlNode],
}

impl<'a> Elements<'a> {
    ghost use Rattle.std.specs.Prelude.{◌≡◌};
    ghost use Rattle.dav_lock.specs.Trees.{forest_of};
    ghost use Rattle.dav_report.specs.Children.{elements};
    ghost use Rattle.dav_report.specs.Children.{left};

    pub(crate) fn over(nodes: &'a [XmlNode]) -> Self
        ensures { left result ≡ elements (forest_of nodes.now) }
    {
        Elements { nodes }
    }
}

impl<'a> Iterator for Elements<'a> {
    ghost use Rattle.std.specs.Iterator.{YieldsFirstRef, item_count};
    ghost use Rattle.dav_report.specs.Children.{left};

    type Item = &'a Element;

    ghost next_gives = { YieldsFirstRef left };

    ghost remaining = { item_count left };

    fn next(&mut self) -> Option<&'a Element> {
        while let Some((first, others)) = self.nodes.split_first() {
            self.nodes = others;
            match first {
                XmlNode::Element(element) => return Some(element),
                _ => {}
            }
        }
        None
    }
}

/// The elements that stood in an element, in their order.
#[derive(Drop)]
pub struct ElementsInto {
    nodes: IntoIter<XmlNode>,
}

impl ElementsInto {
    ghost use Rattle.std.specs.Prelude.{◌≡◌};
    ghost use Rattle.dav_lock.specs.Trees.{forest_of};
    ghost use Rattle.dav_report.specs.Children.{elements};
    ghost use Rattle.dav_report.specs.Children.{left_into};

    pub(crate) fn over(nodes: Vec<XmlNode>) -> Self
        ensures { left_into result ≡ elements (forest_of nodes.items) }
    {
        ElementsInto {
            nodes: nodes.into_iter(),
        }
    }
}

impl Iterator for ElementsInto {
    ghost use Rattle.std.specs.Iterator.{YieldsFirst, item_count};
    ghost use Rattle.dav_report.specs.Children.{left_into};

    type Item = Element;

    ghost next_gives = { YieldsFirst left_into };

    ghost remaining = { item_count left_into };

    fn next(&mut self) -> Option<Element> {
        while let Some(node) = self.nodes.next() {
            match node {
                XmlNode::Element(element) => return Some(element),
                _ => {}
            }
        }
        None
    }
}
