//! Element trees in words, which stand one after another.
//!
//! - `e|NAME|A=TEXT|..` opens an element of a name, before which a prefix and a colon may stand, with attributes.
//! - `n|URI` sets the namespace of the innermost element.
//! - `t|TEXT`, `c|TEXT`, `d|TEXT` and `p|TARGET` add a text, a comment, a CDATA section and a processing instruction.
//! - `/` closes the innermost element. Elements that are open at the end of a row are closed there.
//! - `x|N` does the next word N times.
//!
//! A printed tree is in the same words, with `ns|PREFIX|URI` for each namespace that an element declares.

use dav_io::{NoMemory, Text};
use dav_lock::{Element, Pairs, XmlNode};
use dav_report::ElementExt;
use dav_rows::{Line, cell, unescaped_text};
use std::alloc::Global;

/// An element that holds the trees of a row behind its first words.
pub fn read(alloc: Global, row: &str, first: usize) -> Result<Element, NoMemory> {
    let mut open = Vec::new(alloc);
    let holds = add_all(alloc, &mut open, row, first);
    match open.pop() {
        Some(holder) => holds.map(|_| holder),
        None => Err(NoMemory),
    }
}

// Opens the element that is to hold the trees, adds them, and closes what is open in it.
fn add_all(
    alloc: Global,
    open: &mut Vec<Element>,
    row: &str,
    first: usize,
) -> Result<(), NoMemory> {
    open_element(alloc, open, "")?;
    let mut times: u64 = 1;
    for word in row.split(' ').skip(first) {
        if cell(word, 0) == "x" {
            times = cell(word, 1).parse::<u64>().unwrap_or(1);
        } else {
            for _ in 0..times {
                add(alloc, open, word)?;
            }
            times = 1;
        }
    }
    for _ in 1..open.len() {
        close(open)?;
    }
    Ok(())
}

/// The first tree of a row behind its first words.
pub fn root(alloc: Global, row: &str, first: usize) -> Result<Element, NoMemory> {
    match read(alloc, row, first)?.child_elems_into_iter().next() {
        Some(root) => Ok(root),
        None => Element::new2(alloc, ""),
    }
}

fn add(alloc: Global, open: &mut Vec<Element>, word: &str) -> Result<(), NoMemory> {
    match cell(word, 0) {
        "e" => start(alloc, open, word),
        "/" => close(open),
        "n" => {
            name_space(open, unescaped_text(alloc, cell(word, 1))?);
            Ok(())
        }
        _ => match node(alloc, word)? {
            Some(node) => add_node(open, node),
            None => Ok(()),
        },
    }
}

// The node of a word that is no element's.
fn node(alloc: Global, word: &str) -> Result<Option<XmlNode>, NoMemory> {
    let text = unescaped_text(alloc, cell(word, 1))?;
    Ok(match cell(word, 0) {
        "t" => Some(XmlNode::Text(text)),
        "c" => Some(XmlNode::Comment(text)),
        "d" => Some(XmlNode::CData(text)),
        "p" => Some(XmlNode::ProcessingInstruction(text, None)),
        _ => None,
    })
}

fn open_element(alloc: Global, open: &mut Vec<Element>, name: &str) -> Result<(), NoMemory> {
    open.push(Element::new2(alloc, name)?)?;
    Ok(())
}

fn start(alloc: Global, open: &mut Vec<Element>, word: &str) -> Result<(), NoMemory> {
    open_element(alloc, open, cell(word, 1))?;
    match open.last_mut() {
        Some(element) => add_attributes(alloc, &mut element.attributes, word),
        None => Ok(()),
    }
}

fn add_attributes(alloc: Global, attributes: &mut Pairs, word: &str) -> Result<(), NoMemory> {
    for attribute in word.split('|').skip(2) {
        let name = attribute.split('=').next().unwrap_or("");
        let value = attribute.split('=').nth(1).unwrap_or("");
        attributes.put(Text::copy(alloc, name)?, unescaped_text(alloc, value)?)?;
    }
    Ok(())
}

fn name_space(open: &mut Vec<Element>, uri: Text) {
    if let Some(element) = open.last_mut() {
        element.namespace = Some(uri);
    }
}

fn add_node(open: &mut Vec<Element>, node: XmlNode) -> Result<(), NoMemory> {
    match open.last_mut() {
        Some(element) => element.children.push(node),
        None => Ok(()),
    }
}

fn close(open: &mut Vec<Element>) -> Result<(), NoMemory> {
    match open.pop() {
        Some(inner) => add_node(open, XmlNode::Element(inner)),
        None => Ok(()),
    }
}

fn tell_start(line: &mut Line, element: &Element) {
    line.add(" e|");
    if let Some(prefix) = &element.prefix {
        line.tell(prefix.as_str(), ":");
    }
    line.add(element.name.as_str());
    tell_pairs(
        line,
        &element.attributes,
        &["content-type", "name", "version"],
        ["|", "="],
    );
    if let Some(uri) = &element.namespace {
        line.tell(" n|", uri.as_str());
    }
    if let Some(pairs) = &element.namespaces {
        tell_pairs(line, pairs, &["C", "D"], [" ns|", "|"]);
    }
}

// Adds the pairs of these names, with a mark in front of each name and each value.
fn tell_pairs(line: &mut Line, pairs: &Pairs, names: &[&str], marks: [&str; 2]) {
    for name in names {
        if let Some(value) = pairs.find(name) {
            line.tell(marks[0], name);
            line.tell(marks[1], value.as_str());
        }
    }
}

/// Adds the words of an element tree.
pub fn tell_tree(alloc: Global, line: &mut Line, root: &Element) {
    if tell_inner(alloc, line, root).is_err() {
        line.refuse();
    }
}

fn tell_inner(alloc: Global, line: &mut Line, root: &Element) -> Result<(), NoMemory> {
    tell_start(line, root);
    let mut waiting = Vec::new(alloc);
    waiting.push(root.children.as_slice())?;
    for _ in 0..u64::MAX {
        let (first, others) = match waiting.pop() {
            Some([first, others @ ..]) => (first, others),
            Some([]) => {
                line.add(" /");
                continue;
            }
            None => break,
        };
        waiting.push(others)?;
        match first {
            XmlNode::Element(inner) => {
                tell_start(line, inner);
                waiting.push(inner.children.as_slice())?;
            }
            _ => tell_leaf(line, first),
        }
    }
    Ok(())
}

fn tell_leaf(line: &mut Line, node: &XmlNode) {
    match node {
        XmlNode::Element(_) => {}
        XmlNode::Text(text) => line.tell(" t|", text.as_str()),
        XmlNode::Comment(text) => line.tell(" c|", text.as_str()),
        XmlNode::CData(text) => line.tell(" d|", text.as_str()),
        XmlNode::ProcessingInstruction(target, _) => line.tell(" p|", target.as_str()),
    }
}
