//! The components of a calendar text.
ghost use Rattle.std.specs.Prelude.{◌≡◌, IfOk, OnOk, MatchBool, None, Some};
ghost use Rattle.dav_calendar.specs.Reading as reading;
ghost use Rattle.dav_calendar.specs.Reading.{after_line, after_said, Opens, Closes, Says};
ghost use Rattle.dav_calendar.specs.Open.{read_of};

use crate::component::{Component, Components};
use crate::lines::{component_name, name_of, unfold, value_of};
use crate::property::{Properties, Property};
use dav_io::{NoMemory, Text};
use std::alloc::Global;

/// How many components are open at most.
const MOST_OPEN: usize = 16;

/// What is read so far: the components that stand by themselves, and those that are open, the innermost last.
#[derive(Drop)]
struct Reading {
    tops: Components,
    live: Vec<Component>,
}

impl Reading {
    /// Opens a component, unless too many are open.
    fn begin(&mut self, alloc: Global, name: Text) -> Result<bool, NoMemory>
        ensures { IfOk result (λ went. MatchBool went
            (after_said (Opens name) (read_of self.old.tops self.old.live.items)
            ≡ Some (read_of self.new.tops self.new.live.items))
            (after_said (Opens name) (read_of self.old.tops self.old.live.items) ≡ None)) }
    {
        if self.live.len() >= MOST_OPEN {
            return Ok(false);
        }
        self.live.push(Component {
            name,
            properties: Properties::empty(alloc),
            children: Components::empty(alloc),
        })?;
        Ok(true)
    }

    /// Closes the innermost component, if it has this name.
    fn end(&mut self, name: Text) -> Result<bool, NoMemory>
        ensures { IfOk result (λ went. MatchBool went
            (after_said (Closes name) (read_of self.old.tops self.old.live.items)
            ≡ Some (read_of self.new.tops self.new.live.items))
            (after_said (Closes name) (read_of self.old.tops self.old.live.items) ≡ None)) }
    {
        let Some(inner) = self.live.pop() else {
            return Ok(false);
        };
        if inner.name.as_str() != name.as_str() {
            return Ok(false);
        }
        match self.live.pop() {
            Some(mut outer) => {
                outer.children.push(inner)?;
                self.live.push(outer)?;
            }
            None => self.tops.push(inner)?,
        }
        Ok(true)
    }

    /// Adds a property to the innermost component.
    fn say(&mut self, property: Property) -> Result<(), NoMemory>
        ensures { OnOk result (after_said (Says property) (read_of self.old.tops self.old.live.items)
            ≡ Some (read_of self.new.tops self.new.live.items)) }
    {
        if let Some(mut inner) = self.live.pop() {
            inner.properties.push(property)?;
            self.live.push(inner)?;
        }
        Ok(())
    }

    /// Takes a line. It answers false where the line doesn't fit, so that there is no tree.
    fn take(&mut self, alloc: Global, line: &str) -> Result<bool, NoMemory>
        ensures { IfOk result (λ went. MatchBool went
            (after_line line.now (read_of self.old.tops self.old.live.items)
            ≡ Some (read_of self.new.tops self.new.live.items))
            (after_line line.now (read_of self.old.tops self.old.live.items) ≡ None)) }
    {
        let Some(value) = value_of(line) else {
            return Ok(true);
        };
        let name = name_of(alloc, line)?;
        if name.as_str() == "BEGIN" {
            return self.begin(alloc, component_name(alloc, value)?);
        }
        if name.as_str() == "END" {
            return self.end(component_name(alloc, value)?);
        }
        self.say(Property {
            name,
            value: Text::copy(alloc, value)?,
        })?;
        Ok(true)
    }
}

/// The components of a calendar text, with those in them (RFC 5545 sections 3.1 and 3.4). None where it has no component
/// tree: an `END` closes no component or one of another name, a component stays open, or more than 16 are open at once.
///
/// Lines end with CRLF or LF, and one that begins with a space or a tab continues the line before it. What follows the
/// first colon outside quotes is the value of a line, which keeps its escapes; what stands before the first semicolon or
/// colon is its name. A line without such a colon is passed over, and so is a property outside any component.
///
/// It takes memory in proportion to the text, and time too.
pub fn read_components(alloc: Global, text: &str) -> Result<Option<Components>, NoMemory>
    ensures { IfOk result (λ found. found ≡ reading.components text.now) }
{
    let lines = unfold(alloc, text)?;
    let mut reading = Reading {
        tops: Components::empty(alloc),
        live: Vec::new(alloc),
    };
    for line in lines.as_slice() {
        if !reading.take(alloc, line.as_str())? {
            return Ok(None);
        }
    }
    if reading.live.is_empty() {
        let Reading { tops, live: _ } = reading;
        return Ok(Some(tops));
    }
    Ok(None)
}
