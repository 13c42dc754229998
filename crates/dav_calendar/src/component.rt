use crate::property::Properties;
use dav_io::{NoMemory, Text};
use std::alloc::Global;
use std::marker::Model;

/// A component of a calendar text: its name in ASCII capitals, its own properties, and the components in it (RFC 5545
/// sections 3.4 and 3.6).
#[cycle(components)]
#[derive(Drop)]
pub struct Component {
    pub name: Text,
    pub properties: Properties,
    pub children: Components,
}

/// Components in their order. A contract sees them as data of its own, since a component holds others.
#[cycle(components)]
pub struct Components {
    components: Vec<Component>,
}

impl Drop for Components {
    // The components in a component join those that wait, so how deep they nest takes no stack.
    #[cycle(drops)]
    fn drop(self) {
        let mut waiting = self.into_vec();
        while let Some(component) = waiting.pop() {
            let mut inner = component.children.into_vec();
            let _ = waiting.append(&mut inner);
        }
    }
}

impl Model for Components {
    ghost use Rattle.dav_calendar.specs.Trees.{Tree, depth};
    ghost use Rattle.dav_calendar.specs.TreeCodes.{tree_code};

    ghost Value = { Tree };

    ghost coded = { tree_code };

    ghost use Rattle.dav_calendar.specs.TreeLists.{tree_of};

    ghost view = { λ c. tree_of c.components.items };

    ghost size = { depth };

    ghost use Rattle.dav_calendar.specs.TreesAreLower.{below_depth};

    ghost size_decreases = { λ a h. below_depth a.components.items };
}

impl Components {
    ghost use Rattle.std.specs.Prelude.{◌≡◌, [], ◌∷◌, IfOk, OnOk, OnErr};
    ghost use Rattle.dav_calendar.specs.Trees.{bare, joined};
    ghost use Rattle.dav_calendar.specs.TreeLists.{tree_of};

    /// These components, in this order.
    pub fn new(components: Vec<Component>) -> Self
        ensures { result ≡ tree_of components.items }
    {
        Components { components }
    }

    /// No components yet, from this allocator on.
    pub fn empty(alloc: Global) -> Self
        ensures { result ≡ bare }
    {
        Components {
            components: Vec::new(alloc),
        }
    }

    /// The components in their order.
    pub fn as_slice(&self) -> &[Component]
        ensures { tree_of result.now ≡ self.now }
    {
        self.components.as_slice()
    }

    /// Gives the components back, and takes no memory.
    pub fn into_vec(self) -> Vec<Component>
        ensures { tree_of result.items ≡ self }
    {
        let Components { components } = self;
        components
    }

    /// Adds a component after the others. Where memory is refused, nothing changes.
    pub fn push(&mut self, component: Component) -> Result<(), NoMemory>
        ensures ok { OnOk result (self.new ≡ joined self.old (tree_of (component ∷ []))) }
        ensures err { OnErr result (self.new ≡ self.old) }
    {
        self.components.push(component)?;
        Ok(())
    }
}
