ghost use Rattle.std.specs.Prelude.{◌≡◌, [], ◌∷◌, IfOk};

use super::CalendarComponentType;
use dav_io::{NoMemory, Text};
use dav_lock::{both, copy_text};
use std::alloc::Global;
use std::marker::Model;

/// Kinds of components, in their order. A contract sees their list.
#[derive(Drop)]
pub struct ComponentTypes {
    kinds: Vec<CalendarComponentType>,
}

impl Model for ComponentTypes {
    ghost use Rattle.std.specs.Prelude.{List};
    ghost use Rattle.dav_report.specs.declared.caldav.resource.CalendarComponentType.{CalendarComponentType};

    ghost Value = { List CalendarComponentType };

    ghost view = { λ c. c.kinds.items };
}

impl ComponentTypes {
    /// These kinds, in this order.
    pub fn new(kinds: Vec<CalendarComponentType>) -> Self
        ensures { result ≡ kinds.items }
    {
        ComponentTypes { kinds }
    }

    /// The kinds in their order.
    pub fn as_slice(&self) -> &[CalendarComponentType]
        ensures { result.now ≡ self.now }
    {
        self.kinds.as_slice()
    }

    /// An equal list of kinds. It may be refused for want of memory.
    pub fn try_clone(&self) -> Result<Self, NoMemory>
        ensures { IfOk result (λ copy. copy ≡ self.now) }
    {
        let alloc: Global = *self.kinds.allocator();
        Ok(ComponentTypes {
            kinds: Vec::from_slice(alloc, self.as_slice())?,
        })
    }
}

/// The properties of a calendar collection (RFC 4791 section 5.2). Sizes are in bytes.
#[derive(Drop)]
pub struct CalendarProperties {
    pub description: Option<Text>,
    pub timezone: Option<Text>,
    pub supported_components: ComponentTypes,
    pub max_resource_size: Option<u64>,
    pub color: Option<Text>,
    pub display_name: Option<Text>,
}

impl CalendarProperties {
    /// Events, todos, journals and free-busy times, in resources of at most 1 MiB.
    pub fn defaults(alloc: Global) -> Result<Self, NoMemory>
        ensures { IfOk result
            (λ made. made
            ≡ record {
              description = None;
              timezone = None;
              supported_components = CalendarComponentType.VEvent
                  ∷ CalendarComponentType.VTodo
                  ∷ CalendarComponentType.VJournal
                  ∷ CalendarComponentType.VFreeBusy
                  ∷ [];
              max_resource_size = Some 1048576;
              color = None;
              display_name = None;
            }) }
    {
        let kinds = vec![in alloc;
            CalendarComponentType::VEvent,
            CalendarComponentType::VTodo,
            CalendarComponentType::VJournal,
            CalendarComponentType::VFreeBusy,
        ]?;
        Ok(CalendarProperties {
            description: None,
            timezone: None,
            supported_components: ComponentTypes::new(kinds),
            max_resource_size: Some(1024 * 1024),
            color: None,
            display_name: None,
        })
    }

    /// Equal properties. It may be refused for want of memory.
    pub fn try_clone(&self) -> Result<Self, NoMemory>
        ensures { IfOk result (λ copy. copy ≡ self.now) }
    {
        let told = both(copy_text(&self.description), copy_text(&self.timezone));
        let shown = both(copy_text(&self.color), copy_text(&self.display_name));
        match both(both(told, shown), self.supported_components.try_clone()) {
            Ok((((description, timezone), (color, display_name)), supported_components)) => {
                Ok(CalendarProperties {
                    description,
                    timezone,
                    supported_components,
                    max_resource_size: self.max_resource_size,
                    color,
                    display_name,
                })
            }
            Err(error) => Err(error),
        }
    }
}
