use crate::caldav::copying::{copy_around, copy_filters};
use crate::caldav::{PropertyFilters, TimeRange};
use dav_io::{NoMemory, Text};
use std::alloc::Global;
use std::marker::Model;

/// What is asked of a calendar component and of those in it (RFC 4791 section 9.7.1).
#[cycle(filters)]
#[derive(Drop)]
pub struct ComponentFilter {
    pub name: Text,
    /// The component must not be there.
    pub is_not_defined: bool,
    pub time_range: Option<TimeRange>,
    pub prop_filters: PropertyFilters,
    pub comp_filters: ComponentFilters,
}

/// Filters of components, in their order. A contract sees them as data of its own, since a filter holds others.
#[cycle(filters)]
pub struct ComponentFilters {
    filters: Vec<ComponentFilter>,
}

impl Drop for ComponentFilters {
    // The filters in a filter join those that wait, so how deep filters nest takes no stack.
    #[cycle(drops)]
    fn drop(self) {
        let mut waiting = self.into_vec();
        while let Some(filter) = waiting.pop() {
            let mut inner = filter.comp_filters.into_vec();
            let _ = waiting.append(&mut inner);
        }
    }
}

impl Model for ComponentFilters {
    ghost use Rattle.dav_report.specs.Filters.{Filters, filters_depth};
    ghost use Rattle.dav_report.specs.FilterCodes.{filters_code};

    ghost Value = { Filters };

    ghost coded = { filters_code };

    ghost use Rattle.dav_report.specs.FilterLists.{filters_of};

    ghost view = { λ f. filters_of f.filters.items };

    ghost size = { filters_depth };

    ghost use Rattle.dav_report.specs.FiltersAreLower.{below_depth};

    ghost size_decreases = { λ a h. below_depth a.filters.items };
}

impl ComponentFilters {
    ghost use Rattle.std.specs.Prelude.{◌≡◌, [], ◌∷◌, IfOk, OnOk, OnErr};
    ghost use Rattle.dav_report.specs.Filters.{no_filters, joined};
    ghost use Rattle.dav_report.specs.FilterLists.{filters_of};

    /// These filters, in this order.
    pub fn new(filters: Vec<ComponentFilter>) -> Self
        ensures { result ≡ filters_of filters.items }
    {
        ComponentFilters { filters }
    }

    /// No filters yet, from this allocator on.
    pub fn empty(alloc: Global) -> Self
        ensures { result ≡ no_filters }
    {
        ComponentFilters {
            filters: Vec::new(alloc),
        }
    }

    /// The filters in their order.
    pub fn as_slice(&self) -> &[ComponentFilter]
        ensures { filters_of result.now ≡ self.now }
    {
        self.filters.as_slice()
    }

    /// Gives the filters back, and takes no memory.
    pub fn into_vec(self) -> Vec<ComponentFilter>
        ensures { filters_of result.items ≡ self }
    {
        let ComponentFilters { filters } = self;
        filters
    }

    /// Adds a filter after the others. Where memory is refused, nothing changes.
    pub fn push(&mut self, filter: ComponentFilter) -> Result<(), NoMemory>
        ensures ok { OnOk result (self.new ≡ joined self.old (filters_of (filter ∷ []))) }
        ensures err { OnErr result (self.new ≡ self.old) }
    {
        self.filters.push(filter)?;
        Ok(())
    }

    /// Equal filters, with those in them. It may be refused for want of memory.
    pub fn try_clone(&self) -> Result<Self, NoMemory>
        ensures { IfOk result (λ copy. copy ≡ self.now) }
    {
        copy_filters(*self.filters.allocator(), self.filters.as_slice())
    }
}

impl ComponentFilter {
    ghost use Rattle.std.specs.Prelude.{◌≡◌, IfOk};

    /// An equal filter, with those in it. It may be refused for want of memory.
    pub fn try_clone(&self) -> Result<Self, NoMemory>
        ensures { IfOk result (λ copy. copy ≡ self.now) }
    {
        copy_around(self, self.comp_filters.try_clone()?)
    }
}
