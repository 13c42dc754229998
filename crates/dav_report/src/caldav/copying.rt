//! Copies of filters of components. A loop makes them, so how deep filters nest costs memory and no stack.
ghost use Rattle.std.specs.Prelude.{◌≡◌, IfOk};
ghost use Rattle.dav_report.specs.FilterLists.{filters_of};

use crate::caldav::property_filter::copy_range;
use crate::caldav::{ComponentFilter, ComponentFilters};
use dav_io::NoMemory;
use dav_lock::both;
use std::alloc::Global;

/// A filter of which the filters in it are being copied.
#[derive(Drop)]
struct Open<'a> {
    /// Its copy, with no filters in it yet.
    filter: ComponentFilter,
    /// The copies of the filters before it.
    before: ComponentFilters,
    /// The filters behind it, which are still to be copied.
    behind: &'a [ComponentFilter],
}

impl<'a> Open<'a> {
    ghost use Rattle.std.specs.Prelude.{[], ◌∷◌};
    ghost use Rattle.dav_report.specs.Filters.{joined};

    /// The copies up to the filter, which has these filters in it; and the filters behind it.
    fn close(
        self,
        inner: ComponentFilters,
    ) -> Result<(ComponentFilters, &'a [ComponentFilter]), NoMemory>
        ensures { IfOk result
            (λ closed.
            (closed.0 ≡ joined self.entry.before (filters_of (record self.entry.filter { comp_filters = inner } ∷ [])))
            × (closed.1.now ≡ self.entry.behind.now)) }
    {
        let Open {
            mut filter,
            before: mut done,
            behind,
        } = self;
        filter.comp_filters = inner;
        done.push(filter)?;
        Ok((done, behind))
    }
}

/// A copy of the filter with these filters in it. It may be refused for want of memory.
pub(crate) fn copy_around(
    filter: &ComponentFilter,
    comp_filters: ComponentFilters,
) -> Result<ComponentFilter, NoMemory>
    ensures { IfOk result
        (λ copy. copy
        ≡ record {
          name = filter.now.name;
          is_not_defined = filter.now.is_not_defined;
          time_range = filter.now.time_range;
          prop_filters = filter.now.prop_filters;
          comp_filters = comp_filters;
        }) }
{
    let asked = both(
        copy_range(&filter.time_range),
        filter.prop_filters.try_clone(),
    );
    match both(filter.name.try_clone(), asked) {
        Ok((name, (time_range, prop_filters))) => Ok(ComponentFilter {
            name,
            is_not_defined: filter.is_not_defined,
            time_range,
            prop_filters,
            comp_filters,
        }),
        Err(error) => Err(error),
    }
}

/// Equal filters. They may be refused for want of memory.
pub(crate) fn copy_filters(
    alloc: Global,
    filters: &[ComponentFilter],
) -> Result<ComponentFilters, NoMemory>
    ensures { IfOk result (λ copy. copy ≡ filters_of filters.now) }
{
    let mut open: Vec<Open> = Vec::new(alloc);
    let mut done = ComponentFilters::empty(alloc);
    let mut left = filters;
    loop {
        match left.split_first() {
            Some((first, behind)) => {
                let filter = copy_around(first, ComponentFilters::empty(alloc))?;
                open.push(Open {
                    filter,
                    before: done,
                    behind,
                })?;
                done = ComponentFilters::empty(alloc);
                left = first.comp_filters.as_slice();
            }
            None => match open.pop() {
                Some(last) => (done, left) = last.close(done)?,
                None => return Ok(done),
            },
        }
    }
}
