ghost use Rattle.std.specs.Prelude.{◌≡◌, IfOk};

use crate::filters::copy_match;
use crate::{ParameterFilters, TextMatch};
use dav_io::{NoMemory, Text};
use dav_lock::both;

/// What is asked of a property of a vCard (RFC 6352 section 10.5.1).
#[derive(Drop)]
pub struct PropertyFilter {
    pub name: Text,
    /// The property must not be there.
    pub is_not_defined: bool,
    pub text_match: Option<TextMatch>,
    pub param_filters: ParameterFilters,
}

impl PropertyFilter {
    /// An equal filter. It may be refused for want of memory.
    pub fn try_clone(&self) -> Result<Self, NoMemory>
        ensures { IfOk result (λ copy. copy ≡ self.now) }
    {
        let asked = both(copy_match(&self.text_match), self.param_filters.try_clone());
        match both(self.name.try_clone(), asked) {
            Ok((name, (text_match, param_filters))) => Ok(PropertyFilter {
                name,
                is_not_defined: self.is_not_defined,
                text_match,
                param_filters,
            }),
            Err(error) => Err(error),
        }
    }
}
