//! What calendar and address book filters share.
ghost use Rattle.std.specs.Prelude.{◌≡◌, [], IfOk, false};

use dav_io::{Items, NoMemory, Text, TryClone};
use dav_lock::{both, copy_text};
use std::alloc::Global;

/// The text that a property or a parameter is compared with (RFC 4791 section 9.7.5, RFC 6352 section 10.5.4).
#[derive(Drop)]
pub struct TextMatch {
    pub text: Text,
    pub collation: Option<Text>,
    /// What matches is then what the comparison refuses.
    pub negate_condition: bool,
    /// `equals`, `contains`, `starts-with` or `ends-with`.
    pub match_type: Option<Text>,
}

impl TextMatch {
    /// A comparison with the empty text.
    pub fn defaults(alloc: Global) -> Result<Self, NoMemory>
        ensures { IfOk result
            (λ made. made
            ≡ record { text = []; collation = None; negate_condition = false; match_type = None }) }
    {
        Ok(TextMatch {
            text: Text::copy(alloc, "")?,
            collation: None,
            negate_condition: false,
            match_type: None,
        })
    }

    /// An equal comparison. It may be refused for want of memory.
    pub fn try_clone(&self) -> Result<Self, NoMemory>
        ensures { IfOk result (λ copy. copy ≡ self.now) }
    {
        let kinds = both(copy_text(&self.collation), copy_text(&self.match_type));
        match both(self.text.try_clone(), kinds) {
            Ok((text, (collation, match_type))) => Ok(TextMatch {
                text,
                collation,
                negate_condition: self.negate_condition,
                match_type,
            }),
            Err(error) => Err(error),
        }
    }
}

/// A copy of a comparison, where there is one.
pub(crate) fn copy_match(text: &Option<TextMatch>) -> Result<Option<TextMatch>, NoMemory>
    ensures { IfOk result (λ copy. copy ≡ text.now) }
{
    match text {
        None => Ok(None),
        Some(text) => Ok(Some(text.try_clone()?)),
    }
}

/// What is asked of a property's parameter (RFC 6352 section 10.5.2).
#[derive(Drop)]
pub struct ParameterFilter {
    pub name: Text,
    /// The parameter must not be there.
    pub is_not_defined: bool,
    pub text_match: Option<TextMatch>,
}

impl ParameterFilter {
    /// Asks that the parameter of this name is there.
    pub fn new(alloc: Global, name: &str) -> Result<Self, NoMemory>
        ensures { IfOk result
            (λ made. made ≡ record { name = name.now; is_not_defined = false; text_match = None }) }
    {
        Ok(ParameterFilter {
            name: Text::copy(alloc, name)?,
            is_not_defined: false,
            text_match: None,
        })
    }
}

impl TryClone for ParameterFilter {
    fn try_clone(&self) -> Result<Self, NoMemory>
        ensures { IfOk result (λ copy. copy ≡ self.now) }
    {
        match both(self.name.try_clone(), copy_match(&self.text_match)) {
            Ok((name, text_match)) => Ok(ParameterFilter {
                name,
                is_not_defined: self.is_not_defined,
                text_match,
            }),
            Err(error) => Err(error),
        }
    }
}

/// Filters of parameters, in their order.
pub type ParameterFilters = Items<ParameterFilter>;
