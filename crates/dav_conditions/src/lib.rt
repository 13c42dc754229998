//! The preconditions of a request (RFC 9110, section 13), judged on what stands at its path, by its metadata.
#![tactic(auto)]

mod conditions;
mod fields;
mod standing;

pub use conditions::{if_match, ifrange_match, ranges_are_heard, reads};
pub use fields::first_value;
