//! Calendar texts (RFC 5545): their components, the moments and durations in them, and whether a component is at some
//! time of a range (a profile of RFC 4791 section 9.9).
#![tactic(auto)]

mod component;
mod durations;
mod lines;
mod moments;
mod overlap;
mod property;
mod reading;

pub use component::{Component, Components};
pub use durations::read_duration;
pub use moments::{Moment, read_moment};
pub use overlap::overlaps;
pub use property::{Properties, Property};
pub use reading::read_components;
