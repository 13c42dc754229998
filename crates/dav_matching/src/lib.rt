//! Which calendar texts and vCards the filters of a report match (RFC 4791 section 9.7 and RFC 6352 section 10.5).
#![tactic(auto)]

mod calendars;
mod cards;
mod fold;
mod folds;
mod properties;
mod texts;

pub use calendars::calendar_matches;
pub use cards::address_matches;
pub use folds::Folds;
