//! Which resources of a store a calendar or address book report selects (RFC 4791 and RFC 6352).
#![tactic(auto)]

mod calendars;
mod cards;
mod following;
pub mod laws;
mod reading;
mod resource;
mod told;
mod walking;
mod wanted;

pub use calendars::calendar_report;
pub use cards::addressbook_report;
pub use dav_matching::{Folds, address_matches, calendar_matches};
pub use told::{ReportKind, local_report, shows_the_tree};
