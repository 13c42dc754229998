//! Calendar and address book reports over element trees: their types, the elements that answers are made of, and the
//! reading of a request (RFC 4791 and RFC 6352). The components of calendar texts are those of `dav_calendar`.
#![tactic(auto)]

mod address_parts;
mod answer;
pub mod caldav;
mod calendar_parts;
pub mod carddav;
mod children;
mod content;
mod element_ext;
mod element_iters;
mod error;
mod filter_parts;
mod filters;
mod laws;
mod makers;
mod names;
mod parse;

pub use answer::{Record, Records, Report};
pub use content::{
    extract_calendar_uid, extract_vcard_fn, extract_vcard_uid, is_calendar_data, is_vcard_data,
};
pub use dav_calendar::{Component, Components, Properties, Property, overlaps, read_components};
pub use element_ext::ElementExt;
pub use element_iters::{Elements, ElementsInto};
pub use error::ReportError;
pub use filters::{ParameterFilter, ParameterFilters, TextMatch};
pub use laws::names_are_exact;
pub use names::Names;
pub use parse::{parse_addressbook_report, parse_calendar_report};
