//! The outside of a server as its code sees it: sources of bytes, sinks for them, clocks, and the small types that
//! cross every layer. An object of the outside counts its faults, and answers `Failed` only where the count rose.
#![tactic(auto)]

mod clock;
mod failure;
mod faults;
mod field_name;
mod field_value;
mod fields;
mod items;
mod memory;
mod octets;
mod outside;
mod sure;
mod text;
mod writing;

pub use clock::{Clock, Moment, SetClock};
pub use failure::{Failed, NoMemory};
pub use faults::Faults;
pub use field_name::FieldName;
pub use field_value::FieldValue;
pub use fields::{Field, Fields, add_field};
pub use items::{Items, TryClone};
pub use memory::{MemSink, MemSource};
pub use octets::Octets;
pub use outside::{Client, Sink, Source};
pub use sure::{SureSink, SureSource};
pub use text::Text;
pub use writing::put_all;
