//! Text made safe for HTML, and back: a port of the Rust crate of this name. The entities are those of HTML 4.01.
//!
//! A page's title, made safe:
//!
//! ```
//! fn title(alloc: Global, name: &str) -> Result<String, NoMemory> {
//!     let safe = encode_minimal(alloc, name)?;
//!     Ok(format!(in alloc; "<title>{safe}</title>")?)
//! }
//! ```
//!
//! `title(alloc, "a<b>")` is `<title>a&lt;b&gt;</title>`. In an attribute's value without quotes only the text of
//! `encode_attribute` is safe.
#![tactic(auto)]

mod alphabet;
mod characters;
mod decode;
mod decoder;
mod encode;
mod entities;
mod faults;
pub mod laws;
mod memory;
mod name;
mod reading;
mod readings;
mod state;
mod writing;

pub use characters::{Chars, CharsError};
pub use decode::{MOST_CHARACTERS, decode_chars, decode_html, decode_html_rw};
pub use encode::{encode_attribute, encode_attribute_w, encode_minimal, encode_minimal_w};
pub use entities::{MINIMAL_ENTITIES, NAMED_ENTITIES, names_ascend, tables_are_exact};
pub use faults::{DecodeErr, DecodeErrKind, IoFault};
pub use reading::chars;
pub use writing::write_char;
