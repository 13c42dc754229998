//! What the programs that read rows share: the line that a row is answered by, the bytes that a cell of it spells,
//! the texts that its words write, and the fields of a request.
//!
//! Nothing is promised of either. What a program prints is compared with what it must print.
#![tactic(auto)]

mod cells;
mod fields;
mod line;
mod words;

pub use cells::{bytes_of, text_of};
pub use fields::{add_field, add_value};
pub use line::Line;
pub use words::{cell, unescaped, unescaped_text, word};
