//! Index pages of directories: which texts are pages, a reader that knows no writer, and sizes as pages show them.
#![tactic(auto)]

mod cutting;
mod dates;
mod forms;
mod heading;
mod index;
pub mod laws;
mod literals;
mod meaning;
mod order;
mod reading;
mod row;
mod rows;
mod sizes;

pub use heading::display_path;
pub use index::{has_plain_names, index_page};
pub use reading::read_page;
pub use row::{PageRow, Rows};
pub use sizes::display_size;
