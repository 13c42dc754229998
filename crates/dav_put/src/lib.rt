//! Stores an input at a path, whole or not at all.
#![tactic(auto)]

mod ending;
mod local;
mod running;
mod storing;
mod words;

pub use ending::Ending;
pub use local::{perform_local, put};
pub use running::perform;
pub use storing::{Destination, Stop, store};
pub use words::{Task, task_said};
