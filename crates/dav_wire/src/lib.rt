//! The wire of a server: requests are read from a source, and the bytes of answers are written to a sink.
#![tactic(auto)]

mod announcing;
mod answers;
mod body;
mod body_steps;
mod buffer;
mod chunks;
mod fields;
mod head;
mod input;
pub mod laws;
mod laying;
mod next;
mod output;
mod reading;
mod request;
mod size_line;

pub use announcing::{Announced, announced_by};
pub use answers::{answer_head, bad_request_text, framing, push_head, refusal_text, says_close};
pub use body::read_body;
pub use chunks::Framing;
pub use fields::asks_close;
pub use input::Input;
pub use next::{BodyRead, Flaw, Found, ReadError};
pub use output::Output;
pub use reading::fill_flushing;
pub use request::{is_old, takes_chunks};
