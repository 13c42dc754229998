//! GET and HEAD over any store.
#![tactic(auto)]

mod asked;
mod autoindex;
mod body;
pub mod body_laws;
mod body_steps;
mod buffer;
mod deciding;
mod directories;
mod get;
mod headers;
mod open_at;
mod part;
mod parts;
mod prepared;
mod ranges;

pub use autoindex::handle_autoindex;
pub use body::{GetBody, Polled};
pub use buffer::ReadBuffer;
pub use get::handle_get;
pub use open_at::OpenAt;
pub use part::BodyPart;
pub use ranges::slices;
