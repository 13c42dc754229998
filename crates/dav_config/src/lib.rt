//! What makes the server a library: a handler that is built from a configuration, over any store.
#![tactic(auto)]

mod answering;
mod asked;
mod bulk;
mod config;
mod finding;
mod gates;
mod given;
mod handler;
mod handling;
pub mod laws;
mod merging;
mod refusals;
mod respond;
mod writing;

pub use answering::Answered;
pub use asked::{Asked, Content};
pub use config::DavConfig;
pub use dav_lock::FakeLs;
pub use dav_model::Settings;
pub use finding::{Found, find};
pub use handler::DavHandler;
