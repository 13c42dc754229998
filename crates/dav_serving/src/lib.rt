//! Serving: the exchanges of a connection, and the loop over its requests, which a player answers.
#![tactic(auto)]

mod asking;
mod ending;
mod exchange;
pub mod laws;
mod serving;
mod turns;

pub use ending::Ending;
pub use serving::serve_requests;
