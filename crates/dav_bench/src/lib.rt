//! A large input that is made from a number, and what is counted over it.
#![tactic(auto)]

mod asking;
mod benching;
mod counting;
mod laws;
mod making;
mod names;
mod playing;
mod report;

pub use benching::bench;
pub use laws::bytes_in_one_formula;
