//! `run`, all that the program does over the outside that it is handed, and the words that say what.
#![tactic(auto)]

pub mod run;
mod serving;
mod words;

pub use dav_serving::Ending;
