//! Sessions in threads of their own, which share the caches of their stores. Each is answered as by itself.
#![tactic(auto)]

mod playing;
mod session;

pub use playing::play_sessions;
pub use session::{AnswerList, Session, StepList};
