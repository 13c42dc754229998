//! Answers steps over a disk: the gates, GET and HEAD of files, bodies that are polled piece by piece, and the player.
#![tactic(auto)]

mod bodies;
mod found;
mod player;
mod playing;
mod replies;

pub use dav_config::{DavConfig, DavHandler};
pub use dav_local::LocalFs;
pub use dav_memory::{Forget, Remember};
pub use dav_model::{Answer, Settings, Step};
pub use player::Player;
pub use playing::play;
pub use replies::Reply;
