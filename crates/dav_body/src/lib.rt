//! Bodies that are polled for their pieces: steps that give items, streams and bodies over them, and both forms as a
//! body of `http_body`. A poll here is never pending.
#![tactic(auto)]

mod attached;
mod body;
mod collecting;
mod fault;
mod framing;
pub mod laws;
mod sender;
mod steps;
mod stream;
mod stream_body;

pub use attached::Attached;
pub use body::{Body, BodyType};
pub use collecting::collect;
pub use fault::BodyFault;
pub use sender::{Sender, SenderFuture};
pub use steps::Steps;
pub use stream::AsyncStream;
pub use stream_body::StreamBody;
