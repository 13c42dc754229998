//! The machine as the server sees it: the disk below a folder, standard streams and the clock. What they hold is not
//! told, so nothing is claimed of it.
#![tactic(auto)]

mod clock;
mod host;
mod listings;
mod meta;
mod opens;
mod paths;
mod refusals;
mod stream;
mod writing;

pub use clock::SystemClock;
pub use host::HostDisk;
pub use stream::{StdSink, StdSource};
