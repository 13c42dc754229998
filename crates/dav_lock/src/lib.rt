//! Element trees, as a reader of XML gives them, and the lock system of a server.
#![tactic(auto)]

mod copying;
mod element;
mod fakels;
mod granting;
mod lease;
mod lock;
mod locks;
mod pairs;
mod token;

pub use element::{Element, Nodes, XmlNode, copy_text};
pub use fakels::{DavLockSystem, FakeLs};
pub use granting::both;
pub use lease::{Lease, end_of, grant};
pub use lock::{DavLock, LockError};
pub use locks::Locks;
pub use pairs::Pairs;
