// A resource as it is read.
use dav_core::FsError;
use dav_io::{Octets, Text};

/// A resource that was read.
#[derive(Drop)]
pub struct Resource {
    /// The text of its entity tag, and empty where it has none.
    pub etag: Text,
    pub content: Octets,
}

/// Why a resource isn't read.
#[derive(Clone, Copy, Debug, PartialEq)]
pub enum Unread {
    /// Its file was opened, and its metadata refused.
    Unsaid(FsError),
    /// Opening or reading it was refused.
    Refused,
    /// Memory was refused.
    NoMemory,
}
