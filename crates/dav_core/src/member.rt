use crate::{FileTime, Kind};
use dav_io::Text;

/// A member of a directory, as far as a page of it shows it. A contract sees it as the record of these fields.
#[derive(Drop)]
pub struct Member {
    /// Its name, the last of its path. (The type doesn't say that it is plain: who hands on members says it.)
    pub name: Text,
    pub kind: Kind,
    /// Its length in bytes.
    pub len: u64,
    /// The time of its last change in UTC, where it is known.
    pub modified: Option<FileTime>,
}
