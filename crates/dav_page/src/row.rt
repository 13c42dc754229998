use dav_io::{Items, Text};

/// What a page says of an entry of its directory.
#[derive(Drop)]
pub struct PageRow {
    /// The path to which its link leads, percent-decoded.
    pub path: Text,
    /// Its name as the page shows it.
    pub name: Text,
    /// The text of its time: `YYYY-MM-DD HH:MM` in UTC, or empty where it isn't known.
    pub date: Text,
    /// The text of its size, or `[DIR]` and four blanks.
    pub size: Text,
}

/// The rows of a page, in order.
pub type Rows = Items<PageRow>;
