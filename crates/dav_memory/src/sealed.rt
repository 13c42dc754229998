/// How a seal ended.
#[derive(Clone, Copy, Debug, PartialEq, Eq)]
pub enum Sealed {
    /// The directory's entry stands, and so does each name that the cache has room for.
    Done,
    /// The greatest number was given before. Nothing was changed.
    Last,
    /// Memory was refused: the directory's entry is out, and the names put so far stand.
    NoMemory,
}
