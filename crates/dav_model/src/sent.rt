use crate::ranges::{Slice, Slices};

/// What of a file is sent in answer to a GET or HEAD.
#[derive(Drop)]
pub enum Sent {
    /// All of it.
    All,
    /// Nothing, with the status of a precondition: 304 or 412.
    Alone(u16),
    /// Nothing, since no range could be met.
    Unsatisfied,
    /// One slice.
    One(Slice),
    /// Several slices.
    Several(Slices),
}
