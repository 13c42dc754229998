use dav_io::{Fields, Octets};

/// The answer to a step.
#[derive(Drop)]
pub enum Answer {
    /// A status, the header fields in ascending order of their lower-case names, and the number of the body.
    Reply {
        status: u16,
        headers: Fields,
        body: u32,
    },
    /// The next piece of a body, never empty.
    Piece(Octets),
    /// Nothing of the body is left.
    End,
    /// The disk failed, and nothing of the body is left.
    Broken,
    /// The step was made.
    Done,
}
