ghost use Rattle.std.specs.Prelude.{◌≡◌, ◌<◌, IfOk, max, min, vec_len};
ghost use Rattle.dav_model.specs.Bodies.{zeros_size};

use dav_io::NoMemory;
use std::alloc::Global;

// The most zeros in a piece.
pub(crate) const ZEROS_SIZE: usize = 4_096;

/// Room for the pieces of a file. It is made before the body, so that no poll takes memory for it.
#[derive(Drop)]
pub struct ReadBuffer {
    pub(crate) most: usize,
    pub(crate) bytes: Vec<u8>,
}

impl ReadBuffer {
    /// Room for pieces of at most `read_size` bytes of a file, and of at most 4,096 zeros. It is no longer than the
    /// longest slice, which has `longest` bytes.
    pub fn new(alloc: Global, read_size: usize, longest: u64) -> Result<Self, NoMemory>
        requires { 0 < read_size }
        ensures { IfOk result (λ buffer. (buffer.most ≡ read_size) × (vec_len buffer.bytes ≡ min longest (max read_size
            zeros_size))) }
    {
        let room = longest.min(read_size.max(ZEROS_SIZE) as u64) as usize;
        let bytes = vec![in alloc; 0; room]?;
        Ok(ReadBuffer {
            most: read_size,
            bytes,
        })
    }

    /// No room, for a body without a slice.
    pub fn none(alloc: Global) -> Self
        ensures most { result.most ≡ 0 }
        ensures bytes { vec_len result.bytes ≡ 0 }
    {
        ReadBuffer {
            most: 0,
            bytes: Vec::new(alloc),
        }
    }
}
