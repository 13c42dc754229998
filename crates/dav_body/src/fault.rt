ghost use Rattle.std.specs.Prelude.{◌≡◌};

use dav_io::NoMemory;
use thiserror::Error;

/// Why a body gives no piece.
#[derive(Clone, Copy, Debug, PartialEq, Eq, Error)]
pub enum BodyFault {
    /// The outside failed, and the body is at its end.
    #[error("the body broke")]
    Broken,
    /// No memory for the piece. What the body has left is as it was.
    #[error("out of memory")]
    NoMemory,
}

impl From<NoMemory> for BodyFault {
    ghost use Rattle.std.specs.Prelude.{◌≡◌};
    ghost use Rattle.dav_body.specs.declared.fault.BodyFault.TheVariants.{NoMemory as no_memory};

    ghost from_gives = { λ _ fault. fault ≡ no_memory };

    fn from(_: NoMemory) -> Self {
        BodyFault::NoMemory
    }
}
