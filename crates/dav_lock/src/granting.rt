//! Values that memory is asked for, side by side.
ghost use Rattle.std.specs.Prelude.{◌≡◌, IfOk, Ok};

use dav_io::NoMemory;

/// Both values, where memory was granted for each.
pub fn both<A: Drop, B: Drop>(
    first: Result<A, NoMemory>,
    second: Result<B, NoMemory>,
) -> Result<(A, B), NoMemory>
    ensures { IfOk result (λ pair. (first ≡ Ok pair.0) × (second ≡ Ok pair.1)) }
{
    match first {
        Ok(first) => match second {
            Ok(second) => Ok((first, second)),
            Err(error) => Err(error),
        },
        Err(error) => Err(error),
    }
}
