// Faults of calls.
ghost use Rattle.std.specs.Prelude.{◌≡◌, ◌≤◌, ◌↔◌, Contains, IsTrue, IsErrOf, true, false};
ghost use Rattle.dav_io.specs.Counts.{Rose, one_more};
ghost use Rattle.dav_core.specs.declared.handle.DiskError.TheVariants.{Failed};

use dav_core::DiskError;

// Whether a call was refused with a fault.
pub fn is_fault<T>(answer: &Result<T, DiskError>) -> bool
    ensures { IsTrue result ↔ IsErrOf answer.now Failed }
{
    matches!(answer, Err(DiskError::Failed))
}

// The count of faults after a call that failed, or didn't.
pub fn noted(met: u64, fails: bool) -> u64
    ensures counts { met ≤ result }
    ensures rose { fails ≡ true → Rose met result }
    ensures once { fails ≡ true → result ≡ one_more met }
    ensures same { fails ≡ false → result ≡ met }
{
    if fails {
        return met.saturating_add(1);
    }
    met
}
