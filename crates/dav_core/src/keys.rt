// The keys of a table.
ghost use Rattle.std.specs.Prelude.{◌≡◌, ◌<◌, ◌^◌, ℕ, None, Some, IsSome, IfSome, IfNone};
ghost use Rattle.dav_core.specs.World.{at_key};

use std::collections::BTreeMap;

/// The least key that a table doesn't have, or none where it has all.
pub fn free_key<V>(table: &BTreeMap<u32, V>) -> Option<u32>
    ensures free { IfSome result (λ key. at_key table.now key ≡ None) }
    ensures full { IfNone result ((key : ℕ) → key < 2 ^ 32 → IsSome (at_key table.now key)) }
{
    for key in 0..=u32::MAX {
        if !table.contains_key(&key) {
            return Some(key);
        }
    }
    None
}
