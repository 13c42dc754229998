//! What holds of the definitions alone. The calls do nothing, and their contracts are the laws.
ghost use Rattle.std.specs.Prelude.{◌≡◌, ◌+◌, ◌*◌, ℕ, sum};
ghost use Rattle.dav_bench.specs.Totals.{lengths};

/// How many bytes come from a large input, in one formula.
pub fn bytes_in_one_formula()
    ensures { (m : ℕ) → 2 * sum (lengths m) ≡ 8 * (m * (m + 89)) }
{}
