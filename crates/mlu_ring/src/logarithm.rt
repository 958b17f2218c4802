//! Logarithms of sizes to the base 2.
ghost use Rattle.std.specs.Prelude.{◌≡◌, ◌^◌, ◌≤◌, ℕ, IsTrue};
ghost use Rattle.std.specs.Int.{is_power_of_two};

/// The logarithm of `n`. Asks for a power of two, which `is_power_of_two` tests.
#[inline]
pub fn log2_strict_usize(n: usize) -> usize
    requires { IsTrue (is_power_of_two n) }
    ensures { n ≡ 2 ^ result }
{
    n.trailing_zeros() as usize
}

/// The least `l` such that `n` is at most `2^l`.
#[inline]
pub fn log2_ceil_usize(n: usize) -> usize
    ensures enough { n ≤ 2 ^ result }
    ensures least { (l : ℕ) → n ≤ 2 ^ l → result ≤ l }
{
    (usize::BITS - n.saturating_sub(1).leading_zeros()) as usize
}
