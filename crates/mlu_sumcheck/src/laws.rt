//! What claims that pass are worth.
//!
//! The function does nothing: what it says stands in its contract, which speaks of the definitions
//! alone.
ghost use Rattle.std.specs.Prelude.{◌≡◌, ◌^◌, ◌⊎◌, length, ℕ};
ghost use Rattle.mlu_ring.specs.Tables.{pair};
ghost use Rattle.mlu_sumcheck.specs.Rounds.{product_of_values, FitFromTo, IsCaughtAt};

use mlu_ring::PrimeCharacteristicRing;

/// Let claims from `first` to `last` fit, as [`verify`](crate::verify) says, and `last` be the product of
/// both tables' values at the challenges. Then `first` is the sum of the products of both tables, or
/// some round is caught: it adds up to another sum than that of the tables folded at the challenges
/// before it, and yet has the value of their round at its challenge.
///
/// Asks for `2^k` entries in each table and `k` rounds, where there are `k` challenges.
pub fn caught<EF: PrimeCharacteristicRing>(
    poly: &[EF],
    weights: &[EF],
    first: EF,
    last: EF,
    rounds: &[[EF; 3]],
    challenges: &[EF],
)
    requires poly_size { length poly.now ≡ 2 ^ length challenges.now }
    requires weights_size { length weights.now ≡ 2 ^ length challenges.now }
    requires number { length rounds.now ≡ length challenges.now }
    requires fit { FitFromTo EF.ring first last rounds.now challenges.now }
    requires values { last ≡ product_of_values EF.ring weights.now poly.now challenges.now }
    ensures { (first ≡ pair EF.ring weights.now poly.now)
        ⊎ ((i : ℕ) × IsCaughtAt EF.ring weights.now poly.now rounds.now challenges.now i) }
{}
