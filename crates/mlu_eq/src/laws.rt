//! Laws of the value of a table.
//!
//! The functions do nothing: what they say stands in their contracts, which speak of the
//! definitions alone.
ghost use Rattle.std.specs.Prelude.{◌≡◌, ◌<◌, ◌+◌, ◌^◌, ◌++◌, ◌∷◌, [], ℕ, length, slice_index_or};
ghost use Rattle.mlu_ring.specs.Tables.{value, vertex as vertex_at, weights, front, back, IsAffineInEach, VerticesDetermine};
ghost use Rattle.mlu_ring.specs.Tables.{powers, monomial_folds, univariate as polynomial, with_zeros, padded_value};

use mlu_ring::{AffineInEach, PrimeCharacteristicRing};

/// For all `n` and `x` with `x < 2^n`, the value at the vertex of `x` is entry `x`, or zero past the end.
pub fn vertex<R: PrimeCharacteristicRing>(entries: &[R])
    ensures { (n x : ℕ) → x < 2 ^ n → value R.ring entries.now (vertex_at R.ring n x) ≡ slice_index_or entries.now x R.ring.zero }
{}

/// For all `n`, the value is affine in each of `n` coordinates.
pub fn affine<R: PrimeCharacteristicRing>(entries: &[R])
    ensures { (n : ℕ) → IsAffineInEach R.ring n (value R.ring entries.now) }
{}

/// Compressing the first variables and evaluating at the others is evaluating at the joined point.
/// Asks for `2^n` entries, where both points have `n` coordinates together.
pub fn joined_prefix<R: PrimeCharacteristicRing>(entries: &[R], first: &[R], rest: &[R])
    requires { length entries.now ≡ 2 ^ (length first.now + length rest.now) }
    ensures { value R.ring (front R.ring (weights R.ring first.now) entries.now) rest.now
        ≡ value R.ring entries.now (first.now ++ rest.now) }
{}

/// Compressing the last variables and evaluating at the others is evaluating at the joined point.
/// Asks for `2^n` entries, where both points have `n` coordinates together.
pub fn joined_suffix<R: PrimeCharacteristicRing>(entries: &[R], first: &[R], rest: &[R])
    requires { length entries.now ≡ 2 ^ (length first.now + length rest.now) }
    ensures { value R.ring (back R.ring (weights R.ring rest.now) entries.now) first.now
        ≡ value R.ring entries.now (first.now ++ rest.now) }
{}

/// A function that is affine in each coordinate, and has entry `x` at the vertex of each index `x`,
/// is the value of the table at every point: there is no other such function.
pub fn unique<R: PrimeCharacteristicRing, A: AffineInEach<R>>(function: &A, entries: &[R])
    ensures { VerticesDetermine R.ring (A.coordinates function.now) (A.value_at function.now) entries.now }
{}

/// For all `y` and `n` with `2^n` entries, monomial folds at `y^(2^(n - 1))`, .., `y^2`, `y` in order
/// leave the polynomial at `y` whose coefficients are the entries.
pub fn univariate<R: PrimeCharacteristicRing>(entries: &[R])
    ensures { (y : R) (n : ℕ) → length entries.now ≡ 2 ^ n
        → monomial_folds R.ring entries.now (powers R.ring y n) ≡ polynomial R.ring entries.now y ∷ [] }
{}

/// Any number of zeros appended add variables in front: the value is that of the entries at the last coordinates,
/// times `1 - c` for each coordinate `c` before them. Asks for `2^n` entries, where `rest` has `n`
/// coordinates.
pub fn padded<R: PrimeCharacteristicRing>(entries: &[R], first: &[R], rest: &[R])
    requires { length entries.now ≡ 2 ^ length rest.now }
    ensures { (k : ℕ) → value R.ring (with_zeros R.ring k entries.now) (first.now ++ rest.now)
        ≡ padded_value R.ring entries.now first.now rest.now }
{}
