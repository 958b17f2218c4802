//! Residues of words lane by lane, with no division.
ghost use Rattle.std.specs.Prelude.{◌≡◌, ℕ, ◌+◌, ◌*◌, ◌/◌, ◌%◌, ◌^◌, ◌<◌, slice_index};

use super::MODULUS;
use super::reduce::RECIPROCAL;
use crate::words::{
    differences, lane_min, lower_halves, narrowed, shifted_right, splat, wide_differences,
    wide_products, wide_splat, wide_sums,
};
use std::simd::prelude::*;

/// `2^32` modulo the modulus: `2^28 - 2`.
pub const RADIX: u64 = 268435454;

/// The residues of any lanes.
///
/// Folded by a product and shifted by 29, they are seen to fit 32 bits: three vector products a
/// pair of lanes. For one word `reduce_word` is better, since there the compiler makes wider
/// products of this.
#[inline]
pub fn reduce_each_word<const W: usize>(words: Simd<u64, W>) -> Simd<u32, W>
    requires { (j : ℕ) → j < W → slice_index words j < 2 ^ 64 }
    ensures { (j : ℕ) → j < W → slice_index result j ≡ slice_index words.entry j % MODULUS }
{
    let folded = folded(words);
    let quotients = folded_quotients(folded);
    let multiples = wide_products(quotients, wide_splat(u64::from(MODULUS)));
    let rest = wide_differences(folded, multiples);
    reduce_each_once(narrowed(rest))
}

/// Lanes of the same residues, below 2^61.
#[inline]
fn folded<const W: usize>(words: Simd<u64, W>) -> Simd<u64, W>
    requires { (j : ℕ) → j < W → slice_index words j < 2 ^ 64 }
    ensures { (j : ℕ) → j < W → slice_index result j ≡ slice_index words.entry j / 2 ^ 32 * RADIX + slice_index words.entry j % 2 ^ 32 }
{
    let high = shifted_right(words, 32);
    let low = lower_halves(words);
    let scaled = wide_products(high, wide_splat(RADIX));
    wide_sums(scaled, low)
}

/// The quotients by the modulus, or one less.
#[inline]
fn folded_quotients<const W: usize>(folded: Simd<u64, W>) -> Simd<u64, W>
    requires { (j : ℕ) → j < W → slice_index folded j < 2 ^ 61 }
    ensures { (j : ℕ) → j < W → slice_index result j ≡ slice_index folded.entry j / 2 ^ 29 * RECIPROCAL / 2 ^ 33 }
{
    let high = shifted_right(folded, 29);
    let scaled = wide_products(high, wide_splat(RECIPROCAL));
    shifted_right(scaled, 33)
}

/// The residues of lanes below 2^62, as products of two residues are: two vector products a pair of
/// lanes. As in `reduce_product`, the quotients are those by the modulus, or one less, and taking
/// the lower halves says that 32 bits are enough.
#[inline]
pub fn reduce_each_product<const W: usize>(words: Simd<u64, W>) -> Simd<u32, W>
    requires { (j : ℕ) → j < W → slice_index words j < 2 ^ 62 }
    ensures { (j : ℕ) → j < W → slice_index result j ≡ slice_index words.entry j % MODULUS }
{
    let high = lower_halves(shifted_right(words, 30));
    let quotients = shifted_right(wide_products(high, wide_splat(RECIPROCAL)), 32);
    let multiples = wide_products(quotients, wide_splat(u64::from(MODULUS)));
    let rest = wide_differences(words, multiples);
    reduce_each_once(narrowed(rest))
}

/// The residues of lanes below twice the modulus.
#[inline]
pub fn reduce_each_once<const W: usize>(words: Simd<u32, W>) -> Simd<u32, W>
    requires { (j : ℕ) → j < W → slice_index words j < 2 * MODULUS }
    ensures { (j : ℕ) → j < W → slice_index result j ≡ slice_index words.entry j % MODULUS }
{
    lane_min(words, differences(words, splat(MODULUS)))
}
