//! Montgomery's reduction lane by lane, for sums of products with prepared factors.
//!
//! A factor that meets many elements is multiplied by `2^32` once. The sums of its products then
//! ask two products each for their residues, where [`reduce_each_word`] asks three.
ghost use Rattle.std.specs.Prelude.{◌≡◌, ℕ, ◌+◌, ◌-◌, ◌*◌, ◌/◌, ◌%◌, ◌^◌, ◌<◌, slice_index};
ghost use Rattle.mlu_lanes.specs.BabyBear.{canonical, IsQuotient};
ghost use Rattle.mlu_lanes.specs.declared.baby_bear.reduce_each.TheConstants.{RADIX};

use super::reduce::reduce_product;
use super::reduce_each::{RADIX, reduce_each_once};
use super::{BabyBear, MODULUS};
use crate::words::{
    differences, lane_min, lower_halves, narrowed, shifted_right, splat, sums, wide_products,
    wide_splat,
};
use std::simd::prelude::*;

/// The inverse of the modulus modulo 2^32.
const INVERSE: u64 = 2281701377;

/// A column of residues times `2^32`: factors of sums for [`reduce_prepared`].
///
/// One by one, so that the compiler prepares an element that stands in several columns once.
#[inline]
pub fn prepared<const W: usize>(
    column: &(BabyBear<W>, BabyBear<W>, BabyBear<W>, BabyBear<W>),
) -> [u32; 4]
    ensures first { slice_index result 0 ≡ canonical column.now.0 * RADIX % MODULUS }
    ensures second { slice_index result 1 ≡ canonical column.now.1 * RADIX % MODULUS }
    ensures third { slice_index result 2 ≡ canonical column.now.2 * RADIX % MODULUS }
    ensures fourth { slice_index result 3 ≡ canonical column.now.3 * RADIX % MODULUS }
    ensures least { (i : ℕ) → i < 4 → slice_index result i < MODULUS }
{
    [
        prepared_word(column.0.value),
        prepared_word(column.1.value),
        prepared_word(column.2.value),
        prepared_word(column.3.value),
    ]
}

/// The residue of the product with `2^32`.
#[inline]
pub fn prepared_word(residue: u32) -> u32
    requires { residue < MODULUS }
    ensures value { result ≡ residue * RADIX % MODULUS }
    ensures least { result < MODULUS }
{
    reduce_product(u64::from(residue) * RADIX)
}

/// The residue whose product with `2^32` has the residue of `word`. Asks that `word` is below the
/// square of the modulus, as a product of two residues is.
#[inline]
pub fn reduce_prepared_word(word: u64) -> u32
    requires { word < MODULUS * MODULUS }
    ensures least { result < MODULUS }
    ensures value { IsQuotient result word }
{
    residue_difference((word >> 32) as u32, carried_word(word % 4294967296))
}

/// The upper half of the multiple of the modulus that has this lower half.
#[inline]
fn carried_word(low: u64) -> u32
    requires { low < 2 ^ 32 }
    ensures { result ≡ low * INVERSE % 2 ^ 32 * MODULUS / 2 ^ 32 }
{
    ((low * INVERSE % 4294967296 * u64::from(MODULUS)) >> 32) as u32
}

/// The difference of residues, as a residue.
#[inline]
fn residue_difference(a: u32, b: u32) -> u32
    requires { (a < MODULUS) × (b < MODULUS) }
    ensures { result ≡ (a + MODULUS - b) % MODULUS }
{
    let wrapped = a.wrapping_sub(b);
    wrapped.min(wrapped.wrapping_add(MODULUS))
}

/// The residues whose product with `2^32` has the residue of the lane. Asks for lanes that are at
/// most the sum of four products of residues.
#[inline]
pub fn reduce_prepared<const W: usize>(words: Simd<u64, W>) -> Simd<u32, W>
    requires { (j : ℕ) → j < W → slice_index words j < 4 * MODULUS * MODULUS }
    ensures least { (j : ℕ) → j < W → slice_index result j < MODULUS }
    ensures value { (j : ℕ) → j < W → IsQuotient (slice_index result j) (slice_index words.entry j) }
{
    residue_differences(upper_residues(words), carried(low_quotients(words)))
}

/// The same of products of two residues, whose upper halves are residues.
#[inline]
pub fn reduce_prepared_products<const W: usize>(words: Simd<u64, W>) -> Simd<u32, W>
    requires { (j : ℕ) → j < W → slice_index words j < MODULUS * MODULUS }
    ensures least { (j : ℕ) → j < W → slice_index result j < MODULUS }
    ensures value { (j : ℕ) → j < W → IsQuotient (slice_index result j) (slice_index words.entry j) }
{
    let upper = narrowed(shifted_right(words, 32));
    residue_differences(upper, carried(low_quotients(words)))
}

/// The multiples of the modulus that have the lower halves of the lanes, over the modulus.
#[inline]
fn low_quotients<const W: usize>(words: Simd<u64, W>) -> Simd<u64, W>
    requires { (j : ℕ) → j < W → slice_index words j < 2 ^ 64 }
    ensures { (j : ℕ) → j < W → slice_index result j ≡ slice_index words.entry j % 2 ^ 32 * INVERSE % 2 ^ 32 }
{
    lower_halves(wide_products(lower_halves(words), wide_splat(INVERSE)))
}

/// The upper halves of these multiples.
#[inline]
fn carried<const W: usize>(quotients: Simd<u64, W>) -> Simd<u32, W>
    requires { (j : ℕ) → j < W → slice_index quotients j < 2 ^ 32 }
    ensures { (j : ℕ) → j < W → slice_index result j ≡ slice_index quotients.entry j * MODULUS / 2 ^ 32 }
{
    let multiples = wide_products(quotients, wide_splat(u64::from(MODULUS)));
    narrowed(shifted_right(multiples, 32))
}

/// The residues of the upper halves.
#[inline]
fn upper_residues<const W: usize>(words: Simd<u64, W>) -> Simd<u32, W>
    requires { (j : ℕ) → j < W → slice_index words j < 4 * MODULUS * MODULUS }
    ensures { (j : ℕ) → j < W → slice_index result j ≡ slice_index words.entry j / 2 ^ 32 % MODULUS }
{
    reduce_each_once(narrowed(shifted_right(words, 32)))
}

/// The differences of residues, as residues.
#[inline]
fn residue_differences<const W: usize>(a: Simd<u32, W>, b: Simd<u32, W>) -> Simd<u32, W>
    requires { (j : ℕ) → j < W → (slice_index a j < MODULUS) × (slice_index b j < MODULUS) }
    ensures { (j : ℕ) → j < W → slice_index result j ≡ (slice_index a.entry j + MODULUS - slice_index b.entry j) % MODULUS }
{
    let wrapped = differences(a, b);
    lane_min(wrapped, sums(wrapped, splat(MODULUS)))
}
