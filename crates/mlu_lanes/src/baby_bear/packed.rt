//! Packed residues as vectors of words: products that are added up before each lane is reduced.
ghost use Rattle.std.specs.Prelude.{◌≡◌, ℕ, ◌*◌, ◌%◌, ◌^◌, ◌<◌, slice_index};
ghost use Rattle.mlu_lanes.specs.Packed.{residue};

use super::montgomery::{reduce_prepared, reduce_prepared_products};
use super::reduce_each::{reduce_each_product, reduce_each_word};
use super::{BabyBear, MODULUS};
use crate::lanes::Lanes;
use crate::words::{splat, wide_products, widened};
use std::simd::prelude::*;

/// The products of two packed values, unreduced: four of them add up to a word.
#[inline]
pub fn products<const W: usize>(
    a: &Lanes<BabyBear<W>, W>,
    b: &Lanes<BabyBear<W>, W>,
) -> Simd<u64, W>
    ensures value { (j : ℕ) → j < W → slice_index result j ≡ residue a.now j * residue b.now j }
    ensures small { (j : ℕ) → j < W → slice_index result j < 2 ^ 62 }
{
    residue_products(words_of(a), words_of(b))
}

/// The products with one residue, unreduced: four of them add up to a word.
#[inline]
pub fn scaled<const W: usize>(p: &Lanes<BabyBear<W>, W>, factor: u32) -> Simd<u64, W>
    requires { factor < MODULUS }
    ensures value { (j : ℕ) → j < W → slice_index result j ≡ residue p.now j * factor }
    ensures below { (j : ℕ) → j < W → slice_index result j < MODULUS * MODULUS }
{
    scaled_each(p, splat(factor))
}

/// The products with residues lane by lane, unreduced: four of them add up to a word.
#[inline]
pub fn scaled_each<const W: usize>(p: &Lanes<BabyBear<W>, W>, factors: Simd<u32, W>) -> Simd<u64, W>
    requires { (j : ℕ) → j < W → slice_index factors j < MODULUS }
    ensures value { (j : ℕ) → j < W → slice_index result j ≡ residue p.now j * slice_index factors.entry j }
    ensures below { (j : ℕ) → j < W → slice_index result j < MODULUS * MODULUS }
{
    residue_products(words_of(p), factors)
}

/// The packed value of words below 2^62, as products are.
#[inline]
pub fn product_reduced<const W: usize>(words: Simd<u64, W>) -> Lanes<BabyBear<W>, W>
    requires { (j : ℕ) → j < W → slice_index words j < 2 ^ 62 }
    ensures { (j : ℕ) → j < W → residue result j ≡ slice_index words.entry j % MODULUS }
{
    lanes_of(reduce_each_product(words))
}

/// The packed value of any words, as sums of four products are.
#[inline]
pub fn sum_reduced<const W: usize>(words: Simd<u64, W>) -> Lanes<BabyBear<W>, W>
    requires { (j : ℕ) → j < W → slice_index words j < 2 ^ 64 }
    ensures { (j : ℕ) → j < W → residue result j ≡ slice_index words.entry j % MODULUS }
{
    lanes_of(reduce_each_word(words))
}

/// The packed value whose product with `2^32` has the residues of the words. Asks for words that are
/// at most the sum of four products of residues.
#[inline]
pub fn prepared_reduced<const W: usize>(words: Simd<u64, W>) -> Lanes<BabyBear<W>, W>
    requires { (j : ℕ) → j < W → slice_index words j < 4 * MODULUS * MODULUS }
    ensures { (j : ℕ) → j < W → residue result j * 2 ^ 32 % MODULUS ≡ slice_index words.entry j % MODULUS }
{
    lanes_of(reduce_prepared(words))
}

/// The same of products of two residues.
#[inline]
pub fn prepared_product<const W: usize>(words: Simd<u64, W>) -> Lanes<BabyBear<W>, W>
    requires { (j : ℕ) → j < W → slice_index words j < MODULUS * MODULUS }
    ensures { (j : ℕ) → j < W → residue result j * 2 ^ 32 % MODULUS ≡ slice_index words.entry j % MODULUS }
{
    lanes_of(reduce_prepared_products(words))
}

/// The products of residues lane by lane, unreduced: four of them add up to a word.
#[inline]
pub fn residue_products<const W: usize>(a: Simd<u32, W>, b: Simd<u32, W>) -> Simd<u64, W>
    requires { (j : ℕ) → j < W → (slice_index a j < MODULUS) × (slice_index b j < MODULUS) }
    ensures value { (j : ℕ) → j < W → slice_index result j ≡ slice_index a.entry j * slice_index b.entry j }
    ensures small { (j : ℕ) → j < W → slice_index result j < 2 ^ 62 }
    ensures below { (j : ℕ) → j < W → slice_index result j < MODULUS * MODULUS }
{
    wide_products(widened(a), widened(b))
}

/// The least residues of the lanes. The compiler makes one load of the loop.
#[inline]
fn words_of<const W: usize>(p: &Lanes<BabyBear<W>, W>) -> Simd<u32, W>
    ensures value { (j : ℕ) → j < W → slice_index result j ≡ residue p.now j }
    ensures least { (j : ℕ) → j < W → slice_index result j < MODULUS }
{
    let elements = p.to_array();
    let mut words = [0; W];
    for j in 0..W {
        words[j] = elements[j].value;
    }
    Simd::from_array(words)
}

/// The packed value with these least residues. The compiler makes one store of the loop.
#[inline]
fn lanes_of<const W: usize>(residues: Simd<u32, W>) -> Lanes<BabyBear<W>, W>
    requires { (j : ℕ) → j < W → slice_index residues j < MODULUS }
    ensures { (j : ℕ) → j < W → residue result j ≡ slice_index residues.entry j }
{
    let words = residues.to_array();
    let mut elements = [BabyBear { value: 0 }; W];
    for j in 0..W {
        elements[j] = BabyBear { value: words[j] };
    }
    Lanes::from_array(elements)
}
