//! Sums of four products, four at a time: a row of residues times a matrix, and slices place by
//! place.
ghost use Rattle.std.specs.Prelude.{◌≡◌, ℕ, ◌+◌, ◌*◌, ◌%◌, ◌<◌, length, slice_index, slice_index_or};
ghost use Rattle.mlu_lanes.specs.BabyBear.{canonical, reduced, IsQuotient};
ghost use Rattle.mlu_lanes.specs.Packed.{residue_at, residues, residues_at};
ghost use Rattle.mlu_lanes.specs.Words.{first_four, four_products, lanes_at};

use super::montgomery::reduce_prepared;
use super::packed::residue_products;
use super::reduce_each::{reduce_each_once, reduce_each_word};
use super::{BabyBear, MODULUS};
use crate::words::{splat, spread, sums, wide_products, wide_sums, widened};
use std::simd::prelude::*;

/// Lane `j` is the residue of the sum of the products of `l` and lane `j` of the rows of the
/// matrix.
#[inline]
pub fn sum_of_rows<const W: usize>(
    l: &(BabyBear<W>, BabyBear<W>, BabyBear<W>, BabyBear<W>),
    rows: &(Simd<u32, 4>, Simd<u32, 4>, Simd<u32, 4>, Simd<u32, 4>),
) -> Simd<u32, 4>
    requires first { (j : ℕ) → j < 4 → slice_index rows.now.0 j < MODULUS }
    requires second { (j : ℕ) → j < 4 → slice_index rows.now.1 j < MODULUS }
    requires third { (j : ℕ) → j < 4 → slice_index rows.now.2 j < MODULUS }
    requires fourth { (j : ℕ) → j < 4 → slice_index rows.now.3 j < MODULUS }
    ensures { (j : ℕ) → j < 4 → slice_index result j ≡ four_products (residues l.now) (lanes_at rows.now j) % MODULUS }
{
    reduce_each_word(unreduced_rows(l, rows))
}

/// [`sum_of_rows`] of prepared rows.
#[inline]
pub fn sum_of_prepared_rows<const W: usize>(
    l: &(BabyBear<W>, BabyBear<W>, BabyBear<W>, BabyBear<W>),
    rows: &(Simd<u32, 4>, Simd<u32, 4>, Simd<u32, 4>, Simd<u32, 4>),
) -> Simd<u32, 4>
    requires first { (j : ℕ) → j < 4 → slice_index rows.now.0 j < MODULUS }
    requires second { (j : ℕ) → j < 4 → slice_index rows.now.1 j < MODULUS }
    requires third { (j : ℕ) → j < 4 → slice_index rows.now.2 j < MODULUS }
    requires fourth { (j : ℕ) → j < 4 → slice_index rows.now.3 j < MODULUS }
    ensures least { (j : ℕ) → j < 4 → slice_index result j < MODULUS }
    ensures value { (j : ℕ) → j < 4 → IsQuotient (slice_index result j) (four_products (residues l.now) (lanes_at rows.now j)) }
{
    reduce_prepared(unreduced_rows(l, rows))
}

/// The sums of the products, as integers.
#[inline]
pub fn unreduced_rows<const W: usize>(
    l: &(BabyBear<W>, BabyBear<W>, BabyBear<W>, BabyBear<W>),
    rows: &(Simd<u32, 4>, Simd<u32, 4>, Simd<u32, 4>, Simd<u32, 4>),
) -> Simd<u64, 4>
    requires first { (j : ℕ) → j < 4 → slice_index rows.now.0 j < MODULUS }
    requires second { (j : ℕ) → j < 4 → slice_index rows.now.1 j < MODULUS }
    requires third { (j : ℕ) → j < 4 → slice_index rows.now.2 j < MODULUS }
    requires fourth { (j : ℕ) → j < 4 → slice_index rows.now.3 j < MODULUS }
    ensures value { (j : ℕ) → j < 4 → slice_index result j ≡ four_products (residues l.now) (lanes_at rows.now j) }
    ensures small { (j : ℕ) → j < 4 → slice_index result j < 4 * MODULUS * MODULUS }
{
    let low = wide_sums(row_scaled(l.0.value, rows.0), row_scaled(l.1.value, rows.1));
    let high = wide_sums(row_scaled(l.2.value, rows.2), row_scaled(l.3.value, rows.3));
    wide_sums(low, high)
}

/// The products of a residue with a row of them, unreduced.
#[inline]
pub fn row_scaled(residue: u32, row: Simd<u32, 4>) -> Simd<u64, 4>
    requires residue { residue < MODULUS }
    requires row { (j : ℕ) → j < 4 → slice_index row j < MODULUS }
    ensures value { (j : ℕ) → j < 4 → slice_index result j ≡ residue * slice_index row j }
    ensures below { (j : ℕ) → j < 4 → slice_index result j < MODULUS * MODULUS }
{
    wide_products(spread(residue), widened(row))
}

/// The elements with these least residues.
#[inline]
pub fn elements_of<const W: usize>(
    residues: Simd<u32, 4>,
) -> (BabyBear<W>, BabyBear<W>, BabyBear<W>, BabyBear<W>)
    requires { (j : ℕ) → j < 4 → slice_index residues j < MODULUS }
    ensures first { canonical result.0 ≡ slice_index residues 0 }
    ensures second { canonical result.1 ≡ slice_index residues 1 }
    ensures third { canonical result.2 ≡ slice_index residues 2 }
    ensures fourth { canonical result.3 ≡ slice_index residues 3 }
{
    let words = residues.to_array();
    (
        BabyBear { value: words[0] },
        BabyBear { value: words[1] },
        BabyBear { value: words[2] },
        BabyBear { value: words[3] },
    )
}

/// The sums of the residues at four places from `k` on.
#[inline]
pub fn residue_sums_at<const W: usize>(
    a: &[BabyBear<W>],
    b: &[BabyBear<W>],
    k: usize,
) -> Simd<u32, 4>
    requires left { k + 3 < length a.now }
    requires right { k + 3 < length b.now }
    ensures { (j : ℕ) → j < 4 → slice_index result j ≡ (residue_at a.now (k + j) + residue_at b.now (k + j)) % MODULUS }
{
    let unreduced = sums(words_at(a, k), words_at(b, k));
    reduce_each_once(unreduced)
}

/// The residues of the sums of four products, at four places from `k` on.
#[inline(always)]
pub fn sums_at<const W: usize>(
    l: &(
        &[BabyBear<W>],
        &[BabyBear<W>],
        &[BabyBear<W>],
        &[BabyBear<W>],
    ),
    r: &(
        &[BabyBear<W>],
        &[BabyBear<W>],
        &[BabyBear<W>],
        &[BabyBear<W>],
    ),
    k: usize,
) -> Simd<u32, 4>
    requires left { (k + 3 < length l.now.0.now) × (k + 3 < length l.now.1.now)
        × (k + 3 < length l.now.2.now) × (k + 3 < length l.now.3.now) }
    requires right { (k + 3 < length r.now.0.now) × (k + 3 < length r.now.1.now)
        × (k + 3 < length r.now.2.now) × (k + 3 < length r.now.3.now) }
    ensures { (j : ℕ) → j < 4
        → slice_index result j ≡ four_products (residues_at l.now (k + j)) (residues_at r.now (k + j)) % MODULUS }
{
    let low = wide_sums(
        residue_products(words_at(l.0, k), words_at(r.0, k)),
        residue_products(words_at(l.1, k), words_at(r.1, k)),
    );
    let high = wide_sums(
        residue_products(words_at(l.2, k), words_at(r.2, k)),
        residue_products(words_at(l.3, k), words_at(r.3, k)),
    );
    reduce_each_word(wide_sums(low, high))
}

/// The residues of the sums of four products with the same factors, at four places from `k` on. The
/// factors are prepared.
#[inline(always)]
pub fn prepared_sums_at<const W: usize>(
    l: &(
        &[BabyBear<W>],
        &[BabyBear<W>],
        &[BabyBear<W>],
        &[BabyBear<W>],
    ),
    factors: &[u32; 4],
    k: usize,
) -> Simd<u32, 4>
    requires left { (k + 3 < length l.now.0.now) × (k + 3 < length l.now.1.now)
        × (k + 3 < length l.now.2.now) × (k + 3 < length l.now.3.now) }
    requires least { (i : ℕ) → i < 4 → slice_index factors.now i < MODULUS }
    ensures least { (j : ℕ) → j < 4 → slice_index result j < MODULUS }
    ensures value { (j : ℕ) → j < 4
        → IsQuotient (slice_index result j) (four_products (residues_at l.now (k + j)) (first_four factors.now)) }
{
    let low = wide_sums(
        residue_products(words_at(l.0, k), splat(factors[0])),
        residue_products(words_at(l.1, k), splat(factors[1])),
    );
    let high = wide_sums(
        residue_products(words_at(l.2, k), splat(factors[2])),
        residue_products(words_at(l.3, k), splat(factors[3])),
    );
    reduce_prepared(wide_sums(low, high))
}

/// The least residues at four places from `k` on. The compiler makes one load of them.
#[inline]
pub fn words_at<const W: usize>(elements: &[BabyBear<W>], k: usize) -> Simd<u32, 4>
    requires { k + 3 < length elements.now }
    ensures value { (j : ℕ) → j < 4 → slice_index result j ≡ residue_at elements.now (k + j) }
    ensures least { (j : ℕ) → j < 4 → slice_index result j < MODULUS }
{
    Simd::from_array([
        elements[k].value,
        elements[k + 1].value,
        elements[k + 2].value,
        elements[k + 3].value,
    ])
}

/// Writes the elements with these least residues to four places from `k` on. The compiler makes one
/// store of them.
#[inline]
pub fn put<const W: usize>(out: &mut [BabyBear<W>], k: usize, residues: Simd<u32, 4>)
    requires room { k + 3 < length out.old }
    requires least { (j : ℕ) → j < 4 → slice_index residues j < MODULUS }
    ensures long { length out.new ≡ length out.old }
    ensures written { (j : ℕ) → j < 4 → residue_at out.new (k + j) ≡ slice_index residues j }
    ensures before { (i : ℕ) → i < k → slice_index_or out.new i (reduced 0) ≡ slice_index_or out.old i (reduced 0) }
    ensures after { (i : ℕ) → k + 3 < i → slice_index_or out.new i (reduced 0) ≡ slice_index_or out.old i (reduced 0) }
{
    let words = residues.to_array();
    out[k] = BabyBear { value: words[0] };
    out[k + 1] = BabyBear { value: words[1] };
    out[k + 2] = BabyBear { value: words[2] };
    out[k + 3] = BabyBear { value: words[3] };
}
