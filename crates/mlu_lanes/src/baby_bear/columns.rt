//! A column of coefficients times rows of four: products are added up in two halves of words, and
//! reduced once.
ghost use Rattle.std.specs.Prelude.{◌≡◌, ℕ, ◌+◌, ◌*◌, ◌%◌, ◌^◌, ◌<◌, ◌≤◌, length, slice_index};
ghost use Rattle.mlu_ring.specs.Columns.{column_of};
ghost use Rattle.mlu_lanes.specs.Columns.{product_of_columns};
ghost use Rattle.mlu_ring.specs.Tables.{pair};
ghost use Rattle.mlu_lanes.specs.BabyBear.{baby_bear_ring, canonical, reduced};
ghost use Rattle.mlu_lanes.specs.Packed.{residue_at};

use super::reduce_each::{RADIX, reduce_each_once, reduce_each_word};
use super::rows::{elements_of, row_scaled, unreduced_rows};
use super::{BabyBear, MODULUS};
use crate::coefficients::Coefficients;
use crate::words::{
    lower_halves, shifted_right, sums, wide_products, wide_splat, wide_sums, widened,
};
use std::simd::prelude::*;

/// The products that are summed before they are split into halves.
const GROUP: usize = 4;

/// The most places whose products a pair of halves adds up, 2^30: a half grows by less than 2^32 for four
/// of them, and stays below 2^62.
const MOST_PLACES: usize = 1073741824;

/// Coefficient `a` of each element of `l` as a row, times the matrix whose rows are the four
/// coefficients of those of `r`. Asks for slices of one length, for elements of four coefficients,
/// and that `a` is below 4.
///
/// A dot of quartics is four of these. Each sum is reduced once for each 2^30 places.
#[inline(always)]
pub fn column_times_rows<const W: usize, E: Coefficients<BabyBear<W>>>(
    l: &[E],
    a: usize,
    r: &[E],
) -> (BabyBear<W>, BabyBear<W>, BabyBear<W>, BabyBear<W>)
    requires long { length l.now ≡ length r.now }
    requires column { a < 4 }
    requires four { E.count ≡ 4 }
    ensures first { result.0 ≡ pair (baby_bear_ring W) (column_of (reduced 0) E.list l.now a) (column_of (reduced 0) E.list r.now 0) }
    ensures second { result.1 ≡ pair (baby_bear_ring W) (column_of (reduced 0) E.list l.now a) (column_of (reduced 0) E.list r.now 1) }
    ensures third { result.2 ≡ pair (baby_bear_ring W) (column_of (reduced 0) E.list l.now a) (column_of (reduced 0) E.list r.now 2) }
    ensures fourth { result.3 ≡ pair (baby_bear_ring W) (column_of (reduced 0) E.list l.now a) (column_of (reduced 0) E.list r.now 3) }
{
    elements_of(residues_of_sums(l, a, r))
}

/// Lane `j` is the residue of the sum of the products of coefficient `a` of each element of `l` and
/// coefficient `j` of that of `r`.
#[inline(always)]
fn residues_of_sums<const W: usize, E: Coefficients<BabyBear<W>>>(
    l: &[E],
    a: usize,
    r: &[E],
) -> Simd<u32, 4>
    requires long { length l.now ≡ length r.now }
    requires column { a < 4 }
    requires four { E.count ≡ 4 }
    ensures { (j : ℕ) → j < 4
        → slice_index result j ≡ canonical (product_of_columns (baby_bear_ring W) E.list l.now a r.now j) }
{
    if l.len() > MOST_PLACES {
        return column_times_many_rows(l, a, r);
    }
    column_times_few_rows(l, a, r)
}

/// [`residues_of_sums`] at any number of places, as many at a time as words hold.
fn column_times_many_rows<const W: usize, E: Coefficients<BabyBear<W>>>(
    l: &[E],
    a: usize,
    r: &[E],
) -> Simd<u32, 4>
    requires long { length l.now ≡ length r.now }
    requires column { a < 4 }
    requires four { E.count ≡ 4 }
    ensures { (j : ℕ) → j < 4
        → slice_index result j ≡ canonical (product_of_columns (baby_bear_ring W) E.list l.now a r.now j) }
{
    if l.len() <= MOST_PLACES {
        return column_times_few_rows(l, a, r);
    }
    let (first_l, others_l) = l.split_at(MOST_PLACES);
    let (first_r, others_r) = r.split_at(MOST_PLACES);
    let first = column_times_few_rows(first_l, a, first_r);
    let others = column_times_many_rows(others_l, a, others_r);
    reduce_each_once(sums(first, others))
}

/// [`residues_of_sums`] at [`MOST_PLACES`] places or fewer.
#[inline(always)]
fn column_times_few_rows<const W: usize, E: Coefficients<BabyBear<W>>>(
    l: &[E],
    a: usize,
    r: &[E],
) -> Simd<u32, 4>
    requires long { length l.now ≡ length r.now }
    requires most { length l.now ≤ MOST_PLACES }
    requires column { a < 4 }
    requires four { E.count ≡ 4 }
    ensures { (j : ℕ) → j < 4
        → slice_index result j ≡ canonical (product_of_columns (baby_bear_ring W) E.list l.now a r.now j) }
{
    let mut lows = wide_splat(0);
    let mut highs = wide_splat(0);
    let groups = l.len() / GROUP;
    for g in 0..groups {
        let i = GROUP * g;
        let column = (l[i].at(a), l[i + 1].at(a), l[i + 2].at(a), l[i + 3].at(a));
        let rows = (row(&r[i]), row(&r[i + 1]), row(&r[i + 2]), row(&r[i + 3]));
        let products = unreduced_rows(&column, &rows);
        lows = wide_sums(lows, lower_halves(products));
        highs = wide_sums(highs, shifted_right(products, 32));
    }
    for i in GROUP * groups..l.len() {
        let products = row_scaled(l[i].at(a).value, row(&r[i]));
        lows = wide_sums(lows, lower_halves(products));
        highs = wide_sums(highs, shifted_right(products, 32));
    }
    reduce_halves(lows, highs)
}

/// The least residues of four coefficients. The compiler makes one load of them.
#[inline(always)]
pub fn row<const W: usize, E: Coefficients<BabyBear<W>>>(element: &E) -> Simd<u32, 4>
    requires { E.count ≡ 4 }
    ensures value { (j : ℕ) → j < 4 → slice_index result j ≡ residue_at (E.list element.now) j }
    ensures least { (j : ℕ) → j < 4 → slice_index result j < MODULUS }
{
    Simd::from_array([
        element.at(0).value,
        element.at(1).value,
        element.at(2).value,
        element.at(3).value,
    ])
}

/// The residues of `lows + 2^32 * highs`, lane by lane.
#[inline(always)]
pub fn reduce_halves(lows: Simd<u64, 4>, highs: Simd<u64, 4>) -> Simd<u32, 4>
    requires { (j : ℕ) → j < 4 → slice_index lows j ≤ 2 ^ 62 }
    ensures { (j : ℕ) → j < 4 → slice_index result j ≡ (slice_index lows j + 2 ^ 32 * slice_index highs j) % MODULUS }
{
    let folded = wide_products(widened(reduce_each_word(highs)), wide_splat(RADIX));
    reduce_each_word(wide_sums(folded, lows))
}
