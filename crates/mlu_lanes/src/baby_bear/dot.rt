//! A dot of residues: products are added up in two halves of words, and reduced once.
ghost use Rattle.std.specs.Prelude.{◌≡◌, ℕ, ◌+◌, ◌*◌, ◌^◌, ◌<◌, ◌≤◌, length, slice_index, take};
ghost use Rattle.mlu_ring.specs.Tables.{pair};
ghost use Rattle.mlu_lanes.specs.BabyBear.{baby_bear_ring};
ghost use Rattle.mlu_lanes.specs.Packed.{group_products, product_at};

use super::BabyBear;
use super::columns::reduce_halves;
use super::packed::residue_products;
use super::rows::{elements_of, words_at};
use crate::words::{lower_halves, shifted_right, wide_splat, wide_sums};
use std::simd::prelude::*;

/// The places whose products are summed in four lanes before they are split into halves.
const GROUP: usize = 16;

/// The most groups that a pair of halves adds up, 2^30: a half grows by less than 2^32 for each, and stays
/// below 2^62.
const MOST_GROUPS: usize = 1073741824;

/// The sum of the products `l[i] * r[i]`. Asks for slices of one length.
///
/// Products past the last whole group, or past the most, are reduced one by one.
#[inline]
pub fn dot_by_groups<const W: usize>(l: &[BabyBear<W>], r: &[BabyBear<W>]) -> BabyBear<W>
    requires { length l.now ≡ length r.now }
    ensures { result ≡ pair (baby_bear_ring W) l.now r.now }
{
    let groups = (l.len() / GROUP).min(MOST_GROUPS);
    let mut sum = dot_of_groups(l, r, groups);
    for i in GROUP * groups..l.len() {
        sum = sum + l[i] * r[i];
    }
    sum
}

/// The sum of the products in the first groups. Asks that a pair of halves adds them up.
#[inline(always)]
fn dot_of_groups<const W: usize>(l: &[BabyBear<W>], r: &[BabyBear<W>], groups: usize) -> BabyBear<W>
    requires left { GROUP * groups ≤ length l.now }
    requires right { GROUP * groups ≤ length r.now }
    requires most { groups ≤ MOST_GROUPS }
    ensures { result ≡ pair (baby_bear_ring W) (take (GROUP * groups) l.now) r.now }
{
    let mut lows = wide_splat(0);
    let mut highs = wide_splat(0);
    for g in 0..groups {
        let products = group_products_at(l, r, GROUP * g);
        lows = wide_sums(lows, lower_halves(products));
        highs = wide_sums(highs, shifted_right(products, 32));
    }
    let (first, second, third, fourth) = elements_of(reduce_halves(lows, highs));
    first + second + (third + fourth)
}

/// The products of the residues at a group of places from `k` on, unreduced: lane `j` has the sum of
/// those at `k + j`, four places further on, and so on.
#[inline(always)]
fn group_products_at<const W: usize>(l: &[BabyBear<W>], r: &[BabyBear<W>], k: usize) -> Simd<u64, 4>
    requires left { k + 15 < length l.now }
    requires right { k + 15 < length r.now }
    ensures value { (j : ℕ) → j < 4 → slice_index result j ≡ group_products l.now r.now k j }
    ensures small { (j : ℕ) → j < 4 → slice_index result j < 2 ^ 64 }
{
    let low = wide_sums(products_at(l, r, k), products_at(l, r, k + 4));
    let high = wide_sums(products_at(l, r, k + 8), products_at(l, r, k + 12));
    wide_sums(low, high)
}

/// The products of the residues at four places from `k` on, unreduced: four of them add up to a word.
#[inline(always)]
fn products_at<const W: usize>(l: &[BabyBear<W>], r: &[BabyBear<W>], k: usize) -> Simd<u64, 4>
    requires left { k + 3 < length l.now }
    requires right { k + 3 < length r.now }
    ensures value { (j : ℕ) → j < 4 → slice_index result j ≡ product_at l.now r.now (k + j) }
    ensures small { (j : ℕ) → j < 4 → slice_index result j < 2 ^ 62 }
{
    residue_products(words_at(l, k), words_at(r, k))
}
