//! Coefficients of elements side by side: four elements are four rows of words, which are transposed.
ghost use Rattle.std.specs.Prelude.{◌≡◌, ℕ, ◌+◌, ◌<◌, length, slice_index};
ghost use Rattle.mlu_lanes.specs.BabyBear.{reduced};
ghost use Rattle.mlu_ring.specs.Columns.{column_of};
ghost use Rattle.mlu_lanes.specs.LaneRing.{values_of};
ghost use Rattle.mlu_lanes.specs.Packed.{IsLane};

use super::columns::row;
use super::rows::{elements_of, put, words_at};
use super::{BabyBear, MODULUS};
use crate::coefficients::Coefficients;
use crate::lanes::Lanes;
use crate::words::{lane_min, splat, transposed};
use std::simd::prelude::*;

/// What four coefficients, or four elements, have each.
type Four<T> = (T, T, T, T);

/// The elements whose words are transposed at a time.
const GROUP: usize = 4;

/// The four coefficients of each element, those of one place side by side. Asks for `W` elements of
/// four coefficients.
#[inline]
pub fn coefficient_columns<const W: usize, E: Coefficients<BabyBear<W>>>(
    elements: &[E],
) -> Four<Lanes<BabyBear<W>, W>>
    requires width { length elements.now ≡ W }
    requires four { E.count ≡ 4 }
    ensures first { values_of result.0 ≡ column_of (reduced 0) E.list elements.now 0 }
    ensures second { values_of result.1 ≡ column_of (reduced 0) E.list elements.now 1 }
    ensures third { values_of result.2 ≡ column_of (reduced 0) E.list elements.now 2 }
    ensures fourth { values_of result.3 ≡ column_of (reduced 0) E.list elements.now 3 }
{
    let mut first = [BabyBear { value: 0 }; W];
    let mut second = first;
    let mut third = first;
    let mut fourth = first;
    let groups = W / GROUP;
    for g in 0..groups {
        let k = GROUP * g;
        let columns = transposed(&(
            row(&elements[k]),
            row(&elements[k + 1]),
            row(&elements[k + 2]),
            row(&elements[k + 3]),
        ));
        put(&mut first, k, kept_together(columns.0));
        put(&mut second, k, kept_together(columns.1));
        put(&mut third, k, kept_together(columns.2));
        put(&mut fourth, k, kept_together(columns.3));
    }
    for k in GROUP * groups..W {
        first[k] = elements[k].at(0);
        second[k] = elements[k].at(1);
        third[k] = elements[k].at(2);
        fourth[k] = elements[k].at(3);
    }
    (
        Lanes::from_array(first),
        Lanes::from_array(second),
        Lanes::from_array(third),
        Lanes::from_array(fourth),
    )
}

/// Lanes `k` to `k + 3` of four packed values, those of one lane side by side. Asks that there are so
/// many lanes.
#[inline]
pub fn four_lanes<const W: usize>(
    packed: &Four<Lanes<BabyBear<W>, W>>,
    k: usize,
) -> Four<Four<BabyBear<W>>>
    requires { k + 3 < W }
    ensures first { IsLane packed.now.0 packed.now.1 packed.now.2 packed.now.3 k result.0 }
    ensures second { IsLane packed.now.0 packed.now.1 packed.now.2 packed.now.3 (k + 1) result.1 }
    ensures third { IsLane packed.now.0 packed.now.1 packed.now.2 packed.now.3 (k + 2) result.2 }
    ensures fourth { IsLane packed.now.0 packed.now.1 packed.now.2 packed.now.3 (k + 3) result.3 }
{
    let columns = transposed(&(
        words_at(&packed.0.to_array(), k),
        words_at(&packed.1.to_array(), k),
        words_at(&packed.2.to_array(), k),
        words_at(&packed.3.to_array(), k),
    ));
    (
        elements_of(kept_together(columns.0)),
        elements_of(kept_together(columns.1)),
        elements_of(kept_together(columns.2)),
        elements_of(kept_together(columns.3)),
    )
}

/// The same residues. Without the minimum the compiler would move the words one by one, in place of
/// vectors of them.
#[inline]
fn kept_together(residues: Simd<u32, 4>) -> Simd<u32, 4>
    requires { (j : ℕ) → j < 4 → slice_index residues j < MODULUS }
    ensures { (j : ℕ) → j < 4 → slice_index result j ≡ slice_index residues j }
{
    lane_min(residues, splat(MODULUS - 1))
}
