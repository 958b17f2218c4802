//! The ring of the prime field.
ghost use Rattle.std.specs.Prelude.{◌≡◌, refl};
ghost use Rattle.mlu_lanes.specs.BabyBear.{baby_bear_ring, baby_bear_laws, canonical_are_residues};
ghost use Rattle.mlu_lanes.specs.Residues.{eq_residues};

use super::montgomery::{prepared, prepared_word, reduce_prepared_word};
use super::reduce::{reduce_once, reduce_product, reduce_word};
use super::rows::{
    elements_of, prepared_sums_at, put, residue_sums_at, sum_of_prepared_rows, sum_of_rows, sums_at,
};
use super::{BabyBear, MODULUS};
use mlu_ring::{Additive, PrimeCharacteristicRing};
use std::ops::{Add, Mul, Neg, Sub};
use std::simd::prelude::*;

/// The places that a vector of sums has.
const GROUP: usize = 4;

impl<const W: usize> Add for BabyBear<W> {
    type Output = Self;

    ghost add_gives = { λ a b r. r ≡ (baby_bear_ring W).sum a b };

    #[inline]
    fn add(self, other: Self) -> Self {
        BabyBear {
            value: reduce_once(self.value + other.value),
        }
    }
}

impl<const W: usize> Sub for BabyBear<W> {
    type Output = Self;

    ghost sub_gives = { λ a b r. r ≡ (baby_bear_ring W).minus a b };

    #[inline]
    fn sub(self, other: Self) -> Self {
        BabyBear {
            value: reduce_once(self.value + (MODULUS - other.value)),
        }
    }
}

impl<const W: usize> Neg for BabyBear<W> {
    type Output = Self;

    ghost neg_gives = { λ a r. r ≡ (baby_bear_ring W).negation a };

    #[inline]
    fn neg(self) -> Self {
        BabyBear {
            value: reduce_once(MODULUS - self.value),
        }
    }
}

impl<const W: usize> Mul for BabyBear<W> {
    type Output = Self;

    ghost mul_gives = { λ a b r. r ≡ (baby_bear_ring W).product a b };

    #[inline]
    fn mul(self, other: Self) -> Self {
        BabyBear {
            value: reduce_product(self.unreduced(other)),
        }
    }
}

impl<const W: usize> Additive for BabyBear<W> {
    ghost ring = { baby_bear_ring W };

    const ZERO: Self = BabyBear { value: 0 };

    const ONE: Self = BabyBear { value: 1 };

    ghost ZERO = { (baby_bear_ring W).zero };

    ghost ONE = { (baby_bear_ring W).one };

    // Four places at a time.
    #[inline]
    fn add_each(out: &mut [Self], b: &[Self]) {
        let groups = out.len() / GROUP;
        for g in 0..groups {
            let k = GROUP * g;
            let sums = residue_sums_at(out, b, k);
            put(out, k, sums);
        }
        for k in GROUP * groups..out.len() {
            out[k] = out[k] + b[k];
        }
    }

    ghost laws = { baby_bear_laws W };

    ghost zero_is = { refl };

    ghost one_is = { refl };

    ghost eq_is = { eq_residues canonical_are_residues };

    ghost can_add_law = { λ a b. tt };

    ghost adds = { λ a b r h. h };

    ghost can_sub_law = { λ a b. tt };

    ghost subtracts = { λ a b r h. h };

    ghost can_neg_law = { λ a. tt };

    ghost negates = { λ a r h. h };
}

impl<const W: usize> PrimeCharacteristicRing for BabyBear<W> {
    const TWO: Self = BabyBear { value: 2 };

    const NEG_ONE: Self = BabyBear { value: MODULUS - 1 };

    ghost TWO = { (baby_bear_ring W).sum (baby_bear_ring W).one (baby_bear_ring W).one };

    ghost NEG_ONE = { (baby_bear_ring W).negation (baby_bear_ring W).one };

    // Four products of residues sum to less than 2^64, so one reduction is enough.
    #[inline(always)]
    fn four_products(l: &(Self, Self, Self, Self), r: &(Self, Self, Self, Self)) -> Self {
        let low = l.0.unreduced(r.0) + l.1.unreduced(r.1);
        let high = l.2.unreduced(r.2) + l.3.unreduced(r.3);
        BabyBear {
            value: reduce_word(low + high),
        }
    }

    // The rows of the matrix in vectors, so that one reduction serves the four sums.
    #[inline(always)]
    fn row_times_columns(
        l: &(Self, Self, Self, Self),
        first: &(Self, Self, Self, Self),
        second: &(Self, Self, Self, Self),
        third: &(Self, Self, Self, Self),
        fourth: &(Self, Self, Self, Self),
    ) -> (Self, Self, Self, Self) {
        let rows = (
            Simd::from_array([first.0.value, second.0.value, third.0.value, fourth.0.value]),
            Simd::from_array([first.1.value, second.1.value, third.1.value, fourth.1.value]),
            Simd::from_array([first.2.value, second.2.value, third.2.value, fourth.2.value]),
            Simd::from_array([first.3.value, second.3.value, third.3.value, fourth.3.value]),
        );
        elements_of(sum_of_rows(l, &rows))
    }

    // The columns are prepared one by one.
    #[inline(always)]
    fn row_times_fixed_columns(
        l: &(Self, Self, Self, Self),
        first: &(Self, Self, Self, Self),
        second: &(Self, Self, Self, Self),
        third: &(Self, Self, Self, Self),
        fourth: &(Self, Self, Self, Self),
    ) -> (Self, Self, Self, Self) {
        let first = prepared(first);
        let second = prepared(second);
        let third = prepared(third);
        let fourth = prepared(fourth);
        let rows = (
            Simd::from_array([first[0], second[0], third[0], fourth[0]]),
            Simd::from_array([first[1], second[1], third[1], fourth[1]]),
            Simd::from_array([first[2], second[2], third[2], fourth[2]]),
            Simd::from_array([first[3], second[3], third[3], fourth[3]]),
        );
        elements_of(sum_of_prepared_rows(l, &rows))
    }

    // The compiler prepares a factor that stays the same in a loop once.
    #[inline(always)]
    fn times_fixed(self, factor: Self) -> Self {
        let prepared = prepared_word(factor.value);
        BabyBear {
            value: reduce_prepared_word(u64::from(self.value) * u64::from(prepared)),
        }
    }

    // Four places at a time.
    #[inline(always)]
    fn each_four_products(
        out: &mut [Self],
        l: &(&[Self], &[Self], &[Self], &[Self]),
        r: &(&[Self], &[Self], &[Self], &[Self]),
    ) {
        let groups = out.len() / GROUP;
        for g in 0..groups {
            let k = GROUP * g;
            let sums = sums_at(l, r, k);
            put(out, k, sums);
        }
        for k in GROUP * groups..out.len() {
            let left = (l.0[k], l.1[k], l.2[k], l.3[k]);
            let right = (r.0[k], r.1[k], r.2[k], r.3[k]);
            out[k] = Self::four_products(&left, &right);
        }
    }

    // The column is prepared once, for four places at a time.
    #[inline(always)]
    fn rows_times_column(
        out: &mut [Self],
        l: &(&[Self], &[Self], &[Self], &[Self]),
        column: &(Self, Self, Self, Self),
    ) {
        let factors = prepared(column);
        let groups = out.len() / GROUP;
        for g in 0..groups {
            let k = GROUP * g;
            let sums = prepared_sums_at(l, &factors, k);
            put(out, k, sums);
        }
        for k in GROUP * groups..out.len() {
            let row = (l.0[k], l.1[k], l.2[k], l.3[k]);
            out[k] = Self::four_products(&row, column);
        }
    }

    ghost can_mul_law = { λ a b. tt };

    ghost multiplies = { λ a b r h. h };

    ghost two_is = { refl };

    ghost neg_one_is = { refl };
}

impl<const W: usize> BabyBear<W> {
    ghost use Rattle.std.specs.Prelude.{◌*◌, ◌^◌, ◌<◌};
    ghost use Rattle.mlu_lanes.specs.BabyBear.{canonical};

    /// The product of the residues, as integers.
    #[inline]
    fn unreduced(self, other: Self) -> u64
        ensures value { result ≡ canonical self.entry * canonical other.entry }
        ensures small { result < 2 ^ 62 }
    {
        u64::from(self.value) * u64::from(other.value)
    }
}
