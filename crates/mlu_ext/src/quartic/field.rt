//! Polynomials over the prime field as an extension of it.
ghost use Rattle.std.specs.Prelude.{refl};
ghost use Rattle.mlu_lanes.specs.LaneRing.{lane_by_lane};
ghost use Rattle.mlu_lanes.specs.BabyBear.{baby_bear_ring, baby_bear_laws};
ghost use Rattle.mlu_ext.specs.Quartic.{quartic_coefficients, quartic_of, quartic_ring};
ghost use Rattle.mlu_ext.specs.QuarticMaps.{quartic_are_lists, product-constant_coefficients};

use super::QuarticExtension;
use super::ring::joined_powers;
use mlu_lanes::{BabyBear, Coefficients, LaneWidth, Lanes, column_times_rows};
use mlu_ring::{ExtensionField, Field, Lanewise, PackedValue, PrimeCharacteristicRing};
use std::mem::size_of;

impl<const W: usize> Lanewise for QuarticExtension<BabyBear<W>> {
    type Packing = Lanes<Self, 1>;

    ghost lane_by_lane = { lane_by_lane 1 (quartic_ring (baby_bear_ring W)) };
}

impl<const W: usize> Field for QuarticExtension<BabyBear<W>> {
    ghost bytes_of = { 16 };

    #[inline]
    fn bytes() -> usize {
        size_of::<Self>()
    }

    // Each of the sixteen sums of products of coefficients is reduced once for each 2^30 places.
    #[inline]
    fn dot(l: &[Self], r: &[Self]) -> Self {
        let constant = column_times_rows(l, 0, r);
        let linear = column_times_rows(l, 1, r);
        let quadratic = column_times_rows(l, 2, r);
        let cubic = column_times_rows(l, 3, r);
        joined_powers(constant, linear, quadratic, cubic)
    }

    #[inline]
    fn lanes_mul(a: Lanes<Self, 1>, b: Lanes<Self, 1>) -> Lanes<Self, 1> {
        a * b
    }

    #[inline(always)]
    fn lanes_times_fixed(p: Lanes<Self, 1>, factor: Lanes<Self, 1>) -> Lanes<Self, 1> {
        Lanes::from_array([p.lane(0).times_fixed(factor.lane(0))])
    }

    #[inline]
    fn lanes_scale(p: Lanes<Self, 1>, c: Self) -> Lanes<Self, 1> {
        p * Lanes::splat(c)
    }
}

impl<const W: usize> ExtensionField<BabyBear<W>> for QuarticExtension<BabyBear<W>>
where
    Lanes<BabyBear<W>, W>: LaneWidth<W>,
{
    type ExtensionPacking = QuarticExtension<Lanes<BabyBear<W>, W>>;

    const DIMENSION: usize = 4;

    ghost DIMENSION = { 4 };

    ghost coefficients = { quartic_coefficients };

    ghost of_coefficients = { quartic_of (baby_bear_ring W).zero };

    #[inline]
    fn coefficient(&self, k: usize) -> BabyBear<W> {
        self.at(k)
    }

    #[inline]
    fn set_coefficient(&mut self, k: usize, c: BabyBear<W>) {
        self.set_at(k, c);
    }

    ghost coefficients_are = { quartic_are_lists (baby_bear_ring W).zero };

    ghost coefficients_sum = { λ a b. refl };

    ghost coefficients_scale = { product-constant_coefficients (baby_bear_ring W) (baby_bear_laws W) };
}
