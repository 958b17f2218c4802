//! The packed form of the prime field. Products are made in vectors, each lane reduced once.
ghost use Rattle.mlu_lanes.specs.LaneRing.{lane_by_lane};
ghost use Rattle.mlu_lanes.specs.BabyBear.{baby_bear_ring};

use super::BabyBear;
use super::dot::dot_by_groups;
use super::montgomery::{prepared, prepared_word};
use super::packed::{
    prepared_product, prepared_reduced, product_reduced, products, scaled, scaled_each, sum_reduced,
};
use super::reduce_each::{RADIX, reduce_each_product};
use crate::lanes::{LaneWidth, Lanes};
use crate::words::wide_sums;
use mlu_ring::{Field, Lanewise};
use std::mem::size_of;

impl<const W: usize> Lanewise for BabyBear<W>
where
    Lanes<Self, W>: LaneWidth<W>,
{
    type Packing = Lanes<Self, W>;

    ghost lane_by_lane = { lane_by_lane W (baby_bear_ring W) };
}

impl<const W: usize> Field for BabyBear<W>
where
    Lanes<Self, W>: LaneWidth<W>,
{
    ghost bytes_of = { 4 };

    #[inline]
    fn bytes() -> usize {
        size_of::<Self>()
    }

    // Products are added up in four lanes, which are reduced once.
    #[inline]
    fn dot(l: &[Self], r: &[Self]) -> Self {
        dot_by_groups(l, r)
    }

    #[inline(always)]
    fn lanes_mul(a: Lanes<Self, W>, b: Lanes<Self, W>) -> Lanes<Self, W> {
        product_reduced(products(&a, &b))
    }

    // The compiler prepares a factor that stays the same in a loop once.
    #[inline(always)]
    fn lanes_times_fixed(p: Lanes<Self, W>, factor: Lanes<Self, W>) -> Lanes<Self, W> {
        let prepared = reduce_each_product(scaled(&factor, RADIX as u32));
        prepared_product(scaled_each(&p, prepared))
    }

    // As in `lanes_times_fixed`.
    #[inline(always)]
    fn lanes_scale(p: Lanes<Self, W>, c: Self) -> Lanes<Self, W> {
        prepared_product(scaled(&p, prepared_word(c.value)))
    }

    #[inline(always)]
    fn dot4(l: &[Lanes<Self, W>], r: &[Lanes<Self, W>]) -> Lanes<Self, W> {
        let low = wide_sums(products(&l[0], &r[0]), products(&l[1], &r[1]));
        let high = wide_sums(products(&l[2], &r[2]), products(&l[3], &r[3]));
        sum_reduced(wide_sums(low, high))
    }

    // As in `lanes_times_fixed`.
    #[inline(always)]
    fn mixed_dot4(p: &[Lanes<Self, W>], c: &[Self]) -> Lanes<Self, W> {
        let factors = prepared(&(c[0], c[1], c[2], c[3]));
        let low = wide_sums(scaled(&p[0], factors[0]), scaled(&p[1], factors[1]));
        let high = wide_sums(scaled(&p[2], factors[2]), scaled(&p[3], factors[3]));
        prepared_reduced(wide_sums(low, high))
    }
}
