//! The packed form of the words.
ghost use Rattle.mlu_lanes.specs.LaneRing.{lane_by_lane};
ghost use Rattle.mlu_lanes.specs.WrappingU64.{wrapping_ring};

use super::WrappingU64;
use crate::lanes::{LaneWidth, Lanes};
use mlu_ring::{Field, Lanewise};
use std::mem::size_of;

impl<const W: usize> Lanewise for WrappingU64<W>
where
    Lanes<Self, W>: LaneWidth<W>,
{
    type Packing = Lanes<Self, W>;

    ghost lane_by_lane = { lane_by_lane W (wrapping_ring W) };
}

impl<const W: usize> Field for WrappingU64<W>
where
    Lanes<Self, W>: LaneWidth<W>,
{
    ghost bytes_of = { 8 };

    #[inline]
    fn bytes() -> usize {
        size_of::<Self>()
    }

    #[inline]
    fn lanes_mul(a: Lanes<Self, W>, b: Lanes<Self, W>) -> Lanes<Self, W> {
        a * b
    }
}
