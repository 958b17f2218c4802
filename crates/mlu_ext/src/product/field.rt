//! Products over the prime field as an extension of it.
ghost use Rattle.std.specs.Prelude.{◌*◌, ◌-◌, ◌^◌, min, refl};
ghost use Rattle.mlu_lanes.specs.LaneRing.{lane_by_lane};
ghost use Rattle.mlu_lanes.specs.BabyBear.{baby_bear_ring};
ghost use Rattle.mlu_ext.specs.Product.{entries_of, product_from, entries_are_lists, product_ring};
ghost use Rattle.mlu_ext.specs.ProductMaps.{product-diagonal_entries};

use super::ProductAlgebra;
use mlu_lanes::{BabyBear, Coefficients, LaneWidth, Lanes};
use mlu_ring::{ExtensionField, Field, Lanewise, PackedValue};

impl<const W: usize, const D: usize> Lanewise for ProductAlgebra<BabyBear<W>, D> {
    type Packing = Lanes<Self, 1>;

    ghost lane_by_lane = { lane_by_lane 1 (product_ring D (baby_bear_ring W)) };
}

impl<const W: usize, const D: usize> Field for ProductAlgebra<BabyBear<W>, D> {
    ghost bytes_of = { min (4 * D) (2 ^ 64 - 1) };

    #[inline]
    fn bytes() -> usize {
        D.saturating_mul(4)
    }

    #[inline]
    fn lanes_mul(a: Lanes<Self, 1>, b: Lanes<Self, 1>) -> Lanes<Self, 1> {
        a * b
    }

    #[inline]
    fn lanes_times_fixed(p: Lanes<Self, 1>, factor: Lanes<Self, 1>) -> Lanes<Self, 1> {
        p * factor
    }

    #[inline]
    fn lanes_scale(p: Lanes<Self, 1>, c: Self) -> Lanes<Self, 1> {
        p * Lanes::splat(c)
    }
}

impl<const W: usize, const D: usize> ExtensionField<BabyBear<W>> for ProductAlgebra<BabyBear<W>, D>
where
    Lanes<BabyBear<W>, W>: LaneWidth<W>,
{
    type ExtensionPacking = ProductAlgebra<Lanes<BabyBear<W>, W>, D>;

    const DIMENSION: usize = D;

    ghost DIMENSION = { D };

    ghost coefficients = { entries_of };

    ghost of_coefficients = { product_from D (baby_bear_ring W).zero };

    #[inline]
    fn coefficient(&self, k: usize) -> BabyBear<W> {
        self.at(k)
    }

    #[inline]
    fn set_coefficient(&mut self, k: usize, c: BabyBear<W>) {
        self.set_at(k, c);
    }

    ghost coefficients_are = { entries_are_lists D (baby_bear_ring W).zero };

    ghost coefficients_sum = { λ a b. refl };

    ghost coefficients_scale = { product-diagonal_entries D (baby_bear_ring W) };
}
