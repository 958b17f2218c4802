//! A product over the prime field as the extension of itself.
ghost use Rattle.std.specs.Prelude.{◌∷◌, [], refl, slice_index_or};
ghost use Rattle.std.proofs.Common.{sym};
ghost use Rattle.std.proofs.lemmas.List.{map-id};
ghost use Rattle.mlu_ring.proofs.TrivialExtension.{one_coefficient, only_transposed};
ghost use Rattle.mlu_lanes.specs.LaneRing.{values_of, splat, packed_of, lanes_are_lists, lane_by_lane};
ghost use Rattle.mlu_lanes.specs.BabyBear.{baby_bear_ring};
ghost use Rattle.mlu_ext.specs.Product.{product_ring};

use super::ProductAlgebra;
use mlu_lanes::{BabyBear, Lanes};
use mlu_ring::{ExtensionField, PackedFieldExtension, PackedValue};

impl<const W: usize, const D: usize> ExtensionField<ProductAlgebra<BabyBear<W>, D>>
    for ProductAlgebra<BabyBear<W>, D> {
    type ExtensionPacking = Lanes<Self, 1>;

    const DIMENSION: usize = 1;

    ghost DIMENSION = { 1 };

    ghost coefficients = { λ a. a ∷ [] };

    ghost of_coefficients = { λ cs. slice_index_or cs 0 (product_ring D (baby_bear_ring W)).zero };

    #[inline]
    fn coefficient(&self, _k: usize) -> Self {
        *self
    }

    #[inline]
    fn set_coefficient(&mut self, _k: usize, c: Self) {
        *self = c;
    }

    ghost coefficients_are = { one_coefficient (product_ring D (baby_bear_ring W)).zero };

    ghost coefficients_sum = { λ a b. refl };

    ghost coefficients_scale = { λ a f. refl };
}

impl<const W: usize, const D: usize> PackedFieldExtension<
    ProductAlgebra<BabyBear<W>, D>,
    ProductAlgebra<BabyBear<W>, D>,
> for Lanes<ProductAlgebra<BabyBear<W>, D>, 1> {
    ghost ext_lanes = { values_of };

    ghost of_ext_lanes = { packed_of 1 (product_ring D (baby_bear_ring W)).zero };

    ghost packed_coefficients = { λ p. p ∷ [] };

    ghost of_packed_coefficients = { λ cs. slice_index_or cs 0 (splat 1 (product_ring D (baby_bear_ring W)).zero) };

    #[inline]
    fn from_ext_slice(values: &[ProductAlgebra<BabyBear<W>, D>]) -> Self {
        PackedValue::load(values)
    }

    #[inline]
    fn store_ext(&self, out: &mut [ProductAlgebra<BabyBear<W>, D>]) {
        PackedValue::store(self, out)
    }

    #[inline]
    fn ext_lane(&self, k: usize) -> ProductAlgebra<BabyBear<W>, D> {
        PackedValue::lane(self, k)
    }

    #[inline]
    fn packed_coefficient(&self, _k: usize) -> Self {
        *self
    }

    #[inline]
    fn set_packed_coefficient(&mut self, _k: usize, c: Self) {
        *self = c;
    }

    ghost lanes_are = { lanes_are_lists 1 (product_ring D (baby_bear_ring W)).zero };

    ghost coefficients_are = { one_coefficient (splat 1 (product_ring D (baby_bear_ring W)).zero) };

    ghost lane_by_lane = { lane_by_lane 1 (product_ring D (baby_bear_ring W)) };

    ghost embeds_element = { λ x. refl };

    ghost embeds_packing = { λ p. sym (map-id (values_of p)) };

    ghost transposed = { λ p k c h i. only_transposed _ _ values_of p k c i };
}
