//! The prime field over itself: the identity as embedding, one coefficient, and the lanes as packed
//! form.
ghost use Rattle.std.specs.Prelude.{◌∷◌, [], refl, slice_index_or};
ghost use Rattle.std.proofs.Common.{sym};
ghost use Rattle.std.proofs.lemmas.List.{map-id};
ghost use Rattle.mlu_ring.proofs.TrivialExtension.{identity_is_ring_map, one_coefficient, only_transposed};
ghost use Rattle.mlu_lanes.specs.LaneRing.{values_of, splat, packed_of, lanes_are_lists, lane_by_lane};
ghost use Rattle.mlu_lanes.specs.BabyBear.{baby_bear_ring};

use super::BabyBear;
use crate::lanes::{LaneWidth, Lanes};
use mlu_ring::{
    Algebra, ExtensionField, MapFrom, PackedFieldExtension, PackedValue, RingMapFrom, SelfAlgebra,
};

impl<const W: usize> Algebra<BabyBear<W>> for BabyBear<W> {
    ghost embed = { λ b. b };

    #[inline]
    fn from_base(b: Self) -> Self {
        b
    }

    ghost keeps = { identity_is_ring_map (baby_bear_ring W) };
}

impl<const W: usize> SelfAlgebra for BabyBear<W> {
    ghost embeds_itself = { λ x. refl };
}

impl<const W: usize> MapFrom<BabyBear<W>> for BabyBear<W> {
    ghost image = { λ x. x };

    #[inline]
    fn map(x: Self) -> Self {
        x
    }
}

impl<const W: usize> RingMapFrom<BabyBear<W>> for BabyBear<W> {
    ghost keeps_ring = { identity_is_ring_map (baby_bear_ring W) };
}

impl<const W: usize> ExtensionField<BabyBear<W>> for BabyBear<W>
where
    Lanes<BabyBear<W>, W>: LaneWidth<W>,
{
    type ExtensionPacking = Lanes<BabyBear<W>, W>;

    const DIMENSION: usize = 1;

    ghost DIMENSION = { 1 };

    ghost coefficients = { λ a. a ∷ [] };

    ghost of_coefficients = { λ cs. slice_index_or cs 0 (baby_bear_ring W).zero };

    #[inline]
    fn coefficient(&self, _k: usize) -> BabyBear<W> {
        *self
    }

    #[inline]
    fn set_coefficient(&mut self, _k: usize, c: BabyBear<W>) {
        *self = c;
    }

    ghost coefficients_are = { one_coefficient (baby_bear_ring W).zero };

    ghost coefficients_sum = { λ a b. refl };

    ghost coefficients_scale = { λ a f. refl };
}

impl<const W: usize> PackedFieldExtension<BabyBear<W>, BabyBear<W>> for Lanes<BabyBear<W>, W>
where
    Lanes<BabyBear<W>, W>: LaneWidth<W>,
{
    ghost ext_lanes = { values_of };

    ghost of_ext_lanes = { packed_of W (baby_bear_ring W).zero };

    ghost packed_coefficients = { λ p. p ∷ [] };

    ghost of_packed_coefficients = { λ cs. slice_index_or cs 0 (splat W (baby_bear_ring W).zero) };

    #[inline]
    fn from_ext_slice(values: &[BabyBear<W>]) -> Self {
        PackedValue::load(values)
    }

    #[inline]
    fn store_ext(&self, out: &mut [BabyBear<W>]) {
        PackedValue::store(self, out)
    }

    #[inline]
    fn ext_lane(&self, k: usize) -> BabyBear<W> {
        PackedValue::lane(self, k)
    }

    #[inline]
    fn packed_coefficient(&self, _k: usize) -> Lanes<BabyBear<W>, W> {
        *self
    }

    #[inline]
    fn set_packed_coefficient(&mut self, _k: usize, c: Lanes<BabyBear<W>, W>) {
        *self = c;
    }

    ghost lanes_are = { lanes_are_lists W (baby_bear_ring W).zero };

    ghost coefficients_are = { one_coefficient (splat W (baby_bear_ring W).zero) };

    ghost lane_by_lane = { lane_by_lane W (baby_bear_ring W) };

    ghost embeds_element = { λ x. refl };

    ghost embeds_packing = { λ p. sym (map-id (values_of p)) };

    ghost transposed = { λ p k c h i. only_transposed _ _ values_of p k c i };
}
