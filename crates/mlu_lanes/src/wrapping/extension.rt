//! The words over themselves: the identity as embedding, one coefficient, and the lanes as packed
//! form.
ghost use Rattle.std.specs.Prelude.{◌∷◌, [], refl, slice_index_or};
ghost use Rattle.std.proofs.Common.{sym};
ghost use Rattle.std.proofs.lemmas.List.{map-id};
ghost use Rattle.mlu_ring.proofs.TrivialExtension.{identity_is_ring_map, one_coefficient, only_transposed};
ghost use Rattle.mlu_lanes.specs.LaneRing.{values_of, splat, packed_of, lanes_are_lists, lane_by_lane};
ghost use Rattle.mlu_lanes.specs.WrappingU64.{wrapping_ring};

use super::WrappingU64;
use crate::lanes::{LaneWidth, Lanes};
use mlu_ring::{
    Algebra, ExtensionField, MapFrom, PackedFieldExtension, PackedValue, RingMapFrom, SelfAlgebra,
};

impl<const W: usize> Algebra<WrappingU64<W>> for WrappingU64<W> {
    ghost embed = { λ b. b };

    #[inline]
    fn from_base(b: Self) -> Self {
        b
    }

    ghost keeps = { identity_is_ring_map (wrapping_ring W) };
}

impl<const W: usize> SelfAlgebra for WrappingU64<W> {
    ghost embeds_itself = { λ x. refl };
}

impl<const W: usize> MapFrom<WrappingU64<W>> for WrappingU64<W> {
    ghost image = { λ x. x };

    #[inline]
    fn map(x: Self) -> Self {
        x
    }
}

impl<const W: usize> RingMapFrom<WrappingU64<W>> for WrappingU64<W> {
    ghost keeps_ring = { identity_is_ring_map (wrapping_ring W) };
}

impl<const W: usize> ExtensionField<WrappingU64<W>> for WrappingU64<W>
where
    Lanes<WrappingU64<W>, W>: LaneWidth<W>,
{
    type ExtensionPacking = Lanes<WrappingU64<W>, W>;

    const DIMENSION: usize = 1;

    ghost DIMENSION = { 1 };

    ghost coefficients = { λ a. a ∷ [] };

    ghost of_coefficients = { λ cs. slice_index_or cs 0 (wrapping_ring W).zero };

    #[inline]
    fn coefficient(&self, _k: usize) -> WrappingU64<W> {
        *self
    }

    #[inline]
    fn set_coefficient(&mut self, _k: usize, c: WrappingU64<W>) {
        *self = c;
    }

    ghost coefficients_are = { one_coefficient (wrapping_ring W).zero };

    ghost coefficients_sum = { λ a b. refl };

    ghost coefficients_scale = { λ a f. refl };
}

impl<const W: usize> PackedFieldExtension<WrappingU64<W>, WrappingU64<W>>
    for Lanes<WrappingU64<W>, W>
where
    Lanes<WrappingU64<W>, W>: LaneWidth<W>,
{
    ghost ext_lanes = { values_of };

    ghost of_ext_lanes = { packed_of W (wrapping_ring W).zero };

    ghost packed_coefficients = { λ p. p ∷ [] };

    ghost of_packed_coefficients = { λ cs. slice_index_or cs 0 (splat W (wrapping_ring W).zero) };

    #[inline]
    fn from_ext_slice(values: &[WrappingU64<W>]) -> Self {
        PackedValue::load(values)
    }

    #[inline]
    fn store_ext(&self, out: &mut [WrappingU64<W>]) {
        PackedValue::store(self, out)
    }

    #[inline]
    fn ext_lane(&self, k: usize) -> WrappingU64<W> {
        PackedValue::lane(self, k)
    }

    #[inline]
    fn packed_coefficient(&self, _k: usize) -> Lanes<WrappingU64<W>, W> {
        *self
    }

    #[inline]
    fn set_packed_coefficient(&mut self, _k: usize, c: Lanes<WrappingU64<W>, W>) {
        *self = c;
    }

    ghost lanes_are = { lanes_are_lists W (wrapping_ring W).zero };

    ghost coefficients_are = { one_coefficient (splat W (wrapping_ring W).zero) };

    ghost lane_by_lane = { lane_by_lane W (wrapping_ring W) };

    ghost embeds_element = { λ x. refl };

    ghost embeds_packing = { λ p. sym (map-id (values_of p)) };

    ghost transposed = { λ p k c h i. only_transposed _ _ values_of p k c i };
}
