//! The packed form of a product over the prime field.
ghost use Rattle.mlu_lanes.specs.LaneRing.{lane_ring};
ghost use Rattle.mlu_lanes.specs.BabyBear.{baby_bear_ring, baby_bear_laws};
ghost use Rattle.mlu_ext.specs.Product.{entries_of, product_from, entries_are_lists};
ghost use Rattle.mlu_ext.specs.ProductMaps.{product_elements, product_of_elements, product_elements_are_lists, product_elements_by_lane};
ghost use Rattle.mlu_ext.specs.ProductMaps.{product_elements-splat, product_elements-diagonal, product_transposed};

use super::ProductAlgebra;
use crate::coefficients::column;
use mlu_lanes::{BabyBear, Coefficients, LaneWidth, Lanes};
use mlu_ring::{Additive, PackedFieldExtension, PackedValue};

impl<const W: usize, const D: usize> PackedFieldExtension<
    BabyBear<W>,
    ProductAlgebra<BabyBear<W>, D>,
> for ProductAlgebra<Lanes<BabyBear<W>, W>, D>
where
    Lanes<BabyBear<W>, W>: LaneWidth<W>,
{
    ghost ext_lanes = { product_elements W D (baby_bear_ring W).zero };

    ghost of_ext_lanes = { product_of_elements W D (baby_bear_ring W).zero };

    ghost packed_coefficients = { entries_of };

    ghost of_packed_coefficients = { product_from D (lane_ring W (baby_bear_ring W)).zero };

    #[inline]
    fn from_ext_slice(values: &[ProductAlgebra<BabyBear<W>, D>]) -> Self {
        let mut packed = Self::ZERO.to_array();
        for c in 0..D {
            packed[c] = column(values, c);
        }
        ProductAlgebra::from_array(packed)
    }

    #[inline]
    fn store_ext(&self, out: &mut [ProductAlgebra<BabyBear<W>, D>]) {
        for k in 0..W {
            out[k] = self.ext_lane(k);
        }
    }

    #[inline]
    fn ext_lane(&self, k: usize) -> ProductAlgebra<BabyBear<W>, D> {
        let packed = self.to_array();
        let mut entries = [BabyBear::ZERO; D];
        for c in 0..D {
            let lanes = packed[c];
            entries[c] = lanes.lane(k);
        }
        ProductAlgebra::from_array(entries)
    }

    #[inline]
    fn packed_coefficient(&self, k: usize) -> Lanes<BabyBear<W>, W> {
        self.at(k)
    }

    #[inline]
    fn set_packed_coefficient(&mut self, k: usize, c: Lanes<BabyBear<W>, W>) {
        self.set_at(k, c);
    }

    ghost lanes_are = { product_elements_are_lists W D (baby_bear_ring W).zero };

    ghost coefficients_are = { entries_are_lists D (lane_ring W (baby_bear_ring W)).zero };

    ghost lane_by_lane = { product_elements_by_lane W D (baby_bear_ring W) (baby_bear_laws W) };

    ghost embeds_element = { product_elements-splat W D (baby_bear_ring W).zero };

    ghost embeds_packing = { product_elements-diagonal W D (baby_bear_ring W).zero };

    ghost transposed = { λ p k c h i. product_transposed W D (baby_bear_ring W).zero p k c h i };
}
