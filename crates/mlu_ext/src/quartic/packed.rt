//! The packed form of a polynomial over the prime field.
ghost use Rattle.mlu_lanes.specs.LaneRing.{lane_ring};
ghost use Rattle.mlu_lanes.specs.BabyBear.{baby_bear_ring, baby_bear_laws};
ghost use Rattle.mlu_ext.specs.Quartic.{quartic_coefficients, quartic_of};
ghost use Rattle.mlu_ext.specs.QuarticPacked.{quartic_elements, quartic_of_elements, quartic_elements_are_lists, quartic_elements_by_lane};
ghost use Rattle.mlu_ext.specs.QuarticPacked.{quartic_elements-splat, quartic_elements-constant, quartic_transposed};
ghost use Rattle.mlu_ext.specs.QuarticMaps.{quartic_are_lists};

use super::QuarticExtension;
use mlu_lanes::{BabyBear, Coefficients, LaneWidth, Lanes, coefficient_columns, four_lanes};
use mlu_ring::{PackedFieldExtension, PackedValue};

/// The lanes that are stored at a time.
const GROUP: usize = 4;

impl<const W: usize> PackedFieldExtension<BabyBear<W>, QuarticExtension<BabyBear<W>>>
    for QuarticExtension<Lanes<BabyBear<W>, W>>
where
    Lanes<BabyBear<W>, W>: LaneWidth<W>,
{
    ghost ext_lanes = { quartic_elements W (baby_bear_ring W).zero };

    ghost of_ext_lanes = { quartic_of_elements W (baby_bear_ring W).zero };

    ghost packed_coefficients = { quartic_coefficients };

    ghost of_packed_coefficients = { quartic_of (lane_ring W (baby_bear_ring W)).zero };

    #[inline]
    fn from_ext_slice(values: &[QuarticExtension<BabyBear<W>>]) -> Self {
        let (c0, c1, c2, c3) = coefficient_columns(values);
        QuarticExtension { c0, c1, c2, c3 }
    }

    #[inline]
    fn store_ext(&self, out: &mut [QuarticExtension<BabyBear<W>>]) {
        let packed = (self.c0, self.c1, self.c2, self.c3);
        let groups = W / GROUP;
        for g in 0..groups {
            let k = GROUP * g;
            let (first, second, third, fourth) = four_lanes(&packed, k);
            out[k] = QuarticExtension::new(first.0, first.1, first.2, first.3);
            out[k + 1] = QuarticExtension::new(second.0, second.1, second.2, second.3);
            out[k + 2] = QuarticExtension::new(third.0, third.1, third.2, third.3);
            out[k + 3] = QuarticExtension::new(fourth.0, fourth.1, fourth.2, fourth.3);
        }
        for k in GROUP * groups..W {
            out[k] = self.ext_lane(k);
        }
    }

    #[inline]
    fn ext_lane(&self, k: usize) -> QuarticExtension<BabyBear<W>> {
        QuarticExtension {
            c0: self.c0.lane(k),
            c1: self.c1.lane(k),
            c2: self.c2.lane(k),
            c3: self.c3.lane(k),
        }
    }

    #[inline]
    fn packed_coefficient(&self, k: usize) -> Lanes<BabyBear<W>, W> {
        self.at(k)
    }

    #[inline]
    fn set_packed_coefficient(&mut self, k: usize, c: Lanes<BabyBear<W>, W>) {
        self.set_at(k, c);
    }

    ghost lanes_are = { quartic_elements_are_lists W (baby_bear_ring W).zero };

    ghost coefficients_are = { quartic_are_lists (lane_ring W (baby_bear_ring W)).zero };

    ghost lane_by_lane = { quartic_elements_by_lane W (baby_bear_ring W) (baby_bear_laws W) };

    ghost embeds_element = { quartic_elements-splat W (baby_bear_ring W).zero };

    ghost embeds_packing = { quartic_elements-constant W (baby_bear_ring W).zero };

    ghost transposed = { λ p k c h i. quartic_transposed W (baby_bear_ring W).zero p k c h i };
}
