//! The ring of lanes: each operation goes lane by lane.
ghost use Rattle.std.specs.Prelude.{◌≡◌, ◌<◌, slice_index_or};
ghost use Rattle.std.proofs.Common.{ap};
ghost use Rattle.mlu_lanes.specs.LaneRing.{values_of, splat, lane_ring, lane_laws, eq_lanes, splat_two, splat_neg_one};
ghost use Rattle.mlu_lanes.specs.Entrywise.{Entrywise, EntrywisePair, EntrywiseTriple, zipped_by, mapped_by};

use super::Lanes;
use mlu_ring::{Additive, PrimeCharacteristicRing};
use std::ops::{Add, Mul, Neg, Sub};

impl<F: Add<Output = F> + Copy, const W: usize> Add for Lanes<F, W> {
    type Output = Self;

    ghost can_add = { λ a b. EntrywisePair W F.can_add (values_of a) (values_of b) };

    ghost add_gives = { λ a b r. EntrywiseTriple W F.add_gives (values_of a) (values_of b) (values_of r) };

    #[inline]
    fn add(self, other: Self) -> Self {
        let mut values = self.values;
        for k in 0..W {
            values[k] = self.values[k] + other.values[k];
        }
        Lanes { values }
    }
}

impl<F: Sub<Output = F> + Copy, const W: usize> Sub for Lanes<F, W> {
    type Output = Self;

    ghost can_sub = { λ a b. EntrywisePair W F.can_sub (values_of a) (values_of b) };

    ghost sub_gives = { λ a b r. EntrywiseTriple W F.sub_gives (values_of a) (values_of b) (values_of r) };

    #[inline]
    fn sub(self, other: Self) -> Self {
        let mut values = self.values;
        for k in 0..W {
            values[k] = self.values[k] - other.values[k];
        }
        Lanes { values }
    }
}

impl<F: Neg<Output = F> + Copy, const W: usize> Neg for Lanes<F, W> {
    type Output = Self;

    ghost can_neg = { λ a. Entrywise W F.can_neg (values_of a) };

    ghost neg_gives = { λ a r. EntrywisePair W F.neg_gives (values_of a) (values_of r) };

    #[inline]
    fn neg(self) -> Self {
        let mut values = self.values;
        for k in 0..W {
            values[k] = -self.values[k];
        }
        Lanes { values }
    }
}

impl<F: Additive, const W: usize> Additive for Lanes<F, W> {
    ghost ring = { lane_ring W F.ring };

    const ZERO: Self = Lanes {
        values: [F::ZERO; W],
    };

    const ONE: Self = Lanes {
        values: [F::ONE; W],
    };

    ghost ZERO = { splat W F.ZERO };

    ghost ONE = { splat W F.ONE };

    ghost laws = { lane_laws W F.ring F.Additive.laws };

    ghost zero_is = { ap (splat W) F.zero_is };

    ghost one_is = { ap (splat W) F.one_is };

    ghost eq_is = { eq_lanes W F.eq F.eq_is };

    ghost can_add_law = { λ a b k h d. F.can_add_law (slice_index_or (values_of a) k d) (slice_index_or (values_of b) k d) };

    ghost adds = { zipped_by W F.add_gives F.ring.sum F.adds F.ring.zero };

    ghost can_sub_law = { λ a b k h d. F.can_sub_law (slice_index_or (values_of a) k d) (slice_index_or (values_of b) k d) };

    ghost subtracts = { zipped_by W F.sub_gives F.ring.minus F.subtracts F.ring.zero };

    ghost can_neg_law = { λ a k h d. F.can_neg_law (slice_index_or (values_of a) k d) };

    ghost negates = { mapped_by W F.neg_gives F.ring.negation F.negates F.ring.zero };
}

impl<F: Mul<Output = F> + Copy, const W: usize> Mul for Lanes<F, W> {
    type Output = Self;

    ghost can_mul = { λ a b. EntrywisePair W F.can_mul (values_of a) (values_of b) };

    ghost mul_gives = { λ a b r. EntrywiseTriple W F.mul_gives (values_of a) (values_of b) (values_of r) };

    #[inline]
    fn mul(self, other: Self) -> Self {
        let mut values = self.values;
        for k in 0..W {
            values[k] = self.values[k] * other.values[k];
        }
        Lanes { values }
    }
}

impl<F: PrimeCharacteristicRing, const W: usize> PrimeCharacteristicRing for Lanes<F, W> {
    const TWO: Self = Lanes {
        values: [F::TWO; W],
    };

    const NEG_ONE: Self = Lanes {
        values: [F::NEG_ONE; W],
    };

    ghost TWO = { splat W F.TWO };

    ghost NEG_ONE = { splat W F.NEG_ONE };

    #[inline]
    fn four_products(l: &(Self, Self, Self, Self), r: &(Self, Self, Self, Self)) -> Self {
        let mut values = [F::ZERO; W];
        let left = (
            &l.0.values[..],
            &l.1.values[..],
            &l.2.values[..],
            &l.3.values[..],
        );
        let right = (
            &r.0.values[..],
            &r.1.values[..],
            &r.2.values[..],
            &r.3.values[..],
        );
        F::each_four_products(&mut values, &left, &right);
        Lanes { values }
    }

    ghost can_mul_law = { λ a b k h d. F.can_mul_law (slice_index_or (values_of a) k d) (slice_index_or (values_of b) k d) };

    ghost multiplies = { zipped_by W F.mul_gives F.ring.product F.multiplies F.ring.zero };

    ghost two_is = { splat_two W F.ring F.TWO F.two_is };

    ghost neg_one_is = { splat_neg_one W F.ring F.NEG_ONE F.neg_one_is };
}

impl<F: PrimeCharacteristicRing, const W: usize> Lanes<F, W> {
    ghost use Rattle.std.specs.Prelude.{map};
    ghost use Rattle.mlu_ring.specs.Fours.{in_order};
    ghost use Rattle.mlu_ring.specs.Tables.{pair};

    /// The sum of the products of four packed values with an element each, which stands in every
    /// lane.
    #[inline(always)]
    pub fn row_times_column(row: &(Self, Self, Self, Self), column: &(F, F, F, F)) -> Self
        ensures { result ≡ pair (lane_ring W F.ring) (in_order row.now) (map (splat W) (in_order column.now)) }
    {
        let mut values = [F::ZERO; W];
        let places = (
            &row.0.values[..],
            &row.1.values[..],
            &row.2.values[..],
            &row.3.values[..],
        );
        F::rows_times_column(&mut values, &places, column);
        Lanes { values }
    }
}
