//! The ring of a product: each operation goes entry by entry.
ghost use Rattle.std.specs.Prelude.{slice_index_or};
ghost use Rattle.std.proofs.Common.{ap};
ghost use Rattle.mlu_lanes.specs.LaneRing.{splat_two, splat_neg_one};
ghost use Rattle.mlu_lanes.specs.Entrywise.{Entrywise, EntrywisePair, EntrywiseTriple};
ghost use Rattle.mlu_ext.specs.Product.{entries_of, product_of, diagonal, product_ring, product_laws};
ghost use Rattle.mlu_ext.specs.Product.{eq_product, entries_zipped_by, entries_mapped_by};

use super::ProductAlgebra;
use mlu_lanes::Lanes;
use mlu_ring::{Additive, PrimeCharacteristicRing};
use std::ops::{Add, Mul, Neg, Sub};

impl<R: Add<Output = R> + Copy, const D: usize> Add for ProductAlgebra<R, D> {
    type Output = Self;

    ghost can_add = { λ a b. EntrywisePair D R.can_add (entries_of a) (entries_of b) };

    ghost add_gives = { λ a b r. EntrywiseTriple D R.add_gives (entries_of a) (entries_of b) (entries_of r) };

    #[inline]
    fn add(self, rhs: Self) -> Self {
        ProductAlgebra {
            copies: self.copies + rhs.copies,
        }
    }
}

impl<R: Sub<Output = R> + Copy, const D: usize> Sub for ProductAlgebra<R, D> {
    type Output = Self;

    ghost can_sub = { λ a b. EntrywisePair D R.can_sub (entries_of a) (entries_of b) };

    ghost sub_gives = { λ a b r. EntrywiseTriple D R.sub_gives (entries_of a) (entries_of b) (entries_of r) };

    #[inline]
    fn sub(self, rhs: Self) -> Self {
        ProductAlgebra {
            copies: self.copies - rhs.copies,
        }
    }
}

impl<R: Neg<Output = R> + Copy, const D: usize> Neg for ProductAlgebra<R, D> {
    type Output = Self;

    ghost can_neg = { λ a. Entrywise D R.can_neg (entries_of a) };

    ghost neg_gives = { λ a r. EntrywisePair D R.neg_gives (entries_of a) (entries_of r) };

    #[inline]
    fn neg(self) -> Self {
        ProductAlgebra {
            copies: -self.copies,
        }
    }
}

impl<R: Mul<Output = R> + Copy, const D: usize> Mul for ProductAlgebra<R, D> {
    type Output = Self;

    ghost can_mul = { λ a b. EntrywisePair D R.can_mul (entries_of a) (entries_of b) };

    ghost mul_gives = { λ a b r. EntrywiseTriple D R.mul_gives (entries_of a) (entries_of b) (entries_of r) };

    #[inline]
    fn mul(self, rhs: Self) -> Self {
        ProductAlgebra {
            copies: self.copies * rhs.copies,
        }
    }
}

impl<R: Additive, const D: usize> Additive for ProductAlgebra<R, D> {
    ghost ring = { product_ring D R.ring };

    const ZERO: Self = ProductAlgebra {
        copies: Lanes::ZERO,
    };

    const ONE: Self = ProductAlgebra { copies: Lanes::ONE };

    ghost ZERO = { diagonal D R.ZERO };

    ghost ONE = { diagonal D R.ONE };

    ghost laws = { product_laws D R.ring R.Additive.laws };

    ghost zero_is = { ap (diagonal D) R.zero_is };

    ghost one_is = { ap (diagonal D) R.one_is };

    ghost eq_is = { eq_product D R.eq R.eq_is };

    ghost can_add_law = { λ a b k h d. R.can_add_law (slice_index_or (entries_of a) k d) (slice_index_or (entries_of b) k d) };

    ghost adds = { entries_zipped_by D R.add_gives R.ring.sum R.adds R.ring.zero };

    ghost can_sub_law = { λ a b k h d. R.can_sub_law (slice_index_or (entries_of a) k d) (slice_index_or (entries_of b) k d) };

    ghost subtracts = { entries_zipped_by D R.sub_gives R.ring.minus R.subtracts R.ring.zero };

    ghost can_neg_law = { λ a k h d. R.can_neg_law (slice_index_or (entries_of a) k d) };

    ghost negates = { entries_mapped_by D R.neg_gives R.ring.negation R.negates R.ring.zero };
}

impl<R: PrimeCharacteristicRing, const D: usize> PrimeCharacteristicRing for ProductAlgebra<R, D> {
    const TWO: Self = ProductAlgebra { copies: Lanes::TWO };

    const NEG_ONE: Self = ProductAlgebra {
        copies: Lanes::NEG_ONE,
    };

    ghost TWO = { diagonal D R.TWO };

    ghost NEG_ONE = { diagonal D R.NEG_ONE };

    ghost can_mul_law = { λ a b k h d. R.can_mul_law (slice_index_or (entries_of a) k d) (slice_index_or (entries_of b) k d) };

    ghost multiplies = { entries_zipped_by D R.mul_gives R.ring.product R.multiplies R.ring.zero };

    ghost two_is = { ap (product_of D) (splat_two D R.ring R.TWO R.two_is) };

    ghost neg_one_is = { ap (product_of D) (splat_neg_one D R.ring R.NEG_ONE R.neg_one_is) };
}
