//! The ring of the words, whose operations wrap round.
ghost use Rattle.std.specs.Prelude.{◌≡◌, refl};
ghost use Rattle.mlu_lanes.specs.WrappingU64.{wrapping_ring, wrapping_laws, numbers_are_residues};
ghost use Rattle.mlu_lanes.specs.Residues.{eq_residues};

use super::WrappingU64;
use mlu_ring::{Additive, PrimeCharacteristicRing};
use std::ops::{Add, Mul, Neg, Sub};

impl<const W: usize> Add for WrappingU64<W> {
    type Output = Self;

    ghost add_gives = { λ a b r. r ≡ (wrapping_ring W).sum a b };

    #[inline]
    fn add(self, other: Self) -> Self {
        WrappingU64 {
            value: self.value.wrapping_add(other.value),
        }
    }
}

impl<const W: usize> Sub for WrappingU64<W> {
    type Output = Self;

    ghost sub_gives = { λ a b r. r ≡ (wrapping_ring W).minus a b };

    #[inline]
    fn sub(self, other: Self) -> Self {
        WrappingU64 {
            value: self.value.wrapping_sub(other.value),
        }
    }
}

impl<const W: usize> Neg for WrappingU64<W> {
    type Output = Self;

    ghost neg_gives = { λ a r. r ≡ (wrapping_ring W).negation a };

    #[inline]
    fn neg(self) -> Self {
        WrappingU64 {
            value: self.value.wrapping_neg(),
        }
    }
}

impl<const W: usize> Mul for WrappingU64<W> {
    type Output = Self;

    ghost mul_gives = { λ a b r. r ≡ (wrapping_ring W).product a b };

    #[inline]
    fn mul(self, other: Self) -> Self {
        WrappingU64 {
            value: self.value.wrapping_mul(other.value),
        }
    }
}

impl<const W: usize> Additive for WrappingU64<W> {
    ghost ring = { wrapping_ring W };

    const ZERO: Self = WrappingU64 { value: 0 };

    const ONE: Self = WrappingU64 { value: 1 };

    ghost ZERO = { (wrapping_ring W).zero };

    ghost ONE = { (wrapping_ring W).one };

    ghost laws = { wrapping_laws W };

    ghost zero_is = { refl };

    ghost one_is = { refl };

    ghost eq_is = { eq_residues numbers_are_residues };

    ghost can_add_law = { λ a b. tt };

    ghost adds = { λ a b r h. h };

    ghost can_sub_law = { λ a b. tt };

    ghost subtracts = { λ a b r h. h };

    ghost can_neg_law = { λ a. tt };

    ghost negates = { λ a r h. h };
}

impl<const W: usize> PrimeCharacteristicRing for WrappingU64<W> {
    const TWO: Self = WrappingU64 { value: 2 };

    const NEG_ONE: Self = WrappingU64 { value: u64::MAX };

    ghost TWO = { (wrapping_ring W).sum (wrapping_ring W).one (wrapping_ring W).one };

    ghost NEG_ONE = { (wrapping_ring W).negation (wrapping_ring W).one };

    ghost can_mul_law = { λ a b. tt };

    ghost multiplies = { λ a b r h. h };

    ghost two_is = { refl };

    ghost neg_one_is = { refl };
}
