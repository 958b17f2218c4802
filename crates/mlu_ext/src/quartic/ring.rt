//! The ring of the polynomials: sums by coefficients, products modulo X^4 - 11.
ghost use Rattle.std.specs.Prelude.{◌≡◌};
ghost use Rattle.mlu_ext.specs.Eleven.{eleven};
ghost use Rattle.mlu_ext.specs.Quartic.{by_powers, constant, of_four, quartic_ring, Coefficientwise};
ghost use Rattle.mlu_ext.specs.Quartic.{CoefficientwisePair, CoefficientwiseTriple};
ghost use Rattle.mlu_ext.specs.QuarticLaws.{quartic_laws, quartic_same, quartic_eq, constant_two};
ghost use Rattle.mlu_ext.specs.QuarticLaws.{constant_neg_one, coefficients_by, coefficients_each_by};

use super::QuarticExtension;
use mlu_ring::{Additive, PrimeCharacteristicRing};
use std::ops::{Add, Mul, Neg, Sub};

impl<R: Add<Output = R>> Add for QuarticExtension<R> {
    type Output = Self;

    ghost can_add = { CoefficientwisePair R.can_add };

    ghost add_gives = { CoefficientwiseTriple R.add_gives };

    #[inline]
    fn add(self, rhs: Self) -> Self {
        QuarticExtension {
            c0: self.c0 + rhs.c0,
            c1: self.c1 + rhs.c1,
            c2: self.c2 + rhs.c2,
            c3: self.c3 + rhs.c3,
        }
    }
}

impl<R: Sub<Output = R>> Sub for QuarticExtension<R> {
    type Output = Self;

    ghost can_sub = { CoefficientwisePair R.can_sub };

    ghost sub_gives = { CoefficientwiseTriple R.sub_gives };

    #[inline]
    fn sub(self, rhs: Self) -> Self {
        QuarticExtension {
            c0: self.c0 - rhs.c0,
            c1: self.c1 - rhs.c1,
            c2: self.c2 - rhs.c2,
            c3: self.c3 - rhs.c3,
        }
    }
}

impl<R: Neg<Output = R>> Neg for QuarticExtension<R> {
    type Output = Self;

    ghost can_neg = { Coefficientwise R.can_neg };

    ghost neg_gives = { CoefficientwisePair R.neg_gives };

    #[inline]
    fn neg(self) -> Self {
        QuarticExtension {
            c0: -self.c0,
            c1: -self.c1,
            c2: -self.c2,
            c3: -self.c3,
        }
    }
}

impl<R: PrimeCharacteristicRing> Mul for QuarticExtension<R> {
    type Output = Self;

    ghost mul_gives = { λ a b r. r ≡ (quartic_ring R.ring).product a b };

    // Inlined, so that a loop with the same `rhs` makes its eleven-fold coefficients once.
    #[inline(always)]
    fn mul(self, rhs: Self) -> Self {
        let own = (self.c0, self.c1, self.c2, self.c3);
        let QuarticExtension { c0, c1, c2, c3 } = rhs;
        let (r1, r2, r3) = wrapped(rhs);
        let product = R::row_times_columns(
            &own,
            &(c0, r3, r2, r1),
            &(c1, c0, r3, r2),
            &(c2, c1, c0, r3),
            &(c3, c2, c1, c0),
        );
        QuarticExtension {
            c0: product.0,
            c1: product.1,
            c2: product.2,
            c3: product.3,
        }
    }
}

impl<R: Additive> Additive for QuarticExtension<R> {
    ghost ring = { quartic_ring R.ring };

    const ZERO: Self = QuarticExtension {
        c0: R::ZERO,
        c1: R::ZERO,
        c2: R::ZERO,
        c3: R::ZERO,
    };

    const ONE: Self = QuarticExtension {
        c0: R::ONE,
        c1: R::ZERO,
        c2: R::ZERO,
        c3: R::ZERO,
    };

    ghost ZERO = { constant R.ZERO R.ZERO };

    ghost ONE = { constant R.ZERO R.ONE };

    ghost laws = { quartic_laws R.ring R.Additive.laws };

    ghost zero_is = { quartic_same R.zero_is R.zero_is R.zero_is R.zero_is };

    ghost one_is = { quartic_same R.one_is R.zero_is R.zero_is R.zero_is };

    ghost eq_is = { quartic_eq R.eq R.eq_is };

    ghost can_add_law = { λ a b. (R.can_add_law a.c0 b.c0, R.can_add_law a.c1 b.c1, R.can_add_law a.c2 b.c2, R.can_add_law a.c3 b.c3) };

    ghost adds = { coefficients_by R.add_gives R.ring.sum R.adds };

    ghost can_sub_law = { λ a b. (R.can_sub_law a.c0 b.c0, R.can_sub_law a.c1 b.c1, R.can_sub_law a.c2 b.c2, R.can_sub_law a.c3 b.c3) };

    ghost subtracts = { coefficients_by R.sub_gives R.ring.minus R.subtracts };

    ghost can_neg_law = { λ a. (R.can_neg_law a.c0, R.can_neg_law a.c1, R.can_neg_law a.c2, R.can_neg_law a.c3) };

    ghost negates = { coefficients_each_by R.neg_gives R.ring.negation R.negates };
}

impl<R: PrimeCharacteristicRing> PrimeCharacteristicRing for QuarticExtension<R> {
    const TWO: Self = QuarticExtension {
        c0: R::TWO,
        c1: R::ZERO,
        c2: R::ZERO,
        c3: R::ZERO,
    };

    const NEG_ONE: Self = QuarticExtension {
        c0: R::NEG_ONE,
        c1: R::ZERO,
        c2: R::ZERO,
        c3: R::ZERO,
    };

    ghost TWO = { constant R.ZERO R.TWO };

    ghost NEG_ONE = { constant R.ZERO R.NEG_ONE };

    // The columns of the factor are made and prepared once in a loop.
    #[inline(always)]
    fn times_fixed(self, factor: Self) -> Self {
        let own = (self.c0, self.c1, self.c2, self.c3);
        let QuarticExtension { c0, c1, c2, c3 } = factor;
        let (r1, r2, r3) = wrapped(factor);
        let product = R::row_times_fixed_columns(
            &own,
            &(c0, r3, r2, r1),
            &(c1, c0, r3, r2),
            &(c2, c1, c0, r3),
            &(c3, c2, c1, c0),
        );
        QuarticExtension {
            c0: product.0,
            c1: product.1,
            c2: product.2,
            c3: product.3,
        }
    }

    // Sums of products of coefficients first: a row for each power of X on the left. What wraps is
    // multiplied by eleven once.
    #[inline(always)]
    fn four_products(l: &(Self, Self, Self, Self), r: &(Self, Self, Self, Self)) -> Self {
        let c0 = (r.0.c0, r.1.c0, r.2.c0, r.3.c0);
        let c1 = (r.0.c1, r.1.c1, r.2.c1, r.3.c1);
        let c2 = (r.0.c2, r.1.c2, r.2.c2, r.3.c2);
        let c3 = (r.0.c3, r.1.c3, r.2.c3, r.3.c3);
        let constant = R::row_times_columns(&(l.0.c0, l.1.c0, l.2.c0, l.3.c0), &c0, &c1, &c2, &c3);
        let linear = R::row_times_columns(&(l.0.c1, l.1.c1, l.2.c1, l.3.c1), &c0, &c1, &c2, &c3);
        let quadratic = R::row_times_columns(&(l.0.c2, l.1.c2, l.2.c2, l.3.c2), &c0, &c1, &c2, &c3);
        let cubic = R::row_times_columns(&(l.0.c3, l.1.c3, l.2.c3, l.3.c3), &c0, &c1, &c2, &c3);
        joined_powers(constant, linear, quadratic, cubic)
    }

    ghost can_mul_law = { λ a b. tt };

    ghost multiplies = { λ a b r h. h };

    ghost two_is = { constant_two R.ring R.Additive.laws R.zero_is R.two_is };

    ghost neg_one_is = { constant_neg_one R.ring R.Additive.laws R.zero_is R.neg_one_is };
}

/// `constant + linear X + quadratic X^2 + cubic X^3`, each given by its coefficients.
#[inline]
pub(super) fn joined_powers<R: Additive>(
    constant: (R, R, R, R),
    linear: (R, R, R, R),
    quadratic: (R, R, R, R),
    cubic: (R, R, R, R),
) -> QuarticExtension<R>
    ensures { result ≡ by_powers R.ring (of_four constant) (of_four linear) (of_four quadratic) (of_four cubic) }
{
    QuarticExtension {
        c0: constant.0 + times_eleven(linear.3 + quadratic.2 + cubic.1),
        c1: constant.1 + linear.0 + times_eleven(quadratic.3 + cubic.2),
        c2: constant.2 + linear.1 + quadratic.0 + times_eleven(cubic.3),
        c3: constant.3 + linear.2 + quadratic.1 + cubic.0,
    }
}

/// What the coefficients of X, X^2 and X^3 become where their powers wrap: eleven times as much.
#[inline]
pub(super) fn wrapped<R: Additive>(b: QuarticExtension<R>) -> (R, R, R)
    ensures linear { result.0 ≡ R.ring.product (eleven R.ring) b.c1 }
    ensures quadratic { result.1 ≡ R.ring.product (eleven R.ring) b.c2 }
    ensures cubic { result.2 ≡ R.ring.product (eleven R.ring) b.c3 }
{
    (times_eleven(b.c1), times_eleven(b.c2), times_eleven(b.c3))
}

/// Eleven times x, as 8 x + 2 x + x.
#[inline]
fn times_eleven<R: Additive>(x: R) -> R
    ensures { result ≡ R.ring.product (eleven R.ring) x }
{
    let two = x.double();
    two.double().double() + two + x
}
