//! Polynomials over their ring, over themselves, and packed over polynomials.
ghost use Rattle.std.specs.Prelude.{◌≡◌, refl};
ghost use Rattle.mlu_ring.proofs.TrivialExtension.{identity_is_ring_map};
ghost use Rattle.mlu_lanes.specs.LaneRing.{splat};
ghost use Rattle.mlu_ext.specs.Quartic.{constant, quartic, quartic_coefficients, quartic_map};
ghost use Rattle.mlu_ext.specs.QuarticLaws.{constant_is_ring_map};
ghost use Rattle.mlu_ext.specs.QuarticMaps.{quartic_splat_is_ring_map};

use super::QuarticExtension;
use super::ring::wrapped;
use mlu_lanes::{Coefficients, Lanes};
use mlu_ring::{
    Additive, Algebra, MapFrom, PrimeCharacteristicRing, RingMapFrom, Sample, SelfAlgebra,
};
use rand::RngExt;

impl<R> QuarticExtension<R> {
    /// `c0 + c1 X + c2 X^2 + c3 X^3`.
    #[inline]
    pub fn new(c0: R, c1: R, c2: R, c3: R) -> Self
        ensures { result ≡ quartic c0 c1 c2 c3 }
    {
        QuarticExtension { c0, c1, c2, c3 }
    }
}

impl<R: Copy> Coefficients<R> for QuarticExtension<R> {
    ghost count = { 4 };

    ghost list = { quartic_coefficients };

    #[inline]
    fn at(&self, k: usize) -> R {
        match k {
            0 => self.c0,
            1 => self.c1,
            2 => self.c2,
            _ => self.c3,
        }
    }

    #[inline]
    fn set_at(&mut self, k: usize, c: R) {
        match k {
            0 => self.c0 = c,
            1 => self.c1 = c,
            2 => self.c2 = c,
            _ => self.c3 = c,
        }
    }
}

impl<R: PrimeCharacteristicRing> Algebra<QuarticExtension<R>> for QuarticExtension<R> {
    ghost embed = { λ b. b };

    #[inline]
    fn from_base(b: Self) -> Self {
        b
    }

    // Folds scale every entry by the same `b`, so its columns are worth preparing.
    #[inline(always)]
    fn scale(self, b: Self) -> Self {
        self.times_fixed(b)
    }

    ghost keeps = { identity_is_ring_map Self.ring };
}

impl<R: PrimeCharacteristicRing> SelfAlgebra for QuarticExtension<R> {
    ghost embeds_itself = { λ x. refl };
}

/// An element of `R` stands for the constant polynomial.
impl<R: PrimeCharacteristicRing> Algebra<R> for QuarticExtension<R> {
    ghost embed = { constant R.ring.zero };

    #[inline]
    fn from_base(b: R) -> Self {
        QuarticExtension::new(b, R::ZERO, R::ZERO, R::ZERO)
    }

    // Four products in place of sixteen.
    #[inline]
    fn scale(self, b: R) -> Self {
        QuarticExtension::new(self.c0 * b, self.c1 * b, self.c2 * b, self.c3 * b)
    }

    #[inline]
    fn plus(self, b: R) -> Self {
        QuarticExtension::new(self.c0 + b, self.c1, self.c2, self.c3)
    }

    ghost keeps = { constant_is_ring_map R.ring R.Additive.laws };
}

/// An element stands for itself in every lane.
impl<F: PrimeCharacteristicRing, const W: usize> Algebra<QuarticExtension<F>>
    for QuarticExtension<Lanes<F, W>> {
    ghost embed = { quartic_map (splat W) };

    #[inline]
    fn from_base(b: QuarticExtension<F>) -> Self {
        QuarticExtension {
            c0: Lanes::from_base(b.c0),
            c1: Lanes::from_base(b.c1),
            c2: Lanes::from_base(b.c2),
            c3: Lanes::from_base(b.c3),
        }
    }

    // A row times four columns of elements: eleven times a coefficient is made once for all lanes.
    #[inline(always)]
    fn scale(self, b: QuarticExtension<F>) -> Self {
        let own = (self.c0, self.c1, self.c2, self.c3);
        let QuarticExtension { c0, c1, c2, c3 } = b;
        let (r1, r2, r3) = wrapped(b);
        QuarticExtension {
            c0: Lanes::row_times_column(&own, &(c0, r3, r2, r1)),
            c1: Lanes::row_times_column(&own, &(c1, c0, r3, r2)),
            c2: Lanes::row_times_column(&own, &(c2, c1, c0, r3)),
            c3: Lanes::row_times_column(&own, &(c3, c2, c1, c0)),
        }
    }

    ghost keeps = { quartic_splat_is_ring_map W F.ring F.Additive.laws };
}

/// An element of `R` stands for the constant polynomial.
impl<R: Additive> MapFrom<R> for QuarticExtension<R> {
    ghost image = { constant R.ring.zero };

    #[inline]
    fn map(x: R) -> Self {
        QuarticExtension::new(x, R::ZERO, R::ZERO, R::ZERO)
    }
}

impl<R: Additive> RingMapFrom<R> for QuarticExtension<R> {
    ghost keeps_ring = { constant_is_ring_map R.ring R.Additive.laws };
}

/// An element stands for itself.
impl<R: Additive> MapFrom<QuarticExtension<R>> for QuarticExtension<R> {
    ghost image = { λ x. x };

    #[inline]
    fn map(x: Self) -> Self {
        x
    }
}

impl<R: Additive> RingMapFrom<QuarticExtension<R>> for QuarticExtension<R> {
    ghost keeps_ring = { identity_is_ring_map Self.ring };
}

/// Draws the coefficients in order.
impl<R: Sample> Sample for QuarticExtension<R> {
    fn sample<G: RngExt>(rng: &mut G) -> Self {
        QuarticExtension {
            c0: R::sample(rng),
            c1: R::sample(rng),
            c2: R::sample(rng),
            c3: R::sample(rng),
        }
    }
}
