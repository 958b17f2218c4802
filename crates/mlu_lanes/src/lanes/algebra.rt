//! Lanes over their elements, and over themselves.
ghost use Rattle.std.specs.Prelude.{refl};
ghost use Rattle.mlu_ring.proofs.TrivialExtension.{identity_is_ring_map};
ghost use Rattle.mlu_lanes.specs.LaneRing.{splat, splat_is_ring_map};

use super::Lanes;
use mlu_ring::{Additive, Algebra, PrimeCharacteristicRing, SelfAlgebra};

/// An element stands for itself in every lane.
impl<F: PrimeCharacteristicRing, const W: usize> Algebra<F> for Lanes<F, W> {
    ghost embed = { splat W };

    #[inline]
    fn from_base(b: F) -> Self {
        Lanes { values: [b; W] }
    }

    ghost keeps = { splat_is_ring_map W F.ring };
}

impl<F: PrimeCharacteristicRing, const W: usize> Algebra<Lanes<F, W>> for Lanes<F, W> {
    ghost embed = { λ b. b };

    #[inline]
    fn from_base(b: Self) -> Self {
        b
    }

    ghost keeps = { identity_is_ring_map Self.ring };
}

impl<F: PrimeCharacteristicRing, const W: usize> SelfAlgebra for Lanes<F, W> {
    ghost embeds_itself = { λ x. refl };
}
