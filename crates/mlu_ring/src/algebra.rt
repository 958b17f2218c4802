//! Rings that another ring is mapped to, and is a scalar of.
ghost use Rattle.std.specs.Prelude.{◌≡◌};
ghost use Rattle.mlu_ring.specs.Ring.{IsRingMap};

use crate::additive::Additive;
use crate::ring::PrimeCharacteristicRing;

/// A ring with a map of the ring `B` to it, which keeps zero, one, sums and products. It need not be one
/// to one: all elements have one image in no copies of a ring.
pub trait Algebra<B: Additive>: PrimeCharacteristicRing {
    ghost embed: { B → Self };

    /// The image of `b`.
    fn from_base(b: B) -> Self
        ensures { result ≡ embed b };

    /// The product with the image of `b`.
    #[inline]
    fn scale(self, b: B) -> Self
        ensures { result ≡ Self.ring.product self (embed b) }
    {
        self * Self::from_base(b)
    }

    /// The sum with the image of `b`.
    #[inline]
    fn plus(self, b: B) -> Self
        ensures { result ≡ Self.ring.sum self (embed b) }
    {
        self + Self::from_base(b)
    }

    ghost keeps: { IsRingMap B.ring Self.ring embed };
}

/// A ring as an algebra over itself: the embedding is the identity.
///
/// The bound `R: Algebra<R>` alone does not say so; name this one where generic code scales an
/// element by another of its own type.
pub trait SelfAlgebra: Algebra<Self> {
    ghost embeds_itself: { (x : Self) → Self.embed x ≡ x };
}
