//! Maps from one ring to another that come with a type.
ghost use Rattle.std.specs.Prelude.{◌≡◌};
ghost use Rattle.mlu_ring.specs.Ring.{IsRingMap};

use crate::additive::Additive;

/// A ring in which each element of `EF` has an image; sums and products need not be kept.
pub trait MapFrom<EF: Additive>: Additive {
    ghost image: { EF → Self };

    /// The image of `x`.
    fn map(x: EF) -> Self
        ensures { result ≡ image x };
}

/// A conversion that keeps zero, one, sums and products.
pub trait RingMapFrom<EF: Additive>: MapFrom<EF> {
    ghost keeps_ring: { IsRingMap EF.ring Self.ring Self.image };
}
