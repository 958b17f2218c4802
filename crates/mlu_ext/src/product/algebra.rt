//! Products over their ring, over themselves, and packed over products.
ghost use Rattle.std.specs.Prelude.{refl};
ghost use Rattle.mlu_ring.proofs.TrivialExtension.{identity_is_ring_map};
ghost use Rattle.mlu_lanes.specs.LaneRing.{lane_ring, splat, splat_is_ring_map};
ghost use Rattle.mlu_ext.specs.Product.{entries_of, diagonal, diagonal_is_ring_map};
ghost use Rattle.mlu_ext.specs.ProductMaps.{product_map, product_map_is_ring_map};

use super::ProductAlgebra;
use mlu_lanes::{Coefficients, Lanes};
use mlu_ring::{
    Additive, Algebra, MapFrom, PrimeCharacteristicRing, RingMapFrom, Sample, SelfAlgebra,
};
use rand::RngExt;

impl<R: Copy, const D: usize> Coefficients<R> for ProductAlgebra<R, D> {
    ghost count = { D };

    ghost list = { entries_of };

    #[inline]
    fn at(&self, k: usize) -> R {
        let entries = self.to_array();
        entries[k]
    }

    #[inline]
    fn set_at(&mut self, k: usize, c: R) {
        let mut entries = self.to_array();
        entries[k] = c;
        *self = ProductAlgebra::from_array(entries);
    }
}

impl<R: PrimeCharacteristicRing, const D: usize> Algebra<ProductAlgebra<R, D>>
    for ProductAlgebra<R, D> {
    ghost embed = { λ b. b };

    #[inline]
    fn from_base(b: Self) -> Self {
        b
    }

    ghost keeps = { identity_is_ring_map Self.ring };
}

impl<R: PrimeCharacteristicRing, const D: usize> SelfAlgebra for ProductAlgebra<R, D> {
    ghost embeds_itself = { λ x. refl };
}

/// An element of `R` stands for `D` copies of it.
impl<R: PrimeCharacteristicRing, const D: usize> Algebra<R> for ProductAlgebra<R, D> {
    ghost embed = { diagonal D };

    #[inline]
    fn from_base(b: R) -> Self {
        ProductAlgebra {
            copies: Lanes::from_base(b),
        }
    }

    ghost keeps = { diagonal_is_ring_map D R.ring };
}

/// An element stands for itself in every lane.
impl<F: PrimeCharacteristicRing, const W: usize, const D: usize> Algebra<ProductAlgebra<F, D>>
    for ProductAlgebra<Lanes<F, W>, D> {
    ghost embed = { product_map D (splat W) };

    #[inline]
    fn from_base(b: ProductAlgebra<F, D>) -> Self {
        let mut packed = Self::ZERO;
        for c in 0..D {
            packed.set_at(c, Lanes::from_base(b.at(c)));
        }
        packed
    }

    ghost keeps = { product_map_is_ring_map D F.ring (lane_ring W F.ring) (splat W) (splat_is_ring_map W F.ring) };
}

/// An element of `R` stands for `D` copies of it.
impl<R: Additive, const D: usize> MapFrom<R> for ProductAlgebra<R, D> {
    ghost image = { diagonal D };

    #[inline]
    fn map(x: R) -> Self {
        ProductAlgebra::from_array([x; D])
    }
}

impl<R: Additive, const D: usize> RingMapFrom<R> for ProductAlgebra<R, D> {
    ghost keeps_ring = { diagonal_is_ring_map D R.ring };
}

/// Draws the entries in order.
impl<R: Sample + Copy, const D: usize> Sample for ProductAlgebra<R, D> {
    fn sample<G: RngExt>(rng: &mut G) -> Self {
        ProductAlgebra {
            copies: Lanes::sample(rng),
        }
    }
}
