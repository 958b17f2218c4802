//! Rings with a packed form, and sums of products in them.
ghost use Rattle.std.specs.Prelude.{◌≡◌, ◌<◌, ℕ, length, map};
ghost use Rattle.mlu_ring.specs.Lanes.{splat_of};
ghost use Rattle.mlu_ring.specs.Tables.{pair};

use crate::packed::{Lanewise, PackedValue};
use crate::ring::PrimeCharacteristicRing;

/// A commutative ring with a packed form. There is no inverse: the name is the original's.
pub trait Field: Lanewise + PrimeCharacteristicRing {
    ghost bytes_of: { ℕ };

    /// The bytes of one element, as the implementation states them.
    fn bytes() -> usize
        ensures { result ≡ bytes_of };

    /// The sum of the products `l[i] * r[i]`. Asks for slices of one length.
    ///
    /// A ring that can add its products up before it reduces them has a body of its own.
    #[inline]
    fn dot(l: &[Self], r: &[Self]) -> Self
        requires { length l.now ≡ length r.now }
        ensures { result ≡ pair Self.ring l.now r.now }
    {
        let mut sum = Self::ZERO;
        for i in 0..l.len() {
            sum = sum + l[i] * r[i];
        }
        sum
    }

    /// The products, lane by lane.
    fn lanes_mul(a: Self::Packing, b: Self::Packing) -> Self::Packing
        ensures { result ≡ Self.Packing.ring.product a b };

    /// The products with a factor that many packed values meet, as
    /// [`times_fixed`](PrimeCharacteristicRing::times_fixed) lane by lane.
    #[inline]
    fn lanes_times_fixed(p: Self::Packing, factor: Self::Packing) -> Self::Packing
        ensures { result ≡ Self.Packing.ring.product p factor }
    {
        Self::lanes_mul(p, factor)
    }

    /// The products with one element, lane by lane.
    #[inline]
    fn lanes_scale(p: Self::Packing, c: Self) -> Self::Packing
        ensures { result ≡ Self.Packing.ring.product p (splat_of Self.Packing.WIDTH Self.Packing.of_lanes c) }
    {
        Self::lanes_mul(p, Self::Packing::splat(c))
    }

    /// The sum of the four products `l[i] * r[i]`. Asks for slices of length 4.
    #[inline]
    fn dot4(l: &[Self::Packing], r: &[Self::Packing]) -> Self::Packing
        requires left { length l.now ≡ 4 }
        requires right { length r.now ≡ 4 }
        ensures { result ≡ pair Self.Packing.ring l.now r.now }
    {
        let low = Self::lanes_mul(l[0], r[0]) + Self::lanes_mul(l[1], r[1]);
        let high = Self::lanes_mul(l[2], r[2]) + Self::lanes_mul(l[3], r[3]);
        low + high
    }

    /// The sum of the four products `p[i] * splat(c[i])`. Asks for slices of length 4.
    #[inline]
    fn mixed_dot4(p: &[Self::Packing], c: &[Self]) -> Self::Packing
        requires packed { length p.now ≡ 4 }
        requires scalar { length c.now ≡ 4 }
        ensures { result ≡ pair Self.Packing.ring p.now (map (splat_of Self.Packing.WIDTH Self.Packing.of_lanes) c.now) }
    {
        let low = Self::lanes_scale(p[0], c[0]) + Self::lanes_scale(p[1], c[1]);
        let high = Self::lanes_scale(p[2], c[2]) + Self::lanes_scale(p[3], c[3]);
        low + high
    }
}

/// [`Field::dot4`] of two arrays.
#[inline]
pub fn dot4<F: Field>(l: &[F::Packing; 4], r: &[F::Packing; 4]) -> F::Packing
    ensures { result ≡ pair F.Packing.ring l.now r.now }
{
    F::dot4(l, r)
}

/// [`Field::mixed_dot4`] of two arrays.
#[inline]
pub fn mixed_dot4<F: Field>(p: &[F::Packing; 4], c: &[F; 4]) -> F::Packing
    ensures { result ≡ pair F.Packing.ring p.now (map (splat_of F.Packing.WIDTH F.Packing.of_lanes) c.now) }
{
    F::mixed_dot4(p, c)
}
