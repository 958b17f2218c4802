//! Two entries of a table joined in one, with one product.
//!
//! The calls on the line through two values differ in what is embedded: nothing, the values, or
//! `r`. Where one factor is a base element, the product costs one product of the base for each
//! coefficient.
ghost use Rattle.std.specs.Prelude.{◌≡◌};
ghost use Rattle.mlu_eq.specs.Combine.{combined, interpolated, interpolated_images};

use mlu_ring::{Additive, Algebra, ExtensionField, Field, PrimeCharacteristicRing, scale_packing};

/// `low + r * (high - low)`.
#[inline(always)]
pub fn interpolate<R: PrimeCharacteristicRing>(low: R, high: R, r: R) -> R
    ensures { result ≡ interpolated R.ring r low high }
{
    low + r * (high - low)
}

/// The same of the images of two base elements.
#[inline(always)]
pub fn interpolate_base<F: Additive, EF: Algebra<F>>(low: F, high: F, r: EF) -> EF
    ensures { result ≡ interpolated EF.ring r (EF.embed low) (EF.embed high) }
{
    r.scale(high - low).plus(low)
}

/// [`interpolate_base`] in a loop by one `r`, which the compiler prepares once. The low entry is added as an
/// element, not by `plus`, so that a sum is one addition of vectors.
#[inline(always)]
pub fn interpolate_base_at_fixed<F: Additive, EF: Algebra<F>>(low: F, high: F, r: EF) -> EF
    ensures { result ≡ interpolated EF.ring r (EF.embed low) (EF.embed high) }
{
    EF::from_base(low) + EF::from_base(high - low).times_fixed(r)
}

/// [`interpolate_base`] of the images of two packings.
#[inline(always)]
pub fn interpolate_packing<F: Field, EF: ExtensionField<F>>(
    low: F::Packing,
    high: F::Packing,
    r: EF,
) -> EF::ExtensionPacking
    ensures { EF.ExtensionPacking.ext_lanes result ≡ interpolated_images EF.ring EF.embed r (F.Packing.lanes low) (F.Packing.lanes high) }
{
    scale_packing::<F, EF>(r, high - low).plus(low)
}

/// [`interpolate`] at the image of a base element.
#[inline(always)]
pub fn interpolate_at_base<R: Additive, F: Algebra<R>>(low: F, high: F, r: R) -> F
    ensures { result ≡ interpolated F.ring (F.embed r) low high }
{
    low + (high - low).scale(r)
}

/// The sum of `low` and the product of `high` with the image of `r`.
#[inline(always)]
pub fn add_scaled<R: Additive, F: Algebra<R>>(low: F, high: F, r: R) -> F
    ensures { result ≡ combined F.ring F.ring.one (F.embed r) low high }
{
    low + high.scale(r)
}
