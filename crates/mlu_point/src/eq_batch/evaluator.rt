//! How shares of scalars are multiplied by a coordinate of their point.
ghost use Rattle.std.specs.Prelude.{◌≡◌, replicate};

use mlu_ring::{
    Additive, Algebra, ExtensionField, Field, PackedFieldExtension, PrimeCharacteristicRing,
    scale_by_base,
};
use std::marker::PhantomData;

/// The product of a share with a coordinate, which stands for its image in the ring of the shares.
pub(super) trait EqualityEvaluator<C, S: PrimeCharacteristicRing> {
    ghost image: { C → S };

    /// The product of the share and the coordinate's image.
    fn multiply(share: S, coordinate: C) -> S
        ensures { result ≡ S.ring.product share (image coordinate) };
}

/// An evaluator that multiplies a packed share as well: the coordinate stands in every lane.
pub(super) trait PackedEvaluator<F: Field, C: Additive, EF: ExtensionField<F>>: EqualityEvaluator<
    C,
    EF,
> {
    ghost packed_image: { C → EF.ExtensionPacking };

    /// The product of each lane and the coordinate's image.
    fn multiply_packed(share: EF::ExtensionPacking, coordinate: C) -> EF::ExtensionPacking
        ensures { result ≡ EF.ExtensionPacking.ring.product share (packed_image coordinate) };

    ghost in_every_lane: { (c : C) → EF.ExtensionPacking.ext_lanes (packed_image c) ≡ replicate F.Packing.WIDTH (Self.image c) };
}

/// Points with coordinates in the field of the scalars.
pub(super) struct ExtFieldEvaluator;

impl<EF: PrimeCharacteristicRing> EqualityEvaluator<EF, EF> for ExtFieldEvaluator {
    ghost image = { λ x. x };

    #[inline]
    fn multiply(share: EF, coordinate: EF) -> EF {
        share * coordinate
    }
}

impl<F: Field, EF: ExtensionField<F>> PackedEvaluator<F, EF, EF> for ExtFieldEvaluator {
    ghost packed_image = { ⟦<EF::ExtensionPacking as Algebra<EF>>⟧.embed };

    #[inline]
    fn multiply_packed(share: EF::ExtensionPacking, coordinate: EF) -> EF::ExtensionPacking {
        <EF::ExtensionPacking as Algebra<EF>>::scale(share, coordinate)
    }

    ghost in_every_lane = { EF.ExtensionPacking.embeds_element };
}

/// Points with coordinates in the base field of the scalars.
pub(super) struct BaseFieldEvaluator;

impl<B: Additive, R: Algebra<B>> EqualityEvaluator<B, R> for BaseFieldEvaluator {
    ghost image = { R.embed };

    #[inline(always)]
    fn multiply(share: R, coordinate: B) -> R {
        share.scale(coordinate)
    }
}

impl<F: Field, EF: ExtensionField<F>> PackedEvaluator<F, F, EF> for BaseFieldEvaluator {
    ghost packed_image = { λ c. ⟦<EF::ExtensionPacking as Algebra<EF>>⟧.embed (EF.embed c) };

    #[inline]
    fn multiply_packed(share: EF::ExtensionPacking, coordinate: F) -> EF::ExtensionPacking {
        scale_by_base::<F, EF>(share, coordinate)
    }

    ghost in_every_lane = { λ c. EF.ExtensionPacking.embeds_element (EF.embed c) };
}

/// The evaluator of the packed shares.
pub(super) struct InLanes<F, EF, E> {
    of: PhantomData<(F, EF, E)>,
}

impl<F: Field, C: Additive, EF: ExtensionField<F>, E: PackedEvaluator<F, C, EF>> EqualityEvaluator<
    C,
    EF::ExtensionPacking,
> for InLanes<F, EF, E> {
    ghost image = { E.packed_image };

    #[inline]
    fn multiply(share: EF::ExtensionPacking, coordinate: C) -> EF::ExtensionPacking {
        E::multiply_packed(share, coordinate)
    }
}
