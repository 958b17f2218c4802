//! The second half of a split table: its weights, as scalars or packed.
ghost use Rattle.std.specs.Prelude.{◌≡◌, ◌<◌, ◌≤◌, ◌+◌, ◌-◌, ◌*◌, ◌^◌, ◌++◌, length, map, slice_index_or, IfOk, IsOk, IsTrue, true, false};
ghost use Rattle.std.specs.Vec.{vec_capacity, vec_len};
ghost use Rattle.std.specs.Int.{is_power_of_two};
ghost use Rattle.mlu_ring.specs.Lanes.{logical};
ghost use Rattle.mlu_eq.specs.Half.{AreWeightsOf};

mod next;
mod table;

use mlu_ring::{
    Additive, ExtensionField, Field, Lanewise, MapFrom, PackedFieldExtension, PackedValue,
    log2_strict_usize,
};
use std::alloc::{AllocError, Global};
use std::marker::Model;
use table::Table;

/// A power of two of weights, as scalars or packed. Packed ones stand for their lanes, joined in
/// order.
///
/// Contracts see the weights, and whether they are packed.
#[derive(Drop)]
#[derive_where(Debug; F, EF, EF::ExtensionPacking)]
pub struct EqMaybePacked<F: Field, EF: ExtensionField<F>> {
    weights: Stored<F, EF>,
}

/// The two forms of the weights.
#[derive(Debug, Drop)]
enum Stored<F: Field, EF: ExtensionField<F>> {
    Scalar(Table<EF>),
    Packed(Table<EF::ExtensionPacking>),
}

/// The weights, borrowed in the form that they have.
#[derive(Drop)]
pub(crate) enum Weights<'a, F: Field, EF: ExtensionField<F>> {
    Scalar(&'a [EF]),
    Packed(&'a [EF::ExtensionPacking]),
}

impl<F: Field, EF: ExtensionField<F>> Model for EqMaybePacked<F, EF> {
    ghost use Rattle.mlu_eq.specs.Half.{Half, half_of};

    ghost Value = { Half EF };

    ghost view = { λ table. half_of EF.ExtensionPacking.ext_lanes table.weights };
}

impl<F: Field, EF: ExtensionField<F>> EqMaybePacked<F, EF> {
    /// The number of variables: the logarithm of the number of weights, each lane counted. It is below
    /// 128.
    pub fn num_variables(&self) -> usize
        ensures value { length self.now.weights ≡ 2 ^ result }
        ensures small { result < 128 }
    {
        match &self.weights {
            Stored::Scalar(weights) => log2_strict_usize(weights.as_slice().len()),
            Stored::Packed(weights) => {
                let elements = log2_strict_usize(weights.as_slice().len());
                let lanes = log2_strict_usize(<F::Packing as PackedValue>::WIDTH);
                elements + lanes
            }
        }
    }

    /// The number of weights, each lane counted, which is not 0. Asks that it fits `usize`.
    pub fn num_scalar_evals(&self) -> usize
        requires { length self.now.weights < 2 ^ 64 }
        ensures value { result ≡ length self.now.weights }
        ensures some { 0 < result }
    {
        match &self.weights {
            Stored::Scalar(weights) => weights.as_slice().len(),
            Stored::Packed(weights) => {
                weights.as_slice().len() * <F::Packing as PackedValue>::WIDTH
            }
        }
    }

    /// The last weight.
    pub fn last_scalar(&self) -> EF
        ensures { result ≡ slice_index_or self.now.weights (length self.now.weights - 1) EF.ring.zero }
    {
        match &self.weights {
            Stored::Scalar(weights) => last_of(weights.as_slice()),
            Stored::Packed(weights) => {
                last_of(weights.as_slice()).ext_lane(<F::Packing as PackedValue>::WIDTH - 1)
            }
        }
    }

    /// Whether the weights are packed.
    pub fn is_packed(&self) -> bool
        ensures { result ≡ self.now.packed }
    {
        matches!(self.weights, Stored::Packed(_))
    }

    /// A copy, in one allocation of its size.
    ///
    /// # Errors
    /// Where memory is refused.
    pub fn try_clone(&self, alloc: Global) -> Result<Self, AllocError>
        ensures { IfOk result (λ copy. copy ≡ self.now) }
    {
        let weights = match &self.weights {
            Stored::Scalar(weights) => Stored::Scalar(weights.try_clone(alloc)?),
            Stored::Packed(weights) => Stored::Packed(weights.try_clone(alloc)?),
        };
        Ok(EqMaybePacked { weights })
    }

    /// Does nothing: its clause says that there is a weight.
    #[inline]
    pub(crate) fn show_not_empty(&self)
        ensures { 0 < length self.now.weights }
    {
        match &self.weights {
            Stored::Scalar(weights) => {
                weights.as_slice();
            }
            Stored::Packed(weights) => {
                weights.as_slice();
            }
        }
    }

    /// The weights in the form that they have.
    #[inline]
    #[tactic(auto, using(crate::proofs::Lengths::length_of_lanes))]
    pub(crate) fn weights(&self) -> Weights<'_, F, EF>
        ensures { AreWeightsOf EF.ExtensionPacking.ext_lanes F.Packing.WIDTH self.now result }
    {
        match &self.weights {
            Stored::Scalar(weights) => Weights::Scalar(weights.as_slice()),
            Stored::Packed(weights) => Weights::Packed(weights.as_slice()),
        }
    }
}

/// The table of these weights. Asks that their number is a power of two.
pub fn from_scalars<F: Field, EF: ExtensionField<F>>(weights: Vec<EF>) -> EqMaybePacked<F, EF>
    requires { IsTrue (is_power_of_two (length weights.items)) }
    ensures { result ≡ record { weights = weights.items; packed = false } }
{
    EqMaybePacked {
        weights: Stored::Scalar(Table::new(weights)),
    }
}

/// The table of the lanes of these packed weights. Asks that their number is a power of two.
pub fn from_packed<F: Field, EF: ExtensionField<F>>(
    weights: Vec<EF::ExtensionPacking>,
) -> EqMaybePacked<F, EF>
    requires { IsTrue (is_power_of_two (length weights.items)) }
    ensures { result ≡ record { weights = logical EF.ExtensionPacking.ext_lanes weights.items; packed = true } }
{
    EqMaybePacked {
        weights: Stored::Packed(Table::new(weights)),
    }
}

/// The images of the weights, as scalars.
///
/// # Errors
/// Where memory is refused, or the number of the weights does not fit `usize`.
pub fn to_field<F: Field, EF: ExtensionField<F>, R: ExtensionField<R> + MapFrom<EF>>(
    alloc: Global,
    table: &EqMaybePacked<F, EF>,
) -> Result<EqMaybePacked<R, R>, AllocError>
    ensures { IfOk result (λ images. images ≡ record { weights = map R.image table.now.weights; packed = false }) }
{
    let images = match &table.weights {
        Stored::Scalar(weights) => images(alloc, weights.as_slice())?,
        Stored::Packed(weights) => lane_images::<F, EF, R>(alloc, weights.as_slice())?,
    };
    Ok(from_scalars(images))
}

/// The images of the elements, in order and in one allocation of exactly as many.
///
/// # Errors
/// Where memory is refused; never where there are none.
pub fn images<E: Additive, R: MapFrom<E>>(
    alloc: Global,
    elements: &[E],
) -> Result<Vec<R>, AllocError>
    ensures images { IfOk result (λ images. images.items ≡ map R.image elements.now) }
    ensures exact { IfOk result (λ images. vec_capacity images ≡ length elements.now) }
    ensures none { length elements.now ≡ 0 → IsOk result }
{
    let mut images = Vec::with_capacity(alloc, elements.len())?;
    for element in elements {
        images.push_reserved(R::map(*element));
    }
    Ok(images)
}

/// The images of the lanes, in order and in one allocation of exactly as many.
fn lane_images<F: Field, EF: ExtensionField<F>, R: MapFrom<EF>>(
    alloc: Global,
    packed: &[EF::ExtensionPacking],
) -> Result<Vec<R>, AllocError>
    ensures images { IfOk result (λ images. images.items ≡ map R.image (logical EF.ExtensionPacking.ext_lanes packed.now)) }
    ensures exact { IfOk result (λ images. vec_capacity images ≡ length packed.now * F.Packing.WIDTH) }
    ensures power { IsTrue (is_power_of_two (length packed.now)) → IfOk result (λ images. IsTrue (is_power_of_two (length images.items))) }
{
    let lanes = packed
        .len()
        .checked_mul(<F::Packing as PackedValue>::WIDTH)
        .ok_or(AllocError)?;
    let mut images = Vec::with_capacity(alloc, lanes)?;
    for value in packed {
        push_lane_images::<F, EF, R>(&mut images, *value);
    }
    Ok(images)
}

/// Appends the images of the lanes of a value. Asks for room for all of them.
fn push_lane_images<F: Field, EF: ExtensionField<F>, R: MapFrom<EF>>(
    images: &mut Vec<R>,
    value: EF::ExtensionPacking,
)
    requires { vec_len images.old + F.Packing.WIDTH ≤ vec_capacity images.old }
    ensures items { images.new.items ≡ images.old.items ++ map R.image (EF.ExtensionPacking.ext_lanes value) }
    ensures len { vec_len images.new ≡ vec_len images.old + F.Packing.WIDTH }
    ensures capacity { vec_capacity images.new ≡ vec_capacity images.old }
{
    for k in 0..F::Packing::WIDTH {
        images.push_reserved(R::map(value.ext_lane(k)));
    }
}

/// The last element. Asks for one or more.
#[inline]
fn last_of<T: Copy>(elements: &[T]) -> T
    requires { 0 < length elements.now }
    ensures { result ≡ slice_index_or elements.now (length elements.now - 1) result }
{
    elements[elements.len() - 1]
}
