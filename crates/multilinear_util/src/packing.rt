//! Slices of scalars as lists of packed elements, and back.
ghost use Rattle.std.specs.Prelude.{◌≡◌, ◌%◌, ◌≤◌, length, IfOk};
ghost use Rattle.mlu_ring.specs.Lanes.{logical};
ghost use Rattle.multilinear_util.specs.Storage.{IsTable};

use mlu_eq::unpack_into;
use mlu_ring::{
    ExtensionField, Field, Lanewise, PackedFieldExtension, PackedValue, PrimeCharacteristicRing,
};
use std::alloc::{AllocError, Global};

/// The packed elements whose lanes, joined in order, are `evals`: a power of two of them where `evals` is a
/// power of two of values with room for a packing. Asks for whole packings.
pub(crate) fn packed<F: Field, EF: ExtensionField<F>>(
    alloc: Global,
    evals: &[EF],
) -> Result<Vec<EF::ExtensionPacking>, AllocError>
    requires { length evals.now % F.Packing.WIDTH ≡ 0 }
    ensures lanes { IfOk result (λ elements. logical EF.ExtensionPacking.ext_lanes elements.items ≡ evals.now) }
    ensures table { IsTable evals.now → F.Packing.WIDTH ≤ length evals.now → IfOk result (λ elements. IsTable elements.items) }
{
    let width = <F::Packing as PackedValue>::WIDTH;
    let groups = evals.len() / width;
    let mut elements = Vec::with_capacity(alloc, groups)?;
    for i in 0..groups {
        let start = i * width;
        let packing = EF::ExtensionPacking::from_ext_slice(&evals[start..start + width]);
        elements.push_reserved(packing);
    }
    Ok(elements)
}

/// The lanes of `elements`, joined in order. Fails too where their number does not fit `usize`.
pub(crate) fn unpacked<F: Field, EF: ExtensionField<F>>(
    alloc: Global,
    elements: &[EF::ExtensionPacking],
) -> Result<Vec<EF>, AllocError>
    ensures { IfOk result (λ evals. evals.items ≡ logical EF.ExtensionPacking.ext_lanes elements.now) }
{
    let width = <F::Packing as PackedValue>::WIDTH;
    let Some(count) = elements.len().checked_mul(width) else {
        return Err(AllocError);
    };
    let mut evals = EF::zero_vec(alloc, count)?;
    unpack_into::<F, EF>(elements, evals.as_mut_slice());
    Ok(evals)
}
