//! Tables and lists in lanes, and out of them.
ghost use Rattle.std.specs.Prelude.{◌≡◌, ◌*◌, ◌≤◌, IfOk, length, vec_len};

use mlu_ring::{ExtensionField, Field, PackedValue};
use mlu_test_support::lanes::packed;
use multilinear_util::poly::Poly;
use std::alloc::{AllocError, Global};

/// The values of the table that a call gives.
pub fn values<R: Copy>(answer: Result<Poly<R>, AllocError>) -> Result<Vec<R>, AllocError> {
    Ok(answer?.into_evals())
}

/// The lanes of the table that a call gives.
pub fn unpacked<F: Field, EF: ExtensionField<F>>(
    alloc: Global,
    answer: Result<Poly<EF::ExtensionPacking>, AllocError>,
) -> Result<Vec<EF>, AllocError> {
    values(answer?.unpack::<F, EF>(alloc))
}

/// The table in lanes, as many as it has values.
pub fn in_lanes<F: Field, EF: ExtensionField<F>>(
    alloc: Global,
    table: &Poly<EF>,
) -> Result<Poly<EF::ExtensionPacking>, AllocError>
    requires { F.Packing.WIDTH ≤ length table.now }
    ensures { IfOk result (λ lanes. length lanes * F.Packing.WIDTH ≡ length table.now) }
{
    let lanes = table.pack::<F, EF>(alloc)?;
    if lanes.num_evals().checked_mul(F::Packing::WIDTH) != Some(table.num_evals()) {
        return Err(AllocError);
    }
    Ok(lanes)
}

/// The values in lanes. Fails where they do not fill packings.
pub fn whole_packings<F: Field, EF: ExtensionField<F>>(
    alloc: Global,
    values: &[EF],
) -> Result<Vec<EF::ExtensionPacking>, AllocError>
    ensures { IfOk result (λ packed. vec_len packed * F.Packing.WIDTH ≡ length values.now) }
{
    let n = values.len().checked_div(F::Packing::WIDTH).unwrap_or(0);
    if n.checked_mul(F::Packing::WIDTH) != Some(values.len()) {
        return Err(AllocError);
    }
    packed::<F, EF>(alloc, values, n)
}
