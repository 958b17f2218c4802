//! Lists in lanes.
ghost use Rattle.std.specs.Prelude.{◌≡◌, ◌*◌, ◌<◌, IfOk, length, vec_len};

use mlu_ring::{ExtensionField, Field, PackedFieldExtension, PackedValue, row_of};
use std::alloc::{AllocError, Global};

/// The values as `n` packed ones.
pub fn packed<F: Field, EF: ExtensionField<F>>(
    alloc: Global,
    values: &[EF],
    n: usize,
) -> Result<Vec<EF::ExtensionPacking>, AllocError>
    requires { length values.now ≡ n * F.Packing.WIDTH }
    ensures { IfOk result (λ packed. vec_len packed ≡ n) }
{
    let mut packed = Vec::with_capacity(alloc, n)?;
    for i in 0..n {
        let lanes = row_of_lanes::<F, EF>(values, n, i);
        packed.push(EF::ExtensionPacking::from_ext_slice(lanes))?;
    }
    Ok(packed)
}

/// The lanes of packed value `i` of `n`.
fn row_of_lanes<F: Field, T>(values: &[T], n: usize, i: usize) -> &[T]
    requires rows { length values.now ≡ n * F.Packing.WIDTH }
    requires within { i < n }
    ensures { length result.now ≡ F.Packing.WIDTH }
{
    row_of(values, n, i)
}

/// The lanes of packed values, in order.
pub fn lanes<F: Field, EF: ExtensionField<F>>(
    alloc: Global,
    packed: &[EF::ExtensionPacking],
) -> Result<Vec<EF>, AllocError> {
    EF::ExtensionPacking::to_ext_iter(packed).collect(alloc)
}
