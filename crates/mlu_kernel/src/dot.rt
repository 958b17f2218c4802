//! Packed weights of columns times scalar weights of rows.
ghost use Rattle.std.specs.Prelude.{◌≡◌, ◌*◌, ◌<◌, ◌≤◌, length, map};
ghost use Rattle.std.specs.Mem.{type_size};
ghost use Rattle.mlu_ring.specs.Lanes.{logical};
ghost use Rattle.mlu_kernel.specs.Columns.{AreColumns};
ghost use Rattle.mlu_kernel.specs.Kernels.{double_sum};

use crate::basis_split::{MOST_COEFFICIENTS, MOST_WEIGHTS, row_dot_by_columns, split_coefficients};
use crate::one_row::{lane_sum, row_dot_in_lanes};
use crate::small::{SMALL_BYTES, is_small};
use mlu_ring::{Additive, ExtensionField, Field, Lanewise, PackedValue, row_of};

/// The sum over `j` and logical `i` of `eq0[j] * eq1[i] * chunk[j * N * W + i]`, where `eq1` has
/// `N` packed weights of `W` lanes. Zero where either has no weights.
///
/// Asks for `eq0.len() * N * W` entries in `chunk`.
#[inline]
pub fn compress_hi_dot_packed<F: Field, EF: ExtensionField<F>>(
    eq1: &[EF::ExtensionPacking],
    chunk: &[F],
    eq0: &[EF],
) -> EF
    requires { length chunk.now ≡ length eq0.now * (length eq1.now * F.Packing.WIDTH) }
    ensures { result ≡ double_sum EF.ring eq0.now
        (logical EF.ExtensionPacking.ext_lanes eq1.now) (map EF.embed chunk.now) }
{
    if eq1.len() > MOST_WEIGHTS || !is_small(&F::Packing::ZERO) {
        return compress_hi_dot_packed_eager(eq1, chunk, eq0);
    }
    match EF::DIMENSION {
        1 => compress_by_columns::<F, EF, 1>(eq1, chunk, eq0),
        2 => compress_by_columns::<F, EF, 2>(eq1, chunk, eq0),
        3 => compress_by_columns::<F, EF, 3>(eq1, chunk, eq0),
        4 => compress_by_columns::<F, EF, 4>(eq1, chunk, eq0),
        5 => compress_by_columns::<F, EF, 5>(eq1, chunk, eq0),
        6 => compress_by_columns::<F, EF, 6>(eq1, chunk, eq0),
        7 => compress_by_columns::<F, EF, 7>(eq1, chunk, eq0),
        MOST_COEFFICIENTS => compress_by_columns::<F, EF, MOST_COEFFICIENTS>(eq1, chunk, eq0),
        _ => compress_hi_dot_packed_eager(eq1, chunk, eq0),
    }
}

/// [`compress_hi_dot_packed`] with one packed dot a row for each of the `D` coefficients, four
/// products at a time.
fn compress_by_columns<F: Field, EF: ExtensionField<F>, const D: usize>(
    eq1: &[EF::ExtensionPacking],
    chunk: &[F],
    eq0: &[EF],
) -> EF
    requires dimension { D ≡ EF.DIMENSION }
    requires some { 0 < D }
    requires few { D ≤ MOST_COEFFICIENTS }
    requires short { length eq1.now ≤ MOST_WEIGHTS }
    requires small { type_size F.Packing.row < SMALL_BYTES }
    requires entries { length chunk.now ≡ length eq0.now * (length eq1.now * F.Packing.WIDTH) }
    ensures sum { result ≡ double_sum EF.ring eq0.now
        (logical EF.ExtensionPacking.ext_lanes eq1.now) (map EF.embed chunk.now) }
{
    let split = split_coefficients::<F, EF, D>(eq1);
    rows_by_columns::<F, EF, D>(eq1, &split, chunk, eq0)
}

/// The rows, where the coefficients of `eq1` are split.
#[inline]
fn rows_by_columns<F: Field, EF: ExtensionField<F>, const D: usize>(
    eq1: &[EF::ExtensionPacking],
    split: &[[F::Packing; MOST_WEIGHTS]; D],
    chunk: &[F],
    eq0: &[EF],
) -> EF
    requires split { AreColumns EF.ExtensionPacking.packed_coefficients F.Packing.ring.zero EF.DIMENSION
        F.Packing.row eq1.now split.now }
    requires entries { length chunk.now ≡ length eq0.now * (length eq1.now * F.Packing.WIDTH) }
    ensures { result ≡ double_sum EF.ring eq0.now
        (logical EF.ExtensionPacking.ext_lanes eq1.now) (map EF.embed chunk.now) }
{
    let mut blocks = [F::Packing::ZERO; MOST_WEIGHTS];
    let mut sum = EF::ZERO;
    for j in 0..eq0.len() {
        let row = &mut blocks[..eq1.len()];
        let dot = row_dot_by_columns::<F, EF, D>(eq1, split, row, chunk, eq0.len(), j);
        sum = sum + eq0[j] * lane_sum::<F, EF>(dot);
    }
    sum
}

/// [`compress_hi_dot_packed`] with each product reduced at once. The lanes of a row's dot are added up
/// before the weight of the row multiplies them.
pub fn compress_hi_dot_packed_eager<F: Field, EF: ExtensionField<F>>(
    eq1: &[EF::ExtensionPacking],
    chunk: &[F],
    eq0: &[EF],
) -> EF
    requires { length chunk.now ≡ length eq0.now * (length eq1.now * F.Packing.WIDTH) }
    ensures { result ≡ double_sum EF.ring eq0.now
        (logical EF.ExtensionPacking.ext_lanes eq1.now) (map EF.embed chunk.now) }
{
    let mut sum = EF::ZERO;
    for j in 0..eq0.len() {
        let dot = row_dot_in_lanes::<F, EF>(eq1, row_of(chunk, eq0.len(), j));
        sum = sum + eq0[j] * lane_sum::<F, EF>(dot);
    }
    sum
}
