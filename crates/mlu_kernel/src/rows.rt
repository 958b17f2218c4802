//! Rows against packed weights, an element for each row. This call is for the split tables of
//! `mlu_eq`, not for users of the library.
ghost use Rattle.std.specs.Prelude.{◌≡◌, ◌*◌, ◌<◌, ◌≤◌, length, map};
ghost use Rattle.std.specs.Mem.{type_size};
ghost use Rattle.mlu_ring.specs.Lanes.{logical};
ghost use Rattle.mlu_kernel.specs.Kernels.{dots_of_rows};

use crate::basis_split::{MOST_COEFFICIENTS, MOST_WEIGHTS, row_dot_by_columns, split_coefficients};
use crate::one_row::{lane_sum, row_dot_in_lanes};
use crate::small::{SMALL_BYTES, is_small};
use mlu_ring::{
    Additive, ExtensionField, Field, Lanewise, PackedFieldExtension, PackedValue, row_of,
};

/// Writes the dot of the packed weights with each row: `out[y]` becomes the sum over logical `i` of
/// `weights[i] * rows[y * N * W + i]`, where there are `N` packed weights of `W` lanes. What `out`
/// held does not count.
///
/// Asks for `out.len() * N * W` entries in `rows`.
pub fn row_dots<F: Field, EF: ExtensionField<F>>(
    out: &mut [EF],
    weights: &[EF::ExtensionPacking],
    rows: &[F],
)
    requires { length rows.now ≡ length out.old * (length weights.now * F.Packing.WIDTH) }
    ensures { out.new ≡ dots_of_rows EF.ring (logical EF.ExtensionPacking.ext_lanes weights.now)
        (map EF.embed rows.now) (length out.old) }
{
    if weights.len() > MOST_WEIGHTS || !is_small(&F::Packing::ZERO) {
        return row_dots_eager::<F, EF>(out, weights, rows);
    }
    match EF::DIMENSION {
        1 => row_dots_by_columns::<F, EF, 1>(out, weights, rows),
        2 => row_dots_by_columns::<F, EF, 2>(out, weights, rows),
        3 => row_dots_by_columns::<F, EF, 3>(out, weights, rows),
        4 => row_dots_by_columns::<F, EF, 4>(out, weights, rows),
        5 => row_dots_by_columns::<F, EF, 5>(out, weights, rows),
        6 => row_dots_by_columns::<F, EF, 6>(out, weights, rows),
        7 => row_dots_by_columns::<F, EF, 7>(out, weights, rows),
        MOST_COEFFICIENTS => row_dots_by_columns::<F, EF, MOST_COEFFICIENTS>(out, weights, rows),
        _ => row_dots_eager::<F, EF>(out, weights, rows),
    }
}

/// [`row_dots`] with the weights in columns, which are split once for all rows.
fn row_dots_by_columns<F: Field, EF: ExtensionField<F>, const D: usize>(
    out: &mut [EF],
    weights: &[EF::ExtensionPacking],
    rows: &[F],
)
    requires dimension { D ≡ EF.DIMENSION }
    requires some { 0 < D }
    requires few { D ≤ MOST_COEFFICIENTS }
    requires short { length weights.now ≤ MOST_WEIGHTS }
    requires small { type_size F.Packing.row < SMALL_BYTES }
    requires entries { length rows.now ≡ length out.old * (length weights.now * F.Packing.WIDTH) }
    ensures { out.new ≡ dots_of_rows EF.ring (logical EF.ExtensionPacking.ext_lanes weights.now)
        (map EF.embed rows.now) (length out.old) }
{
    let split = split_coefficients::<F, EF, D>(weights);
    let mut blocks = [F::Packing::ZERO; MOST_WEIGHTS];
    for y in 0..out.len() {
        let row = &mut blocks[..weights.len()];
        let dot = row_dot_by_columns::<F, EF, D>(weights, &split, row, rows, out.len(), y);
        out[y] = lane_sum::<F, EF>(dot);
    }
}

/// [`row_dots`], each product reduced at once.
fn row_dots_eager<F: Field, EF: ExtensionField<F>>(
    out: &mut [EF],
    weights: &[EF::ExtensionPacking],
    rows: &[F],
)
    requires { length rows.now ≡ length out.old * (length weights.now * F.Packing.WIDTH) }
    ensures { out.new ≡ dots_of_rows EF.ring (logical EF.ExtensionPacking.ext_lanes weights.now)
        (map EF.embed rows.now) (length out.old) }
{
    for y in 0..out.len() {
        let dot = row_dot_in_lanes::<F, EF>(weights, row_of(rows, out.len(), y));
        out[y] = lane_sum::<F, EF>(dot);
    }
}
