//! Packed weights of rows, whose weighted rows are added to a packed output.
ghost use Rattle.std.specs.Prelude.{◌≡◌, ◌*◌, length, map};
ghost use Rattle.mlu_ring.specs.Lanes.{logical};
ghost use Rattle.mlu_kernel.specs.Kernels.{plus_rows, AddsRows};

use crate::four_rows::{compress_by_four, takes_fours};
use crate::one_row::add_row_times;
use mlu_ring::{
    Algebra, ExtensionField, Field, Lanewise, PackedFieldExtension, PackedValue, row_of,
};

/// Adds to logical `out[z]` the sum over logical `i` of `w0 * eq1[i] * chunk[i * s + z]`, where
/// `s` is the logical length of `out`. An empty `out` and no weights change nothing.
///
/// Asks for `N * W * out.len() * W` entries in `chunk`, where `eq1` has `N` packed weights of `W`
/// lanes.
#[inline]
pub fn compress_prefix_to_packed_packed<F: Field, EF: ExtensionField<F>>(
    out: &mut [EF::ExtensionPacking],
    eq1: &[EF::ExtensionPacking],
    chunk: &[F],
    w0: EF,
)
    requires { length chunk.now ≡ length eq1.now * (F.Packing.WIDTH * (length out.old * F.Packing.WIDTH)) }
    ensures { logical EF.ExtensionPacking.ext_lanes out.new
        ≡ plus_rows EF.ring (logical EF.ExtensionPacking.ext_lanes out.old)
        (map (EF.ring.product w0) (logical EF.ExtensionPacking.ext_lanes eq1.now)) (map EF.embed chunk.now) }
{
    if takes_fours::<F, EF>() {
        compress_by_four(out, eq1, chunk, w0);
    } else {
        compress_prefix_to_packed_packed_kernel_eager(out, eq1, chunk, w0);
    }
}

/// [`compress_prefix_to_packed_packed`] row by row, each product reduced at once.
pub fn compress_prefix_to_packed_packed_kernel_eager<F: Field, EF: ExtensionField<F>>(
    out: &mut [EF::ExtensionPacking],
    eq1: &[EF::ExtensionPacking],
    chunk: &[F],
    w0: EF,
)
    requires { length chunk.now ≡ length eq1.now * (F.Packing.WIDTH * (length out.old * F.Packing.WIDTH)) }
    ensures { logical EF.ExtensionPacking.ext_lanes out.new
        ≡ plus_rows EF.ring (logical EF.ExtensionPacking.ext_lanes out.old)
        (map (EF.ring.product w0) (logical EF.ExtensionPacking.ext_lanes eq1.now)) (map EF.embed chunk.now) }
{
    for i in 0..eq1.len() {
        add_rows_by_lane::<F, EF>(out, eq1[i].scale(w0), row_of(chunk, eq1.len(), i));
    }
}

/// Adds a row for each lane of `weights`, times that lane.
fn add_rows_by_lane<F: Field, EF: ExtensionField<F>>(
    out: &mut [EF::ExtensionPacking],
    weights: EF::ExtensionPacking,
    rows: &[F],
)
    requires { length rows.now ≡ F.Packing.WIDTH * (length out.old * F.Packing.WIDTH) }
    ensures { AddsRows EF.ring EF.embed EF.ExtensionPacking.ext_lanes
        (EF.ExtensionPacking.ext_lanes weights) rows.now out.old out.new }
{
    for k in 0..F::Packing::WIDTH {
        add_row_times::<F, EF>(out, weights.ext_lane(k), row_of(rows, F::Packing::WIDTH, k));
    }
}
