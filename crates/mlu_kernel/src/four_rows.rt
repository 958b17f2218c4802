//! Packed weights of rows, taken four lanes at a time.
//!
//! Each coefficient of an output grows by the packed values of four rows at once, each times that
//! coefficient of its row's weight, which [`Field::mixed_dot4`] sums before it reduces. Rows are read
//! from front to back, and the sums stand in the output, so no memory is taken.
ghost use Rattle.std.specs.Prelude.{◌≡◌, ◌↔◌, ◌+◌, ◌*◌, ◌%◌, ◌≤◌, ◌<◌, IsTrue, length};
ghost use Rattle.std.specs.Mem.{type_size};
ghost use Rattle.mlu_ring.specs.Columns.{column_of};
ghost use Rattle.mlu_ring.specs.Matrices.{row_at};
ghost use Rattle.mlu_kernel.specs.Columns.{grown, AreSmall};
ghost use Rattle.mlu_kernel.specs.Kernels.{AddsBlocks, AddsRows, AddsRowsByLane};

use crate::small::{SMALL_BYTES, is_small};
use mlu_ring::{
    Additive, Algebra, ExtensionField, Field, Lanewise, PackedFieldExtension, PackedValue,
    packed_of_four, row_of, row_of_width,
};

/// The dimension whose coefficients are written out: the compiler does not unroll a loop over them, and would
/// prepare those of the weights at each place.
const FOUR: usize = 4;

/// Whether rows can be taken by four: lanes come in fours, and elements take few bytes. A constant,
/// once the types are known.
#[inline]
pub(crate) fn takes_fours<F: Field, EF: ExtensionField<F>>() -> bool
    ensures { IsTrue result ↔ (F.Packing.WIDTH % 4 ≡ 0) × AreSmall F.row F.Packing.row EF.row }
{
    F::Packing::WIDTH % 4 == 0
        && is_small(&F::ZERO)
        && is_small(&F::Packing::ZERO)
        && is_small(&EF::ZERO)
}

/// The body of [`compress_prefix_to_packed_packed`](crate::compress_prefix_to_packed_packed) where
/// rows can be taken by four.
#[inline]
pub(crate) fn compress_by_four<F: Field, EF: ExtensionField<F>>(
    out: &mut [EF::ExtensionPacking],
    eq1: &[EF::ExtensionPacking],
    chunk: &[F],
    w0: EF,
)
    requires rows { length chunk.now ≡ length eq1.now * (F.Packing.WIDTH * (length out.old * F.Packing.WIDTH)) }
    requires fours { F.Packing.WIDTH % 4 ≡ 0 }
    requires small { AreSmall F.row F.Packing.row EF.row }
    ensures sum { AddsRowsByLane EF.ring EF.embed EF.ExtensionPacking.ext_lanes w0 eq1.now chunk.now out.old out.new }
{
    for i in 0..eq1.len() {
        add_rows_by_four::<F, EF>(out, eq1[i].scale(w0), row_of(chunk, eq1.len(), i));
    }
}

/// Adds a row for each lane of `weights`, times that lane.
#[inline]
fn add_rows_by_four<F: Field, EF: ExtensionField<F>>(
    out: &mut [EF::ExtensionPacking],
    weights: EF::ExtensionPacking,
    rows: &[F],
)
    requires rows { length rows.now ≡ F.Packing.WIDTH * (length out.old * F.Packing.WIDTH) }
    requires fours { F.Packing.WIDTH % 4 ≡ 0 }
    requires small { AreSmall F.row F.Packing.row EF.row }
    ensures { AddsRows EF.ring EF.embed EF.ExtensionPacking.ext_lanes
        (EF.ExtensionPacking.ext_lanes weights) rows.now out.old out.new }
{
    let fours = F::Packing::WIDTH / 4;
    for i in 0..fours {
        let k = 4 * i;
        let four = [
            weights.ext_lane(k),
            weights.ext_lane(k + 1),
            weights.ext_lane(k + 2),
            weights.ext_lane(k + 3),
        ];
        add_four_rows::<F, EF>(out, &four, row_of(rows, fours, i));
    }
}

/// Adds four rows, each times its weight.
#[inline]
fn add_four_rows<F: Field, EF: ExtensionField<F>>(
    out: &mut [EF::ExtensionPacking],
    weights: &[EF],
    rows: &[F],
)
    requires weights { length weights.now ≡ 4 }
    requires rows { length rows.now ≡ 4 * (length out.old * F.Packing.WIDTH) }
    requires small { (type_size F.row < SMALL_BYTES) × (type_size F.Packing.row < SMALL_BYTES) }
    ensures { AddsRows EF.ring EF.embed EF.ExtensionPacking.ext_lanes weights.now rows.now out.old out.new }
{
    let first = row_of(rows, 4, 0);
    let second = row_of(rows, 4, 1);
    let third = row_of(rows, 4, 2);
    let fourth = row_of(rows, 4, 3);
    for z in 0..out.len() {
        let blocks = [
            block::<F>(first, z),
            block::<F>(second, z),
            block::<F>(third, z),
            block::<F>(fourth, z),
        ];
        out[z] = plus_four_products::<F, EF>(out[z], &blocks, weights);
    }
}

/// The packed value at place `z` of a row.
#[inline]
fn block<F: Lanewise>(row: &[F], z: usize) -> F::Packing
    requires { (z + 1) * F.Packing.WIDTH ≤ length row.now }
    ensures { F.Packing.lanes result ≡ row_at F.Packing.WIDTH row.now z }
{
    F::Packing::load(row_of_width(row, F::Packing::WIDTH, z))
}

/// `packed` plus the four blocks, each times its weight.
#[inline]
fn plus_four_products<F: Field, EF: ExtensionField<F>>(
    packed: EF::ExtensionPacking,
    blocks: &[F::Packing],
    weights: &[EF],
) -> EF::ExtensionPacking
    requires blocks { length blocks.now ≡ 4 }
    requires weights { length weights.now ≡ 4 }
    requires small { type_size F.row < SMALL_BYTES }
    ensures { AddsBlocks EF.ring EF.embed EF.ExtensionPacking.ext_lanes F.Packing.lanes weights.now blocks.now packed result }
{
    if EF::DIMENSION == FOUR {
        return packed_of_four::<F, EF>(
            grown_coefficient::<F, EF>(packed.packed_coefficient(0), blocks, weights, 0),
            grown_coefficient::<F, EF>(packed.packed_coefficient(1), blocks, weights, 1),
            grown_coefficient::<F, EF>(packed.packed_coefficient(2), blocks, weights, 2),
            grown_coefficient::<F, EF>(packed.packed_coefficient(3), blocks, weights, 3),
        );
    }
    let mut sum = packed;
    for k in 0..EF::DIMENSION {
        let grown = grown_coefficient::<F, EF>(sum.packed_coefficient(k), blocks, weights, k);
        sum.set_packed_coefficient(k, grown);
    }
    sum
}

/// `sum` plus the blocks, each times coefficient `k` of its weight.
#[inline(always)]
fn grown_coefficient<F: Field, EF: ExtensionField<F>>(
    sum: F::Packing,
    blocks: &[F::Packing],
    weights: &[EF],
    k: usize,
) -> F::Packing
    requires coefficient { k < EF.DIMENSION }
    requires blocks { length blocks.now ≡ 4 }
    requires weights { length weights.now ≡ 4 }
    requires small { type_size F.row < SMALL_BYTES }
    ensures { result ≡ grown F.Packing.ring F.Packing.WIDTH F.Packing.of_lanes sum blocks.now
        (column_of F.ring.zero EF.coefficients weights.now k) }
{
    let coefficients = [
        weights[0].coefficient(k),
        weights[1].coefficient(k),
        weights[2].coefficient(k),
        weights[3].coefficient(k),
    ];
    sum + F::mixed_dot4(blocks, &coefficients)
}
