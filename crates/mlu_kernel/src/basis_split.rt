//! Dots with packed weights, coefficient by coefficient.
//!
//! A row of the base times packed weights costs a dot for each coefficient of the weights. So the
//! coefficients are split into columns on the stack, once for all rows, and each row is loaded
//! once and asks [`packed_basis_dot`] for one dot a column.
ghost use Rattle.std.specs.Prelude.{◌≡◌, ◌*◌, ◌<◌, ◌≤◌, length, map, take};
ghost use Rattle.std.specs.List.{All};
ghost use Rattle.std.specs.Mem.{type_size};
ghost use Rattle.mlu_ring.specs.Columns.{column_of};
ghost use Rattle.mlu_ring.specs.Lanes.{logical};
ghost use Rattle.mlu_ring.specs.Matrices.{row_at};
ghost use Rattle.mlu_ring.specs.Tables.{pair};
ghost use Rattle.mlu_kernel.specs.Columns.{AreColumns};
ghost use Rattle.mlu_kernel.specs.Kernels.{HasDot};

use crate::basis_dot::packed_basis_dot;
use crate::small::SMALL_BYTES;
use mlu_ring::{
    Additive, ExtensionField, Field, Lanewise, PackedFieldExtension, PackedValue, Unmetered,
    row_of, row_of_width,
};

/// The most packed weights of a column.
pub(crate) const MOST_WEIGHTS: usize = 128;

/// The most coefficients that are split into columns.
pub(crate) const MOST_COEFFICIENTS: usize = 8;

/// The coefficients of the weights, a column for each. What stands past the weights is not read.
#[inline]
pub(crate) fn split_coefficients<F: Field, EF: ExtensionField<F>, const D: usize>(
    weights: &[EF::ExtensionPacking],
) -> [[F::Packing; MOST_WEIGHTS]; D]
    requires dimension { D ≡ EF.DIMENSION }
    requires some { 0 < D }
    requires few { D ≤ MOST_COEFFICIENTS }
    requires short { length weights.now ≤ MOST_WEIGHTS }
    requires small { type_size F.Packing.row < SMALL_BYTES }
    ensures { AreColumns EF.ExtensionPacking.packed_coefficients F.Packing.ring.zero EF.DIMENSION
        F.Packing.row weights.now result }
{
    let mut split = [[F::Packing::ZERO; MOST_WEIGHTS]; D];
    for k in 0..D {
        split[k] = coefficient_column::<F, EF>(weights, k);
    }
    split
}

/// Coefficient `k` of the weights, from the first place on.
#[inline]
fn coefficient_column<F: Field, EF: ExtensionField<F>>(
    weights: &[EF::ExtensionPacking],
    k: usize,
) -> [F::Packing; MOST_WEIGHTS]
    requires place { k < EF.DIMENSION }
    requires short { length weights.now ≤ MOST_WEIGHTS }
    requires small { type_size F.Packing.row < SMALL_BYTES }
    ensures long { length result ≡ MOST_WEIGHTS }
    ensures column { take (length weights.now) result
        ≡ column_of F.Packing.ring.zero EF.ExtensionPacking.packed_coefficients weights.now k }
{
    let mut coefficients = [F::Packing::ZERO; MOST_WEIGHTS];
    for i in 0..weights.len() {
        coefficients[i] = weights[i].packed_coefficient(k);
    }
    coefficients
}

/// [`row_dot_in_lanes`](crate::one_row::row_dot_in_lanes) of row `j` of so many rows, from the
/// columns of the weights; `weights` is named by the clauses alone. The row goes by way of `blocks`, a
/// place for each weight; what these then hold is not promised.
#[inline]
pub(crate) fn row_dot_by_columns<F: Field, EF: ExtensionField<F>, const D: usize>(
    weights: &[EF::ExtensionPacking],
    split: &[[F::Packing; MOST_WEIGHTS]; D],
    blocks: &mut [F::Packing],
    chunk: &[F],
    rows: usize,
    j: usize,
) -> EF::ExtensionPacking
    requires split { AreColumns EF.ExtensionPacking.packed_coefficients F.Packing.ring.zero EF.DIMENSION
        F.Packing.row weights.now split.now }
    requires places { length blocks.old ≡ length weights.now }
    requires entries { length chunk.now ≡ rows * (length weights.now * F.Packing.WIDTH) }
    requires row { j < rows }
    ensures { HasDot EF.ring EF.ExtensionPacking.ext_lanes weights.now
        (map EF.embed (row_at (length weights.now * F.Packing.WIDTH) chunk.now j)) result }
{
    load_row(blocks, row_of(chunk, rows, j));
    let sums = column_dots::<F, D>(split, blocks);
    joined::<F, EF, D>(sums)
}

/// Loads the row, a packed value to each place.
#[inline]
fn load_row<F: Lanewise>(blocks: &mut [F::Packing], row: &[F])
    requires { length row.now ≡ length blocks.old * F.Packing.WIDTH }
    ensures { logical F.Packing.lanes blocks.new ≡ row.now }
{
    for i in 0..blocks.len() {
        blocks[i] = F::Packing::load(row_of_width(row, F::Packing::WIDTH, i));
    }
}

/// The dot of each column's first places with the packed row.
#[inline]
fn column_dots<F: Field, const D: usize>(
    split: &[[F::Packing; MOST_WEIGHTS]; D],
    row: &[F::Packing],
) -> [F::Packing; D]
    requires some { 0 < D }
    requires few { D ≤ MOST_COEFFICIENTS }
    requires short { length row.now ≤ MOST_WEIGHTS }
    requires each { All (λ c. length c ≡ MOST_WEIGHTS) split.now }
    ensures { result ≡ map (λ c. pair F.Packing.ring c row.now) (map (take (length row.now)) split.now) }
{
    let n = row.len();
    // The check does not cover an array of slices that is first filled with some other slice.
    let mut columns = [&split[0][..n]; MOST_COEFFICIENTS];
    for k in 0..D {
        columns[k] = &split[k][..n];
    }
    let mut meter = Unmetered::new();
    packed_basis_dot::<F, Unmetered, D>(&columns[..D], row, &mut meter)
}

/// The packed value with these coefficients.
#[inline]
fn joined<F: Field, EF: ExtensionField<F>, const D: usize>(
    coefficients: [F::Packing; D],
) -> EF::ExtensionPacking
    requires { D ≡ EF.DIMENSION }
    ensures { EF.ExtensionPacking.packed_coefficients result ≡ coefficients }
{
    let mut packed = EF::ExtensionPacking::ZERO;
    for k in 0..D {
        packed.set_packed_coefficient(k, coefficients[k]);
    }
    packed
}
