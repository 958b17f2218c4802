//! The kernels of packed weights by themselves, at few weights, rows and places, and at none.
ghost use Rattle.std.specs.Prelude.{◌≡◌, ◌*◌, ◌≤◌, IfOk, length, vec_len};

use crate::definitions::{double_sum, lane_dots, plus_rows, row_dots};
use crate::draws::{self, blocks, element, elements};
use crate::report::{Report, Shape};
use mlu_kernel::small::is_small;
use mlu_kernel::{
    compress_hi_dot_packed, compress_hi_dot_packed_eager, compress_prefix_to_packed_packed,
    compress_prefix_to_packed_packed_kernel_eager, packed_basis_dot, rows,
};
use mlu_ring::{
    Additive, ExtensionField, Field, Lanewise, PackedValue, PrimeCharacteristicRing, Sample,
    Unmetered, row_of,
};
use mlu_test_support::lanes::{lanes, packed};
use mlu_test_support::lists::filled;
use std::alloc::{AllocError, Global};

/// More packed weights than are tried. The kernels make columns of the coefficients of few more than a hundred.
const MOST_WEIGHTS: usize = 131;

/// How many rows a dot has.
const ROWS: [usize; 5] = [0, 1, 2, 3, 5];

/// How many packed places the prefix kernel adds to.
const PLACES: [usize; 7] = [0, 1, 2, 3, 5, 8, 17];

/// How many packed values a row of the dots by groups of four has.
const VALUES: [usize; 7] = [0, 1, 2, 3, 4, 5, 9];

/// The most rows that the dots by groups of four take here.
const MOST_ROWS: usize = 9;

/// Compares each kernel at each of these shapes: with up to 40 packed weights, and with so many that
/// both kernels begin to take their eager form.
pub fn compare<F: Field + Sample, EF: ExtensionField<F> + Sample>(
    alloc: Global,
    report: &mut Report,
) -> Result<(), AllocError> {
    for values in VALUES {
        basis_dots::<F>(alloc, report, values)?;
    }
    for weights in 0..MOST_WEIGHTS {
        if weights <= 40 || weights >= 126 {
            with_weights::<F, EF>(alloc, report, weights)?;
        }
    }
    Ok(())
}

/// Compares both kernels with so many packed weights, at each number of rows and of places.
fn with_weights<F: Field + Sample, EF: ExtensionField<F> + Sample>(
    alloc: Global,
    report: &mut Report,
    weights: usize,
) -> Result<(), AllocError> {
    for rows in ROWS {
        report.shape = Shape::Dot { weights, rows };
        dot::<F, EF>(alloc, report, weights, rows)?;
    }
    for places in PLACES {
        report.shape = Shape::Prefix { weights, places };
        prefix::<F, EF>(alloc, report, weights, places)?;
    }
    Ok(())
}

/// Compares both forms of the dot of so many rows with so many drawn weights, and the dots row by row.
fn dot<F: Field + Sample, EF: ExtensionField<F> + Sample>(
    alloc: Global,
    report: &mut Report,
    weights: usize,
    rows: usize,
) -> Result<(), AllocError> {
    let logical: Vec<EF> = draws::rows(alloc, report, weights, F::Packing::WIDTH)?;
    let chunk: Vec<F> = draws::rows(alloc, report, rows, logical.len())?;
    let eq0: Vec<EF> = elements(alloc, report, rows)?;
    let eq1 = packed::<F, EF>(alloc, &logical, weights)?;
    compare_dots::<F, EF>(alloc, report, (&eq1, &logical), &chunk, &eq0)
}

/// Compares the dots of the rows with the packed weights, and the sum of these, each times its factor.
fn compare_dots<F: Field, EF: ExtensionField<F>>(
    alloc: Global,
    report: &mut Report,
    weights: (&[EF::ExtensionPacking], &[EF]),
    chunk: &[F],
    eq0: &[EF],
) -> Result<(), AllocError>
    requires { length chunk.now ≡ length eq0.now * (length weights.0.now * F.Packing.WIDTH) }
{
    let sum = double_sum(alloc, eq0, weights.1, chunk);
    let answer = compress_hi_dot_packed::<F, EF>(weights.0, chunk, eq0);
    report.results("compress_hi_dot_packed", Ok(answer), sum);
    let answer = compress_hi_dot_packed_eager::<F, EF>(weights.0, chunk, eq0);
    report.results("compress_hi_dot_packed_eager", Ok(answer), sum);
    let mut dots = filled(alloc, EF::TWO, eq0.len())?;
    rows::row_dots::<F, EF>(&mut dots, weights.0, chunk);
    let defined = row_dots(alloc, weights.1, chunk, eq0.len());
    report.lists("rows::row_dots", Ok(dots), defined);
    Ok(())
}

/// Compares both forms of the prefix kernel with so many drawn weights and places.
fn prefix<F: Field + Sample, EF: ExtensionField<F> + Sample>(
    alloc: Global,
    report: &mut Report,
    weights: usize,
    places: usize,
) -> Result<(), AllocError> {
    let before: Vec<EF> = draws::rows(alloc, report, places, F::Packing::WIDTH)?;
    let logical: Vec<EF> = draws::rows(alloc, report, weights, F::Packing::WIDTH)?;
    let chunk: Vec<F> = blocks(alloc, report, weights, F::Packing::WIDTH, before.len())?;
    let eq1 = packed::<F, EF>(alloc, &logical, weights)?;
    let w0 = element::<EF>(report);
    let sums = plus_rows(alloc, &before, (w0, &logical), &chunk)?;
    let answer = prefixed::<F, EF>(alloc, (&before, places), &eq1, &chunk, w0, false);
    report.list("compress_prefix_to_packed_packed", answer, &sums);
    let answer = prefixed::<F, EF>(alloc, (&before, places), &eq1, &chunk, w0, true);
    report.list(
        "compress_prefix_to_packed_packed_kernel_eager",
        answer,
        &sums,
    );
    Ok(())
}

/// The lanes of so many packed places after the prefix kernel, or after its eager form.
fn prefixed<F: Field, EF: ExtensionField<F>>(
    alloc: Global,
    before: (&[EF], usize),
    eq1: &[EF::ExtensionPacking],
    chunk: &[F],
    w0: EF,
    is_eager: bool,
) -> Result<Vec<EF>, AllocError>
    requires places { length before.0.now ≡ before.1 * F.Packing.WIDTH }
    requires rows { length chunk.now ≡ length eq1.now * (F.Packing.WIDTH * (before.1 * F.Packing.WIDTH)) }
{
    let mut out = packed::<F, EF>(alloc, before.0, before.1)?;
    if is_eager {
        compress_prefix_to_packed_packed_kernel_eager::<F, EF>(&mut out, eq1, chunk, w0);
    } else {
        compress_prefix_to_packed_packed::<F, EF>(&mut out, eq1, chunk, w0);
    }
    lanes::<F, EF>(alloc, &out)
}

/// Compares the dots by groups of four of no rows, of one and of several.
fn basis_dots<F: Field + Sample>(
    alloc: Global,
    report: &mut Report,
    values: usize,
) -> Result<(), AllocError> {
    basis_dot::<F, 0>(alloc, report, values)?;
    basis_dot::<F, 1>(alloc, report, values)?;
    basis_dot::<F, 4>(alloc, report, values)?;
    basis_dot::<F, MOST_ROWS>(alloc, report, values)
}

/// Compares the dots of `D` drawn rows of so many packed values.
fn basis_dot<F: Field + Sample, const D: usize>(
    alloc: Global,
    report: &mut Report,
    values: usize,
) -> Result<(), AllocError> {
    if D > MOST_ROWS || !is_small(&F::Packing::ZERO) {
        return Err(AllocError);
    }
    report.shape = Shape::Basis { rows: D, values };
    let count = D.checked_mul(values).ok_or(AllocError)?;
    let rows: Vec<F> = draws::rows(alloc, report, count, F::Packing::WIDTH)?;
    let right: Vec<F> = draws::rows(alloc, report, values, F::Packing::WIDTH)?;
    let defined = dots_by_lane(alloc, &rows, &right, (D, F::Packing::WIDTH));
    let rows = loaded::<F>(alloc, &rows, count)?;
    let right = loaded::<F>(alloc, &right, values)?;
    let sums = dots_of_rows::<F, D>(&rows, &right);
    let answer = lanes_of::<F>(alloc, &sums);
    report.lists("packed_basis_dot", answer, defined);
    Ok(())
}

/// The dots of so many rows with `right`, each by so many lanes.
fn dots_by_lane<R: PrimeCharacteristicRing>(
    alloc: Global,
    rows: &[R],
    right: &[R],
    (count, width): (usize, usize),
) -> Result<Vec<R>, AllocError> {
    let mut dots = Vec::new(alloc);
    for k in 0..count {
        let lanes = lane_dots(alloc, row_of(rows, count, k), right, width)?;
        dots.extend_from_slice(&lanes)?;
    }
    Ok(dots)
}

/// The dots of `D` rows, each as long as `right`.
fn dots_of_rows<'a, F: Field, const D: usize>(
    rows: &'a [F::Packing],
    right: &'a [F::Packing],
) -> [F::Packing; D]
    requires few { D ≤ MOST_ROWS }
    requires size { length rows.now ≡ D * length right.now }
{
    let mut cs = [right; MOST_ROWS];
    for k in 0..D {
        cs[k] = row_of(rows, D, k);
    }
    let mut meter = Unmetered::new();
    packed_basis_dot::<F, Unmetered, D>(&cs[..D], right, &mut meter)
}

/// The values as `n` packings.
fn loaded<F: Lanewise>(alloc: Global, values: &[F], n: usize) -> Result<Vec<F::Packing>, AllocError>
    requires { length values.now ≡ n * F.Packing.WIDTH }
    ensures { IfOk result (λ packed. vec_len packed ≡ n) }
{
    let mut packed = Vec::with_capacity(alloc, n)?;
    for i in 0..n {
        packed.push(F::Packing::load(row_of(values, n, i)))?;
    }
    Ok(packed)
}

/// The lanes of packed values, in order.
fn lanes_of<F: Lanewise>(alloc: Global, packed: &[F::Packing]) -> Result<Vec<F>, AllocError> {
    let mut lanes = Vec::new(alloc);
    for value in packed {
        push_lanes::<F>(&mut lanes, *value)?;
    }
    Ok(lanes)
}

/// Appends the lanes of a packed value.
fn push_lanes<F: Lanewise>(lanes: &mut Vec<F>, packed: F::Packing) -> Result<(), AllocError> {
    for k in 0..F::Packing::WIDTH {
        lanes.push(packed.lane(k))?;
    }
    Ok(())
}
