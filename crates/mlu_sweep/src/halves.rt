//! The calls of `mlu_eq` on split tables by themselves: first halves of any length, none too.
ghost use Rattle.std.specs.Prelude.{◌≡◌, ◌*◌, ◌<◌, IfOk, IsTrue, length, vec_len};

use crate::definitions::{compressed_suffix, dot, plus_rows, plus_scaled, two_and_steps};
use crate::draws::{blocks, element, elements, rows};
use crate::lanes::whole_packings;
use crate::report::{Report, Shape};
use mlu_eq::split::{
    accumulate_into, accumulate_into_packed, compress_prefix_into, compress_prefix_shifted_into,
    compress_prefix_to_packed_into, compress_suffix_into, compress_suffix_shifted_into, dot_base,
    dot_base_shifted, dot_ext, dot_packed,
};
use mlu_eq::{EqMaybePacked, half};
use mlu_ring::{ExtensionField, Field, PackedValue, Sample};
use mlu_test_support::lanes::{lanes, packed};
use mlu_test_support::lists::filled;
use mlu_test_support::plain;
use std::alloc::{AllocError, Global};

/// The most variables of the second half: two packings of sixteen lanes.
const MOST_VARIABLES: usize = 5;

/// How many entries the first half has.
const ROWS: [usize; 4] = [0, 1, 2, 3];

/// How many places, or packed ones, a compression leaves.
const PLACES: [usize; 4] = [0, 1, 2, 3];

/// Compares the calls on both forms of drawn second halves.
pub fn compare<F: Field + Sample, EF: ExtensionField<F> + Sample>(
    alloc: Global,
    report: &mut Report,
) -> Result<(), AllocError> {
    for variables in 0..=MOST_VARIABLES {
        let weights: Vec<EF> = elements(alloc, report, 1 << variables)?;
        report.form = " (scalars)";
        in_scalars::<F, EF>(alloc, report, &weights)?;
        report.form = " (lanes)";
        in_lanes::<F, EF>(alloc, report, &weights)?;
        report.form = "";
    }
    Ok(())
}

/// Compares the calls on these weights as scalars.
fn in_scalars<F: Field + Sample, EF: ExtensionField<F> + Sample>(
    alloc: Global,
    report: &mut Report,
    weights: &[EF],
) -> Result<(), AllocError> {
    if !weights.len().is_power_of_two() {
        return Err(AllocError);
    }
    let eq1 = half::from_scalars::<F, EF>(Vec::from_slice(alloc, weights)?);
    report.agrees("EqMaybePacked::is_packed", !eq1.is_packed());
    with_rows(alloc, report, &eq1, weights)
}

/// Compares the calls on these weights in lanes, where they fill packings.
fn in_lanes<F: Field + Sample, EF: ExtensionField<F> + Sample>(
    alloc: Global,
    report: &mut Report,
    weights: &[EF],
) -> Result<(), AllocError> {
    let n = weights.len().checked_div(F::Packing::WIDTH).unwrap_or(0);
    if !n.is_power_of_two() || n.checked_mul(F::Packing::WIDTH) != Some(weights.len()) {
        return Ok(());
    }
    let eq1 = half::from_packed::<F, EF>(packed::<F, EF>(alloc, weights, n)?);
    report.agrees("EqMaybePacked::is_packed", eq1.is_packed());
    with_rows(alloc, report, &eq1, weights)
}

/// Compares the calls on a second half with these weights, by itself and below each drawn first half.
fn with_rows<F: Field + Sample, EF: ExtensionField<F> + Sample>(
    alloc: Global,
    report: &mut Report,
    eq1: &EqMaybePacked<F, EF>,
    weights: &[EF],
) -> Result<(), AllocError> {
    let variables = eq1.num_variables();
    if variables >= 32 || weights.len() != 1 << variables {
        return Err(AllocError);
    }
    report.shape = Shape::Slice {
        entries: weights.len(),
    };
    by_itself(alloc, report, eq1, weights)?;
    for rows in ROWS {
        with_drawn_rows(alloc, report, rows, eq1, weights)?;
    }
    Ok(())
}

/// Compares the calls on a second half with these weights, the step with drawn factors.
fn by_itself<F: Field, EF: ExtensionField<F> + Sample>(
    alloc: Global,
    report: &mut Report,
    eq1: &EqMaybePacked<F, EF>,
    weights: &[EF],
) -> Result<(), AllocError>
    requires { length weights.now ≡ length eq1.now.weights }
{
    let count = eq1.num_scalar_evals();
    report.agrees("EqMaybePacked::num_scalar_evals", count == weights.len());
    let last = plain::last(weights);
    report.value("EqMaybePacked::last_scalar", eq1.last_scalar(), last);
    let factors = (element(report), element(report), element(report));
    step(alloc, report, eq1, weights, factors)
}

/// Compares the step to the next row that a second half with these weights adds to twos.
pub fn step<F: Field, EF: ExtensionField<F>>(
    alloc: Global,
    report: &mut Report,
    eq1: &EqMaybePacked<F, EF>,
    weights: &[EF],
    factors: (EF, EF, EF),
) -> Result<(), AllocError>
    requires { length weights.now ≡ length eq1.now.weights }
{
    let mut out = filled(alloc, EF::TWO, weights.len())?;
    eq1.accumulate_next_chunk_into(&mut out, factors.0, factors.1, factors.2);
    let sums = two_and_steps(alloc, weights, factors);
    report.lists("EqMaybePacked::accumulate_next_chunk_into", Ok(out), sums);
    Ok(())
}

/// A split table by its halves, and all its entries, as they are and moved up by one place.
#[derive(Drop)]
struct Split<F: Field, EF: ExtensionField<F>> {
    eq0: Vec<EF>,
    eq1: EqMaybePacked<F, EF>,
    whole: Vec<EF>,
    moved: Vec<EF>,
}

/// So many drawn entries above a copy of the second half, which has these weights.
fn draw_split<F: Field, EF: ExtensionField<F> + Sample>(
    alloc: Global,
    report: &mut Report,
    rows: usize,
    eq1: &EqMaybePacked<F, EF>,
    weights: &[EF],
) -> Result<Split<F, EF>, AllocError>
    requires { length weights.now ≡ length eq1.now.weights }
    ensures weights { IfOk result (λ split. split.eq1.weights ≡ eq1.now.weights) }
    ensures whole { IfOk result (λ split. vec_len split.whole ≡ vec_len split.eq0 * length split.eq1.weights) }
{
    let eq0: Vec<EF> = elements(alloc, report, rows)?;
    if eq0.len() >= 256 || weights.len() >= 256 {
        return Err(AllocError);
    }
    let whole = plain::split_table(alloc, &eq0, weights)?;
    let moved = plain::moved(alloc, &whole)?;
    let eq1 = eq1.try_clone(alloc)?;
    Ok(Split {
        eq0,
        eq1,
        whole,
        moved,
    })
}

/// Compares the calls on a first half of so many drawn entries.
fn with_drawn_rows<F: Field + Sample, EF: ExtensionField<F> + Sample>(
    alloc: Global,
    report: &mut Report,
    rows: usize,
    eq1: &EqMaybePacked<F, EF>,
    weights: &[EF],
) -> Result<(), AllocError>
    requires { length weights.now ≡ length eq1.now.weights }
{
    let split = draw_split(alloc, report, rows, eq1, weights)?;
    compare_split(alloc, report, &split, weights.len())
}

/// Compares the calls on a split table.
fn compare_split<F: Field + Sample, EF: ExtensionField<F> + Sample>(
    alloc: Global,
    report: &mut Report,
    split: &Split<F, EF>,
    weights: usize,
) -> Result<(), AllocError>
    requires weights { weights ≡ length split.now.eq1.weights }
    requires whole { vec_len split.now.whole ≡ vec_len split.now.eq0 * length split.now.eq1.weights }
{
    report.shape = split.shape(1);
    base_dots(alloc, report, split)?;
    ext_sums(alloc, report, split)?;
    for places in PLACES {
        report.shape = split.shape(places);
        prefixes(alloc, report, split, (weights, places))?;
        prefixes_to_lanes(alloc, report, split, (weights, places))?;
        suffixes(alloc, report, split, places)?;
    }
    Ok(())
}

impl<F: Field, EF: ExtensionField<F>> Split<F, EF> {
    /// The shape of a call with so many places.
    fn shape(&self, places: usize) -> Shape {
        Shape::Split {
            rows: self.eq0.len(),
            variables: self.eq1.num_variables(),
            places,
        }
    }
}

/// Compares the dots of drawn entries of the base with the table, and with the table moved up by one
/// place.
fn base_dots<F: Field + Sample, EF: ExtensionField<F> + Sample>(
    alloc: Global,
    report: &mut Report,
    split: &Split<F, EF>,
) -> Result<(), AllocError>
    requires { vec_len split.now.whole ≡ vec_len split.now.eq0 * length split.now.eq1.weights }
{
    let base: Vec<F> = elements(alloc, report, split.whole.len())?;
    let sum = dot(alloc, &split.whole, &base);
    let answer = dot_base(&split.eq0, &split.eq1, &base);
    report.results("split::dot_base", Ok(answer), sum);
    let sum = dot(alloc, &split.moved, &base);
    let answer = dot_base_shifted(&split.eq0, &split.eq1, &base);
    report.results("split::dot_base_shifted", Ok(answer), sum);
    Ok(())
}

/// Compares the dots of drawn entries of the extension with the table, and the table, times a drawn
/// scale, added to them, in both storages.
fn ext_sums<F: Field + Sample, EF: ExtensionField<F> + Sample>(
    alloc: Global,
    report: &mut Report,
    split: &Split<F, EF>,
) -> Result<(), AllocError>
    requires { vec_len split.now.whole ≡ vec_len split.now.eq0 * length split.now.eq1.weights }
{
    let before: Vec<EF> = elements(alloc, report, split.whole.len())?;
    let scale = element(report);
    if split.eq1.is_packed() {
        added_to_lanes(alloc, report, split, &before, scale)?;
    }
    added_to_entries(alloc, report, split, &before, scale)
}

/// Compares the dot of the entries with the table, and the table, times the scale, added to them.
fn added_to_entries<F: Field, EF: ExtensionField<F>>(
    alloc: Global,
    report: &mut Report,
    split: &Split<F, EF>,
    before: &[EF],
    scale: EF,
) -> Result<(), AllocError>
    requires { length before.now ≡ vec_len split.now.eq0 * length split.now.eq1.weights }
{
    let mut out = Vec::from_slice(alloc, before)?;
    let sum = plain::dot(&split.whole, before);
    let answer = dot_ext(&split.eq0, &split.eq1, before);
    report.value("split::dot_ext", answer, sum);
    accumulate_into(&split.eq0, &split.eq1, &mut out, scale);
    let sums = plus_scaled(alloc, before, scale, &split.whole);
    report.lists("split::accumulate_into", Ok(out), sums);
    Ok(())
}

/// Compares the dot of the entries, in lanes, with the table, and the table, times the scale, added to them.
fn added_to_lanes<F: Field, EF: ExtensionField<F>>(
    alloc: Global,
    report: &mut Report,
    split: &Split<F, EF>,
    before: &[EF],
    scale: EF,
) -> Result<(), AllocError>
    requires packed { IsTrue split.now.eq1.packed }
    requires size { length before.now ≡ vec_len split.now.eq0 * length split.now.eq1.weights }
{
    let mut out = whole_packings::<F, EF>(alloc, before)?;
    let sum = plain::dot(&split.whole, before);
    let answer = dot_packed(&split.eq0, &split.eq1, &out);
    report.value("split::dot_packed", answer, sum);
    accumulate_into_packed(&split.eq0, &split.eq1, &mut out, scale);
    let sums = plus_scaled(alloc, before, scale, &split.whole);
    let answer = lanes::<F, EF>(alloc, &out);
    report.lists("split::accumulate_into_packed", answer, sums);
    Ok(())
}

/// Compares the rows of drawn entries that are added to so many drawn places, by the table and by the
/// table moved up by one place.
fn prefixes<F: Field + Sample, EF: ExtensionField<F> + Sample>(
    alloc: Global,
    report: &mut Report,
    split: &Split<F, EF>,
    sizes: (usize, usize),
) -> Result<(), AllocError>
    requires { sizes.0 ≡ length split.now.eq1.weights }
{
    let base: Vec<F> = blocks(alloc, report, split.eq0.len(), sizes.0, sizes.1)?;
    let before: Vec<EF> = elements(alloc, report, sizes.1)?;
    let mut out = Vec::from_slice(alloc, &before)?;
    compress_prefix_into(&split.eq0, &split.eq1, &mut out, &base);
    let sums = plus_rows(alloc, &before, (EF::ONE, &split.whole), &base);
    report.lists("split::compress_prefix_into", Ok(out), sums);
    let mut out = Vec::from_slice(alloc, &before)?;
    compress_prefix_shifted_into(&split.eq0, &split.eq1, &mut out, &base);
    let sums = plus_rows(alloc, &before, (EF::ONE, &split.moved), &base);
    report.lists("split::compress_prefix_shifted_into", Ok(out), sums);
    Ok(())
}

/// Compares the rows of drawn entries that are added to so many drawn packed places.
fn prefixes_to_lanes<F: Field + Sample, EF: ExtensionField<F> + Sample>(
    alloc: Global,
    report: &mut Report,
    split: &Split<F, EF>,
    sizes: (usize, usize),
) -> Result<(), AllocError>
    requires { sizes.0 ≡ length split.now.eq1.weights }
{
    let before: Vec<EF> = rows(alloc, report, sizes.1, F::Packing::WIDTH)?;
    let base: Vec<F> = blocks(alloc, report, split.eq0.len(), sizes.0, before.len())?;
    let mut out = packed::<F, EF>(alloc, &before, sizes.1)?;
    compress_prefix_to_packed_into(&split.eq0, &split.eq1, &mut out, &base);
    let sums = plus_rows(alloc, &before, (EF::ONE, &split.whole), &base);
    let answer = lanes::<F, EF>(alloc, &out);
    report.lists("split::compress_prefix_to_packed_into", answer, sums);
    Ok(())
}

/// Compares the dots of so many rows of drawn entries with the table, and with the table moved up by one
/// place, where the first half has an entry.
fn suffixes<F: Field + Sample, EF: ExtensionField<F> + Sample>(
    alloc: Global,
    report: &mut Report,
    split: &Split<F, EF>,
    places: usize,
) -> Result<(), AllocError>
    requires { vec_len split.now.whole ≡ vec_len split.now.eq0 * length split.now.eq1.weights }
{
    if split.eq0.is_empty() {
        return Ok(());
    }
    let base: Vec<F> = rows(alloc, report, places, split.whole.len())?;
    let mut out = filled(alloc, EF::TWO, places)?;
    compress_suffix_into(&split.eq0, &split.eq1, &mut out, &base);
    let sums = compressed_suffix(alloc, &split.whole, &base);
    report.lists("split::compress_suffix_into", Ok(out), sums);
    let mut out = filled(alloc, EF::TWO, places)?;
    compress_suffix_shifted_into(&split.eq0, &split.eq1, &mut out, &base);
    let sums = compressed_suffix(alloc, &split.moved, &base);
    report.lists("split::compress_suffix_shifted_into", Ok(out), sums);
    Ok(())
}
