//! The split table shifted by one place: each entry, or row, meets the weight of the place before
//! its own, and the first one meets none.
//!
//! Row `j` of the table, with `n` weights, so meets the places from `j * n + 1` on: whole rows go
//! through the plain kernels, across the borders of the rows. The last row is cut by one place.
ghost use Rattle.std.specs.Prelude.{◌≡◌, ◌<◌, ◌≤◌, ◌+◌, ◌-◌, ◌*◌, length, map, take};
ghost use Rattle.mlu_ring.specs.Lanes.{logical};
ghost use Rattle.mlu_ring.specs.Tables.{back, pair};
ghost use Rattle.mlu_ring.specs.Successor.{shifted};
ghost use Rattle.mlu_kernel.specs.Kernels.{plus_rows};
ghost use Rattle.mlu_eq.specs.Split.{all_but_last, contents, plus_leading_rows, TakesBorders};

use super::dot::{base_dot, dot_base};
use super::prefix::{add_lane_rows, add_scalar_row, add_scalar_rows, compress_prefix_into};
use crate::half::{EqMaybePacked, Weights};
use mlu_kernel::one_row::{lane_sum, row_dot_in_lanes};
use mlu_kernel::rows::row_dots;
use mlu_ring::{
    Additive, Algebra, ExtensionField, Field, Lanewise, PackedFieldExtension, PackedValue, row_of,
};

/// The sum of the base entries, each times the weight of the place before its own; the first
/// does not count. Asks for as many entries as the split table has.
pub fn dot_base_shifted<F: Field, EF: ExtensionField<F>>(
    eq0: &[EF],
    eq1: &EqMaybePacked<F, EF>,
    entries: &[F],
) -> EF
    requires { length entries.now ≡ length eq0.now * length eq1.now.weights }
    ensures { result ≡ pair EF.ring (shifted EF.ring (contents EF.ring eq0.now eq1.now.weights)) (map EF.embed entries.now) }
{
    let Some((last, full)) = eq0.split_last() else {
        return EF::ZERO;
    };
    let border = full.len() * eq1.num_scalar_evals() + 1;
    let before = dot_base(full, eq1, &entries[1..border]);
    before + *last * leading_dot(eq1, &entries[border..])
}

/// Adds the rows of `entries` to `out`, each times the weight of the place before its own; the
/// first does not count. A row is as long as `out`.
///
/// Asks for as many rows as the split table has entries.
pub fn compress_prefix_shifted_into<F: Field, EF: ExtensionField<F>>(
    eq0: &[EF],
    eq1: &EqMaybePacked<F, EF>,
    out: &mut [EF],
    entries: &[F],
)
    requires { length entries.now ≡ length eq0.now * (length eq1.now.weights * length out.old) }
    ensures { out.new ≡ plus_rows EF.ring out.old (shifted EF.ring (contents EF.ring eq0.now eq1.now.weights)) (map EF.embed entries.now) }
{
    let Some((last, full)) = eq0.split_last() else {
        return;
    };
    if out.is_empty() {
        return;
    }
    let border = (full.len() * eq1.num_scalar_evals() + 1) * out.len();
    compress_prefix_into(full, eq1, out, &entries[out.len()..border]);
    add_leading_rows(eq1, *last, out, &entries[border..]);
}

/// Writes the dot of the shifted weights with each row.
///
/// All rows but the last are read on by a place, so that they meet whole packed weights. The last
/// weight then meets the first entry of the next row, and their product is taken away again.
pub(super) fn row_dots_shifted<F: Field, EF: ExtensionField<F>>(
    weights: &[EF::ExtensionPacking],
    out: &mut [EF],
    entries: &[F],
)
    requires some { 0 < length weights.now }
    requires size { length entries.now ≡ length out.old * (length weights.now * F.Packing.WIDTH) }
    ensures { out.new ≡ back EF.ring (shifted EF.ring (logical EF.ExtensionPacking.ext_lanes weights.now)) (map EF.embed entries.now) }
{
    let Some((last, full)) = out.split_last_mut() else {
        return;
    };
    let width = weights.len() * F::Packing::WIDTH;
    let (read_on, last_row) = entries.split_at(full.len() * width + 1);
    row_dots::<F, EF>(full, weights, &read_on[1..]);
    let last_weight = weights[weights.len() - 1].ext_lane(F::Packing::WIDTH - 1);
    subtract_borders(full, last_weight, entries, width);
    *last = leading_lanes_dot::<F, EF>(weights, last_row);
}

/// Takes from each place the product of `weight` with the first entry of the row after its own.
fn subtract_borders<F: Additive, EF: Algebra<F>>(
    out: &mut [EF],
    weight: EF,
    entries: &[F],
    width: usize,
)
    requires some { 0 < width }
    requires size { length entries.now ≡ (length out.old + 1) * width }
    ensures { TakesBorders EF.ring weight (map EF.embed entries.now) width out.old out.new }
{
    for y in 0..out.len() {
        out[y] = out[y] - weight.scale(entries[(y + 1) * width]);
    }
}

/// The dot of all weights but the last with a row that is shorter by one.
fn leading_dot<F: Field, EF: ExtensionField<F>>(eq1: &EqMaybePacked<F, EF>, row: &[F]) -> EF
    requires { length row.now + 1 ≡ length eq1.now.weights }
    ensures { result ≡ pair EF.ring (take (length row.now) eq1.now.weights) (map EF.embed row.now) }
{
    match eq1.weights() {
        Weights::Scalar(weights) => base_dot::<F, EF>(&weights[..row.len()], row),
        Weights::Packed(weights) => leading_lanes_dot::<F, EF>(weights, row),
    }
}

/// Adds a row for each weight but the last, times the weight and `factor`.
fn add_leading_rows<F: Field, EF: ExtensionField<F>>(
    eq1: &EqMaybePacked<F, EF>,
    factor: EF,
    out: &mut [EF],
    rows: &[F],
)
    requires some { 0 < length out.old }
    requires size { length rows.now + length out.old ≡ length eq1.now.weights * length out.old }
    ensures { out.new ≡ plus_rows EF.ring out.old (map (EF.ring.product factor) (all_but_last eq1.now.weights))
        (map EF.embed rows.now) }
{
    match eq1.weights() {
        Weights::Scalar(weights) => {
            add_scalar_rows(factor, &weights[..weights.len() - 1], out, rows);
        }
        Weights::Packed(weights) => {
            add_leading_lane_rows::<F, EF>(factor, weights, out, rows);
        }
    }
}

/// The dot of all lanes but the last with a row: whole groups, and then the lanes of the last one.
fn leading_lanes_dot<F: Field, EF: ExtensionField<F>>(
    weights: &[EF::ExtensionPacking],
    row: &[F],
) -> EF
    requires { length row.now + 1 ≡ length weights.now * F.Packing.WIDTH }
    ensures { result ≡ pair EF.ring (take (length row.now) (logical EF.ExtensionPacking.ext_lanes weights.now)) (map EF.embed row.now) }
{
    let groups = row.len() / F::Packing::WIDTH;
    let (whole, rest) = row.split_at(groups * F::Packing::WIDTH);
    let sum = row_dot_in_lanes::<F, EF>(&weights[..groups], whole);
    lane_sum::<F, EF>(sum) + leading_lane_dot::<F, EF>(weights[groups], rest)
}

/// The dot of the first lanes with a row that is not longer than they are.
#[inline]
fn leading_lane_dot<F: Field, EF: ExtensionField<F>>(weights: EF::ExtensionPacking, row: &[F]) -> EF
    requires { length row.now ≤ F.Packing.WIDTH }
    ensures { result ≡ pair EF.ring (take (length row.now) (EF.ExtensionPacking.ext_lanes weights)) (map EF.embed row.now) }
{
    let mut sum = EF::ZERO;
    for k in 0..row.len() {
        sum = sum + weights.ext_lane(k).scale(row[k]);
    }
    sum
}

/// Adds a row for each lane but the last, times the lane and `factor`.
fn add_leading_lane_rows<F: Field, EF: ExtensionField<F>>(
    factor: EF,
    weights: &[EF::ExtensionPacking],
    out: &mut [EF],
    rows: &[F],
)
    requires some { 0 < length weights.now }
    requires places { 0 < length out.old }
    requires size { length rows.now + length out.old ≡ length weights.now * F.Packing.WIDTH * length out.old }
    ensures { out.new ≡ plus_leading_rows EF.ring EF.embed EF.ExtensionPacking.ext_lanes F.Packing.WIDTH
        out.old factor weights.now rows.now }
{
    let groups = weights.len() - 1;
    let (whole, rest) = rows.split_at(groups * F::Packing::WIDTH * out.len());
    add_lane_rows::<F, EF>(factor, &weights[..groups], out, whole);
    add_first_lane_rows::<F, EF>(weights[groups].scale(factor), out, rest);
}

/// Adds a row for each lane but the last of one packed weight, times the lane.
fn add_first_lane_rows<F: Field, EF: ExtensionField<F>>(
    weights: EF::ExtensionPacking,
    out: &mut [EF],
    rows: &[F],
)
    requires { length rows.now ≡ (F.Packing.WIDTH - 1) * length out.old }
    ensures { out.new
        ≡ plus_rows EF.ring out.old (take (F.Packing.WIDTH - 1) (EF.ExtensionPacking.ext_lanes weights)) (map EF.embed rows.now) }
{
    let count = F::Packing::WIDTH - 1;
    for k in 0..count {
        add_scalar_row(out, weights.ext_lane(k), row_of(rows, count, k));
    }
}
