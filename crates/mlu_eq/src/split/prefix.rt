//! The rows of a table, each times its weight in the split table, added to an output.
//!
//! Where the places of an output fill whole packings, the rows are added up in packed places on the
//! stack, a group of lanes at a time, and the sums are unpacked once.
ghost use Rattle.std.specs.Prelude.{◌≡◌, ◌∷◌, [], ◌*◌, ◌/◌, ◌≤◌, ◌<◌, length, map, IsTrue};
ghost use Rattle.std.specs.Mem.{type_size};
ghost use Rattle.mlu_kernel.specs.Kernels.{plus_rows, AddsRows};
ghost use Rattle.mlu_eq.specs.Split.{contents, plus_lane_rows, FillPackings};

use super::accumulate::add_lanes;
use crate::half::{EqMaybePacked, Weights};
use mlu_kernel::compress_prefix_to_packed_packed;
use mlu_kernel::one_row::add_row_times;
use mlu_kernel::small::{SMALL_BYTES, is_small};
use mlu_ring::{
    Additive, Algebra, ExtensionField, Field, Lanewise, PackedFieldExtension, PackedValue,
    PrimeCharacteristicRing, row_of,
};

/// The size of the array for outputs of at most so many packed places: a short one takes less time to fill
/// with zeros.
const FEW_PLACES: usize = 8;

/// The size of the next longer array, which serves outputs of up to 1024 entries at eight lanes.
const MANY_PLACES: usize = 128;

/// With more packed places than these an output is added to entry by entry.
const MOST_PLACES: usize = 1024;

const _: () = prove!(MOST_PLACES * SMALL_BYTES < 2 << 20);

/// Adds a row of `entries` to `out` for each entry of the split table, times that entry. The
/// rows are as long as `out`; `eq0` may be a run of a first half, with the rows of that run.
///
/// Asks for as many rows as the split table has entries.
pub fn compress_prefix_into<F: Field, EF: ExtensionField<F>>(
    eq0: &[EF],
    eq1: &EqMaybePacked<F, EF>,
    out: &mut [EF],
    entries: &[F],
)
    requires { length entries.now ≡ length eq0.now * (length eq1.now.weights * length out.old) }
    ensures { out.new ≡ plus_rows EF.ring out.old (contents EF.ring eq0.now eq1.now.weights) (map EF.embed entries.now) }
{
    if fills_packings::<F, EF>(out.len(), FEW_PLACES) {
        compress_prefix_in_packings::<F, EF, FEW_PLACES>(eq0, eq1, out, entries);
    } else if fills_packings::<F, EF>(out.len(), MANY_PLACES) {
        compress_prefix_in_packings::<F, EF, MANY_PLACES>(eq0, eq1, out, entries);
    } else if fills_packings::<F, EF>(out.len(), MOST_PLACES) {
        compress_prefix_in_packings::<F, EF, MOST_PLACES>(eq0, eq1, out, entries);
    } else {
        compress_prefix_by_rows(eq0, eq1, out, entries);
    }
}

/// Whether so many places are at most `most` whole packings, which have room on the stack.
#[inline]
fn fills_packings<F: Field, EF: ExtensionField<F>>(places: usize, most: usize) -> bool
    ensures { IsTrue result → FillPackings F.Packing.WIDTH places most EF.ExtensionPacking.row }
{
    let width = F::Packing::WIDTH;
    places % width == 0 && places / width <= most && is_small(&EF::ExtensionPacking::ZERO)
}

/// [`compress_prefix_into`] by way of packed places, which begin at zero.
fn compress_prefix_in_packings<F: Field, EF: ExtensionField<F>, const N: usize>(
    eq0: &[EF],
    eq1: &EqMaybePacked<F, EF>,
    out: &mut [EF],
    entries: &[F],
)
    requires most { N ≤ MOST_PLACES }
    requires whole { length out.old ≡ length out.old / F.Packing.WIDTH * F.Packing.WIDTH }
    requires few { length out.old / F.Packing.WIDTH ≤ N }
    requires small { type_size EF.ExtensionPacking.row < SMALL_BYTES }
    requires size { length entries.now ≡ length eq0.now * (length eq1.now.weights * length out.old) }
    ensures { out.new ≡ plus_rows EF.ring out.old (contents EF.ring eq0.now eq1.now.weights) (map EF.embed entries.now) }
{
    let mut places = [EF::ExtensionPacking::ZERO; N];
    let sums = &mut places[..out.len() / F::Packing::WIDTH];
    compress_prefix_to_packed_into(eq0, eq1, sums, entries);
    add_lanes::<F, EF>(out, sums, EF::ONE);
}

/// [`compress_prefix_into`] a row at a time.
fn compress_prefix_by_rows<F: Field, EF: ExtensionField<F>>(
    eq0: &[EF],
    eq1: &EqMaybePacked<F, EF>,
    out: &mut [EF],
    entries: &[F],
)
    requires { length entries.now ≡ length eq0.now * (length eq1.now.weights * length out.old) }
    ensures { out.new ≡ plus_rows EF.ring out.old (contents EF.ring eq0.now eq1.now.weights) (map EF.embed entries.now) }
{
    for j in 0..eq0.len() {
        add_rows(eq1, eq0[j], out, row_of(entries, eq0.len(), j));
    }
}

/// [`compress_prefix_into`] with a packed output, which stands for its lanes: a row is as long as
/// `out` has lanes. Asks for as many rows as the split table has entries.
pub fn compress_prefix_to_packed_into<F: Field, EF: ExtensionField<F>>(
    eq0: &[EF],
    eq1: &EqMaybePacked<F, EF>,
    out: &mut [EF::ExtensionPacking],
    entries: &[F],
)
    requires { length entries.now ≡ length eq0.now * (length eq1.now.weights * (length out.old * F.Packing.WIDTH)) }
    ensures { AddsRows EF.ring EF.embed EF.ExtensionPacking.ext_lanes
        (contents EF.ring eq0.now eq1.now.weights) entries.now out.old out.new }
{
    for j in 0..eq0.len() {
        add_rows_to_packed(eq1, eq0[j], out, row_of(entries, eq0.len(), j));
    }
}

/// Adds a row for each weight, times the weight and `factor`.
#[tactic(auto, using(crate::proofs::Lengths::rows_of_lanes))]
fn add_rows<F: Field, EF: ExtensionField<F>>(
    eq1: &EqMaybePacked<F, EF>,
    factor: EF,
    out: &mut [EF],
    rows: &[F],
)
    requires { length rows.now ≡ length eq1.now.weights * length out.old }
    ensures { out.new ≡ plus_rows EF.ring out.old (map (EF.ring.product factor) eq1.now.weights) (map EF.embed rows.now) }
{
    match eq1.weights() {
        Weights::Scalar(weights) => add_scalar_rows(factor, weights, out, rows),
        Weights::Packed(weights) => {
            add_lane_rows::<F, EF>(factor, weights, out, rows);
        }
    }
}

/// Adds a row for each weight, times the weight and `factor`, to a packed output.
#[tactic(auto, using(crate::proofs::Lengths::rows_of_lanes))]
fn add_rows_to_packed<F: Field, EF: ExtensionField<F>>(
    eq1: &EqMaybePacked<F, EF>,
    factor: EF,
    out: &mut [EF::ExtensionPacking],
    rows: &[F],
)
    requires { length rows.now ≡ length eq1.now.weights * (length out.old * F.Packing.WIDTH) }
    ensures { AddsRows EF.ring EF.embed EF.ExtensionPacking.ext_lanes
        (map (EF.ring.product factor) eq1.now.weights) rows.now out.old out.new }
{
    match eq1.weights() {
        Weights::Scalar(weights) => {
            add_scalar_rows_to_packed::<F, EF>(factor, weights, out, rows);
        }
        Weights::Packed(weights) => {
            compress_prefix_to_packed_packed(out, weights, rows, factor);
        }
    }
}

/// Adds a row for each weight, times the weight and `factor`.
pub(super) fn add_scalar_rows<F: Additive, EF: Algebra<F>>(
    factor: EF,
    weights: &[EF],
    out: &mut [EF],
    rows: &[F],
)
    requires { length rows.now ≡ length weights.now * length out.old }
    ensures { out.new ≡ plus_rows EF.ring out.old (map (EF.ring.product factor) weights.now) (map EF.embed rows.now) }
{
    for i in 0..weights.len() {
        add_scalar_row(out, factor * weights[i], row_of(rows, weights.len(), i));
    }
}

/// Adds a row for each lane of the weights, times the lane and `factor`.
pub(super) fn add_lane_rows<F: Field, EF: ExtensionField<F>>(
    factor: EF,
    weights: &[EF::ExtensionPacking],
    out: &mut [EF],
    rows: &[F],
)
    requires { length rows.now ≡ length weights.now * (F.Packing.WIDTH * length out.old) }
    ensures { out.new ≡ plus_lane_rows EF.ring EF.embed EF.ExtensionPacking.ext_lanes out.old factor weights.now rows.now }
{
    for i in 0..weights.len() {
        let scaled = weights[i].scale(factor);
        add_group_rows::<F, EF>(scaled, out, row_of(rows, weights.len(), i));
    }
}

/// Adds a row for each lane of one packed weight, times the lane.
fn add_group_rows<F: Field, EF: ExtensionField<F>>(
    weights: EF::ExtensionPacking,
    out: &mut [EF],
    rows: &[F],
)
    requires { length rows.now ≡ F.Packing.WIDTH * length out.old }
    ensures { out.new ≡ plus_rows EF.ring out.old (EF.ExtensionPacking.ext_lanes weights) (map EF.embed rows.now) }
{
    for k in 0..F::Packing::WIDTH {
        add_scalar_row(out, weights.ext_lane(k), row_of(rows, F::Packing::WIDTH, k));
    }
}

/// Adds a row for each scalar weight, times the weight and `factor`, to a packed output.
fn add_scalar_rows_to_packed<F: Field, EF: ExtensionField<F>>(
    factor: EF,
    weights: &[EF],
    out: &mut [EF::ExtensionPacking],
    rows: &[F],
)
    requires { length rows.now ≡ length weights.now * (length out.old * F.Packing.WIDTH) }
    ensures { AddsRows EF.ring EF.embed EF.ExtensionPacking.ext_lanes
        (map (EF.ring.product factor) weights.now) rows.now out.old out.new }
{
    for i in 0..weights.len() {
        let row = row_of(rows, weights.len(), i);
        add_row_times::<F, EF>(out, factor * weights[i], row);
    }
}

/// Adds one row, times its weight.
#[inline]
pub(super) fn add_scalar_row<F: Additive, EF: Algebra<F>>(out: &mut [EF], weight: EF, row: &[F])
    requires { length row.now ≡ length out.old }
    ensures { out.new ≡ plus_rows EF.ring out.old (weight ∷ []) (map EF.embed row.now) }
{
    for z in 0..out.len() {
        out[z] = out[z] + weight.scale(row[z]);
    }
}
