//! The split table, times a scale, added to an output.
ghost use Rattle.std.specs.Prelude.{◌≡◌, ◌*◌, ◌<◌, ◌≤◌, length, IsTrue};
ghost use Rattle.std.specs.Mem.{type_size};
ghost use Rattle.mlu_ring.specs.Sums.{plus_scaled};
ghost use Rattle.mlu_ring.specs.Lanes.{logical};
ghost use Rattle.mlu_eq.specs.Split.{contents, AddsPackedTable, AddsScaled};

use crate::half::{EqMaybePacked, Weights};
use mlu_kernel::small::{SMALL_BYTES, is_small};
use mlu_ring::{
    Additive, Algebra, ExtensionField, Field, Lanewise, PackedFieldExtension, PackedValue,
    PrimeCharacteristicRing, row_range,
};

/// The most lanes that are stored as elements on the stack.
pub(super) const MOST_LANES: usize = 16;

/// Adds each entry of the split table, times `scale`, to its place of `out`. Asks for as many
/// places as the split table has entries.
pub fn accumulate_into<F: Field, EF: ExtensionField<F>>(
    eq0: &[EF],
    eq1: &EqMaybePacked<F, EF>,
    out: &mut [EF],
    scale: EF,
)
    requires { length out.old ≡ length eq0.now * length eq1.now.weights }
    ensures { out.new ≡ plus_scaled EF.ring out.old scale (contents EF.ring eq0.now eq1.now.weights) }
{
    for j in 0..eq0.len() {
        let row = row_range(out.len(), eq0.len(), j);
        add_weights(eq1, &mut out[row], scale * eq0[j]);
    }
}

/// [`accumulate_into`] with packed places, which stand for their lanes. Asks for packed weights,
/// and for as many lanes as the split table has entries.
#[tactic(auto, using(crate::proofs::Lengths::cancel_width))]
pub fn accumulate_into_packed<F: Field, EF: ExtensionField<F>>(
    eq0: &[EF],
    eq1: &EqMaybePacked<F, EF>,
    out: &mut [EF::ExtensionPacking],
    scale: EF,
)
    requires packed { IsTrue eq1.now.packed }
    requires size { length out.old * F.Packing.WIDTH ≡ length eq0.now * length eq1.now.weights }
    ensures { AddsScaled EF.ring EF.ExtensionPacking.ext_lanes scale (contents EF.ring eq0.now eq1.now.weights) out.old out.new }
{
    match eq1.weights() {
        Weights::Packed(weights) => {
            add_packed_rows::<F, EF>(eq0, out, weights, scale);
        }
        Weights::Scalar(_) => unreachable!(),
    }
}

/// Adds each weight, times `factor`, to its place of `row`.
pub(crate) fn add_weights<F: Field, EF: ExtensionField<F>>(
    eq1: &EqMaybePacked<F, EF>,
    row: &mut [EF],
    factor: EF,
)
    requires { length row.old ≡ length eq1.now.weights }
    ensures { row.new ≡ plus_scaled EF.ring row.old factor eq1.now.weights }
{
    match eq1.weights() {
        Weights::Scalar(weights) => add_multiple(row, weights, factor),
        Weights::Packed(weights) => add_lanes::<F, EF>(row, weights, factor),
    }
}

/// Adds each of the weights, times `scale` and an entry of `eq0`, to its place in that entry's row.
pub(super) fn add_packed_rows<F: Field, EF: ExtensionField<F>>(
    eq0: &[EF],
    out: &mut [EF::ExtensionPacking],
    weights: &[EF::ExtensionPacking],
    scale: EF,
)
    requires { length out.old ≡ length eq0.now * length weights.now }
    ensures { AddsPackedTable EF.ring EF.ExtensionPacking.ext_lanes scale eq0.now weights.now out.old out.new }
{
    for j in 0..eq0.len() {
        let start = j * weights.len();
        let factor = scale * eq0[j];
        add_scaled_each(&mut out[start..start + weights.len()], weights, factor);
    }
}

/// Adds each weight, times `factor`, to its place of `out`.
#[inline]
pub(crate) fn add_multiple<R: PrimeCharacteristicRing>(out: &mut [R], weights: &[R], factor: R)
    requires { length out.old ≡ length weights.now }
    ensures { out.new ≡ plus_scaled R.ring out.old factor weights.now }
{
    for i in 0..out.len() {
        out[i] = out[i] + weights[i].times_fixed(factor);
    }
}

/// [`add_multiple`] by the image of `factor`.
#[inline]
fn add_scaled_each<B: Additive, R: Algebra<B>>(out: &mut [R], weights: &[R], factor: B)
    requires { length out.old ≡ length weights.now }
    ensures { out.new ≡ plus_scaled R.ring out.old (R.embed factor) weights.now }
{
    for i in 0..out.len() {
        out[i] = out[i] + weights[i].scale(factor);
    }
}

/// Adds each lane, times `factor`, to its place of `out`.
#[inline]
pub(crate) fn add_lanes<F: Field, EF: ExtensionField<F>>(
    out: &mut [EF],
    weights: &[EF::ExtensionPacking],
    factor: EF,
)
    requires { length out.old ≡ length weights.now * F.Packing.WIDTH }
    ensures { out.new ≡ plus_scaled EF.ring out.old factor (logical EF.ExtensionPacking.ext_lanes weights.now) }
{
    let width = F::Packing::WIDTH;
    if takes_elements::<F, EF>() {
        let mut lanes = [EF::ZERO; MOST_LANES];
        return add_lanes_by_elements::<F, EF>(out, weights, factor, &mut lanes[..width]);
    }
    for i in 0..weights.len() {
        let start = i * width;
        let group = &mut out[start..start + width];
        let scaled = <EF::ExtensionPacking as Algebra<EF>>::scale(weights[i], factor);
        let sum = EF::ExtensionPacking::from_ext_slice(group) + scaled;
        sum.store_ext(group);
    }
}

/// Whether lanes are stored as elements on the stack before they are added. A constant, once the types
/// are known.
#[inline]
pub(super) fn takes_elements<F: Field, EF: ExtensionField<F>>() -> bool
    ensures { IsTrue result → (F.Packing.WIDTH ≤ MOST_LANES) × (type_size EF.row < SMALL_BYTES) }
{
    F::Packing::WIDTH <= MOST_LANES && is_small(&EF::ZERO)
}

/// [`add_lanes`] by way of the elements of a group: the output is not turned into lanes and back, and
/// what is stored as two vectors is not loaded as one, which is slow.
///
/// Asks for room for the lanes of a packing. What it then holds is not promised.
#[inline]
fn add_lanes_by_elements<F: Field, EF: ExtensionField<F>>(
    out: &mut [EF],
    weights: &[EF::ExtensionPacking],
    factor: EF,
    lanes: &mut [EF],
)
    requires size { length out.old ≡ length weights.now * F.Packing.WIDTH }
    requires room { length lanes.old ≡ F.Packing.WIDTH }
    ensures { out.new ≡ plus_scaled EF.ring out.old factor (logical EF.ExtensionPacking.ext_lanes weights.now) }
{
    let width = F::Packing::WIDTH;
    for i in 0..weights.len() {
        let start = i * width;
        let scaled = <EF::ExtensionPacking as Algebra<EF>>::scale(weights[i], factor);
        scaled.store_ext(lanes);
        EF::add_each(&mut out[start..start + width], lanes);
    }
}
