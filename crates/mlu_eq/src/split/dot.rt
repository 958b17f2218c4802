//! Sums of the entries of a table, each times its weight in the split table.
ghost use Rattle.std.specs.Prelude.{◌≡◌, ◌*◌, ◌<◌, length, map, slice_index_or, IsTrue};
ghost use Rattle.mlu_ring.specs.Fours.{in_order};
ghost use Rattle.mlu_ring.specs.Lanes.{logical};
ghost use Rattle.mlu_ring.specs.Tables.{pair};
ghost use Rattle.mlu_kernel.specs.Kernels.{double_sum, HasDot};
ghost use Rattle.mlu_eq.specs.Split.{contents, packed_sum};

use super::constants::{FEW_CONSTANTS, MOST_CONSTANTS, are_constants, dot_of_rows_by_constants};
use super::elements::{
    FEW_ELEMENTS, MOST_ELEMENTS, dot_of_base_rows_by_elements, dot_of_rows_by_elements,
    goes_by_elements, has_few_lanes,
};
use crate::half::{EqMaybePacked, Weights};
use mlu_kernel::one_row::lane_sum;
use mlu_kernel::{compress_hi_dot_packed, compress_hi_dot_packed_eager};
use mlu_ring::{
    Additive, Algebra, ExtensionField, Field, PackedFieldExtension, PrimeCharacteristicRing, row_of,
};

/// With fewer entries than these it does not pay to split the packed weights into columns.
const FEW_ENTRIES: usize = 1024;

/// The products that are summed before they are reduced.
const GROUP: usize = 4;

/// How many coefficients an extension has whose sums are reduced for all of them at once.
pub(super) const COEFFICIENTS: usize = 4;

/// The sum of the base entries, each times its weight. Asks for as many entries as the split
/// table has.
pub fn dot_base<F: Field, EF: ExtensionField<F>>(
    eq0: &[EF],
    eq1: &EqMaybePacked<F, EF>,
    entries: &[F],
) -> EF
    requires { length entries.now ≡ length eq0.now * length eq1.now.weights }
    ensures { result ≡ pair EF.ring (contents EF.ring eq0.now eq1.now.weights) (map EF.embed entries.now) }
{
    match eq1.weights() {
        Weights::Scalar(weights) => dot_of_rows::<F, EF>(eq0, weights, entries),
        Weights::Packed(weights) => packed_dot(eq0, weights, entries),
    }
}

/// The sum of the entries, each times its weight. Asks for as many entries as the split table
/// has.
pub fn dot_ext<F: Field, EF: ExtensionField<F>>(
    eq0: &[EF],
    eq1: &EqMaybePacked<F, EF>,
    entries: &[EF],
) -> EF
    requires { length entries.now ≡ length eq0.now * length eq1.now.weights }
    ensures { result ≡ pair EF.ring (contents EF.ring eq0.now eq1.now.weights) entries.now }
{
    let mut sum = EF::ZERO;
    for j in 0..eq0.len() {
        sum = sum + eq0[j] * row_dot(eq1, row_of(entries, eq0.len(), j));
    }
    sum
}

/// The sum of the lanes of the entries, each times its weight. Asks for packed weights, and
/// for as many lanes as the split table has entries.
#[tactic(auto, using(crate::proofs::Lengths::cancel_width))]
pub fn dot_packed<F: Field, EF: ExtensionField<F>>(
    eq0: &[EF],
    eq1: &EqMaybePacked<F, EF>,
    entries: &[EF::ExtensionPacking],
) -> EF
    requires packed { IsTrue eq1.now.packed }
    requires size { length entries.now * F.Packing.WIDTH ≡ length eq0.now * length eq1.now.weights }
    ensures { result ≡ pair EF.ring (contents EF.ring eq0.now eq1.now.weights) (logical EF.ExtensionPacking.ext_lanes entries.now) }
{
    match eq1.weights() {
        Weights::Packed(weights) => dot_of_packed_rows::<F, EF>(eq0, weights, entries),
        Weights::Scalar(_) => unreachable!(),
    }
}

/// The dot of the weights with one row.
fn row_dot<F: Field, EF: ExtensionField<F>>(eq1: &EqMaybePacked<F, EF>, row: &[EF]) -> EF
    requires { length row.now ≡ length eq1.now.weights }
    ensures { result ≡ pair EF.ring eq1.now.weights row.now }
{
    match eq1.weights() {
        Weights::Scalar(weights) => EF::dot(weights, row),
        Weights::Packed(weights) => lane_sum::<F, EF>(group_dot::<F, EF>(weights, row)),
    }
}

/// The sum of the base entries, each times its packed weight: by the elements in the lanes of a few
/// weights, else by the kernel that is faster.
#[inline]
fn packed_dot<F: Field, EF: ExtensionField<F>>(
    eq0: &[EF],
    weights: &[EF::ExtensionPacking],
    entries: &[F],
) -> EF
    requires { length entries.now ≡ length eq0.now * (length weights.now * F.Packing.WIDTH) }
    ensures { result ≡ double_sum EF.ring eq0.now
        (logical EF.ExtensionPacking.ext_lanes weights.now) (map EF.embed entries.now) }
{
    if has_few_lanes::<F, EF>(weights.len(), FEW_ELEMENTS) {
        dot_of_base_rows_by_elements::<F, EF, FEW_ELEMENTS>(eq0, weights, entries)
    } else if has_few_lanes::<F, EF>(weights.len(), MOST_ELEMENTS) {
        dot_of_base_rows_by_elements::<F, EF, MOST_ELEMENTS>(eq0, weights, entries)
    } else if entries.len() < FEW_ENTRIES {
        compress_hi_dot_packed_eager(weights, entries, eq0)
    } else {
        compress_hi_dot_packed(weights, entries, eq0)
    }
}

/// The sum of the rows' dots with `weights`, each times its entry of `eq0`.
fn dot_of_rows<F: Field, EF: ExtensionField<F>>(eq0: &[EF], weights: &[EF], entries: &[F]) -> EF
    requires { length entries.now ≡ length eq0.now * length weights.now }
    ensures { result ≡ double_sum EF.ring eq0.now weights.now (map EF.embed entries.now) }
{
    if are_constants::<F, EF>(weights.len(), FEW_CONSTANTS) {
        dot_of_rows_by_constants::<F, EF, FEW_CONSTANTS>(eq0, weights, entries)
    } else if are_constants::<F, EF>(weights.len(), MOST_CONSTANTS) {
        dot_of_rows_by_constants::<F, EF, MOST_CONSTANTS>(eq0, weights, entries)
    } else {
        dot_of_rows_by_groups(eq0, weights, entries)
    }
}

/// [`dot_of_rows`], four products at a time.
pub(super) fn dot_of_rows_by_groups<F: Field, EF: ExtensionField<F>>(
    eq0: &[EF],
    weights: &[EF],
    entries: &[F],
) -> EF
    requires { length entries.now ≡ length eq0.now * length weights.now }
    ensures { result ≡ double_sum EF.ring eq0.now weights.now (map EF.embed entries.now) }
{
    let mut sum = EF::ZERO;
    for j in 0..eq0.len() {
        sum = sum + eq0[j] * base_dot::<F, EF>(weights, row_of(entries, eq0.len(), j));
    }
    sum
}

/// The sum of the packed rows' dots with `weights`, each times its entry of `eq0`.
fn dot_of_packed_rows<F: Field, EF: ExtensionField<F>>(
    eq0: &[EF],
    weights: &[EF::ExtensionPacking],
    entries: &[EF::ExtensionPacking],
) -> EF
    requires { length entries.now ≡ length eq0.now * length weights.now }
    ensures { result ≡ packed_sum EF.ring EF.ExtensionPacking.ext_lanes eq0.now weights.now entries.now }
{
    if goes_by_elements::<F, EF>(weights.len()) {
        dot_of_rows_by_elements::<F, EF>(eq0, weights, entries)
    } else {
        dot_of_rows_by_lanes::<F, EF>(eq0, weights, entries)
    }
}

/// [`dot_of_packed_rows`], whose lanes are added up before the entry of `eq0` multiplies them.
fn dot_of_rows_by_lanes<F: Field, EF: ExtensionField<F>>(
    eq0: &[EF],
    weights: &[EF::ExtensionPacking],
    entries: &[EF::ExtensionPacking],
) -> EF
    requires { length entries.now ≡ length eq0.now * length weights.now }
    ensures { result ≡ packed_sum EF.ring EF.ExtensionPacking.ext_lanes eq0.now weights.now entries.now }
{
    let mut sum = EF::ZERO;
    for j in 0..eq0.len() {
        let row = dot(weights, row_of(entries, eq0.len(), j));
        sum = sum + eq0[j] * lane_sum::<F, EF>(row);
    }
    sum
}

/// The sum of the products of weights and base entries, four at a time.
#[inline]
pub(super) fn base_dot<F: Field, EF: ExtensionField<F>>(weights: &[EF], entries: &[F]) -> EF
    requires { length entries.now ≡ length weights.now }
    ensures { result ≡ pair EF.ring weights.now (map EF.embed entries.now) }
{
    let groups = weights.len() / GROUP;
    let mut sum = EF::ZERO;
    for g in 0..groups {
        let i = GROUP * g;
        let left = (weights[i], weights[i + 1], weights[i + 2], weights[i + 3]);
        let right = (entries[i], entries[i + 1], entries[i + 2], entries[i + 3]);
        sum = sum + four_scaled::<F, EF>(&left, &right);
    }
    for i in GROUP * groups..weights.len() {
        sum = sum + weights[i].scale(entries[i]);
    }
    sum
}

/// The sum of four weights, each times a base element. Where weights have four coefficients the
/// elements are a row and the weights the rows of a matrix, so that the sum is reduced once.
#[inline]
fn four_scaled<F: Field, EF: ExtensionField<F>>(
    weights: &(EF, EF, EF, EF),
    elements: &(F, F, F, F),
) -> EF
    ensures { result ≡ pair EF.ring (in_order weights.now) (map EF.embed (in_order elements.now)) }
{
    if EF::DIMENSION != COEFFICIENTS {
        return weights.0.scale(elements.0)
            + weights.1.scale(elements.1)
            + (weights.2.scale(elements.2) + weights.3.scale(elements.3));
    }
    let (constant, linear, quadratic, cubic) = F::row_times_columns(
        elements,
        &column::<F, EF>(weights, 0),
        &column::<F, EF>(weights, 1),
        &column::<F, EF>(weights, 2),
        &column::<F, EF>(weights, 3),
    );
    let mut sum = EF::ZERO;
    sum.set_coefficient(0, constant);
    sum.set_coefficient(1, linear);
    sum.set_coefficient(2, quadratic);
    sum.set_coefficient(3, cubic);
    sum
}

/// Coefficient `k` of each of four. Asks that there is one.
#[inline]
fn column<F: Field, EF: ExtensionField<F>>(elements: &(EF, EF, EF, EF), k: usize) -> (F, F, F, F)
    requires { k < EF.DIMENSION }
    ensures { in_order result ≡ map (λ x. slice_index_or (EF.coefficients x) k F.ring.zero) (in_order elements.now) }
{
    (
        elements.0.coefficient(k),
        elements.1.coefficient(k),
        elements.2.coefficient(k),
        elements.3.coefficient(k),
    )
}

/// The sum of the products of weights and entries, four at a time.
#[inline]
fn dot<R: PrimeCharacteristicRing>(weights: &[R], entries: &[R]) -> R
    requires { length entries.now ≡ length weights.now }
    ensures { result ≡ pair R.ring weights.now entries.now }
{
    let groups = weights.len() / GROUP;
    let mut sum = R::ZERO;
    for g in 0..groups {
        let i = GROUP * g;
        let left = (weights[i], weights[i + 1], weights[i + 2], weights[i + 3]);
        let right = (entries[i], entries[i + 1], entries[i + 2], entries[i + 3]);
        sum = sum + R::four_products(&left, &right);
    }
    for i in GROUP * groups..weights.len() {
        sum = sum + weights[i] * entries[i];
    }
    sum
}

/// The packed weights times groups of entries: a value whose lanes add up to the dot.
#[inline]
fn group_dot<F: Field, EF: ExtensionField<F>>(
    weights: &[EF::ExtensionPacking],
    entries: &[EF],
) -> EF::ExtensionPacking
    requires { length entries.now ≡ length weights.now * F.Packing.WIDTH }
    ensures { HasDot EF.ring EF.ExtensionPacking.ext_lanes weights.now entries.now result }
{
    let mut sum = EF::ExtensionPacking::ZERO;
    for i in 0..weights.len() {
        let group = EF::ExtensionPacking::from_ext_slice(row_of(entries, weights.len(), i));
        sum = sum + weights[i] * group;
    }
    sum
}
