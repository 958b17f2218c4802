//! Batches of a chunk, by packed shares: the last variables are their lanes, and the two before these
//! the four values of a share.
ghost use Rattle.std.specs.Prelude.{◌≡◌, ◌+◌, ◌*◌, ◌/◌, ◌<◌, ◌≤◌, ◌^◌, drop, length, map, take};
ghost use Rattle.mlu_ring.specs.Lanes.{logical};
ghost use Rattle.mlu_ring.specs.Matrices.{left_by};
ghost use Rattle.mlu_point.specs.Batches.{column_weights, share_places, ArePacked};
ghost use Rattle.mlu_point.specs.Batches.{four_lanes, groups, pair_lanes, two_pairs, with_batch};

use super::evaluator::{EqualityEvaluator, InLanes, PackedEvaluator};
use super::fours::{FOUR, split_fours, sum_of_fours};
use mlu_ring::{
    Additive, ExtensionField, Field, PackedFieldExtension, PackedValue, PrimeCharacteristicRing,
    RowMajorMatrixView, row_of,
};

/// The variables that the four values of a share stand for.
pub(super) const LOG_FOUR: usize = 2;

/// The batch of points with `log2(W) + 2` variables or more. Of the last `log2(W) + 2` come a share of
/// four packed values for each point, and the others split these shares.
///
/// Asks for `4 * W` places in `lanes`, and in `packed` for four a point and four more for each of its
/// other coordinates.
pub(super) fn add_chunk<
    F: Field,
    EF: ExtensionField<F>,
    C: Additive,
    E: PackedEvaluator<F, C, EF>,
    const INITIALIZED: bool,
>(
    evals: RowMajorMatrixView<'_, C>,
    scalars: &[EF],
    lanes: &mut [EF],
    packed: &mut [EF::ExtensionPacking],
    out: &mut [EF],
)
    requires some { 0 < length scalars.now }
    requires width { evals.width ≡ length scalars.now }
    requires variables { F.Packing.LOG_WIDTH + 2 ≤ length evals.values.now / length scalars.now }
    requires lanes { length lanes.old ≡ 4 * F.Packing.WIDTH }
    requires packed { length packed.old
        ≡ share_places F.Packing.LOG_WIDTH (length evals.values.now / length scalars.now) (length scalars.now) }
    requires size { length out.old ≡ 2 ^ (length evals.values.now / length scalars.now) }
    ensures { out.new ≡ with_batch EF.ring INITIALIZED out.old (map E.image evals.entry.values.now) scalars.now }
{
    let left = <F::Packing as PackedValue>::LOG_WIDTH + LOG_FOUR;
    let (middle, last) = evals.split_rows(evals.height() - left);
    let (shares, space) = packed.split_at_mut(FOUR * scalars.len());
    pack_shares::<F, EF, C, E>(shares, lanes, last, scalars);
    add_groups::<F, EF, C, InLanes<F, EF, E>, INITIALIZED>(middle, shares, space, out);
}

/// Writes the share of each point: in lane `k` of its values, joined in order, its scalar times the
/// weight of `k` at its coordinates.
fn pack_shares<F: Field, EF: ExtensionField<F>, C: Additive, E: EqualityEvaluator<C, EF>>(
    shares: &mut [EF::ExtensionPacking],
    lanes: &mut [EF],
    evals: RowMajorMatrixView<'_, C>,
    scalars: &[EF],
)
    requires shares { length shares.old ≡ 4 * length scalars.now }
    requires width { evals.width ≡ length scalars.now }
    requires size { 2 ^ (length evals.values.now / length scalars.now) ≡ 4 * F.Packing.WIDTH }
    requires lanes { length lanes.old ≡ 4 * F.Packing.WIDTH }
    ensures { ArePacked EF.ring EF.ExtensionPacking.ext_lanes shares.new scalars.now (map E.image evals.entry.values.now) }
{
    for i in 0..scalars.len() {
        fill_column::<C, EF, E>(lanes, evals, i, scalars[i]);
        pack_four::<F, EF>(shares, FOUR * i, lanes);
    }
}

/// Writes the values with these lanes, joined in order, to four places from `start` on.
fn pack_four<F: Field, EF: ExtensionField<F>>(
    shares: &mut [EF::ExtensionPacking],
    start: usize,
    lanes: &[EF],
)
    requires shares { start + 4 ≤ length shares.old }
    requires lanes { length lanes.now ≡ 4 * F.Packing.WIDTH }
    ensures before { take start shares.new ≡ take start shares.old }
    ensures packed { logical EF.ExtensionPacking.ext_lanes (take 4 (drop start shares.new)) ≡ lanes.now }
{
    for b in 0..FOUR {
        shares[start + b] = EF::ExtensionPacking::from_ext_slice(row_of(lanes, FOUR, b));
    }
}

/// Writes the scale times each weight at the point in a column.
fn fill_column<C: Additive, S: PrimeCharacteristicRing, E: EqualityEvaluator<C, S>>(
    out: &mut [S],
    evals: RowMajorMatrixView<'_, C>,
    i: usize,
    scale: S,
)
    requires column { i < evals.width }
    requires size { length out.old ≡ 2 ^ (length evals.values.now / evals.width) }
    ensures { out.new ≡ column_weights S.ring scale (map E.image evals.entry.values.now) evals.entry.width i }
{
    if evals.height() == 0 {
        out[0] = scale;
        return;
    }
    let (first, others) = evals.split_rows(1);
    let share = E::multiply(scale, first.values[i]);
    let half = out.len() / 2;
    let (low, high) = out.split_at_mut(half);
    fill_column::<C, S, E>(low, others, i, scale - share);
    fill_column::<C, S, E>(high, others, i, share);
}

/// The recursion on the first variable, over shares of four packed values. It uses up the shares and
/// the working space.
fn add_groups<
    F: Field,
    EF: ExtensionField<F>,
    C: Additive,
    E: EqualityEvaluator<C, EF::ExtensionPacking>,
    const INITIALIZED: bool,
>(
    evals: RowMajorMatrixView<'_, C>,
    shares: &mut [EF::ExtensionPacking],
    space: &mut [EF::ExtensionPacking],
    out: &mut [EF],
)
    requires some { 0 < evals.width }
    requires shares { length shares.old ≡ 4 * evals.width }
    requires space { length space.old ≡ 4 * length evals.values.now }
    requires size { length out.old ≡ 2 ^ (length evals.values.now / evals.width) * (4 * F.Packing.WIDTH) }
    ensures { out.new ≡ left_by EF.ring INITIALIZED out.old
        (groups EF.ExtensionPacking.ext_lanes EF.ExtensionPacking.ring E.image evals.entry shares.old) }
{
    if evals.height() == 0 {
        write_or_add_four::<F, EF, INITIALIZED>(out, &sum_of_fours(shares));
        return;
    }
    let (first, others) = evals.split_rows(1);
    let (high_shares, space) = space.split_at_mut(shares.len());
    split_fours::<C, EF::ExtensionPacking, E>(shares, high_shares, first.values);
    let half = out.len() / 2;
    let (low, high) = out.split_at_mut(half);
    add_groups::<F, EF, C, E, INITIALIZED>(others, high_shares, space, high);
    add_groups::<F, EF, C, E, INITIALIZED>(others, shares, space, low);
}

/// Writes the lanes of four values, joined in order, or adds them where `INITIALIZED`.
fn write_or_add_four<F: Field, EF: ExtensionField<F>, const INITIALIZED: bool>(
    out: &mut [EF],
    values: &(
        EF::ExtensionPacking,
        EF::ExtensionPacking,
        EF::ExtensionPacking,
        EF::ExtensionPacking,
    ),
)
    requires { length out.old ≡ 4 * F.Packing.WIDTH }
    ensures { out.new ≡ left_by EF.ring INITIALIZED out.old (four_lanes EF.ExtensionPacking.ext_lanes (two_pairs values.now)) }
{
    let half = out.len() / 2;
    let (low, high) = out.split_at_mut(half);
    write_or_add_two::<F, EF, INITIALIZED>(low, values.0, values.1);
    write_or_add_two::<F, EF, INITIALIZED>(high, values.2, values.3);
}

/// [`write_or_add_four`] of two values.
#[inline]
fn write_or_add_two<F: Field, EF: ExtensionField<F>, const INITIALIZED: bool>(
    out: &mut [EF],
    first: EF::ExtensionPacking,
    second: EF::ExtensionPacking,
)
    requires { length out.old ≡ 2 * F.Packing.WIDTH }
    ensures { out.new ≡ left_by EF.ring INITIALIZED out.old (pair_lanes EF.ExtensionPacking.ext_lanes (first, second)) }
{
    let half = out.len() / 2;
    let (low, high) = out.split_at_mut(half);
    write_or_add_group::<F, EF, INITIALIZED>(low, first);
    write_or_add_group::<F, EF, INITIALIZED>(high, second);
}

/// [`write_or_add_four`] of one value.
#[inline]
fn write_or_add_group<F: Field, EF: ExtensionField<F>, const INITIALIZED: bool>(
    out: &mut [EF],
    value: EF::ExtensionPacking,
)
    requires { length out.old ≡ F.Packing.WIDTH }
    ensures { out.new ≡ left_by EF.ring INITIALIZED out.old (EF.ExtensionPacking.ext_lanes value) }
{
    let value = if INITIALIZED {
        EF::ExtensionPacking::from_ext_slice(out) + value
    } else {
        value
    };
    value.store_ext(out);
}
