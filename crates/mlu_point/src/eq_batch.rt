//! Batches: the sum of the equality tables of many points, each times a scalar.
//!
//! A batch goes down variable by variable. Each scalar is split by the coordinate of its point,
//! one share for the lower half of the output and one for the upper half. The first variables give
//! the chunks of the output; in a chunk of enough variables the last ones are the lanes of shares of
//! four packed values, and those between split these.
ghost use Rattle.std.specs.Prelude.{◌≡◌, ◌+◌, ◌*◌, ◌<◌, ◌≤◌, ◌/◌, ◌^◌, ◌++◌, length, map, replicate, false, is_ok, IsOk, IfOk, if◌then◌else◌};
ghost use Rattle.mlu_ring.specs.Matrices.{batch};
ghost use Rattle.mlu_point.specs.Batches.{with_batch, after_batch, share_places, IsRoom};

mod evaluator;
mod fours;
mod lanes;
mod shares;

use crate::point::{BitOrder, fill_equality_table};
use evaluator::{BaseFieldEvaluator, ExtFieldEvaluator, PackedEvaluator};
use fours::FOUR;
use lanes::{LOG_FOUR, add_chunk};
use mlu_ring::place_by_place::clear;
use mlu_ring::{
    Additive, ExtensionField, Field, PackedValue, PrimeCharacteristicRing, RowMajorMatrixView,
};
use shares::{split_shares, sum};
use std::alloc::{AllocError, Global};

/// Writes to `out[x]` the sum over the points of scalar times weight of `x`, or adds it there where
/// `INITIALIZED`. Each column of `evals` is a point and each row a variable;
/// row 0 reads the highest bit of `x`.
///
/// Asks for as many scalars as columns, and for `2^height` places. With no points any output is
/// taken; it becomes zeros, or is left where `INITIALIZED`.
///
/// # Errors
/// Where the working space is refused, or its size does not fit `usize`; the output is then as
/// before. For `p` points of `n` variables it is `p * (n + 1)` elements up to `log2(W) + 1`
/// variables, else `4 * p * (n - log2(W) - 1)` packed elements and `p + 4 * W` elements. With no
/// points no space is asked for, nor with one that is written: its table is filled in place.
pub fn eval_eq_batch<F: Field, EF: ExtensionField<F>, const INITIALIZED: bool>(
    alloc: Global,
    evals: RowMajorMatrixView<'_, EF>,
    out: &mut [EF],
    scalars: &[EF],
) -> Result<(), AllocError>
    requires width { evals.width ≡ length scalars.now }
    requires size { 0 < length scalars.now → length out.old ≡ 2 ^ (length evals.values.now / length scalars.now) }
    ensures left { out.new ≡ after_batch EF.ring (is_ok result) INITIALIZED out.old evals.entry.values.now scalars.now }
    ensures no_points { length scalars.now ≡ 0 → IsOk result }
    ensures one_point { INITIALIZED ≡ false → length scalars.now ≡ 1 → IsOk result }
{
    if !INITIALIZED && scalars.len() == 1 {
        write_table(out, evals.values, scalars);
        return Ok(());
    }
    evaluate::<F, EF, EF, ExtFieldEvaluator, INITIALIZED>(alloc, evals, out, scalars, 0)
}

/// As [`eval_eq_batch`], at points whose coordinates lie in the base field. One point that is
/// written takes working space too.
pub fn eval_eq_base_batch<F: Field, EF: ExtensionField<F>, const INITIALIZED: bool>(
    alloc: Global,
    evals: RowMajorMatrixView<'_, F>,
    out: &mut [EF],
    scalars: &[EF],
) -> Result<(), AllocError>
    requires width { evals.width ≡ length scalars.now }
    requires size { 0 < length scalars.now → length out.old ≡ 2 ^ (length evals.values.now / length scalars.now) }
    ensures left { out.new ≡ after_batch EF.ring (is_ok result) INITIALIZED out.old (map EF.embed evals.entry.values.now) scalars.now }
    ensures no_points { length scalars.now ≡ 0 → IsOk result }
{
    evaluate::<F, EF, F, BaseFieldEvaluator, INITIALIZED>(alloc, evals, out, scalars, 0)
}

/// As [`eval_eq_batch`], with the output in `2^log_chunks` chunks that are made one after the
/// other.
///
/// Asks besides that `log_chunks` is at most the number of variables; with no points it is not
/// read. The working space is that of the `n - log_chunks` variables of a chunk, and `p * log_chunks`
/// elements more; one point that is written takes it too.
pub fn eval_eq_batch_in_chunks<F: Field, EF: ExtensionField<F>, const INITIALIZED: bool>(
    alloc: Global,
    evals: RowMajorMatrixView<'_, EF>,
    out: &mut [EF],
    scalars: &[EF],
    log_chunks: usize,
) -> Result<(), AllocError>
    requires width { evals.width ≡ length scalars.now }
    requires size { 0 < length scalars.now → length out.old ≡ 2 ^ (length evals.values.now / length scalars.now) }
    requires chunks { 0 < length scalars.now → log_chunks ≤ length evals.values.now / length scalars.now }
    ensures left { out.new ≡ after_batch EF.ring (is_ok result) INITIALIZED out.old evals.entry.values.now scalars.now }
    ensures no_points { length scalars.now ≡ 0 → IsOk result }
{
    evaluate::<F, EF, EF, ExtFieldEvaluator, INITIALIZED>(alloc, evals, out, scalars, log_chunks)
}

/// As [`eval_eq_batch_in_chunks`], at points whose coordinates lie in the base field.
pub fn eval_eq_base_batch_in_chunks<F: Field, EF: ExtensionField<F>, const INITIALIZED: bool>(
    alloc: Global,
    evals: RowMajorMatrixView<'_, F>,
    out: &mut [EF],
    scalars: &[EF],
    log_chunks: usize,
) -> Result<(), AllocError>
    requires width { evals.width ≡ length scalars.now }
    requires size { 0 < length scalars.now → length out.old ≡ 2 ^ (length evals.values.now / length scalars.now) }
    requires chunks { 0 < length scalars.now → log_chunks ≤ length evals.values.now / length scalars.now }
    ensures left { out.new ≡ after_batch EF.ring (is_ok result) INITIALIZED out.old (map EF.embed evals.entry.values.now) scalars.now }
    ensures no_points { length scalars.now ≡ 0 → IsOk result }
{
    evaluate::<F, EF, F, BaseFieldEvaluator, INITIALIZED>(alloc, evals, out, scalars, log_chunks)
}

/// The batch of one point, written: its table times the scalar, filled in place.
#[tactic(auto, using(crate::proofs::OnePoint::batch_one))]
fn write_table<S: PrimeCharacteristicRing>(out: &mut [S], point: &[S], scalars: &[S])
    requires one { length scalars.now ≡ 1 }
    requires size { length out.old ≡ 2 ^ (length point.now / length scalars.now) }
    ensures { out.new ≡ batch S.ring point.now scalars.now (length out.old) }
{
    fill_equality_table(out, point, BitOrder::Msb, scalars[0])
}

/// The batch, with all working space taken before the first write.
#[tactic(auto, using(std::proofs::lemmas::Grind::common_steps))]
fn evaluate<
    F: Field,
    EF: ExtensionField<F>,
    C: Additive,
    E: PackedEvaluator<F, C, EF>,
    const INITIALIZED: bool,
>(
    alloc: Global,
    evals: RowMajorMatrixView<'_, C>,
    out: &mut [EF],
    scalars: &[EF],
    log_chunks: usize,
) -> Result<(), AllocError>
    requires width { evals.width ≡ length scalars.now }
    requires size { 0 < length scalars.now → length out.old ≡ 2 ^ (length evals.values.now / length scalars.now) }
    requires chunks { 0 < length scalars.now → log_chunks ≤ length evals.values.now / length scalars.now }
    ensures left { out.new ≡ after_batch EF.ring (is_ok result) INITIALIZED out.old (map E.image evals.entry.values.now) scalars.now }
    ensures no_points { length scalars.now ≡ 0 → IsOk result }
{
    if scalars.is_empty() {
        if !INITIALIZED {
            clear(out);
        }
        return Ok(());
    }
    let below = variables_of_chunk::<F>(evals.height() - log_chunks);
    let lanes = lane_places::<F>(below)?;
    let mut packed = packed_space::<F, EF>(alloc, scalars.len(), below)?;
    let splits = evals.values.len() - below * scalars.len();
    let mut working = working_space(alloc, scalars, splits, lanes)?;
    let (shares, space) = working.as_mut_slice().split_at_mut(scalars.len());
    let (space, lanes) = space.split_at_mut(splits);
    add_tables::<F, EF, C, E, INITIALIZED>(
        evals,
        below,
        shares,
        space,
        lanes,
        packed.as_mut_slice(),
        out,
    );
    Ok(())
}

/// How many of so many variables a chunk leaves to packed shares: all, or none where these are too
/// few for a share of four packed values.
fn variables_of_chunk<F: Field>(variables: usize) -> usize
    ensures many { F.Packing.LOG_WIDTH + 2 ≤ variables → result ≡ variables }
    ensures few { variables < F.Packing.LOG_WIDTH + 2 → result ≡ 0 }
    ensures within { result ≤ variables }
    ensures lanes { 0 < result → F.Packing.LOG_WIDTH + 2 ≤ result }
{
    if variables.saturating_sub(<F::Packing as PackedValue>::LOG_WIDTH) < LOG_FOUR {
        0
    } else {
        variables
    }
}

/// The places for the lanes of one share, where a chunk leaves variables to packed shares.
///
/// # Errors
/// Where their number does not fit `usize`.
fn lane_places<F: Field>(variables: usize) -> Result<usize, AllocError>
    ensures some { IfOk result (λ places. 0 < variables → places ≡ 4 * F.Packing.WIDTH) }
    ensures none { variables ≡ 0 → IfOk result (λ places. places ≡ 0) }
{
    if variables == 0 {
        return Ok(0);
    }
    FOUR.checked_mul(<F::Packing as PackedValue>::WIDTH)
        .ok_or(AllocError)
}

/// Zeros for the shares of so many points, and for those of each variable that these do not stand for.
#[tactic(auto, using(std::proofs::lemmas::Grind::common_steps))]
fn packed_space<F: Field, EF: ExtensionField<F>>(
    alloc: Global,
    points: usize,
    variables: usize,
) -> Result<Vec<EF::ExtensionPacking>, AllocError>
    requires fits { variables * points < 2 ^ 64 }
    requires lanes { 0 < variables → F.Packing.LOG_WIDTH + 2 ≤ variables }
    ensures some { IfOk result (λ space. 0 < variables → length space.items ≡ share_places F.Packing.LOG_WIDTH variables points) }
    ensures none { variables ≡ 0 → IfOk result (λ space. length space.items ≡ 0) }
{
    if variables == 0 {
        return EF::ExtensionPacking::zero_vec(alloc, 0);
    }
    let splits = (variables - (<F::Packing as PackedValue>::LOG_WIDTH + LOG_FOUR)) * points;
    let shares = splits.checked_add(points).ok_or(AllocError)?;
    let size = FOUR.checked_mul(shares).ok_or(AllocError)?;
    EF::ExtensionPacking::zero_vec(alloc, size)
}

/// A copy of the scalars, and zeros for the shares of each variable and for lanes, in one
/// allocation.
fn working_space<S: PrimeCharacteristicRing>(
    alloc: Global,
    scalars: &[S],
    splits: usize,
    lanes: usize,
) -> Result<Vec<S>, AllocError>
    ensures { IfOk result (λ space. space.items ≡ scalars.now ++ replicate (splits + lanes) S.ring.zero) }
{
    let others = splits.checked_add(lanes).ok_or(AllocError)?;
    let size = scalars.len().checked_add(others).ok_or(AllocError)?;
    let mut space = Vec::with_capacity(alloc, size)?;
    space.extend_from_slice(scalars)?;
    space.resize(size, S::ZERO)?;
    Ok(space)
}

/// The recursion on the first variable, which writes two disjoint halves of the output, down to the
/// variables of a chunk. It uses up the scalars and the working space.
#[tactic(auto, using(std::proofs::lemmas::Grind::common_steps))]
fn add_tables<
    F: Field,
    EF: ExtensionField<F>,
    C: Additive,
    E: PackedEvaluator<F, C, EF>,
    const INITIALIZED: bool,
>(
    evals: RowMajorMatrixView<'_, C>,
    below: usize,
    scalars: &mut [EF],
    space: &mut [EF],
    lanes: &mut [EF],
    packed: &mut [EF::ExtensionPacking],
    out: &mut [EF],
)
    requires some { 0 < length scalars.old }
    requires width { evals.width ≡ length scalars.old }
    requires below { below ≤ length evals.values.now / length scalars.old }
    requires space { length space.old + below * length scalars.old ≡ length evals.values.now }
    requires room { IsRoom F.Packing.WIDTH F.Packing.LOG_WIDTH below scalars.old lanes.old packed.old }
    requires size { length out.old ≡ 2 ^ (length evals.values.now / length scalars.old) }
    ensures { out.new ≡ with_batch EF.ring INITIALIZED out.old (map E.image evals.entry.values.now) scalars.old }
{
    if evals.height() == below {
        add_rest::<F, EF, C, E, INITIALIZED>(evals, scalars, lanes, packed, out);
        return;
    }
    let (first, others) = evals.split_rows(1);
    let (high_scalars, space) = space.split_at_mut(scalars.len());
    split_shares::<C, EF, E>(scalars, high_scalars, first.values);
    let half = out.len() / 2;
    let (low, high) = out.split_at_mut(half);
    add_tables::<F, EF, C, E, INITIALIZED>(others, below, high_scalars, space, lanes, packed, high);
    add_tables::<F, EF, C, E, INITIALIZED>(others, below, scalars, space, lanes, packed, low);
}

/// The batch of one chunk, or of one entry where no variable is left.
fn add_rest<
    F: Field,
    EF: ExtensionField<F>,
    C: Additive,
    E: PackedEvaluator<F, C, EF>,
    const INITIALIZED: bool,
>(
    evals: RowMajorMatrixView<'_, C>,
    scalars: &[EF],
    lanes: &mut [EF],
    packed: &mut [EF::ExtensionPacking],
    out: &mut [EF],
)
    requires some { 0 < length scalars.now }
    requires width { evals.width ≡ length scalars.now }
    requires room { IsRoom F.Packing.WIDTH F.Packing.LOG_WIDTH (length evals.values.now / length scalars.now)
        scalars.now lanes.old packed.old }
    requires size { length out.old ≡ 2 ^ (length evals.values.now / length scalars.now) }
    ensures { out.new ≡ with_batch EF.ring INITIALIZED out.old (map E.image evals.entry.values.now) scalars.now }
{
    if evals.height() == 0 {
        write_or_add::<EF, INITIALIZED>(&mut out[0], sum(scalars));
    } else {
        add_chunk::<F, EF, C, E, INITIALIZED>(evals, scalars, lanes, packed, out);
    }
}

/// Writes the value, or adds it where `INITIALIZED`.
#[inline]
fn write_or_add<S: Additive, const INITIALIZED: bool>(place: &mut S, value: S)
    ensures { place.new ≡ (if INITIALIZED then S.ring.sum place.old value else value) }
{
    *place = if INITIALIZED { *place + value } else { value };
}
