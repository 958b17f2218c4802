//! Batches of equality tables.
ghost use Rattle.std.specs.Prelude.{◌≡◌, length, is_ok, IfOk};
ghost use Rattle.mlu_point.specs.Batches.{after_batch};
ghost use Rattle.mlu_words.specs.Calls.{Batches, batch_of};
ghost use Rattle.mlu_words.specs.Codings.{element_count};
ghost use Rattle.mlu_words.specs.Operands.{AreEntriesFor, BatchOperands, FitPoints};
ghost use Rattle.mlu_words.specs.Outcomes.{Tested};

use crate::fault::Fault;
use crate::sizes::{are_residues, are_whole, count_of, has_points, is_table};
use crate::words::{Words, read, write};
use mlu_point::eq_batch;
use mlu_ring::{ExtensionField, Field, RowMajorMatrixView};
use std::alloc::{AllocError, Global};

/// Tests the coordinates of points, a scalar for each point, and a table.
fn check_operands<T: Words>(
    adds: bool,
    values: &[u32],
    scalars: &[u32],
    out: &[u32],
) -> Result<(), Fault>
    ensures { Tested (BatchOperands T.coding adds values.now scalars.now out.now) result }
{
    if !are_whole::<T>(values) || !are_whole::<T>(scalars) || !is_table::<T>(out) {
        return Err(Fault::Length);
    }
    if !has_points(
        count_of::<T>(values),
        count_of::<T>(scalars),
        count_of::<T>(out),
    ) {
        return Err(Fault::Arity);
    }
    if !are_residues(values) || !are_residues(scalars) || (adds && !are_residues(out)) {
        return Err(Fault::Residue);
    }
    Ok(())
}

/// [`eq_batch::eval_eq_batch`], which adds to the output or not.
fn eval<F: Field, EF: ExtensionField<F>>(
    alloc: Global,
    adds: bool,
    points: RowMajorMatrixView<'_, EF>,
    out: &mut [EF],
    scalars: &[EF],
) -> Result<(), AllocError>
    requires width { points.width ≡ length scalars.now }
    requires size { AreEntriesFor (length points.values.now) (length scalars.now) (length out.old) }
    ensures { out.new ≡ after_batch EF.ring (is_ok result) adds out.old points.entry.values.now scalars.now }
{
    if adds {
        eq_batch::eval_eq_batch::<F, EF, true>(alloc, points, out, scalars)
    } else {
        eq_batch::eval_eq_batch::<F, EF, false>(alloc, points, out, scalars)
    }
}

/// The batch of the points, each with its scalar, or its sums with the elements of `out`.
fn table<F: Field, EF: ExtensionField<F> + Words>(
    alloc: Global,
    adds: bool,
    values: &[u32],
    scalars: &[u32],
    out: &[u32],
) -> Result<Vec<EF>, AllocError>
    requires { FitPoints EF.coding values.now scalars.now out.now }
    ensures size { IfOk result (λ table. length table.items ≡ element_count EF.coding out.now) }
    ensures batch { IfOk result (λ table. table.items ≡ batch_of EF.coding EF.ring adds values.now scalars.now out.now) }
{
    let values: Vec<EF> = read(alloc, values)?;
    let scalars: Vec<EF> = read(alloc, scalars)?;
    let mut table: Vec<EF> = read(alloc, out)?;
    let points = RowMajorMatrixView::new(values.as_slice(), scalars.len());
    eval::<F, EF>(
        alloc,
        adds,
        points,
        table.as_mut_slice(),
        scalars.as_slice(),
    )?;
    Ok(table)
}

/// The sum of the equality tables of points, each times a scalar, written or added. Each column of
/// the values is a point.
pub fn eval_eq_batch<F: Field, EF: ExtensionField<F> + Words>(
    alloc: Global,
    adds: bool,
    values: &[u32],
    scalars: &[u32],
    out: &mut [u32],
) -> Result<(), Fault>
    ensures { Batches EF.coding EF.ring adds values.now scalars.now out.old out.new result }
{
    check_operands::<EF>(adds, values, scalars, out)?;
    let table = table::<F, EF>(alloc, adds, values, scalars, out)?;
    write(table.as_slice(), out);
    Ok(())
}
