//! Batches of points.
ghost use Rattle.std.specs.Prelude.{◌≡◌, ◌/◌, ◌^◌, ◌<◌, length};
ghost use Rattle.mlu_ring.specs.Matrices.{AreRows};

use crate::calls;
use crate::calls::Call::Batch;
use crate::outcome::{Outcome, written};
use mlu_point::eq_batch::{
    eval_eq_base_batch, eval_eq_base_batch_in_chunks, eval_eq_batch, eval_eq_batch_in_chunks,
};
use mlu_ring::{ExtensionField, Field, RowMajorMatrixView};
use mlu_test_support::numbers::elements;
use std::alloc::{AllocError, Global};

/// The calls that this file makes.
#[derive(Clone, Copy)]
pub enum Call {
    EvalEqBatch,
    EvalEqBaseBatch,
    EvalEqBatchInChunks,
    EvalEqBaseBatchInChunks,
}

/// The vertices 19 and 1 of five variables, which are two chunks, in lanes.
const VERTICES: [i32; 10] = [1, 0, 0, 0, 0, 0, 1, 0, 1, 1];

/// The call with this name.
pub fn named(name: &str) -> Option<calls::Call> {
    Some(match name {
        "eval_eq_batch" => Batch(Call::EvalEqBatch),
        "eval_eq_base_batch" => Batch(Call::EvalEqBaseBatch),
        "eval_eq_batch_in_chunks" => Batch(Call::EvalEqBatchInChunks),
        "eval_eq_base_batch_in_chunks" => Batch(Call::EvalEqBaseBatchInChunks),
        _ => return None,
    })
}

/// What becomes of the call. Fails where its inputs are refused.
pub fn made<R: ExtensionField<R>>(alloc: Global, call: Call) -> Result<Outcome, AllocError> {
    match call {
        Call::EvalEqBatch => {
            let points = [1, 0, 1, 0, 1, 1];
            of_points::<R>(alloc, call, &points, &[2, 3, 5], &[9; 4], &[0, 3, 2, 5])
        }
        Call::EvalEqBaseBatch => {
            let points = [1, 0, 0, 1];
            of_points::<R>(alloc, call, &points, &[2, 3], &[1; 4], &[1, 4, 3, 1])
        }
        Call::EvalEqBatchInChunks => {
            let mut after = [0; 32];
            after[19] = 2;
            after[1] = 3;
            of_points::<R>(alloc, call, &VERTICES, &[2, 3], &[9; 32], &after)
        }
        Call::EvalEqBaseBatchInChunks => {
            let mut after = [1; 32];
            after[19] = 3;
            after[1] = 4;
            of_points::<R>(alloc, call, &VERTICES, &[2, 3], &[1; 32], &after)
        }
    }
}

/// The call for these points and scalars, which is to write `after` where `before` is.
fn of_points<R: ExtensionField<R>>(
    alloc: Global,
    call: Call,
    points: &[i32],
    scalars: &[i32],
    before: &[i32],
    after: &[i32],
) -> Result<Outcome, AllocError>
    requires rows { AreRows (length points.now) (length scalars.now) }
    requires some { 0 < length scalars.now }
    requires variables { 0 < length points.now / length scalars.now }
    requires places { length before.now ≡ 2 ^ (length points.now / length scalars.now) }
{
    let points: Vec<R> = elements(alloc, points)?;
    let scalars: Vec<R> = elements(alloc, scalars)?;
    let mut places: Vec<R> = elements(alloc, before)?;
    let matrix = RowMajorMatrixView::new(points.as_slice(), scalars.len());
    let (out, scalars) = (places.as_mut_slice(), scalars.as_slice());
    let done = match call {
        Call::EvalEqBatch => eval_eq_batch::<R, R, false>(alloc, matrix, out, scalars),
        Call::EvalEqBaseBatch => eval_eq_base_batch::<R, R, true>(alloc, matrix, out, scalars),
        Call::EvalEqBatchInChunks => {
            eval_eq_batch_in_chunks::<R, R, false>(alloc, matrix, out, scalars, 1)
        }
        Call::EvalEqBaseBatchInChunks => {
            eval_eq_base_batch_in_chunks::<R, R, true>(alloc, matrix, out, scalars, 1)
        }
    };
    Ok(written(done, places.as_slice(), after, before))
}
