//! All calls, at residues, and evaluations at words too, whose threshold is another; those of the programs as they are.
//!
//! This file alone names rings, since each function that does takes long to prove.
ghost use Rattle.std.specs.Mem.{type_size};
ghost use Rattle.std.specs.Prelude.{◌≡◌, ◌*◌, ◌<◌, ◌^◌};

use crate::calls::Call;
use crate::outcome::Outcome;
use crate::{
    batches, commands, compressions, evaluations, folds, packings, points, polys, splits, storages,
    streams, successors, sumchecks, tables, unfailing, weights,
};
use mlu_lanes::{BabyBear, WrappingU64};
use mlu_ring::{ExtensionField, Field, MapFrom, Sample, SelfAlgebra};
use std::alloc::{AllocError, Global};

/// What becomes of the call. Fails where its inputs are refused.
fn made<R: ExtensionField<R> + Sample + SelfAlgebra + MapFrom<R>>(
    alloc: Global,
    call: Call,
) -> Result<Outcome, AllocError>
    requires lanes { R.Packing.WIDTH ≡ 4 }
    requires log_lanes { R.Packing.LOG_WIDTH ≡ 2 }
    requires eight_fit { 8 * type_size R.row < 2 ^ 63 }
{
    match call {
        Call::Batch(call) => batches::made::<R>(alloc, call),
        Call::Command(line, text) => commands::made(alloc, line, text),
        Call::Compression(call) => compressions::made::<R>(alloc, call),
        Call::Evaluation(call) => evaluations::made::<R>(alloc, call),
        Call::Faulty(line, fault) => commands::made_faulty(alloc, line, fault),
        Call::Fold(call) => folds::made::<R>(alloc, call),
        Call::Packing(call) => packings::made::<R>(alloc, call),
        Call::Point(call) => points::made::<R>(alloc, call),
        Call::Poly(call) => polys::made::<R>(alloc, call),
        Call::Split(half, call) => splits::made::<R>(alloc, half, call),
        Call::Storage(half, call) => storages::made::<R>(alloc, half, call),
        Call::Streams => Ok(streams::made(alloc)),
        Call::Successor(call) => successors::made::<R>(alloc, call),
        Call::Sumcheck => sumchecks::made::<R>(alloc),
        Call::Table(call) => tables::made::<R>(alloc, call),
        Call::Unfailing(call) => unfailing::made::<R>(alloc, call),
        Call::Weights(call) => weights::made::<R>(alloc, call),
        Call::Words(call) => words(alloc, call),
    }
}

/// What becomes of an evaluation at words.
fn words(alloc: Global, call: evaluations::Call) -> Result<Outcome, AllocError> {
    evaluations::made::<WrappingU64<4>>(alloc, call)
}

/// What becomes of the call at residues.
pub fn residues(alloc: Global, call: Call) -> Result<Outcome, AllocError> {
    made::<BabyBear<4>>(alloc, call)
}
