//! All calls, by the file that they stand in and their name.

use crate::given::Half;
use crate::{
    batches, commands, compressions, evaluations, folds, packings, points, polys, splits, storages,
    successors, tables, unfailing, weights,
};
use mlu_command::Fault;

/// A call, by the file that it stands in.
#[derive(Clone, Copy)]
pub enum Call {
    Batch(batches::Call),
    /// The line, and the answer to it.
    Command(&'static str, &'static str),
    Compression(compressions::Call),
    Evaluation(evaluations::Call),
    /// The line, and the fault of its words.
    Faulty(&'static str, Fault),
    Fold(folds::Call),
    Packing(packings::Call),
    Point(points::Call),
    Poly(polys::Call),
    Split(Half, splits::Call),
    Storage(Half, storages::Call),
    Streams,
    Successor(successors::Call),
    Sumcheck,
    Table(tables::Call),
    Unfailing(unfailing::Call),
    Weights(weights::Call),
    Words(evaluations::Call),
}

impl Call {
    /// The call of this file with this name.
    pub fn named(file: &str, name: &str) -> Option<Self> {
        match file {
            "batches" => batches::named(name),
            "commands" => commands::named(name),
            "compressions" => compressions::named(name),
            "evaluations" => evaluations::named(name),
            "folds" => folds::named(name),
            "packings" => packings::named(name),
            "points" => points::named(name),
            "polys" => polys::named(name),
            "splits" => splits::named(name),
            "storages" => storages::named(name),
            "streams" => Some(Call::Streams),
            "successors" => successors::named(name),
            "sumchecks" => Some(Call::Sumcheck),
            "tables" => tables::named(name),
            "unfailing" => unfailing::named(name),
            "weights" => weights::named(name),
            _ => None,
        }
    }

    /// Whether it takes memory beside its inputs, so that it may be refused.
    pub fn takes_memory(self) -> bool {
        !matches!(
            self,
            Call::Unfailing(_)
                | Call::Faulty(..)
                | Call::Evaluation(evaluations::Call::Below)
                | Call::Words(evaluations::Call::EvalBase(_))
        )
    }
}
