//! The calls by their names, in the groups of docs/REPLAY.md. Each is written once, over any rings and any width.
//!
//! A function hands on the calls that it does not have. Each call fails where an operand is missing, stands for
//! nothing of its kind or has a size that the call does not accept, and where memory is refused.

mod batches;
mod either;
pub mod extended;
mod images;
pub mod mixed;
mod one_ring;

use crate::element::Element;
use crate::words::Words;
use mlu_replay_lines::fault::{Fault, Reason};
use mlu_ring::{ExtensionField, Field, MapFrom, SelfAlgebra};

/// Whether no function that was asked has the call.
pub fn is_missing(answer: &Result<String, Fault>) -> bool {
    matches!(answer, Err(Fault::Unknown(Reason::Op)))
}

/// Any call, over a ring that is its own extension.
pub fn over_itself<R: ExtensionField<R> + SelfAlgebra + MapFrom<R> + Element>(
    op: &str,
    words: &mut Words<'_>,
) -> Result<String, Fault> {
    let answer = mixed::answer::<R, R>(op, words);
    if !is_missing(&answer) {
        return answer;
    }
    let answer = extended::answer::<R, R>(op, words);
    if is_missing(&answer) {
        return alone::<R>(op, words);
    }
    answer
}

/// The calls over a ring alone: of one ring, of a ring and an extension, which is the ring itself, and
/// `split.to_field`.
pub fn alone<R: ExtensionField<R> + SelfAlgebra + MapFrom<R> + Element>(
    op: &str,
    words: &mut Words<'_>,
) -> Result<String, Fault> {
    if op == "split.to_field" {
        return images::to_field::<R>(words);
    }
    either::answer::<R, R>(op, words)
}
