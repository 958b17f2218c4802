//! What becomes of a call.

use mlu_ring::Additive;
use mlu_test_support::numbers::are;
use std::alloc::AllocError;

/// What became of a call that may be refused memory.
#[derive(Clone, Copy)]
pub enum Outcome {
    /// It was served, and all is as it is to be.
    Served,
    /// It was refused, and all is as it was.
    Refused,
    /// The answer is not right, or something changed that was to stay.
    Wrong,
}

/// The outcome of a call that answered whether its answer is right, and whether its inputs were
/// kept.
pub fn judge(answered: Result<bool, AllocError>, kept: bool) -> Outcome {
    match answered {
        Ok(true) if kept => Outcome::Served,
        Err(_) if kept => Outcome::Refused,
        _ => Outcome::Wrong,
    }
}

/// The outcome of a call that writes: the slice is to have the numbers `after` where it was served,
/// and else those that it had before.
pub fn written<R: Additive>(
    done: Result<(), AllocError>,
    out: &[R],
    after: &[i32],
    before: &[i32],
) -> Outcome {
    match done {
        Ok(()) => judge(Ok(true), are(out, after)),
        Err(refused) => judge(Err(refused), are(out, before)),
    }
}
