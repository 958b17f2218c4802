//! Calls of one kind, made again and again.

use mlu_ring::Additive;
use std::alloc::{AllocError, Global};

/// Calls of one kind, by their numbers.
pub trait Calls {
    /// An entry of what a call gives.
    type Entry: Additive;

    /// An entry of what the call with this number gives.
    fn answer(&mut self, alloc: Global, call: u32) -> Result<Self::Entry, AllocError>;
}

/// The sum of the answers of so many calls with this number.
pub fn sum_of_calls<C: Calls + Drop>(
    alloc: Global,
    mut calls: C,
    call: u32,
    rounds: usize,
) -> Result<C::Entry, AllocError> {
    let mut sum = C::Entry::ZERO;
    for _ in 0..rounds {
        sum = sum + calls.answer(alloc, call)?;
    }
    Ok(sum)
}
