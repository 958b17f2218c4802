//! Folds of a table in place, each on a copy.

use crate::case::first;
use mlu_ring::{Additive, Algebra};
use multilinear_util::poly::Poly;
use std::alloc::{AllocError, Global};

/// Folds the first variable at each of the challenges in turn, as long as there is one.
pub fn fold_in_turn<F: Algebra<R>, R: Additive>(table: &mut Poly<F>, challenges: &[R]) {
    for r in challenges.iter() {
        if table.num_evals() < 2 {
            return;
        }
        table.fix_prefix_var_mut(*r);
    }
}

/// The first value of the table with its first (0) or its last (1) variable at `r`, with its first as
/// coefficients (2), with its first variables at the challenges, one after the other (3), or as it is (4).
fn folded<F: Algebra<R>, R: Additive>(
    mut table: Poly<F>,
    challenges: &[R],
    r: R,
    call: u32,
) -> Result<F, AllocError> {
    if table.num_evals() < 2 {
        return Err(AllocError);
    }
    match call {
        0 => table.fix_prefix_var_mut(r),
        1 => table.fix_suffix_var_mut(r),
        2 => table.fix_prefix_var_mut_monomial(r),
        3 => fold_in_turn(&mut table, challenges),
        _ => {}
    }
    Ok(first(table.as_slice()))
}

/// The sum of what the call gives on each of the copies.
fn sum_of_folds<F: Algebra<R>, R: Additive>(
    copies: Vec<Poly<F>>,
    challenges: &[R],
    r: R,
    call: u32,
) -> Result<F, AllocError> {
    let mut sum = F::ZERO;
    for copy in copies {
        sum = sum + folded(copy, challenges, r, call)?;
    }
    Ok(sum)
}

/// So many copies of the table.
fn copies<F: Copy>(
    alloc: Global,
    table: &Poly<F>,
    count: usize,
) -> Result<Vec<Poly<F>>, AllocError> {
    let mut copies = Vec::new(alloc);
    for _ in 0..count {
        copies.push(table.try_clone(alloc)?)?;
    }
    Ok(copies)
}

/// The sum of what so many calls give, each on a copy of the table. A run of copies, of 2^14 elements or
/// of one copy, is made before its folds, as in the Rust crate's benchmark, and kept until then, so that
/// copies alone (4) are made too.
pub fn sum_on_copies<F: Algebra<R>, R: Additive>(
    alloc: Global,
    table: &Poly<F>,
    (challenges, r): (&[R], R),
    call: u32,
    rounds: usize,
) -> Result<F, AllocError> {
    let log_run = 14_usize.saturating_sub(challenges.len());
    let runs = rounds >> log_run;
    let mut sum = F::ZERO;
    for _ in 0..runs {
        let made = copies(alloc, table, 1 << log_run)?;
        sum = sum + sum_of_folds(made, challenges, r, call)?;
    }
    let left = rounds.saturating_sub(runs << log_run);
    let made = copies(alloc, table, left)?;
    Ok(sum + sum_of_folds(made, challenges, r, call)?)
}
