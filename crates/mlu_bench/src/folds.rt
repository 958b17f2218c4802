//! Folds of a table to a new one.

use crate::calls::Calls;
use crate::case::first_of;
use mlu_ring::{Additive, Algebra};
use multilinear_util::poly::Poly;
use std::alloc::{AllocError, Global};

/// The table with its first (0) or its last (1) variable at `r`.
#[derive(Drop)]
pub struct FoldCalls<'a, F: Additive, EF: Algebra<F>> {
    pub table: &'a Poly<F>,
    pub r: EF,
}

impl<F: Additive, EF: Algebra<F>> Calls for FoldCalls<'_, F, EF> {
    type Entry = EF;

    fn answer(&mut self, alloc: Global, call: u32) -> Result<EF, AllocError> {
        if self.table.num_evals() < 2 {
            return Err(AllocError);
        }
        first_of(match call {
            0 => self.table.fix_prefix_var(alloc, self.r),
            _ => self.table.fix_suffix_var(alloc, self.r),
        })
    }
}
