//! All folds of a table over the base, of which the first goes to the extension.

use crate::calls::Calls;
use crate::case::{Case, first, first_lane};
use crate::in_place::fold_in_turn;
use crate::packed::packed_fold;
use mlu_ring::{Additive, Algebra, ExtensionField, Field};
use multilinear_util::poly::Poly;
use std::alloc::{AllocError, Global};

/// The folds at each coordinate of the point, to elements (0), or to packed elements until one of them is
/// left (1).
#[derive(Drop)]
pub struct SequenceCalls<'a, F, EF> {
    pub case: &'a Case<F, EF>,
}

/// An entry of what is left of the table at `r` and then at the other coordinates.
fn to_elements<F: Additive, EF: Algebra<F> + Algebra<EF>>(
    alloc: Global,
    table: &Poly<F>,
    r: EF,
    others: &[EF],
) -> Result<EF, AllocError> {
    if table.num_evals() < 2 {
        return Err(AllocError);
    }
    let mut table = table.fix_prefix_var(alloc, r)?;
    fold_in_turn(&mut table, others);
    Ok(first(table.as_slice()))
}

/// The same of the packed table.
fn to_packed<F: Field, EF: ExtensionField<F>>(
    alloc: Global,
    table: &Poly<F>,
    r: EF,
    others: &[EF],
) -> Result<EF, AllocError> {
    let mut table = packed_fold::<F, EF>(alloc, table, r)?;
    fold_in_turn(&mut table, others);
    Ok(first_lane::<F, EF>(table.as_slice()))
}

impl<F: Field, EF: ExtensionField<F> + Algebra<EF>> Calls for SequenceCalls<'_, F, EF> {
    type Entry = EF;

    fn answer(&mut self, alloc: Global, call: u32) -> Result<EF, AllocError> {
        let Some((r, others)) = self.case.ext.point.as_slice().split_first() else {
            return Err(AllocError);
        };
        match call {
            0 => to_elements(alloc, &self.case.base.table, *r, others),
            _ => to_packed(alloc, &self.case.base.table, *r, others),
        }
    }
}
