//! Batches of equality tables.
ghost use Rattle.std.specs.Prelude.{◌≡◌, ◌<◌, ◌/◌, ◌^◌, IsTrue};
ghost use Rattle.mlu_ring.specs.Matrices.{AreRows};

use crate::calls::{Calls, sum_of_calls};
use crate::case::{Case, first, is_table};
use mlu_ring::{ExtensionField, Field, PrimeCharacteristicRing, RowMajorMatrixView};
use multilinear_util::eq_batch::{eval_eq_base_batch, eval_eq_batch};
use std::alloc::{AllocError, Global};

/// The sum of the tables of all points, each times its scalar, at points of the extension (0) or of the
/// base (1).
#[derive(Drop)]
struct BatchCalls<'a, F, EF> {
    case: &'a Case<F, EF>,
    out: Vec<EF>,
}

/// The sum of so many calls with this number, into a table that is made once.
pub fn sum_of_batches<F: Field, EF: ExtensionField<F>>(
    alloc: Global,
    case: &Case<F, EF>,
    call: u32,
    rounds: usize,
) -> Result<EF, AllocError> {
    let out = EF::zero_vec(alloc, case.ext.table.num_evals())?;
    sum_of_calls(alloc, BatchCalls { case, out }, call, rounds)
}

/// Whether so many values are the coordinates of so many points, and so many entries their table.
fn is_batch(values: usize, points: usize, entries: usize) -> bool
    ensures rows { IsTrue result → AreRows values points }
    ensures table { IsTrue result → 0 < points → entries ≡ 2 ^ (values / points) }
{
    if points == 0 || values % points != 0 {
        return false;
    }
    is_table(entries, values / points)
}

/// Writes the sum of the tables at points of the extension (0) or of the base (1).
fn write_batch<F: Field, EF: ExtensionField<F>>(
    alloc: Global,
    case: &Case<F, EF>,
    out: &mut [EF],
    call: u32,
) -> Result<(), AllocError> {
    let (base, ext) = (case.base.columns.as_slice(), case.ext.columns.as_slice());
    let scalars = case.scalars.as_slice();
    let (points, entries) = (scalars.len(), out.len());
    if !is_batch(ext.len(), points, entries) || !is_batch(base.len(), points, entries) {
        return Err(AllocError);
    }
    if call == 0 {
        let values = RowMajorMatrixView::new(ext, points);
        return eval_eq_batch::<F, EF, false>(alloc, values, out, scalars);
    }
    let values = RowMajorMatrixView::new(base, points);
    eval_eq_base_batch::<F, EF, false>(alloc, values, out, scalars)
}

impl<F: Field, EF: ExtensionField<F>> Calls for BatchCalls<'_, F, EF> {
    type Entry = EF;

    fn answer(&mut self, alloc: Global, call: u32) -> Result<EF, AllocError> {
        write_batch(alloc, self.case, self.out.as_mut_slice(), call)?;
        Ok(first(self.out.as_slice()))
    }
}
