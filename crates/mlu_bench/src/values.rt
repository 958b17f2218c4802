//! Values of a table at a point.

use crate::calls::{Calls, sum_of_calls};
use crate::case::{Case, is_table};
use crate::splits::split_table;
use mlu_ring::{ExtensionField, Field, PrimeCharacteristicRing};
use multilinear_util::point::Point;
use multilinear_util::poly::Poly;
use multilinear_util::split_eq::SplitEq;
use std::alloc::{AllocError, Global};

/// The value of a table over the base at a point of the base (0) and of the extension (1), by a packed
/// (2) and by an unpacked (3) split table, and with each weight moved to the next row (4); and of one
/// over the extension (5). The first entry of both tables grows by one with each call: some of the calls
/// neither write nor take memory, and on the same table one of them might be made for all.
#[derive(Drop)]
struct ValueCalls<'a, F: Field, EF: ExtensionField<F>> {
    case: Case<F, EF>,
    split: &'a SplitEq<F, EF>,
}

/// The sum of so many calls with this number, over a split table that is made once.
pub fn sum_of_values<F: ExtensionField<F>, EF: ExtensionField<F>>(
    alloc: Global,
    case: Case<F, EF>,
    call: u32,
    rounds: usize,
) -> Result<EF, AllocError> {
    let split = &split_table(alloc, &case.ext.point, EF::ONE, call != 3)?;
    sum_of_calls(alloc, ValueCalls { case, split }, call, rounds)
}

/// The value of the table at the point, or with each weight moved to the next row (4).
fn at_point<F: Field, EF: ExtensionField<F>>(
    alloc: Global,
    table: &Poly<F>,
    point: &Point<EF>,
    call: u32,
) -> Result<EF, AllocError> {
    if !is_table(table.num_evals(), point.num_variables()) {
        return Err(AllocError);
    }
    match call {
        4 => table.eval_next_base(alloc, point),
        _ => table.eval_base(alloc, point),
    }
}

/// The value of the table by the split table.
fn by_split<F: Field, EF: ExtensionField<F>>(
    table: &Poly<F>,
    split: &SplitEq<F, EF>,
) -> Result<EF, AllocError> {
    if table.num_variables() != split.num_variables() {
        return Err(AllocError);
    }
    Ok(split.eval_base(table.as_view()))
}

/// The value of the table over the extension at the point.
fn of_extension<F: Field, EF: ExtensionField<F>>(
    alloc: Global,
    table: &Poly<EF>,
    point: &Point<EF>,
) -> Result<EF, AllocError> {
    if !is_table(table.num_evals(), point.num_variables()) {
        return Err(AllocError);
    }
    table.eval_ext::<F>(alloc, point)
}

/// Adds one to the first of the values.
fn grow<R: PrimeCharacteristicRing>(values: &mut [R]) {
    if let Some(first) = values.first_mut() {
        *first = *first + R::ONE;
    }
}

/// The value that the call with this number gives.
fn value<F: ExtensionField<F>, EF: ExtensionField<F>>(
    alloc: Global,
    case: &Case<F, EF>,
    split: &SplitEq<F, EF>,
    call: u32,
) -> Result<EF, AllocError> {
    let (base, ext) = (&case.base, &case.ext);
    match call {
        0 => Ok(EF::from_base(at_point(alloc, &base.table, &base.point, call)?)),
        1 | 4 => at_point(alloc, &base.table, &ext.point, call),
        2 | 3 => by_split(&base.table, split),
        _ => of_extension::<F, EF>(alloc, &ext.table, &ext.point),
    }
}

impl<F: ExtensionField<F>, EF: ExtensionField<F>> Calls for ValueCalls<'_, F, EF> {
    type Entry = EF;

    fn answer(&mut self, alloc: Global, call: u32) -> Result<EF, AllocError> {
        let answer = value(alloc, &self.case, self.split, call);
        grow(self.case.base.table.as_mut_slice());
        grow(self.case.ext.table.as_mut_slice());
        answer
    }
}
