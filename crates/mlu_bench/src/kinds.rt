//! The calls of all kinds.
ghost use Rattle.std.specs.Prelude.{◌*◌, ◌<◌, ◌^◌};
ghost use Rattle.std.specs.Mem.{type_size};

use crate::batches::sum_of_batches;
use crate::calls::sum_of_calls;
use crate::case::{Case, Operands};
use crate::compressions::sum_of_compressions;
use crate::folds::FoldCalls;
use crate::in_place::sum_on_copies;
use crate::packed::{PackedCalls, packed_table};
use crate::rounds::{sum_of_proofs, sum_of_rounds};
use crate::sequences::SequenceCalls;
use crate::splits::sum_of_splits;
use crate::tables::TableCalls;
use crate::values::sum_of_values;
use mlu_ring::{Algebra, ExtensionField, Field, PackedFieldExtension, SelfAlgebra};
use std::alloc::{AllocError, Global};

/// The sum of an entry of what each of so many calls of a kind gives: of one ring (0 to 2 over the base, 3
/// to 5 over the extension), on packed elements (6, 7), folds of a table over the base at the extension
/// (8), values (9), compressions (10), sequences of folds (11), split tables (12), batches (13), and sumcheck,
/// the whole proof (14) and its parts (15).
pub fn sum_of_kind<F: ExtensionField<F>, EF: ExtensionField<F> + SelfAlgebra>(
    alloc: Global,
    case: Case<F, EF>,
    kind: u32,
    call: u32,
    rounds: usize,
) -> Result<EF, AllocError>
    requires round_fits { 3 * type_size EF.row < 2 ^ 63 }
{
    match kind {
        0..=8 => sum_of_tables(alloc, &case, kind, call, rounds),
        9 => sum_of_values(alloc, case, call, rounds),
        10..=13 => sum_of_points(alloc, &case, kind, call, rounds),
        14 => sum_of_proofs(alloc, &case, rounds),
        _ => sum_of_rounds(alloc, &case.ext, call, rounds),
    }
}

/// The sum of calls that make tables, fold them or pack them (0 to 8).
fn sum_of_tables<F: ExtensionField<F>, EF: ExtensionField<F> + Algebra<EF>>(
    alloc: Global,
    case: &Case<F, EF>,
    kind: u32,
    call: u32,
    rounds: usize,
) -> Result<EF, AllocError> {
    match kind {
        0..=2 => {
            let sum = sum_of_ring(alloc, &case.base, kind, call, rounds)?;
            Ok(EF::from_base(sum))
        }
        3..=5 => sum_of_ring(alloc, &case.ext, kind - 3, call, rounds),
        6 | 7 => sum_of_packed(alloc, case, kind, call, rounds),
        _ => {
            let (table, r) = (&case.base.table, case.ext.scale);
            sum_of_calls(alloc, FoldCalls { table, r }, call, rounds)
        }
    }
}

/// The sum of calls on a table and a point of one ring: equality tables (0), folds to a new table (1), and
/// in place (2).
fn sum_of_ring<R: Field + Algebra<R>>(
    alloc: Global,
    operands: &Operands<R>,
    kind: u32,
    call: u32,
    rounds: usize,
) -> Result<R, AllocError> {
    let (table, point, r) = (&operands.table, &operands.point, operands.scale);
    match kind {
        0 => sum_of_calls(alloc, TableCalls { point, r }, call, rounds),
        1 => sum_of_calls(alloc, FoldCalls { table, r }, call, rounds),
        _ => sum_on_copies(alloc, table, (point.as_slice(), r), call, rounds),
    }
}

/// The sum of calls on the packed table over the extension: packed tables (6), and folds in place (7).
fn sum_of_packed<F: Field, EF: ExtensionField<F>>(
    alloc: Global,
    case: &Case<F, EF>,
    kind: u32,
    call: u32,
    rounds: usize,
) -> Result<EF, AllocError> {
    let packed = packed_table::<F, EF>(alloc, &case.ext.table)?;
    if kind == 6 {
        let packed = &packed;
        return sum_of_calls(alloc, PackedCalls { case, packed }, call, rounds);
    }
    let at = (case.ext.point.as_slice(), case.ext.scale);
    let sum = sum_on_copies(alloc, &packed, at, call, rounds)?;
    Ok(sum.ext_lane(0))
}

/// The sum of calls on tables at the coordinates of points: compressions (10), sequences of folds (11), split
/// tables (12) and batches (13).
fn sum_of_points<F: Field, EF: ExtensionField<F> + Algebra<EF>>(
    alloc: Global,
    case: &Case<F, EF>,
    kind: u32,
    call: u32,
    rounds: usize,
) -> Result<EF, AllocError> {
    match kind {
        10 => sum_of_compressions(alloc, case, call, rounds),
        11 => sum_of_calls(alloc, SequenceCalls { case }, call, rounds),
        12 => sum_of_splits(alloc, case, call, rounds),
        _ => sum_of_batches(alloc, case, call, rounds),
    }
}
