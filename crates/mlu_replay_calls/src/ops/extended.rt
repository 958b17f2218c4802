//! Calls on operands in an extension, over the packed form that its base field gives.
ghost use Rattle.std.specs.Prelude.{◌≡◌, ◌<◌, ◌^◌, length, IfOk};
ghost use Rattle.multilinear_util.specs.Split.{split_entries};
ghost use Rattle.multilinear_util.specs.Storage.{scalars};

use crate::element::Element;
use crate::lines::{list_word, packed_word, table_word, value_word, word};
use crate::ops::{batches, one_ring};
use crate::sizes::pack;
use crate::splits::{SplitOperands, TableAndSplit, split_table};
use crate::words::Words;
use mlu_eq::EqMaybePacked;
use mlu_replay_lines::fault::{Fault, Reason};
use mlu_ring::{ExtensionField, Field, PackedValue};
use multilinear_util::point::Point;
use multilinear_util::poly::{Poly, PolyMaybePacked};
use multilinear_util::split_eq::SplitEq;
use std::alloc::{AllocError, Global};

/// The calls on polynomials; the others are handed on.
pub fn answer<F: Field + Element, EF: ExtensionField<F> + Element>(
    op: &str,
    words: &mut Words<'_>,
) -> Result<String, Fault> {
    let alloc = words.alloc();
    match op {
        "eval_ext" | "eval_packed" => {
            let (table, point) = words.table_and_point::<EF, EF>()?;
            evaluated::<F, EF>(alloc, op, &table, &point)
        }
        "pack_unpack" => {
            let table = words.table::<EF>()?;
            let packed = pack::<F, EF>(alloc, &table)?;
            table_word(alloc, packed.unpack::<F, EF>(alloc))
        }
        "maybe_packed.eval" => maybe_packed_eval::<F, EF>(words),
        "new_packed_from_point" => new_packed_from_point::<F, EF>(words),
        "fix_prefix_var_mut.base" => one_ring::fix_prefix_var_mut::<F, EF>(words),
        "eq_batch" => batches::eq_batch::<F, EF>(words),
        "eq_batch_in_chunks" => batches::eq_batch_in_chunks::<F, EF>(words),
        _ => of_split::<F, EF>(op, words),
    }
}

/// The value at the point, of scalars or of lanes.
fn evaluated<F: Field, EF: ExtensionField<F> + Element>(
    alloc: Global,
    op: &str,
    table: &Poly<EF>,
    point: &Point<EF>,
) -> Result<String, Fault>
    requires { length table.now ≡ 2 ^ length point.now }
{
    if op == "eval_ext" {
        return value_word(alloc, table.eval_ext::<F>(alloc, point));
    }
    let packed = pack::<F, EF>(alloc, table)?;
    value_word(alloc, packed.eval_packed::<F, EF>(alloc, point))
}

/// `maybe_packed.eval`: the storage, a table and a point.
fn maybe_packed_eval<F: Field, EF: ExtensionField<F> + Element>(
    words: &mut Words<'_>,
) -> Result<String, Fault> {
    let is_packed = words.is_packed()?;
    let (table, point) = words.table_and_point::<EF, EF>()?;
    let stored = stored::<F, EF>(words.alloc(), table, is_packed)?;
    value_word(words.alloc(), stored.eval(words.alloc(), &point))
}

/// The table in the storage.
fn stored<F: Field, EF: ExtensionField<F>>(
    alloc: Global,
    table: Poly<EF>,
    is_packed: bool,
) -> Result<PolyMaybePacked<F, EF>, Fault>
    ensures { IfOk result (λ stored. scalars EF.ExtensionPacking.ext_lanes stored ≡ table) }
{
    if is_packed {
        Ok(PolyMaybePacked::Packed(pack::<F, EF>(alloc, &table)?))
    } else {
        Ok(PolyMaybePacked::Scalar(table))
    }
}

/// `new_packed_from_point`: a point and a scale.
fn new_packed_from_point<F: Field, EF: ExtensionField<F> + Element>(
    words: &mut Words<'_>,
) -> Result<String, Fault> {
    let point = words.short_point::<EF>()?;
    let scale = words.element::<EF>()?;
    if point.num_variables() < <F::Packing as PackedValue>::LOG_WIDTH {
        return Err(Fault::Unknown(Reason::Size));
    }
    let packed = Poly::new_packed_from_point::<F, EF>(words.alloc(), point.as_slice(), scale);
    packed_word::<F, EF>(words.alloc(), packed)
}

/// The calls that read a split table; the others are handed on.
fn of_split<F: Field, EF: ExtensionField<F> + Element>(
    op: &str,
    words: &mut Words<'_>,
) -> Result<String, Fault> {
    let alloc = words.alloc();
    match op {
        "split.eval_ext" | "split.eval_packed" => {
            let operands = words.table_and_split::<EF, EF>()?;
            by_split::<F, EF>(alloc, op, &operands)
        }
        "split.materialize" | "split.eq0" | "split.last_scalar" => {
            let operands = words.stored_split::<EF>()?;
            entries_of::<F, EF>(alloc, op, &operands)
        }
        "split.eq1_last_scalar" => {
            let operands = words.stored_unscaled_split::<EF>()?;
            entries_of::<F, EF>(alloc, op, &operands)
        }
        _ => accumulated::<F, EF>(op, words),
    }
}

/// The value by the split table, of scalars or of lanes.
fn by_split<F: Field, EF: ExtensionField<F> + Element>(
    alloc: Global,
    op: &str,
    operands: &TableAndSplit<EF, EF>,
) -> Result<String, Fault>
    requires fits { 2 ^ length operands.now.split.point < 2 ^ 64 }
    requires size { length operands.now.table ≡ 2 ^ length operands.now.split.point }
{
    let split = split_table::<F, EF>(alloc, &operands.split)?;
    match op {
        "split.eval_ext" => word(alloc, split.eval_ext(operands.table.as_view())),
        _ => packed_value::<F, EF>(alloc, &operands.table, &split),
    }
}

/// The value of the packed table by the split table.
fn packed_value<F: Field, EF: ExtensionField<F> + Element>(
    alloc: Global,
    table: &Poly<EF>,
    split: &SplitEq<F, EF>,
) -> Result<String, Fault>
    requires { length table.now ≡ length (split_entries EF.ring split.now) }
{
    let packed = pack::<F, EF>(alloc, table)?;
    value_word(alloc, split.eval_packed(alloc, packed.as_view()))
}

/// All entries of the split table, those of its first half, or the last one of it or of its second half.
fn entries_of<F: Field, EF: ExtensionField<F> + Element>(
    alloc: Global,
    op: &str,
    operands: &SplitOperands<EF>,
) -> Result<String, Fault>
    requires { 2 ^ length operands.now.point < 2 ^ 64 }
{
    let split = split_table::<F, EF>(alloc, operands)?;
    match op {
        "split.materialize" => table_word(alloc, split.materialize(alloc)),
        "split.eq0" => list_word(alloc, split.eq0().as_slice()),
        "split.eq1_last_scalar" => word(alloc, split.eq1().last_scalar()),
        _ => word(alloc, split.last_scalar()),
    }
}

/// The calls that add a split table, or the step to the next row of its second half, to an output.
fn accumulated<F: Field, EF: ExtensionField<F> + Element>(
    op: &str,
    words: &mut Words<'_>,
) -> Result<String, Fault> {
    let alloc = words.alloc();
    match op {
        "split.accumulate_into" | "split.accumulate_into_packed" => {
            let (mut out, scale) = words.output_and_scale::<EF>()?;
            accumulate::<F, EF>(alloc, op, &mut out, scale)
        }
        "split.accumulate_next_chunk_into" => {
            let (mut out, factors) = words.output_and_factors::<EF>()?;
            accumulate_next_chunk_into::<F, EF>(alloc, &mut out, factors)
        }
        _ => Err(Fault::Unknown(Reason::Op)),
    }
}

/// The output with the split table added, as scalars or packed.
fn accumulate<F: Field, EF: ExtensionField<F> + Element>(
    alloc: Global,
    op: &str,
    out: &mut TableAndSplit<EF, EF>,
    scale: Option<EF>,
) -> Result<String, Fault>
    requires fits { 2 ^ length out.old.split.point < 2 ^ 64 }
    requires size { length out.old.table ≡ 2 ^ length out.old.split.point }
{
    let split = split_table::<F, EF>(alloc, &out.split)?;
    match op {
        "split.accumulate_into" => sums::<F, EF>(alloc, &mut out.table, &split, scale),
        _ => packed_sums::<F, EF>(alloc, &out.table, &split, scale),
    }
}

/// The table with the split table added.
fn sums<F: Field, EF: ExtensionField<F> + Element>(
    alloc: Global,
    table: &mut Poly<EF>,
    split: &SplitEq<F, EF>,
    scale: Option<EF>,
) -> Result<String, Fault>
    requires { length table.old ≡ length (split_entries EF.ring split.now) }
{
    split.accumulate_into(table.as_mut_slice(), scale);
    list_word(alloc, table.as_slice())
}

/// The packed table with the split table added.
fn packed_sums<F: Field, EF: ExtensionField<F> + Element>(
    alloc: Global,
    table: &Poly<EF>,
    split: &SplitEq<F, EF>,
    scale: Option<EF>,
) -> Result<String, Fault>
    requires { length table.now ≡ length (split_entries EF.ring split.now) }
{
    let mut packed = pack::<F, EF>(alloc, table)?;
    split.accumulate_into_packed(alloc, packed.as_mut_slice(), scale)?;
    table_word(alloc, packed.unpack::<F, EF>(alloc))
}

/// The output with the step to the next row of the second half of the split table added.
fn accumulate_next_chunk_into<F: Field, EF: ExtensionField<F> + Element>(
    alloc: Global,
    out: &mut TableAndSplit<EF, EF>,
    factors: (EF, EF, EF),
) -> Result<String, Fault>
    requires { 2 ^ length out.old.split.point < 2 ^ 64 }
{
    let split = split_table::<F, EF>(alloc, &out.split)?;
    add_next_chunk::<F, EF>(alloc, &mut out.table, split.eq1(), factors)
}

/// Adds the step to the next row, by the two weights and the boundary, to as many places as the half has weights.
fn add_next_chunk<F: Field, EF: ExtensionField<F> + Element>(
    alloc: Global,
    out: &mut Poly<EF>,
    eq1: &EqMaybePacked<F, EF>,
    (eq_weight, shifted_weight, boundary): (EF, EF, EF),
) -> Result<String, Fault> {
    if out.num_variables() != eq1.num_variables() {
        return Err(Fault::Unknown(Reason::Size));
    }
    eq1.accumulate_next_chunk_into(out.as_mut_slice(), eq_weight, shifted_weight, boundary);
    list_word(alloc, out.as_slice())
}
