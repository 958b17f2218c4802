//! Calls on tables in a base field, with points and scales in its extension.
ghost use Rattle.std.specs.Prelude.{◌≡◌, ◌*◌, ◌<◌, ◌≤◌, ◌^◌, length};

use crate::element::Element;
use crate::lines::{list_word, packed_word, table_word, value_word, word};
use crate::ops::{batches, either};
use crate::sizes::test_lanes;
use crate::splits::{TableAndSplit, split_table};
use crate::words::Words;
use mlu_replay_lines::fault::{Fault, Reason};
use mlu_ring::{ExtensionField, Field, PackedValue, SelfAlgebra};
use multilinear_util::point::Point;
use multilinear_util::point::Successor::Wrap;
use multilinear_util::poly::Poly;
use std::alloc::{AllocError, Global};

/// The calls on polynomials; the others are handed on.
pub fn answer<F: Field + Element, EF: ExtensionField<F> + SelfAlgebra + Element>(
    op: &str,
    words: &mut Words<'_>,
) -> Result<String, Fault> {
    let alloc = words.alloc();
    match op {
        "eval_base" | "eval_next_base" | "eval_next_base.wrap" => {
            let (table, point) = words.table_and_point::<F, EF>()?;
            value_word(alloc, value(alloc, op, &table, &point))
        }
        "compress_prefix" | "compress_suffix" => {
            let (table, point, scale) = words.table_part_and_scale::<F, EF>()?;
            table_word(alloc, compressed(alloc, op, &table, &point, scale))
        }
        "compress_prefix_to_packed" => compress_prefix_to_packed::<F, EF>(words),
        "fix_prefix_var_to_packed" => fix_prefix_var_to_packed::<F, EF>(words),
        "eq_base_batch" => batches::eq_base_batch::<F, EF>(words),
        _ => of_split::<F, EF>(op, words),
    }
}

/// The value at the point, or that of the next rows.
fn value<F: Field, EF: ExtensionField<F>>(
    alloc: Global,
    op: &str,
    table: &Poly<F>,
    point: &Point<EF>,
) -> Result<EF, AllocError>
    requires { length table.now ≡ 2 ^ length point.now }
{
    match op {
        "eval_base" => table.eval_base(alloc, point),
        "eval_next_base" => table.eval_next_base(alloc, point),
        _ => table.eval_next_base_by(alloc, Wrap, point),
    }
}

/// The table with its first or its last variables at the point, times the scale.
fn compressed<F: Field, EF: ExtensionField<F>>(
    alloc: Global,
    op: &str,
    table: &Poly<F>,
    point: &Point<EF>,
    scale: EF,
) -> Result<Poly<EF>, AllocError>
    requires { 2 ^ length point.now ≤ length table.now }
{
    match op {
        "compress_prefix" => table.compress_prefix(alloc, point, scale),
        _ => table.compress_suffix(alloc, point, scale),
    }
}

/// The calls of split tables; the others are handed on.
fn of_split<F: Field + Element, EF: ExtensionField<F> + SelfAlgebra + Element>(
    op: &str,
    words: &mut Words<'_>,
) -> Result<String, Fault> {
    let alloc = words.alloc();
    match op {
        "split.eval_base" | "split.eval_next_base" | "split.eval_next_base.wrap" => {
            let operands = words.table_and_split::<F, EF>()?;
            value_by_split::<F, EF>(alloc, op, &operands)
        }
        "split.compress_prefix"
        | "split.compress_suffix"
        | "split.compress_prefix_shifted"
        | "split.compress_suffix_shifted" => {
            let operands = words.table_and_smaller_split::<F, EF>()?;
            compressed_by_split::<F, EF>(alloc, op, &operands)
        }
        "split.compress_prefix_split" | "split.compress_prefix_shifted_split" => {
            compressed_in_parts::<F, EF>(op, words)
        }
        "split.compress_prefix_to_packed" => split_compress_prefix_to_packed::<F, EF>(words),
        "split.compress_suffix_into" => split_compress_suffix_into::<F, EF>(words),
        _ => either::answer::<F, EF>(op, words),
    }
}

/// The value by the split table, or that of the next rows.
fn value_by_split<F: Field, EF: ExtensionField<F> + Element>(
    alloc: Global,
    op: &str,
    operands: &TableAndSplit<F, EF>,
) -> Result<String, Fault>
    requires fits { 2 ^ length operands.now.split.point < 2 ^ 64 }
    requires size { length operands.now.table ≡ 2 ^ length operands.now.split.point }
{
    let split = split_table::<F, EF>(alloc, &operands.split)?;
    let view = operands.table.as_view();
    let value = match op {
        "split.eval_base" => split.eval_base(view),
        "split.eval_next_base" => split.eval_next_base(view),
        _ => split.eval_next_base_by(Wrap, view),
    };
    word(alloc, value)
}

/// The table compressed by the split table, or by the split table moved by one place.
fn compressed_by_split<F: Field, EF: ExtensionField<F> + Element>(
    alloc: Global,
    op: &str,
    operands: &TableAndSplit<F, EF>,
) -> Result<String, Fault>
    requires fits { 2 ^ length operands.now.split.point < 2 ^ 64 }
    requires size { 2 ^ length operands.now.split.point ≤ length operands.now.table }
{
    let split = split_table::<F, EF>(alloc, &operands.split)?;
    let view = operands.table.as_view();
    let compressed = match op {
        "split.compress_prefix" => split.compress_prefix(alloc, view),
        "split.compress_suffix" => split.compress_suffix(alloc, view),
        "split.compress_prefix_shifted" => split.compress_prefix_shifted(alloc, view),
        _ => split.compress_suffix_shifted(alloc, view),
    };
    table_word(alloc, compressed)
}

/// `split.compress_prefix_split`, `split.compress_prefix_shifted_split`: the number of parts, the storage,
/// a table, a point and a scale.
fn compressed_in_parts<F: Field + Element, EF: ExtensionField<F> + Element>(
    op: &str,
    words: &mut Words<'_>,
) -> Result<String, Fault> {
    let (parts, operands) = words.parts_and_smaller_split::<F, EF>()?;
    compressed_by_parts::<F, EF>(words.alloc(), op, parts, &operands)
}

/// The table compressed by so many parts of the split table, or of the split table moved by one place.
fn compressed_by_parts<F: Field, EF: ExtensionField<F> + Element>(
    alloc: Global,
    op: &str,
    parts: usize,
    operands: &TableAndSplit<F, EF>,
) -> Result<String, Fault>
    requires parts { 0 < parts }
    requires fits { 2 ^ length operands.now.split.point < 2 ^ 64 }
    requires size { 2 ^ length operands.now.split.point ≤ length operands.now.table }
{
    let split = split_table::<F, EF>(alloc, &operands.split)?;
    let view = operands.table.as_view();
    let compressed = match op {
        "split.compress_prefix_split" => split.compress_prefix_split(alloc, view, parts),
        _ => split.compress_prefix_shifted_split(alloc, view, parts),
    };
    table_word(alloc, compressed)
}

/// `fix_prefix_var_to_packed`: a table and an element.
fn fix_prefix_var_to_packed<F: Field + Element, EF: ExtensionField<F> + Element>(
    words: &mut Words<'_>,
) -> Result<String, Fault> {
    let (table, r) = words.table_and_element::<F, EF>()?;
    if table.num_evals() <= <F::Packing as PackedValue>::WIDTH {
        return Err(Fault::Unknown(Reason::Size));
    }
    let folded = table.fix_prefix_var_to_packed(words.alloc(), r);
    packed_word::<F, EF>(words.alloc(), folded)
}

/// `compress_prefix_to_packed`: a table, a point and a scale.
fn compress_prefix_to_packed<F: Field + Element, EF: ExtensionField<F> + Element>(
    words: &mut Words<'_>,
) -> Result<String, Fault> {
    let (table, point, scale) = words.table_part_and_scale::<F, EF>()?;
    test_lanes::<F>(table.num_variables(), point.num_variables())?;
    let compressed = table.compress_prefix_to_packed(words.alloc(), &point, scale);
    packed_word::<F, EF>(words.alloc(), compressed)
}

/// `split.compress_prefix_to_packed`: the storage, a table, a point and a scale.
fn split_compress_prefix_to_packed<F: Field + Element, EF: ExtensionField<F> + Element>(
    words: &mut Words<'_>,
) -> Result<String, Fault> {
    let operands = words.table_and_any_split::<F, EF>()?;
    test_lanes::<F>(
        operands.table.num_variables(),
        operands.split.point.num_variables(),
    )?;
    compressed_to_packed::<F, EF>(words.alloc(), &operands)
}

/// The table compressed by the split table, in packed form.
fn compressed_to_packed<F: Field, EF: ExtensionField<F> + Element>(
    alloc: Global,
    operands: &TableAndSplit<F, EF>,
) -> Result<String, Fault>
    requires fits { 2 ^ length operands.now.split.point < 2 ^ 64 }
    requires size { 2 ^ length operands.now.split.point * F.Packing.WIDTH ≤ length operands.now.table }
{
    let split = split_table::<F, EF>(alloc, &operands.split)?;
    let compressed = split.compress_prefix_to_packed(alloc, operands.table.as_view());
    packed_word::<F, EF>(alloc, compressed)
}

/// `split.compress_suffix_into`: the storage, the output, a table, a point and a scale.
fn split_compress_suffix_into<F: Field + Element, EF: ExtensionField<F> + Element>(
    words: &mut Words<'_>,
) -> Result<String, Fault> {
    let (mut out, operands) = words.output_and_split::<F, EF>()?;
    compress_suffix_into::<F, EF>(words.alloc(), &mut out, &operands)
}

/// The table compressed by the split table, in the place of the output.
fn compress_suffix_into<F: Field, EF: ExtensionField<F> + Element>(
    alloc: Global,
    out: &mut Poly<EF>,
    operands: &TableAndSplit<F, EF>,
) -> Result<String, Fault>
    requires fits { 2 ^ length operands.now.split.point < 2 ^ 64 }
    requires size { length operands.now.table ≡ length out.old * 2 ^ length operands.now.split.point }
{
    let split = split_table::<F, EF>(alloc, &operands.split)?;
    split.compress_suffix_into(out.as_mut_slice(), operands.table.as_view());
    list_word(alloc, out.as_slice())
}
