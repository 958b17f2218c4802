//! Tables compressed at a point, which stands for their first or their last variables.
ghost use Rattle.std.specs.Prelude.{◌≡◌, ◌^◌, ◌≤◌, length, IfOk};
ghost use Rattle.mlu_words.specs.Calls.{Compresses, embedded_compressed};
ghost use Rattle.mlu_words.specs.Operands.{CompressionOperands};
ghost use Rattle.mlu_words.specs.Outcomes.{Tested};

use crate::fault::Fault;
use crate::operands::{Variables, table_and_point};
use crate::sizes::{are_residues, are_whole, count_of, has_rows, is_one, is_table};
use crate::words::{Words, write};
use mlu_point::point::Point;
use mlu_ring::{ExtensionField, Field};
use multilinear_util::poly::Poly;
use std::alloc::{AllocError, Global};

/// Tests a table, a point, a scale and the room for the table that is left.
fn check_operands<A: Words, B: Words>(
    table: &[u32],
    point: &[u32],
    scale: &[u32],
    out: &[u32],
) -> Result<(), Fault>
    ensures { Tested (CompressionOperands A.coding B.coding table.now point.now scale.now out.now) result }
{
    if !is_table::<A>(table)
        || !are_whole::<B>(point)
        || !is_one::<B>(scale)
        || !is_table::<B>(out)
    {
        return Err(Fault::Length);
    }
    if !has_rows(
        count_of::<A>(table),
        count_of::<B>(point),
        count_of::<B>(out),
    ) {
        return Err(Fault::Arity);
    }
    if !are_residues(table) || !are_residues(point) || !are_residues(scale) {
        return Err(Fault::Residue);
    }
    Ok(())
}

/// The table with these variables at a point, times a scale. Asks for an entry or more for each weight.
fn compressed<F: Field, EF: ExtensionField<F>>(
    alloc: Global,
    variables: Variables,
    table: &Poly<F>,
    point: &Point<EF>,
    scale: EF,
) -> Result<Poly<EF>, AllocError>
    requires { 2 ^ length point.now ≤ length table.now }
    ensures { IfOk result (λ left. left ≡ embedded_compressed variables EF.ring EF.embed table.now point.now scale) }
{
    match variables {
        Variables::First => table.compress_prefix(alloc, point, scale),
        Variables::Last => table.compress_suffix(alloc, point, scale),
    }
}

/// A table over the base with its first or its last variables at a point, times a scale.
pub fn compress<F: Field + Words, EF: ExtensionField<F> + Words>(
    alloc: Global,
    variables: Variables,
    table: &[u32],
    point: &[u32],
    scale: &[u32],
    out: &mut [u32],
) -> Result<(), Fault>
    ensures { Compresses F.coding EF.coding (embedded_compressed variables EF.ring EF.embed) table.now point.now scale.now out.old out.new result }
{
    check_operands::<F, EF>(table, point, scale, out)?;
    let (table, point) = table_and_point::<F, EF>(alloc, table, point)?;
    let left = compressed::<F, EF>(alloc, variables, &table, &point, EF::from_words(scale))?;
    write(left.as_slice(), out);
    Ok(())
}
