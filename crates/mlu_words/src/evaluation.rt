//! Values of tables at points.
ghost use Rattle.std.specs.Prelude.{◌≡◌, ◌^◌, length, IfOk};
ghost use Rattle.mlu_ring.specs.Tables.{value};
ghost use Rattle.mlu_words.specs.Calls.{Evaluates, embedded_value_at};
ghost use Rattle.mlu_words.specs.Operands.{EvaluationOperands};
ghost use Rattle.mlu_words.specs.Outcomes.{Tested};

use crate::fault::Fault;
use crate::operands::table_and_point;
use crate::sizes::{are_residues, are_whole, count_of, has_variables, is_one, is_table};
use crate::words::Words;
use mlu_point::point::Point;
use mlu_ring::{ExtensionField, Field};
use multilinear_util::poly::Poly;
use std::alloc::{AllocError, Global};

/// The entries that the weights of a point meet: that of the same vertex, or of the next one.
#[derive(Clone, Copy, Debug, PartialEq, Eq)]
pub enum Vertices {
    /// That of the same vertex.
    Own,
    /// That of the next one; the last vertex is its own next.
    Next,
}

/// Tests a table, a point and the room for an element.
fn check_operands<A: Words, B: Words>(
    table: &[u32],
    point: &[u32],
    out: &[u32],
) -> Result<(), Fault>
    ensures { Tested (EvaluationOperands A.coding B.coding table.now point.now out.now) result }
{
    if !is_table::<A>(table) || !are_whole::<B>(point) || !is_one::<B>(out) {
        return Err(Fault::Length);
    }
    if !has_variables(count_of::<A>(table), count_of::<B>(point)) {
        return Err(Fault::Arity);
    }
    if !are_residues(table) || !are_residues(point) {
        return Err(Fault::Residue);
    }
    Ok(())
}

/// The sum over the vertices of the weight at the point times the entry.
fn value<F: Field, EF: ExtensionField<F>>(
    alloc: Global,
    vertices: Vertices,
    table: &Poly<F>,
    point: &Point<EF>,
) -> Result<EF, AllocError>
    requires { length table.now ≡ 2 ^ length point.now }
    ensures { IfOk result (λ value. value ≡ embedded_value_at vertices EF.ring EF.embed table.now point.now) }
{
    match vertices {
        Vertices::Own => table.eval_base(alloc, point),
        Vertices::Next => table.eval_next_base(alloc, point),
    }
}

/// The value of a table over the base at a point of the extension, or the sum of the weight of each vertex
/// times the value at the next one.
pub fn eval_base<F: Field + Words, EF: ExtensionField<F> + Words>(
    alloc: Global,
    vertices: Vertices,
    table: &[u32],
    point: &[u32],
    out: &mut [u32],
) -> Result<(), Fault>
    ensures { Evaluates F.coding EF.coding (embedded_value_at vertices EF.ring EF.embed) table.now point.now out.old out.new result }
{
    check_operands::<F, EF>(table, point, out)?;
    let (table, point) = table_and_point::<F, EF>(alloc, table, point)?;
    let value = value::<F, EF>(alloc, vertices, &table, &point)?;
    value.put(out);
    Ok(())
}

/// The value of a table over the extension at a point.
pub fn eval_ext<F: Field, EF: ExtensionField<F> + Words>(
    alloc: Global,
    table: &[u32],
    point: &[u32],
    out: &mut [u32],
) -> Result<(), Fault>
    ensures { Evaluates EF.coding EF.coding (value EF.ring) table.now point.now out.old out.new result }
{
    check_operands::<EF, EF>(table, point, out)?;
    let (table, point) = table_and_point::<EF, EF>(alloc, table, point)?;
    let value = table.eval_ext::<F>(alloc, &point)?;
    value.put(out);
    Ok(())
}
