//! The calls over the integers modulo 2013265921 and their extension of degree four.
//!
//! Few functions name the rings, as all that these stand on is proved anew at each such name. What a call asks of
//! its words is tested, by the definition that its clause names, and what it answers where they do not fit is the
//! first [`Fault`]; the outputs are then as before. Elements of the extension are four words each.
ghost use Rattle.mlu_ring.specs.Tables.{value};
ghost use Rattle.mlu_words.specs.Calls.{embedded_compressed, embedded_value_at, folded, scaled_weights};
ghost use Rattle.mlu_words.specs.Exports.{BatchesExtension, CompressesBase, EvaluatesBase, EvaluatesExtension};
ghost use Rattle.mlu_words.specs.Exports.{FoldsExtension, GivesExtension, ProvesExtension, TabulatesExtension, VerifiesExtension};

use crate::calls::{self, Call};
use crate::evaluation::Vertices;
use crate::fault::Fault;
use crate::operands::Variables;
use crate::{folds, sumcheck, tables};
use mlu_ext::QuarticExtension;
use mlu_lanes::BabyBear;
use mlu_point::point::BitOrder;
use std::alloc::Global;

type Element = BabyBear<8>;

type Extension = QuarticExtension<Element>;

/// [`calls::make`] over the base field and the extension.
fn make(
    alloc: Global,
    call: Call,
    first: &[u32],
    second: &[u32],
    third: &[u32],
    out: &mut [u32],
) -> Result<(), Fault>
    ensures { GivesExtension call first.now second.now third.now out.old out.new result }
{
    calls::make::<Element, Extension>(alloc, call, first, second, third, out)
}

/// The value of a table over the base field at a point of the extension, or the sum of the weight at the point
/// of each vertex times the value at the next one: 2^n words, a point of n elements, one element.
pub fn eval_base(
    alloc: Global,
    vertices: Vertices,
    table: &[u32],
    point: &[u32],
    out: &mut [u32],
) -> Result<(), Fault>
    ensures { EvaluatesBase (embedded_value_at vertices) table.now point.now out.old out.new result }
{
    make(alloc, Call::EvalBase(vertices), table, point, &[], out)
}

/// The value of a table over the extension at a point: 2^n elements, n elements, one element.
pub fn eval_ext(alloc: Global, table: &[u32], point: &[u32], out: &mut [u32]) -> Result<(), Fault>
    ensures { EvaluatesExtension value table.now point.now out.old out.new result }
{
    make(alloc, Call::EvalExt, table, point, &[], out)
}

/// The weights of all vertices at a point of the extension of n elements, in the order, each times a scale: 2^n
/// elements.
pub fn equality_weights(
    alloc: Global,
    order: BitOrder,
    point: &[u32],
    scale: &[u32],
    out: &mut [u32],
) -> Result<(), Fault>
    ensures { TabulatesExtension (scaled_weights order) point.now scale.now out.old out.new result }
{
    tables::equality_weights::<Extension>(alloc, order, point, scale, out)
}

/// The sum of the equality tables of points, each times a scalar, written to the output or added to it, all of
/// the extension. Each column of the values is a point, for each scalar one, and each of the n rows a variable;
/// the output has 2^n elements.
pub fn eval_eq_batch(
    alloc: Global,
    adds: bool,
    values: &[u32],
    scalars: &[u32],
    out: &mut [u32],
) -> Result<(), Fault>
    ensures { BatchesExtension adds values.now scalars.now out.old out.new result }
{
    make(alloc, Call::EvalEqBatch(adds), values, scalars, &[], out)
}

/// A table over the extension with its first or its last variable at `r`, in the first half of its words. The
/// other half is as before. Asks for at least one variable.
pub fn fix_var_mut(
    alloc: Global,
    variable: Variables,
    table: &mut [u32],
    r: &[u32],
) -> Result<(), Fault>
    ensures { FoldsExtension (folded variable) r.now table.old table.new result }
{
    folds::fix_var_mut::<Extension>(alloc, variable, table, r)
}

/// A table over the base field with its first or its last variables at a point of the extension, times a scale:
/// 2^n words, k elements, 2^(n - k) elements.
pub fn compress(
    alloc: Global,
    variables: Variables,
    table: &[u32],
    point: &[u32],
    scale: &[u32],
    out: &mut [u32],
) -> Result<(), Fault>
    ensures { CompressesBase (embedded_compressed variables) table.now point.now scale.now out.old out.new result }
{
    make(alloc, Call::Compress(variables), table, point, scale, out)
}

/// The rounds of sumcheck over a table of the extension and the weights of a point, at challenges,
/// and the claims: three elements for each round, and one claim more than rounds.
pub fn sumcheck_run(
    alloc: Global,
    table: &[u32],
    point: &[u32],
    challenges: &[u32],
    rounds: &mut [u32],
    claims: &mut [u32],
) -> Result<(), Fault>
    ensures { ProvesExtension table.now point.now challenges.now rounds.old claims.old rounds.new claims.new result }
{
    sumcheck::sumcheck_run::<Element, Extension>(alloc, table, point, challenges, rounds, claims)
}

/// Whether the rounds fit a claim at the challenges: the last claim is written where they do. As many rounds, of
/// three elements each, as challenges.
pub fn sumcheck_verify(
    alloc: Global,
    claim: &[u32],
    rounds: &[u32],
    challenges: &[u32],
    out: &mut [u32],
) -> Result<bool, Fault>
    ensures { VerifiesExtension claim.now rounds.now challenges.now out.old out.new result }
{
    sumcheck::sumcheck_verify::<Extension>(alloc, claim, rounds, challenges, out)
}
