//! The calls of the library for C: multilinear polynomials over the integers modulo 2013265921 and
//! their extension of degree four, in words.
//!
//! An element of the base field is one word, its least residue, and one of the extension four, those
//! of its coefficients; a table or a point is the words of its elements, one after the other. A call
//! tests the size of each operand, then whether the sizes fit one another, then whether the words
//! that it reads are residues, and answers with a status: 0 where it is done, 1 to 4 as
//! [`mlu_words::Fault`] has them, and 5 where rounds do not fit their claim. It writes at the end alone, so an
//! output is as before wherever the status is not 0.
//!
//! Sizes and statuses of each call stand in `bindings/c/mlu.h`.
#![tactic(auto)]

ghost use Rattle.mlu_ring.specs.Tables.{first_folded, last_folded, value};
ghost use Rattle.mlu_words.specs.Calls.{embedded_next_value, embedded_prefix, embedded_suffix};
ghost use Rattle.mlu_words.specs.Calls.{embedded_value, scaled_weights};
ghost use Rattle.mlu_words.specs.Exports.{BatchesExtension, CompressesBase, EvaluatesBase, EvaluatesExtension};
ghost use Rattle.mlu_words.specs.Exports.{FoldsExtension, ProvesExtension, TabulatesExtension, VerifiesExtension};
ghost use Rattle.mlu_words.specs.Outcomes.{Answers, Judges};

use mlu_point::point::BitOrder;
use mlu_words::{Variables, Vertices, status, verdict};
use std::alloc::Global;

/// The value of a table over the base field at a point of the extension.
#[unsafe(no_mangle)]
pub extern "C" fn mlu_eval_base(alloc: Global, table: &[u32], point: &[u32], out: &mut [u32]) -> u32
    ensures { Answers (EvaluatesBase embedded_value table.now point.now out.old out.new) result }
{
    status(mlu_words::eval_base(alloc, Vertices::Own, table, point, out))
}

/// The value of a table over the extension at a point.
#[unsafe(no_mangle)]
pub extern "C" fn mlu_eval_ext(alloc: Global, table: &[u32], point: &[u32], out: &mut [u32]) -> u32
    ensures { Answers (EvaluatesExtension value table.now point.now out.old out.new) result }
{
    status(mlu_words::eval_ext(alloc, table, point, out))
}

/// The sum of the weight at a point of the extension of each vertex times the value at the next one, of a
/// table over the base field.
#[unsafe(no_mangle)]
pub extern "C" fn mlu_eval_next_base(
    alloc: Global,
    table: &[u32],
    point: &[u32],
    out: &mut [u32],
) -> u32
    ensures { Answers (EvaluatesBase embedded_next_value table.now point.now out.old out.new) result }
{
    status(mlu_words::eval_base(alloc, Vertices::Next, table, point, out))
}

/// The weights of all vertices at a point of the extension, where coordinate 0 reads the highest bit of an
/// index, each times a scale.
#[unsafe(no_mangle)]
pub extern "C" fn mlu_equality_weights_msb(
    alloc: Global,
    point: &[u32],
    scale: &[u32],
    out: &mut [u32],
) -> u32
    ensures { Answers (TabulatesExtension (scaled_weights BitOrder.Msb) point.now scale.now out.old out.new) result }
{
    status(mlu_words::equality_weights(alloc, BitOrder::Msb, point, scale, out))
}

/// The weights of all vertices at a point of the extension, where coordinate 0 reads the lowest bit of an
/// index, each times a scale.
#[unsafe(no_mangle)]
pub extern "C" fn mlu_equality_weights_lsb(
    alloc: Global,
    point: &[u32],
    scale: &[u32],
    out: &mut [u32],
) -> u32
    ensures { Answers (TabulatesExtension (scaled_weights BitOrder.Lsb) point.now scale.now out.old out.new) result }
{
    status(mlu_words::equality_weights(alloc, BitOrder::Lsb, point, scale, out))
}

/// The sum of the equality tables of points, each times a scalar, written to the output or added to
/// it, all of the extension. Each column of the values is a point and each row a variable; row 0 reads the
/// highest bit of an index.
#[unsafe(no_mangle)]
pub extern "C" fn mlu_eval_eq_batch(
    alloc: Global,
    adds: bool,
    values: &[u32],
    scalars: &[u32],
    out: &mut [u32],
) -> u32
    ensures { Answers (BatchesExtension adds values.now scalars.now out.old out.new) result }
{
    status(mlu_words::eval_eq_batch(alloc, adds, values, scalars, out))
}

/// A table over the extension with its first variable at `r`, in the first half of its words.
#[unsafe(no_mangle)]
pub extern "C" fn mlu_fix_prefix_var_mut(alloc: Global, table: &mut [u32], r: &[u32]) -> u32
    ensures { Answers (FoldsExtension first_folded r.now table.old table.new) result }
{
    status(mlu_words::fix_var_mut(alloc, Variables::First, table, r))
}

/// A table over the extension with its last variable at `r`, in the first half of its words.
#[unsafe(no_mangle)]
pub extern "C" fn mlu_fix_suffix_var_mut(alloc: Global, table: &mut [u32], r: &[u32]) -> u32
    ensures { Answers (FoldsExtension last_folded r.now table.old table.new) result }
{
    status(mlu_words::fix_var_mut(alloc, Variables::Last, table, r))
}

/// A table over the base field with its first variables at a point of the extension, times a scale.
#[unsafe(no_mangle)]
pub extern "C" fn mlu_compress_prefix(
    alloc: Global,
    table: &[u32],
    point: &[u32],
    scale: &[u32],
    out: &mut [u32],
) -> u32
    ensures { Answers (CompressesBase embedded_prefix table.now point.now scale.now out.old out.new) result }
{
    status(mlu_words::compress(alloc, Variables::First, table, point, scale, out))
}

/// A table over the base field with its last variables at a point of the extension, times a scale.
#[unsafe(no_mangle)]
pub extern "C" fn mlu_compress_suffix(
    alloc: Global,
    table: &[u32],
    point: &[u32],
    scale: &[u32],
    out: &mut [u32],
) -> u32
    ensures { Answers (CompressesBase embedded_suffix table.now point.now scale.now out.old out.new) result }
{
    status(mlu_words::compress(alloc, Variables::Last, table, point, scale, out))
}

/// The rounds of sumcheck over a table of the extension and the weights of a point, at challenges,
/// and the claims: three elements for each round, and one claim more than rounds.
#[unsafe(no_mangle)]
pub extern "C" fn mlu_sumcheck_run(
    alloc: Global,
    table: &[u32],
    point: &[u32],
    challenges: &[u32],
    rounds: &mut [u32],
    claims: &mut [u32],
) -> u32
    ensures { Answers (ProvesExtension table.now point.now challenges.now rounds.old claims.old rounds.new claims.new) result }
{
    status(mlu_words::sumcheck_run(alloc, table, point, challenges, rounds, claims))
}

/// Whether the rounds fit a claim at the challenges: the last claim where they do, and status 5
/// where they do not. A proof passes where besides the last claim is the product of the values of the
/// weights and of the table at the challenges, each drawn after its round: that is the caller's to test.
#[unsafe(no_mangle)]
pub extern "C" fn mlu_sumcheck_verify(
    alloc: Global,
    claim: &[u32],
    rounds: &[u32],
    challenges: &[u32],
    out: &mut [u32],
) -> u32
    ensures { Judges (VerifiesExtension claim.now rounds.now challenges.now out.old out.new) result }
{
    verdict(mlu_words::sumcheck_verify(alloc, claim, rounds, challenges, out))
}

#[cfg(test)]
mod tests;
