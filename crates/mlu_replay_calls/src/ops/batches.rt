//! Calls on the coordinates of many points.
ghost use Rattle.std.specs.Prelude.{◌≡◌, ◌<◌, ◌≤◌, ◌/◌, ◌^◌, [], length, slice_index_or, EachIndex, IfOk, IsTrue, IsOk};
ghost use Rattle.mlu_ring.specs.Matrices.{dimension};

use crate::element::Element;
use crate::lines::{filled_word, list_word};
use crate::sizes::has_variables;
use crate::words::Words;
use mlu_replay_lines::fault::{Fault, Reason};
use mlu_ring::{ExtensionField, Field, RowMajorMatrix};
use multilinear_util::eq_batch::{eval_eq_base_batch, eval_eq_batch, eval_eq_batch_in_chunks};
use multilinear_util::point::Point;
use std::alloc::Global;

/// The operands of a batch.
#[derive(Drop)]
struct Batch<A, B> {
    /// Whether the output counts.
    is_initialized: bool,
    /// The points, as columns.
    columns: RowMajorMatrix<A>,
    /// A scalar for each point.
    scalars: Vec<B>,
    /// The output.
    out: Vec<B>,
}

/// `transpose`: whether the last coordinate comes first, and points.
pub fn transpose<F: Field + Element>(words: &mut Words<'_>) -> Result<String, Fault> {
    let rev_order = words.flag()?;
    let points = words.points::<F>()?;
    if points.is_empty() || !are_alike(&points) {
        return Err(Fault::Unknown(Reason::Size));
    }
    let matrix = Point::transpose(words.alloc(), &points, rev_order)?;
    matrix_word(words.alloc(), &matrix)
}

/// The width of the matrix, and its values.
fn matrix_word<T: Element>(alloc: Global, matrix: &RowMajorMatrix<T>) -> Result<String, Fault> {
    let width = matrix.width();
    let values = list_word(alloc, &matrix.values)?;
    Ok(format!(in alloc; "{width}/{values}")?)
}

/// `eq_batch`: whether the output counts, points, scalars and the output.
pub fn eq_batch<F: Field, EF: ExtensionField<F> + Element>(
    words: &mut Words<'_>,
) -> Result<String, Fault> {
    let mut batch = read_batch::<EF, EF>(words)?;
    fill::<F, EF>(words.alloc(), &mut batch)
}

/// The output after the batch.
fn fill<F: Field, EF: ExtensionField<F> + Element>(
    alloc: Global,
    batch: &mut Batch<EF, EF>,
) -> Result<String, Fault>
    requires width { batch.old.columns.width ≡ length batch.old.scalars.items }
    requires size { 0 < length batch.old.scalars.items →
        length batch.old.out.items ≡ 2 ^ (length batch.old.columns.values.items / length batch.old.scalars.items) }
{
    let columns = batch.columns.as_view();
    let filled = if batch.is_initialized {
        eval_eq_batch::<F, EF, true>(alloc, columns, &mut batch.out, &batch.scalars)
    } else {
        eval_eq_batch::<F, EF, false>(alloc, columns, &mut batch.out, &batch.scalars)
    };
    filled_word(alloc, filled, &batch.out)
}

/// `eq_batch_in_chunks`: the logarithm of the number of chunks, and then as [`eq_batch`].
pub fn eq_batch_in_chunks<F: Field, EF: ExtensionField<F> + Element>(
    words: &mut Words<'_>,
) -> Result<String, Fault> {
    let log_chunks = words.number()?;
    let mut batch = read_batch::<EF, EF>(words)?;
    if log_chunks > batch.columns.height() {
        return Err(Fault::Unknown(Reason::Size));
    }
    fill_in_chunks::<F, EF>(words.alloc(), &mut batch, log_chunks)
}

/// The output after the batch, in so many chunks.
fn fill_in_chunks<F: Field, EF: ExtensionField<F> + Element>(
    alloc: Global,
    batch: &mut Batch<EF, EF>,
    log_chunks: usize,
) -> Result<String, Fault>
    requires width { batch.old.columns.width ≡ length batch.old.scalars.items }
    requires size { 0 < length batch.old.scalars.items →
        length batch.old.out.items ≡ 2 ^ (length batch.old.columns.values.items / length batch.old.scalars.items) }
    requires chunks { log_chunks ≤ length batch.old.columns.values.items / batch.old.columns.width }
{
    let columns = batch.columns.as_view();
    let filled = if batch.is_initialized {
        eval_eq_batch_in_chunks::<F, EF, true>(
            alloc,
            columns,
            &mut batch.out,
            &batch.scalars,
            log_chunks,
        )
    } else {
        eval_eq_batch_in_chunks::<F, EF, false>(
            alloc,
            columns,
            &mut batch.out,
            &batch.scalars,
            log_chunks,
        )
    };
    filled_word(alloc, filled, &batch.out)
}

/// `eq_base_batch`: whether the output counts, points, scalars and the output.
pub fn eq_base_batch<F: Field + Element, EF: ExtensionField<F> + Element>(
    words: &mut Words<'_>,
) -> Result<String, Fault> {
    let mut batch = read_batch::<F, EF>(words)?;
    fill_by_base::<F, EF>(words.alloc(), &mut batch)
}

/// The output after the batch of points in the base field.
fn fill_by_base<F: Field, EF: ExtensionField<F> + Element>(
    alloc: Global,
    batch: &mut Batch<F, EF>,
) -> Result<String, Fault>
    requires width { batch.old.columns.width ≡ length batch.old.scalars.items }
    requires size { 0 < length batch.old.scalars.items →
        length batch.old.out.items ≡ 2 ^ (length batch.old.columns.values.items / length batch.old.scalars.items) }
{
    let columns = batch.columns.as_view();
    let filled = if batch.is_initialized {
        eval_eq_base_batch::<F, EF, true>(alloc, columns, &mut batch.out, &batch.scalars)
    } else {
        eval_eq_base_batch::<F, EF, false>(alloc, columns, &mut batch.out, &batch.scalars)
    };
    filled_word(alloc, filled, &batch.out)
}

/// Whether the output counts, points, a scalar for each, and an output with a place for each vertex.
fn read_batch<A: Field + Element, B: Element>(words: &mut Words<'_>) -> Result<Batch<A, B>, Fault>
    ensures width { IfOk result (λ batch. batch.columns.width ≡ length batch.scalars.items) }
    ensures size { IfOk result (λ batch. 0 < length batch.scalars.items →
        length batch.out.items ≡ 2 ^ (length batch.columns.values.items / length batch.scalars.items)) }
{
    let is_initialized = words.flag()?;
    let columns = columns::<A>(words)?;
    let (scalars, out) = scalars_and_output(words, columns.width(), columns.height())?;
    Ok(Batch {
        is_initialized,
        columns,
        scalars,
        out,
    })
}

/// The matrix whose columns are the points.
fn columns<F: Field + Element>(words: &mut Words<'_>) -> Result<RowMajorMatrix<F>, Fault> {
    let points = words.points::<F>()?;
    if points.is_empty() {
        return Ok(RowMajorMatrix::new(Vec::new(words.alloc()), 0));
    }
    if !are_alike(&points) {
        return Err(Fault::Unknown(Reason::Size));
    }
    Ok(Point::transpose(words.alloc(), &points, false)?)
}

/// A scalar for each point, and the output: where there are points, as many places as their
/// coordinates have vertices.
fn scalars_and_output<T: Element>(
    words: &mut Words<'_>,
    points: usize,
    coordinates: usize,
) -> Result<(Vec<T>, Vec<T>), Fault>
    ensures width { IfOk result (λ x. points ≡ length x.0.items) }
    ensures size { IfOk result (λ x. 0 < points → length x.1.items ≡ 2 ^ coordinates) }
{
    let scalars: Vec<T> = words.list()?;
    let out: Vec<T> = words.list()?;
    if points != scalars.len() || points > 0 && !has_variables(out.len(), coordinates) {
        return Err(Fault::Unknown(Reason::Size));
    }
    Ok((scalars, out))
}

/// Whether the points have equally many coordinates.
fn are_alike<T: Element>(points: &[Point<T>]) -> bool
    ensures { IsTrue result → EachIndex points.now (λ i. length (slice_index_or points.now i []) ≡ dimension points.now) }
{
    for point in points {
        if point.num_variables() != points[0].num_variables() {
            return false;
        }
    }
    true
}
