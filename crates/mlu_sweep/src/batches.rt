//! Batches of equality tables, by points of both fields, written and added.
ghost use Rattle.std.specs.Prelude.{◌≡◌, ◌*◌, ◌/◌, ◌<◌, ◌≤◌, ◌^◌, IfOk, length, vec_len};

use crate::definitions::add_batch;
use crate::draws::{elements, rows};
use crate::report::Report;
use mlu_ring::{ExtensionField, Field, PrimeCharacteristicRing, RowMajorMatrixView, Sample};
use mlu_test_support::plain;
use multilinear_util::eq_batch::{
    eval_eq_base_batch, eval_eq_base_batch_in_chunks, eval_eq_batch, eval_eq_batch_in_chunks,
};
use std::alloc::{AllocError, Global};

/// Points of either field, of so many variables, one a column of rows, with a scalar each, and what is
/// there before their tables.
#[derive(Drop)]
struct Batch<F, EF> {
    base: Vec<F>,
    ext: Vec<EF>,
    variables: usize,
    scalars: Vec<EF>,
    before: Vec<EF>,
}

/// So many drawn points of either field. Fails at 32 variables and more.
fn draw_batch<F: PrimeCharacteristicRing + Sample, EF: PrimeCharacteristicRing + Sample>(
    alloc: Global,
    report: &mut Report,
    points: usize,
    variables: usize,
) -> Result<Batch<F, EF>, AllocError>
    ensures base { IfOk result (λ batch. vec_len batch.base ≡ batch.variables * vec_len batch.scalars) }
    ensures ext { IfOk result (λ batch. vec_len batch.ext ≡ batch.variables * vec_len batch.scalars) }
    ensures places { IfOk result (λ batch. vec_len batch.before ≡ 2 ^ batch.variables) }
{
    if variables >= 32 {
        return Err(AllocError);
    }
    let before: Vec<EF> = elements(alloc, report, 1 << variables)?;
    let scalars: Vec<EF> = elements(alloc, report, points)?;
    let ext: Vec<EF> = rows(alloc, report, variables, points)?;
    let base: Vec<F> = rows(alloc, report, variables, points)?;
    Ok(Batch {
        base,
        ext,
        variables,
        scalars,
        before,
    })
}

/// Compares batches of so many drawn points of either field, written and added.
pub fn sum_tables<F: Field + Sample, EF: ExtensionField<F> + Sample>(
    alloc: Global,
    report: &mut Report,
    points: usize,
    variables: usize,
) -> Result<(), AllocError> {
    let batch: Batch<F, EF> = draw_batch(alloc, report, points, variables)?;
    over_both::<F, EF, false>(alloc, report, &batch)?;
    over_both::<F, EF, true>(alloc, report, &batch)
}

/// The values with the batch added to them, or to zeros.
fn after<R: PrimeCharacteristicRing>(
    alloc: Global,
    before: &[R],
    points: &[R],
    scalars: &[R],
    is_added: bool,
) -> Result<Vec<R>, AllocError> {
    let start = R::from_bool(is_added);
    let mut sums: Vec<R> = before.iter().map(|value| start * *value).collect(alloc)?;
    add_batch(alloc, sums.as_mut_slice(), points, scalars)?;
    Ok(sums)
}

/// Compares a batch by the points of each field.
fn over_both<F: Field, EF: ExtensionField<F>, const INITIALIZED: bool>(
    alloc: Global,
    report: &mut Report,
    batch: &Batch<F, EF>,
) -> Result<(), AllocError>
    requires base { vec_len batch.now.base ≡ batch.now.variables * vec_len batch.now.scalars }
    requires ext { vec_len batch.now.ext ≡ batch.now.variables * vec_len batch.now.scalars }
    requires places { vec_len batch.now.before ≡ 2 ^ batch.now.variables }
{
    let sums = after(
        alloc,
        &batch.before,
        &batch.ext,
        &batch.scalars,
        INITIALIZED,
    )?;
    over_the_extension::<F, EF, INITIALIZED>(alloc, report, batch, &sums);
    let images: Vec<EF> = plain::images(alloc, &batch.base)?;
    let sums = after(alloc, &batch.before, &images, &batch.scalars, INITIALIZED)?;
    over_the_base::<F, EF, INITIALIZED>(alloc, report, batch, &sums);
    Ok(())
}

/// Compares a batch by the points of the extension, whole and in each number of chunks.
fn over_the_extension<F: Field, EF: ExtensionField<F>, const INITIALIZED: bool>(
    alloc: Global,
    report: &mut Report,
    batch: &Batch<F, EF>,
    sums: &[EF],
)
    requires base { vec_len batch.now.base ≡ batch.now.variables * vec_len batch.now.scalars }
    requires ext { vec_len batch.now.ext ≡ batch.now.variables * vec_len batch.now.scalars }
    requires places { vec_len batch.now.before ≡ 2 ^ batch.now.variables }
{
    let answer = summed::<F, EF, INITIALIZED>(alloc, batch, Call::Whole, 0);
    report.list("eval_eq_batch", answer, sums);
    for log_chunks in 0..=batch.variables {
        let answer = summed::<F, EF, INITIALIZED>(alloc, batch, Call::InChunks, log_chunks);
        report.list("eval_eq_batch_in_chunks", answer, sums);
    }
}

/// Compares a batch by the points of the base, whole and in each number of chunks.
fn over_the_base<F: Field, EF: ExtensionField<F>, const INITIALIZED: bool>(
    alloc: Global,
    report: &mut Report,
    batch: &Batch<F, EF>,
    sums: &[EF],
)
    requires base { vec_len batch.now.base ≡ batch.now.variables * vec_len batch.now.scalars }
    requires ext { vec_len batch.now.ext ≡ batch.now.variables * vec_len batch.now.scalars }
    requires places { vec_len batch.now.before ≡ 2 ^ batch.now.variables }
{
    let answer = summed::<F, EF, INITIALIZED>(alloc, batch, Call::BaseWhole, 0);
    report.list("eval_eq_base_batch", answer, sums);
    for log_chunks in 0..=batch.variables {
        let answer = summed::<F, EF, INITIALIZED>(alloc, batch, Call::BaseInChunks, log_chunks);
        report.list("eval_eq_base_batch_in_chunks", answer, sums);
    }
}

/// A call that sums a batch.
#[derive(Clone, Copy)]
enum Call {
    Whole,
    InChunks,
    BaseWhole,
    BaseInChunks,
}

/// A copy of the places after the call, in 2^`log_chunks` chunks where it makes chunks.
fn summed<F: Field, EF: ExtensionField<F>, const INITIALIZED: bool>(
    alloc: Global,
    batch: &Batch<F, EF>,
    call: Call,
    log_chunks: usize,
) -> Result<Vec<EF>, AllocError>
    requires base { vec_len batch.now.base ≡ batch.now.variables * vec_len batch.now.scalars }
    requires ext { vec_len batch.now.ext ≡ batch.now.variables * vec_len batch.now.scalars }
    requires places { vec_len batch.now.before ≡ 2 ^ batch.now.variables }
    requires chunks { log_chunks ≤ batch.now.variables }
{
    let (n, scalars) = (batch.variables, batch.scalars.as_slice());
    let base = matrix(
        &batch.base,
        scalars.len(),
        n,
        batch.before.len(),
        log_chunks,
    );
    let ext = matrix(&batch.ext, scalars.len(), n, batch.before.len(), log_chunks);
    let mut out = Vec::from_slice(alloc, &batch.before)?;
    let places = out.as_mut_slice();
    match call {
        Call::Whole => eval_eq_batch::<F, EF, INITIALIZED>(alloc, ext, places, scalars)?,
        Call::InChunks => {
            eval_eq_batch_in_chunks::<F, EF, INITIALIZED>(alloc, ext, places, scalars, log_chunks)?
        }
        Call::BaseWhole => eval_eq_base_batch::<F, EF, INITIALIZED>(alloc, base, places, scalars)?,
        Call::BaseInChunks => eval_eq_base_batch_in_chunks::<F, EF, INITIALIZED>(
            alloc, base, places, scalars, log_chunks,
        )?,
    }
    Ok(out)
}

/// Points of so many variables, one a column of the matrix, for a table of so many places in
/// 2^`log_chunks` chunks.
fn matrix<R: Copy>(
    values: &[R],
    points: usize,
    variables: usize,
    places: usize,
    log_chunks: usize,
) -> RowMajorMatrixView<'_, R>
    requires values { length values.now ≡ variables * points }
    requires places { places ≡ 2 ^ variables }
    requires chunks { log_chunks ≤ variables }
    ensures width { result.width ≡ points }
    ensures size { 0 < points → places ≡ 2 ^ (length result.values.now / points) }
    ensures chunks { 0 < points → log_chunks ≤ length result.values.now / points }
{
    RowMajorMatrixView::new(values, points)
}
