//! Values at a point without a table.

use crate::definitions::{Sums, powers, table, value};
use crate::draws::{element, elements};
use crate::report::Report;
use mlu_ring::{Algebra, ExtensionField, Field, PrimeCharacteristicRing, Sample};
use multilinear_util::point::{Point, Successor};
use std::alloc::{AllocError, Global};

/// Compares the equality of a drawn point of the base with one of the extension, and the value of the
/// powers of a drawn element.
pub fn over_both<F: Field + Sample, EF: ExtensionField<F> + Sample>(
    alloc: Global,
    report: &mut Report,
    variables: usize,
) -> Result<(), AllocError> {
    let first: Vec<F> = elements(alloc, report, variables)?;
    let second: Vec<EF> = elements(alloc, report, variables)?;
    let answer = Point::<F>::eval_eq(&first, &second);
    report.results(
        "Point::eval_eq",
        Ok(answer),
        equality(alloc, &first, &second),
    );
    let x = element::<F>(report);
    let answer = Point::<F>::eval_select(x, &second);
    report.results(
        "Point::eval_select",
        Ok(answer),
        selection(alloc, x, &second),
    );
    Ok(())
}

/// The weights of one point, each times that of the same vertex at the other.
fn equality<F: PrimeCharacteristicRing, EF: Algebra<F>>(
    alloc: Global,
    first: &[F],
    second: &[EF],
) -> Result<EF, AllocError> {
    let weights = table(alloc, first, F::ONE)?;
    value(alloc, second, &weights)
}

/// The weights of the point, each times a power of `x`.
fn selection<F: PrimeCharacteristicRing, EF: Algebra<F>>(
    alloc: Global,
    x: F,
    point: &[EF],
) -> Result<EF, AllocError> {
    if point.len() >= 32 {
        return Err(AllocError);
    }
    let powers = powers(alloc, x, 1 << point.len())?;
    value(alloc, point, &powers)
}

/// Compares the step from one drawn point to another.
pub fn steps<R: Field + Sample>(
    alloc: Global,
    report: &mut Report,
    variables: usize,
) -> Result<(), AllocError> {
    let from: Vec<R> = elements(alloc, report, variables)?;
    let to: Vec<R> = elements(alloc, report, variables)?;
    let defined = next_values(alloc, &from, &to)?;
    let (carry, done, last) = Point::eval_next(&from, &to);
    report.value(
        "Point::eval_next, its last row",
        done + last,
        defined.repeated,
    );
    report.value("Point::eval_next, its carry", done + carry, defined.wrapped);
    let value = Point::eval_next_by(Successor::RepeatLast, &from, &to);
    report.value("Point::eval_next_by RepeatLast", value, defined.repeated);
    let value = Point::eval_next_by(Successor::Wrap, &from, &to);
    report.value("Point::eval_next_by Wrap", value, defined.wrapped);
    Ok(())
}

/// The weights of one point, each moved to its successor, beside those of another.
fn next_values<R: PrimeCharacteristicRing>(
    alloc: Global,
    from: &[R],
    to: &[R],
) -> Result<Sums<R>, AllocError> {
    let weights = table(alloc, from, R::ONE)?;
    let rows = table(alloc, to, R::ONE)?;
    Sums::new(alloc, &weights, &rows)
}
