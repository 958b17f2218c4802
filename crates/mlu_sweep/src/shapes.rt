//! Every shape up to a number of variables, over any field and extension of it.

use crate::definitions::Compressed;
use crate::draws::{Polynomials, element, elements};
use crate::report::{Difference, Report, Shape};
use crate::{batches, folds, halves, kernels, points, polys, slices, splits};
use mlu_ring::{ExtensionField, Field, Sample, SelfAlgebra};
use multilinear_util::point::Point;
use std::alloc::{AllocError, Global};

/// The most points of a batch.
const MOST_POINTS: usize = 5;

/// Compares the kernels, the folds of slices and the sums with split tables by themselves, then each call
/// on polynomials of each number of variables up to `most`, at points of as many coordinates and of
/// fewer, and gives the first difference.
///
/// # Errors
/// Where memory is refused, and at 32 variables and more.
pub fn sweep<F: Field + Sample, EF: ExtensionField<F> + SelfAlgebra + Sample>(
    alloc: Global,
    most: usize,
) -> Result<Option<Difference>, AllocError> {
    let mut report = Report::new();
    kernels::compare::<F, EF>(alloc, &mut report)?;
    slices::fold::<F, EF>(alloc, &mut report)?;
    halves::compare::<F, EF>(alloc, &mut report)?;
    for variables in 0..=most {
        polynomials::<F, EF>(alloc, &mut report, variables)?;
        tables::<F, EF>(alloc, &mut report, variables)?;
    }
    report.outcome()
}

/// Compares the calls on drawn polynomials of so many variables.
fn polynomials<F: Field + Sample, EF: ExtensionField<F> + SelfAlgebra + Sample>(
    alloc: Global,
    report: &mut Report,
    variables: usize,
) -> Result<(), AllocError> {
    let drawn = Polynomials::<F, EF>::draw(alloc, report, variables)?;
    report.shape = Shape::Polynomial {
        variables,
        coordinates: 1,
    };
    fold(alloc, report, &drawn);
    at_points(alloc, report, &drawn)
}

/// Compares the folds of the polynomials at drawn elements, those in place at elements of both fields.
fn fold<F: Field + Sample, EF: ExtensionField<F> + SelfAlgebra + Sample>(
    alloc: Global,
    report: &mut Report,
    drawn: &Polynomials<F, EF>,
) {
    let r: EF = element(report);
    folds::into_the_extension(alloc, report, &drawn.base, &drawn.images, r);
    folds::in_place::<EF, EF>(alloc, report, &drawn.ext, r);
    report.form = " at the base";
    let r: F = element(report);
    folds::in_place::<F, EF>(alloc, report, &drawn.ext, r);
    report.form = "";
}

/// Compares the calls on the polynomials at points of as many coordinates as they have variables, and of
/// fewer.
fn at_points<F: Field, EF: ExtensionField<F> + Sample>(
    alloc: Global,
    report: &mut Report,
    drawn: &Polynomials<F, EF>,
) -> Result<(), AllocError> {
    let variables = drawn.base.num_variables();
    for coordinates in 0..=variables {
        report.shape = Shape::Polynomial {
            variables,
            coordinates,
        };
        at_a_point(alloc, report, coordinates, drawn)?;
    }
    Ok(())
}

/// Compares the calls on the polynomials at a drawn point of so many coordinates, with a drawn scale.
fn at_a_point<F: Field, EF: ExtensionField<F> + Sample>(
    alloc: Global,
    report: &mut Report,
    coordinates: usize,
    drawn: &Polynomials<F, EF>,
) -> Result<(), AllocError> {
    let point = Point::new(elements(alloc, report, coordinates)?);
    let defined = Compressed::new(alloc, point, element(report), &drawn.images)?;
    compare_at(alloc, report, drawn, &defined)
}

/// Compares the calls on the polynomials with what the point leaves of the one over the base.
fn compare_at<F: Field, EF: ExtensionField<F>>(
    alloc: Global,
    report: &mut Report,
    drawn: &Polynomials<F, EF>,
    defined: &Compressed<EF>,
) -> Result<(), AllocError> {
    splits::compare(alloc, report, drawn, defined)?;
    polys::compress(alloc, report, &drawn.base, defined)?;
    if drawn.base.num_variables() == defined.point.num_variables() {
        polys::evaluate(alloc, report, &defined.point, drawn)?;
    }
    Ok(())
}

/// Compares values at drawn points of so many coordinates, the tables of one, and batches of tables.
fn tables<F: Field + Sample, EF: ExtensionField<F> + Sample>(
    alloc: Global,
    report: &mut Report,
    variables: usize,
) -> Result<(), AllocError> {
    report.shape = Shape::Polynomial {
        variables,
        coordinates: variables,
    };
    slices::evaluate::<F, EF>(alloc, report, variables)?;
    points::over_both::<F, EF>(alloc, report, variables)?;
    points::steps::<EF>(alloc, report, variables)?;
    of_a_point::<F, EF>(alloc, report, variables)?;
    for points in 0..=MOST_POINTS {
        batches::sum_tables::<F, EF>(alloc, report, points, variables)?;
    }
    Ok(())
}

/// Compares the tables of a drawn point of so many coordinates, with a drawn scale.
fn of_a_point<F: Field, EF: ExtensionField<F> + Sample>(
    alloc: Global,
    report: &mut Report,
    coordinates: usize,
) -> Result<(), AllocError> {
    let point: Vec<EF> = elements(alloc, report, coordinates)?;
    let scale = element(report);
    polys::tabulate(alloc, report, &point, scale)?;
    polys::tabulate_lanes::<F, EF>(alloc, report, &point, scale)
}
