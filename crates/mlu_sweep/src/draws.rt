//! Drawn elements, with those in between that a shortcut could stumble over.
ghost use Rattle.std.specs.Prelude.{◌≡◌, ◌*◌, IfOk, vec_len};

use crate::report::Report;
use mlu_ring::{Algebra, PrimeCharacteristicRing, Sample};
use mlu_test_support::plain;
use mlu_test_tables::poly;
use multilinear_util::poly::Poly;
use rand::RngExt;
use std::alloc::{AllocError, Global};

/// A drawn element: one in eight is zero, one is one, and one is minus one.
pub fn element<T: PrimeCharacteristicRing + Sample>(report: &mut Report) -> T {
    match report.rng.random_range(0..8u32) {
        0 => T::ZERO,
        1 => T::ONE,
        2 => T::NEG_ONE,
        _ => T::sample(&mut report.rng),
    }
}

/// `n` drawn elements.
pub fn elements<T: PrimeCharacteristicRing + Sample>(
    alloc: Global,
    report: &mut Report,
    n: usize,
) -> Result<Vec<T>, AllocError>
    ensures { IfOk result (λ values. vec_len values ≡ n) }
{
    let mut values = Vec::with_capacity(alloc, n)?;
    while values.len() < n {
        values.push(element(report))?;
    }
    Ok(values)
}

/// So many rows of drawn elements, each of the width.
pub fn rows<T: PrimeCharacteristicRing + Sample>(
    alloc: Global,
    report: &mut Report,
    rows: usize,
    width: usize,
) -> Result<Vec<T>, AllocError>
    ensures { IfOk result (λ values. vec_len values ≡ rows * width) }
{
    let n = rows.checked_mul(width).ok_or(AllocError)?;
    elements(alloc, report, n)
}

/// So many blocks of drawn elements, each of so many rows of the width.
pub fn blocks<T: PrimeCharacteristicRing + Sample>(
    alloc: Global,
    report: &mut Report,
    blocks: usize,
    rows_of_each: usize,
    width: usize,
) -> Result<Vec<T>, AllocError>
    ensures { IfOk result (λ values. vec_len values ≡ blocks * (rows_of_each * width)) }
{
    let size = rows_of_each.checked_mul(width).ok_or(AllocError)?;
    rows(alloc, report, blocks, size)
}

/// A polynomial with drawn values. Fails at 32 variables and more.
pub fn polynomial<T: PrimeCharacteristicRing + Sample>(
    alloc: Global,
    report: &mut Report,
    variables: usize,
) -> Result<Poly<T>, AllocError> {
    if variables >= 32 {
        return Err(AllocError);
    }
    poly(elements(alloc, report, 1 << variables)?)
}

/// Drawn polynomials of as many variables over the base and over the extension.
#[derive(Drop)]
pub struct Polynomials<F, EF> {
    pub base: Poly<F>,
    /// The images of the values over the base.
    pub images: Vec<EF>,
    pub ext: Poly<EF>,
}

impl<F: PrimeCharacteristicRing + Sample, EF: Algebra<F> + Sample> Polynomials<F, EF> {
    /// Polynomials of so many variables. Fails at 32 variables and more.
    pub fn draw(alloc: Global, report: &mut Report, variables: usize) -> Result<Self, AllocError> {
        let base: Poly<F> = polynomial(alloc, report, variables)?;
        let images: Vec<EF> = plain::images(alloc, base.as_slice())?;
        let ext: Poly<EF> = polynomial(alloc, report, variables)?;
        Ok(Polynomials { base, images, ext })
    }
}
