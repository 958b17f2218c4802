//! Sizes, views, copies and draws; and a polynomial as the function of its points.

use super::Row;
use crate::rings::Row::Polynomials;
use crate::rings::{quartics, residues};
use mlu_eq::laws::unique;
use mlu_ring::{Additive, AffineInEach, PrimeCharacteristicRing, Sample};
use mlu_test_support::numbers::{are, element};
use mlu_test_tables::{point, table};
use multilinear_util::poly::{Poly, PolyView};
use rand_pcg::Pcg32;
use std::alloc::{AllocError, Global};
use std::test::Fail;

/// Whether a polynomial has the sizes, entries and copies that it is to have.
pub fn owns<R: Additive>(alloc: Global) -> Result<bool, AllocError> {
    let poly = table::<R>(alloc, &[1, 2, 3, 4])?;
    let copy = poly.try_clone(alloc)?;
    Ok(has_sizes(&poly) && is_copied(&poly, copy) && poly.into_evals().len() == 4)
}

/// Whether the polynomial has two variables, and 4 as its last entry.
fn has_sizes<R: Additive>(poly: &Poly<R>) -> bool {
    poly.num_evals() == 4
        && poly.num_variables() == 2
        && poly.as_constant().is_none()
        && poly.as_slice().last() == Some(&element(4))
        && poly.iter().count() == 4
}

/// Whether the copy equals the polynomial, as its view does, and the entries of both are what they are to be.
fn is_copied<R: Additive>(poly: &Poly<R>, copy: Poly<R>) -> bool {
    copy == *poly && copy.as_view() == poly.as_view() && are_added(poly, copy)
}

/// Whether the entries of both, lent and given, add up to 20.
fn are_added<R: Additive>(lent: &Poly<R>, given: Poly<R>) -> bool {
    let mut sum = R::ZERO;
    for entry in lent {
        sum = sum + *entry;
    }
    for entry in given {
        sum = sum + entry;
    }
    sum == element(20)
}

/// Whether a constant and the zero polynomial are what they are to be.
pub fn is_constant<R: PrimeCharacteristicRing>(alloc: Global) -> Result<bool, AllocError> {
    let poly = table::<R>(alloc, &[7])?;
    let zero = Poly::<R>::zero(alloc, 3)?;
    Ok(
        poly.num_variables() == 0
            && poly.as_constant() == Some(element(7))
            && are(zero.as_slice(), &[0; 8]),
    )
}

#[test]
fn constants(rt: HostRuntime) -> Result<(), Fail> {
    assert!(rt; residues(rt.alloc(), Polynomials(Row::Constants))?);
    assert!(rt; quartics(rt.alloc(), Polynomials(Row::Constants))?);
    Ok(())
}

/// The entries of a polynomial whose view is gone.
fn entries_of<F: Copy>(poly: &Poly<F>) -> &[F] {
    poly.as_view().as_view().into_slice()
}

/// Whether views show what is viewed.
pub fn is_viewed<R: Additive>(alloc: Global) -> Result<bool, AllocError> {
    let poly = table::<R>(alloc, &[1, 2])?;
    Ok(shows(PolyView::new(poly.as_slice()), &poly) && entries_of(&poly).len() == 2)
}

/// Whether the view is one of the polynomial, of one variable.
fn shows<R: Additive>(view: PolyView<'_, R>, poly: &Poly<R>) -> bool {
    let copy = view;
    copy == poly.as_view()
        && view.num_evals() == 2
        && view.num_variables() == 1
        && view.as_constant().is_none()
        && view.iter().count() == 2
        && view.as_slice().len() == 2
}

#[test]
fn owned_and_viewed(rt: HostRuntime) -> Result<(), Fail> {
    assert!(rt; residues(rt.alloc(), Polynomials(Row::Owned))?);
    assert!(rt; residues(rt.alloc(), Polynomials(Row::Views))?);
    Ok(())
}

/// Whether two draws differ, and the values of the first are drawn in order.
pub fn draws_two<R: PartialEq + Copy + Sample>(alloc: Global) -> Result<bool, AllocError> {
    let mut rng = Pcg32::new(1, 54);
    let first = Poly::<R>::rand(alloc, &mut rng, 3)?;
    let second = Poly::<R>::rand(alloc, &mut rng, 3)?;
    Ok(first.num_evals() == 8 && first != second && are_drawn(first.as_slice(), Pcg32::new(1, 54)))
}

/// Whether the generator gives these values, in order.
fn are_drawn<R: PartialEq + Copy + Sample>(values: &[R], mut rng: Pcg32) -> bool {
    for value in values {
        if *value != R::sample(&mut rng) {
            return false;
        }
    }
    true
}

#[test]
fn draws(rt: HostRuntime) -> Result<(), Fail> {
    assert!(rt; residues(rt.alloc(), Polynomials(Row::Draws))?);
    Ok(())
}

/// Whether a polynomial is, as a function of its points, the one with its values at the vertices.
pub fn is_the_function<R: PrimeCharacteristicRing>(alloc: Global) -> Result<bool, AllocError> {
    let poly = table::<R>(alloc, &[1, 2, 3, 4])?;
    let view = poly.as_view();
    let point = point::<R>(alloc, &[2, 3])?;
    unique(&view, view.as_slice());
    if view.arity() != point.num_variables() {
        return Ok(false);
    }
    Ok(view.at(point.as_slice()) == element(8))
}

#[test]
fn function_of_its_points(rt: HostRuntime) -> Result<(), Fail> {
    assert!(rt; residues(rt.alloc(), Polynomials(Row::TheFunction))?);
    Ok(())
}
