//! Points and polynomials made of whole numbers, for the crates of tests above `multilinear_util`.
#![tactic(auto)]

ghost use Rattle.std.specs.Prelude.{◌≡◌, length, IfOk};

use mlu_ring::Additive;
use mlu_test_support::numbers::elements;
use multilinear_util::point::Point;
use multilinear_util::poly::Poly;
use std::alloc::{AllocError, Global};

/// The point with the images of the numbers as its coordinates.
pub fn point<R: Additive>(alloc: Global, numbers: &[i32]) -> Result<Point<R>, AllocError>
    ensures { IfOk result (λ point. length point ≡ length numbers.now) }
{
    Ok(Point::new(elements(alloc, numbers)?))
}

/// The polynomial with these values. Fails where their number is not a power of two.
pub fn poly<A: Copy>(evals: Vec<A>) -> Result<Poly<A>, AllocError>
    ensures { IfOk result (λ poly. poly ≡ evals.items) }
{
    if !evals.len().is_power_of_two() {
        return Err(AllocError);
    }
    Ok(Poly::new(evals))
}

/// The polynomial with the images of the numbers as its values.
pub fn table<R: Additive>(alloc: Global, numbers: &[i32]) -> Result<Poly<R>, AllocError>
    ensures { IfOk result (λ poly. length poly ≡ length numbers.now) }
{
    poly(elements::<R>(alloc, numbers)?)
}
