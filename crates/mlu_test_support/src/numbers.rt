//! The images of whole numbers in any ring.
ghost use Rattle.std.specs.Prelude.{◌≡◌, IfOk, length};

use mlu_ring::Additive;
use std::alloc::{AllocError, Global};

/// The image of a whole number.
pub fn element<R: Additive>(number: i32) -> R {
    let mut sum = R::ZERO;
    for _ in 0..number.unsigned_abs() {
        sum = sum + R::ONE;
    }
    if number < 0 { -sum } else { sum }
}

/// The images of whole numbers.
pub fn elements<R: Additive>(alloc: Global, numbers: &[i32]) -> Result<Vec<R>, AllocError>
    ensures { IfOk result (λ elements. length elements.items ≡ length numbers.now) }
{
    numbers.iter().map(|number| element(*number)).collect(alloc)
}

/// Whether these are the images of the numbers.
pub fn are<R: Additive>(elements: &[R], numbers: &[i32]) -> bool {
    for (element_here, number) in elements.iter().zip(numbers.iter()) {
        if *element_here != element(*number) {
            return false;
        }
    }
    elements.len() == numbers.len()
}
