//! Whether a call gives what it is to give. Where the call was refused, so is the answer.

use mlu_point::point::Point;
use mlu_ring::{Additive, ExtensionField, Field, PackedFieldExtension, PrimeCharacteristicRing};
use mlu_test_support::numbers::{are, element};
use multilinear_util::poly::Poly;
use std::alloc::AllocError;

/// Whether the call gives the number.
pub fn gives<R: Additive>(answer: Result<R, AllocError>, number: i32) -> Result<bool, AllocError> {
    Ok(answer? == element(number))
}

/// Whether the call gives the list of these numbers.
pub fn gives_list<R: Additive>(
    answer: Result<Vec<R>, AllocError>,
    numbers: &[i32],
) -> Result<bool, AllocError> {
    Ok(are(answer?.as_slice(), numbers))
}

/// Whether the call gives the point with these coordinates.
pub fn gives_point<R: Additive>(
    answer: Result<Point<R>, AllocError>,
    numbers: &[i32],
) -> Result<bool, AllocError> {
    Ok(are(answer?.as_slice(), numbers))
}

/// Whether the call gives the polynomial with these values.
pub fn gives_poly<R: Additive>(
    answer: Result<Poly<R>, AllocError>,
    numbers: &[i32],
) -> Result<bool, AllocError> {
    Ok(are(answer?.as_slice(), numbers))
}

/// Whether the call gives the polynomial with these values, in lanes.
pub fn gives_lanes<R: ExtensionField<R>>(
    answer: Result<Poly<R::ExtensionPacking>, AllocError>,
    numbers: &[i32],
) -> Result<bool, AllocError> {
    Ok(has_lanes::<R>(answer?.as_slice(), numbers))
}

/// Whether the lanes, joined in order, are the images of the numbers.
pub fn has_lanes<R: ExtensionField<R>>(packed: &[R::ExtensionPacking], numbers: &[i32]) -> bool {
    let mut lanes = R::ExtensionPacking::to_ext_iter(packed);
    for number in numbers {
        if lanes.next() != Some(element(*number)) {
            return false;
        }
    }
    lanes.next().is_none()
}
