//! Elements made of their coefficients one after the other.
ghost use Rattle.std.specs.Prelude.{◌≡◌, ◌*◌, ◌<◌, ◌^◌, length};
ghost use Rattle.std.specs.Mem.{type_size};

use super::Row::{Counted, Listed};
use super::{Bear, quartic};
use crate::rings::Row::Extensions;
use crate::rings::{nine_copies, quartics};
use mlu_ext::ProductAlgebra;
use mlu_ring::{Additive, ExtensionField, Field, Lanewise, PackedFieldExtension, PackedValue};
use mlu_test_support::lanes::lanes;
use mlu_test_support::lists::filled;
use mlu_test_support::numbers::{self, elements};
use std::alloc::{AllocError, Global};
use std::test::Fail;

/// Whether `element` has the coefficients 1, 2, .., and `sum` is that of all lanes of two packed elements with the
/// coefficients (1, 2, 3, 4), (2, 4, 6, 8), ..
pub fn counts<F: Field, EF: ExtensionField<F>>(
    alloc: Global,
    element: EF,
    sum: EF,
) -> Result<bool, AllocError> {
    if F::Packing::WIDTH != 4 {
        return Ok(false);
    }
    let step = F::Packing::load(&elements::<F>(alloc, &[1, 2, 3, 4])?);
    let twice = filled(alloc, counted_lanes::<F, EF>(step), 2)?;
    let lanes = lanes::<F, EF>(alloc, &twice)?;
    Ok(counted::<F, EF>() == element && total(&lanes) == sum)
}

/// The element with the coefficients 1, 2, ..
fn counted<F: Field, EF: ExtensionField<F>>() -> EF {
    let mut last = F::ZERO;
    EF::from_coefficients_fn(|_k| {
        last = last + F::ONE;
        last
    })
}

/// The packed element with the coefficients `step`, twice `step`, ..
fn counted_lanes<F: Field, EF: ExtensionField<F>>(step: F::Packing) -> EF::ExtensionPacking {
    let mut last = F::Packing::ZERO;
    EF::ExtensionPacking::from_packed_coefficients_fn(|_k| {
        last = last + step;
        last
    })
}

/// The sum of the elements.
fn total<R: Additive>(elements: &[R]) -> R {
    let mut sum = R::ZERO;
    for element in elements {
        sum = sum + *element;
    }
    sum
}

/// The element with these coefficients, which are read by their numbers.
fn of_list<F: Field, EF: ExtensionField<F>>(coefficients: &[F]) -> EF
    requires { length coefficients.now ≡ EF.DIMENSION }
{
    EF::from_coefficients_fn(
        |k|
            requires { k < length coefficients.now }
        { coefficients[k] },
    )
}

/// The packed value with these coefficients, and zeros where there are none.
fn of_packed_list<F: Field, EF: ExtensionField<F>>(
    coefficients: &[F::Packing],
) -> EF::ExtensionPacking {
    EF::ExtensionPacking::from_packed_coefficients_fn(|k| {
        coefficients.get(k).copied().unwrap_or(F::Packing::ZERO)
    })
}

/// Whether `element` has the coefficients 1, 2, 3, 4, alone and in the last of four lanes.
pub fn lists<F: Field, EF: ExtensionField<F>>(element: EF) -> bool
    requires packings_fit { 4 * type_size F.Packing.row < 2 ^ 63 }
    requires elements_fit { 4 * type_size F.row < 2 ^ 63 }
{
    if F::Packing::WIDTH != 4 || EF::DIMENSION != 4 {
        return false;
    }
    let (three, four) = (numbers::element(3), numbers::element(4));
    let lanes = [
        F::Packing::splat(F::ONE),
        F::Packing::splat(F::TWO),
        F::Packing::splat(three),
        F::Packing::splat(four),
    ];
    let packed = of_packed_list::<F, EF>(&lanes);
    of_list::<F, EF>(&[F::ONE, F::TWO, three, four]) == element && packed.ext_lane(3) == element
}

#[test]
fn quartics_of_lists(rt: HostRuntime) -> Result<(), Fail> {
    let element = quartic(1, 2, 3, 4);
    assert!(rt; quartics(rt.alloc(), Extensions(Listed(element)))?);
    Ok(())
}

#[test]
fn quartics_counted(rt: HostRuntime) -> Result<(), Fail> {
    let (element, sum) = (quartic(1, 2, 3, 4), quartic(20, 40, 60, 80));
    assert!(rt; quartics(rt.alloc(), Extensions(Counted(element, sum)))?);
    Ok(())
}

#[test]
fn nine_copies_counted(rt: HostRuntime) -> Result<(), Fail> {
    let numbers = [1, 2, 3, 4, 5, 6, 7, 8, 9].map(Bear::from_u32);
    let sums = [20, 40, 60, 80, 100, 120, 140, 160, 180].map(Bear::from_u32);
    let (element, sum) = (
        ProductAlgebra::from_array(numbers),
        ProductAlgebra::from_array(sums),
    );
    assert!(rt; nine_copies(rt.alloc(), Extensions(Counted(element, sum)))?);
    Ok(())
}
