//! What `{:?}` prints of polynomials and split tables of residues, in packings of four lanes.
ghost use Rattle.std.specs.Prelude.{◌≡◌, length};

use crate::printed::{Row, is_printed};
use crate::rings::Row::Printed;
use crate::rings::residues;
use mlu_ring::{ExtensionField, PackedValue};
use mlu_test_support::numbers::element;
use mlu_test_tables::{point, table};
use multilinear_util::poly::{Poly, PolyMaybePacked};
use multilinear_util::split_eq::SplitEq;
use std::alloc::{AllocError, Global};
use std::fmt::Debug;
use std::test::Fail;

/// Whether a view of the polynomial prints as it must.
fn prints_view<R: Copy + Debug>(alloc: Global, poly: &Poly<R>) -> Result<bool, AllocError> {
    let text = "PolyView { evals: [BabyBear { value: 3 }, BabyBear { value: 4 }, \
        BabyBear { value: 5 }, BabyBear { value: 6 }] }";
    is_printed(alloc, &poly.as_view(), text)
}

/// Whether the scalar storage prints as it must.
fn prints_scalars<R: ExtensionField<R> + Debug>(
    alloc: Global,
    poly: Poly<R>,
) -> Result<bool, AllocError>
where
    R::ExtensionPacking: Debug,
{
    let scalar = PolyMaybePacked::<R, R>::Scalar(poly);
    let text = "Scalar(Poly { evals: [BabyBear { value: 3 }, BabyBear { value: 4 }, \
        BabyBear { value: 5 }, BabyBear { value: 6 }] })";
    is_printed(alloc, &scalar, text)
}

/// Whether the packed storage prints as it must.
fn prints_lanes<R: ExtensionField<R> + Debug>(
    alloc: Global,
    poly: &Poly<R>,
) -> Result<bool, AllocError>
where
    R::ExtensionPacking: Debug,
    requires { length poly.now ≡ 4 }
{
    if R::Packing::WIDTH != 4 {
        return Ok(false);
    }
    let packed = PolyMaybePacked::<R, R>::Packed(poly.pack::<R, R>(alloc)?);
    let text =
        "Packed(Poly { evals: [Lanes { values: [BabyBear { value: 3 }, BabyBear { value: 4 }, \
        BabyBear { value: 5 }, BabyBear { value: 6 }] }] })";
    is_printed(alloc, &packed, text)
}

/// Whether 3, 4, 5, 6 print as they must, in a view and in both storages.
fn prints_values<R: ExtensionField<R> + Debug>(alloc: Global) -> Result<bool, AllocError>
where
    R::ExtensionPacking: Debug,
{
    let poly = table::<R>(alloc, &[3, 4, 5, 6])?;
    if !prints_view(alloc, &poly)? || !prints_lanes::<R>(alloc, &poly)? {
        return Ok(false);
    }
    prints_scalars::<R>(alloc, poly)
}

/// Whether the split table that a call makes prints as it must.
fn prints_split<R: ExtensionField<R> + Debug>(
    alloc: Global,
    split: Result<SplitEq<R, R>, AllocError>,
    text: &str,
) -> Result<bool, AllocError>
where
    R::ExtensionPacking: Debug,
{
    is_printed(alloc, &split?, text)
}

/// Whether both split tables of the point (0, 1, 1), times 3, print as they must.
fn prints_halves<R: ExtensionField<R> + Debug>(alloc: Global) -> Result<bool, AllocError>
where
    R::ExtensionPacking: Debug,
{
    let point = point::<R>(alloc, &[0, 1, 1])?;
    let scalars = "SplitEq { eq0: Poly { evals: [BabyBear { value: 3 }, BabyBear { value: 0 }] }, \
        eq1: EqMaybePacked { weights: Scalar(Table { values: [BabyBear { value: 0 }, \
        BabyBear { value: 0 }, BabyBear { value: 0 }, BabyBear { value: 1 }] }) } }";
    let lanes = "SplitEq { eq0: Poly { evals: [BabyBear { value: 3 }, BabyBear { value: 0 }] }, \
        eq1: EqMaybePacked { weights: Packed(Table { values: [Lanes { values: [BabyBear { value: 0 }, \
        BabyBear { value: 0 }, BabyBear { value: 0 }, BabyBear { value: 1 }] }] }) } }";
    let unpacked = SplitEq::<R, R>::new_unpacked(alloc, &point, element(3));
    if !prints_split(alloc, unpacked, scalars)? {
        return Ok(false);
    }
    let packed = SplitEq::<R, R>::new_packed(alloc, &point, element(3));
    prints_split(alloc, packed, lanes)
}

/// Whether 3, 4, 5, 6 in both storages, and split tables, print as they must.
pub fn prints<R: ExtensionField<R> + Debug>(alloc: Global) -> Result<bool, AllocError>
where
    R::ExtensionPacking: Debug,
{
    Ok(prints_values::<R>(alloc)? && prints_halves::<R>(alloc)?)
}

#[test]
fn texts(rt: HostRuntime) -> Result<(), Fail> {
    assert!(rt; residues(rt.alloc(), Printed(Row::Polynomials))?);
    Ok(())
}
