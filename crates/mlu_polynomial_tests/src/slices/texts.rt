//! What `{:?}` prints of second halves of split tables of residues, in packings of four lanes.
ghost use Rattle.std.specs.Prelude.{◌≡◌, length};

use crate::printed::{Row, is_printed};
use crate::rings::Row::Printed;
use crate::rings::residues;
use mlu_eq::half;
use mlu_ring::{ExtensionField, PackedValue};
use mlu_test_support::lanes::packed;
use mlu_test_support::numbers::elements;
use std::alloc::{AllocError, Global};
use std::fmt::Debug;
use std::test::Fail;

/// Whether 3, 4, 5, 6 in both storages print as they must.
pub fn prints<R: ExtensionField<R> + Debug>(alloc: Global) -> Result<bool, AllocError>
where
    R::ExtensionPacking: Debug,
{
    let weights = elements::<R>(alloc, &[3, 4, 5, 6])?;
    if !prints_lanes::<R>(alloc, &weights)? {
        return Ok(false);
    }
    prints_scalars::<R>(alloc, weights)
}

/// Whether the scalar storage prints as it must.
fn prints_scalars<R: ExtensionField<R> + Debug>(
    alloc: Global,
    weights: Vec<R>,
) -> Result<bool, AllocError>
where
    R::ExtensionPacking: Debug,
{
    if !weights.len().is_power_of_two() {
        return Ok(false);
    }
    let scalar = half::from_scalars::<R, R>(weights);
    let text = "EqMaybePacked { weights: Scalar(Table { values: [BabyBear { value: 3 }, \
        BabyBear { value: 4 }, BabyBear { value: 5 }, BabyBear { value: 6 }] }) }";
    is_printed(alloc, &scalar, text)
}

/// Whether the packed storage prints as it must.
fn prints_lanes<R: ExtensionField<R> + Debug>(
    alloc: Global,
    weights: &[R],
) -> Result<bool, AllocError>
where
    R::ExtensionPacking: Debug,
    requires { length weights.now ≡ 4 }
{
    if R::Packing::WIDTH != 4 {
        return Ok(false);
    }
    let in_lanes = packed::<R, R>(alloc, weights, 1)?;
    if !in_lanes.len().is_power_of_two() {
        return Ok(false);
    }
    let packed = half::from_packed::<R, R>(in_lanes);
    let text =
        "EqMaybePacked { weights: Packed(Table { values: [Lanes { values: [BabyBear { value: 3 }, \
        BabyBear { value: 4 }, BabyBear { value: 5 }, BabyBear { value: 6 }] }] }) }";
    is_printed(alloc, &packed, text)
}

#[test]
fn both_storages(rt: HostRuntime) -> Result<(), Fail> {
    assert!(rt; residues(rt.alloc(), Printed(Row::SecondHalves))?);
    Ok(())
}
