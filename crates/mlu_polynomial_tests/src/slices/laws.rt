//! Calls of the laws.
ghost use Rattle.std.specs.Prelude.{◌≡◌, ◌^◌, length};

use mlu_eq::laws::{affine, joined_prefix, joined_suffix, padded, univariate, vertex};
use mlu_ring::PrimeCharacteristicRing;
use mlu_test_support::numbers::elements;
use std::alloc::{AllocError, Global};

/// Calls each law.
pub fn are_called<R: PrimeCharacteristicRing>(alloc: Global) -> Result<bool, AllocError> {
    let table = elements::<R>(alloc, &[1, 2, 3, 4])?;
    let first = elements(alloc, &[2])?;
    let rest = elements(alloc, &[3])?;
    call(&table, &first, &rest);
    Ok(true)
}

/// Calls each law of a table of two variables, or of its first half, and of the parts of a point.
fn call<R: PrimeCharacteristicRing>(table: &[R], first: &[R], rest: &[R])
    requires table { length table.now ≡ 4 }
    requires first { length first.now ≡ 1 }
    requires rest { length rest.now ≡ 1 }
{
    vertex(table);
    affine(table);
    joined_prefix(table, first, rest);
    joined_suffix(table, first, rest);
    univariate(table);
    padded(&table[..2], first, rest);
}
