//! What `{:?}` prints of extensions.
use super::{pair, quartic};
use crate::texts::prints;
use std::test::Fail;

#[test]
fn quartics(rt: HostRuntime) -> Result<(), Fail> {
    let expected =
        "QuarticExtension { c0: BabyBear { value: 1 }, c1: BabyBear { value: 2 }, c2: BabyBear { value: 3 }, c3: BabyBear { value: 4 } }";
    assert!(rt; prints(rt.alloc(), &quartic(1, 2, 3, 4), expected)?);
    Ok(())
}

#[test]
fn products(rt: HostRuntime) -> Result<(), Fail> {
    let expected =
        "ProductAlgebra { copies: Lanes { values: [BabyBear { value: 1 }, BabyBear { value: 2 }] } }";
    assert!(rt; prints(rt.alloc(), &pair(1, 2), expected)?);
    Ok(())
}
