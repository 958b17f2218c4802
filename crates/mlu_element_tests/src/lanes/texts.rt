//! What `{:?}` prints of residues, words, lanes and matrices.
use super::{Bear, Word};
use crate::texts::prints;
use mlu_lanes::{BabyBear, Lanes, WrappingU64};
use mlu_ring::{RowMajorMatrix, RowMajorMatrixView};
use std::test::Fail;

#[test]
fn rings(rt: HostRuntime) -> Result<(), Fail> {
    let residue = Bear::from_u32(2013265922);
    assert!(rt; prints(rt.alloc(), &residue, "BabyBear { value: 1 }")?);
    let word = Word::new(u64::MAX);
    assert!(rt;
        prints(
            rt.alloc(),
            &word,
            "WrappingU64 { value: 18446744073709551615 }"
        )?
    );
    Ok(())
}

#[test]
fn lanes(rt: HostRuntime) -> Result<(), Fail> {
    let two = Lanes::from_array([1, 2].map(BabyBear::<2>::from_u32));
    let expected = "Lanes { values: [BabyBear { value: 1 }, BabyBear { value: 2 }] }";
    assert!(rt; prints(rt.alloc(), &two, expected)?);
    let none = Lanes::<BabyBear<2>, 0>::from_array([]);
    assert!(rt; prints(rt.alloc(), &none, "Lanes { values: [] }")?);
    Ok(())
}

#[test]
fn matrices(rt: HostRuntime) -> Result<(), Fail> {
    let owned = RowMajorMatrix::new(Vec::from_slice(rt.alloc(), &[Word::new(3)])?, 1);
    let expected = "RowMajorMatrix { values: [WrappingU64 { value: 3 }], width: 1 }";
    assert!(rt; prints(rt.alloc(), &owned, expected)?);
    let none = RowMajorMatrixView::<Word>::new(&[], 2);
    assert!(rt;
        prints(
            rt.alloc(),
            &none,
            "RowMajorMatrixView { values: [], width: 2 }"
        )?
    );
    Ok(())
}
