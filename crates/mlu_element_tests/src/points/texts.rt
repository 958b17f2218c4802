//! What `{:?}` prints of points, orders and rules.
use crate::texts::prints;
use mlu_lanes::WrappingU64;
use mlu_point::point::{BitOrder, Point, PointView, Successor};
use mlu_test_support::numbers::elements;
use std::test::Fail;

#[test]
fn points(rt: HostRuntime) -> Result<(), Fail> {
    let owned = Point::new(elements::<WrappingU64<4>>(rt.alloc(), &[2, 3])?);
    let views = (owned.as_view(), PointView::<WrappingU64<4>>::default());
    let expected = "Point { coords: [WrappingU64 { value: 2 }, WrappingU64 { value: 3 }] }";
    assert!(rt; prints(rt.alloc(), &owned, expected)?);
    let expected =
        "(PointView { coords: [WrappingU64 { value: 2 }, WrappingU64 { value: 3 }] }, PointView { coords: [] })";
    assert!(rt; prints(rt.alloc(), &views, expected)?);
    Ok(())
}

#[test]
fn orders_and_rules(rt: HostRuntime) -> Result<(), Fail> {
    let words = (
        BitOrder::Msb,
        BitOrder::Lsb,
        Successor::RepeatLast,
        Successor::Wrap,
    );
    assert!(rt; prints(rt.alloc(), &words, "(Msb, Lsb, RepeatLast, Wrap)")?);
    Ok(())
}
