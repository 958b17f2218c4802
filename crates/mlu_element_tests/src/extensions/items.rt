//! The items of a ring at quartics and at two copies: those that each ring has, through one bound, and those of
//! fields and of algebras.
ghost use Rattle.std.specs.Prelude.{◌≡◌, ⊤};

use super::Row::Items;
use super::{Pair, Quartic, pair, quartic};
use crate::rings::Row::Extensions;
use crate::rings::{PairRow, pairs, quartics};
use mlu_lanes::Lanes;
use mlu_ring::{Field, PackedValue, SelfAlgebra};
use mlu_test_support::bounds::{
    four_times, gives_zeros, products, sums, sums_at_places, sums_columns,
};
use std::alloc::{AllocError, Global};
use std::test::Fail;

/// A call of a ring, with what it is given and what it is to answer.
#[derive(Copy)]
pub enum Row<R> {
    Sums(R, R, R),
    Products(R, R, R),
    FourProducts(R, R, R),
    Columns(R, R),
    Places,
    Zeros,
    Scaled(R, R, R),
    ScaledByItself(R, R, R),
}

/// By hand, as the derived one takes the prover ten times as long.
impl<R: Copy> Clone for Row<R> {
    ghost is_clone = { λ a b. a ≡ b };

    ghost is_infallible = { λ _. ⊤ };

    fn clone(&self) -> Result<Self, AllocError> {
        Ok(*self)
    }
}

/// Whether the row holds.
pub fn holds<R: SelfAlgebra>(alloc: Global, row: Row<R>) -> Result<bool, AllocError> {
    match row {
        Row::Sums(a, b, answer) => Ok(sums(a, b) == answer),
        Row::Products(a, b, answer) => Ok(products(a, b) == answer),
        Row::FourProducts(a, b, answer) => Ok(four_times(a, b) == answer),
        Row::Columns(a, b) => Ok(sums_columns(a, b)),
        Row::Places => sums_at_places::<R>(alloc),
        Row::Zeros => gives_zeros::<R>(alloc),
        Row::Scaled(a, b, answer) => Ok(a.scale(b).plus(b) + R::from_base(b) == answer),
        Row::ScaledByItself(a, b, answer) => Ok(a.scale(b) == answer),
    }
}

#[test]
fn ring_of_quartics(rt: HostRuntime) -> Result<(), Fail> {
    let a = quartic(1, 2, 3, 4);
    let [x, square, cube] = [
        quartic(0, 1, 0, 0),
        quartic(0, 0, 1, 0),
        quartic(0, 0, 0, 1),
    ];
    let rows = [
        Row::Sums(a, quartic(1, 1, 0, 0), quartic(6, 7, 6, 8)),
        Row::Products(square, x, quartic(0, 0, 22, 0)),
        Row::FourProducts(square, cube, quartic(0, 44, 0, 0)),
        Row::Columns(square, cube),
        Row::Places,
        Row::Zeros,
        Row::Scaled(a, cube, quartic(22, 33, 44, 3)),
        Row::ScaledByItself(a, cube, quartic(22, 33, 44, 1)),
    ];
    for (index, row) in rows.iter().enumerate() {
        assert!(rt;
            quartics(rt.alloc(), Extensions(Items(*row)))?,
            "row {index}"
        );
    }
    Ok(())
}

#[test]
fn ring_of_pairs(rt: HostRuntime) -> Result<(), Fail> {
    let (a, b) = (pair(1, 2), pair(3, 4));
    let rows = [
        Row::Sums(a, b, pair(12, 17)),
        Row::Products(a, b, pair(18, 128)),
        Row::FourProducts(a, b, pair(12, 32)),
        Row::Columns(a, b),
        Row::Places,
        Row::Zeros,
        Row::Scaled(a, b, pair(9, 16)),
        Row::ScaledByItself(a, b, pair(3, 8)),
    ];
    for (index, row) in rows.iter().enumerate() {
        assert!(rt; pairs(rt.alloc(), PairRow::Items(*row))?, "row {index}");
    }
    Ok(())
}

#[test]
fn field_of_quartics(rt: HostRuntime) {
    let (a, cube) = (quartic(1, 2, 3, 4), quartic(0, 0, 0, 1));
    let (p, q) = (Lanes::<Quartic, 1>::splat(a), Lanes::splat(cube));
    assert!(rt; (p + p + q).lane(0) == quartic(2, 4, 6, 9));
    let groups = Quartic::dot4(&[p; 4], &[q; 4]) + Quartic::mixed_dot4(&[p; 4], &[cube; 4]);
    let fixed = Quartic::lanes_times_fixed(p, q) + Quartic::lanes_scale(p, cube);
    let elevenfold = groups + Quartic::lanes_mul(p, q) + fixed;
    assert!(rt; elevenfold == Lanes::splat(quartic(242, 363, 484, 11)));
    assert!(rt; Quartic::bytes() == 16);
}

#[test]
fn field_of_pairs(rt: HostRuntime) {
    let (a, b) = (pair(1, 2), pair(3, 4));
    let (p, q) = (Lanes::<Pair, 1>::splat(a), Lanes::splat(b));
    assert!(rt; (p + p + q).lane(0) == pair(5, 8));
    let groups = Pair::dot4(&[p; 4], &[q; 4]) + Pair::mixed_dot4(&[p; 4], &[b; 4]);
    let fixed = Pair::lanes_times_fixed(p, q) + Pair::lanes_scale(p, b);
    let elevenfold = groups + Pair::lanes_mul(p, q) + fixed;
    assert!(rt; elevenfold == Lanes::splat(pair(33, 88)));
    assert!(rt; Pair::bytes() == 8);
}
