//! A call of each item of a ring through its bound.
use crate::numbers::{are, elements};
use mlu_ring::{Additive, PrimeCharacteristicRing, RingMapFrom};
use std::alloc::{AllocError, Global};

/// 2 (a + b) + b + 1
pub fn sums<R: Additive>(a: R, b: R) -> R {
    (a + b).double() - (-b) + R::ONE - R::ZERO
}

/// 2 (a b)^2
pub fn products<R: PrimeCharacteristicRing>(a: R, b: R) -> R {
    (a * b).square() * R::TWO + R::NEG_ONE + R::from_bool(true) - R::from_bool(false)
}

/// 4 a b
pub fn four_times<R: PrimeCharacteristicRing>(a: R, b: R) -> R {
    R::four_products(&(a, a, a, a), &(b, b, b, b))
}

/// Whether the row (a, b, a + b, 1) times a matrix has the sums of the products one by one, with fixed
/// columns too, and `a` times a fixed `b` is their product.
pub fn sums_columns<R: PrimeCharacteristicRing>(a: R, b: R) -> bool {
    let (sum, product) = (a + b, a * b);
    let l = (a, b, sum, R::ONE);
    let (first, second) = ((b, a, product, sum), (sum, a, R::ZERO, b));
    let (third, fourth) = ((R::ONE, product, b, a), (product, sum, a, R::ZERO));
    let row = R::row_times_columns(&l, &first, &second, &third, &fourth);
    let fixed = R::row_times_fixed_columns(&l, &first, &second, &third, &fourth);
    row.0 == one_by_one(&l, &first)
        && row.1 == one_by_one(&l, &second)
        && row.2 == one_by_one(&l, &third)
        && row.3 == one_by_one(&l, &fourth)
        && (fixed.0 == row.0 && fixed.1 == row.1 && fixed.2 == row.2 && fixed.3 == row.3)
        && a.times_fixed(b) == product
}

fn one_by_one<R: PrimeCharacteristicRing>(l: &(R, R, R, R), r: &(R, R, R, R)) -> R {
    l.0 * r.0 + l.1 * r.1 + l.2 * r.2 + l.3 * r.3
}

/// Whether at five places 2 a b + 2 d, and a + 2 b + 3 + 4 d, are right for a = 1 to 5, b = 5 to 1,
/// d = 0 to 4.
pub fn sums_at_places<R: PrimeCharacteristicRing>(alloc: Global) -> Result<bool, AllocError> {
    let a = elements::<R>(alloc, &[1, 2, 3, 4, 5])?;
    let b = elements::<R>(alloc, &[5, 4, 3, 2, 1])?;
    let one = elements::<R>(alloc, &[1, 1, 1, 1, 1])?;
    let d = elements::<R>(alloc, &[0, 1, 2, 3, 4])?;
    let mut out = elements::<R>(alloc, &[0, 0, 0, 0, 0])?;
    let left = (a.as_slice(), b.as_slice(), one.as_slice(), d.as_slice());
    let right = (b.as_slice(), a.as_slice(), d.as_slice(), one.as_slice());
    R::each_four_products(out.as_mut_slice(), &left, &right);
    let each = are(out.as_slice(), &[10, 18, 22, 22, 18]);
    let column = (R::ONE, R::TWO, R::TWO + R::ONE, R::TWO.double());
    R::rows_times_column(out.as_mut_slice(), &left, &column);
    Ok(each && are(out.as_slice(), &[14, 17, 20, 23, 26]))
}

/// Whether three zeros are three zeros.
pub fn gives_zeros<R: PrimeCharacteristicRing>(alloc: Global) -> Result<bool, AllocError> {
    let zeros = R::zero_vec(alloc, 3)?;
    Ok(are(zeros.as_slice(), &[0, 0, 0]))
}

/// The image of `x` under a map of rings.
pub fn ring_mapped<A: Additive, B: RingMapFrom<A>>(x: A) -> B {
    B::map(x)
}
