//! Sums of packed products: their values, and what the meter counts.
ghost use Rattle.std.specs.Prelude.{◌<◌};

use mlu_kernel::packed_basis_dot;
use mlu_lanes::{BabyBear, Lanes};
use mlu_ring::{Additive, Counter};
use mlu_test_support::draws::drawn;
use mlu_test_support::plain::dot;
use rand_pcg::Pcg32;
use std::alloc::{AllocError, Global};
use std::test::Fail;

type Bear = BabyBear<4>;

type Bears = Lanes<Bear, 4>;

type One = Lanes<BabyBear<1>, 1>;

/// Whether each sum is the plain dot of its row and `rhs`.
fn are_dots(sums: &[Bears], rows: &[&[Bears]], rhs: &[Bears]) -> bool {
    for (sum, row) in sums.iter().zip(rows.iter()) {
        if *sum != dot(row, rhs) {
            return false;
        }
    }
    sums.len() == rows.len()
}

/// Whether four rows of `n` drawn values give the plain dots, and the meter these counts.
fn four_rows_count(alloc: Global, n: usize, groups: u64, made: u64) -> Result<bool, AllocError>
    requires { n < 256 }
{
    let values = drawn::<Bears>(alloc, &mut Pcg32::new(1, 54), 5 * n)?;
    let rows = [
        &values[..n],
        &values[n..2 * n],
        &values[2 * n..3 * n],
        &values[3 * n..4 * n],
    ];
    let rhs = &values[4 * n..5 * n];
    let mut meter = Counter::new();
    let sums = packed_basis_dot::<Bear, Counter, 4>(&rows, rhs, &mut meter);
    Ok(are_dots(&sums, &rows, rhs) && (meter.groups(), meter.made()) == (groups, made))
}

/// Whether one row of `n` drawn values gives the plain dot, and the meter these counts.
fn one_row_counts(alloc: Global, n: usize, groups: u64, made: u64) -> Result<bool, AllocError>
    requires { n < 256 }
{
    let values = drawn::<Bears>(alloc, &mut Pcg32::new(2, 54), 2 * n)?;
    let (row, rhs) = (&values[..n], &values[n..2 * n]);
    let mut meter = Counter::new();
    let sums = packed_basis_dot::<Bear, Counter, 1>(&[row], rhs, &mut meter);
    Ok(are_dots(&sums, &[row], rhs) && (meter.groups(), meter.made()) == (groups, made))
}

#[test]
fn sums_of_ones(rt: HostRuntime) -> Result<(), Fail> {
    let row = [One::ONE; 5];
    let mut meter = Counter::new();
    let sums = packed_basis_dot::<BabyBear<1>, Counter, 4>(
        &[&row, &row, &row, &row],
        &row,
        &mut meter,
    );
    let two = One::ONE + One::ONE;
    for sum in sums.iter() {
        assert!(rt; *sum == two + two + One::ONE);
    }
    assert_eq!(rt; meter.groups(), 4);
    assert_eq!(rt; meter.made(), 4);
    Ok(())
}

#[test]
fn counts_of_rows(rt: HostRuntime) -> Result<(), Fail> {
    let alloc = rt.alloc();
    assert!(rt; four_rows_count(alloc, 130, 128, 32)?);
    assert!(rt; four_rows_count(alloc, 0, 0, 0)?);
    assert!(rt; four_rows_count(alloc, 3, 0, 48)?);
    assert!(rt; one_row_counts(alloc, 4, 1, 0)?);
    assert!(rt; one_row_counts(alloc, 0, 0, 0)?);
    Ok(())
}
