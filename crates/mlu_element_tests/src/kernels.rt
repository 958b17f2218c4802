//! What neither the sweep nor a line of the replay tries of the kernels: worked rows.

mod basis_dots;
mod worked;

use crate::rings::Row::Kernels;
use crate::rings::{nine_copies, quartics, residues};
use mlu_ring::{ExtensionField, Field};
use std::alloc::{AllocError, Global};
use std::test::Fail;

/// A call and what it is to answer.
pub enum Row {
    TwoRows,
    OneRow,
    FourRows,
}

/// Whether the row holds.
pub fn holds<F: Field, EF: ExtensionField<F>>(alloc: Global, row: Row) -> Result<bool, AllocError> {
    match row {
        Row::TwoRows => worked::dot_of_two_rows::<F, EF>(alloc),
        Row::OneRow => worked::lanes_of_one_row::<F, EF>(alloc),
        Row::FourRows => worked::four_rows_added::<F, EF>(alloc),
    }
}

#[test]
fn worked_dots(rt: HostRuntime) -> Result<(), Fail> {
    assert!(rt; residues::<4>(rt.alloc(), Kernels(Row::TwoRows))?);
    assert!(rt; quartics(rt.alloc(), Kernels(Row::TwoRows))?);
    assert!(rt; nine_copies(rt.alloc(), Kernels(Row::TwoRows))?);
    assert!(rt; residues::<4>(rt.alloc(), Kernels(Row::OneRow))?);
    assert!(rt; quartics(rt.alloc(), Kernels(Row::OneRow))?);
    Ok(())
}

#[test]
fn worked_rows_added(rt: HostRuntime) -> Result<(), Fail> {
    assert!(rt; residues::<4>(rt.alloc(), Kernels(Row::FourRows))?);
    assert!(rt; quartics(rt.alloc(), Kernels(Row::FourRows))?);
    Ok(())
}
