//! What neither the replay nor the sweep tries: the laws, folds of long tables, and what `{:?}` prints.

mod folds;
mod laws;
pub mod texts;

use crate::rings::Row::Slices;
use crate::rings::{quartics, residues, words};
use mlu_ring::{Sample, SelfAlgebra};
use std::alloc::{AllocError, Global};
use std::test::Fail;

/// What is to hold.
#[derive(Drop)]
pub enum Row {
    Laws,
    FoldsOfLongTables,
}

/// Whether the row holds.
pub fn holds<R: SelfAlgebra + Sample>(alloc: Global, row: Row) -> Result<bool, AllocError> {
    match row {
        Row::Laws => laws::are_called::<R>(alloc),
        Row::FoldsOfLongTables => folds::agree::<R>(alloc),
    }
}

#[test]
fn laws_are_called(rt: HostRuntime) -> Result<(), Fail> {
    assert!(rt; residues(rt.alloc(), Slices(Row::Laws))?);
    assert!(rt; words(rt.alloc(), Row::Laws)?);
    assert!(rt; quartics(rt.alloc(), Slices(Row::Laws))?);
    Ok(())
}

#[test]
fn folds_of_long_tables(rt: HostRuntime) -> Result<(), Fail> {
    assert!(rt; residues(rt.alloc(), Slices(Row::FoldsOfLongTables))?);
    assert!(rt; quartics(rt.alloc(), Slices(Row::FoldsOfLongTables))?);
    Ok(())
}
