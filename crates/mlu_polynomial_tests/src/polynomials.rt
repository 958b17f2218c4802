//! What neither `mlu_sweep` nor a line of `mlu_replay` tries of polynomials and split tables: worked rows over any
//! ring, one test a row, at residues; and what `{:?}` prints.

pub mod images;
pub mod polys;
pub mod texts;

use mlu_ring::{PrimeCharacteristicRing, Sample};
use std::alloc::{AllocError, Global};

/// What is tried.
#[derive(Drop)]
pub enum Row {
    Constants,
    Draws,
    Owned,
    TheFunction,
    Views,
}

/// Whether the row holds.
pub fn holds<R: PrimeCharacteristicRing + Sample>(
    alloc: Global,
    row: Row,
) -> Result<bool, AllocError> {
    match row {
        Row::Constants => polys::is_constant::<R>(alloc),
        Row::Draws => polys::draws_two::<R>(alloc),
        Row::Owned => polys::owns::<R>(alloc),
        Row::TheFunction => polys::is_the_function::<R>(alloc),
        Row::Views => polys::is_viewed::<R>(alloc),
    }
}
