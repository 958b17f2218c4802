//! What `{:?}` is to print of values that hold residues, in packings of four lanes.

use crate::{polynomials, slices};
use mlu_ring::ExtensionField;
use mlu_test_support::texts::debug_text;
use std::alloc::{AllocError, Global};
use std::fmt::Debug;

/// What is printed.
#[derive(Drop)]
pub enum Row {
    Polynomials,
    SecondHalves,
}

/// Whether all that the row prints is right.
pub fn are_right<R: ExtensionField<R> + Debug>(alloc: Global, row: Row) -> Result<bool, AllocError>
where
    R::ExtensionPacking: Debug,
{
    match row {
        Row::Polynomials => polynomials::texts::prints::<R>(alloc),
        Row::SecondHalves => slices::texts::prints::<R>(alloc),
    }
}

/// Whether this is what is printed of the value.
pub fn is_printed<T: Debug>(alloc: Global, value: &T, text: &str) -> Result<bool, AllocError> {
    Ok(debug_text(alloc, value)?.as_str() == text)
}
