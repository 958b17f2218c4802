//! What `{:?}` prints, beside what it is to print.
use mlu_test_support::texts::debug_text;
use std::alloc::{AllocError, Global};
use std::fmt::Debug;

/// Whether `{:?}` prints this of the value.
pub fn prints<T: Debug>(alloc: Global, value: &T, expected: &str) -> Result<bool, AllocError> {
    let text = debug_text(alloc, value)?;
    Ok(text.as_str() == expected)
}
