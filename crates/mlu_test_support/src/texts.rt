//! What values print.
use std::alloc::{AllocError, Global};
use std::fmt::Debug;

/// What `{:?}` prints of the value.
pub fn debug_text<T: Debug>(alloc: Global, value: &T) -> Result<String, AllocError> {
    format!(in alloc; "{value:?}")
}
