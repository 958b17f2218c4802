//! Elements that stand in words.

use std::alloc::{AllocError, Global};

/// Elements that stand in words, so many each.
pub trait Words: Copy {
    /// The elements that the words stand for; words after the last whole element are not read.
    fn read(alloc: Global, words: &[u32]) -> Result<Vec<Self>, AllocError>;
}
