//! The second half of a split table.

pub use mlu_eq::EqMaybePacked;
