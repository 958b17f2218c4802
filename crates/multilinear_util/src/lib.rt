//! Multilinear polynomials kept as their `2^n` values on the Boolean cube.
//!
//! [`poly`] has the polynomials, owned and borrowed, scalar and packed: their folds, their packing
//! and their values at points. [`split_eq`] has equality tables in two halves, and values,
//! accumulations and compressions through them. The points, their equality tables and batches of
//! tables come from `mlu_point`, the laws of the value from `mlu_eq`.
#![tactic(auto)]

mod packing;
pub mod poly;
pub mod split_eq;

pub use mlu_eq::laws;
pub use mlu_point::{eq_batch, point};
