//! The calls on polynomials beside their definitions, at every shape, over any rings; and below them the
//! kernels, and the calls over slices, by themselves.
//!
//! [`sweep`] draws tables and points of each size, makes the calls, and compares what they give with the
//! plain sums. Stands on `multilinear_util`, on `mlu_kernel` and `mlu_eq` below it, and on the crates of
//! test support; the replay makes it at each ring. It is a crate of its own since it names no ring.
#![tactic(auto)]

mod batches;
mod definitions;
mod draws;
mod folds;
mod halves;
mod kernels;
mod lanes;
mod points;
mod polys;
mod report;
mod shapes;
mod slices;
mod splits;

pub use report::Difference;
pub use shapes::sweep;
