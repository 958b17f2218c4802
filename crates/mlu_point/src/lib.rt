//! Points of a cube, their equality tables, and batches of such tables.
//!
//! [`point::Point`] owns its coordinates and [`point::PointView`] borrows them; both give the same
//! answers. An equality table lists the weights of all vertices at a point, and a batch adds up
//! the tables of many points, each with a scalar. Contracts name the definitions of `mlu_ring`:
//! `weights`, `lsb`, `value`, `transposed` and `batch`.
#![tactic(auto)]

pub mod eq_batch;
pub mod point;
