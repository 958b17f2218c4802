//! Kernels that join packed weights with a table of base elements.
//!
//! [`compress_hi_dot_packed`] sums the entries of a chunk, each times the weights of its row and
//! its column; [`rows::row_dots`] gives the dot of each row; [`compress_prefix_to_packed_packed`]
//! adds the rows, each times its weight, to a packed output. Packed weights stand for their lanes,
//! joined in order. [`packed_basis_dot`] gives dots of packed values, whose products a meter makes.
//! [`rows`], [`one_row`] and [`small`] are for the split tables of `mlu_eq`.
//!
//! Each of the first three has an eager form, which reduces each product at once and serves every
//! width and dimension. The fast forms reduce once for four products: dots go by columns of
//! coefficients where there are at most 128 packed weights of 1 to 8 coefficients, and the prefix
//! kernel goes by four rows where the number of lanes is a multiple of four. Both keep elements on
//! the stack, so these have to be small. None of the calls takes memory.
#![tactic(auto)]

mod basis_dot;
mod basis_split;
mod dot;
mod four_rows;
pub mod one_row;
mod prefix;
pub mod rows;
pub mod small;

pub use basis_dot::packed_basis_dot;
pub use dot::{compress_hi_dot_packed, compress_hi_dot_packed_eager};
pub use prefix::{compress_prefix_to_packed_packed, compress_prefix_to_packed_packed_kernel_eager};
