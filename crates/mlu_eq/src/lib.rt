//! Evaluation and folds of tables, as functions over slices, and the laws of the value of a table.
//!
//! A table of `n` variables is a slice of `2^n` entries; coordinate 0 reads the top bit of an
//! index. Evaluation is the recursion on the first variable. A prefix fold puts a value in place
//! of the first variable, so it joins the two halves; a suffix fold puts it in place of the last
//! one, so it joins entries side by side.
//!
//! [`EqMaybePacked`] has the weights of the second half of a split table, as scalars or packed;
//! [`half`] makes it. The kernels over both halves stand in [`split`]: dots, accumulations, and the
//! compressions of a table.
//!
//! The calls over slices are stated by the value, `front` and `back` of `mlu_ring`. Nothing takes memory but
//! the calls that are handed an allocator.
#![tactic(auto)]

mod evaluation;
pub mod half;
pub mod laws;
mod line;
mod prefix;
pub mod split;
mod suffix;
mod unpack;

pub use evaluation::{eval_base, eval_ext};
pub use half::EqMaybePacked;
pub use prefix::{
    fold_monomial_in_place, fold_prefix, fold_prefix_at, fold_prefix_in_place,
    fold_prefix_to_packed, sum_halves_in_place,
};
pub use suffix::{fold_suffix, fold_suffix_by_base, fold_suffix_in_place};
pub use unpack::unpack_into;
