//! Calls on multilinear polynomials over the integers modulo 2013265921 and their extension of degree four,
//! in words.
//!
//! An element of the base field is one word, its least residue, and one of the extension four, those
//! of its coefficients; a table or a point is the words of its elements, one after the other. A call
//! tests the size of each operand, then whether the sizes fit one another, then whether the words
//! that it reads are residues. It writes at the end alone, so an output is as before where there is a fault.
#![tactic(auto)]

mod batches;
mod calls;
mod compression;
mod evaluation;
mod fault;
mod folds;
mod operands;
mod rings;
mod sizes;
mod sumcheck;
mod tables;
mod words;

pub use evaluation::Vertices;
pub use fault::{Fault, status, verdict};
pub use operands::Variables;
pub use rings::{
    compress, equality_weights, eval_base, eval_eq_batch, eval_ext, fix_var_mut, sumcheck_run,
    sumcheck_verify,
};
