//! What the program `mlu` does with its words: multilinear polynomials over the integers modulo
//! 2013265921, in decimals.
//!
//! The words are a command and its operands, lists of decimals. [`answer`] gives the bytes to print
//! or the first fault of the words ([`Fault`]), and its contract says which, in the definitions of
//! mlu_ring; their faults are tested before memory is asked for. [`emit::emit`] writes either, and
//! gives the status that the program ends with.
//!
//! Stands on mlu_lanes for the elements, on multilinear_util for points and polynomials, and on
//! mlu_sumcheck.
#![tactic(auto)]

mod command;
mod element;
pub mod emit;
mod fault;
mod operands;
mod proof;
mod routes;
mod words;

pub use command::answer;
pub use fault::Fault;
