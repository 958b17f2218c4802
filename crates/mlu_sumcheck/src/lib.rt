//! Sumcheck over two tables: what a prover sends, what a verifier tests, and what a claim that
//! passes is worth.
//!
//! The claim is the sum of the products of a polynomial's values with weights. A round puts the
//! first variable of both tables at X: three coefficients, whose values at 0 and 1 add up to the
//! claim. Its value at a challenge is the next claim, about both tables folded there. After all rounds
//! one product of two values at the challenges is left to test.
//!
//! Nothing here says how often a false claim passes; [`laws::caught`] says where it is caught.
#![tactic(auto)]

pub mod laws;
mod prover;
mod verifier;

pub use prover::{Transcript, bind, prove_round, prove_round_of_claim, run};
pub use verifier::{verify, verify_round};
