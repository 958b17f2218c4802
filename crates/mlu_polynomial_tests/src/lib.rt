//! Tests of tables at concrete rings, from outside: of slices, polynomials and sumcheck, a module for each, the examples
//! of the documents, and the rings.
//!
//! A crate of its own, so that the libraries are proved once and name no ring; nothing stands on it. What stands on
//! elements alone is tried in `mlu_element_tests`.
#![tactic(auto)]

#[cfg(test)]
mod examples;
#[cfg(test)]
mod polynomials;
#[cfg(test)]
mod printed;
#[cfg(test)]
mod rings;
#[cfg(test)]
mod slices;
#[cfg(test)]
mod sumcheck;
