//! Tests of elements at concrete rings, from outside: of rings and lanes, extensions, points and kernels, a module for
//! each, and the rings.
//!
//! A crate of its own, so that the libraries are proved once and those above `mlu_ext` name no ring; nothing stands on
//! it. What stands on polynomials is tried in `mlu_polynomial_tests`.
#![tactic(auto)]

#[cfg(test)]
mod extensions;
#[cfg(test)]
mod kernels;
#[cfg(test)]
mod lanes;
#[cfg(test)]
mod points;
#[cfg(test)]
mod rings;
#[cfg(test)]
mod texts;
#[cfg(test)]
mod without_rings;
