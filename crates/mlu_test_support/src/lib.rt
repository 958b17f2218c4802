//! What the crates of tests share: drawn elements, the images of whole numbers, lists, lists in
//! lanes, calls through each bound, the plain sums, and what values print.
//!
//! Each sum goes over every index by itself, by the definition and not by any route of the library,
//! and asks the least bound that it can be said over.
#![tactic(auto)]

pub mod bounds;
pub mod draws;
pub mod lanes;
pub mod lists;
pub mod numbers;
pub mod plain;
pub mod texts;
