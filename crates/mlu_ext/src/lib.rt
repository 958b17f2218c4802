//! Extensions of a ring: polynomials modulo X^4 - 11, and copies side by side.
//!
//! [`QuarticExtension`] and [`ProductAlgebra`] are rings over any ring, so over packed values too,
//! which they take as they are: the packed form of an extension has packed coefficients. Over
//! [`BabyBear`](mlu_lanes::BabyBear) they are fields of the library, for each width.
#![tactic(auto)]

mod coefficients;
mod product;
mod quartic;

pub use product::ProductAlgebra;
pub use quartic::QuarticExtension;
