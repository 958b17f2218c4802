//! Rings of numbers, and values side by side.
//!
//! [`Lanes`] holds `W` elements of any ring and works lane by lane. It is a ring at every width,
//! and a packed value at the widths 1, 2, 4, 8 and 16. [`BabyBear`] has the integers modulo
//! 2013265921 and [`WrappingU64`] those modulo 2^64; at these widths both are fields of the
//! library, packed by their lanes. Each proves every law of the traits that it implements.
#![tactic(auto)]

mod baby_bear;
mod coefficients;
mod lanes;
mod sample;
mod words;
mod wrapping;

pub use baby_bear::columns::column_times_rows;
pub use baby_bear::transpose::{coefficient_columns, four_lanes};
pub use baby_bear::{BabyBear, MODULUS};
pub use coefficients::Coefficients;
pub use lanes::{LaneWidth, Lanes};
pub use wrapping::WrappingU64;
