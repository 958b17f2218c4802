//! The elements that words stand for.

use mlu_lanes::BabyBear;

/// An integer modulo 2013265921.
pub type Element = BabyBear<4>;
