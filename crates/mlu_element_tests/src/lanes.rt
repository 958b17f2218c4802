//! Worked values, calls of each item at each ring, and what `{:?}` prints.
pub mod bounds;
mod dots;
mod packed;
mod rows;
mod texts;

use mlu_lanes::{BabyBear, Lanes, WrappingU64};

type Bear = BabyBear<4>;

type Bears = Lanes<Bear, 4>;

type Word = WrappingU64<2>;

type Words = Lanes<Word, 2>;
