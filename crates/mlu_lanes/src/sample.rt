//! Random elements.
use crate::baby_bear::{BabyBear, MODULUS};
use crate::lanes::Lanes;
use crate::wrapping::WrappingU64;
use mlu_ring::Sample;
use rand::RngExt;

impl<const W: usize> Sample for BabyBear<W> {
    fn sample<R: RngExt>(rng: &mut R) -> Self {
        BabyBear::from_u32(rng.random_range(0..MODULUS))
    }
}

impl<const W: usize> Sample for WrappingU64<W> {
    fn sample<R: RngExt>(rng: &mut R) -> Self {
        WrappingU64::new(rng.random())
    }
}

/// Draws the lanes in order.
impl<F: Sample + Copy, const W: usize> Sample for Lanes<F, W> {
    fn sample<R: RngExt>(rng: &mut R) -> Self {
        Lanes::from_array(std::array::from_fn(|_| F::sample(rng)))
    }
}
