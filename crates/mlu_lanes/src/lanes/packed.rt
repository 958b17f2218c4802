//! Lanes as a packed value, at the widths that are powers of two.
ghost use Rattle.std.specs.Prelude.{◌≡◌, ◌<◌, ◌^◌, ℕ, refl};
ghost use Rattle.std.proofs.Common.{lit<};
ghost use Rattle.mlu_lanes.specs.LaneRing.{values_of, packed_of, lanes_are_lists};

use super::Lanes;
use mlu_ring::{Additive, PackedValue};

/// Says that `W` is a power of two below 32, so that a vector of `W` words fits memory. Implemented
/// for the lanes of 1, 2, 4, 8 and 16 elements.
pub trait LaneWidth<const W: usize> {
    /// The logarithm of the width.
    const LOG_WIDTH: usize;

    ghost LOG_WIDTH: { ℕ };

    ghost width_is: { W ≡ 2 ^ LOG_WIDTH };

    ghost width_is_small: { W < 32 };
}

impl<F> LaneWidth<1> for Lanes<F, 1> {
    const LOG_WIDTH: usize = 0;

    ghost LOG_WIDTH = { 0 };

    ghost width_is = { refl };

    ghost width_is_small = { lit< tt };
}

impl<F> LaneWidth<2> for Lanes<F, 2> {
    const LOG_WIDTH: usize = 1;

    ghost LOG_WIDTH = { 1 };

    ghost width_is = { refl };

    ghost width_is_small = { lit< tt };
}

impl<F> LaneWidth<4> for Lanes<F, 4> {
    const LOG_WIDTH: usize = 2;

    ghost LOG_WIDTH = { 2 };

    ghost width_is = { refl };

    ghost width_is_small = { lit< tt };
}

impl<F> LaneWidth<8> for Lanes<F, 8> {
    const LOG_WIDTH: usize = 3;

    ghost LOG_WIDTH = { 3 };

    ghost width_is = { refl };

    ghost width_is_small = { lit< tt };
}

impl<F> LaneWidth<16> for Lanes<F, 16> {
    const LOG_WIDTH: usize = 4;

    ghost LOG_WIDTH = { 4 };

    ghost width_is = { refl };

    ghost width_is_small = { lit< tt };
}

impl<F: Additive, const W: usize> PackedValue for Lanes<F, W>
where
    Lanes<F, W>: LaneWidth<W>,
{
    type Value = F;

    const WIDTH: usize = W;

    const LOG_WIDTH: usize = <Lanes<F, W> as LaneWidth<W>>::LOG_WIDTH;

    ghost WIDTH = { W };

    ghost LOG_WIDTH = { ⟦<Lanes<F, W> as LaneWidth<W>>⟧.LOG_WIDTH };

    ghost lanes = { values_of };

    ghost of_lanes = { packed_of W F.ZERO };

    // The compiler makes one load of the loop, and copies a slice by way of memory.
    #[inline]
    fn load(values: &[F]) -> Self {
        let mut lanes = [F::ZERO; W];
        for k in 0..W {
            lanes[k] = values[k];
        }
        Lanes { values: lanes }
    }

    // As in `load`.
    #[inline]
    fn store(&self, out: &mut [F]) {
        for k in 0..W {
            out[k] = self.values[k];
        }
    }

    #[inline]
    fn splat(value: F) -> Self {
        Lanes { values: [value; W] }
    }

    #[inline]
    fn lane(&self, k: usize) -> F {
        self.values[k]
    }

    ghost width_is = { ⟦<Lanes<F, W> as LaneWidth<W>>⟧.width_is };

    ghost lanes_are = { lanes_are_lists W F.ZERO };
}
