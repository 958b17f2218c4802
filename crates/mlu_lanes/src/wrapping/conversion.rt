//! The integers modulo 2^64 of the least residues of the prime field.
ghost use Rattle.mlu_lanes.specs.BabyBear.{canonical};
ghost use Rattle.mlu_lanes.specs.WrappingU64.{wrapped};

use super::WrappingU64;
use crate::baby_bear::BabyBear;
use mlu_ring::MapFrom;

/// The least residue, as a number. It keeps no sums: the moduli differ.
impl<const W: usize> MapFrom<BabyBear<W>> for WrappingU64<W> {
    ghost image = { λ x. wrapped (canonical x) };

    #[inline]
    fn map(x: BabyBear<W>) -> Self {
        WrappingU64::new(u64::from(x.as_canonical_u32()))
    }
}
