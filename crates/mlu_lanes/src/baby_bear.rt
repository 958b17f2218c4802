//! The integers modulo 2013265921.
ghost use Rattle.std.specs.Prelude.{◌≡◌, ⊤, ◌<◌, ◌%◌};
ghost use Rattle.mlu_lanes.specs.declared.baby_bear.TheConstants.{MODULUS};

use std::alloc::AllocError;

pub mod columns;
mod dot;
mod extension;
mod field;
mod montgomery;
mod packed;
mod reduce;
mod reduce_each;
mod ring;
mod rows;
pub mod transpose;

/// 15 · 2^27 + 1, a prime. A sum of two residues fits 32 bits, and of four products 64 bits.
pub const MODULUS: u32 = 2013265921;

/// An integer modulo 2013265921, as its least residue.
///
/// Where `W` is 1, 2, 4, 8 or 16 it is a field of the library, of 4 bytes an element, packed as
/// `Lanes<Self, W>`, and an extension of itself with one coefficient.
#[derive(Debug, PartialEq, Eq)]
pub struct BabyBear<const W: usize> {
    value: u32,
    ghost below: { value < MODULUS },
}

/// By hand: a derived one would be written out in each bound that the type meets.
impl<const W: usize> Clone for BabyBear<W> {
    ghost is_clone = { λ a b. a ≡ b };

    ghost is_infallible = { λ _. ⊤ };

    fn clone(&self) -> Result<Self, AllocError> {
        Ok(*self)
    }
}

impl<const W: usize> Copy for BabyBear<W> {}

impl<const W: usize> BabyBear<W> {
    ghost use Rattle.mlu_lanes.specs.BabyBear.{canonical};

    /// The residue of `n`.
    #[inline]
    pub fn from_u32(n: u32) -> Self
        ensures { canonical result ≡ n % MODULUS }
    {
        BabyBear { value: n % MODULUS }
    }

    /// The least residue.
    #[inline]
    pub fn as_canonical_u32(self) -> u32
        ensures least { result < MODULUS }
        ensures residue { result ≡ canonical self.entry }
    {
        self.value
    }
}
