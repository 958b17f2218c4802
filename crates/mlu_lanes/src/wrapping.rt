//! The integers modulo 2^64.
ghost use Rattle.std.specs.Prelude.{◌≡◌, ⊤, ◌<◌, ◌^◌};

use std::alloc::AllocError;

mod conversion;
mod extension;
mod field;
mod ring;

/// An integer modulo 2^64.
///
/// Where `W` is 1, 2, 4, 8 or 16 it is a field of the library, of 8 bytes an element, packed as
/// `Lanes<Self, W>`, and an extension of itself with one coefficient.
#[derive(Debug, PartialEq, Eq)]
pub struct WrappingU64<const W: usize> {
    value: u64,
    ghost below: { value < 2 ^ 64 },
}

/// By hand: a derived one would be written out in each bound that the type meets.
impl<const W: usize> Clone for WrappingU64<W> {
    ghost is_clone = { λ a b. a ≡ b };

    ghost is_infallible = { λ _. ⊤ };

    fn clone(&self) -> Result<Self, AllocError> {
        Ok(*self)
    }
}

impl<const W: usize> Copy for WrappingU64<W> {}

impl<const W: usize> WrappingU64<W> {
    ghost use Rattle.mlu_lanes.specs.WrappingU64.{number};

    /// The residue of `value`.
    #[inline]
    pub fn new(value: u64) -> Self
        ensures { number result ≡ value }
    {
        WrappingU64 { value }
    }

    /// The integer below 2^64.
    #[inline]
    pub fn value(self) -> u64
        ensures { result ≡ number self.entry }
    {
        self.value
    }
}
