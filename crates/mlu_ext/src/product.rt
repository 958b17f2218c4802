//! Copies of a ring side by side.
ghost use Rattle.std.specs.Prelude.{◌≡◌, ⊤};

use mlu_lanes::Lanes;
use std::alloc::AllocError;

mod algebra;
mod field;
mod packed;
mod ring;
mod trivial_extension;

/// `D` elements of `R`, whose operators work on each for itself.
///
/// A ring over any ring `R`, for every `D`: of no elements, `ZERO` equals `ONE`. Over `BabyBear<W>`
/// it is a field of the library, packed by itself in one lane, whose `bytes` are `4 D`, or the
/// greatest `usize` where that is less; at the widths of a packing also an extension of
/// `BabyBear<W>` with the `D` entries as coefficients, packed as
/// `ProductAlgebra<Lanes<BabyBear<W>, W>, D>`.
#[derive(Debug, PartialEq, Eq)]
pub struct ProductAlgebra<R, const D: usize> {
    copies: Lanes<R, D>,
}

impl<R: Copy, const D: usize> Clone for ProductAlgebra<R, D> {
    ghost is_clone = { λ a b. a ≡ b };

    ghost is_infallible = { λ _. ⊤ };

    fn clone(&self) -> Result<Self, AllocError> {
        Ok(*self)
    }
}

impl<R: Copy, const D: usize> Copy for ProductAlgebra<R, D> {}

impl<R: Copy, const D: usize> ProductAlgebra<R, D> {
    ghost use Rattle.mlu_ext.specs.Product.{entries_of};

    /// The element with these entries.
    #[inline]
    pub fn from_array(entries: [R; D]) -> Self
        ensures { entries_of result ≡ entries }
    {
        ProductAlgebra {
            copies: Lanes::from_array(entries),
        }
    }

    /// The entries in order.
    #[inline]
    pub fn to_array(self) -> [R; D]
        ensures { result ≡ entries_of self }
    {
        self.copies.to_array()
    }
}
