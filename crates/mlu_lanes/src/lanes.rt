//! Values side by side.
ghost use Rattle.std.specs.Prelude.{◌≡◌, ⊤, length};

use std::alloc::AllocError;

mod algebra;
mod packed;
mod ring;

pub use packed::LaneWidth;

/// `W` values side by side. Its operators work lane by lane, at every `W`; it is a packed value at
/// the widths of [`LaneWidth`].
#[derive(Debug, PartialEq, Eq)]
pub struct Lanes<F, const W: usize> {
    values: [F; W],
    ghost full: { length values ≡ W },
}

impl<F: Copy, const W: usize> Clone for Lanes<F, W> {
    ghost is_clone = { λ a b. a ≡ b };

    ghost is_infallible = { λ _. ⊤ };

    fn clone(&self) -> Result<Self, AllocError> {
        Ok(*self)
    }
}

impl<F: Copy, const W: usize> Copy for Lanes<F, W> {}

impl<F: Copy, const W: usize> Lanes<F, W> {
    ghost use Rattle.mlu_lanes.specs.LaneRing.{values_of};

    /// The packed value with these lanes.
    #[inline]
    pub fn from_array(values: [F; W]) -> Self
        ensures { values_of result ≡ values }
    {
        Lanes { values }
    }

    /// The lanes as an array.
    #[inline]
    pub fn to_array(self) -> [F; W]
        ensures { result ≡ values_of self }
    {
        self.values
    }
}
