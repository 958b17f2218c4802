//! Functions of points that are affine in each coordinate.
ghost use Rattle.std.specs.Prelude.{◌≡◌, ℕ, List, length};
ghost use Rattle.mlu_ring.specs.Tables.{IsAffineInEach};

use crate::additive::Additive;

/// A function of points of a fixed number of coordinates, affine in each of them: with `c` at any
/// place it is `1 - c` times what it is with 0 there, plus `c` times what it is with 1 there.
///
/// Such a function is known everywhere once it is known at the vertices.
pub trait AffineInEach<EF: Additive> {
    ghost coordinates: { Self → ℕ };

    ghost value_at: { Self → List EF → EF };

    /// The number of coordinates.
    fn arity(&self) -> usize
        ensures { result ≡ coordinates self.now };

    /// The value at a point. Asks for as many coordinates as the function has.
    fn at(&self, point: &[EF]) -> EF
        requires { length point.now ≡ coordinates self.now }
        ensures { result ≡ value_at self.now point.now };

    ghost affine: { (f : Self) → IsAffineInEach EF.ring (coordinates f) (value_at f) };
}
