//! Values that are lists of coefficients.
ghost use Rattle.std.specs.Prelude.{◌≡◌, ◌<◌, ℕ, List, slice_index_or, slice_set};

/// Values that are lists of coefficients in `R`.
pub trait Coefficients<R> {
    ghost count: { ℕ };

    ghost list: { Self → List R };

    /// Coefficient `k`. Asks that there is one.
    fn at(&self, k: usize) -> R
        requires { k < count }
        ensures { (d : R) → result ≡ slice_index_or (list self.now) k d };

    /// Puts `c` in the place of coefficient `k`. Asks that there is one.
    fn set_at(&mut self, k: usize, c: R)
        requires { k < count }
        ensures { list self.new ≡ slice_set (list self.old) k c };
}
