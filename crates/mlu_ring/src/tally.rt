//! A number that contracts alone know.
ghost use Rattle.std.specs.Prelude.{◌≡◌, ℕ, ◌+◌};
ghost use Rattle.std.specs.Borrow.{ftrue};

use std::marker::Model;

/// A whole number without a bound, for contracts alone. It takes no bytes.
#[derive(Drop)]
pub struct Tally {
    pub ghost count: { ℕ },
}

impl Model for Tally {
    ghost also_owns = { λ _. ftrue };
}

impl Tally {
    /// Zero.
    #[inline]
    pub fn new() -> Tally
        ensures { result.count ≡ 0 }
    {
        Tally {}
    }

    /// The number and `by`, summed.
    #[inline]
    pub fn plus(_before: &Tally, _by: &usize) -> Tally
        ensures { result.count ≡ _before.now.count + _by.now }
    {
        Tally {}
    }

    /// Raises the number by `by`.
    #[inline]
    pub fn raise(&mut self, by: usize)
        ensures { self.new.count ≡ self.old.count + by }
    {
        *self = Tally::plus(self, &by);
    }
}
