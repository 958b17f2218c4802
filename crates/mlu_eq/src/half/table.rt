//! A power of two of values.
ghost use Rattle.std.specs.Prelude.{◌≡◌, length, IfOk, IsTrue};
ghost use Rattle.std.specs.Int.{is_power_of_two};

use std::alloc::{AllocError, Global};
use std::marker::Model;

/// A power of two of values. Contracts see their list.
#[derive(Debug, Drop)]
pub(super) struct Table<T> {
    values: Vec<T>,
}

impl<T> Model for Table<T> {
    ghost use Rattle.std.specs.Prelude.{List, length, IsTrue};
    ghost use Rattle.std.specs.Int.{is_power_of_two};

    ghost Value = { List T };

    ghost view = { λ t. t.values.items };

    ghost invariant = { λ t. IsTrue (is_power_of_two (length t.values.items)) };
}

impl<T: Copy> Table<T> {
    /// The table of these values. Asks that their number is a power of two.
    #[inline]
    pub(super) fn new(values: Vec<T>) -> Self
        requires { IsTrue (is_power_of_two (length values.items)) }
        ensures { result ≡ values.items }
    {
        Table { values }
    }

    /// The values.
    #[inline]
    pub(super) fn as_slice(&self) -> &[T]
        ensures value { result.now ≡ self.now }
        ensures power { IsTrue (is_power_of_two (length result.now)) }
    {
        self.values.as_slice()
    }

    /// A copy, in one allocation of its size.
    ///
    /// # Errors
    /// Where memory is refused.
    pub(super) fn try_clone(&self, alloc: Global) -> Result<Self, AllocError>
        ensures { IfOk result (λ copy. copy ≡ self.now) }
    {
        let values = Vec::from_slice(alloc, self.values.as_slice())?;
        Ok(Table { values })
    }
}
