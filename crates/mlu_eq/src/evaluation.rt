//! The value of a table at a point, by recursion on the first variable.
ghost use Rattle.std.specs.Prelude.{◌≡◌, ◌^◌, length, map};
ghost use Rattle.mlu_ring.specs.Tables.{value};

use crate::line::{interpolate, interpolate_base};
use mlu_ring::{Additive, Algebra, PrimeCharacteristicRing};

/// The value at a point of the extension `EF` of a table of base entries. Takes no memory.
///
/// Asks for `2^n` entries, where the point has `n` coordinates.
pub fn eval_base<F: Additive, EF: Algebra<F>>(entries: &[F], point: &[EF]) -> EF
    requires { length entries.now ≡ 2 ^ length point.now }
    ensures { result ≡ value EF.ring (map EF.embed entries.now) point.now }
{
    match point {
        [] => EF::from_base(entries[0]),
        [last] => interpolate_base(entries[0], entries[1], *last),
        [first, rest @ ..] => {
            let (low, high) = entries.split_at(entries.len() / 2);
            interpolate(eval_base(low, rest), eval_base(high, rest), *first)
        }
    }
}

/// The value at a point of a table whose entries are of the point's own ring. Takes no memory.
///
/// Asks for `2^n` entries, where the point has `n` coordinates.
pub fn eval_ext<R: PrimeCharacteristicRing>(entries: &[R], point: &[R]) -> R
    requires { length entries.now ≡ 2 ^ length point.now }
    ensures { result ≡ value R.ring entries.now point.now }
{
    match point {
        [] => entries[0],
        [last] => interpolate(entries[0], entries[1], *last),
        [first, rest @ ..] => {
            let (low, high) = entries.split_at(entries.len() / 2);
            interpolate(eval_ext(low, rest), eval_ext(high, rest), *first)
        }
    }
}
