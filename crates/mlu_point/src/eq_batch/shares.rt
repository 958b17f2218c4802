//! Shares of scalars, one for each point of a batch: split by coordinates, and added up.
ghost use Rattle.std.specs.Prelude.{◌≡◌, length};
ghost use Rattle.mlu_ring.specs.Sums.{sum_of};
ghost use Rattle.mlu_point.specs.Batches.{upper_share, lower_share, AreShares};

use super::evaluator::EqualityEvaluator;
use mlu_ring::{Additive, PrimeCharacteristicRing};

/// Splits each share by a coordinate: its part at 1 goes to `high`, and the rest stays.
#[inline]
pub(super) fn split_shares<C: Additive, S: PrimeCharacteristicRing, E: EqualityEvaluator<C, S>>(
    low: &mut [S],
    high: &mut [S],
    coordinates: &[C],
)
    requires high { length high.old ≡ length low.old }
    requires coordinates { length coordinates.now ≡ length low.old }
    ensures upper { AreShares (upper_share S.ring E.image) high.new low.old coordinates.now }
    ensures lower { AreShares (lower_share S.ring E.image) low.new low.old coordinates.now }
{
    for i in 0..low.len() {
        let share = E::multiply(low[i], coordinates[i]);
        high[i] = share;
        low[i] = low[i] - share;
    }
}

/// The elements added up.
#[inline]
pub(super) fn sum<S: Additive>(xs: &[S]) -> S
    ensures { result ≡ sum_of S.ring xs.now }
{
    let mut sum = S::ZERO;
    for x in xs {
        sum = sum + *x;
    }
    sum
}
