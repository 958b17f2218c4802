//! Shares of four packed values each: the coordinate that meets a share is prepared once for all
//! four.
ghost use Rattle.std.specs.Prelude.{◌≡◌, ℕ, ◌+◌, ◌*◌, ◌%◌, ◌<◌, ◌≤◌, length, slice_index_or};
ghost use Rattle.mlu_ring.specs.Sums.{sum_of};
ghost use Rattle.mlu_point.specs.Batches.{lower_share, upper_share, four_image, four_ring, fours, two_pairs, AreFourShares, AreShares};

use super::evaluator::EqualityEvaluator;
use mlu_ring::{Additive, PrimeCharacteristicRing};

/// The packed values of a share.
pub(super) const FOUR: usize = 4;

/// Splits each share by a coordinate: its part at 1 goes to `high`, and the rest stays.
#[inline]
pub(super) fn split_fours<C: Additive, S: PrimeCharacteristicRing, E: EqualityEvaluator<C, S>>(
    low: &mut [S],
    high: &mut [S],
    coordinates: &[C],
)
    requires low { length low.old ≡ 4 * length coordinates.now }
    requires high { length high.old ≡ length low.old }
    ensures upper { AreShares (upper_share (four_ring S.ring) (four_image E.image)) (fours high.new) (fours low.old) coordinates.now }
    ensures lower { AreShares (lower_share (four_ring S.ring) (four_image E.image)) (fours low.new) (fours low.old) coordinates.now }
{
    for i in 0..coordinates.len() {
        split_four::<C, S, E>(low, high, FOUR * i, coordinates[i]);
    }
}

/// Splits the four values from `start` on by one coordinate.
#[inline]
fn split_four<C: Additive, S: PrimeCharacteristicRing, E: EqualityEvaluator<C, S>>(
    low: &mut [S],
    high: &mut [S],
    start: usize,
    coordinate: C,
)
    requires low { start + 4 ≤ length low.old }
    requires high { length high.old ≡ length low.old }
    ensures upper { AreFourShares (upper_share S.ring E.image) high.new low.old start coordinate }
    ensures lower { AreFourShares (lower_share S.ring E.image) low.new low.old start coordinate }
    ensures before_high { (k : ℕ) (d : S) → k < start → slice_index_or high.new k d ≡ slice_index_or high.old k d }
    ensures before_low { (k : ℕ) (d : S) → k < start → slice_index_or low.new k d ≡ slice_index_or low.old k d }
    ensures after { (k : ℕ) (d : S) → start + 4 ≤ k → slice_index_or low.new k d ≡ slice_index_or low.old k d }
{
    for k in start..start + FOUR {
        let share = E::multiply(low[k], coordinate);
        high[k] = share;
        low[k] = low[k] - share;
    }
}

/// The shares added up, from the first on.
pub(super) fn sum_of_fours<S: Additive>(shares: &[S]) -> (S, S, S, S)
    requires fours { length shares.now % 4 ≡ 0 }
    requires some { 0 < length shares.now }
    ensures { two_pairs result ≡ sum_of (four_ring S.ring) (fours shares.now) }
{
    let mut sums = (shares[0], shares[1], shares[2], shares[3]);
    for i in 1..shares.len() / FOUR {
        let k = FOUR * i;
        sums = (
            sums.0 + shares[k],
            sums.1 + shares[k + 1],
            sums.2 + shares[k + 2],
            sums.3 + shares[k + 3],
        );
    }
    sums
}
