//! Equality tables, each coordinate split off in place, and the weight of one vertex.
ghost use Rattle.std.specs.Prelude.{◌≡◌, ◌↔◌, ◌+◌, ◌/◌, ◌%◌, ◌^◌, ◌<◌, IsTrue, length, map, MatchOption};
ghost use Rattle.mlu_ring.specs.Shares.{rest_of, share_of};
ghost use Rattle.mlu_ring.specs.Tables.{factor};
ghost use Rattle.mlu_point.specs.Orders.{weights_by, with_top};
ghost use Rattle.mlu_point.specs.Vertices.{IsWeightAt};

use super::order::BitOrder;
use mlu_ring::PrimeCharacteristicRing;

/// Splits each weight of `low` by a coordinate: its share at 1 goes to `high`, and the rest stays.
#[inline]
fn split_by_coordinate<R: PrimeCharacteristicRing>(low: &mut [R], high: &mut [R], coordinate: R)
    requires { length low.old ≡ length high.old }
    ensures upper { high.new ≡ map (share_of R.ring coordinate) low.old }
    ensures lower { low.new ≡ map (rest_of R.ring coordinate) low.old }
{
    for i in 0..low.len() {
        let share = low[i].times_fixed(coordinate);
        high[i] = share;
        low[i] = low[i] - share;
    }
}

/// The coordinate that reads the top bit of an index, and the others.
pub(super) fn split_top<R: Copy>(coords: &[R], order: BitOrder) -> Option<(&R, &[R])>
    ensures split { MatchOption result (length coords.now ≡ 0) (λ split. coords.now ≡ with_top order split.0.now split.1.now) }
    ensures others { MatchOption result (length coords.now ≡ 0) (λ split. length coords.now ≡ length split.1.now + 1) }
{
    match order {
        BitOrder::Msb => coords.split_first(),
        BitOrder::Lsb => coords.split_last(),
    }
}

/// Writes the scale times each weight, in the order that `order` says. Asks for `2^n` places, where the point has `n`
/// coordinates.
pub fn fill_equality_table<R: PrimeCharacteristicRing>(
    out: &mut [R],
    coords: &[R],
    order: BitOrder,
    scale: R,
)
    requires { length out.old ≡ 2 ^ length coords.now }
    ensures { out.new ≡ map (λ w. R.ring.product scale w) (weights_by order R.ring coords.now) }
{
    match split_top(coords, order) {
        None => out[0] = scale,
        Some((coordinate, others)) => {
            let half = out.len() / 2;
            let (low, high) = out.split_at_mut(half);
            fill_equality_table(low, others, order, scale);
            split_by_coordinate(low, high, *coordinate);
        }
    }
}

/// The weight of one vertex, and `None` exactly where it is `2^n` or more.
pub(super) fn weight_at<R: PrimeCharacteristicRing>(coords: &[R], vertex: usize) -> Option<R>
    ensures { IsWeightAt R.ring coords.now vertex result }
{
    if !is_vertex(vertex, coords.len()) {
        return None;
    }
    let mut weight = R::ONE;
    for k in 0..coords.len() {
        let share = share_at(coords[coords.len() - 1 - k], bit_at(vertex, k));
        weight = share * weight;
    }
    Some(weight)
}

/// What a coordinate gives to a weight at a bit of the vertex.
#[inline]
fn share_at<R: PrimeCharacteristicRing>(coordinate: R, bit: usize) -> R
    ensures { result ≡ factor R.ring bit coordinate }
{
    if bit == 1 {
        coordinate
    } else {
        R::ONE - coordinate
    }
}

/// Whether `vertex < 2^n`, which holds of every `usize` from `n = 64` on.
fn is_vertex(vertex: usize, n: usize) -> bool
    ensures { IsTrue result ↔ vertex < 2 ^ n }
{
    n >= usize::BITS as usize || vertex >> n == 0
}

/// The bit of a number at a place, which is 0 from place 64 on.
#[inline]
pub(super) fn bit_at(number: usize, place: usize) -> usize
    ensures { result ≡ number / 2 ^ place % 2 }
{
    if place < usize::BITS as usize {
        (number >> place) % 2
    } else {
        0
    }
}
