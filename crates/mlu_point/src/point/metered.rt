//! Equality tables whose products a meter makes: one for each entry but one.
ghost use Rattle.std.specs.Prelude.{◌≡◌, ◌+◌, ◌-◌, ◌*◌, ◌^◌, length, map};
ghost use Rattle.mlu_ring.specs.Shares.{rest_of, share_of};
ghost use Rattle.mlu_point.specs.Orders.{weights_by};

use super::order::BitOrder;
use super::table::split_top;
use mlu_ring::{Lanewise, Meter, PackedValue};

/// Splits each weight of `low` by a coordinate: its share at 1 goes to `high`, and the rest stays.
/// Full groups are split in lanes, and what is left entry by entry.
#[inline]
fn split_by_meter<F: Lanewise, M: Meter<F>>(
    low: &mut [F],
    high: &mut [F],
    coordinate: F,
    meter: &mut M,
)
    requires { length low.old ≡ length high.old }
    ensures upper { high.new ≡ map (share_of F.ring coordinate) low.old }
    ensures lower { low.new ≡ map (rest_of F.ring coordinate) low.old }
    ensures made { M.made meter.new ≡ M.made meter.old + length low.old }
    ensures groups { M.groups meter.new ≡ M.groups meter.old }
{
    let groups = low.len() / F::Packing::WIDTH;
    let (low, low_left) = low.split_at_mut(groups * F::Packing::WIDTH);
    let (high, high_left) = high.split_at_mut(groups * F::Packing::WIDTH);
    split_groups(low, high, groups, coordinate, meter);
    split_entries(low_left, high_left, coordinate, meter);
}

/// [`split_by_meter`] of so many full groups.
#[inline]
fn split_groups<F: Lanewise, M: Meter<F>>(
    low: &mut [F],
    high: &mut [F],
    groups: usize,
    coordinate: F,
    meter: &mut M,
)
    requires low { length low.old ≡ groups * F.Packing.WIDTH }
    requires high { length low.old ≡ length high.old }
    ensures upper { high.new ≡ map (share_of F.ring coordinate) low.old }
    ensures lower { low.new ≡ map (rest_of F.ring coordinate) low.old }
    ensures made { M.made meter.new ≡ M.made meter.old + length low.old }
    ensures groups { M.groups meter.new ≡ M.groups meter.old }
{
    let width = F::Packing::WIDTH;
    for i in 0..groups {
        let start = i * width;
        let (low, high) = (
            &mut low[start..start + width],
            &mut high[start..start + width],
        );
        split_group(low, high, coordinate, meter);
    }
}

/// [`split_by_meter`] of one full group, by its packed form.
#[inline]
fn split_group<F: Lanewise, M: Meter<F>>(
    low: &mut [F],
    high: &mut [F],
    coordinate: F,
    meter: &mut M,
)
    requires low { length low.old ≡ F.Packing.WIDTH }
    requires high { length high.old ≡ F.Packing.WIDTH }
    ensures upper { high.new ≡ map (share_of F.ring coordinate) low.old }
    ensures lower { low.new ≡ map (rest_of F.ring coordinate) low.old }
    ensures made { M.made meter.new ≡ M.made meter.old + F.Packing.WIDTH }
    ensures groups { M.groups meter.new ≡ M.groups meter.old }
{
    let weights = F::Packing::load(low);
    let shares = meter.times_lanes(weights, F::Packing::splat(coordinate));
    shares.store(high);
    (weights - shares).store(low);
}

/// [`split_by_meter`], entry by entry.
#[inline]
fn split_entries<F: Lanewise, M: Meter<F>>(
    low: &mut [F],
    high: &mut [F],
    coordinate: F,
    meter: &mut M,
)
    requires { length low.old ≡ length high.old }
    ensures upper { high.new ≡ map (share_of F.ring coordinate) low.old }
    ensures lower { low.new ≡ map (rest_of F.ring coordinate) low.old }
    ensures made { M.made meter.new ≡ M.made meter.old + length low.old }
    ensures groups { M.groups meter.new ≡ M.groups meter.old }
{
    for i in 0..low.len() {
        let share = meter.times(low[i], coordinate);
        high[i] = share;
        low[i] = low[i] - share;
    }
}

/// Writes the scale times each weight, in the order that `order` says. Asks for `2^n` places, where the point has `n`
/// coordinates.
pub(super) fn fill_by_meter<F: Lanewise, M: Meter<F>>(
    out: &mut [F],
    coords: &[F],
    order: BitOrder,
    scale: F,
    meter: &mut M,
)
    requires { length out.old ≡ 2 ^ length coords.now }
    ensures table { out.new ≡ map (λ w. F.ring.product scale w) (weights_by order F.ring coords.now) }
    ensures made { M.made meter.new ≡ M.made meter.old + (2 ^ length coords.now - 1) }
    ensures groups { M.groups meter.new ≡ M.groups meter.old }
{
    match split_top(coords, order) {
        None => out[0] = scale,
        Some((coordinate, others)) => {
            let half = out.len() / 2;
            let (low, high) = out.split_at_mut(half);
            fill_by_meter(low, others, order, scale, meter);
            split_by_meter(low, high, *coordinate, meter);
        }
    }
}
