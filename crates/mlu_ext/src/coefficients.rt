//! Coefficients of elements, side by side.
ghost use Rattle.std.specs.Prelude.{◌≡◌, ◌<◌, length};
ghost use Rattle.mlu_ring.specs.Columns.{column_of};
ghost use Rattle.mlu_lanes.specs.LaneRing.{values_of};

use mlu_lanes::{Coefficients, Lanes};
use mlu_ring::Additive;

/// Coefficient `c` of each element, side by side. Asks for `W` elements, and that they have one.
#[inline]
pub fn column<R: Additive, E: Coefficients<R>, const W: usize>(
    elements: &[E],
    c: usize,
) -> Lanes<R, W>
    requires width { length elements.now ≡ W }
    requires place { c < E.count }
    ensures { values_of result ≡ column_of R.ring.zero E.list elements.now c }
{
    let mut lanes = [R::ZERO; W];
    for k in 0..W {
        lanes[k] = elements[k].at(c);
    }
    Lanes::from_array(lanes)
}
