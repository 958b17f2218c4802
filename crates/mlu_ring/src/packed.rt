//! Values side by side in one value, and the elements that have such a form.
ghost use Rattle.std.specs.Prelude.{◌≡◌, ◌<◌, ◌^◌, ℕ, List, length, replicate, slice_index_or};
ghost use Rattle.mlu_ring.specs.Lanes.{IsLists, IsLaneByLane};

use crate::additive::Additive;

/// `WIDTH` values of one type side by side: a packed value is the list of its lanes.
pub trait PackedValue: Additive {
    /// The type of a lane.
    type Value: Copy + Eq;

    /// The number of lanes.
    const WIDTH: usize;

    /// Its logarithm: the width is a power of two.
    const LOG_WIDTH: usize;

    ghost WIDTH: { ℕ };

    ghost LOG_WIDTH: { ℕ };

    ghost lanes: { Self → List Self.Value };

    ghost of_lanes: { List Self.Value → Self };

    /// The packed value with these lanes. Asks for `WIDTH` values.
    fn load(values: &[Self::Value]) -> Self
        requires { length values.now ≡ WIDTH }
        ensures { lanes result ≡ values.now };

    /// Writes the lanes. Asks for `WIDTH` places.
    fn store(&self, out: &mut [Self::Value])
        requires { length out.old ≡ WIDTH }
        ensures { out.new ≡ lanes self.now };

    /// The value in every lane.
    fn splat(value: Self::Value) -> Self
        ensures { lanes result ≡ replicate WIDTH value };

    /// Lane `k`. Asks that `k` is below `WIDTH`.
    fn lane(&self, k: usize) -> Self::Value
        requires { k < WIDTH }
        ensures { (d : Self.Value) → result ≡ slice_index_or (lanes self.now) k d };

    ghost width_is: { WIDTH ≡ 2 ^ LOG_WIDTH };

    ghost lanes_are: { IsLists WIDTH lanes of_lanes };
}

/// An element type with a packed form, whose ring is that of its lanes.
///
/// No call multiplies, here or on `Packing` as this bound knows it.
pub trait Lanewise: Additive {
    /// The packed form.
    type Packing: PackedValue<Value = Self>;

    ghost lane_by_lane: { IsLaneByLane Self.Packing.WIDTH Self.Packing.lanes Self.Packing.ring Self.ring };
}
