//! A step from each row to the next one, added to an output.
ghost use Rattle.std.specs.Prelude.{◌≡◌, ◌≤◌, ◌+◌, ◌*◌, length, take};
ghost use Rattle.std.specs.Simd.Lanes.{zip2};
ghost use Rattle.mlu_ring.specs.Sums.{plus_scaled};
ghost use Rattle.mlu_ring.specs.Lanes.{logical};
ghost use Rattle.mlu_ring.specs.Successor.{next_chunk};

use super::{EqMaybePacked, Weights};
use crate::split::accumulate::{add_lanes, add_multiple, add_weights};
use mlu_ring::{Additive, ExtensionField, Field, Lanewise, PackedFieldExtension, PackedValue};

impl<F: Field, EF: ExtensionField<F>> EqMaybePacked<F, EF> {
    /// Adds to place `y` of `out` the weight `y` times `eq_weight` and the weight before it times
    /// `shifted_weight`; the first place takes `boundary` as it is for the latter. Asks for as many
    /// places as there are weights.
    pub fn accumulate_next_chunk_into(
        &self,
        out: &mut [EF],
        eq_weight: EF,
        shifted_weight: EF,
        boundary: EF,
    )
        requires { length out.old ≡ length self.now.weights }
        ensures { out.new ≡ zip2 EF.ring.sum out.old (next_chunk EF.ring eq_weight shifted_weight boundary self.now.weights) }
    {
        let places = self.num_scalar_evals();
        add_weights(self, out, eq_weight);
        out[0] = out[0] + boundary;
        add_leading(self, &mut out[1..places], shifted_weight);
    }
}

/// Adds each weight but the last, times `factor`, to its place of `row`.
fn add_leading<F: Field, EF: ExtensionField<F>>(
    eq1: &EqMaybePacked<F, EF>,
    row: &mut [EF],
    factor: EF,
)
    requires { length row.old + 1 ≡ length eq1.now.weights }
    ensures { row.new ≡ plus_scaled EF.ring row.old factor (take (length row.old) eq1.now.weights) }
{
    match eq1.weights() {
        Weights::Scalar(weights) => {
            let leading = &weights[..row.len()];
            add_multiple(row, leading, factor);
        }
        Weights::Packed(weights) => add_leading_lanes::<F, EF>(row, weights, factor),
    }
}

/// Adds each lane but the last, times `factor`, to its place of `row`: whole groups, and then the
/// lanes of the last one.
fn add_leading_lanes<F: Field, EF: ExtensionField<F>>(
    row: &mut [EF],
    weights: &[EF::ExtensionPacking],
    factor: EF,
)
    requires { length row.old + 1 ≡ length weights.now * F.Packing.WIDTH }
    ensures { row.new ≡ plus_scaled EF.ring row.old factor (take (length row.old) (logical EF.ExtensionPacking.ext_lanes weights.now)) }
{
    let groups = row.len() / F::Packing::WIDTH;
    let (whole, rest) = row.split_at_mut(groups * F::Packing::WIDTH);
    add_lanes::<F, EF>(whole, &weights[..groups], factor);
    add_first_lanes::<F, EF>(rest, weights[groups], factor);
}

/// Adds the first lanes, times `factor`, to the places of a row that is not longer than they are.
#[inline]
fn add_first_lanes<F: Field, EF: ExtensionField<F>>(
    row: &mut [EF],
    weights: EF::ExtensionPacking,
    factor: EF,
)
    requires { length row.old ≤ F.Packing.WIDTH }
    ensures { row.new ≡ plus_scaled EF.ring row.old factor (take (length row.old) (EF.ExtensionPacking.ext_lanes weights)) }
{
    for k in 0..row.len() {
        row[k] = row[k] + factor * weights.ext_lane(k);
    }
}
