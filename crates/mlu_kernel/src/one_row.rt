//! One row against packed values. These calls are for the split tables of `mlu_eq`, not for users
//! of the library.
ghost use Rattle.std.specs.Prelude.{◌≡◌, ◌∷◌, [], ◌*◌, length, map};
ghost use Rattle.mlu_ring.specs.Sums.{sum_of};
ghost use Rattle.mlu_kernel.specs.Kernels.{AddsRows, HasDot};

use mlu_ring::{
    Additive, Algebra, ExtensionField, Field, Lanewise, PackedFieldExtension, PackedValue,
    row_of_width, scale_by_packing, scale_packing,
};

/// A packed value whose lanes add up to the dot of the weights' lanes, joined in order, with the row;
/// how the dot is spread over the lanes is not promised. Asks for as many entries as the weights have
/// lanes.
#[inline]
pub fn row_dot_in_lanes<F: Field, EF: ExtensionField<F>>(
    weights: &[EF::ExtensionPacking],
    row: &[F],
) -> EF::ExtensionPacking
    requires { length row.now ≡ length weights.now * F.Packing.WIDTH }
    ensures { HasDot EF.ring EF.ExtensionPacking.ext_lanes weights.now (map EF.embed row.now) result }
{
    let mut sum = EF::ExtensionPacking::ZERO;
    for i in 0..weights.len() {
        let block = F::Packing::load(row_of_width(row, F::Packing::WIDTH, i));
        sum = sum + scale_by_packing::<F, EF>(weights[i], block);
    }
    sum
}

/// The sum of the lanes of a packed value.
#[inline]
pub fn lane_sum<F: Field, EF: ExtensionField<F>>(packed: EF::ExtensionPacking) -> EF
    ensures { result ≡ sum_of EF.ring (EF.ExtensionPacking.ext_lanes packed) }
{
    let mut sum = EF::ZERO;
    for k in 0..F::Packing::WIDTH {
        sum = sum + packed.ext_lane(k);
    }
    sum
}

/// Adds a row, times its weight, to a packed output. Asks for as many entries as `out` has lanes.
#[inline]
pub fn add_row_times<F: Field, EF: ExtensionField<F>>(
    out: &mut [EF::ExtensionPacking],
    weight: EF,
    row: &[F],
)
    requires { length row.now ≡ length out.old * F.Packing.WIDTH }
    ensures { AddsRows EF.ring EF.embed EF.ExtensionPacking.ext_lanes (weight ∷ []) row.now out.old out.new }
{
    for z in 0..out.len() {
        let block = F::Packing::load(row_of_width(row, F::Packing::WIDTH, z));
        out[z] = out[z] + scale_packing::<F, EF>(weight, block);
    }
}
