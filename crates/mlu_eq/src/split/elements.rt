//! Sums of entries, each times its packed weight, of the elements in the lanes.
//!
//! Weights, and rows that are packed, are written out, to the stack, so that each row is a dot of elements.
ghost use Rattle.std.specs.Prelude.{◌≡◌, ◌*◌, ◌≤◌, ◌<◌, length, map, IsTrue};
ghost use Rattle.std.specs.Mem.{type_size};
ghost use Rattle.mlu_ring.specs.Lanes.{logical};
ghost use Rattle.mlu_kernel.specs.Kernels.{double_sum};
ghost use Rattle.mlu_eq.specs.Split.{HasFewLanes, packed_sum};

use super::dot::{COEFFICIENTS, dot_of_rows_by_groups};
use crate::unpack::unpack_into;
use mlu_kernel::small::{SMALL_BYTES, is_small};
use mlu_ring::{Additive, ExtensionField, Field, Lanewise, PackedValue, row_of};

/// The fewest elements of a row that are faster than its lanes: a row costs four reductions once, and
/// each call its places on the stack.
const FEWEST_ELEMENTS: usize = 128;

/// The most elements of a row that are written to the stack.
pub(super) const MOST_ELEMENTS: usize = 1024;

// weights and a row at a time
const _: () = prove!(2 * MOST_ELEMENTS * (SMALL_BYTES - 1) < 2 << 20);

/// The size of the array for few elements, which takes less time to fill with zeros.
pub(super) const FEW_ELEMENTS: usize = 128;

/// Whether dots of elements are ahead of those of lanes, for rows as long as so many packed weights,
/// with room on the stack.
#[inline]
pub(super) fn goes_by_elements<F: Field, EF: ExtensionField<F>>(weights: usize) -> bool
    ensures { IsTrue result → HasFewLanes F.Packing.WIDTH weights MOST_ELEMENTS EF.row }
{
    weights >= FEWEST_ELEMENTS / <F::Packing as PackedValue>::WIDTH
        && has_few_lanes::<F, EF>(weights, MOST_ELEMENTS)
}

/// Whether sums of elements are reduced for all coefficients at once, and so many packed weights have
/// at most `most` lanes, with room on the stack.
#[inline]
pub(super) fn has_few_lanes<F: Field, EF: ExtensionField<F>>(weights: usize, most: usize) -> bool
    ensures { IsTrue result → HasFewLanes F.Packing.WIDTH weights most EF.row }
{
    EF::DIMENSION == COEFFICIENTS
        && weights <= most / <F::Packing as PackedValue>::WIDTH
        && is_small(&EF::ZERO)
}

/// The sum of the base rows' dots with the lanes of `weights`, each times its entry of `eq0`.
pub(super) fn dot_of_base_rows_by_elements<F: Field, EF: ExtensionField<F>, const N: usize>(
    eq0: &[EF],
    weights: &[EF::ExtensionPacking],
    entries: &[F],
) -> EF
    requires most { N ≤ MOST_ELEMENTS }
    requires few { HasFewLanes F.Packing.WIDTH (length weights.now) N EF.row }
    requires size { length entries.now ≡ length eq0.now * (length weights.now * F.Packing.WIDTH) }
    ensures { result ≡ double_sum EF.ring eq0.now
        (logical EF.ExtensionPacking.ext_lanes weights.now) (map EF.embed entries.now) }
{
    let mut places = [EF::ZERO; N];
    let elements = &mut places[..weights.len() * <F::Packing as PackedValue>::WIDTH];
    unpack_into::<F, EF>(weights, elements);
    dot_of_rows_by_groups(eq0, elements, entries)
}

/// The sum of the rows' dots with the lanes of `weights`, each times its entry of `eq0`.
pub(super) fn dot_of_rows_by_elements<F: Field, EF: ExtensionField<F>>(
    eq0: &[EF],
    weights: &[EF::ExtensionPacking],
    entries: &[EF::ExtensionPacking],
) -> EF
    requires few { HasFewLanes F.Packing.WIDTH (length weights.now) MOST_ELEMENTS EF.row }
    requires size { length entries.now ≡ length eq0.now * length weights.now }
    ensures { result ≡ packed_sum EF.ring EF.ExtensionPacking.ext_lanes eq0.now weights.now entries.now }
{
    let mut places = [EF::ZERO; MOST_ELEMENTS];
    let elements = &mut places[..weights.len() * <F::Packing as PackedValue>::WIDTH];
    unpack_into::<F, EF>(weights, elements);
    dot_of_written_rows::<F, EF>(eq0, elements, weights.len(), entries)
}

/// The sum of the dots of `weights` with the lanes of rows of `width` packed entries, each times its
/// entry of `eq0`.
fn dot_of_written_rows<F: Field, EF: ExtensionField<F>>(
    eq0: &[EF],
    weights: &[EF],
    width: usize,
    entries: &[EF::ExtensionPacking],
) -> EF
    requires few { HasFewLanes F.Packing.WIDTH width MOST_ELEMENTS EF.row }
    requires long { length weights.now ≡ width * F.Packing.WIDTH }
    requires size { length entries.now ≡ length eq0.now * width }
    ensures { result ≡ double_sum EF.ring eq0.now weights.now (logical EF.ExtensionPacking.ext_lanes entries.now) }
{
    let mut places = [EF::ZERO; MOST_ELEMENTS];
    let row = &mut places[..weights.len()];
    let mut sum = EF::ZERO;
    for j in 0..eq0.len() {
        unpack_into::<F, EF>(row_of(entries, eq0.len(), j), row);
        sum = sum + eq0[j] * EF::dot(weights, row);
    }
    sum
}
