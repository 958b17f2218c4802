//! Bodies over the coordinates, which the owned point and the view share.
ghost use Rattle.std.specs.Prelude.{◌≡◌, ◌≤◌, length, reverse, slice_range, IfOk, IsOk};

use std::alloc::{AllocError, Global};
use std::ops::Range;

/// The same coordinates. Does not fail where there are none.
pub(super) fn copied<F: Copy>(alloc: Global, coords: &[F]) -> Result<Vec<F>, AllocError>
    ensures copy { IfOk result (λ copy. copy.items ≡ coords.now) }
    ensures none { length coords.now ≡ 0 → IsOk result }
{
    let mut copy = Vec::with_capacity(alloc, coords.len())?;
    copy.extend_from_slice(coords)?;
    Ok(copy)
}

/// The coordinates from last to first.
pub(super) fn reversed<F: Copy>(alloc: Global, coords: &[F]) -> Result<Vec<F>, AllocError>
    ensures reversed { IfOk result (λ last_first. last_first.items ≡ reverse coords.now) }
    ensures none { length coords.now ≡ 0 → IsOk result }
{
    let mut last_first = copied(alloc, coords)?;
    last_first.as_mut_slice().reverse();
    Ok(last_first)
}

/// The coordinates of a range. Asks that `start <= end <= n`, where there are `n` coordinates.
pub(super) fn subrange<F: Copy>(
    alloc: Global,
    coords: &[F],
    range: Range<usize>,
) -> Result<Vec<F>, AllocError>
    requires order { range.start ≤ range.end }
    requires end { range.end ≤ length coords.now }
    ensures part { IfOk result (λ part. part.items ≡ slice_range coords.now range.start range.end) }
    ensures none { range.start ≡ range.end → IsOk result }
{
    copied(alloc, &coords[range.start..range.end])
}
