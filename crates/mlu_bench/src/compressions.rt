//! Compressions of a table over the base at half of a point.

use crate::calls::{Calls, sum_of_calls};
use crate::case::{Case, first_lane_of, first_of, is_within, is_within_lanes};
use crate::splits::split_table;
use mlu_ring::{ExtensionField, Field, PackedValue};
use multilinear_util::point::Point;
use multilinear_util::poly::{Poly, PolyView};
use multilinear_util::split_eq::SplitEq;
use std::alloc::{AllocError, Global};

/// The first variables at the first half of the coordinates (0), packed (1), or by a split table moved
/// up by one row (3); the last ones at the others (2), or so moved (4).
#[derive(Drop)]
struct CompressionCalls<'a, F: Field, EF: ExtensionField<F>> {
    table: &'a Poly<F>,
    scale: EF,
    part: &'a Point<EF>,
    split: &'a SplitEq<F, EF>,
}

/// The sum of so many calls with this number, over a split table that is made once.
pub fn sum_of_compressions<F: Field, EF: ExtensionField<F>>(
    alloc: Global,
    case: &Case<F, EF>,
    call: u32,
    rounds: usize,
) -> Result<EF, AllocError> {
    let (table, scale) = (&case.base.table, case.ext.scale);
    let part = &half_of(alloc, &case.ext.point, call == 2 || call == 4)?;
    let split = &split_table(alloc, part, scale, true)?;
    let calls = CompressionCalls {
        table,
        scale,
        part,
        split,
    };
    sum_of_calls(alloc, calls, call, rounds)
}

/// The second or the first half of the coordinates.
fn half_of<R: Copy>(alloc: Global, point: &Point<R>, second: bool) -> Result<Point<R>, AllocError> {
    let (low, high) = point.as_slice().split_at(point.num_variables() / 2);
    let half = if second { high } else { low };
    Ok(Point::new(half.to_vec(alloc)?))
}

/// The table with its first (0) or its last (2) variables at the point.
fn at_point<F: Field, EF: ExtensionField<F>>(
    alloc: Global,
    table: &Poly<F>,
    point: &Point<EF>,
    scale: EF,
    call: u32,
) -> Result<Poly<EF>, AllocError> {
    if !is_within(point.num_variables(), table.num_evals()) {
        return Err(AllocError);
    }
    match call {
        0 => table.compress_prefix(alloc, point, scale),
        _ => table.compress_suffix(alloc, point, scale),
    }
}

/// The packed table with its first variables at the point.
fn packed_at_point<F: Field, EF: ExtensionField<F>>(
    alloc: Global,
    table: &Poly<F>,
    point: &Point<EF>,
    scale: EF,
) -> Result<Poly<EF::ExtensionPacking>, AllocError> {
    let width = <F::Packing as PackedValue>::WIDTH;
    if !is_within_lanes(point.num_variables(), width, table.num_evals()) {
        return Err(AllocError);
    }
    table.compress_prefix_to_packed(alloc, point, scale)
}

/// The table with its first (3) or its last (4) variables by the split table, moved.
fn shifted<F: Field, EF: ExtensionField<F>>(
    alloc: Global,
    table: PolyView<'_, F>,
    split: &SplitEq<F, EF>,
    call: u32,
) -> Result<Poly<EF>, AllocError> {
    if !is_within(split.num_variables(), table.num_evals()) {
        return Err(AllocError);
    }
    match call {
        3 => split.compress_prefix_shifted(alloc, table),
        _ => split.compress_suffix_shifted(alloc, table),
    }
}

impl<F: Field, EF: ExtensionField<F>> Calls for CompressionCalls<'_, F, EF> {
    type Entry = EF;

    fn answer(&mut self, alloc: Global, call: u32) -> Result<EF, AllocError> {
        match call {
            0 | 2 => first_of(at_point(alloc, self.table, self.part, self.scale, call)),
            1 => first_lane_of::<F, EF>(packed_at_point(alloc, self.table, self.part, self.scale)),
            _ => first_of(shifted(alloc, self.table.as_view(), self.split, call)),
        }
    }
}
