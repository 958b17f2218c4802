//! A split table written out, and added to a table.

use crate::calls::{Calls, sum_of_calls};
use crate::case::{Case, are_lanes, first, first_lane, first_of, is_small, is_table};
use mlu_ring::{ExtensionField, Field, PackedValue, PrimeCharacteristicRing};
use multilinear_util::point::Point;
use multilinear_util::poly::Poly;
use multilinear_util::split_eq::SplitEq;
use std::alloc::{AllocError, Global};

/// The split table of the point, times a scale, with its second half packed or as scalars; an error where
/// it does not fit the address space.
pub fn split_table<F: Field, EF: ExtensionField<F>>(
    alloc: Global,
    point: &Point<EF>,
    scale: EF,
    is_packed: bool,
) -> Result<SplitEq<F, EF>, AllocError> {
    if !is_small(point.as_slice()) {
        return Err(AllocError);
    }
    if is_packed {
        SplitEq::new_packed(alloc, point, scale)
    } else {
        SplitEq::new_unpacked(alloc, point, scale)
    }
}

/// The split table of the point added to a table (0), and written out (1).
#[derive(Drop)]
struct SplitCalls<'a, F: Field, EF: ExtensionField<F>> {
    split: &'a SplitEq<F, EF>,
    out: Vec<EF>,
}

/// The sum of so many calls with this number, over a split table and a table of zeros that are made once.
fn sum_of_scalars<F: Field, EF: ExtensionField<F>>(
    alloc: Global,
    case: &Case<F, EF>,
    call: u32,
    rounds: usize,
) -> Result<EF, AllocError> {
    let out = EF::zero_vec(alloc, case.ext.table.num_evals())?;
    let split = &split_table(alloc, &case.ext.point, case.ext.scale, true)?;
    sum_of_calls(alloc, SplitCalls { split, out }, call, rounds)
}

/// Adds the split table to a table of as many entries.
fn add<F: Field, EF: ExtensionField<F>>(
    split: &SplitEq<F, EF>,
    out: &mut [EF],
) -> Result<(), AllocError> {
    if !is_table(out.len(), split.num_variables()) {
        return Err(AllocError);
    }
    split.accumulate_into(out, None);
    Ok(())
}

/// The split table written out, with so many entries.
fn written<F: Field, EF: ExtensionField<F>>(
    alloc: Global,
    split: &SplitEq<F, EF>,
    entries: usize,
) -> Result<Poly<EF>, AllocError> {
    if !is_table(entries, split.num_variables()) {
        return Err(AllocError);
    }
    split.materialize(alloc)
}

impl<F: Field, EF: ExtensionField<F>> Calls for SplitCalls<'_, F, EF> {
    type Entry = EF;

    fn answer(&mut self, alloc: Global, call: u32) -> Result<EF, AllocError> {
        if call == 1 {
            return first_of(written(alloc, self.split, self.out.len()));
        }
        add(self.split, self.out.as_mut_slice())?;
        Ok(first(self.out.as_slice()))
    }
}

/// The split table of the point added to a packed table.
#[derive(Drop)]
struct PackedSplitCalls<'a, F: Field, EF: ExtensionField<F>> {
    split: &'a SplitEq<F, EF>,
    out: Vec<EF::ExtensionPacking>,
}

/// The sum of so many calls, over a split table and a table of zeros that are made once.
fn sum_of_lanes<F: Field, EF: ExtensionField<F>>(
    alloc: Global,
    case: &Case<F, EF>,
    rounds: usize,
) -> Result<EF, AllocError> {
    let width = <F::Packing as PackedValue>::WIDTH;
    let groups = case.ext.table.num_evals().checked_div(width).unwrap_or(0);
    let out = EF::ExtensionPacking::zero_vec(alloc, groups)?;
    let split = &split_table(alloc, &case.ext.point, case.ext.scale, true)?;
    sum_of_calls(alloc, PackedSplitCalls { split, out }, 0, rounds)
}

/// Adds the split table to a packed table with as many lanes as it has entries.
fn add_to_packed<F: Field, EF: ExtensionField<F>>(
    alloc: Global,
    split: &SplitEq<F, EF>,
    out: &mut [EF::ExtensionPacking],
) -> Result<(), AllocError> {
    let width = <F::Packing as PackedValue>::WIDTH;
    if !are_lanes(out.len(), width, split.num_variables()) {
        return Err(AllocError);
    }
    split.accumulate_into_packed(alloc, out, None)
}

impl<F: Field, EF: ExtensionField<F>> Calls for PackedSplitCalls<'_, F, EF> {
    type Entry = EF;

    fn answer(&mut self, alloc: Global, _: u32) -> Result<EF, AllocError> {
        add_to_packed(alloc, self.split, self.out.as_mut_slice())?;
        Ok(first_lane::<F, EF>(self.out.as_slice()))
    }
}

/// The sum of so many calls with this number: the split table added to a table (0), written out (1), and added
/// to a packed table (2).
pub fn sum_of_splits<F: Field, EF: ExtensionField<F>>(
    alloc: Global,
    case: &Case<F, EF>,
    call: u32,
    rounds: usize,
) -> Result<EF, AllocError> {
    if call == 2 {
        return sum_of_lanes(alloc, case, rounds);
    }
    sum_of_scalars(alloc, case, call, rounds)
}
