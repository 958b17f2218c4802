//! What calls are made on, tests of their sizes, and entries of what they give.
ghost use Rattle.std.specs.Prelude.{◌≡◌, ◌-◌, ◌*◌, ◌/◌, ◌^◌, ◌<◌, ◌≤◌, length, IsTrue};

use crate::words::Words;
use mlu_ring::{Additive, ExtensionField, Field, PackedFieldExtension};
use multilinear_util::point::Point;
use multilinear_util::poly::Poly;
use std::alloc::{AllocError, Global};

/// What calls over one ring are made on: a table, a point with as many variables and a scale, and for
/// batches the coordinates of several points, in columns.
#[derive(Drop)]
pub struct Operands<R> {
    pub table: Poly<R>,
    pub point: Point<R>,
    pub columns: Vec<R>,
    pub scale: R,
}

impl<R: Words> Operands<R> {
    /// The operands that the words stand for; an error where the entries are no table.
    pub fn read(
        alloc: Global,
        entries: &[u32],
        point: &[u32],
        columns: &[u32],
        scale: R,
    ) -> Result<Self, AllocError> {
        let entries = R::read(alloc, entries)?;
        let point = R::read(alloc, point)?;
        let columns = R::read(alloc, columns)?;
        if !entries.len().is_power_of_two() {
            return Err(AllocError);
        }
        Ok(Operands {
            table: Poly::new(entries),
            point: Point::new(point),
            columns,
            scale,
        })
    }
}

/// Operands over the base field and over the extension, with as many variables, and for batches a scalar
/// for each point.
#[derive(Drop)]
pub struct Case<F, EF> {
    pub base: Operands<F>,
    pub ext: Operands<EF>,
    pub scalars: Vec<EF>,
}

/// The first of the values.
pub fn first<R: Additive>(values: &[R]) -> R {
    match values.first() {
        Some(value) => *value,
        None => R::ZERO,
    }
}

/// The first value of a table.
pub fn first_of<R: Additive>(table: Result<Poly<R>, AllocError>) -> Result<R, AllocError> {
    Ok(first(table?.as_slice()))
}

/// The first lane of the packed values.
pub fn first_lane<F: Field, EF: ExtensionField<F>>(packed: &[EF::ExtensionPacking]) -> EF {
    match EF::ExtensionPacking::to_ext_iter(packed).next() {
        Some(value) => value,
        None => EF::ZERO,
    }
}

/// The first lane of a packed table.
pub fn first_lane_of<F: Field, EF: ExtensionField<F>>(
    table: Result<Poly<EF::ExtensionPacking>, AllocError>,
) -> Result<EF, AllocError> {
    Ok(first_lane::<F, EF>(table?.as_slice()))
}

/// Whether the tables of the coordinates and of their second half fit the address space.
#[tactic(auto, using(crate::proofs::Sizes::fits, crate::proofs::Sizes::below_fits))]
pub fn is_small<R>(point: &[R]) -> bool
    ensures whole { IsTrue result → 2 ^ length point.now < 2 ^ 64 }
    ensures half { IsTrue result → 2 ^ (length point.now - length point.now / 2) < 2 ^ 64 }
{
    point.len() < 32
}

/// Whether so many entries are a table of so many variables, below 32.
pub fn is_table(entries: usize, variables: usize) -> bool
    ensures { IsTrue result → entries ≡ 2 ^ variables }
{
    variables < 32 && entries == 1 << variables
}

/// Whether a table of so many variables, below 32, has no more entries than these.
pub fn is_within(variables: usize, entries: usize) -> bool
    ensures { IsTrue result → 2 ^ variables ≤ entries }
{
    variables < 32 && 1 << variables <= entries
}

/// Whether a table of so many variables, below 32, times so many lanes, has no more entries than these.
pub fn is_within_lanes(variables: usize, lanes: usize, entries: usize) -> bool
    ensures { IsTrue result → 2 ^ variables * lanes ≤ entries }
{
    if variables >= 32 {
        return false;
    }
    match (1_usize << variables).checked_mul(lanes) {
        Some(places) => places <= entries,
        None => false,
    }
}

/// Whether so many groups have so many lanes each, one for each entry of a table of so many variables.
pub fn are_lanes(groups: usize, width: usize, variables: usize) -> bool
    ensures { IsTrue result → groups * width ≡ 2 ^ variables }
{
    match groups.checked_mul(width) {
        Some(lanes) => is_table(lanes, variables),
        None => false,
    }
}
