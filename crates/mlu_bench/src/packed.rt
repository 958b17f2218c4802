//! Tables of packed elements: made, unpacked and evaluated.

use crate::calls::Calls;
use crate::case::{Case, are_lanes, first_lane_of, first_of, is_small};
use mlu_ring::{ExtensionField, Field, PackedValue};
use multilinear_util::point::Point;
use multilinear_util::poly::Poly;
use std::alloc::{AllocError, Global};

/// The table over the extension packed (0), unpacked (1) and its packed form evaluated (2); the packed
/// table of the scaled weights of a point (3), and of a fold of the table over the base (4).
#[derive(Drop)]
pub struct PackedCalls<'a, F: Field, EF: ExtensionField<F>> {
    pub case: &'a Case<F, EF>,
    pub packed: &'a Poly<EF::ExtensionPacking>,
}

/// The table packed.
pub fn packed_table<F: Field, EF: ExtensionField<F>>(
    alloc: Global,
    table: &Poly<EF>,
) -> Result<Poly<EF::ExtensionPacking>, AllocError> {
    if table.num_evals() < <F::Packing as PackedValue>::WIDTH {
        return Err(AllocError);
    }
    table.pack::<F, EF>(alloc)
}

/// The packed table of the scaled weights of the point.
fn packed_weights<F: Field, EF: ExtensionField<F>>(
    alloc: Global,
    point: &[EF],
    scale: EF,
) -> Result<Poly<EF::ExtensionPacking>, AllocError> {
    if !is_small(point) || point.len() < <F::Packing as PackedValue>::LOG_WIDTH {
        return Err(AllocError);
    }
    Poly::new_packed_from_point::<F, EF>(alloc, point, scale)
}

/// The table over the base with its first variable at `r`, packed.
pub fn packed_fold<F: Field, EF: ExtensionField<F>>(
    alloc: Global,
    table: &Poly<F>,
    r: EF,
) -> Result<Poly<EF::ExtensionPacking>, AllocError> {
    if table.num_evals() <= <F::Packing as PackedValue>::WIDTH {
        return Err(AllocError);
    }
    table.fix_prefix_var_to_packed(alloc, r)
}

/// The value of the packed table at the point.
fn value<F: Field, EF: ExtensionField<F>>(
    alloc: Global,
    packed: &Poly<EF::ExtensionPacking>,
    point: &Point<EF>,
) -> Result<EF, AllocError> {
    let width = <F::Packing as PackedValue>::WIDTH;
    if !are_lanes(packed.num_evals(), width, point.num_variables()) {
        return Err(AllocError);
    }
    packed.eval_packed::<F, EF>(alloc, point)
}

impl<F: Field, EF: ExtensionField<F>> Calls for PackedCalls<'_, F, EF> {
    type Entry = EF;

    fn answer(&mut self, alloc: Global, call: u32) -> Result<EF, AllocError> {
        let (case, packed) = (self.case, self.packed);
        let table = match call {
            0 => packed_table::<F, EF>(alloc, &case.ext.table),
            1 => return first_of(packed.unpack::<F, EF>(alloc)),
            2 => return value::<F, EF>(alloc, packed, &case.ext.point),
            3 => packed_weights::<F, EF>(alloc, case.ext.point.as_slice(), case.ext.scale),
            _ => packed_fold::<F, EF>(alloc, &case.base.table, case.ext.scale),
        };
        first_lane_of::<F, EF>(table)
    }
}
