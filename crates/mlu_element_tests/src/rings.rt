//! The rings that rows are tried at, a function for each ring.
//!
//! A function that calls generic code at a ring pays for every implementation that the ring stands on; a call of one
//! of these pays for none.
ghost use Rattle.std.specs.Prelude.{◌<◌, ◌≤◌};

use crate::{extensions, kernels, lanes, points};
use mlu_ext::{ProductAlgebra, QuarticExtension};
use mlu_lanes::{BabyBear, LaneWidth, Lanes, WrappingU64};
use mlu_ring::{ExtensionField, Sample, SelfAlgebra};
use std::alloc::{AllocError, Global};

/// What is tried over one ring.
#[derive(Drop)]
pub enum RingRow {
    Coordinates,
    Items(lanes::bounds::RingRow),
}

/// What is tried over an extension `EF` of residues.
pub enum Row<EF> {
    CountedTables,
    Extensions(extensions::Row<EF>),
    Kernels(kernels::Row),
    Ring(RingRow),
}

/// What is tried over pairs of residues, as a ring alone.
pub enum PairRow {
    Coordinates,
    Items(extensions::items::Row<ProductAlgebra<BabyBear<2>, 2>>),
}

/// Whether the row over one ring holds.
fn ring_holds<R: SelfAlgebra + Sample>(alloc: Global, row: RingRow) -> Result<bool, AllocError> {
    match row {
        RingRow::Coordinates => points::coordinates::rows::<R>(alloc),
        RingRow::Items(row) => lanes::bounds::ring_holds::<R>(alloc, row),
    }
}

/// Whether the row holds over an extension of residues. The bound names its field, since at products a call with two
/// types as parameters is more than the prover takes.
fn over_residues<const W: usize, EF: ExtensionField<BabyBear<W>> + SelfAlgebra + Sample>(
    alloc: Global,
    row: Row<EF>,
) -> Result<bool, AllocError>
where
    Lanes<BabyBear<W>, W>: LaneWidth<W>,
    requires { W ≤ 16 }
{
    match row {
        Row::CountedTables => points::tables::counted::<EF>(alloc),
        Row::Extensions(row) => extensions::holds::<BabyBear<W>, EF>(alloc, row),
        Row::Kernels(row) => kernels::holds::<BabyBear<W>, EF>(alloc, row),
        Row::Ring(row) => ring_holds::<EF>(alloc, row),
    }
}

/// Whether the row holds over the residues modulo a prime, whose packing has `W` lanes.
pub fn residues<const W: usize>(alloc: Global, row: Row<BabyBear<W>>) -> Result<bool, AllocError>
where
    Lanes<BabyBear<W>, W>: LaneWidth<W>,
    requires { W ≤ 16 }
{
    over_residues::<W, BabyBear<W>>(alloc, row)
}

/// Whether the row holds over the quartic extension of residues, whose packing has four lanes.
pub fn quartics(
    alloc: Global,
    row: Row<QuarticExtension<BabyBear<4>>>,
) -> Result<bool, AllocError> {
    over_residues::<4, QuarticExtension<BabyBear<4>>>(alloc, row)
}

/// Whether the row holds over products of two copies of the residues, whose packing has two lanes.
pub fn pairs(alloc: Global, row: PairRow) -> Result<bool, AllocError> {
    match row {
        PairRow::Coordinates => {
            points::coordinates::rows::<ProductAlgebra<BabyBear<2>, 2>>(alloc)
        }
        PairRow::Items(row) => extensions::items::holds(alloc, row),
    }
}

/// Whether the row holds over products of nine copies of the residues, whose packing has four lanes.
pub fn nine_copies(
    alloc: Global,
    row: Row<ProductAlgebra<BabyBear<4>, 9>>,
) -> Result<bool, AllocError> {
    over_residues::<4, ProductAlgebra<BabyBear<4>, 9>>(alloc, row)
}

/// Whether the row holds over the residues modulo 2^64.
pub fn words<const W: usize>(alloc: Global, row: RingRow) -> Result<bool, AllocError> {
    ring_holds::<WrappingU64<W>>(alloc, row)
}
