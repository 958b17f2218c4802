//! The rings that rows are tried at, a function for each ring, in packings of four lanes.
//!
//! A function that calls generic code at a ring pays for every implementation that the ring stands on; a call of one
//! of these pays for none.
ghost use Rattle.std.specs.Prelude.{◌*◌, ◌<◌, ◌^◌, length};
ghost use Rattle.std.specs.Mem.{type_size};

use crate::polynomials::images;
use crate::{examples, polynomials, printed, slices, sumcheck};
use mlu_ext::QuarticExtension;
use mlu_lanes::{BabyBear, WrappingU64};
use mlu_ring::{ExtensionField, MapFrom, Sample, SelfAlgebra};
use std::alloc::{AllocError, Global};
use std::fmt::Debug;

/// The residues modulo a prime.
type Residue = BabyBear<4>;

/// Their extension of degree four.
type Quartic = QuarticExtension<Residue>;

/// The residues modulo 2^64.
pub type Word = WrappingU64<4>;

/// What is tried over residues, and over their quartic extension.
pub enum Row {
    BatchInChunks,
    /// The images of a split table in its own ring.
    Images,
    /// The images, in the extension, of a split table over the ring below it.
    ImagesOfBase,
    Polynomials(polynomials::Row),
    /// Over the residues alone.
    Printed(printed::Row),
    Slices(slices::Row),
    Sumcheck(sumcheck::Row),
}

/// Whether the row holds over an extension of a ring.
fn holds<
    F: ExtensionField<F>,
    EF: ExtensionField<F> + ExtensionField<EF> + SelfAlgebra + MapFrom<F> + MapFrom<EF> + Sample,
>(alloc: Global, row: Row) -> Result<bool, AllocError>
    requires two_rounds_fit { 6 * type_size EF.row < 2 ^ 63 }
{
    match row {
        Row::BatchInChunks => examples::adds_in_chunks::<F, EF>(alloc),
        Row::Images => images::are_numbers::<F, EF, EF>(alloc),
        Row::ImagesOfBase => images::are_numbers::<F, F, EF>(alloc),
        Row::Polynomials(row) => polynomials::holds::<EF>(alloc, row),
        Row::Printed(_) => Ok(false),
        Row::Slices(row) => slices::holds::<EF>(alloc, row),
        Row::Sumcheck(row) => sumcheck::holds::<F, EF>(alloc, row),
    }
}

/// Whether the row holds over a ring as an extension of itself.
fn holds_over_itself<R: ExtensionField<R> + SelfAlgebra + MapFrom<R> + Sample + Debug>(
    alloc: Global,
    row: Row,
) -> Result<bool, AllocError>
where
    R::ExtensionPacking: Debug,
    requires two_rounds_fit { 6 * type_size R.row < 2 ^ 63 }
{
    match row {
        Row::Printed(row) => printed::are_right::<R>(alloc, row),
        _ => holds::<R, R>(alloc, row),
    }
}

/// Whether the row holds over the residues modulo a prime.
pub fn residues(alloc: Global, row: Row) -> Result<bool, AllocError> {
    holds_over_itself::<Residue>(alloc, row)
}

/// Whether the row holds over the quartic extension of residues.
pub fn quartics(alloc: Global, row: Row) -> Result<bool, AllocError> {
    holds::<Residue, Quartic>(alloc, row)
}

/// Whether the row holds over the residues modulo 2^64.
pub fn words(alloc: Global, row: slices::Row) -> Result<bool, AllocError> {
    slices::holds::<Word>(alloc, row)
}

/// Whether 5 times the weights of the point have these images in the words.
pub fn residues_in_words(
    alloc: Global,
    coordinates: &[i32],
    images: &[Word],
) -> Result<bool, AllocError>
    requires { length coordinates.now < 64 }
{
    images::are::<Residue, Residue, Word>(alloc, coordinates, images)
}
