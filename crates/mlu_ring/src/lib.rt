//! Rings whose laws are proved, and the mathematics that every crate above names.
//!
//! The traits that have names of `p3-field` are those, with laws; the others are this library's. An
//! implementation proves the laws, and generic code uses nothing else. Each of them speaks of one
//! ghost record `ring`, the operations of a commutative ring, so that a definition is stated once
//! and holds for every type.
//!
//! Definitions stand in `specs/`: [`Ring`] and its laws, sums and products of lists, weights and
//! values of tables, and what it means for a packed value to work lane by lane.
#![tactic(auto)]

mod additive;
mod affine;
mod algebra;
mod conversion;
mod ext_lanes;
mod extension;
mod field;
mod logarithm;
mod matrix;
mod meter;
mod packed;
pub mod place_by_place;
mod ring;
mod row;
mod sample;
mod tally;

pub use additive::{Additive, zeros};
pub use affine::AffineInEach;
pub use algebra::{Algebra, SelfAlgebra};
pub use conversion::{MapFrom, RingMapFrom};
pub use ext_lanes::ExtLanes;
pub use extension::{
    ExtensionField, PackedFieldExtension, packed_of_four, scale_by_base, scale_by_packing,
    scale_packing,
};
pub use field::{Field, dot4, mixed_dot4};
pub use logarithm::{log2_ceil_usize, log2_strict_usize};
pub use matrix::{RowMajorMatrix, RowMajorMatrixView};
pub use meter::{Counter, Meter, Unmetered};
pub use packed::{Lanewise, PackedValue};
pub use ring::PrimeCharacteristicRing;
pub use row::{row_of, row_of_width, row_range};
pub use sample::Sample;
