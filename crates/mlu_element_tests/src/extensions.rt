//! Worked values, calls of each item at each ring, and what `{:?}` prints.
ghost use Rattle.std.specs.Prelude.{◌*◌, ◌<◌, ◌^◌};
ghost use Rattle.std.specs.Mem.{type_size};

mod counted;
mod dots;
pub mod items;
mod products;
mod quartics;
mod texts;

use mlu_ext::{ProductAlgebra, QuarticExtension};
use mlu_lanes::BabyBear;
use mlu_ring::{ExtensionField, Field, SelfAlgebra};
use std::alloc::{AllocError, Global};

type Bear = BabyBear<4>;

type Quartic = QuarticExtension<Bear>;

type NarrowBear = BabyBear<2>;

type Pair = ProductAlgebra<NarrowBear, 2>;

fn quartic(c0: u32, c1: u32, c2: u32, c3: u32) -> Quartic {
    QuarticExtension::new(
        Bear::from_u32(c0),
        Bear::from_u32(c1),
        Bear::from_u32(c2),
        Bear::from_u32(c3),
    )
}

fn pair(first: u32, second: u32) -> Pair {
    ProductAlgebra::from_array([NarrowBear::from_u32(first), NarrowBear::from_u32(second)])
}

/// What is tried over an extension, with what it is given and what it is to answer.
pub enum Row<EF> {
    Counted(EF, EF),
    Items(items::Row<EF>),
    Listed(EF),
}

/// Whether the row holds.
pub fn holds<F: Field, EF: ExtensionField<F> + SelfAlgebra>(
    alloc: Global,
    row: Row<EF>,
) -> Result<bool, AllocError>
    requires packings_fit { 4 * type_size F.Packing.row < 2 ^ 63 }
    requires elements_fit { 4 * type_size F.row < 2 ^ 63 }
{
    match row {
        Row::Counted(element, sum) => counted::counts::<F, EF>(alloc, element, sum),
        Row::Items(row) => items::holds::<EF>(alloc, row),
        Row::Listed(element) => Ok(counted::lists::<F, EF>(element)),
    }
}
