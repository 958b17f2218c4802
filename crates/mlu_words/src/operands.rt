//! Tables and points that words stand for.
ghost use Rattle.std.specs.Prelude.{◌≡◌, length, IfOk};
ghost use Rattle.mlu_words.specs.Codings.{element_count, elements_of};
ghost use Rattle.mlu_words.specs.Sizes.{IsTable};

use crate::words::{Words, read};
use mlu_point::point::Point;
use multilinear_util::poly::Poly;
use std::alloc::{AllocError, Global};

/// Which variables of a table a call sets.
#[derive(Clone, Copy, Debug, PartialEq, Eq)]
pub enum Variables {
    /// The first ones, a prefix.
    First,
    /// The last ones, a suffix.
    Last,
}

/// A table. Asks for the words of a power of two of elements.
///
/// # Errors
/// Where memory is refused.
pub fn table<T: Words>(alloc: Global, words: &[u32]) -> Result<Poly<T>, AllocError>
    requires { IsTable T.coding words.now }
    ensures elements { IfOk result (λ table. table ≡ elements_of T.coding words.now) }
    ensures size { IfOk result (λ table. length table ≡ element_count T.coding words.now) }
{
    Ok(Poly::new(read(alloc, words)?))
}

/// A table and a point. Asks that the table's words are those of a power of two of elements.
///
/// # Errors
/// Where memory is refused.
pub fn table_and_point<A: Words, B: Words>(
    alloc: Global,
    entries: &[u32],
    coordinates: &[u32],
) -> Result<(Poly<A>, Point<B>), AllocError>
    requires { IsTable A.coding entries.now }
    ensures table { IfOk result (λ both. both.0 ≡ elements_of A.coding entries.now) }
    ensures table_size { IfOk result (λ both. length both.0 ≡ element_count A.coding entries.now) }
    ensures point { IfOk result (λ both. both.1 ≡ elements_of B.coding coordinates.now) }
    ensures point_size { IfOk result (λ both. length both.1 ≡ element_count B.coding coordinates.now) }
{
    let table = table(alloc, entries)?;
    let point = Point::new(read(alloc, coordinates)?);
    Ok((table, point))
}
