//! What calls give, as the words of answers.

ghost use Rattle.std.specs.Prelude.{string_bytes, IfOk, IsOkAnd};
ghost use Rattle.mlu_ring.specs.Lanes.{logical};
ghost use Rattle.mlu_replay_calls.specs.Elements.{IsListWord};

use crate::element::{Element, write_between};
use mlu_replay_lines::fault::Fault;
use mlu_ring::{ExtensionField, Field};
use multilinear_util::point::Point;
use multilinear_util::poly::Poly;
use std::alloc::{AllocError, Global};

/// The word of the empty list.
pub const NONE: &str = "-";

/// The word of a list: its elements, joined by commas, or a dash.
///
/// # Errors
/// Where memory is refused.
pub fn list_word<T: Element>(alloc: Global, list: &[T]) -> Result<String, Fault>
    ensures { IfOk result (λ text. IsListWord T.stands (string_bytes text) list.now) }
{
    let mut text = String::new(alloc);
    if list.is_empty() {
        text.push_str(NONE)?;
    } else {
        write_between(list, ',', &mut text)?;
    }
    Ok(text)
}

/// The word of an element.
///
/// # Errors
/// Where memory is refused.
pub fn word<T: Element>(alloc: Global, element: T) -> Result<String, Fault>
    ensures { IfOk result (λ text. T.stands (string_bytes text) element) }
{
    let mut text = String::new(alloc);
    element.write(&mut text)?;
    Ok(text)
}

/// The word of an element that a call gives.
///
/// # Errors
/// Where memory is refused, to the call too.
pub fn value_word<T: Element>(alloc: Global, value: Result<T, AllocError>) -> Result<String, Fault>
    ensures { IfOk result (λ text. IsOkAnd value (λ x. T.stands (string_bytes text) x)) }
{
    word(alloc, value?)
}

/// The word of a list that a call gives.
///
/// # Errors
/// Where memory is refused, to the call too.
pub fn vec_word<T: Element>(
    alloc: Global,
    list: Result<Vec<T>, AllocError>,
) -> Result<String, Fault>
    ensures { IfOk result (λ text. IsOkAnd list (λ list. IsListWord T.stands (string_bytes text) list.items)) }
{
    let list = list?;
    list_word(alloc, &list)
}

/// The word of a point that a call gives.
///
/// # Errors
/// Where memory is refused, to the call too.
pub fn point_word<T: Element>(
    alloc: Global,
    point: Result<Point<T>, AllocError>,
) -> Result<String, Fault>
    ensures { IfOk result (λ text. IsOkAnd point (λ coordinates. IsListWord T.stands (string_bytes text) coordinates)) }
{
    let point = point?;
    list_word(alloc, point.as_slice())
}

/// The word of an output that a call has filled.
///
/// # Errors
/// Where memory is refused, to the call too.
pub fn filled_word<T: Element>(
    alloc: Global,
    filled: Result<(), AllocError>,
    out: &[T],
) -> Result<String, Fault>
    ensures { IfOk result (λ text. IsListWord T.stands (string_bytes text) out.now) }
{
    filled?;
    list_word(alloc, out)
}

/// The word of the entries of a table that a call gives.
///
/// # Errors
/// Where memory is refused, to the call too.
pub fn table_word<T: Element>(
    alloc: Global,
    table: Result<Poly<T>, AllocError>,
) -> Result<String, Fault>
    ensures { IfOk result (λ text. IsOkAnd table (λ entries. IsListWord T.stands (string_bytes text) entries)) }
{
    let table = table?;
    list_word(alloc, table.as_slice())
}

/// The word of the lanes of a packed table that a call gives.
///
/// # Errors
/// Where memory is refused, to the call too.
pub fn packed_word<F: Field, EF: ExtensionField<F> + Element>(
    alloc: Global,
    packed: Result<Poly<EF::ExtensionPacking>, AllocError>,
) -> Result<String, Fault>
    ensures { IfOk result (λ text. IsOkAnd packed
        (λ entries. IsListWord EF.stands (string_bytes text) (logical EF.ExtensionPacking.ext_lanes entries))) }
{
    let packed = packed?;
    table_word(alloc, packed.unpack::<F, EF>(alloc))
}
