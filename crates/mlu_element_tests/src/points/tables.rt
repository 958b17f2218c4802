//! The weights of points, with their products counted.
ghost use Rattle.std.specs.Prelude.{◌≤◌};

use mlu_point::point::{BitOrder, Point, PointView};
use mlu_ring::{Counter, Field, Unmetered};
use mlu_test_support::numbers::{are, element, elements};
use std::alloc::{AllocError, Global};

/// The weights of (2, 3, 5).
const MSB: [i32; 8] = [-8, 10, 12, -15, 16, -20, -24, 30];

/// The same in the other order.
const LSB: [i32; 8] = [-8, 16, 12, -24, 10, -20, -15, 30];

/// The tables of (2, 3, 5) with so many low coordinates, those of (2, 3), and that of no coordinate,
/// with their products counted; and one whose products are not shown.
pub fn counted<R: Field>(alloc: Global) -> Result<bool, AllocError> {
    for low_variables in 0..4 {
        if !makes::<R>(alloc, BitOrder::Msb, low_variables, &MSB)?
            || !makes::<R>(alloc, BitOrder::Lsb, low_variables, &LSB)?
        {
            return Ok(false);
        }
    }
    let two: Point<R> = Point::new(elements(alloc, &[2, 3])?);
    let none: PointView<'_, R> = PointView::new(&[]);
    let mut meter = Counter::new();
    let one = none.equality_weights_metered(alloc, BitOrder::Lsb, 0, &mut meter)?;
    let uncounted = two.equality_weights_metered(alloc, BitOrder::Lsb, 1, &mut Unmetered::new())?;
    Ok(
        fills::<R>(alloc, BitOrder::Msb, &[10, -15, -20, 30])?
            && fills::<R>(alloc, BitOrder::Lsb, &[10, -20, -15, 30])?
            && are(&one, &[1])
            && meter.made() == 0
            && are(&uncounted, &[2, -4, -3, 6]),
    )
}

/// Whether the point (2, 3, 5) and its view make these weights, each by seven products.
fn makes<R: Field>(
    alloc: Global,
    order: BitOrder,
    low_variables: usize,
    weights: &[i32],
) -> Result<bool, AllocError>
    requires { low_variables ≤ 3 }
{
    let point: Point<R> = Point::new(elements(alloc, &[2, 3, 5])?);
    let mut meter = Counter::new();
    let owned = point.equality_weights_metered(alloc, order, low_variables, &mut meter)?;
    let first = meter.made() == 7 && meter.groups() == 0;
    let view = point.as_view();
    let borrowed = view.equality_weights_metered(alloc, order, low_variables, &mut meter)?;
    let both = are(&owned, weights) && are(&borrowed, weights);
    Ok(first && both && meter.made() == 14 && meter.groups() == 0)
}

/// Whether the table of (2, 3) with scale 5 is this one at once and in two chunks, each by three products.
fn fills<R: Field>(alloc: Global, order: BitOrder, weights: &[i32]) -> Result<bool, AllocError> {
    let point: Point<R> = Point::new(elements(alloc, &[2, 3])?);
    let mut serial: Vec<R> = elements(alloc, &[9, 9, 9, 9])?;
    let mut chunks: Vec<R> = elements(alloc, &[9, 9, 9, 9])?;
    let mut meter = Counter::new();
    let (at_once, in_two) = (serial.as_mut_slice(), chunks.as_mut_slice());
    point.fill_equality_table_serial(at_once, order, element(5), &mut meter);
    point.fill_equality_table_in_chunks(alloc, in_two, order, element(5), 1, &mut meter)?;
    let both = are(&serial, weights) && are(&chunks, weights);
    Ok(both && meter.made() == 6 && meter.groups() == 0)
}
