//! Parts, copies, growth and draws of points and views.
ghost use Rattle.std.specs.Prelude.{◌≡◌, length};

use mlu_point::point::{Point, PointView};
use mlu_ring::{Additive, Sample};
use mlu_test_support::numbers::{are, element, elements};
use rand_pcg::Pcg32;
use std::alloc::{AllocError, Global};

/// Whether each row here holds.
pub fn rows<R: Additive + Sample>(alloc: Global) -> Result<bool, AllocError> {
    Ok(
        parts::<R>(alloc)?
            && parts_of_a_view::<R>(alloc)?
            && growth::<R>(alloc)?
            && draws::<R>(alloc)?,
    )
}

/// The parts of a point of three coordinates.
fn parts<R: Additive>(alloc: Global) -> Result<bool, AllocError> {
    let point: Point<R> = Point::new(elements(alloc, &[2, 3, 5])?);
    let middle = are(point.get_subpoint_over_range(alloc, 1..2)?.as_slice(), &[3]);
    let nothing = point.get_subpoint_over_range(alloc, 3..3)? == Point::empty(alloc);
    let backwards = are(point.reversed(alloc)?.as_slice(), &[5, 3, 2]);
    let (first, rest) = point.split_at(alloc, 0)?;
    Ok(middle && nothing && backwards && first == Point::empty(alloc) && rest == point)
}

/// The slice of a view that is gone when it is used.
fn slice_of<R: Additive>(coordinates: &[R]) -> &[R]
    ensures { length result.now ≡ length coordinates.now }
{
    let view = PointView::new(coordinates);
    let copy = view;
    copy.into_slice()
}

/// The sizes, coordinates and parts of a view of three coordinates.
fn parts_of_a_view<R: Additive>(alloc: Global) -> Result<bool, AllocError> {
    let coordinates: Vec<R> = elements(alloc, &[2, 3, 5])?;
    let view = PointView::new(slice_of(coordinates.as_slice()));
    let whole = are(view.as_slice(), &[2, 3, 5])
        && view.as_view() == view
        && view != PointView::default()
        && view.num_variables() == 3;
    let counted = view[2] == element(5)
        && view.iter().count() == 3
        && (&view).into_iter().count() == 3;
    let backwards = are(view.reversed(alloc)?.as_slice(), &[5, 3, 2]);
    let (first, rest) = view.split_at(alloc, 1)?;
    let halves = are(first.as_slice(), &[2]) && rest == view.get_subpoint_over_range(alloc, 1..3)?;
    Ok(whole && counted && backwards && halves)
}

/// A point that grows, and its copy, which does not.
fn growth<R: Additive>(alloc: Global) -> Result<bool, AllocError> {
    let mut point: Point<R> = Point::new(elements(alloc, &[2, 3])?);
    let before = point.try_clone(alloc)?;
    let same = before == point;
    let more: Vec<R> = elements(alloc, &[5])?;
    point.extend(PointView::new(more.as_slice()))?;
    let grown = are(point.as_slice(), &[2, 3, 5]) && point.as_view() != before.as_view();
    let last = point[2] == element(5);
    let kept = before.num_variables() == 2
        && before.iter().count() == 2
        && (&before).into_iter().count() == 2;
    Ok(same && grown && last && kept && point.into_iter().count() == 3)
}

/// Two draws, which differ; the coordinates of the first are drawn in order.
fn draws<T: Sample + Copy + Eq>(alloc: Global) -> Result<bool, AllocError> {
    let mut rng = Pcg32::new(1, 54);
    let first: Point<T> = Point::rand(alloc, &mut rng, 8)?;
    let second: Point<T> = Point::rand(alloc, &mut rng, 8)?;
    let mut again = Pcg32::new(1, 54);
    for coordinate in first.as_slice() {
        if *coordinate != T::sample(&mut again) {
            return Ok(false);
        }
    }
    Ok(first.num_variables() == 8 && first != second)
}
