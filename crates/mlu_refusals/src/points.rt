//! Points made, copied and cut, owned and borrowed.
ghost use Rattle.std.specs.Prelude.{◌≡◌, length};

use crate::answers::gives_point;
use crate::calls;
use crate::calls::Call::Point as Tried;
use crate::given::Receiver::{self, Owner, View};
use crate::given::point;
use crate::outcome::{Outcome, judge, written};
use mlu_point::point::{Point, PointView};
use mlu_ring::{Additive, Field, Sample};
use mlu_test_support::numbers::{are, element, elements};
use rand_pcg::Pcg32;
use std::alloc::{AllocError, Global};
use std::slice;

/// The calls that this file makes.
#[derive(Clone, Copy)]
pub enum Call {
    GetSubpointOverRange(Receiver),
    Reversed(Receiver),
    SplitAt(Receiver),
    TryClone,
    Extend,
    Hypercube,
    ExpandFromUnivariate,
    Transpose,
    Rand,
}

/// The call with this name.
pub fn named(name: &str) -> Option<calls::Call> {
    Some(match name {
        "Point::get_subpoint_over_range" => Tried(Call::GetSubpointOverRange(Owner)),
        "Point::reversed" => Tried(Call::Reversed(Owner)),
        "Point::split_at" => Tried(Call::SplitAt(Owner)),
        "Point::try_clone" => Tried(Call::TryClone),
        "Point::extend" => Tried(Call::Extend),
        "Point::hypercube" => Tried(Call::Hypercube),
        "Point::expand_from_univariate" => Tried(Call::ExpandFromUnivariate),
        "Point::transpose" => Tried(Call::Transpose),
        "Point::rand" => Tried(Call::Rand),
        "PointView::get_subpoint_over_range" => Tried(Call::GetSubpointOverRange(View)),
        "PointView::reversed" => Tried(Call::Reversed(View)),
        "PointView::split_at" => Tried(Call::SplitAt(View)),
        _ => return None,
    })
}

/// What becomes of the call. Fails where its inputs are refused.
pub fn made<R: Field + Sample>(alloc: Global, call: Call) -> Result<Outcome, AllocError> {
    let point = point::<R>(alloc, &[2, 3, 5])?;
    let view = point.as_view();
    let answered = match call {
        Call::GetSubpointOverRange(Owner) => {
            gives_point(point.get_subpoint_over_range(alloc, 1..2), &[3])
        }
        Call::GetSubpointOverRange(View) => {
            gives_point(view.get_subpoint_over_range(alloc, 1..3), &[3, 5])
        }
        Call::Reversed(Owner) => gives_point(point.reversed(alloc), &[5, 3, 2]),
        Call::Reversed(View) => gives_point(view.reversed(alloc), &[5, 3, 2]),
        Call::SplitAt(Owner) => gives_points(point.split_at(alloc, 1), &[2], &[3, 5]),
        Call::SplitAt(View) => gives_points(view.split_at(alloc, 2), &[2, 3], &[5]),
        Call::TryClone => gives_point(point.try_clone(alloc), &[2, 3, 5]),
        Call::Extend => return extend(alloc, &point),
        Call::Hypercube => gives_point(Point::<R>::hypercube(alloc, 5, 3), &[1, 0, 1]),
        Call::ExpandFromUnivariate => {
            let powers = Point::<R>::expand_from_univariate(alloc, element(3), 3);
            gives_point(powers, &[81, 9, 3])
        }
        Call::Transpose => transpose(alloc, slice::from_ref(&point)),
        Call::Rand => rand::<R>(alloc),
    };
    Ok(judge(answered, are(point.as_slice(), &[2, 3, 5])))
}

/// Whether the call gives the points with these coordinates.
fn gives_points<R: Additive>(
    answer: Result<(Point<R>, Point<R>), AllocError>,
    first: &[i32],
    rest: &[i32],
) -> Result<bool, AllocError> {
    let points = answer?;
    Ok(are(points.0.as_slice(), first) && are(points.1.as_slice(), rest))
}

/// A refused growth leaves the point as it was. A copy has no room left, so that it has to grow.
fn extend<R: Additive>(alloc: Global, point: &Point<R>) -> Result<Outcome, AllocError> {
    let mut point = point.try_clone(alloc)?;
    let more: Vec<R> = elements(alloc, &[7])?;
    let done = point.extend(PointView::new(more.as_slice()));
    Ok(written(done, point.as_slice(), &[2, 3, 5, 7], &[2, 3, 5]))
}

fn transpose<R: Field>(alloc: Global, points: &[Point<R>]) -> Result<bool, AllocError>
    requires { length points.now ≡ 1 }
{
    let matrix = Point::transpose(alloc, points, true)?;
    Ok(are(matrix.values.as_slice(), &[5, 3, 2]) && matrix.width() == 1)
}

fn rand<T: Sample + Copy>(alloc: Global) -> Result<bool, AllocError> {
    let mut rng = Pcg32::new(1, 54);
    Ok(Point::<T>::rand(alloc, &mut rng, 5)?.num_variables() == 5)
}
