//! Calls that ask for no memory, so that they do not fail whichever allocation is refused.
ghost use Rattle.std.specs.Prelude.{◌≡◌};

use crate::answers::has_lanes;
use crate::calls;
use crate::calls::Call::Unfailing;
use crate::given::{WEIGHTS, counted, is_counted, point};
use crate::outcome::{Outcome, judge};
use mlu_point::eq_batch::{
    eval_eq_base_batch, eval_eq_base_batch_in_chunks, eval_eq_batch, eval_eq_batch_in_chunks,
};
use mlu_point::point::{BitOrder, Point, PointView};
use mlu_ring::{
    Additive, ExtensionField, Field, PrimeCharacteristicRing, RowMajorMatrixView, Sample, Unmetered,
};
use mlu_test_support::numbers::{are, element, elements};
use multilinear_util::poly::{Poly, PolyMaybePacked};
use multilinear_util::split_eq::SplitEq;
use rand_pcg::Pcg32;
use std::alloc::{AllocError, Global};
use std::slice;

/// The calls that this file makes.
#[derive(Clone, Copy)]
pub enum Call {
    NoPoints,
    EmptyPoint,
    WholeChunk,
    SizeThatIsThere,
    Scalars,
    SplitInLanes,
}

/// The weights of the point (2, 2, 2, 2).
const WEIGHTS_OF_TWOS: [i32; 16] = [1, -2, -2, 4, -2, 4, 4, -8, -2, 4, 4, -8, 4, -8, -8, 16];

/// The call with this name.
pub fn named(name: &str) -> Option<calls::Call> {
    Some(match name {
        "batches of no points" => Unfailing(Call::NoPoints),
        "points of no coordinates" => Unfailing(Call::EmptyPoint),
        "Point::fill_equality_table_in_chunks in one chunk" => Unfailing(Call::WholeChunk),
        "Poly::pad_zeros to the size that is there" => Unfailing(Call::SizeThatIsThere),
        "PolyMaybePacked below the threshold" => Unfailing(Call::Scalars),
        "SplitEq::accumulate_into_packed with packed weights" => Unfailing(Call::SplitInLanes),
        _ => return None,
    })
}

/// What becomes of the call. Fails where its inputs are refused.
pub fn made<R: ExtensionField<R> + Sample>(alloc: Global, call: Call) -> Result<Outcome, AllocError>
    requires { R.Packing.WIDTH ≡ 4 }
{
    match call {
        Call::NoPoints => no_points::<R>(alloc),
        Call::EmptyPoint => Ok(empty_point::<R>(alloc)),
        Call::WholeChunk => whole_chunk::<R>(alloc),
        Call::SizeThatIsThere => size_that_is_there::<R>(alloc),
        Call::Scalars => scalars::<R>(alloc),
        Call::SplitInLanes => split_in_lanes::<R>(alloc),
    }
}

/// Batches of no points.
fn no_points<R: ExtensionField<R>>(alloc: Global) -> Result<Outcome, AllocError> {
    let mut places: Vec<R> = elements(alloc, &[9, 9, 9])?;
    let none: RowMajorMatrixView<'_, R> = RowMajorMatrixView::new(&[], 0);
    let out = places.as_mut_slice();
    let added = eval_eq_batch::<R, R, true>(alloc, none, out, &[]).is_ok()
        && eval_eq_batch_in_chunks::<R, R, true>(alloc, none, out, &[], 1).is_ok();
    let kept = are(out, &[9, 9, 9]);
    let cleared = eval_eq_base_batch::<R, R, false>(alloc, none, out, &[]).is_ok()
        && eval_eq_base_batch_in_chunks::<R, R, false>(alloc, none, out, &[], 1).is_ok();
    Ok(judge(Ok(added && cleared), kept && are(out, &[0, 0, 0])))
}

/// All calls that make or copy a point of no coordinates.
fn empty_point<R: Field + Sample>(alloc: Global) -> Outcome {
    let mut point: Point<R> = Point::empty(alloc);
    let mut rng = Pcg32::new(1, 54);
    let copied = point.try_clone(alloc).is_ok()
        && point.reversed(alloc).is_ok()
        && point.split_at(alloc, 0).is_ok()
        && point.get_subpoint_over_range(alloc, 0..0).is_ok();
    let made = Point::<R>::hypercube(alloc, 0, 0).is_ok()
        && Point::<R>::rand(alloc, &mut rng, 0).is_ok()
        && Point::transpose(alloc, slice::from_ref(&point), false).is_ok();
    let extended = point.extend(PointView::default()).is_ok();
    judge(Ok(copied && made && extended), point.num_variables() == 0)
}

/// A table in one chunk.
fn whole_chunk<R: Field>(alloc: Global) -> Result<Outcome, AllocError> {
    let point = point::<R>(alloc, &[2, 3, 5])?;
    let mut out: Vec<R> = elements(alloc, &[9; 8])?;
    let done = point.fill_equality_table_in_chunks(
        alloc,
        out.as_mut_slice(),
        BitOrder::Msb,
        R::ONE,
        3,
        &mut Unmetered::new(),
    );
    Ok(judge(Ok(done.is_ok()), are(out.as_slice(), &WEIGHTS)))
}

/// Zeros appended up to the size that is there.
fn size_that_is_there<R: PrimeCharacteristicRing>(alloc: Global) -> Result<Outcome, AllocError> {
    let mut poly = counted::<R>(alloc, 8)?;
    let done = poly.pad_zeros(3);
    Ok(judge(Ok(done.is_ok()), is_counted(&poly, 8)))
}

/// A scalar storage, evaluated below the threshold and unpacked.
fn scalars<R: ExtensionField<R>>(alloc: Global) -> Result<Outcome, AllocError> {
    let point = point::<R>(alloc, &[2, 3, 5])?;
    let storage: PolyMaybePacked<R, R> = PolyMaybePacked::Scalar(counted::<R>(alloc, 8)?);
    let valued = storage.eval(alloc, &point) == Ok(element(20));
    let unpacked = match storage.unpack(alloc) {
        Ok(poly) => is_counted(&poly, 8),
        Err(_) => false,
    };
    Ok(judge(Ok(valued), unpacked))
}

/// A table with lanes in its second half, added to packed zeros and paired with itself.
fn split_in_lanes<R: ExtensionField<R>>(alloc: Global) -> Result<Outcome, AllocError>
    requires { R.Packing.WIDTH ≡ 4 }
{
    let point = point::<R>(alloc, &[2; 4])?;
    let split = SplitEq::<R, R>::new_packed(alloc, &point, R::ONE)?;
    let mut sums: Poly<R::ExtensionPacking> = Poly::zero(alloc, 2)?;
    let done = split.accumulate_into_packed(alloc, sums.as_mut_slice(), None);
    let added = done.is_ok() && has_lanes::<R>(sums.as_slice(), &WEIGHTS_OF_TWOS);
    let squares = split.eval_packed(alloc, sums.as_view());
    Ok(judge(Ok(added), squares == Ok(element(625))))
}
