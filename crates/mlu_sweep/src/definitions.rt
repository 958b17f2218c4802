//! The definitions that the crate of test support does not have, each index by itself.
ghost use Rattle.std.specs.Prelude.{◌≡◌, ◌^◌, IfOk, vec_len, length};

use mlu_ring::{Additive, Algebra, PrimeCharacteristicRing};
use mlu_test_support::lists::{filled, pair};
use mlu_test_support::plain;
use multilinear_util::point::{Point, Successor};
use std::alloc::{AllocError, Global};

/// `scale` times the weight of each vertex. Fails at 32 coordinates and more.
pub fn table<R: PrimeCharacteristicRing>(
    alloc: Global,
    point: &[R],
    scale: R,
) -> Result<Vec<R>, AllocError>
    ensures { IfOk result (λ table. vec_len table ≡ 2 ^ length point.now) }
{
    if point.len() >= 32 {
        return Err(AllocError);
    }
    (0..1 << point.len())
        .map(|x| scale * plain::weight(point, x))
        .collect(alloc)
}

/// The entries, each moved to its successor by the rule.
pub fn next_by<R: PrimeCharacteristicRing>(
    alloc: Global,
    rule: Successor,
    entries: &[R],
) -> Result<Vec<R>, AllocError> {
    let end = match rule {
        Successor::RepeatLast => entries.len().saturating_sub(1),
        Successor::Wrap => 0,
    };
    plain::next(alloc, entries, end)
}

/// The sum of the images of the entries, each times its weight.
pub fn dot<F: Additive, EF: Algebra<F>>(
    alloc: Global,
    weights: &[EF],
    entries: &[F],
) -> Result<EF, AllocError> {
    let images: Vec<EF> = plain::images(alloc, entries)?;
    Ok(plain::dot(weights, &images))
}

/// The sum of the images of the entries, each times the weight of its vertex at the point.
pub fn value<F: Additive, EF: Algebra<F>>(
    alloc: Global,
    point: &[EF],
    entries: &[F],
) -> Result<EF, AllocError> {
    let weights = table(alloc, point, EF::ONE)?;
    dot(alloc, &weights, entries)
}

/// The images of the entries, compressed at the last variables.
pub fn compressed_suffix<F: Additive, EF: Algebra<F>>(
    alloc: Global,
    weights: &[EF],
    entries: &[F],
) -> Result<Vec<EF>, AllocError> {
    let images: Vec<EF> = plain::images(alloc, entries)?;
    plain::compressed_suffix(alloc, weights, &images)
}

/// What the table of a point, times a scale, leaves of the entries of a polynomial, as it is and moved up by
/// one place.
#[derive(Drop)]
pub struct Compressed<R> {
    pub point: Point<R>,
    pub scale: R,
    pub weights: Vec<R>,
    pub prefix: Vec<R>,
    pub suffix: Vec<R>,
    pub moved_prefix: Vec<R>,
    pub moved_suffix: Vec<R>,
}

impl<R: PrimeCharacteristicRing> Compressed<R> {
    /// The compressions at the point, times the scale. Fails at 32 coordinates and more.
    pub fn new(
        alloc: Global,
        point: Point<R>,
        scale: R,
        entries: &[R],
    ) -> Result<Self, AllocError> {
        let weights = table(alloc, point.as_slice(), scale)?;
        let moved = plain::moved(alloc, &weights)?;
        let prefix = plain::compressed_prefix(alloc, &weights, entries)?;
        let suffix = plain::compressed_suffix(alloc, &weights, entries)?;
        let moved_prefix = plain::compressed_prefix(alloc, &moved, entries)?;
        let moved_suffix = plain::compressed_suffix(alloc, &moved, entries)?;
        Ok(Compressed {
            point,
            scale,
            weights,
            prefix,
            suffix,
            moved_prefix,
            moved_suffix,
        })
    }
}

/// The sums of entries, each times its weight, and of those moved to their successors by either rule.
#[derive(Clone, Copy)]
pub struct Sums<R> {
    pub value: R,
    pub repeated: R,
    pub wrapped: R,
}

impl<R: PrimeCharacteristicRing> Sums<R> {
    /// The sums of these entries.
    pub fn new(alloc: Global, weights: &[R], entries: &[R]) -> Result<Self, AllocError> {
        let repeated = next_by(alloc, Successor::RepeatLast, weights)?;
        let wrapped = next_by(alloc, Successor::Wrap, weights)?;
        Ok(Sums {
            value: plain::dot(weights, entries),
            repeated: plain::dot(&repeated, entries),
            wrapped: plain::dot(&wrapped, entries),
        })
    }
}

/// The entries, compressed at the first variable by two weights.
pub fn first_folded<R: PrimeCharacteristicRing>(
    alloc: Global,
    (low, high): (R, R),
    entries: &[R],
) -> Result<Vec<R>, AllocError> {
    let weights = pair(alloc, low, high)?;
    plain::compressed_prefix(alloc, &weights, entries)
}

/// The entries, compressed at the last variable by two weights.
pub fn last_folded<R: PrimeCharacteristicRing>(
    alloc: Global,
    (low, high): (R, R),
    entries: &[R],
) -> Result<Vec<R>, AllocError> {
    let weights = pair(alloc, low, high)?;
    plain::compressed_suffix(alloc, &weights, entries)
}

/// The first powers of an element, from its power 0 on.
pub fn powers<R: PrimeCharacteristicRing>(
    alloc: Global,
    x: R,
    count: usize,
) -> Result<Vec<R>, AllocError> {
    let mut powers = Vec::new(alloc);
    let mut power = R::ONE;
    for _ in 0..count {
        powers.push(power)?;
        power = power * x;
    }
    Ok(powers)
}

/// Twos, with `a` times each weight added to its place and `b` times the weight before it, or the
/// boundary to the first place.
pub fn two_and_steps<R: PrimeCharacteristicRing>(
    alloc: Global,
    weights: &[R],
    (a, b, boundary): (R, R, R),
) -> Result<Vec<R>, AllocError> {
    let mut sums = filled(alloc, R::TWO, weights.len())?;
    let mut before = boundary;
    for (place, weight) in sums.iter_mut().zip(weights) {
        *place = *place + a * *weight + before;
        before = b * *weight;
    }
    Ok(sums)
}

/// The values with each entry of the table, times the scale, added to its place.
pub fn plus_scaled<R: PrimeCharacteristicRing>(
    alloc: Global,
    before: &[R],
    scale: R,
    entries: &[R],
) -> Result<Vec<R>, AllocError> {
    let mut sums = Vec::from_slice(alloc, before)?;
    for (place, entry) in sums.iter_mut().zip(entries) {
        *place = *place + scale * *entry;
    }
    Ok(sums)
}

/// The last value, and the last entry, times the scale, added to it.
pub fn plus_last<R: PrimeCharacteristicRing>(values: &[R], scale: R, entries: &[R]) -> R {
    plain::last(values) + scale * plain::last(entries)
}

/// The coordinates in column `i` of rows of `points` each.
fn column<R: Copy>(
    alloc: Global,
    rows: &[R],
    points: usize,
    i: usize,
) -> Result<Vec<R>, AllocError> {
    let mut coordinates = Vec::new(alloc);
    for (place, coordinate) in rows.iter().enumerate() {
        if place.checked_rem(points) == Some(i) {
            coordinates.push(*coordinate)?;
        }
    }
    Ok(coordinates)
}

/// Adds to each place the scalar times the weight of its vertex at the point.
fn add_weights<R: PrimeCharacteristicRing>(out: &mut [R], point: &[R], scalar: R) {
    for (x, place) in out.iter_mut().enumerate() {
        *place = *place + scalar * plain::weight(point, x);
    }
}

/// Adds to each place, for each point in the columns of `rows`, its scalar times the weight of the
/// place's vertex.
pub fn add_batch<R: PrimeCharacteristicRing>(
    alloc: Global,
    out: &mut [R],
    rows: &[R],
    scalars: &[R],
) -> Result<(), AllocError> {
    for (i, scalar) in scalars.iter().enumerate() {
        let point = column(alloc, rows, scalars.len(), i)?;
        add_weights(out, &point, *scalar);
    }
    Ok(())
}

/// The dot of the weights with the images of each of so many rows of entries.
pub fn row_dots<F: Additive, EF: Algebra<F>>(
    alloc: Global,
    weights: &[EF],
    entries: &[F],
    rows: usize,
) -> Result<Vec<EF>, AllocError> {
    let mut dots = compressed_suffix(alloc, weights, entries)?;
    dots.resize(rows, EF::ZERO)?;
    Ok(dots)
}

/// The sum of the dots of the rows, one for each factor, each times its factor.
pub fn double_sum<F: Additive, EF: Algebra<F>>(
    alloc: Global,
    factors: &[EF],
    weights: &[EF],
    entries: &[F],
) -> Result<EF, AllocError> {
    let dots = row_dots(alloc, weights, entries, factors.len())?;
    Ok(plain::dot(factors, &dots))
}

/// The values, and added to value `z` the sum over `i` of `scale` times weight `i` times the image of
/// `entries[i * values.len() + z]`.
pub fn plus_rows<F: Additive, EF: Algebra<F>>(
    alloc: Global,
    values: &[EF],
    (scale, weights): (EF, &[EF]),
    entries: &[F],
) -> Result<Vec<EF>, AllocError> {
    let images: Vec<EF> = plain::images(alloc, entries)?;
    let rows = plain::compressed_prefix(alloc, weights, &images)?;
    plus_scaled(alloc, values, scale, &rows)
}

/// For each lane `k` of so many, the sum over `i` of `left[i * lanes + k]` times `right[i * lanes + k]`.
pub fn lane_dots<R: PrimeCharacteristicRing>(
    alloc: Global,
    left: &[R],
    right: &[R],
    lanes: usize,
) -> Result<Vec<R>, AllocError> {
    let mut dots = Vec::new(alloc);
    for k in 0..lanes {
        let weights = column(alloc, left, lanes, k)?;
        let entries = column(alloc, right, lanes, k)?;
        dots.push(plain::dot(&weights, &entries))?;
    }
    Ok(dots)
}
