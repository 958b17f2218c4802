//! The definitions, each index by itself.
ghost use Rattle.std.specs.Prelude.{◌≡◌, ◌*◌, ◌<◌, ◌^◌, IfOk, length, vec_len};

use mlu_ring::{Additive, Algebra, PrimeCharacteristicRing, row_range};
use std::alloc::{AllocError, Global};

/// The product over the coordinates: each where its bit of `x` is 1, and one less it where the bit
/// is 0. The last coordinate reads the lowest bit.
pub fn weight<R: PrimeCharacteristicRing>(point: &[R], x: usize) -> R {
    let mut product = R::ONE;
    let mut bits = x;
    for coordinate in point.iter().rev() {
        let factor = if bits % 2 == 1 {
            *coordinate
        } else {
            R::ONE - *coordinate
        };
        product = product * factor;
        bits /= 2;
    }
    product
}

/// `scale` times the weight of each vertex.
pub fn table<R: PrimeCharacteristicRing>(
    alloc: Global,
    point: &[R],
    scale: R,
) -> Result<Vec<R>, AllocError>
    requires { length point.now < 20 }
    ensures { IfOk result (λ table. vec_len table ≡ 2 ^ length point.now) }
{
    (0..1 << point.len())
        .map(|x| scale * weight(point, x))
        .collect(alloc)
}

/// The sum over all vertices of the entry times its weight.
pub fn value<R: PrimeCharacteristicRing>(entries: &[R], point: &[R]) -> R {
    let mut sum = R::ZERO;
    for (x, entry) in entries.iter().enumerate() {
        sum = sum + weight(point, x) * *entry;
    }
    sum
}

/// The images of base entries.
pub fn images<F: Additive, EF: Algebra<F>>(
    alloc: Global,
    entries: &[F],
) -> Result<Vec<EF>, AllocError>
    ensures { IfOk result (λ images. vec_len images ≡ length entries.now) }
{
    entries
        .iter()
        .map(|entry| EF::from_base(*entry))
        .collect(alloc)
}

/// The sum of the entries, each times its weight.
pub fn dot<R: PrimeCharacteristicRing>(weights: &[R], entries: &[R]) -> R {
    let mut sum = R::ZERO;
    for (weight, entry) in weights.iter().zip(entries) {
        sum = sum + *weight * *entry;
    }
    sum
}

/// Each entry of a first half times each weight of a second one, in order.
pub fn split_table<R: PrimeCharacteristicRing>(
    alloc: Global,
    eq0: &[R],
    weights: &[R],
) -> Result<Vec<R>, AllocError>
    requires rows { length eq0.now < 256 }
    requires weights { length weights.now < 256 }
    ensures { IfOk result (λ whole. vec_len whole ≡ length eq0.now * length weights.now) }
{
    let mut whole = R::zero_vec(alloc, eq0.len() * weights.len())?;
    for j in 0..eq0.len() {
        let row = row_range(whole.len(), eq0.len(), j);
        write_scaled(&mut whole[row], eq0[j], weights);
    }
    Ok(whole)
}

/// Writes each weight times `entry`.
fn write_scaled<R: PrimeCharacteristicRing>(out: &mut [R], entry: R, weights: &[R]) {
    for (place, weight) in out.iter_mut().zip(weights) {
        *place = entry * *weight;
    }
}

/// The sum over `y` of weight `y` times `entries[first + y * step]`.
fn strided<R: PrimeCharacteristicRing>(
    weights: &[R],
    entries: &[R],
    first: usize,
    step: usize,
) -> R {
    let mut sum = R::ZERO;
    let mut place = first;
    for weight in weights {
        if let Some(entry) = entries.get(place) {
            sum = sum + *weight * *entry;
        }
        place = place.saturating_add(step);
    }
    sum
}

/// For each `z` below the number of values left, the sum over `y` of weight `y` times
/// `entries[y * left + z]`.
pub fn compressed_prefix<R: PrimeCharacteristicRing>(
    alloc: Global,
    weights: &[R],
    entries: &[R],
) -> Result<Vec<R>, AllocError> {
    let left = entries.len().checked_div(weights.len()).unwrap_or(0);
    (0..left)
        .map(|z| strided(weights, entries, z, left))
        .collect(alloc)
}

/// For each `y` below the number of values left, the sum over `z` of weight `z` times
/// `entries[y * weights.len() + z]`.
pub fn compressed_suffix<R: PrimeCharacteristicRing>(
    alloc: Global,
    weights: &[R],
    entries: &[R],
) -> Result<Vec<R>, AllocError> {
    let left = entries.len().checked_div(weights.len()).unwrap_or(0);
    (0..left)
        .map(|y| strided(weights, entries, y.saturating_mul(weights.len()), 1))
        .collect(alloc)
}

/// The last entry, and zero of none.
pub fn last<R: PrimeCharacteristicRing>(entries: &[R]) -> R {
    entries.last().copied().unwrap_or(R::ZERO)
}

/// The entries moved up by one place: zero, and then all but the last.
pub fn moved<R: PrimeCharacteristicRing>(alloc: Global, entries: &[R]) -> Result<Vec<R>, AllocError>
    ensures { IfOk result (λ moved. vec_len moved ≡ length entries.now) }
{
    let mut moved = R::zero_vec(alloc, entries.len())?;
    for x in 1..entries.len() {
        moved[x] = entries[x - 1];
    }
    Ok(moved)
}

/// The entries moved up by one place, and the last one added at the place `end`.
pub fn next<R: PrimeCharacteristicRing>(
    alloc: Global,
    entries: &[R],
    end: usize,
) -> Result<Vec<R>, AllocError>
    ensures { IfOk result (λ next. vec_len next ≡ length entries.now) }
{
    let mut next = moved(alloc, entries)?;
    if let Some(place) = next.get_mut(end) {
        *place = *place + last(entries);
    }
    Ok(next)
}
