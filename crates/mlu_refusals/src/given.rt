//! The inputs of the calls.
ghost use Rattle.std.specs.Prelude.{◌≡◌, ◌-◌, ◌*◌, ◌/◌, ◌^◌, ◌<◌, length, IfOk};
ghost use Rattle.std.specs.Mem.{type_size};
ghost use Rattle.multilinear_util.specs.Split.{split_entries};

use mlu_point::point::Point;
use mlu_ring::{Additive, ExtensionField, Field, PackedValue, PrimeCharacteristicRing};
use mlu_test_support::numbers::{are, elements};
use multilinear_util::poly::Poly;
use multilinear_util::split_eq::SplitEq;
use std::alloc::{AllocError, Global};

/// What a call is made on.
#[derive(Clone, Copy)]
pub enum Receiver {
    /// What owns the values.
    Owner,
    /// A view of it.
    View,
}

/// The weights of the point (2, 3, 5).
pub const WEIGHTS: [i32; 8] = [-8, 10, 12, -15, 16, -20, -24, 30];

/// The point with these coordinates.
pub fn point<R: Additive>(alloc: Global, numbers: &[i32]) -> Result<Point<R>, AllocError>
    ensures { IfOk result (λ point. length point ≡ length numbers.now) }
{
    Ok(Point::new(elements(alloc, numbers)?))
}

/// The polynomial with the values 1, 2, .., of so many entries.
pub fn counted<R: Additive>(alloc: Global, entries: usize) -> Result<Poly<R>, AllocError>
    ensures { IfOk result (λ poly. length poly ≡ entries) }
{
    counted_from(alloc, R::ONE, entries)
}

/// The polynomial with the value `first` and then each time one more, of so many entries.
pub fn counted_from<R: Additive>(
    alloc: Global,
    first: R,
    entries: usize,
) -> Result<Poly<R>, AllocError>
    ensures { IfOk result (λ poly. length poly ≡ entries) }
{
    let mut evals = Vec::with_capacity(alloc, entries)?;
    let mut value = first;
    for _ in 0..entries {
        evals.push(value)?;
        value = value + R::ONE;
    }
    if evals.len() != entries || !entries.is_power_of_two() {
        return Err(AllocError);
    }
    Ok(Poly::new(evals))
}

/// Whether these are the values 1, 2, .., of so many entries.
pub fn is_counted<R: Additive>(poly: &Poly<R>, entries: usize) -> bool {
    let mut number = R::ZERO;
    for value in poly.as_slice() {
        number = number + R::ONE;
        if *value != number {
            return false;
        }
    }
    poly.num_evals() == entries
}

/// The polynomial with the values 1, 2, .., 8, in lanes.
pub fn packed<R: ExtensionField<R>>(alloc: Global) -> Result<Poly<R::ExtensionPacking>, AllocError>
    requires { R.Packing.WIDTH ≡ 4 }
    ensures { IfOk result (λ poly. length poly * R.Packing.WIDTH ≡ 8) }
{
    let packed = counted::<R>(alloc, 8)?.pack::<R, R>(alloc)?;
    if packed.num_evals() != 2 {
        return Err(AllocError);
    }
    Ok(packed)
}

/// What the second half of a split table stores.
#[derive(Clone, Copy)]
pub enum Half {
    Scalars,
    Lanes,
}

/// The table of the point.
pub fn split<R: ExtensionField<R>>(
    alloc: Global,
    half: Half,
    point: &Point<R>,
) -> Result<SplitEq<R, R>, AllocError>
    requires { 2 ^ (length point.now - length point.now / 2) < 2 ^ 64 }
    ensures { IfOk result (λ split. length (split_entries R.ring split) ≡ 2 ^ length point.now) }
{
    match half {
        Half::Scalars => SplitEq::new_unpacked(alloc, point, R::ONE),
        Half::Lanes => SplitEq::new_packed(alloc, point, R::ONE),
    }
}

/// Whether the table has the weights of the point (2, 3, 5).
pub fn has_weights<R: ExtensionField<R>>(split: &SplitEq<R, R>) -> bool
    requires size { length (split_entries R.ring split.now) ≡ 8 }
    requires eight_fit { 8 * type_size R.row < 2 ^ 63 }
{
    let mut sums = [R::ZERO; 8];
    split.accumulate_into(&mut sums, None);
    are(&sums, &WEIGHTS)
}
