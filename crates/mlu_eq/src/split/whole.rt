//! The split table as one list of its entries.
ghost use Rattle.std.specs.Prelude.{◌≡◌, ◌+◌, ◌*◌, ◌≤◌, ◌++◌, length, map};
ghost use Rattle.std.specs.Vec.{vec_capacity, vec_len};
ghost use Rattle.mlu_eq.specs.Split.{contents, packed_contents, scaled_lanes};

use super::accumulate::{MOST_LANES, takes_elements};
use crate::half::{EqMaybePacked, Weights};
use mlu_ring::{
    Additive, Algebra, ExtensionField, Field, Lanewise, PackedFieldExtension, PackedValue,
    PrimeCharacteristicRing,
};

/// Appends the entries of the split table. Asks for room for all of them.
pub fn append_entries<F: Field, EF: ExtensionField<F>>(
    eq0: &[EF],
    eq1: &EqMaybePacked<F, EF>,
    table: &mut Vec<EF>,
)
    requires { vec_len table.old + length eq0.now * length eq1.now.weights ≤ vec_capacity table.old }
    ensures items { table.new.items ≡ table.old.items ++ contents EF.ring eq0.now eq1.now.weights }
    ensures capacity { vec_capacity table.new ≡ vec_capacity table.old }
{
    match eq1.weights() {
        Weights::Scalar(weights) => push_rows(table, eq0, weights),
        Weights::Packed(weights) => push_rows_of_lanes::<F, EF>(table, eq0, weights),
    }
}

/// Appends the weights times each entry of `eq0`, row after row.
fn push_rows<R: PrimeCharacteristicRing>(table: &mut Vec<R>, eq0: &[R], weights: &[R])
    requires { vec_len table.old + length eq0.now * length weights.now ≤ vec_capacity table.old }
    ensures items { table.new.items ≡ table.old.items ++ contents R.ring eq0.now weights.now }
    ensures capacity { vec_capacity table.new ≡ vec_capacity table.old }
{
    for factor in eq0 {
        push_row(table, weights, *factor);
    }
}

/// Appends the lanes times each entry of `eq0`, row after row.
fn push_rows_of_lanes<F: Field, EF: ExtensionField<F>>(
    table: &mut Vec<EF>,
    eq0: &[EF],
    weights: &[EF::ExtensionPacking],
)
    requires { vec_len table.old + length eq0.now * (length weights.now * F.Packing.WIDTH) ≤ vec_capacity table.old }
    ensures items { table.new.items ≡ table.old.items ++ packed_contents EF.ring EF.ExtensionPacking.ext_lanes eq0.now weights.now }
    ensures capacity { vec_capacity table.new ≡ vec_capacity table.old }
{
    for factor in eq0 {
        push_row_of_lanes::<F, EF>(table, weights, *factor);
    }
}

/// Appends each weight, times `factor`.
fn push_row<R: PrimeCharacteristicRing>(table: &mut Vec<R>, weights: &[R], factor: R)
    requires { vec_len table.old + length weights.now ≤ vec_capacity table.old }
    ensures items { table.new.items ≡ table.old.items ++ map (R.ring.product factor) weights.now }
    ensures len { vec_len table.new ≡ vec_len table.old + length weights.now }
    ensures capacity { vec_capacity table.new ≡ vec_capacity table.old }
{
    for weight in weights {
        table.push_reserved(weight.times_fixed(factor));
    }
}

/// Appends each lane, times `factor`.
fn push_row_of_lanes<F: Field, EF: ExtensionField<F>>(
    table: &mut Vec<EF>,
    weights: &[EF::ExtensionPacking],
    factor: EF,
)
    requires { vec_len table.old + length weights.now * F.Packing.WIDTH ≤ vec_capacity table.old }
    ensures items { table.new.items ≡ table.old.items ++ scaled_lanes EF.ring EF.ExtensionPacking.ext_lanes factor weights.now }
    ensures len { vec_len table.new ≡ vec_len table.old + length weights.now * F.Packing.WIDTH }
    ensures capacity { vec_capacity table.new ≡ vec_capacity table.old }
{
    for weight in weights {
        let scaled = <EF::ExtensionPacking as Algebra<EF>>::scale(*weight, factor);
        push_lanes::<F, EF>(table, scaled);
    }
}

/// Appends the lanes.
#[inline]
fn push_lanes<F: Field, EF: ExtensionField<F>>(table: &mut Vec<EF>, lanes: EF::ExtensionPacking)
    requires { vec_len table.old + F.Packing.WIDTH ≤ vec_capacity table.old }
    ensures items { table.new.items ≡ table.old.items ++ EF.ExtensionPacking.ext_lanes lanes }
    ensures len { vec_len table.new ≡ vec_len table.old + F.Packing.WIDTH }
    ensures capacity { vec_capacity table.new ≡ vec_capacity table.old }
{
    if takes_elements::<F, EF>() {
        let mut places = [EF::ZERO; MOST_LANES];
        let elements = &mut places[..F::Packing::WIDTH];
        lanes.store_ext(elements);
        return push_all(table, elements);
    }
    for k in 0..F::Packing::WIDTH {
        table.push_reserved(lanes.ext_lane(k));
    }
}

/// Appends the elements.
fn push_all<T: Copy>(table: &mut Vec<T>, elements: &[T])
    requires { vec_len table.old + length elements.now ≤ vec_capacity table.old }
    ensures items { table.new.items ≡ table.old.items ++ elements.now }
    ensures len { vec_len table.new ≡ vec_len table.old + length elements.now }
    ensures capacity { vec_capacity table.new ≡ vec_capacity table.old }
{
    for element in elements {
        table.push_reserved(*element);
    }
}
