//! Calls of each item through its bound, in whole numbers: of rings over residues and words, as they are and in
//! lanes, and of fields.
ghost use Rattle.std.specs.Prelude.{◌*◌, ◌<◌, ◌^◌};
ghost use Rattle.std.specs.Mem.{type_size};

use super::{Bear, Bears, Word, Words};
use crate::rings::RingRow::Items;
use crate::rings::Row::Ring;
use crate::rings::{residues, words};
use mlu_lanes::{BabyBear, WrappingU64};
use mlu_ring::place_by_place::{multiply_each, negate_each, sub_each};
use mlu_ring::{
    Additive, Counter, Field, Lanewise, MapFrom, Meter, PackedValue, PrimeCharacteristicRing,
    SelfAlgebra, Unmetered, dot4, mixed_dot4,
};
use mlu_test_support::bounds::{
    four_times, gives_zeros, products, ring_mapped, sums, sums_at_places, sums_columns,
};
use mlu_test_support::numbers::{are, element, elements};
use std::alloc::{AllocError, Global};
use std::test::Fail;

/// A call of a ring.
#[derive(Clone, Copy)]
pub enum RingRow {
    Sums,
    Products,
    FourProducts,
    Columns,
    Places,
    Zeros,
    PlaceByPlace,
    Scaled,
}

/// Whether the row holds.
pub fn ring_holds<R: SelfAlgebra>(alloc: Global, row: RingRow) -> Result<bool, AllocError> {
    let (five, three): (R, R) = (element(5), element(3));
    match row {
        RingRow::Sums => Ok(sums(five, three) == element(20)),
        RingRow::Products => Ok(products(five, three) == element(450)),
        RingRow::FourProducts => Ok(adds_products::<R>()),
        RingRow::Columns => Ok(sums_columns(three, element(4))),
        RingRow::Places => sums_at_places::<R>(alloc),
        RingRow::Zeros => gives_zeros::<R>(alloc),
        RingRow::PlaceByPlace => place_by_place::<R>(alloc),
        RingRow::Scaled => Ok(five.scale(three).plus(three) + R::from_base(three) == element(21)),
    }
}

/// 1 * 4 + 2 * 3 + 3 * 2 + 4 * 2, and four squares of -1
fn adds_products<R: PrimeCharacteristicRing>() -> bool {
    let (three, four) = (element(3), element(4));
    let sum = R::four_products(
        &(R::ONE, R::TWO, three, four),
        &(four, three, R::TWO, R::TWO),
    );
    sum == element(24) && four_times(R::NEG_ONE, R::NEG_ONE) == four
}

/// Sums, differences, products and negations, place by place
fn place_by_place<R: PrimeCharacteristicRing>(alloc: Global) -> Result<bool, AllocError> {
    let mut out = elements::<R>(alloc, &[5, 7])?;
    let b = elements::<R>(alloc, &[2, 3])?;
    R::add_each(out.as_mut_slice(), b.as_slice());
    let added = are(out.as_slice(), &[7, 10]);
    sub_each(out.as_mut_slice(), b.as_slice());
    multiply_each(out.as_mut_slice(), b.as_slice());
    let multiplied = are(out.as_slice(), &[10, 21]);
    negate_each(out.as_mut_slice());
    Ok(added && multiplied && are(out.as_slice(), &[-10, -21]))
}

/// [`ring_holds`] over residues in lanes.
fn packed_residues(alloc: Global, row: RingRow) -> Result<bool, AllocError> {
    ring_holds::<Bears>(alloc, row)
}

/// [`ring_holds`] over words in lanes.
fn packed_words(alloc: Global, row: RingRow) -> Result<bool, AllocError> {
    ring_holds::<Words>(alloc, row)
}

/// 11 * 5 * 3, by each product of a field in lanes, and by sums of four.
fn multiplies_lanes<F: Field>() -> bool
    requires packings_fit { 4 * type_size F.Packing.row < 2 ^ 63 }
    requires elements_fit { 4 * type_size F.row < 2 ^ 63 }
{
    let three: F = element(3);
    let (l, r) = (F::Packing::splat(element(5)), F::Packing::splat(three));
    let rows = [l, l, l, l];
    let groups = dot4::<F>(&rows, &[r, r, r, r])
        + mixed_dot4::<F>(&rows, &[three, three, three, three]);
    let fixed = F::lanes_times_fixed(l, r) + F::lanes_scale(l, three);
    groups + F::lanes_mul(l, r) + fixed == F::Packing::splat(element(165))
}

/// 3 * 3, alone and in every lane, each by a counter
fn counts<F: Field>() -> bool {
    let three: F = element(3);
    let threes = F::Packing::splat(three);
    let (mut one, mut lanes) = (Counter::new(), Counter::new());
    let nine = one.times(three, three);
    let nines = Meter::<F>::times_lanes(&mut lanes, threes, threes);
    let multiplied = nine == element(9) && nines == F::Packing::splat(nine);
    multiplied
        && (one.made(), one.groups()) == (1, 0)
        && (lanes.made(), lanes.groups()) == (F::Packing::WIDTH as u64, 0)
}

/// Whether an element has so many bytes, and products are right in lanes and by counters.
fn is_field<F: Field>(bytes: usize) -> bool
    requires packings_fit { 4 * type_size F.Packing.row < 2 ^ 63 }
    requires elements_fit { 4 * type_size F.row < 2 ^ 63 }
{
    F::bytes() == bytes && multiplies_lanes::<F>() && counts::<F>()
}

#[test]
fn rings(rt: HostRuntime) -> Result<(), Fail> {
    let rows = [
        RingRow::Sums,
        RingRow::Products,
        RingRow::FourProducts,
        RingRow::Columns,
        RingRow::Places,
        RingRow::Zeros,
        RingRow::PlaceByPlace,
        RingRow::Scaled,
    ];
    for (index, row) in rows.iter().enumerate() {
        assert!(rt;
            residues::<4>(rt.alloc(), Ring(Items(*row)))?,
            "residues, row {index}"
        );
        assert!(rt; words::<2>(rt.alloc(), Items(*row))?, "words, row {index}");
        assert!(rt;
            packed_residues(rt.alloc(), *row)?,
            "residues in lanes, row {index}"
        );
        assert!(rt;
            packed_words(rt.alloc(), *row)?,
            "words in lanes, row {index}"
        );
    }
    Ok(())
}

#[test]
fn field_of_residues(rt: HostRuntime) {
    assert!(rt; is_field::<Bear>(4));
}

#[test]
fn field_of_words(rt: HostRuntime) {
    assert!(rt; is_field::<Word>(8));
    assert!(rt; size_of_val(&Unmetered::new()) == 0);
}

/// The image of `x`.
fn mapped<A: Additive, B: MapFrom<A>>(x: A) -> B {
    B::map(x)
}

/// Whether the greatest residue is the word of its number, and each ring is mapped to itself.
fn are_mapped<const W: usize>() -> bool {
    let (last, seven) = (
        BabyBear::<W>::from_u32(2013265920),
        WrappingU64::<W>::new(7),
    );
    mapped::<BabyBear<W>, WrappingU64<W>>(last).value() == 2013265920
        && ring_mapped::<BabyBear<W>, BabyBear<W>>(last) == last
        && ring_mapped::<WrappingU64<W>, WrappingU64<W>>(seven) == seven
}

#[test]
fn conversions(rt: HostRuntime) {
    assert!(rt; are_mapped::<4>());
    assert!(rt; are_mapped::<2>());
}
