//! Worked values of quartics: products, scales, coefficients, and all of these in lanes.
use super::{Bear, Quartic, quartic};
use mlu_ext::QuarticExtension;
use mlu_lanes::{Lanes, coefficient_columns, four_lanes};
use mlu_ring::{
    Additive, Algebra, ExtensionField, PackedFieldExtension, PackedValue, RingMapFrom, Sample,
};
use mlu_test_support::bounds::ring_mapped;
use rand_pcg::Pcg32;

type Packed = QuarticExtension<Lanes<Bear, 4>>;

#[test]
fn reduces_by_eleven(rt: HostRuntime) {
    let (square, cube) = (quartic(0, 0, 1, 0), quartic(0, 0, 0, 1));
    assert!(rt; quartic(1, 2, 3, 4) * cube == quartic(22, 33, 44, 1));
    assert!(rt; cube * square == quartic(0, 11, 0, 0));
}

#[test]
fn multiplies_by_a_base_element(rt: HostRuntime) {
    let (a, five) = (quartic(1, 2, 3, 4), Bear::from_u32(5));
    assert!(rt; a.scale(five) == quartic(5, 10, 15, 20));
    assert!(rt; a.plus(five) == quartic(6, 2, 3, 4));
    assert!(rt; a * Quartic::from_base(five) == quartic(5, 10, 15, 20));
    assert!(rt; a.scale(five).plus(five) + Quartic::from_base(five) == quartic(15, 10, 15, 20));
}

#[test]
fn coefficients(rt: HostRuntime) {
    let [three, six] = [3, 6].map(Bear::from_u32);
    let mut threes = quartic(3, 3, 3, 3);
    let first = <Quartic as ExtensionField<Bear>>::coefficient(&threes, 0);
    <Quartic as ExtensionField<Bear>>::set_coefficient(&mut threes, 0, first + first);
    assert!(rt; <Quartic as ExtensionField<Bear>>::coefficient(&threes, 0) == six);
    assert!(rt; <Quartic as ExtensionField<Bear>>::coefficient(&threes, 3) == three);
    assert!(rt; <Quartic as ExtensionField<Bear>>::DIMENSION == 4);
}

#[test]
fn coefficients_over_themselves(rt: HostRuntime) {
    let (mut element, twice) = (quartic(1, 2, 3, 4), quartic(2, 4, 6, 8));
    let only = <Quartic as ExtensionField<Quartic>>::coefficient(&element, 0);
    <Quartic as ExtensionField<Quartic>>::set_coefficient(&mut element, 0, only + only);
    assert!(rt; <Quartic as ExtensionField<Quartic>>::coefficient(&element, 0) == twice);
    assert!(rt; <Quartic as ExtensionField<Quartic>>::DIMENSION == 1);
}

#[test]
fn packs_coefficient_by_coefficient(rt: HostRuntime) {
    let elements = [
        quartic(1, 2, 3, 4),
        quartic(5, 6, 7, 8),
        quartic(9, 10, 11, 12),
        quartic(13, 14, 15, 16),
    ];
    let packed = Packed::from_ext_slice(&elements);
    let thirds = Lanes::from_array([3, 7, 11, 15].map(Bear::from_u32));
    assert!(rt; packed.c2 == thirds);
    assert!(rt; coefficient_columns(&elements).2 == thirds);
    let second = four_lanes(&(packed.c0, packed.c1, packed.c2, packed.c3), 0).1;
    assert!(rt; Quartic::new(second.0, second.1, second.2, second.3) == elements[1]);
    let cube = quartic(0, 0, 0, 1);
    assert!(rt; packed.scale(cube).ext_lane(0) == quartic(22, 33, 44, 1));
    assert!(rt; packed.scale(cube).ext_lane(3) == elements[3] * cube);
}

#[test]
fn lanes_doubled(rt: HostRuntime) {
    let twice = quartic(2, 2, 3, 4);
    let mut packed = Packed::from_ext_slice(&[quartic(1, 2, 3, 4); 4]);
    let first = packed.packed_coefficient(0);
    packed.set_packed_coefficient(0, first + first);
    let mut out = [Quartic::ZERO; 4];
    packed.store_ext(&mut out);
    assert!(rt; packed.ext_lane(0) == twice);
    assert!(rt; out == [twice; 4]);
}

#[test]
fn lanes_doubled_over_themselves(rt: HostRuntime) {
    let twice = quartic(2, 4, 6, 8);
    let mut packed = Lanes::<Quartic, 1>::from_ext_slice(&[quartic(1, 2, 3, 4)]);
    let only = packed.packed_coefficient(0);
    packed.set_packed_coefficient(0, only + only);
    let mut out = [Quartic::ZERO];
    packed.store_ext(&mut out);
    assert!(rt; packed.ext_lane(0) == twice);
    assert!(rt; out == [twice]);
}

#[test]
fn packed_scales(rt: HostRuntime) {
    let ones = Lanes::<Bear, 4>::ONE;
    let packed = Packed::new(ones, ones, ones, ones);
    assert!(rt; packed == Packed::from_base(quartic(1, 1, 1, 1)));
    assert!(rt; packed.scale(ones + ones) == packed + packed);
    let element = quartic(1, 2, 3, 4);
    assert!(rt; packed.scale(element) == packed * Packed::from_base(element));
    let sum = Packed::from_base(element) + Packed::from_base(quartic(1, 0, 0, 0));
    assert!(rt; sum.ext_lane(3) == quartic(2, 2, 3, 4));
}

#[test]
fn images(rt: HostRuntime) {
    let (five, element) = (Bear::from_u32(5), quartic(1, 2, 3, 4));
    assert!(rt; ring_mapped::<Bear, Quartic>(five) == quartic(5, 0, 0, 0));
    assert!(rt; ring_mapped::<Quartic, Quartic>(element) == element);
}

#[test]
fn samples(rt: HostRuntime) {
    let (mut rng, mut same) = (Pcg32::new(42, 54), Pcg32::new(42, 54));
    let parts = [0; 4].map(|_| Bear::sample(&mut same));
    let element = Quartic::new(parts[0], parts[1], parts[2], parts[3]);
    assert!(rt; Quartic::sample(&mut rng) == element);
}
