//! Calls at products of copies of a ring: over their ring, over themselves, and in lanes.
use super::{Bear, NarrowBear, Pair, pair};
use mlu_ext::ProductAlgebra;
use mlu_lanes::Lanes;
use mlu_ring::{
    Additive, Algebra, ExtensionField, Field, PackedFieldExtension, PackedValue,
    PrimeCharacteristicRing, Sample,
};
use mlu_test_support::bounds::ring_mapped;
use rand_pcg::Pcg32;

type PackedPair = ProductAlgebra<Lanes<NarrowBear, 2>, 2>;

type TwoCopies = ProductAlgebra<Bear, 2>;

#[test]
fn copies_are_multiplied_one_by_one(rt: HostRuntime) {
    let a = ProductAlgebra::from_array([Bear::from_u32(2), Bear::from_u32(3)]);
    let b = ProductAlgebra::from_array([Bear::from_u32(5), Bear::from_u32(7)]);
    assert!(rt; (a * b).to_array() == [10, 21].map(Bear::from_u32));
    assert!(rt; a.scale(Bear::from_u32(4)).to_array() == [8, 12].map(Bear::from_u32));
}

#[test]
fn two_copies_doubled(rt: HostRuntime) {
    let [three, six] = [3, 6].map(Bear::from_u32);
    let mut element = TwoCopies::from_array([three, three]);
    let mut packed = ProductAlgebra::<Lanes<Bear, 4>, 2>::from_ext_slice(&[element; 4]);
    let first = <TwoCopies as ExtensionField<Bear>>::coefficient(&element, 0);
    <TwoCopies as ExtensionField<Bear>>::set_coefficient(&mut element, 0, first + first);
    assert!(rt; <TwoCopies as ExtensionField<Bear>>::coefficient(&element, 0) == six);
    let first = packed.packed_coefficient(0);
    packed.set_packed_coefficient(0, first + first);
    let mut out = [TwoCopies::ZERO; 4];
    packed.store_ext(&mut out);
    assert!(rt; packed.ext_lane(0) == element);
    assert!(rt; out == [element; 4]);
}

#[test]
fn pair_coefficients(rt: HostRuntime) {
    let mut element = pair(2, 3);
    <Pair as ExtensionField<NarrowBear>>::set_coefficient(&mut element, 1, NarrowBear::ONE);
    assert!(rt; element == pair(2, 1));
    assert!(rt; <Pair as ExtensionField<NarrowBear>>::coefficient(&element, 0) == NarrowBear::TWO);
    assert!(rt; <Pair as ExtensionField<NarrowBear>>::DIMENSION == 2);
    let (a, five) = (pair(1, 2), NarrowBear::from_u32(5));
    assert!(rt; a.scale(five).plus(five) + Pair::from_base(five) == pair(15, 20));
    assert!(rt; ring_mapped::<NarrowBear, Pair>(five) == pair(5, 5));
}

#[test]
fn pair_lanes(rt: HostRuntime) {
    let mut packed = PackedPair::from_ext_slice(&[pair(1, 2), pair(3, 4)]);
    let second = Lanes::from_array([2, 4].map(NarrowBear::from_u32));
    assert!(rt; packed.packed_coefficient(1) == second);
    packed.set_packed_coefficient(0, Lanes::ZERO);
    assert!(rt; packed.ext_lane(1) == pair(0, 4));
    let mut out = [Pair::ZERO; 2];
    packed.store_ext(&mut out);
    assert!(rt; out == [pair(0, 2), pair(0, 4)]);
}

#[test]
fn pair_over_itself(rt: HostRuntime) {
    let mut element = pair(1, 2);
    assert!(rt; <Pair as ExtensionField<Pair>>::coefficient(&element, 0) == pair(1, 2));
    <Pair as ExtensionField<Pair>>::set_coefficient(&mut element, 0, pair(3, 4));
    assert!(rt; element == pair(3, 4));
    assert!(rt; <Pair as ExtensionField<Pair>>::DIMENSION == 1);
}

#[test]
fn pair_lanes_over_itself(rt: HostRuntime) {
    let mut packed = Lanes::<Pair, 1>::from_ext_slice(&[pair(1, 2)]);
    assert!(rt; packed.ext_lane(0) == pair(1, 2));
    packed.set_packed_coefficient(0, Lanes::splat(pair(3, 4)));
    assert!(rt; packed.packed_coefficient(0) == Lanes::splat(pair(3, 4)));
    let mut out = [Pair::ZERO];
    packed.store_ext(&mut out);
    assert!(rt; out == [pair(3, 4)]);
}

#[test]
fn no_copies(rt: HostRuntime) {
    let none = ProductAlgebra::<Bear, 0>::from_array([]);
    assert!(rt; none == ProductAlgebra::ZERO);
    assert!(rt; none == ProductAlgebra::ONE);
    assert!(rt; <ProductAlgebra<Bear, 0> as ExtensionField<Bear>>::DIMENSION == 0);
    let packed = ProductAlgebra::<Lanes<Bear, 4>, 0>::from_ext_slice(&[none; 4]);
    assert!(rt; packed == ProductAlgebra::ZERO);
    assert!(rt; packed.ext_lane(3) == none);
    assert!(rt; ProductAlgebra::<Bear, 0>::bytes() == 0);
}

#[test]
fn one_copy(rt: HostRuntime) {
    let five = ProductAlgebra::<Bear, 1>::from_base(Bear::from_u32(5));
    assert!(rt;
        <ProductAlgebra<Bear, 1> as ExtensionField<Bear>>::coefficient(&five, 0)
            == Bear::from_u32(5)
    );
    let packed = ProductAlgebra::<Lanes<Bear, 4>, 1>::from_ext_slice(&[five; 4]);
    assert!(rt; packed.packed_coefficient(0) == Lanes::splat(Bear::from_u32(5)));
}

#[test]
fn nine_copies(rt: HostRuntime) {
    let five = ProductAlgebra::<Bear, 9>::from_base(Bear::from_u32(5));
    let mut element = five * five;
    <ProductAlgebra<Bear, 9> as ExtensionField<Bear>>::set_coefficient(&mut element, 8, Bear::ONE);
    assert!(rt;
        <ProductAlgebra<Bear, 9> as ExtensionField<Bear>>::coefficient(&element, 7)
            == Bear::from_u32(25)
    );
    let packed = ProductAlgebra::<Lanes<Bear, 4>, 9>::from_ext_slice(&[element; 4]);
    assert!(rt; packed.packed_coefficient(8) == Lanes::ONE);
    assert!(rt; packed.ext_lane(3) == element);
    assert!(rt; ProductAlgebra::<Bear, 9>::bytes() == 36);
}

#[test]
fn bytes_of_the_most_copies(rt: HostRuntime) {
    assert!(rt; ProductAlgebra::<Bear, 4611686018427387904>::bytes() == usize::MAX);
}

#[test]
fn samples(rt: HostRuntime) {
    let (mut rng, mut same) = (Pcg32::new(42, 54), Pcg32::new(42, 54));
    let copies = [0; 2].map(|_| NarrowBear::sample(&mut same));
    assert!(rt; Pair::sample(&mut rng) == ProductAlgebra::from_array(copies));
}
