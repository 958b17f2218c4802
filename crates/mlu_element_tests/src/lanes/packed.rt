//! Values in lanes: loaded and stored, as extensions of their rings, scaled, and drawn.
ghost use Rattle.std.specs.Prelude.{◌<◌};

use super::{Bear, Bears, Word, Words};
use mlu_lanes::{BabyBear, LaneWidth, Lanes};
use mlu_ring::{
    Additive, Algebra, ExtensionField, Field, PackedFieldExtension, PackedValue,
    PrimeCharacteristicRing, Sample,
};
use rand_pcg::Pcg32;

#[test]
fn residues_in_lanes(rt: HostRuntime) {
    let counted = [1, 2, 3, 4].map(Bear::from_u32);
    let packed = Bears::load(&counted);
    let mut out = [Bear::ZERO; 4];
    packed.store(&mut out);
    assert!(rt; out == counted);
    assert!(rt; packed.lane(3) == counted[3]);
    assert!(rt; (packed + packed + Bears::splat(counted[2])).lane(0) == Bear::from_u32(5));
    assert!(rt; (Bears::WIDTH, <Bears as PackedValue>::LOG_WIDTH) == (4, 2));
}

#[test]
fn words_in_lanes(rt: HostRuntime) {
    let counted = [1, 2].map(Word::new);
    let packed = Words::load(&counted);
    let mut out = [Word::ZERO; 2];
    packed.store(&mut out);
    assert!(rt; out == counted);
    assert!(rt; packed.lane(1) == counted[1]);
    assert!(rt; (packed + packed + Words::splat(Word::new(3))).lane(0) == Word::new(5));
    assert!(rt; (Words::WIDTH, <Words as PackedValue>::LOG_WIDTH) == (2, 1));
}

#[test]
fn residues_over_themselves(rt: HostRuntime) {
    let [three, six] = [3, 6].map(Bear::from_u32);
    let mut element = three;
    let only = <Bear as ExtensionField<Bear>>::coefficient(&element, 0);
    <Bear as ExtensionField<Bear>>::set_coefficient(&mut element, 0, only + only);
    assert!(rt; element == six);
    assert!(rt; <Bear as ExtensionField<Bear>>::DIMENSION == 1);
    let mut packed = Bears::from_ext_slice(&[three; 4]);
    assert!(rt; packed == Bears::from_base(three));
    let only = packed.packed_coefficient(0);
    packed.set_packed_coefficient(0, only + only);
    let mut out = [Bear::ZERO; 4];
    packed.store_ext(&mut out);
    assert!(rt; packed.ext_lane(0) == six);
    assert!(rt; out == [six; 4]);
}

#[test]
fn words_over_themselves(rt: HostRuntime) {
    let [three, six] = [3, 6].map(Word::new);
    let mut element = three;
    let only = <Word as ExtensionField<Word>>::coefficient(&element, 0);
    <Word as ExtensionField<Word>>::set_coefficient(&mut element, 0, only + only);
    assert!(rt; element == six);
    assert!(rt; <Word as ExtensionField<Word>>::DIMENSION == 1);
    let mut packed = Words::from_ext_slice(&[Word::ONE; 2]);
    assert!(rt; packed == Words::from_base(Word::ONE));
    let only = packed.packed_coefficient(0);
    packed.set_packed_coefficient(0, only + only);
    let mut out = [Word::ZERO; 2];
    packed.store_ext(&mut out);
    assert!(rt; packed.ext_lane(0) == Word::TWO);
    assert!(rt; out == [Word::TWO; 2]);
}

#[test]
fn scaled_by_an_element(rt: HostRuntime) {
    let (five, three) = (Bears::splat(Bear::from_u32(5)), Bear::from_u32(3));
    let sum = five.scale(three).plus(three) + Bears::from_base(three);
    assert!(rt; sum == Bears::splat(Bear::from_u32(21)));
    let sixty = Bears::row_times_column(&(five, five, five, five), &(three, three, three, three));
    assert!(rt; sixty == Bears::splat(Bear::from_u32(60)));
    let (five, three) = (Words::splat(Word::new(5)), Word::new(3));
    let sum = five.scale(three).plus(three) + Words::from_base(three);
    assert!(rt; sum == Words::splat(Word::new(21)));
    let sixty = Words::row_times_column(&(five, five, five, five), &(three, three, three, three));
    assert!(rt; sixty == Words::splat(Word::new(60)));
}

#[test]
fn two_lanes_scaled(rt: HostRuntime) {
    let [three, five, fifteen] = [3, 5, 15].map(|n| Lanes::<BabyBear<2>, 2>::splat(
        BabyBear::from_u32(n),
    ));
    assert!(rt; five.scale(three) == fifteen);
}

/// Whether four squares of -1 are 4 in every lane.
fn adds_squares<const W: usize>() -> bool
where
    Lanes<BabyBear<W>, W>: LaneWidth<W>,
    requires { W < 17 }
{
    let minus = [Lanes::<BabyBear<W>, W>::NEG_ONE; 4];
    BabyBear::dot4(&minus, &minus) == Lanes::splat(BabyBear::from_u32(4))
}

#[test]
fn four_products_at_each_width(rt: HostRuntime) {
    assert!(rt; adds_squares::<1>());
    assert!(rt; adds_squares::<2>());
    assert!(rt; adds_squares::<4>());
    assert!(rt; adds_squares::<8>());
    assert!(rt; adds_squares::<16>());
}

#[test]
fn samples(rt: HostRuntime) {
    let (mut rng, mut same) = (Pcg32::new(42, 54), Pcg32::new(42, 54));
    let words = [0; 2].map(|_| Word::sample(&mut same));
    assert!(rt; Words::sample(&mut rng) == Lanes::from_array(words));
    assert!(rt; Lanes::<Bear, 0>::sample(&mut rng) == Lanes::from_array([]));
    assert!(rt; Bear::sample(&mut rng) == Bear::sample(&mut same));
}
