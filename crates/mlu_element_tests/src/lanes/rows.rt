//! Worked values by the operators of each ring.
use mlu_lanes::{BabyBear, Lanes, WrappingU64};
use mlu_ring::{Additive, PrimeCharacteristicRing};

#[test]
fn reduces(rt: HostRuntime) {
    let residues = [
        (0, 0),
        (2013265920, 2013265920),
        (2013265921, 0),
        (4294967295, 268435453),
    ];
    for (number, residue) in residues {
        assert!(rt; BabyBear::<4>::from_u32(number).as_canonical_u32() == residue);
    }
}

#[test]
fn wraps_at_the_modulus(rt: HostRuntime) {
    let last = BabyBear::<4>::from_u32(2013265920);
    let two = BabyBear::from_u32(2);
    assert!(rt; (last + two).as_canonical_u32() == 1);
    assert!(rt; (two - last).as_canonical_u32() == 3);
    assert!(rt; (-two).as_canonical_u32() == 2013265919);
    assert!(rt; (last * last).as_canonical_u32() == 1);
}

#[test]
fn wraps_at_64_bits(rt: HostRuntime) {
    let half = WrappingU64::<4>::new(1 << 63);
    assert!(rt; (half * WrappingU64::TWO).value() == 0);
    assert!(rt; (half + half).value() == 0);
    assert!(rt; (-WrappingU64::<4>::TWO).value() == u64::MAX - 1);
    assert!(rt; (WrappingU64::<4>::TWO - half).value() == (1 << 63) + 2);
}

#[test]
fn lanes_without_a_packing(rt: HostRuntime) {
    let a = Lanes::from_array([1, 2, 3].map(BabyBear::<4>::from_u32));
    let squares = a * a;
    assert!(rt; squares.to_array() == [1, 4, 9].map(BabyBear::from_u32));
    assert!(rt; (squares - a - a).to_array() == [2013265920, 0, 3].map(BabyBear::from_u32));
    let none = Lanes::<BabyBear<4>, 0>::from_array([]);
    assert!(rt; none == -none);
}
