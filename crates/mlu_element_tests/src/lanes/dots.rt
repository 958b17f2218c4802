//! Dots of residues, beside their products added up one by one.
use super::Bear;
use mlu_ring::{Additive, Field};
use mlu_test_support::draws::drawn;
use rand_pcg::Pcg32;
use std::test::Fail;

/// Two groups of sixteen places, and eight more.
const PLACES: usize = 40;

/// Many groups, and two places more.
const MANY_PLACES: usize = 130;

#[test]
fn dots_at_each_number_of_places(rt: HostRuntime) -> Result<(), Fail> {
    let mut rng = Pcg32::new(42, 54);
    let left = drawn::<Bear>(rt.alloc(), &mut rng, PLACES)?;
    let right = drawn::<Bear>(rt.alloc(), &mut rng, PLACES)?;
    let mut sum = Bear::ZERO;
    for n in 0..PLACES {
        assert!(rt; Bear::dot(&left[..n], &right[..n]) == sum);
        sum = sum + left[n] * right[n];
    }
    assert!(rt; Bear::dot(&left, &right) == sum);
    Ok(())
}

#[test]
fn dots_of_the_greatest_residues(rt: HostRuntime) {
    let greatest = [-Bear::ONE; MANY_PLACES];
    assert!(rt; Bear::dot(&greatest, &greatest) == Bear::from_u32(130));
}
