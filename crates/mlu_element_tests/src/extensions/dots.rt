//! Dots of quartics, beside their products added up one by one.
use super::{Quartic, quartic};
use mlu_ring::{Additive, Field};
use mlu_test_support::draws::drawn;
use rand_pcg::Pcg32;
use std::test::Fail;

/// Some groups of four places, and two more.
const PLACES: usize = 130;

#[test]
fn dots_at_each_number_of_places(rt: HostRuntime) -> Result<(), Fail> {
    let mut rng = Pcg32::new(42, 54);
    let left = drawn::<Quartic>(rt.alloc(), &mut rng, PLACES)?;
    let right = drawn::<Quartic>(rt.alloc(), &mut rng, PLACES)?;
    let mut sum = Quartic::ZERO;
    for n in 0..PLACES {
        assert!(rt; Quartic::dot(&left[..n], &right[..n]) == sum);
        sum = sum + left[n] * right[n];
    }
    Ok(())
}

#[test]
fn dots_of_the_greatest_residues(rt: HostRuntime) {
    let greatest = [-quartic(1, 1, 1, 1); PLACES];
    assert!(rt; Quartic::dot(&greatest, &greatest) == quartic(4420, 3120, 1820, 520));
}
