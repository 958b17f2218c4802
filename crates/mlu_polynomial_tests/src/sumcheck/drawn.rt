//! Drawn tables of 0 to 8 variables at drawn challenges, each round fed to the verifier.
ghost use Rattle.std.specs.Prelude.{◌≡◌, ◌*◌, ◌<◌, ◌^◌, length, suc};
ghost use Rattle.std.specs.Mem.{type_size};

use super::proof;
use mlu_ring::{Additive, ExtensionField, Field, PrimeCharacteristicRing, Sample, SelfAlgebra};
use mlu_sumcheck::{Transcript, verify, verify_round};
use mlu_test_support::draws::drawn;
use mlu_test_support::plain;
use multilinear_util::point::Point;
use multilinear_util::poly::Poly;
use multilinear_util::split_eq::SplitEq;
use rand_pcg::Pcg32;
use std::alloc::{AllocError, Global};

/// Whether each round passes and leads to the next claim.
fn each_round_passes<EF: PrimeCharacteristicRing>(
    claims: &[EF],
    rounds: &[[EF; 3]],
    challenges: &[EF],
) -> bool
    requires rounds { length rounds.now ≡ length challenges.now }
    requires claims { length claims.now ≡ suc (length challenges.now) }
{
    for i in 0..rounds.len() {
        let next = verify_round(claims[i], rounds[i], challenges[i]);
        if next != Some(claims[i + 1]) {
            return false;
        }
    }
    true
}

/// Whether a proof passes, begins with the sum of all products and ends with the product of both values.
fn passes<EF: PrimeCharacteristicRing>(
    table: &[EF],
    values: &[EF],
    claims: &[EF],
    rounds: &[[EF; 3]],
    challenges: &[EF],
) -> bool
    requires rounds { length rounds.now ≡ length challenges.now }
    requires claims { length claims.now ≡ suc (length challenges.now) }
{
    let (first, last) = (claims[0], claims[challenges.len()]);
    let value = plain::value(values, challenges);
    each_round_passes(claims, rounds, challenges)
        && verify(first, rounds, challenges) == Some(last)
        && first == plain::dot(table, values)
        && last == plain::value(table, challenges) * value
}

/// Whether the proof of the polynomial with the weights of the point passes at the challenges.
fn proof_passes<F: Field, EF: ExtensionField<F> + SelfAlgebra>(
    alloc: Global,
    poly: &Poly<EF>,
    point: &Point<EF>,
    challenges: &[EF],
) -> Result<bool, AllocError>
    requires variables { length point.now < 9 }
    requires challenges { length challenges.now ≡ length point.now }
    requires values { length poly.now ≡ 2 ^ length point.now }
    requires two_rounds_fit { 6 * type_size EF.row < 2 ^ 63 }
{
    let table = plain::table(alloc, point.as_slice(), EF::ONE)?;
    let weights = SplitEq::<F, EF>::new_packed(alloc, point, EF::ONE);
    let Transcript { rounds, claims } = proof(alloc, poly, weights, challenges)?;
    Ok(passes(&table, poly.as_slice(), &claims, &rounds, challenges))
}

/// Whether a proof of so many variables passes.
fn drawn_passes<F: Field, EF: ExtensionField<F> + SelfAlgebra + Sample>(
    alloc: Global,
    rng: &mut Pcg32,
    variables: usize,
) -> Result<bool, AllocError>
    requires variables { variables < 9 }
    requires two_rounds_fit { 6 * type_size EF.row < 2 ^ 63 }
{
    let poly = Poly::<EF>::rand(alloc, rng, variables)?;
    let point = Point::<EF>::rand(alloc, rng, variables)?;
    let challenges = drawn::<EF>(alloc, rng, variables)?;
    proof_passes::<F, EF>(alloc, &poly, &point, &challenges)
}

/// Whether proofs of 0 to 8 variables pass.
pub fn all_sizes_pass<F: Field, EF: ExtensionField<F> + SelfAlgebra + Sample>(
    alloc: Global,
) -> Result<bool, AllocError>
    requires two_rounds_fit { 6 * type_size EF.row < 2 ^ 63 }
{
    let mut rng = Pcg32::new(27, 54);
    for variables in 0..9 {
        if !drawn_passes::<F, EF>(alloc, &mut rng, variables)? {
            return Ok(false);
        }
    }
    Ok(true)
}
