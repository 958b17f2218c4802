//! The values 1, 2, 3, 4 with the weights of the point (2, 3), at the challenges 5 and 7.
ghost use Rattle.std.specs.Prelude.{◌≡◌, ◌*◌, ◌<◌, ◌^◌, length};
ghost use Rattle.std.specs.Mem.{type_size};
ghost use Rattle.mlu_sumcheck.specs.Rounds.{product_of_values};

use super::proof;
use mlu_ring::{Additive, ExtensionField, Field, PrimeCharacteristicRing, SelfAlgebra};
use mlu_sumcheck::{
    Transcript, bind, laws, prove_round, prove_round_of_claim, verify, verify_round,
};
use mlu_test_support::numbers::{are, element};
use mlu_test_tables::{point, table};
use multilinear_util::point::Point;
use multilinear_util::poly::Poly;
use multilinear_util::split_eq::SplitEq;
use std::alloc::{AllocError, Global};

/// The images of three numbers.
fn round<R: Additive>(numbers: [i32; 3]) -> [R; 3] {
    let [constant, linear, quadratic] = numbers;
    [element(constant), element(linear), element(quadratic)]
}

/// Whether `run` gives both rounds and all three claims.
pub fn gives_the_transcript<F: Field, EF: ExtensionField<F> + SelfAlgebra>(
    alloc: Global,
) -> Result<bool, AllocError>
    requires two_rounds_fit { 6 * type_size EF.row < 2 ^ 63 }
{
    let poly = table::<EF>(alloc, &[1, 2, 3, 4])?;
    let point = point::<EF>(alloc, &[2, 3])?;
    let weights = SplitEq::<F, EF>::new_unpacked(alloc, &point, EF::ONE);
    is_expected(proof(alloc, &poly, weights, &[element(5), element(7)]))
}

/// Whether the transcript that a call makes is as expected.
fn is_expected<R: Additive>(
    transcript: Result<Transcript<R>, AllocError>,
) -> Result<bool, AllocError>
    requires two_rounds_fit { 6 * type_size R.row < 2 ^ 63 }
{
    let Transcript { rounds, claims } = transcript?;
    let expected = [round([-4, 10, 6]), round([-308, 742, 70])];
    Ok(are(claims.as_slice(), &[8, 196, 8316]) && rounds.as_slice() == expected.as_slice())
}

/// Whether the tables, the weights written out, give their rounds, and whether they are folded at 5.
pub fn proves_and_binds<EF: SelfAlgebra>(alloc: Global) -> Result<bool, AllocError>
    requires two_rounds_fit { 6 * type_size EF.row < 2 ^ 63 }
{
    let mut poly = table::<EF>(alloc, &[1, 2, 3, 4])?;
    let mut weights = table::<EF>(alloc, &[2, -3, -4, 6])?;
    let are_proved = gives_rounds(&poly, &weights);
    bind(&mut poly, &mut weights, element(5));
    Ok(are_proved && are(poly.as_slice(), &[11, 12]) && are(weights.as_slice(), &[-28, 42]))
}

/// Whether the tables give their first round, that which adds up to 8 is the same, and that which adds up
/// to 9 is not.
fn gives_rounds<R: PrimeCharacteristicRing>(poly: &Poly<R>, weights: &Poly<R>) -> bool
    requires sizes { length poly.now ≡ length weights.now }
    requires variable { 1 < length poly.now }
    requires two_rounds_fit { 6 * type_size R.row < 2 ^ 63 }
{
    is_round_of(poly, weights, 8, [-4, 10, 6])
        && is_round_of(poly, weights, 9, [-4, 11, 6])
        && prove_round(poly, weights) == round([-4, 10, 6])
}

/// Whether the round that adds up to the claim has these coefficients.
fn is_round_of<R: PrimeCharacteristicRing>(
    poly: &Poly<R>,
    weights: &Poly<R>,
    claim: i32,
    coefficients: [i32; 3],
) -> bool
    requires sizes { length poly.now ≡ length weights.now }
    requires variable { 1 < length poly.now }
    requires two_rounds_fit { 6 * type_size R.row < 2 ^ 63 }
{
    prove_round_of_claim(poly, weights, element(claim)) == round(coefficients)
}

/// Whether true claims pass and false ones do not, but for one that a false round makes up for.
pub fn verifies<R: PrimeCharacteristicRing>() -> bool
    requires two_rounds_fit { 6 * type_size R.row < 2 ^ 63 }
{
    verifies_round::<R>() && verifies_both_rounds::<R>()
}

/// Whether a true claim passes its round at 5, and a false one does not.
fn verifies_round<R: PrimeCharacteristicRing>() -> bool
    requires two_rounds_fit { 6 * type_size R.row < 2 ^ 63 }
{
    let (first, five) = (round([-4, 10, 6]), element::<R>(5));
    verify_round(element(8), first, five) == Some(element(196))
        && verify_round(element(9), first, five).is_none()
}

/// Whether a true claim passes both rounds, and a false one only where the first round is false.
fn verifies_both_rounds<R: PrimeCharacteristicRing>() -> bool
    requires two_rounds_fit { 6 * type_size R.row < 2 ^ 63 }
{
    let challenges = [element::<R>(5), element(7)];
    let second = round([-308, 742, 70]);
    let rounds = [round([-4, 10, 6]), second];
    let false_rounds = [round([1, -1, 8]), second];
    verify(element(8), &rounds, &challenges) == Some(element(8316))
        && verify(element(9), &rounds, &challenges).is_none()
        && verify(element(9), &false_rounds, &challenges) == Some(element(8316))
}

/// Whether the law can be named for a false claim that passes.
pub fn names_the_law<F: Field, EF: ExtensionField<F>>(alloc: Global) -> Result<bool, AllocError>
    requires two_rounds_fit { 6 * type_size EF.row < 2 ^ 63 }
{
    let poly = table::<EF>(alloc, &[1, 2, 3, 4])?;
    let weights = table::<EF>(alloc, &[2, -3, -4, 6])?;
    let point = point::<EF>(alloc, &[5, 7])?;
    is_law_of::<F, EF>(alloc, &poly, &weights, &point)
}

/// Whether the law can be named for these tables, with their values at the challenges.
fn is_law_of<F: Field, EF: ExtensionField<F>>(
    alloc: Global,
    poly: &Poly<EF>,
    weights: &Poly<EF>,
    point: &Point<EF>,
) -> Result<bool, AllocError>
    requires challenges { length point.now ≡ 2 }
    requires poly_size { length poly.now ≡ 2 ^ length point.now }
    requires weights_size { length weights.now ≡ 2 ^ length point.now }
    requires two_rounds_fit { 6 * type_size EF.row < 2 ^ 63 }
{
    let weight = weights.eval_ext::<F>(alloc, point)?;
    let value = poly.eval_ext::<F>(alloc, point)?;
    let (poly, weights, challenges) = (poly.as_slice(), weights.as_slice(), point.as_slice());
    Ok(catches(poly, weights, challenges, weight * value))
}

/// Whether the false claim leads to the product of both tables' values, so that the law can be named for
/// it.
fn catches<R: PrimeCharacteristicRing>(
    poly: &[R],
    weights: &[R],
    challenges: &[R],
    product: R,
) -> bool
    requires challenges { length challenges.now ≡ 2 }
    requires poly_size { length poly.now ≡ 2 ^ length challenges.now }
    requires weights_size { length weights.now ≡ 2 ^ length challenges.now }
    requires product { product ≡ product_of_values R.ring weights.now poly.now challenges.now }
    requires two_rounds_fit { 6 * type_size R.row < 2 ^ 63 }
{
    let rounds = [round([1, -1, 8]), round([-308, 742, 70])];
    let nine = element(9);
    let Some(last) = verify(nine, &rounds, challenges) else {
        return false;
    };
    if last != product {
        return false;
    }
    laws::caught(poly, weights, nine, last, &rounds, challenges);
    last == element(8316)
}
