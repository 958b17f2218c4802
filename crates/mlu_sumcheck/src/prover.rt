//! The prover: rounds of two tables, and the tables folded at the challenges.
ghost use Rattle.std.specs.Prelude.{◌≡◌, ◌+◌, ◌/◌, ◌^◌, ◌<◌, ◌∷◌, [], length, slice_index_or, suc, IfOk};
ghost use Rattle.std.specs.Vec.{vec_capacity};
ghost use Rattle.mlu_ring.specs.Tables.{front, line, pair};
ghost use Rattle.multilinear_util.specs.Split.{split_entries};
ghost use Rattle.mlu_sumcheck.specs.Rounds.{lower, rise, round, rounds_of, AddsUpTo, BeginWithSum, EndWithProduct, Fit};

use crate::verifier::value_at;
use mlu_ring::{Additive, ExtensionField, Field, PrimeCharacteristicRing, SelfAlgebra};
use multilinear_util::poly::Poly;
use multilinear_util::split_eq::SplitEq;
use std::alloc::{AllocError, Global};

/// The rounds of a proof, and the claims between them: one more than rounds.
#[derive(Drop)]
pub struct Transcript<EF> {
    /// The coefficients of 1, X and X^2 of each round.
    pub rounds: Vec<[EF; 3]>,
    /// The claim before each round, and the last one.
    pub claims: Vec<EF>,
}

/// The coefficients of 1, X and X^2 of the sum of the products of both tables, with the first variable
/// of each at X. One pass over both; takes no memory.
///
/// Asks for equal sizes and at least one variable.
#[inline]
pub fn prove_round<EF: PrimeCharacteristicRing>(poly: &Poly<EF>, weights: &Poly<EF>) -> [EF; 3]
    requires sizes { length poly.now ≡ length weights.now }
    requires variable { 1 < length poly.now }
    ensures { result ≡ round EF.ring weights.now poly.now }
{
    let (constant, linear, quadratic) = coefficients(poly.as_slice(), weights.as_slice());
    [constant, linear, quadratic]
}

/// The round that adds up to the claim: that of [`prove_round`] where the claim is true, the sum of the
/// products of both tables. Only the coefficient of X depends on the claim. It takes two products a pair
/// of entries, and [`prove_round`] three.
///
/// Asks for equal sizes and at least one variable.
#[inline]
pub fn prove_round_of_claim<EF: PrimeCharacteristicRing>(
    poly: &Poly<EF>,
    weights: &Poly<EF>,
    claim: EF,
) -> [EF; 3]
    requires sizes { length poly.now ≡ length weights.now }
    requires variable { 1 < length poly.now }
    ensures constant { slice_index_or result 0 EF.ring.zero ≡ pair EF.ring (lower weights.now) (lower poly.now) }
    ensures quadratic { slice_index_or result 2 EF.ring.zero
        ≡ pair EF.ring (rise EF.ring weights.now) (rise EF.ring poly.now) }
    ensures adds_up { AddsUpTo EF.ring claim result }
    ensures round { claim ≡ pair EF.ring weights.now poly.now → result ≡ round EF.ring weights.now poly.now }
{
    let round = coefficients_of_claim(poly.as_slice(), weights.as_slice(), claim);
    [round.0, round.1, round.2]
}

/// The coefficients of the round of two tables with as many entries, two halves each.
fn coefficients<R: PrimeCharacteristicRing>(poly: &[R], weights: &[R]) -> (R, R, R)
    requires sizes { length poly.now ≡ length weights.now }
    requires halves { length poly.now ≡ length poly.now / 2 + length poly.now / 2 }
    ensures { result.0 ∷ result.1 ∷ result.2 ∷ [] ≡ round R.ring weights.now poly.now }
{
    let half = poly.len() / 2;
    let mut at_zero = R::ZERO;
    let mut at_one = R::ZERO;
    let mut quadratic = R::ZERO;
    for i in 0..half {
        let (low, high) = (poly[i], poly[half + i]);
        let (low_weight, high_weight) = (weights[i], weights[half + i]);
        at_zero = at_zero + low_weight * low;
        at_one = at_one + high_weight * high;
        quadratic = quadratic + (high_weight - low_weight) * (high - low);
    }
    (at_zero, at_one - at_zero - quadratic, quadratic)
}

/// The coefficients of the round that adds up to the claim.
fn coefficients_of_claim<R: PrimeCharacteristicRing>(
    poly: &[R],
    weights: &[R],
    claim: R,
) -> (R, R, R)
    requires sizes { length poly.now ≡ length weights.now }
    requires halves { length poly.now ≡ length poly.now / 2 + length poly.now / 2 }
    ensures constant { result.0 ≡ pair R.ring (lower weights.now) (lower poly.now) }
    ensures quadratic { result.2 ≡ pair R.ring (rise R.ring weights.now) (rise R.ring poly.now) }
    ensures adds_up { AddsUpTo R.ring claim (result.0 ∷ result.1 ∷ result.2 ∷ []) }
    ensures round { claim ≡ pair R.ring weights.now poly.now
        → result.0 ∷ result.1 ∷ result.2 ∷ [] ≡ round R.ring weights.now poly.now }
{
    let half = poly.len() / 2;
    let mut at_zero = R::ZERO;
    let mut quadratic = R::ZERO;
    for i in 0..half {
        let (low, low_weight) = (poly[i], weights[i]);
        at_zero = at_zero + low_weight * low;
        quadratic = quadratic + (weights[half + i] - low_weight) * (poly[half + i] - low);
    }
    let at_one = claim - at_zero;
    let linear = at_one - at_zero - quadratic;
    (at_zero, linear, quadratic)
}

/// Folds both tables at `r`, in place: entry `i` becomes `low[i] + r * (high[i] - low[i])`, where `low`
/// and `high` are the halves. Takes no memory.
///
/// Asks for equal sizes and at least one variable.
#[inline]
pub fn bind<EF: SelfAlgebra>(poly: &mut Poly<EF>, weights: &mut Poly<EF>, r: EF)
    requires sizes { length poly.old ≡ length weights.old }
    requires variable { 1 < length poly.old }
    ensures poly_folded { poly.new ≡ front EF.ring (line EF.ring r) poly.old }
    ensures weights_folded { weights.new ≡ front EF.ring (line EF.ring r) weights.old }
{
    poly.fix_prefix_var_mut(r);
    weights.fix_prefix_var_mut(r);
}

/// The whole proof: `k` rounds at `k` challenges, with `k + 1` claims. The first claim is the sum of the
/// polynomial's values, each times its weight; the last is the product of both values at the challenges.
/// Round `i` is that of both tables folded at the challenges before it, and claim `i + 1` its value at
/// challenge `i`. Both lists have room for exactly their items.
///
/// All challenges are given beforehand. Where each is drawn after its round, [`prove_round_of_claim`] and
/// [`bind`] make the proof in turn.
///
/// Asks that the polynomial and the split table have as many variables as there are challenges.
///
/// # Errors
/// Where memory is refused.
pub fn run<F: Field, EF: ExtensionField<F> + SelfAlgebra>(
    alloc: Global,
    poly: &Poly<EF>,
    weights: &SplitEq<F, EF>,
    challenges: &[EF],
) -> Result<Transcript<EF>, AllocError>
    requires poly_size { length poly.now ≡ 2 ^ length challenges.now }
    requires weights_size { length (split_entries EF.ring weights.now) ≡ 2 ^ length challenges.now }
    ensures number_of_rounds { IfOk result (λ t. length t.rounds.items ≡ length challenges.now) }
    ensures number_of_claims { IfOk result (λ t. length t.claims.items ≡ suc (length challenges.now)) }
    ensures exact_rounds { IfOk result (λ t. vec_capacity t.rounds ≡ length challenges.now) }
    ensures exact_claims { IfOk result (λ t. vec_capacity t.claims ≡ suc (length challenges.now)) }
    ensures first { IfOk result (λ t. BeginWithSum EF.ring t.claims.items (split_entries EF.ring weights.now) poly.now) }
    ensures rounds { IfOk result (λ t. t.rounds.items ≡ rounds_of EF.ring (split_entries EF.ring weights.now) poly.now challenges.now) }
    ensures fit { IfOk result (λ t. Fit EF.ring t.claims.items t.rounds.items challenges.now) }
    ensures last { IfOk result (λ t. EndWithProduct EF.ring t.claims.items (split_entries EF.ring weights.now) poly.now challenges.now) }
{
    let first = weights.eval_ext(poly.as_view());
    let poly = poly.try_clone(alloc)?;
    let weights = weights.materialize(alloc)?;
    transcribe(alloc, poly, weights, first, challenges)
}

/// [`run`] on the weights in a table, where the sum of the products of both tables is `first`. The tables
/// are folded in place.
fn transcribe<EF: SelfAlgebra>(
    alloc: Global,
    mut poly: Poly<EF>,
    mut weights: Poly<EF>,
    first: EF,
    challenges: &[EF],
) -> Result<Transcript<EF>, AllocError>
    requires poly_size { length poly ≡ 2 ^ length challenges.now }
    requires weights_size { length weights ≡ 2 ^ length challenges.now }
    requires sum { first ≡ pair EF.ring weights poly }
    ensures number_of_rounds { IfOk result (λ t. length t.rounds.items ≡ length challenges.now) }
    ensures number_of_claims { IfOk result (λ t. length t.claims.items ≡ suc (length challenges.now)) }
    ensures exact_rounds { IfOk result (λ t. vec_capacity t.rounds ≡ length challenges.now) }
    ensures exact_claims { IfOk result (λ t. vec_capacity t.claims ≡ suc (length challenges.now)) }
    ensures first { IfOk result (λ t. BeginWithSum EF.ring t.claims.items weights poly) }
    ensures rounds { IfOk result (λ t. t.rounds.items ≡ rounds_of EF.ring weights poly challenges.now) }
    ensures fit { IfOk result (λ t. Fit EF.ring t.claims.items t.rounds.items challenges.now) }
    ensures last { IfOk result (λ t. EndWithProduct EF.ring t.claims.items weights poly challenges.now) }
{
    let variables = poly.num_variables();
    let mut rounds = Vec::with_capacity(alloc, variables)?;
    let mut claims = Vec::with_capacity(alloc, variables + 1)?;
    claims.push_reserved(first);
    let mut claim = first;
    for challenge in challenges {
        let r = *challenge;
        let (constant, linear, quadratic) = coefficients_of_claim(
            poly.as_slice(),
            weights.as_slice(),
            claim,
        );
        bind(&mut poly, &mut weights, r);
        rounds.push_reserved([constant, linear, quadratic]);
        claim = value_at(constant, linear, quadratic, r);
        claims.push_reserved(claim);
    }
    Ok(Transcript { rounds, claims })
}
