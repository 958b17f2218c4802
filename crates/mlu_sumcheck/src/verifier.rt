//! The verifier: claims tested round by round.
ghost use Rattle.std.specs.Prelude.{◌≡◌, ◌∷◌, [], length};
ghost use Rattle.mlu_ring.specs.Tables.{univariate};
ghost use Rattle.mlu_sumcheck.specs.Rounds.{IsLastClaim, IsNextClaim};

use mlu_ring::{Additive, PrimeCharacteristicRing};

/// The value at `x` of the polynomial with these coefficients.
#[inline]
pub(crate) fn value_at<R: PrimeCharacteristicRing>(constant: R, linear: R, quadratic: R, x: R) -> R
    ensures { result ≡ univariate R.ring (constant ∷ linear ∷ quadratic ∷ []) x }
{
    constant + x * (linear + x * quadratic)
}

/// The next claim, which is the round's value at the challenge `r`; `None` exactly where the round's
/// values at 0 and 1 do not add up to the claim. Takes no memory.
pub fn verify_round<EF: PrimeCharacteristicRing>(claim: EF, round: [EF; 3], r: EF) -> Option<EF>
    ensures { IsNextClaim EF.ring claim round r result }
{
    let [constant, linear, quadratic] = round;
    if constant.double() + linear + quadratic != claim {
        return None;
    }
    Some(value_at(constant, linear, quadratic, r))
}

/// The last claim, where claims from the given one on fit the rounds and the challenges; `None` exactly
/// where there are no such claims. Takes no memory.
///
/// Claims fit where each round's values at 0 and 1 add up to the claim before it, and its value at its
/// challenge is the next claim. Asks for as many challenges as rounds.
pub fn verify<EF: PrimeCharacteristicRing>(
    mut claim: EF,
    rounds: &[[EF; 3]],
    challenges: &[EF],
) -> Option<EF>
    requires { length rounds.now ≡ length challenges.now }
    ensures { IsLastClaim EF.ring claim rounds.now challenges.now result }
{
    for i in 0..rounds.len() {
        claim = verify_round(claim, rounds[i], challenges[i])?;
    }
    Some(claim)
}
