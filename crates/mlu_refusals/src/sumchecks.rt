//! The proof of sumcheck over the polynomial with the values 1, 2, .., 8 and the table of the point
//! (2, 3, 5), at that point.
ghost use Rattle.std.specs.Mem.{type_size};
ghost use Rattle.std.specs.Prelude.{◌≡◌, ◌*◌, ◌<◌, ◌^◌, length};
ghost use Rattle.multilinear_util.specs.Split.{split_entries};

use crate::given::Half::Scalars;
use crate::given::{counted, has_weights, is_counted, point, split};
use crate::outcome::{Outcome, judge};
use mlu_ring::{ExtensionField, Field, PrimeCharacteristicRing, SelfAlgebra};
use mlu_sumcheck::run;
use mlu_test_support::numbers::{are, element};
use multilinear_util::poly::Poly;
use multilinear_util::split_eq::SplitEq;
use std::alloc::{AllocError, Global};

/// What becomes of the proof. Fails where its inputs are refused.
pub fn made<R: ExtensionField<R> + SelfAlgebra>(alloc: Global) -> Result<Outcome, AllocError>
    requires { 8 * type_size R.row < 2 ^ 63 }
{
    let poly = counted::<R>(alloc, 8)?;
    let point = point::<R>(alloc, &[2, 3, 5])?;
    let weights = split::<R>(alloc, Scalars, &point)?;
    let answered = proved(alloc, &poly, &weights, point.as_slice());
    let kept = has_weights(&weights) && is_counted(&poly, 8) && are(point.as_slice(), &[2, 3, 5]);
    Ok(judge(answered, kept))
}

/// Whether the claims begin with the value 20 and end with 20 times the weight (4 + 1) (9 + 4) (25 + 16).
fn proved<R: ExtensionField<R> + SelfAlgebra>(
    alloc: Global,
    poly: &Poly<R>,
    weights: &SplitEq<R, R>,
    challenges: &[R],
) -> Result<bool, AllocError>
    requires poly { length poly.now ≡ 8 }
    requires weights { length (split_entries R.ring weights.now) ≡ 8 }
    requires challenges { length challenges.now ≡ 3 }
{
    let transcript = run(alloc, poly, weights, challenges)?;
    let claims = transcript.claims.as_slice();
    Ok(claims.first() == Some(&element(20)) && claims.last() == Some(&element(53300)))
}
