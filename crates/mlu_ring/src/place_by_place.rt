//! Subtraction, multiplication, negation and zeros of slices, place by place.
ghost use Rattle.std.specs.Prelude.{◌≡◌, length, map};
ghost use Rattle.std.specs.Simd.Lanes.{zip2};

use crate::additive::Additive;
use crate::ring::PrimeCharacteristicRing;

/// Takes `b` from `out`, place by place. Asks for equal lengths.
#[inline]
pub fn sub_each<R: Additive>(out: &mut [R], b: &[R])
    requires { length out.old ≡ length b.now }
    ensures { out.new ≡ zip2 R.ring.minus out.old b.now }
{
    for i in 0..out.len() {
        out[i] = out[i] - b[i];
    }
}

/// Multiplies `out` by `b`, place by place. Asks for equal lengths.
#[inline]
pub fn multiply_each<R: PrimeCharacteristicRing>(out: &mut [R], b: &[R])
    requires { length out.old ≡ length b.now }
    ensures { out.new ≡ zip2 R.ring.product out.old b.now }
{
    for i in 0..out.len() {
        out[i] = out[i] * b[i];
    }
}

/// Negates each place.
#[inline]
pub fn negate_each<R: Additive>(out: &mut [R])
    ensures { out.new ≡ map R.ring.negation out.old }
{
    for x in out.iter_mut() {
        *x = -*x;
    }
}

/// Writes zero to each place.
#[inline]
pub fn clear<T: Additive>(out: &mut [T])
    ensures { out.new ≡ map (λ x. T.ring.zero) out.old }
{
    for place in out.iter_mut() {
        *place = T::ZERO;
    }
}
