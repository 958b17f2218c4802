//! Polynomials made, copied and grown.
ghost use Rattle.std.specs.Prelude.{◌≡◌, length};

use crate::answers::{gives_lanes, gives_poly};
use crate::calls;
use crate::calls::Call::Poly as Tried;
use crate::given::{WEIGHTS, counted, is_counted, point};
use crate::outcome::{Outcome, judge, written};
use mlu_point::point::Point;
use mlu_ring::{ExtensionField, Field, PrimeCharacteristicRing, Sample};
use mlu_test_support::numbers::{are, element};
use multilinear_util::poly::Poly;
use rand_pcg::Pcg32;
use std::alloc::{AllocError, Global};

/// The calls that this file makes.
#[derive(Clone, Copy)]
pub enum Call {
    Zero,
    PadZeros,
    Rand,
    TryClone,
    NewFromPoint,
    NewPackedFromPoint,
}

/// The call with this name.
pub fn named(name: &str) -> Option<calls::Call> {
    Some(match name {
        "Poly::zero" => Tried(Call::Zero),
        "Poly::pad_zeros" => Tried(Call::PadZeros),
        "Poly::rand" => Tried(Call::Rand),
        "Poly::try_clone" => Tried(Call::TryClone),
        "Poly::new_from_point" => Tried(Call::NewFromPoint),
        "Poly::new_packed_from_point" => Tried(Call::NewPackedFromPoint),
        _ => return None,
    })
}

/// What becomes of the call. Fails where its inputs are refused.
pub fn made<R: ExtensionField<R> + Sample>(alloc: Global, call: Call) -> Result<Outcome, AllocError>
    requires { R.Packing.LOG_WIDTH ≡ 2 }
{
    let poly = counted::<R>(alloc, 8)?;
    let point = point::<R>(alloc, &[2, 3, 5])?;
    let answered = match call {
        Call::Zero => gives_poly(Poly::<R>::zero(alloc, 2), &[0; 4]),
        Call::PadZeros => return Ok(pad_zeros(poly)),
        Call::Rand => rand::<R>(alloc),
        Call::TryClone => gives_poly(poly.try_clone(alloc), &[1, 2, 3, 4, 5, 6, 7, 8]),
        Call::NewFromPoint => {
            let table = Poly::new_from_point(alloc, &point.as_slice()[..2], element(5));
            gives_poly(table, &[10, -15, -20, 30])
        }
        Call::NewPackedFromPoint => {
            let table = Poly::new_packed_from_point::<R, R>(alloc, point.as_slice(), R::ONE);
            gives_lanes::<R>(table, &WEIGHTS)
        }
    };
    let kept = is_counted(&poly, 8) && are(point.as_slice(), &[2, 3, 5]);
    Ok(judge(answered, kept))
}

/// A refused growth leaves the polynomial as it was.
fn pad_zeros<R: PrimeCharacteristicRing>(mut poly: Poly<R>) -> Outcome
    requires { length poly ≡ 8 }
{
    let done = poly.pad_zeros(4);
    let before = [1, 2, 3, 4, 5, 6, 7, 8];
    let after = [1, 2, 3, 4, 5, 6, 7, 8, 0, 0, 0, 0, 0, 0, 0, 0];
    written(done, poly.as_slice(), &after, &before)
}

fn rand<T: Sample + Copy>(alloc: Global) -> Result<bool, AllocError> {
    let mut rng = Pcg32::new(1, 54);
    Ok(Poly::<T>::rand(alloc, &mut rng, 3)?.num_evals() == 8)
}
