//! Calls of a polynomial in scalars or in lanes.
ghost use Rattle.std.specs.Prelude.{◌≡◌};

use crate::answers::{gives, has_lanes};
use crate::calls;
use crate::calls::Call::Storage;
use crate::given::Half::{self, Lanes, Scalars};
use crate::given::Receiver::{self, Owner, View};
use crate::given::{counted, is_counted, packed, point};
use crate::outcome::{Outcome, judge};
use mlu_point::point::Point;
use mlu_ring::{ExtensionField, Field};
use multilinear_util::poly::{Poly, PolyMaybePacked};
use std::alloc::{AllocError, Global};

/// The calls that this file makes.
#[derive(Clone, Copy)]
pub enum Call {
    Eval(Receiver),
    TryClone,
    Unpack,
}

/// The call with this name.
pub fn named(name: &str) -> Option<calls::Call> {
    Some(match name {
        "PolyMaybePacked::eval" => Storage(Scalars, Call::Eval(Owner)),
        "PolyMaybePackedView::eval" => Storage(Scalars, Call::Eval(View)),
        "PolyMaybePacked::try_clone" => Storage(Scalars, Call::TryClone),
        "PolyMaybePacked::unpack" => Storage(Lanes, Call::Unpack),
        "PolyMaybePacked::eval of packed values" => Storage(Lanes, Call::Eval(Owner)),
        "PolyMaybePackedView::eval of packed values" => Storage(Lanes, Call::Eval(View)),
        "PolyMaybePacked::try_clone of packed values" => Storage(Lanes, Call::TryClone),
        _ => return None,
    })
}

/// What becomes of the call. Fails where its inputs are refused.
pub fn made<R: ExtensionField<R>>(
    alloc: Global,
    half: Half,
    call: Call,
) -> Result<Outcome, AllocError>
    requires { R.Packing.WIDTH ≡ 4 }
{
    match half {
        Scalars => {
            let storage = PolyMaybePacked::Scalar(counted::<R>(alloc, 512)?);
            of_storage::<R>(alloc, call, storage, &point(alloc, &[2; 9])?, 1023)
        }
        Lanes => {
            let storage = PolyMaybePacked::Packed(packed::<R>(alloc)?);
            of_storage::<R>(alloc, call, storage, &point(alloc, &[2, 3, 5])?, 20)
        }
    }
}

/// The same, where the value at the point is the number.
fn of_storage<R: ExtensionField<R>>(
    alloc: Global,
    call: Call,
    storage: PolyMaybePacked<R, R>,
    point: &Point<R>,
    number: i32,
) -> Result<Outcome, AllocError> {
    if storage.num_variables() != point.num_variables() {
        return Err(AllocError);
    }
    let answered = match call {
        Call::Eval(Owner) => gives(storage.eval(alloc, point), number),
        Call::Eval(View) => gives(storage.as_view().eval(alloc, point), number),
        Call::TryClone => match storage.try_clone(alloc) {
            Ok(copy) => Ok(copy.num_variables() == point.num_variables()),
            Err(refused) => Err(refused),
        },
        Call::Unpack => return Ok(unpack(alloc, storage)),
    };
    Ok(judge(answered, true))
}

/// A refused unpacking hands the packed table back.
fn unpack<R: ExtensionField<R>>(alloc: Global, storage: PolyMaybePacked<R, R>) -> Outcome {
    match storage.unpack(alloc) {
        Ok(poly) => judge(Ok(is_counted(&poly, 8)), true),
        Err((table, refused)) => {
            let kept = match &table {
                PolyMaybePacked::Packed(packed) => {
                    has_lanes::<R>(packed.as_slice(), &[1, 2, 3, 4, 5, 6, 7, 8])
                }
                PolyMaybePacked::Scalar(_) => false,
            };
            judge(Err(refused), kept)
        }
    }
}
