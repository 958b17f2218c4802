//! Calls that pack, and calls of what is packed.
ghost use Rattle.std.specs.Prelude.{◌≡◌};

use crate::answers::{gives, gives_lanes, gives_poly};
use crate::calls;
use crate::calls::Call::Packing;
use crate::given::Receiver::{self, Owner, View};
use crate::given::{counted, is_counted, packed, point};
use crate::outcome::{Outcome, judge};
use mlu_point::point::Point;
use mlu_ring::{ExtensionField, Field};
use multilinear_util::poly::Poly;
use std::alloc::{AllocError, Global};

/// The calls that this file makes.
#[derive(Clone, Copy)]
pub enum Call {
    Pack(Receiver),
    Unpack(Receiver),
    EvalPacked(Receiver),
}

/// The call with this name.
pub fn named(name: &str) -> Option<calls::Call> {
    Some(match name {
        "Poly::pack" => Packing(Call::Pack(Owner)),
        "Poly::unpack" => Packing(Call::Unpack(Owner)),
        "Poly::eval_packed" => Packing(Call::EvalPacked(Owner)),
        "PolyView::pack" => Packing(Call::Pack(View)),
        "PolyView::unpack" => Packing(Call::Unpack(View)),
        "PolyView::eval_packed" => Packing(Call::EvalPacked(View)),
        _ => return None,
    })
}

/// What becomes of the call. Fails where its inputs are refused.
pub fn made<R: ExtensionField<R>>(alloc: Global, call: Call) -> Result<Outcome, AllocError>
    requires { R.Packing.WIDTH ≡ 4 }
{
    let point = &point::<R>(alloc, &[2, 3, 5])?;
    let poly = counted::<R>(alloc, 8)?;
    let packed = packed::<R>(alloc)?;
    let (view, lanes) = (poly.as_view(), packed.as_view());
    let numbers = [1, 2, 3, 4, 5, 6, 7, 8];
    let answered = match call {
        Call::Pack(Owner) => gives_lanes::<R>(poly.pack::<R, R>(alloc), &numbers),
        Call::Pack(View) => gives_lanes::<R>(view.pack::<R, R>(alloc), &numbers),
        Call::Unpack(Owner) => gives_poly(packed.unpack::<R, R>(alloc), &numbers),
        Call::Unpack(View) => gives_poly(lanes.unpack::<R, R>(alloc), &numbers),
        Call::EvalPacked(Owner) => gives(packed.eval_packed::<R, R>(alloc, point), 20),
        Call::EvalPacked(View) => gives(lanes.eval_packed::<R, R>(alloc, point), 20),
    };
    Ok(judge(answered, is_counted(&poly, 8)))
}
