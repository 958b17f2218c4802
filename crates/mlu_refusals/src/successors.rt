//! Weights that meet the next row, and values by them.

use crate::answers::{gives, gives_poly};
use crate::calls;
use crate::calls::Call::Successor;
use crate::given::Receiver::{self, Owner, View};
use crate::given::{counted, is_counted, point};
use crate::outcome::{Outcome, judge};
use mlu_point::point::Point;
use mlu_point::point::Successor::Wrap;
use mlu_ring::{ExtensionField, Field};
use mlu_test_support::numbers::are;
use multilinear_util::poly::Poly;
use std::alloc::{AllocError, Global};

/// The calls that this file makes; in those by a rule the rows go round.
#[derive(Clone, Copy)]
pub enum Call {
    NewNextFromPoint,
    NewNextFromPointBy,
    EvalNextBase(Receiver),
    EvalNextBaseBy(Receiver),
}

/// The call with this name.
pub fn named(name: &str) -> Option<calls::Call> {
    Some(match name {
        "Poly::new_next_from_point" => Successor(Call::NewNextFromPoint),
        "Poly::eval_next_base" => Successor(Call::EvalNextBase(Owner)),
        "PolyView::eval_next_base" => Successor(Call::EvalNextBase(View)),
        "Poly::new_next_from_point_by" => Successor(Call::NewNextFromPointBy),
        "Poly::eval_next_base_by" => Successor(Call::EvalNextBaseBy(Owner)),
        "PolyView::eval_next_base_by" => Successor(Call::EvalNextBaseBy(View)),
        _ => return None,
    })
}

/// What becomes of the call. Fails where its inputs are refused.
pub fn made<R: ExtensionField<R>>(alloc: Global, call: Call) -> Result<Outcome, AllocError> {
    let point = &point::<R>(alloc, &[2, 3, 5])?;
    let poly = counted::<R>(alloc, 8)?;
    let (view, start) = (poly.as_view(), &point.as_slice()[..2]);
    let answered = match call {
        Call::NewNextFromPoint => {
            gives_poly(Poly::new_next_from_point(alloc, start), &[0, 2, -3, 2])
        }
        Call::NewNextFromPointBy => {
            gives_poly(
                Poly::new_next_from_point_by(alloc, Wrap, start),
                &[6, 2, -3, -4],
            )
        }
        Call::EvalNextBase(Owner) => gives(poly.eval_next_base(alloc, point), -9),
        Call::EvalNextBase(View) => gives(view.eval_next_base(alloc, point), -9),
        Call::EvalNextBaseBy(Owner) => gives(poly.eval_next_base_by(alloc, Wrap, point), -219),
        Call::EvalNextBaseBy(View) => gives(view.eval_next_base_by(alloc, Wrap, point), -219),
    };
    let kept = is_counted(&poly, 8) && are(point.as_slice(), &[2, 3, 5]);
    Ok(judge(answered, kept))
}
