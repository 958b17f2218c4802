//! Evaluations below the threshold, which do not fail, and from it on.

use crate::answers::gives;
use crate::calls;
use crate::calls::Call::{Evaluation, Words};
use crate::given::Receiver::{self, Owner, View};
use crate::given::{counted, counted_from, is_counted, point};
use crate::outcome::{Outcome, judge};
use mlu_point::point::Point;
use mlu_ring::{ExtensionField, Field};
use mlu_test_support::numbers::element;
use multilinear_util::poly::Poly;
use std::alloc::{AllocError, Global};

/// The calls that this file makes.
#[derive(Clone, Copy)]
pub enum Call {
    Below,
    EvalBase(Receiver),
    EvalBaseOfTen,
    EvalExt(Receiver),
}

/// The call with this name.
pub fn named(name: &str) -> Option<calls::Call> {
    Some(match name {
        "Poly::eval_base" => Evaluation(Call::EvalBase(Owner)),
        "Poly::eval_ext" => Evaluation(Call::EvalExt(Owner)),
        "PolyView::eval_base" => Evaluation(Call::EvalBase(View)),
        "PolyView::eval_ext" => Evaluation(Call::EvalExt(View)),
        "Poly::eval_base of words" => Words(Call::EvalBaseOfTen),
        "Poly::eval_base of words below the threshold" => Words(Call::EvalBase(Owner)),
        "below the threshold" => Evaluation(Call::Below),
        _ => return None,
    })
}

/// What becomes of the call. Fails where its inputs are refused.
pub fn made<R: ExtensionField<R>>(alloc: Global, call: Call) -> Result<Outcome, AllocError> {
    let point = &point::<R>(alloc, &[2; 9])?;
    let poly = counted::<R>(alloc, 512)?;
    let view = poly.as_view();
    let answered = match call {
        Call::Below => return below::<R>(alloc),
        Call::EvalBase(Owner) => gives(poly.eval_base(alloc, point), 1023),
        Call::EvalBase(View) => gives(view.eval_base(alloc, point), 1023),
        Call::EvalBaseOfTen => return eval_base_of_ten::<R>(alloc),
        Call::EvalExt(Owner) => gives(poly.eval_ext::<R>(alloc, point), 1023),
        Call::EvalExt(View) => gives(view.eval_ext::<R>(alloc, point), 1023),
    };
    Ok(judge(answered, is_counted(&poly, 512)))
}

/// Does not fail.
fn below<R: ExtensionField<R>>(alloc: Global) -> Result<Outcome, AllocError> {
    let point = &point::<R>(alloc, &[2; 8])?;
    let poly = counted_from::<R>(alloc, R::ZERO, 256)?;
    let of_base = poly.eval_base(alloc, point) == Ok(element(510));
    let of_extension = poly.eval_ext::<R>(alloc, point) == Ok(element(510));
    Ok(judge(Ok(of_base), of_extension))
}

/// At ten variables, the threshold of words.
fn eval_base_of_ten<R: ExtensionField<R>>(alloc: Global) -> Result<Outcome, AllocError> {
    let point = &point::<R>(alloc, &[2; 10])?;
    let poly = counted::<R>(alloc, 1024)?;
    let answered = gives(poly.eval_base(alloc, point), 2047);
    Ok(judge(answered, is_counted(&poly, 1024)))
}
