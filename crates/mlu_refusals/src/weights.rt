//! Tables of a point, owned and borrowed.
ghost use Rattle.std.specs.Prelude.{◌≡◌, length};

use crate::answers::gives_list;
use crate::calls;
use crate::calls::Call::Weights;
use crate::given::Receiver::{self, Owner, View};
use crate::given::{WEIGHTS, point};
use crate::outcome::{Outcome, judge, written};
use mlu_point::point::{BitOrder, Point};
use mlu_ring::{Counter, Field, PrimeCharacteristicRing};
use mlu_test_support::numbers::{are, elements};
use std::alloc::{AllocError, Global};

/// The calls that this file makes.
#[derive(Clone, Copy)]
pub enum Call {
    Msb(Receiver),
    Lsb(Receiver),
    Metered(Receiver),
    FillInChunks(Receiver),
}

const LSB: [i32; 8] = [-8, 16, 12, -24, 10, -20, -15, 30];

/// The call with this name.
pub fn named(name: &str) -> Option<calls::Call> {
    Some(match name {
        "Point::equality_weights_msb" => Weights(Call::Msb(Owner)),
        "Point::equality_weights_lsb" => Weights(Call::Lsb(Owner)),
        "Point::equality_weights_metered" => Weights(Call::Metered(Owner)),
        "Point::fill_equality_table_in_chunks" => Weights(Call::FillInChunks(Owner)),
        "PointView::equality_weights_msb" => Weights(Call::Msb(View)),
        "PointView::equality_weights_lsb" => Weights(Call::Lsb(View)),
        "PointView::equality_weights_metered" => Weights(Call::Metered(View)),
        "PointView::fill_equality_table_in_chunks" => Weights(Call::FillInChunks(View)),
        _ => return None,
    })
}

/// What becomes of the call. Fails where its inputs are refused.
pub fn made<R: Field>(alloc: Global, call: Call) -> Result<Outcome, AllocError> {
    let point = point::<R>(alloc, &[2, 3, 5])?;
    let view = point.as_view();
    let answered = match call {
        Call::Msb(Owner) => gives_list(point.equality_weights_msb(alloc), &WEIGHTS),
        Call::Msb(View) => gives_list(view.equality_weights_msb(alloc), &WEIGHTS),
        Call::Lsb(Owner) => gives_list(point.equality_weights_lsb(alloc), &LSB),
        Call::Lsb(View) => gives_list(view.equality_weights_lsb(alloc), &LSB),
        Call::Metered(receiver) => return Ok(metered(alloc, receiver, &point)),
        Call::FillInChunks(receiver) => return fill_in_chunks(alloc, receiver, &point),
    };
    Ok(judge(answered, are(point.as_slice(), &[2, 3, 5])))
}

/// A refused growth leaves the meter as it was.
fn metered<R: Field>(alloc: Global, receiver: Receiver, point: &Point<R>) -> Outcome
    requires { length point.now ≡ 3 }
{
    let mut meter = Counter::new();
    let answer = match receiver {
        Owner => point.equality_weights_metered(alloc, BitOrder::Lsb, 1, &mut meter),
        View => point
            .as_view()
            .equality_weights_metered(alloc, BitOrder::Lsb, 1, &mut meter),
    };
    let products = if answer.is_ok() { 7 } else { 0 };
    let counted = meter.made() == products && meter.groups() == 0;
    let kept = counted && are(point.as_slice(), &[2, 3, 5]);
    judge(gives_list(answer, &LSB), kept)
}

/// A refused growth leaves the output as it was, and the meter.
fn fill_in_chunks<R: Field>(
    alloc: Global,
    receiver: Receiver,
    point: &Point<R>,
) -> Result<Outcome, AllocError>
    requires { length point.now ≡ 3 }
{
    let mut out: Vec<R> = elements(alloc, &[9; 8])?;
    let mut meter = Counter::new();
    let (places, order) = (out.as_mut_slice(), BitOrder::Msb);
    let done = match receiver {
        Owner => point.fill_equality_table_in_chunks(alloc, places, order, R::TWO, 1, &mut meter),
        View => point
            .as_view()
            .fill_equality_table_in_chunks(alloc, places, order, R::TWO, 1, &mut meter),
    };
    let products = if done.is_ok() { 7 } else { 0 };
    if meter.made() != products {
        return Ok(Outcome::Wrong);
    }
    let after = [-16, 20, 24, -30, 32, -40, -48, 60];
    Ok(written(done, out.as_slice(), &after, &[9; 8]))
}
