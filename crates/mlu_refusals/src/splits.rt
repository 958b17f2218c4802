//! Split tables of the point (2, 3, 5) and the calls through them.
ghost use Rattle.std.specs.Mem.{type_size};
ghost use Rattle.std.specs.Prelude.{◌≡◌, ◌*◌, ◌<◌, ◌^◌, length};
ghost use Rattle.multilinear_util.specs.Split.{split_entries};

use crate::answers::{gives, gives_poly, has_lanes};
use crate::calls;
use crate::calls::Call::Split;
use crate::given::Half::{self, Lanes, Scalars};
use crate::given::{WEIGHTS, counted, has_weights, is_counted, packed, point, split};
use crate::outcome::{Outcome, judge};
use mlu_ring::{ExtensionField, Field, MapFrom, PrimeCharacteristicRing};
use mlu_test_support::numbers::{element, elements};
use multilinear_util::poly::Poly;
use multilinear_util::split_eq::SplitEq;
use std::alloc::{AllocError, Global};

/// The calls that this file makes.
#[derive(Clone, Copy)]
pub enum Call {
    New,
    TryClone,
    CloneHalf,
    ToField,
    Materialize,
    AccumulateIntoPacked,
    EvalPacked,
    CompressPrefix,
    CompressSuffix,
}

/// The call with this name.
pub fn named(name: &str) -> Option<calls::Call> {
    Some(match name {
        "SplitEq::new_unpacked" => Split(Scalars, Call::New),
        "SplitEq::new_packed" => Split(Lanes, Call::New),
        "SplitEq::try_clone" => Split(Scalars, Call::TryClone),
        "EqMaybePacked::try_clone" => Split(Scalars, Call::CloneHalf),
        "SplitEq::try_clone of packed weights" => Split(Lanes, Call::TryClone),
        "EqMaybePacked::try_clone of packed weights" => Split(Lanes, Call::CloneHalf),
        "SplitEq::to_field" => Split(Scalars, Call::ToField),
        "SplitEq::to_field of packed weights" => Split(Lanes, Call::ToField),
        "SplitEq::materialize" => Split(Scalars, Call::Materialize),
        "SplitEq::accumulate_into_packed" => Split(Scalars, Call::AccumulateIntoPacked),
        "SplitEq::eval_packed" => Split(Scalars, Call::EvalPacked),
        "SplitEq::compress_prefix" => Split(Scalars, Call::CompressPrefix),
        "SplitEq::compress_suffix" => Split(Scalars, Call::CompressSuffix),
        _ => return None,
    })
}

/// What becomes of the call. Fails where its inputs are refused.
pub fn made<R: ExtensionField<R> + MapFrom<R>>(
    alloc: Global,
    half: Half,
    call: Call,
) -> Result<Outcome, AllocError>
    requires lanes { R.Packing.WIDTH ≡ 4 }
    requires eight_fit { 8 * type_size R.row < 2 ^ 63 }
{
    let point = point::<R>(alloc, &[2, 3, 5])?;
    let table = split::<R>(alloc, half, &point)?;
    let answered = match call {
        Call::New => gives_table(split(alloc, half, &point)),
        Call::TryClone => gives_table(table.try_clone(alloc)),
        Call::CloneHalf => clone_half(alloc, &table),
        Call::ToField => gives_table(table.to_field::<R>(alloc)),
        Call::Materialize => gives_poly(table.materialize(alloc), &WEIGHTS),
        Call::AccumulateIntoPacked => return accumulate_into_packed(alloc, &table),
        _ => return on_values(alloc, &table, call),
    };
    Ok(judge(answered, has_weights(&table)))
}

/// What becomes of a call on the table and the values 1, 2, .., 8, after which both are as before.
fn on_values<R: ExtensionField<R>>(
    alloc: Global,
    table: &SplitEq<R, R>,
    call: Call,
) -> Result<Outcome, AllocError>
    requires lanes { R.Packing.WIDTH ≡ 4 }
    requires table { length (split_entries R.ring table.now) ≡ 8 }
    requires eight_fit { 8 * type_size R.row < 2 ^ 63 }
{
    let poly = counted::<R>(alloc, 8)?;
    let answered = match call {
        Call::CompressPrefix => gives_poly(table.compress_prefix(alloc, poly.as_view()), &[20]),
        Call::CompressSuffix => gives_poly(table.compress_suffix(alloc, poly.as_view()), &[20]),
        _ => {
            let packed = packed::<R>(alloc)?;
            gives(table.eval_packed(alloc, packed.as_view()), 20)
        }
    };
    Ok(judge(answered, has_weights(table) && is_counted(&poly, 8)))
}

/// Whether the call gives a table of three variables that ends with the weight 30.
fn gives_table<R: ExtensionField<R>>(
    answer: Result<SplitEq<R, R>, AllocError>,
) -> Result<bool, AllocError> {
    let table = answer?;
    Ok(table.num_variables() == 3 && table.last_scalar() == element(30))
}

fn clone_half<R: ExtensionField<R>>(
    alloc: Global,
    table: &SplitEq<R, R>,
) -> Result<bool, AllocError> {
    Ok(table.eq1().try_clone(alloc)?.last_scalar() == element(15))
}

/// A refused accumulation leaves its output as it was.
fn accumulate_into_packed<R: ExtensionField<R>>(
    alloc: Global,
    table: &SplitEq<R, R>,
) -> Result<Outcome, AllocError>
    requires lanes { R.Packing.WIDTH ≡ 4 }
    requires table { length (split_entries R.ring table.now) ≡ 8 }
{
    let mut out: Vec<R::ExtensionPacking> = elements(alloc, &[1, 1])?;
    let done = table.accumulate_into_packed(alloc, out.as_mut_slice(), None);
    let out = out.as_slice();
    Ok(match done {
        Ok(()) => judge(
            Ok(has_lanes::<R>(out, &[-7, 11, 13, -14, 17, -19, -23, 31])),
            true,
        ),
        Err(refused) => judge(Err(refused), has_lanes::<R>(out, &[1; 8])),
    })
}
