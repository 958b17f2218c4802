//! Folds of a polynomial at 2, owned and borrowed.
ghost use Rattle.std.specs.Prelude.{◌≡◌};

use crate::answers::{gives_lanes, gives_poly};
use crate::calls;
use crate::calls::Call::Fold;
use crate::given::Receiver::{self, Owner, View};
use crate::given::{counted, is_counted};
use crate::outcome::{Outcome, judge, written};
use mlu_ring::{Algebra, ExtensionField, Field, PrimeCharacteristicRing};
use std::alloc::{AllocError, Global};

/// The calls that this file makes.
#[derive(Clone, Copy)]
pub enum Call {
    Prefix(Receiver),
    PrefixToPacked(Receiver),
    Suffix(Receiver),
    SuffixMutSplit,
}

const PREFIX: [i32; 4] = [9, 10, 11, 12];

const SUFFIX: [i32; 4] = [3, 5, 7, 9];

/// The call with this name.
pub fn named(name: &str) -> Option<calls::Call> {
    Some(match name {
        "Poly::fix_prefix_var" => Fold(Call::Prefix(Owner)),
        "Poly::fix_prefix_var_to_packed" => Fold(Call::PrefixToPacked(Owner)),
        "PolyView::fix_prefix_var" => Fold(Call::Prefix(View)),
        "PolyView::fix_prefix_var_to_packed" => Fold(Call::PrefixToPacked(View)),
        "Poly::fix_suffix_var" => Fold(Call::Suffix(Owner)),
        "PolyView::fix_suffix_var" => Fold(Call::Suffix(View)),
        "Poly::fix_suffix_var_mut_split" => Fold(Call::SuffixMutSplit),
        _ => return None,
    })
}

/// What becomes of the call. Fails where its inputs are refused.
pub fn made<R: ExtensionField<R>>(alloc: Global, call: Call) -> Result<Outcome, AllocError>
    requires { R.Packing.WIDTH ≡ 4 }
{
    let poly = counted::<R>(alloc, 8)?;
    let view = poly.as_view();
    let answered = match call {
        Call::Prefix(Owner) => gives_poly(poly.fix_prefix_var(alloc, R::TWO), &PREFIX),
        Call::Prefix(View) => gives_poly(view.fix_prefix_var(alloc, R::TWO), &PREFIX),
        Call::PrefixToPacked(Owner) => {
            gives_lanes::<R>(poly.fix_prefix_var_to_packed(alloc, R::TWO), &PREFIX)
        }
        Call::PrefixToPacked(View) => {
            gives_lanes::<R>(view.fix_prefix_var_to_packed(alloc, R::TWO), &PREFIX)
        }
        Call::Suffix(Owner) => gives_poly(poly.fix_suffix_var(alloc, R::TWO), &SUFFIX),
        Call::Suffix(View) => gives_poly(view.fix_suffix_var(alloc, R::TWO), &SUFFIX),
        Call::SuffixMutSplit => return suffix_mut_split::<R>(alloc),
    };
    Ok(judge(answered, is_counted(&poly, 8)))
}

/// A refused fold leaves the polynomial as it was.
fn suffix_mut_split<R: PrimeCharacteristicRing + Algebra<R>>(
    alloc: Global,
) -> Result<Outcome, AllocError> {
    let mut poly = counted::<R>(alloc, 8)?;
    let done = poly.fix_suffix_var_mut_split(alloc, R::TWO);
    let before = [1, 2, 3, 4, 5, 6, 7, 8];
    Ok(written(done, poly.as_slice(), &SUFFIX, &before))
}
