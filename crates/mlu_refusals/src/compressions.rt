//! Compressions of a polynomial at the point (2), owned and borrowed.
ghost use Rattle.std.specs.Prelude.{◌≡◌};

use crate::answers::{gives_lanes, gives_poly};
use crate::calls;
use crate::calls::Call::Compression;
use crate::given::Receiver::{self, Owner, View};
use crate::given::{counted, is_counted, point};
use crate::outcome::{Outcome, judge};
use mlu_ring::{ExtensionField, Field, PrimeCharacteristicRing};
use std::alloc::{AllocError, Global};

/// The calls that this file makes.
#[derive(Clone, Copy)]
pub enum Call {
    Prefix(Receiver),
    PrefixToPacked(Receiver),
    Suffix(Receiver),
}

/// The call with this name.
pub fn named(name: &str) -> Option<calls::Call> {
    Some(match name {
        "Poly::compress_prefix_to_packed" => Compression(Call::PrefixToPacked(Owner)),
        "Poly::compress_prefix" => Compression(Call::Prefix(Owner)),
        "Poly::compress_suffix" => Compression(Call::Suffix(Owner)),
        "PolyView::compress_prefix_to_packed" => Compression(Call::PrefixToPacked(View)),
        "PolyView::compress_prefix" => Compression(Call::Prefix(View)),
        "PolyView::compress_suffix" => Compression(Call::Suffix(View)),
        _ => return None,
    })
}

/// What becomes of the call. Fails where its inputs are refused.
pub fn made<R: ExtensionField<R>>(alloc: Global, call: Call) -> Result<Outcome, AllocError>
    requires { R.Packing.WIDTH ≡ 4 }
{
    let point = &point::<R>(alloc, &[2])?;
    let poly = counted::<R>(alloc, 8)?;
    let view = poly.as_view();
    let (scale, prefix, suffix) = (R::ONE, [9, 10, 11, 12], [3, 5, 7, 9]);
    let answered = match call {
        Call::Prefix(Owner) => gives_poly(poly.compress_prefix(alloc, point, scale), &prefix),
        Call::Prefix(View) => gives_poly(view.compress_prefix(alloc, point, scale), &prefix),
        Call::PrefixToPacked(Owner) => {
            gives_lanes::<R>(poly.compress_prefix_to_packed(alloc, point, scale), &prefix)
        }
        Call::PrefixToPacked(View) => {
            gives_lanes::<R>(view.compress_prefix_to_packed(alloc, point, scale), &prefix)
        }
        Call::Suffix(Owner) => gives_poly(poly.compress_suffix(alloc, point, scale), &suffix),
        Call::Suffix(View) => gives_poly(view.compress_suffix(alloc, point, scale), &suffix),
    };
    Ok(judge(answered, is_counted(&poly, 8)))
}
