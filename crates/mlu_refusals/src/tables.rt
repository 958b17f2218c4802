//! Compressions of a polynomial by the table of a shorter point, plain, shifted and in two runs.
ghost use Rattle.std.specs.Prelude.{◌≡◌, ◌*◌, ◌<◌, ◌≤◌, ◌^◌, length};
ghost use Rattle.multilinear_util.specs.Split.{split_entries};

use crate::answers::{gives_lanes, gives_poly};
use crate::calls;
use crate::calls::Call::Table;
use crate::given::Half::Scalars;
use crate::given::{counted, is_counted, point, split};
use crate::outcome::{Outcome, judge};
use mlu_ring::{ExtensionField, Field};
use multilinear_util::poly::Poly;
use multilinear_util::split_eq::SplitEq;
use std::alloc::{AllocError, Global};

/// The calls that this file makes.
#[derive(Clone, Copy)]
pub enum Call {
    PrefixToPacked,
    PrefixShifted,
    SuffixShifted,
    PrefixInRuns,
    PrefixToPackedInRuns,
    PrefixShiftedInRuns,
}

/// The call with this name.
pub fn named(name: &str) -> Option<calls::Call> {
    Some(match name {
        "SplitEq::compress_prefix_to_packed" => Table(Call::PrefixToPacked),
        "SplitEq::compress_prefix_shifted" => Table(Call::PrefixShifted),
        "SplitEq::compress_suffix_shifted" => Table(Call::SuffixShifted),
        "SplitEq::compress_prefix_split" => Table(Call::PrefixInRuns),
        "SplitEq::compress_prefix_to_packed_split" => Table(Call::PrefixToPackedInRuns),
        "SplitEq::compress_prefix_shifted_split" => Table(Call::PrefixShiftedInRuns),
        _ => return None,
    })
}

/// What becomes of the call. Fails where its inputs are refused.
pub fn made<R: ExtensionField<R>>(alloc: Global, call: Call) -> Result<Outcome, AllocError>
    requires { R.Packing.WIDTH ≡ 4 }
{
    match call {
        Call::PrefixToPacked | Call::PrefixShifted | Call::SuffixShifted => {
            made_on::<R>(alloc, call, &[2], 8)
        }
        _ => made_on::<R>(alloc, call, &[2, 2], 16),
    }
}

/// The same, for the table of this point and a polynomial of so many entries.
fn made_on<R: ExtensionField<R>>(
    alloc: Global,
    call: Call,
    coordinates: &[i32],
    entries: usize,
) -> Result<Outcome, AllocError>
    requires lanes { R.Packing.WIDTH ≡ 4 }
    requires few { length coordinates.now < 3 }
    requires sizes { 2 ^ length coordinates.now * 4 ≤ entries }
{
    let poly = counted::<R>(alloc, entries)?;
    let split = split::<R>(alloc, Scalars, &point(alloc, coordinates)?)?;
    let answered = compressed(alloc, call, &poly, &split);
    Ok(judge(answered, is_counted(&poly, entries)))
}

/// Whether the call gives what it is to give, of this polynomial by this table.
fn compressed<R: ExtensionField<R>>(
    alloc: Global,
    call: Call,
    poly: &Poly<R>,
    split: &SplitEq<R, R>,
) -> Result<bool, AllocError>
    requires lanes { R.Packing.WIDTH ≡ 4 }
    requires sizes { length (split_entries R.ring split.now) * 4 ≤ length poly.now }
{
    let view = poly.as_view();
    match call {
        Call::PrefixToPacked => {
            let left = split.compress_prefix_to_packed(alloc, view);
            gives_lanes::<R>(left, &[9, 10, 11, 12])
        }
        Call::PrefixShifted => {
            let left = split.compress_prefix_shifted(alloc, view);
            gives_poly(left, &[-5, -6, -7, -8])
        }
        Call::SuffixShifted => {
            let left = split.compress_suffix_shifted(alloc, view);
            gives_poly(left, &[-2, -4, -6, -8])
        }
        Call::PrefixInRuns => {
            let left = split.compress_prefix_split(alloc, view, 2);
            gives_poly(left, &[25, 26, 27, 28])
        }
        Call::PrefixToPackedInRuns => {
            let left = split.compress_prefix_to_packed_split(alloc, view, 2);
            gives_lanes::<R>(left, &[25, 26, 27, 28])
        }
        Call::PrefixShiftedInRuns => {
            let left = split.compress_prefix_shifted_split(alloc, view, 2);
            gives_poly(left, &[-39, -42, -45, -48])
        }
    }
}
