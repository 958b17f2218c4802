//! The calls of recorded cases, and the sweep over all calls, at the rings and lane widths that a case names.
//!
//! Stands on `mlu_replay_calls` and `mlu_sweep`, which name no ring; the program `mlu_replay` stands on it. It is a
//! crate of its own since the calls over every ring take long to prove, and nothing here changes with them.
#![tactic(auto)]

ghost use Rattle.std.specs.Prelude.{◌<◌};

use mlu_ext::{ProductAlgebra, QuarticExtension};
use mlu_lanes::{BabyBear, LaneWidth, Lanes, WrappingU64};
use mlu_replay_calls::element::Element;
use mlu_replay_calls::ops::{alone, extended, is_missing, mixed, over_itself};
use mlu_replay_calls::words::Words;
use mlu_replay_lines::fault::{Fault, Reason};
use mlu_ring::{ExtensionField, Sample, SelfAlgebra};
use mlu_sweep::{Difference, sweep};
use std::alloc::{AllocError, Global};

/// The call that compares all others with their definitions, up to a number of variables.
const SWEEP: &str = "sweep";

/// The most variables of a sweep.
const MOST_VARIABLES: usize = 24;

/// The answer over the rings that the tag names, at a lane width.
macro_rules! over_rings {
    ($width:literal, $op:ident, $words:ident) => {
        match $words.word()? {
            "b" => residues::<$width>($op, $words),
            "m" => quartics_over_residues::<$width>(Group::Mixed, $op, $words),
            "e" => quartics::<$width>($op, $words),
            "p0" => copies::<$width, 0>($op, $words),
            "p1" => copies::<$width, 1>($op, $words),
            "p8" => copies::<$width, 8>($op, $words),
            "p9" => copies::<$width, 9>($op, $words),
            "u" => residues_of_words::<$width>($op, $words),
            _ => Err(Fault::Unknown(Reason::Tag)),
        }
    };
}

/// The answer to what is asked: the call, the width, the tag of the rings, and the operands.
pub fn answer(alloc: Global, asked: &str) -> Result<String, Fault> {
    let mut words = Words::new(alloc, asked);
    let op = words.word()?;
    let answer = match words.word()? {
        "1" => one_lane(op, &mut words),
        "2" => two_lanes(op, &mut words),
        "4" => four_lanes(op, &mut words),
        "8" => eight_lanes(op, &mut words),
        "16" => sixteen_lanes(op, &mut words),
        _ => Err(Fault::Unknown(Reason::Width)),
    }?;
    words.end()?;
    Ok(answer)
}

fn one_lane(op: &str, words: &mut Words<'_>) -> Result<String, Fault> {
    over_rings!(1, op, words)
}

fn two_lanes(op: &str, words: &mut Words<'_>) -> Result<String, Fault> {
    over_rings!(2, op, words)
}

fn four_lanes(op: &str, words: &mut Words<'_>) -> Result<String, Fault> {
    over_rings!(4, op, words)
}

fn eight_lanes(op: &str, words: &mut Words<'_>) -> Result<String, Fault> {
    over_rings!(8, op, words)
}

fn sixteen_lanes(op: &str, words: &mut Words<'_>) -> Result<String, Fault> {
    over_rings!(16, op, words)
}

/// Up to how many variables a sweep goes.
fn most_variables(words: &mut Words<'_>) -> Result<usize, Fault> {
    let most = words.number()?;
    if most > MOST_VARIABLES {
        return Err(Fault::Unknown(Reason::Large));
    }
    Ok(most)
}

/// What a sweep has found, in words.
fn found(
    alloc: Global,
    difference: Result<Option<Difference>, AllocError>,
) -> Result<String, Fault> {
    match difference? {
        None => Ok(String::from_str(alloc, "agree")?),
        Some(difference) => Ok(format!(in alloc; "{difference}")?),
    }
}

// Each function below names its rings once for all widths (docs/DECISIONS.md, "Tests").

/// Over the residues modulo a prime.
fn residues<const W: usize>(op: &str, words: &mut Words<'_>) -> Result<String, Fault>
where
    Lanes<BabyBear<W>, W>: LaneWidth<W>,
    requires { W < 32 }
{
    if op == SWEEP {
        let (alloc, most) = (words.alloc(), most_variables(words)?);
        return found(alloc, sweep::<BabyBear<W>, BabyBear<W>>(alloc, most));
    }
    over_itself::<BabyBear<W>>(op, words)
}

/// Over the residues modulo 2^64.
fn residues_of_words<const W: usize>(op: &str, words: &mut Words<'_>) -> Result<String, Fault>
where
    Lanes<WrappingU64<W>, W>: LaneWidth<W>,
    requires { W < 32 }
{
    if op == SWEEP {
        let (alloc, most) = (words.alloc(), most_variables(words)?);
        return found(alloc, sweep::<WrappingU64<W>, WrappingU64<W>>(alloc, most));
    }
    over_itself::<WrappingU64<W>>(op, words)
}

/// The calls on a ring and an extension of it, in the groups of docs/REPLAY.md.
enum Group {
    Mixed,
    Extended,
}

/// Over the residues modulo a prime, with an extension of them. The bound names its field: a call with two
/// types as parameters is more than the prover takes.
fn over_residues<const W: usize, EF: ExtensionField<BabyBear<W>> + SelfAlgebra + Sample + Element>(
    group: Group,
    op: &str,
    words: &mut Words<'_>,
) -> Result<String, Fault>
where
    Lanes<BabyBear<W>, W>: LaneWidth<W>,
    requires { W < 32 }
{
    match group {
        Group::Mixed if op == SWEEP => {
            let (alloc, most) = (words.alloc(), most_variables(words)?);
            found(alloc, sweep::<BabyBear<W>, EF>(alloc, most))
        }
        Group::Mixed => mixed::answer::<BabyBear<W>, EF>(op, words),
        Group::Extended => extended::answer::<BabyBear<W>, EF>(op, words),
    }
}

/// Over the residues modulo a prime, with quartics over them.
fn quartics_over_residues<const W: usize>(
    group: Group,
    op: &str,
    words: &mut Words<'_>,
) -> Result<String, Fault>
where
    Lanes<BabyBear<W>, W>: LaneWidth<W>,
    requires { W < 32 }
{
    over_residues::<W, QuarticExtension<BabyBear<W>>>(group, op, words)
}

/// Over quartics, packed over the residues modulo a prime, or by themselves.
fn quartics<const W: usize>(op: &str, words: &mut Words<'_>) -> Result<String, Fault>
where
    Lanes<BabyBear<W>, W>: LaneWidth<W>,
    requires { W < 32 }
{
    let answer = quartics_over_residues::<W>(Group::Extended, op, words);
    if is_missing(&answer) {
        return quartics_alone::<W>(op, words);
    }
    answer
}

/// Over quartics by themselves.
fn quartics_alone<const W: usize>(op: &str, words: &mut Words<'_>) -> Result<String, Fault> {
    alone::<QuarticExtension<BabyBear<W>>>(op, words)
}

/// Over the residues modulo a prime, with products of `D` copies; of none, the ring of one element.
fn copies<const W: usize, const D: usize>(op: &str, words: &mut Words<'_>) -> Result<String, Fault>
where
    Lanes<BabyBear<W>, W>: LaneWidth<W>,
    requires width { W < 32 }
    requires few { D < 10 }
{
    over_residues::<W, ProductAlgebra<BabyBear<W>, D>>(Group::Mixed, op, words)
}
