//! The program `mlu`: multilinear polynomials over the integers modulo 2013265921, from words.
//!
//! [`mlu_command`] is the whole program but for the words, which come from its arguments, and the
//! streams.
#![tactic(auto)]

ghost use Rattle.std.specs.Prelude.{◌≡◌, Err, OnErr, IfOk, map, string_bytes};
ghost use Rattle.mlu_command.specs.Commands.{AnswersWords};

use mlu_command::Fault;
use mlu_command::emit::emit;
use std::alloc::Global;
use std::process::ExitCode;
use std::{env, io};

/// The words after the program's name.
fn arguments(rt: &HostRuntime) -> io::Result<Vec<String>> {
    let words = env::args(rt)?.skip(1).collect(rt.alloc())?;
    Ok(words)
}

/// The answer to the words, or want of memory where they cannot be had.
fn answer(alloc: Global, words: io::Result<Vec<String>>) -> Result<Vec<u8>, Fault>
    ensures words { IfOk words (λ words. AnswersWords (map string_bytes words.items) result) }
    ensures none { OnErr words (result ≡ Err Fault.Memory) }
{
    let words = words.map_err(|_| Fault::Memory)?;
    mlu_command::answer(alloc, &words)
}

fn main(rt: HostRuntime) -> ExitCode {
    let answer = answer(rt.alloc(), arguments(&rt));
    ExitCode::from(emit(answer, &mut rt.stdout(), &mut rt.stderr()))
}
