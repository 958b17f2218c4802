//! The program `mlu_refusals`: calls that are refused memory.
//!
//! A call is made on inputs that are made for it. Refused, it must have left them as they were; served, it
//! must have given the right answer. Each line of standard input has a number, the file that the call stands in,
//! and its name. The program makes so many other allocations and then the call, and says what became of it;
//! nothing where the inputs were refused. `check.sh` has the same allocation of each run fail, on a line each, so
//! that the number decides which of the call's is refused.
//!
//! Status 1: an outcome is wrong, or a line names no call. 3: memory was refused outside the call. 4: standard
//! input can't be read, or a write failed.
//!
//! Calls stand by their subject, in functions over any rings: `made` builds the inputs, and fails
//! only where these are refused. Then one arm makes the call, and `answers` says whether it is right.
#![tactic(auto)]

mod answers;
mod batches;
mod calls;
mod commands;
mod compressions;
mod evaluations;
mod folds;
mod given;
mod outcome;
mod packings;
mod points;
mod polys;
mod residues;
mod splits;
mod storages;
mod streams;
mod successors;
mod sumchecks;
mod tables;
mod unfailing;
mod weights;

use crate::calls::Call;
use crate::outcome::Outcome;
use crate::residues::residues;
use std::alloc::{AllocError, Global};
use std::io;
use std::process::ExitCode;

/// Makes so many allocations.
fn allocate(alloc: Global, count: usize) -> Result<(), AllocError> {
    for _ in 0..count {
        Vec::<u8>::with_capacity(alloc, 1)?;
    }
    Ok(())
}

/// What becomes of the call. No more than one allocation is refused, so that after a refusal, of its
/// inputs too, the call is made again and has to be served.
///
/// # Errors
/// Where its inputs were refused.
fn tried(alloc: Global, call: Call) -> Result<Outcome, AllocError> {
    let first = residues(alloc, call);
    if matches!(first, Ok(Outcome::Served)) {
        return first;
    }
    match residues(alloc, call) {
        Ok(Outcome::Served) => first,
        _ => Ok(Outcome::Wrong),
    }
}

/// How many other allocations the line asks for, what it asks, and the call that this names.
fn read(line: &str) -> Option<(usize, &str, Call)> {
    let (ahead, asked) = line.split_once(' ')?;
    let (file, name) = asked.split_once(' ')?;
    Some((ahead.parse().ok()?, asked, Call::named(file, name)?))
}

/// Makes the call of the line, and says what became of it; nothing where its inputs were refused. Answers
/// whether that is right: false too where the line names no call.
fn answer(rt: &HostRuntime, line: &str) -> io::Result<bool> {
    let Some((ahead, asked, call)) = read(line) else {
        return Ok(false);
    };
    allocate(rt.alloc(), ahead)?;
    match tried(rt.alloc(), call)? {
        Outcome::Served if call.takes_memory() => println!(rt; "served {asked}")?,
        Outcome::Refused if call.takes_memory() => println!(rt; "refused {asked}")?,
        Outcome::Served => println!(rt; "takes none: {asked}")?,
        _ => return Ok(false),
    }
    Ok(true)
}

/// Makes the calls of all lines, as far as they are right.
fn run(rt: &HostRuntime) -> io::Result<bool> {
    let input = io::read_to_string(rt.alloc(), rt.reader())?;
    for line in input.lines() {
        if !answer(rt, line)? {
            return Ok(false);
        }
    }
    Ok(true)
}

fn main(rt: HostRuntime) -> ExitCode {
    ExitCode::from(match run(&rt) {
        Ok(true) => 0,
        Ok(false) => 1,
        Err(error) if error.kind() == io::ErrorKind::OutOfMemory => 3,
        Err(_) => 4,
    })
}
