//! The program `mlu_replay`: answers of another implementation, compared with this library's.
//!
//! Standard input holds a case a line, as `docs/REPLAY.md` says. Each is answered by the public
//! call that it names, at its rings and lane width. A line of output names each case whose answer
//! differs, and each that can't be read; the last one counts them.
//!
//! [`mlu_replay_lines::replay::replay_streams`] is the whole program but for the answers.
#![tactic(auto)]

ghost use Rattle.std.specs.Prelude.{⊤};

use mlu_replay_lines::fault::Fault;
use mlu_replay_lines::replay::{Answers, replay_streams};
use mlu_replay_rings::answer;
use std::alloc::Global;
use std::process::ExitCode;

/// This library's answers.
struct Library;

impl Answers for Library {
    ghost gives = { λ asked answer. ⊤ };

    fn answer(alloc: Global, asked: &str) -> Result<String, Fault> {
        answer(alloc, asked)
    }
}

fn main(rt: HostRuntime) -> ExitCode {
    let replayed = replay_streams::<Library, _, _>(rt.alloc(), rt.reader(), rt.stdout());
    ExitCode::from(match replayed {
        Ok(tally) => tally.status(),
        Err(stop) => stop.status(),
    })
}
