//! Lines replayed, with a buffer for each stream.
ghost use Rattle.std.specs.Prelude.{◌≡◌, codes};

use crate::outcome::Outcome;
use mlu_replay_lines::fault::Fault;
use mlu_replay_lines::replay::{Answers, replay_streams};
use mlu_replay_lines::stop::Stop;
use std::alloc::Global;
use std::io::{self, Write};

/// One answer to all that is asked.
struct One;

impl Answers for One {
    ghost gives = { λ asked answer. answer ≡ codes "1" };

    fn answer(alloc: Global, _: &str) -> Result<String, Fault> {
        Ok(String::from_str(alloc, "1")?)
    }
}

/// A stream that counts its bytes and keeps none.
#[derive(Drop)]
struct Counted {
    bytes: usize,
}

impl Write for Counted {
    fn write(&mut self, buf: &[u8]) -> io::Result<usize> {
        self.bytes = self.bytes.saturating_add(buf.len());
        Ok(buf.len())
    }

    fn flush(&mut self) -> io::Result<()> {
        Ok(())
    }
}

/// What becomes of a line. Where memory is refused, nothing is written of it.
pub fn made(alloc: Global) -> Outcome {
    let mut out = Counted { bytes: 0 };
    match replay_streams::<One, _, _>(alloc, &b"msb 4 b - = 1\n"[..], &mut out) {
        Ok(tally) if tally.status() == 0 && tally.compared == 1 => Outcome::Served,
        Err(Stop::Memory) if out.bytes == 0 => Outcome::Refused,
        _ => Outcome::Wrong,
    }
}
