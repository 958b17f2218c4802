//! Why the program stops before the end of its input.

ghost use Rattle.std.specs.Prelude.{◌≡◌};
ghost use Rattle.mlu_replay_lines.specs.Counts.{stop_status};
ghost use Rattle.mlu_replay_lines.specs.declared.stop.Stop.TheVariants.{Memory};

use std::alloc::AllocError;

/// Why the program ends before its input does.
#[derive(Clone, Copy, Debug, PartialEq, Eq)]
pub enum Stop {
    /// The input cannot be read, or has more lines than can be counted.
    Read,
    /// Memory was refused.
    Memory,
    /// A write failed.
    Write,
}

impl Stop {
    /// The status that the program ends with.
    pub fn status(self) -> u8
        ensures { result ≡ stop_status self }
    {
        match self {
            Stop::Read => 2,
            Stop::Memory => 3,
            Stop::Write => 4,
        }
    }
}

impl From<AllocError> for Stop {
    ghost from_gives = { λ _ stop. stop ≡ Memory };

    fn from(_: AllocError) -> Stop {
        Stop::Memory
    }
}
