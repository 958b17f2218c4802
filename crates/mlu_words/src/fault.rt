//! Refusals and the statuses that tell of them.
ghost use Rattle.std.specs.Prelude.{◌≡◌};
ghost use Rattle.mlu_words.specs.Outcomes.{fault_status, status_of, verdict_of};

use std::alloc::AllocError;

/// Why there is no answer. The first three are tested in this order, and before memory is asked for.
#[derive(Clone, Copy, Debug, PartialEq, Eq)]
pub enum Fault {
    /// An operand has a number of words that it cannot have.
    Length,
    /// The sizes of the operands do not fit one another, or there is no variable to fold.
    Arity,
    /// A word that is read is the modulus or more.
    Residue,
    /// Memory was refused.
    Memory,
}

impl From<AllocError> for Fault {
    ghost use Rattle.std.specs.Prelude.{◌≡◌};
    ghost use Rattle.mlu_words.specs.declared.fault.Fault.TheVariants.{Memory};

    ghost from_gives = { λ _ fault. fault ≡ Memory };

    fn from(_: AllocError) -> Fault {
        Fault::Memory
    }
}

impl Fault {
    /// The number that a caller gets.
    pub fn status(self) -> u32
        ensures { result ≡ fault_status self }
    {
        match self {
            Fault::Length => 1,
            Fault::Arity => 2,
            Fault::Residue => 3,
            Fault::Memory => 4,
        }
    }
}

/// The number that a caller gets: 0 where the call was done.
pub fn status(outcome: Result<(), Fault>) -> u32
    ensures { result ≡ status_of outcome }
{
    match outcome {
        Ok(()) => 0,
        Err(fault) => fault.status(),
    }
}

/// The number that a caller of the verifier gets: 0 where the claims fit, and 5 where none do.
pub fn verdict(outcome: Result<bool, Fault>) -> u32
    ensures { result ≡ verdict_of outcome }
{
    match outcome {
        Ok(true) => 0,
        Ok(false) => 5,
        Err(fault) => fault.status(),
    }
}
