//! Faults, their texts and statuses.
ghost use Rattle.std.specs.Prelude.{◌≡◌};
ghost use Rattle.mlu_command.specs.Faults.{fault_text, fault_status};

use std::alloc::AllocError;

/// Why there is no answer. The first four are faults of the words, and tested in this order.
#[derive(Clone, Copy, Debug, PartialEq, Eq)]
pub enum Fault {
    /// An unknown command, or a wrong number of words.
    Usage,
    /// A word that should be a list, or one number, is not.
    Number,
    /// The number of entries is no power of two, or a table would have too many.
    Length,
    /// The number of coordinates or challenges is not that of the variables, or there is no variable to
    /// fold.
    Arity,
    /// Memory was refused.
    Memory,
}

impl From<AllocError> for Fault {
    ghost use Rattle.std.specs.Prelude.{◌≡◌};
    ghost use Rattle.mlu_command.specs.declared.fault.Fault.TheVariants.{Memory};

    ghost from_gives = { λ _ fault. fault ≡ Memory };

    fn from(_: AllocError) -> Fault {
        Fault::Memory
    }
}

impl Fault {
    /// The text for standard error, with its line feed.
    pub fn text(self) -> &'static str
        ensures { result.now ≡ fault_text self }
    {
        match self {
            Fault::Usage => "mlu: usage\n",
            Fault::Number => "mlu: number\n",
            Fault::Length => "mlu: length\n",
            Fault::Arity => "mlu: arity\n",
            Fault::Memory => "mlu: memory\n",
        }
    }

    /// The status that the program ends with: 3 for [`Fault::Memory`], 2 for the others.
    pub fn status(self) -> u8
        ensures { result ≡ fault_status self }
    {
        match self {
            Fault::Memory => 3,
            _ => 2,
        }
    }
}
