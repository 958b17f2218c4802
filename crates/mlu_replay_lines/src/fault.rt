//! Why a case has no answer.

ghost use Rattle.std.specs.Prelude.{◌≡◌};
ghost use Rattle.mlu_replay_lines.specs.Faults.{reason_text};
ghost use Rattle.mlu_replay_lines.specs.declared.fault.Fault.TheVariants.{Unknown, Memory};

use std::alloc::AllocError;

/// Why a line is no case that can be answered.
#[derive(Clone, Copy, Debug, PartialEq, Eq)]
pub enum Reason {
    /// The line is no text.
    Text,
    /// There is no equals sign between spaces.
    Equals,
    /// A word is missing.
    Missing,
    /// There are words after the last operand.
    Surplus,
    /// The lane width is none of those that there are.
    Width,
    /// The tag names no rings.
    Tag,
    /// There is no such call at these rings.
    Op,
    /// A word is no element of its ring, or no list of such.
    Element,
    /// A word is no number.
    Number,
    /// A word is none of the two that it can be.
    Choice,
    /// The entries of a table are no power of two.
    Length,
    /// The call does not take operands of these sizes.
    Size,
    /// A table or a point would have more entries than the program makes.
    Large,
}

impl Reason {
    /// The reason in words.
    pub fn text(self) -> &'static str
        ensures { result.now ≡ reason_text self }
    {
        match self {
            Reason::Text => "the line is no UTF-8 text",
            Reason::Equals => "there is no `=` before an answer",
            Reason::Missing => "a word is missing",
            Reason::Surplus => "there are too many words",
            Reason::Width => "the width is none of 1, 2, 4, 8, 16",
            Reason::Tag => "the tag is none of b, m, e, p0, p1, p8, p9, u",
            Reason::Op => "unknown op at this tag",
            Reason::Element => "a word is no element of its ring, nor a list of such",
            Reason::Number => "a word is no decimal below 2^64",
            Reason::Choice => "a word is none of the two that it can be",
            Reason::Length => "the length of a table is no power of two",
            Reason::Size => "the call does not accept these sizes",
            Reason::Large => "a table or a point would have more than 2^24 entries",
        }
    }
}

/// Why there is no answer.
#[derive(Clone, Copy, Debug, PartialEq, Eq)]
pub enum Fault {
    /// The case is at fault.
    Unknown(Reason),
    /// Memory was refused.
    Memory,
}

impl From<Reason> for Fault {
    ghost from_gives = { λ reason fault. fault ≡ Unknown reason };

    fn from(reason: Reason) -> Fault {
        Fault::Unknown(reason)
    }
}

impl From<AllocError> for Fault {
    ghost from_gives = { λ _ fault. fault ≡ Memory };

    fn from(_: AllocError) -> Fault {
        Fault::Memory
    }
}
