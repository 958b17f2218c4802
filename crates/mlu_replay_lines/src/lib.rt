//! Cases answered line by line, what is written of them, and their count.
//!
//! Whatever [`Answers`](replay::Answers) answers them. Stands on no crate; `mlu_replay_calls` stands on it
//! for the faults of a case, and the program `mlu_replay` is this with the answers of the library.
#![tactic(auto)]

pub mod fault;
pub mod replay;
pub mod stop;
