//! Recorded answers of calls: their words read, the calls made, and their answers written.
//!
//! [`ops`] has each call once, over any rings and any width; what a call asks of the sizes of its
//! operands is tested before it is made. docs/REPLAY.md has the words.
//!
//! Stands on the crates up to `multilinear_util`, and on `mlu_replay_lines` for the faults of a case;
//! `mlu_replay_rings` names the rings and the widths.
#![tactic(auto)]

mod decimals;
pub mod element;
mod lines;
mod operands;
pub mod ops;
mod sizes;
mod splits;
pub mod words;
