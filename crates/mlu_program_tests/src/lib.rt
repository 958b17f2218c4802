//! Tests of what both programs stand on, `mlu_command` and `mlu_replay_lines`, from outside.
//!
//! A crate of its own, so that these two are proved once; nothing stands on it.
#![tactic(auto)]

#[cfg(test)]
mod command;
#[cfg(test)]
mod replay;
