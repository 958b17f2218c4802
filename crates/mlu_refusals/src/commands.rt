//! Answers of the program `mlu` to its words.

use crate::calls::Call::{self, Command, Faulty};
use crate::outcome::Outcome;
use mlu_command::{Fault, answer};
use std::alloc::{AllocError, Global};

/// The answer to the command with this name.
pub fn named(name: &str) -> Option<Call> {
    Some(match name {
        "eval" => Command("eval 1,2,3,4 2,3", "8\n"),
        "next" => Command("next 1,2,3,4 2,3", "3\n"),
        "msb" => Command("msb 2,3", "2,2013265918,2013265917,6\n"),
        "lsb" => Command("lsb 2,3", "2,2013265917,2013265918,6\n"),
        "fold-first" => Command("fold-first 1,2,3,4 2", "5,6\n"),
        "fold-last" => Command("fold-last 1,2,3,4 2", "3,5\n"),
        "routes" => Command("routes 1,2,3,4,5,6,7,8 2,3,5", "20\n20\n20\n20\n"),
        "sumcheck" => Command("sumcheck 3,4 2 5", "2013265918,8,3\n112\n"),
        "usage" => Faulty("eval 1,2", Fault::Usage),
        "number" => Faulty("eval 1,02 3", Fault::Number),
        "length" => Faulty("eval 1,2,3 2", Fault::Length),
        "arity" => Faulty("eval 1,2 2,3", Fault::Arity),
        _ => return None,
    })
}

/// The words of a command line.
fn words(alloc: Global, line: &str) -> Result<Vec<String>, AllocError> {
    let mut words = Vec::new(alloc);
    for word in line.split(' ') {
        words.push(String::from_str(alloc, word)?)?;
    }
    Ok(words)
}

/// What becomes of the answer to a command line, which is to be the text. Fails where its words are
/// refused.
pub fn made(alloc: Global, line: &str, text: &str) -> Result<Outcome, AllocError> {
    let words = words(alloc, line)?;
    Ok(match answer(alloc, &words) {
        Ok(bytes) if bytes.as_slice() == text.as_bytes() => Outcome::Served,
        Err(Fault::Memory) => Outcome::Refused,
        _ => Outcome::Wrong,
    })
}

/// What becomes of the answer to a command line, which is to be the fault of its words whichever allocation
/// is refused. Fails where its words are refused.
pub fn made_faulty(alloc: Global, line: &str, fault: Fault) -> Result<Outcome, AllocError> {
    let words = words(alloc, line)?;
    Ok(match answer(alloc, &words) {
        Err(told) if told == fault => Outcome::Served,
        _ => Outcome::Wrong,
    })
}
