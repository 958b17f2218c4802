//! The words of a case, read one by one.
ghost use Rattle.std.specs.Prelude.{◌≡◌, ◌≢◌, None, Some, codes, IsOkAnd, IfOk, IfErr};
ghost use Rattle.mlu_replay_calls.specs.Words.{Takes, IsNumber, IsChoice, words_left};

use crate::decimals::decimal;
use mlu_replay_lines::fault::Reason;
use std::alloc::Global;

/// The words of a case that are still to be read.
#[derive(Drop)]
pub struct Words<'a> {
    alloc: Global,
    rest: Option<&'a str>,
}

impl<'a> Words<'a> {
    /// The words of a text, between single spaces.
    pub fn new(alloc: Global, text: &'a str) -> Self
        ensures { words_left result ≡ Some text.now }
    {
        Words {
            alloc,
            rest: Some(text),
        }
    }

    /// The allocator for operands and answers.
    pub fn alloc(&self) -> Global {
        self.alloc
    }

    /// The next word: what stands before the first space, or all that is left.
    ///
    /// # Errors
    /// Where no word is left.
    pub fn word(&mut self) -> Result<&'a str, Reason>
        ensures { Takes (words_left self.old) (words_left self.new) result (λ word taken. IsOkAnd taken (λ text. text.now ≡ word)) }
    {
        let rest = self.rest.ok_or(Reason::Missing)?;
        match rest.split_once(' ') {
            Some((word, others)) => {
                self.rest = Some(others);
                Ok(word)
            }
            None => {
                self.rest = None;
                Ok(rest)
            }
        }
    }

    /// Tests that all words are read.
    ///
    /// # Errors
    /// Where one is left.
    pub fn end(&self) -> Result<(), Reason>
        ensures done { IfOk result (λ _. words_left self.entry.now ≡ None) }
        ensures surplus { IfErr result (λ reason. (reason ≡ Reason.Surplus) × (words_left self.entry.now ≢ None)) }
    {
        match self.rest {
            Some(_) => Err(Reason::Surplus),
            None => Ok(()),
        }
    }

    /// The number below 2^64 of which the next word is the decimal.
    ///
    /// # Errors
    /// Where it is that of none, or missing.
    pub fn number(&mut self) -> Result<usize, Reason>
        ensures { Takes (words_left self.old) (words_left self.new) result (λ word taken. IsNumber word taken) }
    {
        let word = self.word()?;
        let value = decimal(word).ok_or(Reason::Number)?;
        usize::try_from(value).map_err(|_| Reason::Number)
    }

    /// Which of two words comes: true for the first.
    ///
    /// # Errors
    /// Where it is neither, or missing.
    pub fn choice(&mut self, first: &str, second: &str) -> Result<bool, Reason>
        ensures { Takes (words_left self.old) (words_left self.new) result (λ word taken. IsChoice first.now second.now word taken) }
    {
        let word = self.word()?;
        if word == first {
            Ok(true)
        } else if word == second {
            Ok(false)
        } else {
            Err(Reason::Choice)
        }
    }

    /// As [`Words::choice`], of `true` and `false`.
    pub fn flag(&mut self) -> Result<bool, Reason>
        ensures { Takes (words_left self.old) (words_left self.new) result
            (λ word taken. IsChoice (codes "true") (codes "false") word taken) }
    {
        self.choice("true", "false")
    }

    /// Whether the storage is to be packed: as [`Words::choice`], of `p` and `u`.
    pub fn is_packed(&mut self) -> Result<bool, Reason>
        ensures { Takes (words_left self.old) (words_left self.new) result (λ word taken. IsChoice (codes "p") (codes "u") word taken) }
    {
        self.choice("p", "u")
    }
}
