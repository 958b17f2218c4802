//! The operands of a case, read from its words.
//!
//! What a call asks of the sizes of its operands is tested here or before the call. Each takes its
//! words, and fails with a reason where one is missing, stands for nothing of the kind, or the sizes
//! are others, and where memory is refused.
ghost use Rattle.std.specs.Prelude.{◌≡◌, ◌^◌, ◌<◌, ◌≤◌, length, IfOk};
ghost use Rattle.mlu_replay_calls.specs.Elements.{IsElement, IsListWord, IsScale};
ghost use Rattle.mlu_replay_calls.specs.Words.{IsTaken, Takes, words_left};

use crate::element::Element;
use crate::lines::NONE;
use crate::words::Words;
use mlu_replay_lines::fault::{Fault, Reason};
use multilinear_util::point::Point;
use multilinear_util::poly::Poly;
use std::alloc::Global;

/// The most variables of a table that the program makes from a point or a number.
pub const MOST_VARIABLES: usize = 24;

impl Words<'_> {
    /// An element.
    pub fn element<T: Element>(&mut self) -> Result<T, Reason>
        ensures { Takes (words_left self.old) (words_left self.new) result (λ word taken. IsElement T.stands word taken) }
    {
        let word = self.word()?;
        T::read(word).ok_or(Reason::Element)
    }

    /// A scale, if there is one.
    pub fn scale<T: Element>(&mut self) -> Result<Option<T>, Reason>
        ensures { Takes (words_left self.old) (words_left self.new) result (λ word taken. IsScale T.stands word taken) }
    {
        let word = self.word()?;
        if word == "none" {
            return Ok(None);
        }
        T::read(word).map(Some).ok_or(Reason::Element)
    }

    /// A list.
    pub fn list<T: Element>(&mut self) -> Result<Vec<T>, Fault>
        ensures { IfOk result (λ list. IsTaken (words_left self.old) (words_left self.new) (λ word. IsListWord T.stands word list.items)) }
    {
        let word = self.word()?;
        read_list(self.alloc(), word)
    }

    /// Two lists of the same length.
    pub fn two_lists<A: Element, B: Element>(&mut self) -> Result<(Vec<A>, Vec<B>), Fault>
        ensures { IfOk result (λ x. length x.0.items ≡ length x.1.items) }
    {
        let first = self.list()?;
        let second: Vec<B> = self.list()?;
        if first.len() != second.len() {
            return Err(Fault::Unknown(Reason::Size));
        }
        Ok((first, second))
    }

    /// A table.
    pub fn table<T: Element>(&mut self) -> Result<Poly<T>, Fault>
        ensures { IfOk result (λ table. IsTaken (words_left self.old) (words_left self.new) (λ word. IsListWord T.stands word table)) }
    {
        let evals = self.list()?;
        if !evals.len().is_power_of_two() {
            return Err(Fault::Unknown(Reason::Length));
        }
        Ok(Poly::new(evals))
    }

    /// A table with at least one variable.
    pub fn larger_table<T: Element>(&mut self) -> Result<Poly<T>, Fault>
        ensures word { IfOk result (λ table. IsTaken (words_left self.old) (words_left self.new) (λ word. IsListWord T.stands word table)) }
        ensures size { IfOk result (λ table. 1 < length table) }
    {
        let table = self.table()?;
        if table.num_evals() < 2 {
            return Err(Fault::Unknown(Reason::Size));
        }
        Ok(table)
    }

    /// A table and an element.
    pub fn table_and_element<A: Element, B: Element>(&mut self) -> Result<(Poly<A>, B), Fault> {
        let table = self.table()?;
        let element = self.element()?;
        Ok((table, element))
    }

    /// A table with at least one variable, and an element.
    pub fn larger_table_and_element<A: Element, B: Element>(
        &mut self,
    ) -> Result<(Poly<A>, B), Fault>
        ensures { IfOk result (λ x. 1 < length x.0) }
    {
        let table = self.larger_table()?;
        let element = self.element()?;
        Ok((table, element))
    }

    /// Three elements.
    pub fn three_elements<T: Element>(&mut self) -> Result<(T, T, T), Fault> {
        let first = self.element()?;
        let second = self.element()?;
        let third = self.element()?;
        Ok((first, second, third))
    }

    /// A point.
    pub fn point<T: Element>(&mut self) -> Result<Point<T>, Fault>
        ensures { IfOk result (λ point. IsTaken (words_left self.old) (words_left self.new) (λ word. IsListWord T.stands word point)) }
    {
        Ok(Point::new(self.list()?))
    }

    /// A point whose table is made.
    pub fn short_point<T: Element>(&mut self) -> Result<Point<T>, Fault>
        ensures word { IfOk result (λ point. IsTaken (words_left self.old) (words_left self.new) (λ word. IsListWord T.stands word point)) }
        ensures size { IfOk result (λ point. 2 ^ length point < 2 ^ 64) }
    {
        let point = self.point()?;
        if point.num_variables() > MOST_VARIABLES {
            return Err(Fault::Unknown(Reason::Large));
        }
        Ok(point)
    }

    /// A list of points.
    pub fn points<T: Element>(&mut self) -> Result<Vec<Point<T>>, Fault> {
        let word = self.word()?;
        let mut points = Vec::new(self.alloc());
        if word == "." {
            return Ok(points);
        }
        for piece in word.split(';') {
            let coordinates = read_list(self.alloc(), piece)?;
            points
                .push(Point::new(coordinates))
                .map_err(|_| Fault::Memory)?;
        }
        Ok(points)
    }

    /// A table and a point with as many coordinates as it has variables.
    pub fn table_and_point<A: Element, B: Element>(&mut self) -> Result<(Poly<A>, Point<B>), Fault>
        ensures { IfOk result (λ x. length x.0 ≡ 2 ^ length x.1) }
    {
        let table = self.table()?;
        let point: Point<B> = self.point()?;
        if table.num_variables() != point.num_variables() {
            return Err(Fault::Unknown(Reason::Size));
        }
        Ok((table, point))
    }

    /// A table and a point with at most as many coordinates as it has variables.
    #[tactic(auto, using(crate::proofs::Powers::part_within))]
    pub fn table_and_part<A: Element, B: Element>(&mut self) -> Result<(Poly<A>, Point<B>), Fault>
        ensures { IfOk result (λ x. 2 ^ length x.1 ≤ length x.0) }
    {
        let table = self.table()?;
        let point: Point<B> = self.point()?;
        if table.num_variables() < point.num_variables() {
            return Err(Fault::Unknown(Reason::Size));
        }
        Ok((table, point))
    }

    /// A table, a point with at most as many coordinates as it has variables, and an element.
    pub fn table_part_and_scale<A: Element, B: Element>(
        &mut self,
    ) -> Result<(Poly<A>, Point<B>, B), Fault>
        ensures { IfOk result (λ x. 2 ^ length x.1 ≤ length x.0) }
    {
        let (table, point) = self.table_and_part()?;
        let scale = self.element()?;
        Ok((table, point, scale))
    }
}

/// The list that the word stands for.
fn read_list<T: Element>(alloc: Global, word: &str) -> Result<Vec<T>, Fault>
    ensures { IfOk result (λ list. IsListWord T.stands word.now list.items) }
{
    let mut list = Vec::new(alloc);
    if word == NONE {
        return Ok(list);
    }
    for piece in word.split(',') {
        let element = T::read(piece).ok_or(Reason::Element)?;
        list.push(element).map_err(|_| Fault::Memory)?;
    }
    Ok(list)
}
