//! The operands of commands, read from their words. All words are counted before one is read, so
//! that a fault of theirs is named whatever memory does.
ghost use Rattle.std.specs.Prelude.{◌≡◌, ◌^◌, MatchOption};
ghost use Rattle.std.specs.Int.{IsPowerOfTwo};
ghost use Rattle.mlu_command.specs.Operands.{IsText, AreTexts, AreTextAndDecimal, AreThreeTexts, IsTable, IsTableOfPoints};
ghost use Rattle.mlu_command.specs.Operands.{IsPointOf, ArePointsOf, HasVariable, IsShort, StandsAlone};
ghost use Rattle.mlu_command.specs.Outcomes.{IsOutcome};

use crate::element::Element;
use crate::fault::Fault;
use crate::words::{count, number, read};
use mlu_ring::log2_strict_usize;
use multilinear_util::point::Point;
use multilinear_util::poly::Poly;
use std::alloc::Global;

/// The number of variables of a table with so many entries, if there is such a table.
fn variables(entries: usize) -> Option<usize>
    ensures { MatchOption result (IsPowerOfTwo entries → ⊥) (λ n. entries ≡ 2 ^ n) }
{
    if entries.is_power_of_two() {
        Some(log2_strict_usize(entries))
    } else {
        None
    }
}

/// A table, and a point with as many coordinates as the table has variables.
///
/// # Errors
/// The first fault: a word that is no text of a list, no power of two of entries, another number of
/// coordinates, want of memory.
pub fn table_and_point(
    alloc: Global,
    table: &str,
    point: &str,
) -> Result<(Poly<Element>, Point<Element>), Fault>
    ensures { IsOutcome (AreTexts table.now point.now) IsTable IsPointOf (λ x both. both ≡ x) result }
{
    let entries = count(table).ok_or(Fault::Number)?;
    let coordinates = count(point).ok_or(Fault::Number)?;
    let variables = variables(entries).ok_or(Fault::Length)?;
    if variables != coordinates {
        return Err(Fault::Arity);
    }
    let table = read(alloc, table, entries)?;
    let point = read(alloc, point, coordinates)?;
    Ok((Poly::new(table), Point::new(point)))
}

/// A table, and two points with as many coordinates as the table has variables.
///
/// # Errors
/// The first fault: a word that is no text of a list, no power of two of entries, another number of
/// coordinates, want of memory.
pub fn table_and_points(
    alloc: Global,
    table: &str,
    first: &str,
    second: &str,
) -> Result<(Poly<Element>, Point<Element>, Point<Element>), Fault>
    ensures { IsOutcome (AreThreeTexts table.now first.now second.now) IsTableOfPoints ArePointsOf (λ x all. all ≡ x) result }
{
    let entries = count(table).ok_or(Fault::Number)?;
    let firsts = count(first).ok_or(Fault::Number)?;
    let seconds = count(second).ok_or(Fault::Number)?;
    let variables = variables(entries).ok_or(Fault::Length)?;
    if variables != firsts {
        return Err(Fault::Arity);
    }
    if variables != seconds {
        return Err(Fault::Arity);
    }
    let table = read(alloc, table, entries)?;
    let first = read(alloc, first, firsts)?;
    let second = read(alloc, second, seconds)?;
    Ok((Poly::new(table), Point::new(first), Point::new(second)))
}

/// A table that has a variable, and a number to put it at.
///
/// # Errors
/// The first fault: a word that is no text of a list or no decimal, no power of two of entries, no
/// variable, want of memory.
pub fn table_and_number(
    alloc: Global,
    table: &str,
    digits: &str,
) -> Result<(Poly<Element>, Element), Fault>
    ensures { IsOutcome (AreTextAndDecimal table.now digits.now) IsTable HasVariable (λ x both. both ≡ x) result }
{
    let entries = count(table).ok_or(Fault::Number)?;
    let number = number(digits).ok_or(Fault::Number)?;
    let variables = variables(entries).ok_or(Fault::Length)?;
    if variables == 0 {
        return Err(Fault::Arity);
    }
    let table = read(alloc, table, entries)?;
    Ok((Poly::new(table), number))
}

/// A point whose vertices can be counted in a `usize`: fewer than 64 coordinates.
///
/// # Errors
/// The first fault: a word that is no text of a list, more coordinates, want of memory.
pub fn short_point(alloc: Global, point: &str) -> Result<Point<Element>, Fault>
    ensures { IsOutcome (IsText point.now) IsShort StandsAlone (λ x read. read ≡ x) result }
{
    let coordinates = count(point).ok_or(Fault::Number)?;
    if coordinates >= usize::BITS as usize {
        return Err(Fault::Length);
    }
    let point = read(alloc, point, coordinates)?;
    Ok(Point::new(point))
}
