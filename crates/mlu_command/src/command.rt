//! What the program answers to its words.
ghost use Rattle.std.specs.Prelude.{map, string_bytes};
ghost use Rattle.mlu_command.specs.Commands.{Eval, Next, Msb, Lsb, FoldFirst, FoldLast, Routes, Sumcheck, Answers, AnswersWords};

use crate::fault::Fault;
use crate::operands::{short_point, table_and_number, table_and_point, table_and_points};
use crate::proof::proof;
use crate::routes::by_each;
use crate::words::{line, lines, proof_lines};
use std::alloc::Global;

/// The value of a table at a point.
fn eval(alloc: Global, table: &str, point: &str) -> Result<Vec<u8>, Fault>
    ensures { Answers (Eval table.now point.now) result }
{
    let (table, point) = table_and_point(alloc, table, point)?;
    let value = table.eval_base(alloc, &point)?;
    Ok(line(alloc, &[value])?)
}

/// The sum of the weight at a point of each vertex times the table's value at the next one.
fn next(alloc: Global, table: &str, point: &str) -> Result<Vec<u8>, Fault>
    ensures { Answers (Next table.now point.now) result }
{
    let (table, point) = table_and_point(alloc, table, point)?;
    let value = table.eval_next_base(alloc, &point)?;
    Ok(line(alloc, &[value])?)
}

/// The weights of the vertices, where coordinate 0 reads the highest bit of an index.
fn msb(alloc: Global, point: &str) -> Result<Vec<u8>, Fault>
    ensures { Answers (Msb point.now) result }
{
    let point = short_point(alloc, point)?;
    let weights = point.equality_weights_msb(alloc)?;
    Ok(line(alloc, &weights)?)
}

/// The weights of the vertices, where coordinate 0 reads the lowest bit of an index.
fn lsb(alloc: Global, point: &str) -> Result<Vec<u8>, Fault>
    ensures { Answers (Lsb point.now) result }
{
    let point = short_point(alloc, point)?;
    let weights = point.equality_weights_lsb(alloc)?;
    Ok(line(alloc, &weights)?)
}

/// The table with its first variable at a number.
fn fold_first(alloc: Global, table: &str, number: &str) -> Result<Vec<u8>, Fault>
    ensures { Answers (FoldFirst table.now number.now) result }
{
    let (table, number) = table_and_number(alloc, table, number)?;
    let folded = table.fix_prefix_var(alloc, number)?;
    Ok(line(alloc, folded.as_slice())?)
}

/// The table with its last variable at a number.
fn fold_last(alloc: Global, table: &str, number: &str) -> Result<Vec<u8>, Fault>
    ensures { Answers (FoldLast table.now number.now) result }
{
    let (table, number) = table_and_number(alloc, table, number)?;
    let folded = table.fix_suffix_var(alloc, number)?;
    Ok(line(alloc, folded.as_slice())?)
}

/// The value of a table at a point by four routes, a line each.
fn routes(alloc: Global, table: &str, point: &str) -> Result<Vec<u8>, Fault>
    ensures { Answers (Routes table.now point.now) result }
{
    let (table, point) = table_and_point(alloc, table, point)?;
    let (direct, by_scalars, by_lanes, packed) = by_each(alloc, table, &point)?;
    Ok(lines(alloc, &[direct, by_scalars, by_lanes, packed])?)
}

/// The rounds of sumcheck over a table and the weights of a point, a line each, and the last claim.
fn sumcheck(alloc: Global, table: &str, point: &str, challenges: &str) -> Result<Vec<u8>, Fault>
    ensures { Answers (Sumcheck table.now point.now challenges.now) result }
{
    let (table, point, challenges) = table_and_points(alloc, table, point, challenges)?;
    let (rounds, last) = proof(alloc, &table, &point, challenges.as_slice())?;
    Ok(proof_lines(alloc, rounds, last)?)
}

/// The lines that answer the words after the program's name, or the first fault of the words.
///
/// # Errors
/// The faults of the words, whatever memory does; where they have none, want of memory.
pub fn answer(alloc: Global, words: &[String]) -> Result<Vec<u8>, Fault>
    ensures { AnswersWords (map string_bytes words.now) result }
{
    match words {
        [name, point] => match name.as_str() {
            "msb" => msb(alloc, point.as_str()),
            "lsb" => lsb(alloc, point.as_str()),
            _ => Err(Fault::Usage),
        },
        [name, table, operand] => match name.as_str() {
            "eval" => eval(alloc, table.as_str(), operand.as_str()),
            "next" => next(alloc, table.as_str(), operand.as_str()),
            "fold-first" => fold_first(alloc, table.as_str(), operand.as_str()),
            "fold-last" => fold_last(alloc, table.as_str(), operand.as_str()),
            "routes" => routes(alloc, table.as_str(), operand.as_str()),
            _ => Err(Fault::Usage),
        },
        [name, table, point, challenges] => match name.as_str() {
            "sumcheck" => sumcheck(alloc, table.as_str(), point.as_str(), challenges.as_str()),
            _ => Err(Fault::Usage),
        },
        _ => Err(Fault::Usage),
    }
}
