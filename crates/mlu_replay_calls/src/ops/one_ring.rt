//! Calls over one ring.
ghost use Rattle.std.specs.Prelude.{◌<◌, ◌^◌, length};

use crate::element::Element;
use crate::lines::{list_word, point_word, table_word, vec_word, word};
use crate::operands::MOST_VARIABLES;
use crate::ops::batches;
use crate::words::Words;
use mlu_replay_lines::fault::{Fault, Reason};
use mlu_ring::{Algebra, Field, PrimeCharacteristicRing, SelfAlgebra};
use multilinear_util::point::Point;
use multilinear_util::point::Successor::{self, RepeatLast, Wrap};
use multilinear_util::poly::Poly;
use std::alloc::{AllocError, Global};

/// The most coordinates of a point that is made of a number.
const MOST_COORDINATES: usize = 1 << 24;

/// The calls on points; the others are handed on.
pub fn answer<F: Field + SelfAlgebra + Element>(
    op: &str,
    words: &mut Words<'_>,
) -> Result<String, Fault> {
    let alloc = words.alloc();
    match op {
        "msb" | "lsb" => {
            let point = words.short_point::<F>()?;
            vec_word(alloc, equality_weights(alloc, op, &point))
        }
        "reversed" => {
            let point = words.point::<F>()?;
            point_word(alloc, point.reversed(alloc))
        }
        "equality_at_vertex" => equality_at_vertex::<F>(words),
        "hypercube" => hypercube::<F>(words),
        "expand_from_univariate" => expand_from_univariate::<F>(words),
        "eval_next" => eval_next::<F>(words),
        "eval_next_by" => eval_next_by::<F>(RepeatLast, words),
        "eval_next_by.wrap" => eval_next_by::<F>(Wrap, words),
        "transpose" => batches::transpose::<F>(words),
        _ => of_table::<F>(op, words),
    }
}

/// The equality weights of the point, by the order of the bits.
fn equality_weights<F: Field>(
    alloc: Global,
    op: &str,
    point: &Point<F>,
) -> Result<Vec<F>, AllocError>
    requires { 2 ^ length point.now < 2 ^ 64 }
{
    match op {
        "msb" => point.equality_weights_msb(alloc),
        _ => point.equality_weights_lsb(alloc),
    }
}

/// The calls that make or grow a table; the others are handed on.
fn of_table<F: SelfAlgebra + Element>(op: &str, words: &mut Words<'_>) -> Result<String, Fault> {
    let alloc = words.alloc();
    match op {
        "new_from_point" => {
            let point = words.short_point::<F>()?;
            let scale = words.element::<F>()?;
            let table = Poly::new_from_point(alloc, point.as_slice(), scale);
            table_word(alloc, table)
        }
        "new_next_from_point" | "new_next_from_point.wrap" => {
            let point = words.short_point::<F>()?;
            table_word(alloc, next_table(alloc, op, point.as_slice()))
        }
        "pad_zeros" => pad_zeros::<F>(words),
        _ => folded_in_place::<F>(op, words),
    }
}

/// The weights at the point, each moved to the next vertex.
fn next_table<F: PrimeCharacteristicRing>(
    alloc: Global,
    op: &str,
    point: &[F],
) -> Result<Poly<F>, AllocError>
    requires { 2 ^ length point.now < 2 ^ 64 }
{
    match op {
        "new_next_from_point" => Poly::new_next_from_point(alloc, point),
        _ => Poly::new_next_from_point_by(alloc, Wrap, point),
    }
}

/// The calls that leave half of a table in its place.
fn folded_in_place<F: SelfAlgebra + Element>(
    op: &str,
    words: &mut Words<'_>,
) -> Result<String, Fault> {
    let alloc = words.alloc();
    match op {
        "fix_prefix_var_mut" => fix_prefix_var_mut::<F, F>(words),
        "fix_suffix_var_mut" | "fix_prefix_var_mut_monomial" => {
            let (mut table, r) = words.larger_table_and_element::<F, F>()?;
            match op {
                "fix_suffix_var_mut" => table.fix_suffix_var_mut(r),
                _ => table.fix_prefix_var_mut_monomial(r),
            }
            list_word(alloc, table.as_slice())
        }
        "sum_prefix_var_mut" => {
            let mut table = words.table::<F>()?;
            table.sum_prefix_var_mut();
            list_word(alloc, table.as_slice())
        }
        "truncate_to_half" => {
            let mut table = words.larger_table::<F>()?;
            table.truncate_to_half();
            list_word(alloc, table.as_slice())
        }
        _ => Err(Fault::Unknown(Reason::Op)),
    }
}

/// `fix_prefix_var_mut`: a table and an element of its ring or of a base of it.
pub fn fix_prefix_var_mut<R: Element, F: PrimeCharacteristicRing + Algebra<R> + Element>(
    words: &mut Words<'_>,
) -> Result<String, Fault> {
    let (mut table, r) = words.larger_table_and_element::<F, R>()?;
    table.fix_prefix_var_mut(r);
    list_word(words.alloc(), table.as_slice())
}

/// `pad_zeros`: a table and the number of variables.
fn pad_zeros<F: PrimeCharacteristicRing + Element>(words: &mut Words<'_>) -> Result<String, Fault> {
    let mut table = words.table::<F>()?;
    let variables = words.number()?;
    if variables > MOST_VARIABLES {
        return Err(Fault::Unknown(Reason::Large));
    }
    if variables < table.num_variables() {
        return Err(Fault::Unknown(Reason::Size));
    }
    table.pad_zeros(variables)?;
    list_word(words.alloc(), table.as_slice())
}

/// `equality_at_vertex`: a point and a vertex.
fn equality_at_vertex<F: Field + Element>(words: &mut Words<'_>) -> Result<String, Fault> {
    let point = words.point::<F>()?;
    let vertex = words.number()?;
    match point.equality_at_vertex(vertex) {
        Some(weight) => word(words.alloc(), weight),
        None => Ok(String::from_str(words.alloc(), "none")?),
    }
}

/// `hypercube`: a vertex and the number of coordinates.
fn hypercube<F: Field + Element>(words: &mut Words<'_>) -> Result<String, Fault> {
    let vertex = words.number()?;
    let variables = words.number()?;
    if variables > MOST_COORDINATES {
        return Err(Fault::Unknown(Reason::Large));
    }
    if variables < usize::BITS as usize && vertex >> variables != 0 {
        return Err(Fault::Unknown(Reason::Size));
    }
    let point = Point::<F>::hypercube(words.alloc(), vertex, variables);
    point_word(words.alloc(), point)
}

/// `expand_from_univariate`: an element and the number of coordinates.
fn expand_from_univariate<F: Field + Element>(words: &mut Words<'_>) -> Result<String, Fault> {
    let y = words.element::<F>()?;
    let variables = words.number()?;
    if variables > MOST_COORDINATES {
        return Err(Fault::Unknown(Reason::Large));
    }
    let point = Point::expand_from_univariate(words.alloc(), y, variables);
    point_word(words.alloc(), point)
}

/// `eval_next`: two points. Answers carry, done and last.
fn eval_next<F: Field + Element>(words: &mut Words<'_>) -> Result<String, Fault> {
    let (point, row) = words.two_lists::<F, F>()?;
    steps_word(words.alloc(), Point::eval_next(&point, &row))
}

/// The words of the three steps.
fn steps_word<T: Element>(alloc: Global, (carry, done, last): (T, T, T)) -> Result<String, Fault> {
    let mut steps = Vec::with_capacity(alloc, 3)?;
    for step in [carry, done, last] {
        steps.push(step).map_err(|_| Fault::Memory)?;
    }
    list_word(alloc, &steps)
}

/// `eval_next_by`: two points.
fn eval_next_by<F: Field + Element>(
    rule: Successor,
    words: &mut Words<'_>,
) -> Result<String, Fault> {
    let (point, row) = words.two_lists::<F, F>()?;
    word(words.alloc(), Point::eval_next_by(rule, &point, &row))
}
