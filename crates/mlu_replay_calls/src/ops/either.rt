//! Calls on operands in a ring and in an extension of it, which may be the ring itself.

use crate::element::Element;
use crate::lines::{table_word, word};
use crate::ops::one_ring;
use crate::words::Words;
use mlu_replay_lines::fault::{Fault, Reason};
use mlu_ring::{Algebra, ExtensionField, Field, SelfAlgebra};
use multilinear_util::point::Point;

/// These calls; the others are handed on to those over the extension alone.
pub fn answer<F: Field + Element, EF: ExtensionField<F> + SelfAlgebra + Element>(
    op: &str,
    words: &mut Words<'_>,
) -> Result<String, Fault> {
    let alloc = words.alloc();
    match op {
        "eval_eq" => {
            let (p, q) = words.two_lists::<F, EF>()?;
            word(alloc, Point::eval_eq(&p, &q))
        }
        "eval_select" => {
            let var = words.element::<F>()?;
            let point = words.list::<EF>()?;
            word(alloc, Point::eval_select(var, &point))
        }
        "fix_prefix_var" | "fix_suffix_var" => fixed::<F, EF>(op, words),
        "fix_prefix_var_at" => fix_prefix_var_at::<F, EF>(words),
        _ => one_ring::answer::<EF>(op, words),
    }
}

/// `fix_prefix_var`, `fix_suffix_var`: a table and an element.
fn fixed<F: Element, EF: Algebra<F> + Element>(
    op: &str,
    words: &mut Words<'_>,
) -> Result<String, Fault> {
    let alloc = words.alloc();
    let (table, r) = words.larger_table_and_element::<F, EF>()?;
    let fixed = match op {
        "fix_prefix_var" => table.fix_prefix_var(alloc, r),
        _ => table.fix_suffix_var(alloc, r),
    };
    table_word(alloc, fixed)
}

/// `fix_prefix_var_at`: a table, an element and an index.
fn fix_prefix_var_at<F: Element, EF: Algebra<F> + Element>(
    words: &mut Words<'_>,
) -> Result<String, Fault> {
    let (table, r) = words.table_and_element::<F, EF>()?;
    let index = words.number()?;
    if index >= table.num_evals() / 2 {
        return Err(Fault::Unknown(Reason::Size));
    }
    word(words.alloc(), table.fix_prefix_var_at(r, index))
}
