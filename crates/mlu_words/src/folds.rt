//! Folds of the first or of the last variable, in place.
ghost use Rattle.std.specs.Prelude.{◌≡◌, ◌<◌, length};
ghost use Rattle.mlu_words.specs.Calls.{Folds, folded};
ghost use Rattle.mlu_words.specs.Operands.{FoldOperands};
ghost use Rattle.mlu_words.specs.Outcomes.{Tested};

use crate::fault::Fault;
use crate::operands::{Variables, table};
use crate::sizes::{are_residues, count_of, is_one, is_table};
use crate::words::{Words, write};
use mlu_ring::SelfAlgebra;
use multilinear_util::poly::Poly;
use std::alloc::Global;

/// Tests a table that has a variable, and an element.
fn check_operands<T: Words>(table: &[u32], r: &[u32]) -> Result<(), Fault>
    ensures { Tested (FoldOperands T.coding table.now r.now) result }
{
    if !is_table::<T>(table) || !is_one::<T>(r) {
        return Err(Fault::Length);
    }
    if count_of::<T>(table) <= 1 {
        return Err(Fault::Arity);
    }
    if !are_residues(table) || !are_residues(r) {
        return Err(Fault::Residue);
    }
    Ok(())
}

/// The table with the variable at `r`. Asks for one.
fn fold<R: SelfAlgebra>(variable: Variables, table: &mut Poly<R>, r: R)
    requires { 1 < length table.old }
    ensures { table.new ≡ folded variable R.ring r table.old }
{
    match variable {
        Variables::First => table.fix_prefix_var_mut(r),
        Variables::Last => table.fix_suffix_var_mut(r),
    }
}

/// The table with its first or its last variable at `r`.
pub fn fix_var_mut<R: SelfAlgebra + Words>(
    alloc: Global,
    variable: Variables,
    words: &mut [u32],
    r: &[u32],
) -> Result<(), Fault>
    ensures { Folds R.coding (folded variable R.ring) r.now words.old words.new result }
{
    check_operands::<R>(words, r)?;
    let mut table = table::<R>(alloc, words)?;
    fold(variable, &mut table, R::from_words(r));
    let half = words.len() / 2;
    write(table.as_slice(), &mut words[..half]);
    Ok(())
}
