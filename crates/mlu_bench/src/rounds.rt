//! Sumcheck over the table of the extension and the weights of its point, each call answered by an element of
//! what it gives.
//!
//! No law of rings says that the elements of a round fit the address space: calls that make one
//! ask it.
ghost use Rattle.std.specs.Prelude.{◌≡◌, ◌*◌, ◌<◌, ◌^◌, length};
ghost use Rattle.std.specs.Mem.{type_size};

use crate::calls::{Calls, sum_of_calls};
use crate::case::{Case, Operands, first, is_small};
use crate::splits::split_table;
use mlu_ring::{Additive, ExtensionField, Field, PrimeCharacteristicRing, SelfAlgebra};
use mlu_sumcheck::{bind, prove_round, prove_round_of_claim, run};
use multilinear_util::poly::Poly;
use multilinear_util::split_eq::SplitEq;
use std::alloc::{AllocError, Global};

/// The whole proof: the sum of its claims.
#[derive(Drop)]
struct ProofCalls<'a, F: Field, EF: ExtensionField<F>> {
    case: &'a Case<F, EF>,
    weights: &'a SplitEq<F, EF>,
}

/// The sum of so many proofs, over a split table that is made once.
pub fn sum_of_proofs<F: Field, EF: ExtensionField<F> + SelfAlgebra>(
    alloc: Global,
    case: &Case<F, EF>,
    rounds: usize,
) -> Result<EF, AllocError> {
    let weights = &split_table(alloc, &case.ext.point, EF::ONE, true)?;
    sum_of_calls(alloc, ProofCalls { case, weights }, 0, rounds)
}

/// The sum of the values.
fn sum_of<R: Additive>(values: &[R]) -> R {
    let mut sum = R::ZERO;
    for value in values.iter() {
        sum = sum + *value;
    }
    sum
}

impl<F: Field, EF: ExtensionField<F> + SelfAlgebra> Calls for ProofCalls<'_, F, EF> {
    type Entry = EF;

    fn answer(&mut self, alloc: Global, _: u32) -> Result<EF, AllocError> {
        let (table, challenges) = (&self.case.ext.table, self.case.ext.columns.as_slice());
        let variables = challenges.len();
        if table.num_variables() != variables || self.weights.num_variables() != variables {
            return Err(AllocError);
        }
        let transcript = run(alloc, table, self.weights, challenges)?;
        Ok(sum_of(transcript.claims.as_slice()))
    }
}

/// The sum of the products of both tables, in one pass over them.
fn sum_of_products<R: PrimeCharacteristicRing>(table: &[R], weights: &[R]) -> R {
    let mut sum = R::ZERO;
    for (value, weight) in table.iter().zip(weights.iter()) {
        sum = sum + *weight * *value;
    }
    sum
}

/// The value at the challenge of the round of both tables (4), or of that which adds up to the challenge
/// (5); else zero.
fn round_value<R: SelfAlgebra>(table: &Poly<R>, weights: &Poly<R>, challenge: R, call: u32) -> R
    requires round_fits { 3 * type_size R.row < 2 ^ 63 }
    requires sizes { length table.now ≡ length weights.now }
    requires variable { 1 < length table.now }
{
    let [constant, linear, quadratic] = match call {
        4 => prove_round(table, weights),
        5 => prove_round_of_claim(table, weights, challenge),
        _ => return R::ZERO,
    };
    constant + challenge * (linear + challenge * quadratic)
}

/// The value of a round, and the first entries of both tables, folded (3 to 5) or as they are (2), added up.
fn fold<R: SelfAlgebra>(
    table: &mut Poly<R>,
    weights: &mut Poly<R>,
    challenge: R,
    call: u32,
) -> Result<R, AllocError>
    requires round_fits { 3 * type_size R.row < 2 ^ 63 }
{
    if table.num_evals() != weights.num_evals() || table.num_evals() < 2 {
        return Err(AllocError);
    }
    let sum = round_value(table, weights, challenge, call);
    if call != 2 {
        bind(table, weights, challenge);
    }
    Ok(sum + first(table.as_slice()) + first(weights.as_slice()))
}

/// The same, of copies.
fn fold_copies<R: SelfAlgebra>(
    alloc: Global,
    table: &Poly<R>,
    weights: &Poly<R>,
    challenge: R,
    call: u32,
) -> Result<R, AllocError>
    requires round_fits { 3 * type_size R.row < 2 ^ 63 }
{
    let mut table = table.try_clone(alloc)?;
    let mut weights = weights.try_clone(alloc)?;
    fold(&mut table, &mut weights, challenge, call)
}

/// What the call with this number gives: one pass over both tables (1), copies of both (2), folded (3), and
/// folded after their round (4), or after that of a claim (5).
fn answer<R: SelfAlgebra>(
    alloc: Global,
    table: &Poly<R>,
    weights: &Poly<R>,
    challenge: R,
    call: u32,
) -> Result<R, AllocError>
    requires round_fits { 3 * type_size R.row < 2 ^ 63 }
{
    if call == 1 {
        return Ok(sum_of_products(table.as_slice(), weights.as_slice()));
    }
    fold_copies(alloc, table, weights, challenge, call)
}

/// The sum of what so many calls give, on both tables.
fn sum_of_answers<R: SelfAlgebra>(
    alloc: Global,
    operands: &Operands<R>,
    weights: &Poly<R>,
    call: u32,
    rounds: usize,
) -> Result<R, AllocError>
    requires round_fits { 3 * type_size R.row < 2 ^ 63 }
{
    let challenge = first(operands.columns.as_slice());
    let mut sum = R::ZERO;
    for _ in 0..rounds {
        sum = sum + answer(alloc, &operands.table, weights, challenge, call)?;
    }
    Ok(sum)
}

/// The sum of what so many calls give, on the table and the weights of the point, at the first of the columns.
pub fn sum_of_rounds<R: SelfAlgebra>(
    alloc: Global,
    operands: &Operands<R>,
    call: u32,
    rounds: usize,
) -> Result<R, AllocError>
    requires round_fits { 3 * type_size R.row < 2 ^ 63 }
{
    let point = operands.point.as_slice();
    if !is_small(point) {
        return Err(AllocError);
    }
    let weights = Poly::new_from_point(alloc, point, R::ONE)?;
    sum_of_answers(alloc, operands, &weights, call, rounds)
}
