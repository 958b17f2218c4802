//! A proof by sumcheck.
ghost use Rattle.std.specs.Prelude.{◌≡◌, ◌^◌, length, IfOk};
ghost use Rattle.mlu_ring.specs.Tables.{weights};
ghost use Rattle.mlu_sumcheck.specs.Rounds.{rounds_of, product_of_values};

use mlu_ring::{Additive, ExtensionField, SelfAlgebra};
use mlu_sumcheck::{Transcript, run};
use multilinear_util::point::Point;
use multilinear_util::poly::Poly;
use multilinear_util::split_eq::SplitEq;
use std::alloc::{AllocError, Global};

/// The rounds over a table and the weights of a point, and the last claim. Asks for a point and
/// challenges with as many coordinates as there are variables.
///
/// # Errors
/// Where memory is refused.
#[tactic(auto, using(multilinear_util::proofs::Splits::half_fits))]
pub fn proof<R: ExtensionField<R> + SelfAlgebra>(
    alloc: Global,
    table: &Poly<R>,
    point: &Point<R>,
    challenges: &[R],
) -> Result<(Vec<[R; 3]>, R), AllocError>
    requires point { length table.now ≡ 2 ^ length point.now }
    requires challenges { length table.now ≡ 2 ^ length challenges.now }
    ensures rounds { IfOk result (λ both. both.0.items ≡ rounds_of R.ring (weights R.ring point.now) table.now challenges.now) }
    ensures last { IfOk result (λ both. both.1 ≡ product_of_values R.ring (weights R.ring point.now) table.now challenges.now) }
{
    // Called for its clauses: the number of entries, and so of weights, fits a `usize`.
    let _entries = table.num_evals();
    let split = SplitEq::<R, R>::new_unpacked(alloc, point, R::ONE)?;
    let Transcript { rounds, claims } = run(alloc, table, &split, challenges)?;
    let last = claims[challenges.len()];
    Ok((rounds, last))
}
