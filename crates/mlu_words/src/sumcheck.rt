//! Sumcheck: the whole proof, and its test.
ghost use Rattle.std.specs.Prelude.{◌≡◌, ◌+◌, ◌*◌, ◌/◌, ◌^◌, ◌<◌, ◌↔◌, flat_map, length, IsTrue, IfOk};
ghost use Rattle.std.specs.Mem.{type_size};
ghost use Rattle.mlu_ring.specs.Tables.{weights};
ghost use Rattle.mlu_sumcheck.specs.Rounds.{IsLastClaim};
ghost use Rattle.mlu_words.specs.Calls.{AreClaims, Proves, Verifies, round_elements, triples};
ghost use Rattle.mlu_words.specs.Codings.{element_count, elements_of};
ghost use Rattle.mlu_words.specs.Operands.{ProofOperands, VerifierOperands};
ghost use Rattle.mlu_words.specs.Outcomes.{Tested};

use crate::fault::Fault;
use crate::operands::table_and_point;
use crate::sizes::{are_residues, are_whole, count_of, has_variables, is_one, is_table};
use crate::words::{Words, read, write};
use mlu_point::point::Point;
use mlu_ring::{ExtensionField, Field, PrimeCharacteristicRing, SelfAlgebra};
use mlu_sumcheck::{Transcript, run};
use multilinear_util::poly::Poly;
use multilinear_util::split_eq::SplitEq;
use std::alloc::{AllocError, Global};

/// The elements of a proof: three for each round, and the claims.
#[derive(Drop)]
struct Proof<E> {
    rounds: Vec<E>,
    claims: Vec<E>,
}

/// Tests a table, a point, challenges and the room for rounds and claims.
fn check_run<T: Words>(
    table: &[u32],
    point: &[u32],
    challenges: &[u32],
    rounds: &[u32],
    claims: &[u32],
) -> Result<(), Fault>
    ensures { Tested (ProofOperands T.coding table.now point.now challenges.now rounds.now claims.now) result }
{
    let are_points = are_whole::<T>(point) && are_whole::<T>(challenges);
    if !is_table::<T>(table) || !are_points || !are_whole::<T>(rounds) || !are_whole::<T>(claims) {
        return Err(Fault::Length);
    }
    let variables = count_of::<T>(point);
    if !has_variables(count_of::<T>(table), variables)
        || count_of::<T>(challenges) != variables
        || !are_rounds(count_of::<T>(rounds), variables)
        || !are_claims(count_of::<T>(claims), variables)
    {
        return Err(Fault::Arity);
    }
    if !are_residues(table) || !are_residues(point) || !are_residues(challenges) {
        return Err(Fault::Residue);
    }
    Ok(())
}

/// Whether so many elements are so many rounds.
fn are_rounds(elements: usize, rounds: usize) -> bool
    ensures { IsTrue result ↔ (elements ≡ rounds * 3) }
{
    elements % 3 == 0 && elements / 3 == rounds
}

/// Whether there is one claim more than rounds.
fn are_claims(claims: usize, rounds: usize) -> bool
    ensures { IsTrue result ↔ (claims ≡ rounds + 1) }
{
    claims > 0 && claims - 1 == rounds
}

/// The elements of rounds, one after the other.
fn joined<E: Copy>(alloc: Global, rounds: &[[E; 3]]) -> Result<Vec<E>, AllocError>
    requires { 3 * type_size E.row < 2 ^ 63 }
    ensures { IfOk result (λ elements. elements.items ≡ flat_map (λ round. round) rounds.now) }
{
    let mut elements = Vec::new(alloc);
    for round in rounds {
        elements.extend_from_slice(round)?;
    }
    Ok(elements)
}

/// The elements, three by three.
fn in_rounds<E: Copy>(alloc: Global, elements: &[E]) -> Result<Vec<[E; 3]>, AllocError>
    requires { 3 * type_size E.row < 2 ^ 63 }
    ensures triples { IfOk result (λ rounds. rounds.items ≡ triples elements.now) }
    ensures size { IfOk result (λ rounds. length rounds.items ≡ length elements.now / 3) }
{
    let count = elements.len() / 3;
    let mut rounds = Vec::with_capacity(alloc, count)?;
    for i in 0..count {
        let start = i * 3;
        rounds.push([elements[start], elements[start + 1], elements[start + 2]])?;
    }
    Ok(rounds)
}

/// The proof of a table and the weights of a point. Asks for as many coordinates and challenges as
/// there are variables, and for rounds that fit the address space.
#[tactic(auto, using(multilinear_util::proofs::Splits::half_fits))]
fn prove<F: Field, EF: ExtensionField<F> + SelfAlgebra>(
    alloc: Global,
    table: &Poly<EF>,
    point: &Point<EF>,
    challenges: &[EF],
) -> Result<Proof<EF>, AllocError>
    requires round_fits { 3 * type_size EF.row < 2 ^ 63 }
    requires point { length table.now ≡ 2 ^ length point.now }
    requires challenges { length table.now ≡ 2 ^ length challenges.now }
    ensures rounds { IfOk result (λ proof. proof.rounds.items ≡ round_elements EF.ring (weights EF.ring point.now) table.now challenges.now) }
    ensures claims { IfOk result (λ proof. AreClaims EF.ring (weights EF.ring point.now) table.now challenges.now proof.claims.items) }
    ensures round_elements { IfOk result (λ proof. length proof.rounds.items ≡ length challenges.now * 3) }
    ensures claim_elements { IfOk result (λ proof. length proof.claims.items ≡ length challenges.now + 1) }
{
    // Called for its clauses: the number of entries, and so of weights, fits a `usize`.
    let _entries = table.num_evals();
    let weights = SplitEq::<F, EF>::new_packed(alloc, point, EF::ONE)?;
    let Transcript { rounds, claims } = run(alloc, table, &weights, challenges)?;
    let elements = joined(alloc, rounds.as_slice())?;
    Ok(Proof {
        rounds: elements,
        claims,
    })
}

/// The rounds and the claims of a proof, over a table and the weights of a point.
pub fn sumcheck_run<F: Field, EF: ExtensionField<F> + SelfAlgebra + Words>(
    alloc: Global,
    table: &[u32],
    point: &[u32],
    challenges: &[u32],
    rounds: &mut [u32],
    claims: &mut [u32],
) -> Result<(), Fault>
    requires round_fits { 3 * type_size EF.row < 2 ^ 63 }
    ensures { Proves EF.coding EF.ring table.now point.now challenges.now rounds.old claims.old rounds.new claims.new result }
{
    check_run::<EF>(table, point, challenges, rounds, claims)?;
    let (table, point) = table_and_point::<EF, EF>(alloc, table, point)?;
    let challenges: Vec<EF> = read(alloc, challenges)?;
    let proof = prove::<F, EF>(alloc, &table, &point, challenges.as_slice())?;
    write(proof.rounds.as_slice(), rounds);
    write(proof.claims.as_slice(), claims);
    Ok(())
}

/// Tests a claim, rounds, challenges and the room for a claim.
fn check_verify<T: Words>(
    claim: &[u32],
    rounds: &[u32],
    challenges: &[u32],
    out: &[u32],
) -> Result<(), Fault>
    ensures { Tested (VerifierOperands T.coding claim.now rounds.now challenges.now out.now) result }
{
    if !is_one::<T>(claim)
        || !are_whole::<T>(rounds)
        || !are_whole::<T>(challenges)
        || !is_one::<T>(out)
    {
        return Err(Fault::Length);
    }
    if !are_rounds(count_of::<T>(rounds), count_of::<T>(challenges)) {
        return Err(Fault::Arity);
    }
    if !are_residues(claim) || !are_residues(rounds) || !are_residues(challenges) {
        return Err(Fault::Residue);
    }
    Ok(())
}

/// The last claim, where claims from the first one on fit the rounds and the challenges, and `None`
/// exactly where none do. Asks for as many rounds as challenges.
fn last_claim<R: PrimeCharacteristicRing + Words>(
    alloc: Global,
    claim: R,
    rounds: &[u32],
    challenges: &[u32],
) -> Result<Option<R>, AllocError>
    requires round_fits { 3 * type_size R.row < 2 ^ 63 }
    requires sizes { element_count R.coding rounds.now ≡ element_count R.coding challenges.now * 3 }
    ensures { IfOk result (IsLastClaim R.ring claim (triples (elements_of R.coding rounds.now)) (elements_of R.coding challenges.now)) }
{
    let elements: Vec<R> = read(alloc, rounds)?;
    let rounds = in_rounds(alloc, elements.as_slice())?;
    let challenges: Vec<R> = read(alloc, challenges)?;
    Ok(mlu_sumcheck::verify(claim, rounds.as_slice(), challenges.as_slice()))
}

/// Whether rounds fit a claim at the challenges: the last claim where they do.
pub fn sumcheck_verify<R: PrimeCharacteristicRing + Words>(
    alloc: Global,
    claim: &[u32],
    rounds: &[u32],
    challenges: &[u32],
    out: &mut [u32],
) -> Result<bool, Fault>
    requires round_fits { 3 * type_size R.row < 2 ^ 63 }
    ensures { Verifies R.coding R.ring claim.now rounds.now challenges.now out.old out.new result }
{
    check_verify::<R>(claim, rounds, challenges, out)?;
    let last = last_claim(alloc, R::from_words(claim), rounds, challenges)?;
    match last {
        None => Ok(false),
        Some(last) => {
            last.put(out);
            Ok(true)
        }
    }
}
