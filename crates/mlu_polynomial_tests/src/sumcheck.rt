//! Worked rows, and drawn tables round by round, over any rings.
//!
//! No law of rings says that the elements of a round fit the address space: rows ask it.
ghost use Rattle.std.specs.Prelude.{◌≡◌, ◌*◌, ◌<◌, ◌^◌, IfOk, length, suc};
ghost use Rattle.std.specs.Mem.{type_size};
ghost use Rattle.multilinear_util.specs.Split.{split_entries};

mod drawn;
mod worked;

use crate::rings::Row::Sumcheck;
use crate::rings::{quartics, residues};
use mlu_ring::{ExtensionField, Field, Sample, SelfAlgebra};
use mlu_sumcheck::{Transcript, run};
use multilinear_util::poly::Poly;
use multilinear_util::split_eq::SplitEq;
use std::alloc::{AllocError, Global};
use std::test::Fail;

/// What is tried.
pub enum Row {
    Transcript,
    Rounds,
    FalseClaim,
    Law,
    DrawnTables,
}

/// Whether the row holds.
pub fn holds<F: Field, EF: ExtensionField<F> + SelfAlgebra + Sample>(
    alloc: Global,
    row: Row,
) -> Result<bool, AllocError>
    requires two_rounds_fit { 6 * type_size EF.row < 2 ^ 63 }
{
    match row {
        Row::Transcript => worked::gives_the_transcript::<F, EF>(alloc),
        Row::Rounds => worked::proves_and_binds::<EF>(alloc),
        Row::FalseClaim => Ok(worked::verifies::<EF>()),
        Row::Law => worked::names_the_law::<F, EF>(alloc),
        Row::DrawnTables => drawn::all_sizes_pass::<F, EF>(alloc),
    }
}

/// The proof of the sum of the values times the weights that a call makes.
fn proof<F: Field, EF: ExtensionField<F> + SelfAlgebra>(
    alloc: Global,
    poly: &Poly<EF>,
    weights: Result<SplitEq<F, EF>, AllocError>,
    challenges: &[EF],
) -> Result<Transcript<EF>, AllocError>
    requires values { length poly.now ≡ 2 ^ length challenges.now }
    requires weights { IfOk weights (λ split. length (split_entries EF.ring split) ≡ 2 ^ length challenges.now) }
    ensures rounds { IfOk result (λ transcript. length transcript.rounds.items ≡ length challenges.now) }
    ensures claims { IfOk result (λ transcript. length transcript.claims.items ≡ suc (length challenges.now)) }
{
    run(alloc, poly, &weights?, challenges)
}

#[test]
fn transcript(rt: HostRuntime) -> Result<(), Fail> {
    assert!(rt; residues(rt.alloc(), Sumcheck(Row::Transcript))?);
    assert!(rt; quartics(rt.alloc(), Sumcheck(Row::Transcript))?);
    Ok(())
}

#[test]
fn rounds(rt: HostRuntime) -> Result<(), Fail> {
    assert!(rt; residues(rt.alloc(), Sumcheck(Row::Rounds))?);
    assert!(rt; quartics(rt.alloc(), Sumcheck(Row::Rounds))?);
    Ok(())
}

#[test]
fn claims(rt: HostRuntime) -> Result<(), Fail> {
    assert!(rt; residues(rt.alloc(), Sumcheck(Row::FalseClaim))?);
    assert!(rt; quartics(rt.alloc(), Sumcheck(Row::FalseClaim))?);
    Ok(())
}

#[test]
fn law(rt: HostRuntime) -> Result<(), Fail> {
    assert!(rt; residues(rt.alloc(), Sumcheck(Row::Law))?);
    assert!(rt; quartics(rt.alloc(), Sumcheck(Row::Law))?);
    Ok(())
}

#[test]
fn tables_of_all_sizes(rt: HostRuntime) -> Result<(), Fail> {
    assert!(rt; residues(rt.alloc(), Sumcheck(Row::DrawnTables))?);
    assert!(rt; quartics(rt.alloc(), Sumcheck(Row::DrawnTables))?);
    Ok(())
}
