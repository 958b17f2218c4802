//! The examples of the README and of docs/layers.
ghost use Rattle.std.specs.Prelude.{◌*◌, ◌<◌, ◌^◌};
ghost use Rattle.std.specs.Mem.{type_size};

use crate::rings::Row::BatchInChunks;
use crate::rings::residues;
use mlu_eq::{eval_base, fold_prefix_in_place};
use mlu_ext::QuarticExtension;
use mlu_lanes::{BabyBear, Lanes};
use mlu_ring::{
    Additive, Counter, ExtensionField, Field, PackedValue, PrimeCharacteristicRing,
    RowMajorMatrixView,
};
use mlu_sumcheck::{bind, prove_round, prove_round_of_claim, verify_round};
use mlu_test_support::numbers::element;
use multilinear_util::eq_batch::{eval_eq_batch, eval_eq_batch_in_chunks};
use multilinear_util::laws;
use multilinear_util::point::{BitOrder, Point};
use multilinear_util::poly::Poly;
use multilinear_util::split_eq::SplitEq;
use std::alloc::{AllocError, Global};
use std::test::Fail;

#[test]
fn rings_and_lanes(rt: HostRuntime) {
    let two = BabyBear::<4>::from_u32(2);
    let lanes = Lanes::from_array([1, 2, 3, 4].map(BabyBear::<4>::from_u32));
    let doubled = BabyBear::lanes_scale(lanes, two);
    assert_eq!(rt; doubled.lane(3).as_canonical_u32(), 8);
    let sum = BabyBear::four_products(&(two, two, two, two), &(two, two, two, two));
    assert_eq!(rt; sum.as_canonical_u32(), 16);
    assert_eq!(rt; (BabyBear::<4>::NEG_ONE + two).as_canonical_u32(), 1);
}

#[test]
fn extensions(rt: HostRuntime) {
    let [zero, one] = [0, 1].map(BabyBear::<4>::from_u32);
    let x = QuarticExtension::new(zero, one, zero, zero);
    let fourth_power = x.square().square();
    assert_eq!(rt; fourth_power.c0.as_canonical_u32(), 11);
}

#[test]
fn points_and_tables(rt: HostRuntime) -> Result<(), Fail> {
    let coordinates = [2, 3].map(BabyBear::<4>::from_u32);
    let point = Point::new(Vec::from_slice(rt.alloc(), &coordinates)?);
    assert_eq!(rt; point.num_variables(), 2);
    let table = point.equality_weights_msb(rt.alloc())?;
    assert_eq!(rt; table.last(), Some(&BabyBear::from_u32(6)));
    let mut meter = Counter::new();
    let in_chunks = point.equality_weights_metered(rt.alloc(), BitOrder::Msb, 1, &mut meter)?;
    assert_eq!(rt; in_chunks.last(), table.last());
    assert_eq!(rt; meter.made(), 3);
    Ok(())
}

#[test]
fn batches(rt: HostRuntime) -> Result<(), Fail> {
    let points = [1, 0, 1, 0, 1, 1].map(BabyBear::<4>::from_u32);
    let scalars = [2, 3, 5].map(BabyBear::<4>::from_u32);
    let mut out = [BabyBear::<4>::ZERO; 4];
    let columns = RowMajorMatrixView::new(&points, 3);
    eval_eq_batch::<BabyBear<4>, _, false>(rt.alloc(), columns, &mut out, &scalars)?;
    assert!(rt; out == [0, 3, 2, 5].map(BabyBear::from_u32));
    assert!(rt; residues(rt.alloc(), BatchInChunks)?);
    Ok(())
}

/// Whether the table of the point (2, 3), added in two chunks, makes 7 of the last 1.
pub fn adds_in_chunks<F: Field, EF: ExtensionField<F>>(alloc: Global) -> Result<bool, AllocError>
    requires four_fit { 4 * type_size EF.row < 2 ^ 63 }
{
    let point = [element::<EF>(2), element(3)];
    let mut out = [EF::ONE; 4];
    let column = RowMajorMatrixView::new_col(&point);
    eval_eq_batch_in_chunks::<F, EF, true>(alloc, column, &mut out, &[EF::ONE], 1)?;
    Ok(out.as_slice().last() == Some(&element(7)))
}

#[test]
fn tables_as_slices(rt: HostRuntime) {
    let mut table = [1, 2, 3, 4].map(BabyBear::<4>::from_u32);
    let point = [2, 3].map(BabyBear::<4>::from_u32);
    laws::affine(&table);
    assert_eq!(rt; eval_base(&table, &point).as_canonical_u32(), 8);
    fold_prefix_in_place(&mut table, point[0]);
    assert!(rt; table.starts_with(&[5, 6].map(BabyBear::from_u32)));
}

#[test]
fn polynomials(rt: HostRuntime) -> Result<(), Fail> {
    let entries = [1, 2, 3, 4].map(BabyBear::<4>::from_u32);
    let evals = Vec::from_slice(rt.alloc(), &entries)?;
    assert!(rt; evals.len().is_power_of_two());
    let mut poly = Poly::new(evals);
    let coordinates = [2, 3].map(BabyBear::<4>::from_u32);
    let point = Point::new(Vec::from_slice(rt.alloc(), &coordinates)?);
    assert_eq!(rt; poly.eval_base(rt.alloc(), &point)?.as_canonical_u32(), 8);
    poly.fix_prefix_var_mut(coordinates[0]);
    assert!(rt; poly.as_slice() == [5, 6].map(BabyBear::from_u32).as_slice());
    Ok(())
}

#[test]
fn split_tables(rt: HostRuntime) -> Result<(), Fail> {
    let entries = [1, 2, 3, 4].map(BabyBear::<4>::from_u32);
    let evals = Vec::from_slice(rt.alloc(), &entries)?;
    assert!(rt; evals.len().is_power_of_two());
    let poly = Poly::new(evals);
    let [two, three, five] = [2, 3, 5].map(BabyBear::<4>::from_u32);
    let first = Point::new(Vec::from_slice(rt.alloc(), &[two])?);
    let left = poly.compress_prefix(rt.alloc(), &first, five)?;
    assert!(rt; left.as_slice() == [25, 30].map(BabyBear::from_u32).as_slice());
    let point = Point::new(Vec::from_slice(rt.alloc(), &[two, three])?);
    let split = SplitEq::<BabyBear<4>, BabyBear<4>>::new_packed(rt.alloc(), &point, five)?;
    assert_eq!(rt; split.eval_base(poly.as_view()).as_canonical_u32(), 40);
    Ok(())
}

#[test]
fn one_proof(rt: HostRuntime) -> Result<(), Fail> {
    let values = [1, 2, 3, 4].map(BabyBear::<4>::from_u32);
    let evals = Vec::from_slice(rt.alloc(), &values)?;
    assert!(rt; evals.len().is_power_of_two());
    let mut poly = Poly::new(evals);
    let point = [2, 3].map(BabyBear::<4>::from_u32);
    let mut weights = Poly::new_from_point(rt.alloc(), &point, BabyBear::ONE)?;
    let challenges = [5, 7].map(BabyBear::<4>::from_u32);
    let mut claim = BabyBear::from_u32(8);
    for r in challenges {
        // the prover
        assert_eq!(rt; poly.num_evals(), weights.num_evals());
        assert!(rt; poly.num_evals() > 1);
        let round = prove_round_of_claim(&poly, &weights, claim);
        assert!(rt; round == prove_round(&poly, &weights));
        bind(&mut poly, &mut weights, r);
        // the verifier
        claim = verify_round(claim, round, r).expect(&rt, "the round adds up to the claim");
    }
    // the verifier's last test, with values that it knows or has opened
    let value = poly.as_constant().expect(&rt, "one value is left");
    let weight = weights.as_constant().expect(&rt, "one weight is left");
    assert!(rt; claim == value * weight);
    assert!(rt; claim.as_canonical_u32() == 8316);
    Ok(())
}
