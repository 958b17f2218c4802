//! Equality tables as polynomials.
ghost use Rattle.std.specs.Prelude.{◌≡◌, ◌^◌, ◌<◌, ◌≤◌, length, map, IfOk, OnOk};
ghost use Rattle.mlu_ring.specs.Lanes.{logical};
ghost use Rattle.mlu_ring.specs.Successor.{next};
ghost use Rattle.mlu_ring.specs.Tables.{weights};
ghost use Rattle.mlu_point.specs.Rules.{next_by};
ghost use Rattle.mlu_ring.specs.Shares.{split_by};

use super::{Poly, table_length};
use mlu_point::point::{BitOrder, Successor, fill_equality_table};
use mlu_ring::{
    Additive, Algebra, ExtensionField, Field, Lanewise, PackedFieldExtension, PackedValue,
    PrimeCharacteristicRing,
};
use std::alloc::{AllocError, Global};

impl<F: PrimeCharacteristicRing> Poly<F> {
    /// `scale` times the weight of each vertex at the point. Asks that `2^n` fits `usize`, where the
    /// point has `n` coordinates.
    ///
    /// # Errors
    /// Where the memory for the table is refused.
    #[tactic(auto, using(crate::proofs::Lengths::power_of_size, std::proofs::lemmas::Grind::common_steps))]
    pub fn new_from_point(alloc: Global, point: &[F], scale: F) -> Result<Self, AllocError>
        requires { 2 ^ length point.now < 2 ^ 64 }
        ensures { IfOk result (λ poly. poly ≡ map (F.ring.product scale) (weights F.ring point.now)) }
    {
        let mut evals = F::zero_vec(alloc, table_length(point.len()))?;
        fill_equality_table(evals.as_mut_slice(), point, BitOrder::Msb, scale);
        Ok(Poly::new(evals))
    }

    /// The weights at the point, each moved to the next vertex: entry 0 is zero, entry `x` the weight
    /// of the vertex before `x`, and the last weight is added to the last entry too. Asks that `2^n`
    /// fits `usize`, where the point has `n` coordinates.
    ///
    /// # Errors
    /// Where the memory for the table is refused.
    pub fn new_next_from_point(alloc: Global, point: &[F]) -> Result<Self, AllocError>
        requires { 2 ^ length point.now < 2 ^ 64 }
        ensures { IfOk result (λ poly. poly ≡ next F.ring (weights F.ring point.now)) }
    {
        Poly::new_next_from_point_by(alloc, Successor::RepeatLast, point)
    }

    /// The weights at the point, each moved to the successor of its vertex by the rule: as
    /// [`Poly::new_next_from_point`], or with the last weight as entry 0. Asks that `2^n` fits
    /// `usize`, where the point has `n` coordinates.
    ///
    /// # Errors
    /// Where the memory for the table is refused.
    pub fn new_next_from_point_by(
        alloc: Global,
        rule: Successor,
        point: &[F],
    ) -> Result<Self, AllocError>
        requires { 2 ^ length point.now < 2 ^ 64 }
        ensures { IfOk result (λ poly. poly ≡ next_by rule F.ring (weights F.ring point.now)) }
    {
        let mut table = Poly::new_from_point(alloc, point, F::ONE)?;
        move_to_next(rule, table.as_mut_slice());
        Ok(table)
    }
}

/// Moves each weight to the next place, and the last one where the rule sends it.
fn move_to_next<R: Additive>(rule: Successor, weights: &mut [R])
    requires { 0 < length weights.old }
    ensures { weights.new ≡ next_by rule R.ring weights.old }
{
    weights.rotate_right(1);
    let last = weights[0];
    weights[0] = R::ZERO;
    let end = rule.after_last(weights.len());
    weights[end] = weights[end] + last;
}

impl<A: Copy> Poly<A> {
    /// [`Poly::new_from_point`] in packed form: the lanes, joined in order, are `scale` times the
    /// weight of each vertex.
    ///
    /// Asks that `n >= log2(W)`, and that `2^n` fits `usize`, where the point has `n` coordinates.
    ///
    /// # Errors
    /// Where memory is refused.
    pub fn new_packed_from_point<F: Field, EF: ExtensionField<F, ExtensionPacking = A>>(
        alloc: Global,
        point: &[EF],
        scale: EF,
    ) -> Result<Self, AllocError>
        requires lanes { F.Packing.LOG_WIDTH ≤ length point.now }
        requires fits { 2 ^ length point.now < 2 ^ 64 }
        ensures { IfOk result (λ poly. logical A.ext_lanes poly ≡ map (EF.ring.product scale) (weights EF.ring point.now)) }
    {
        packed_table::<F, EF>(alloc, point, scale)
    }
}

/// The packed table: the last coordinates make one packed seed, and the others double it.
fn packed_table<F: Field, EF: ExtensionField<F>>(
    alloc: Global,
    point: &[EF],
    scale: EF,
) -> Result<Poly<EF::ExtensionPacking>, AllocError>
    requires lanes { F.Packing.LOG_WIDTH ≤ length point.now }
    requires fits { 2 ^ length point.now < 2 ^ 64 }
    ensures { IfOk result (λ poly. logical EF.ExtensionPacking.ext_lanes poly ≡ map (EF.ring.product scale) (weights EF.ring point.now)) }
{
    let (rest, last) = point.split_at(point.len() - <F::Packing as PackedValue>::LOG_WIDTH);
    let lanes = Poly::new_from_point(alloc, last, scale)?;
    let seed = EF::ExtensionPacking::from_ext_slice(lanes.as_slice());
    embedded_table(alloc, rest, seed)
}

/// [`Poly::new_from_point`] at the images of the coordinates. The weights are appended: in tables larger
/// than the caches, zeros written first would take a third of the time.
#[tactic(auto, using(crate::proofs::Lengths::power_of_size, std::proofs::lemmas::Grind::common_steps))]
fn embedded_table<B: Additive, R: Algebra<B>>(
    alloc: Global,
    point: &[B],
    scale: R,
) -> Result<Poly<R>, AllocError>
    requires { 2 ^ length point.now < 2 ^ 64 }
    ensures { IfOk result (λ poly. poly ≡ map (R.ring.product scale) (weights R.ring (map R.embed point.now))) }
{
    let mut evals = Vec::with_capacity(alloc, table_length(point.len()))?;
    append_table(&mut evals, point, scale)?;
    Ok(Poly::new(evals))
}

/// Appends `scale` times each weight to an empty table.
fn append_table<B: Additive, R: Algebra<B>>(
    table: &mut Vec<R>,
    point: &[B],
    scale: R,
) -> Result<(), AllocError>
    requires { length table.old.items ≡ 0 }
    ensures { OnOk result (table.new.items ≡ map (R.ring.product scale) (weights R.ring (map R.embed point.now))) }
{
    match point.split_first() {
        None => table.push(scale)?,
        Some((coordinate, others)) => {
            append_table(table, others, scale)?;
            append_shares(table, *coordinate)?;
        }
    }
    Ok(())
}

/// Splits each weight by a coordinate: its share at 1 is appended, and the rest stays.
#[inline]
fn append_shares<B: Additive, R: Algebra<B>>(
    table: &mut Vec<R>,
    coordinate: B,
) -> Result<(), AllocError>
    ensures { OnOk result (table.new.items ≡ split_by R.ring (R.embed coordinate) table.old.items) }
{
    for i in 0..table.len() {
        let share = table[i].scale(coordinate);
        table[i] = table[i] - share;
        table.push(share)?;
    }
    Ok(())
}
