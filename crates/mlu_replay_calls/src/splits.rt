//! What split tables are made of, read from the words of a case, and the tables that they are paired with.
//!
//! Sizes are those of the point, so that they are tested before its split table is made.
ghost use Rattle.std.specs.Prelude.{◌≡◌, ◌*◌, ◌^◌, ◌<◌, ◌≤◌, length, IfOk};
ghost use Rattle.multilinear_util.specs.Split.{split_entries};

use crate::element::Element;
use crate::sizes::test_parts;
use crate::words::Words;
use mlu_replay_lines::fault::{Fault, Reason};
use mlu_ring::{ExtensionField, Field};
use multilinear_util::point::Point;
use multilinear_util::poly::Poly;
use multilinear_util::split_eq::SplitEq;
use std::alloc::{AllocError, Global};

/// What a split table is made of.
#[derive(Drop)]
pub struct SplitOperands<T> {
    /// Whether its second half is packed.
    pub is_packed: bool,
    /// The point whose weights it has.
    pub point: Point<T>,
    /// What each weight is multiplied by.
    pub scale: T,
}

/// A table, and what a split table is made of.
#[derive(Drop)]
pub struct TableAndSplit<A, B> {
    /// The table.
    pub table: Poly<A>,
    /// What the split table is made of.
    pub split: SplitOperands<B>,
}

impl Words<'_> {
    /// A point and a scale.
    pub fn split<T: Element>(&mut self, is_packed: bool) -> Result<SplitOperands<T>, Fault>
        ensures { IfOk result (λ split. 2 ^ length split.point < 2 ^ 64) }
    {
        let point = self.short_point()?;
        let scale = self.element()?;
        Ok(SplitOperands {
            is_packed,
            point,
            scale,
        })
    }

    /// The storage, a point and a scale.
    pub fn stored_split<T: Element>(&mut self) -> Result<SplitOperands<T>, Fault>
        ensures { IfOk result (λ split. 2 ^ length split.point < 2 ^ 64) }
    {
        let is_packed = self.is_packed()?;
        self.split(is_packed)
    }

    /// A point, at scale one.
    pub fn unscaled_split<T: Element>(&mut self, is_packed: bool) -> Result<SplitOperands<T>, Fault>
        ensures { IfOk result (λ split. 2 ^ length split.point < 2 ^ 64) }
    {
        let point = self.short_point()?;
        Ok(SplitOperands {
            is_packed,
            point,
            scale: T::ONE,
        })
    }

    /// The storage and a point, at scale one.
    pub fn stored_unscaled_split<T: Element>(&mut self) -> Result<SplitOperands<T>, Fault>
        ensures { IfOk result (λ split. 2 ^ length split.point < 2 ^ 64) }
    {
        let is_packed = self.is_packed()?;
        self.unscaled_split(is_packed)
    }

    /// The storage, a table, a point and a scale.
    pub fn table_and_any_split<A: Element, B: Element>(
        &mut self,
    ) -> Result<TableAndSplit<A, B>, Fault>
        ensures { IfOk result (λ x. 2 ^ length x.split.point < 2 ^ 64) }
    {
        let is_packed = self.is_packed()?;
        let table = self.table()?;
        let split = self.split(is_packed)?;
        Ok(TableAndSplit { table, split })
    }

    /// The same, where the split table has as many entries as the table.
    pub fn table_and_split<A: Element, B: Element>(&mut self) -> Result<TableAndSplit<A, B>, Fault>
        ensures fits { IfOk result (λ x. 2 ^ length x.split.point < 2 ^ 64) }
        ensures size { IfOk result (λ x. length x.table ≡ 2 ^ length x.split.point) }
    {
        let operands: TableAndSplit<A, B> = self.table_and_any_split()?;
        if operands.table.num_variables() != operands.split.point.num_variables() {
            return Err(Fault::Unknown(Reason::Size));
        }
        Ok(operands)
    }

    /// The same, where the split table has at most as many entries as the table.
    #[tactic(auto, using(crate::proofs::Powers::part_within))]
    pub fn table_and_smaller_split<A: Element, B: Element>(
        &mut self,
    ) -> Result<TableAndSplit<A, B>, Fault>
        ensures fits { IfOk result (λ x. 2 ^ length x.split.point < 2 ^ 64) }
        ensures size { IfOk result (λ x. 2 ^ length x.split.point ≤ length x.table) }
    {
        let operands: TableAndSplit<A, B> = self.table_and_any_split()?;
        if operands.split.point.num_variables() > operands.table.num_variables() {
            return Err(Fault::Unknown(Reason::Size));
        }
        Ok(operands)
    }

    /// The number of parts, one or more, and the operands of a split table with at most as many entries
    /// as its table.
    pub fn parts_and_smaller_split<A: Element, B: Element>(
        &mut self,
    ) -> Result<(usize, TableAndSplit<A, B>), Fault>
        ensures parts { IfOk result (λ x. 0 < x.0) }
        ensures fits { IfOk result (λ x. 2 ^ length x.1.split.point < 2 ^ 64) }
        ensures size { IfOk result (λ x. 2 ^ length x.1.split.point ≤ length x.1.table) }
    {
        let parts = self.number()?;
        if parts == 0 {
            return Err(Fault::Unknown(Reason::Size));
        }
        let operands = self.table_and_smaller_split()?;
        Ok((parts, operands))
    }

    /// The operands of a split table, and what all its entries are multiplied by, if anything.
    pub fn output_and_scale<T: Element>(
        &mut self,
    ) -> Result<(TableAndSplit<T, T>, Option<T>), Fault>
        ensures fits { IfOk result (λ x. 2 ^ length x.0.split.point < 2 ^ 64) }
        ensures size { IfOk result (λ x. length x.0.table ≡ 2 ^ length x.0.split.point) }
    {
        let out = self.table_and_split()?;
        let scale = self.scale()?;
        Ok((out, scale))
    }

    /// The storage, the output, a point, the two weights and the boundary.
    pub fn output_and_factors<T: Element>(
        &mut self,
    ) -> Result<(TableAndSplit<T, T>, (T, T, T)), Fault>
        ensures { IfOk result (λ x. 2 ^ length x.0.split.point < 2 ^ 64) }
    {
        let is_packed = self.is_packed()?;
        let table = self.table()?;
        let split = self.unscaled_split(is_packed)?;
        let factors = self.three_elements()?;
        Ok((TableAndSplit { table, split }, factors))
    }

    /// The storage, an output, a table with as many entries as output and split table make together,
    /// a point and a scale.
    pub fn output_and_split<A: Element, B: Element>(
        &mut self,
    ) -> Result<(Poly<B>, TableAndSplit<A, B>), Fault>
        ensures fits { IfOk result (λ x. 2 ^ length x.1.split.point < 2 ^ 64) }
        ensures size { IfOk result (λ x. length x.1.table ≡ length x.0 * 2 ^ length x.1.split.point) }
    {
        let is_packed = self.is_packed()?;
        let out: Poly<B> = self.table()?;
        let table: Poly<A> = self.table()?;
        let split = self.split::<B>(is_packed)?;
        test_parts(
            table.num_variables(),
            out.num_variables(),
            split.point.num_variables(),
        )?;
        Ok((out, TableAndSplit { table, split }))
    }
}

/// The split table, with as many entries as its point has vertices.
///
/// # Errors
/// Where memory is refused.
#[tactic(auto, using(crate::proofs::Powers::half_power_fits))]
pub fn split_table<F: Field, EF: ExtensionField<F>>(
    alloc: Global,
    split: &SplitOperands<EF>,
) -> Result<SplitEq<F, EF>, AllocError>
    requires { 2 ^ length split.now.point < 2 ^ 64 }
    ensures size { IfOk result (λ table. length (split_entries EF.ring table) ≡ 2 ^ length split.now.point) }
    ensures fits { IfOk result (λ table. length (split_entries EF.ring table) < 2 ^ 64) }
{
    if split.is_packed {
        SplitEq::new_packed(alloc, &split.point, split.scale)
    } else {
        SplitEq::new_unpacked(alloc, &split.point, split.scale)
    }
}
