//! The sum of the entries of a polynomial, each times its weight in a split table.
ghost use Rattle.std.specs.Prelude.{◌≡◌, ◌*◌, length, map, IfOk, IsOk, IsTrue};
ghost use Rattle.mlu_ring.specs.Successor.{next};
ghost use Rattle.mlu_ring.specs.Tables.{pair};
ghost use Rattle.mlu_point.specs.Rules.{next_by};
ghost use Rattle.multilinear_util.specs.Views.{entries, lanes_of};

use super::SplitEq;
use crate::poly::PolyView;
use mlu_eq::split;
use mlu_point::point::Successor;
use mlu_ring::{Additive, Algebra, ExtensionField, Field};
use std::alloc::{AllocError, Global};

impl<F: Field, EF: ExtensionField<F>> SplitEq<F, EF> {
    ghost use Rattle.multilinear_util.specs.Split.{split_entries};

    /// The sum of the polynomial's base values, each times its entry. Asks for as many values as
    /// entries.
    pub fn eval_base(&self, poly: PolyView<'_, F>) -> EF
        requires { length (entries poly) ≡ length (split_entries EF.ring self.now) }
        ensures { result ≡ pair EF.ring (split_entries EF.ring self.now) (map EF.embed (entries poly.entry)) }
    {
        let (eq0, eq1) = self.halves();
        split::dot_base(eq0, eq1, poly.as_slice())
    }

    /// The sum of each entry times the polynomial's base value at the next place: entry `x` times
    /// value `x + 1`, and the last entry times the last value. Asks for as many values as entries.
    pub fn eval_next_base(&self, poly: PolyView<'_, F>) -> EF
        requires { length (entries poly) ≡ length (split_entries EF.ring self.now) }
        ensures { result ≡ pair EF.ring (next EF.ring (split_entries EF.ring self.now)) (map EF.embed (entries poly.entry)) }
    {
        self.eval_next_base_by(Successor::RepeatLast, poly)
    }

    /// The sum of each entry times the polynomial's base value at the successor of its place by the
    /// rule: entry `x` times value `x + 1`, and the last entry times the last value or the first. Asks
    /// for as many values as entries.
    pub fn eval_next_base_by(&self, rule: Successor, poly: PolyView<'_, F>) -> EF
        requires { length (entries poly) ≡ length (split_entries EF.ring self.now) }
        ensures { result ≡ pair EF.ring (next_by rule EF.ring (split_entries EF.ring self.now)) (map EF.embed (entries poly.entry)) }
    {
        let values = poly.as_slice();
        let (eq0, eq1) = self.halves();
        let steps = split::dot_base_shifted(eq0, eq1, values);
        let end = rule.after_last(values.len());
        steps + self.last_scalar().scale(values[end])
    }

    /// The sum of the polynomial's values, each times its entry. Asks for as many values as entries.
    pub fn eval_ext(&self, poly: PolyView<'_, EF>) -> EF
        requires { length (entries poly) ≡ length (split_entries EF.ring self.now) }
        ensures { result ≡ pair EF.ring (split_entries EF.ring self.now) (entries poly.entry) }
    {
        let (eq0, eq1) = self.halves();
        split::dot_ext(eq0, eq1, poly.as_slice())
    }

    /// The sum of the polynomial's lanes, joined in order, each times its entry. Asks for as many lanes
    /// as entries.
    ///
    /// # Errors
    /// Where the memory to unpack the polynomial is refused, or the number of its lanes does not fit
    /// `usize`. Never where the second half is packed.
    #[tactic(auto, using(crate::proofs::Packed::size_of_unpacked))]
    pub fn eval_packed(
        &self,
        alloc: Global,
        poly: PolyView<'_, EF::ExtensionPacking>,
    ) -> Result<EF, AllocError>
        requires { length (entries poly) * F.Packing.WIDTH ≡ length (split_entries EF.ring self.now) }
        ensures value { IfOk result (λ x. x
            ≡ pair EF.ring (split_entries EF.ring self.now) (lanes_of EF.ExtensionPacking.ext_lanes poly.entry)) }
        ensures packed { IsTrue self.now.eq1.packed → IsOk result }
    {
        if !self.eq1().is_packed() {
            let evals = poly.unpack::<F, EF>(alloc)?;
            return Ok(self.eval_ext(evals.as_view()));
        }
        let (eq0, eq1) = self.halves();
        Ok(split::dot_packed(eq0, eq1, poly.as_slice()))
    }
}
