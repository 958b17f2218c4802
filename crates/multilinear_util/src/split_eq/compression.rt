//! Compressions of a polynomial by a split table, whose variables are the first or the last ones.
ghost use Rattle.std.specs.Prelude.{◌≡◌, ◌*◌, ◌<◌, ◌≤◌, length, map, IfOk};
ghost use Rattle.mlu_ring.specs.Tables.{front, back};
ghost use Rattle.multilinear_util.specs.Compressions.{weighted_rows, Holds};
ghost use Rattle.multilinear_util.specs.Views.{entries};

use super::SplitEq;
use crate::poly::{Poly, PolyView};
use mlu_eq::split;
use mlu_eq::split::runs::{Plain, Shifted, ToPacked};
use mlu_ring::{ExtensionField, Field, PackedValue};
use std::alloc::{AllocError, Global};

impl<F: Field, EF: ExtensionField<F>> SplitEq<F, EF> {
    ghost use Rattle.multilinear_util.specs.Split.{shifted_entries, split_entries};

    /// The polynomial compressed at its first variables: value `z` is the sum over `y` of entry `y`
    /// times `e[y * s + z]`, where `e` are the polynomial's values and `s` is the number of those that
    /// are left. Asks that `n >= k`, where the polynomial has `n` variables and the table `k`.
    ///
    /// # Errors
    /// Where the memory for the values that are left is refused.
    pub fn compress_prefix(
        &self,
        alloc: Global,
        poly: PolyView<'_, F>,
    ) -> Result<Poly<EF>, AllocError>
        requires { length (split_entries EF.ring self.now) ≤ length (entries poly) }
        ensures { IfOk result (λ folded. folded ≡ front EF.ring (split_entries EF.ring self.now) (map EF.embed (entries poly.entry))) }
    {
        self.compress_prefix_split(alloc, poly, 1)
    }

    /// [`SplitEq::compress_prefix`] with the first half cut into `parts` runs, of which each is
    /// added up by itself. A run has the quotient of entries and parts, rounded up; the last ones may be
    /// shorter or empty. Asks for one part or more.
    ///
    /// # Errors
    /// Where the memory for the values that are left, or for those of a run, is refused.
    #[tactic(auto, using(crate::proofs::Splits::prefix_in_runs))]
    pub fn compress_prefix_split(
        &self,
        alloc: Global,
        poly: PolyView<'_, F>,
        parts: usize,
    ) -> Result<Poly<EF>, AllocError>
        requires parts { 0 < parts }
        requires variables { length (split_entries EF.ring self.now) ≤ length (entries poly) }
        ensures { IfOk result (λ folded. folded ≡ front EF.ring (split_entries EF.ring self.now) (map EF.embed (entries poly.entry))) }
    {
        let left = poly.num_variables() - self.num_variables();
        self.compressed::<EF, Plain>(alloc, poly, left, parts)
    }

    /// [`SplitEq::compress_prefix`] in packed form: its values are the lanes, joined in order. Asks
    /// that `n >= k + log2(W)`.
    ///
    /// # Errors
    /// Where the memory for the values that are left is refused.
    pub fn compress_prefix_to_packed(
        &self,
        alloc: Global,
        poly: PolyView<'_, F>,
    ) -> Result<Poly<EF::ExtensionPacking>, AllocError>
        requires { length (split_entries EF.ring self.now) * F.Packing.WIDTH ≤ length (entries poly) }
        ensures { IfOk result (Holds EF.ExtensionPacking.ext_lanes (weighted_rows EF.ring EF.embed self.now poly.entry)) }
    {
        self.compress_prefix_to_packed_split(alloc, poly, 1)
    }

    /// [`SplitEq::compress_prefix_to_packed`] with the first half cut into `parts` runs, as by
    /// [`SplitEq::compress_prefix_split`].
    ///
    /// # Errors
    /// Where the memory for the values that are left, or for those of a run, is refused.
    #[tactic(auto, using(crate::proofs::Splits::packed_prefix_in_runs))]
    pub fn compress_prefix_to_packed_split(
        &self,
        alloc: Global,
        poly: PolyView<'_, F>,
        parts: usize,
    ) -> Result<Poly<EF::ExtensionPacking>, AllocError>
        requires packed_parts { 0 < parts }
        requires variables { length (split_entries EF.ring self.now) * F.Packing.WIDTH ≤ length (entries poly) }
        ensures { IfOk result (Holds EF.ExtensionPacking.ext_lanes (weighted_rows EF.ring EF.embed self.now poly.entry)) }
    {
        let left = poly.num_variables() - self.num_variables();
        let groups = left - <F::Packing as PackedValue>::LOG_WIDTH;
        self.compressed::<EF::ExtensionPacking, ToPacked>(alloc, poly, groups, parts)
    }

    /// The polynomial compressed at its last variables: value `y` is the sum over `z` of entry `z`
    /// times `e[y * t + z]`, where `e` are the polynomial's values and the table has `t` entries. Asks
    /// that `n >= k`, where the polynomial has `n` variables and the table `k`.
    ///
    /// # Errors
    /// Where the memory for the values that are left is refused.
    #[tactic(auto, using(crate::proofs::Splits::suffix_left))]
    pub fn compress_suffix(
        &self,
        alloc: Global,
        poly: PolyView<'_, F>,
    ) -> Result<Poly<EF>, AllocError>
        requires { length (split_entries EF.ring self.now) ≤ length (entries poly) }
        ensures { IfOk result (λ folded. folded ≡ back EF.ring (split_entries EF.ring self.now) (map EF.embed (entries poly.entry))) }
    {
        let mut folded = Poly::zero(alloc, poly.num_variables() - self.num_variables())?;
        self.compress_suffix_into(folded.as_mut_slice(), poly);
        Ok(folded)
    }

    /// [`SplitEq::compress_suffix`] over an output, whose old values do not count. Asks that places
    /// times entries is the number of the polynomial's values.
    pub fn compress_suffix_into(&self, out: &mut [EF], poly: PolyView<'_, F>)
        requires { length (entries poly) ≡ length out.old * length (split_entries EF.ring self.now) }
        ensures { out.new ≡ back EF.ring (split_entries EF.ring self.now) (map EF.embed (entries poly.entry)) }
    {
        let (eq0, eq1) = self.halves();
        split::compress_suffix_into(eq0, eq1, out, poly.as_slice());
    }

    /// [`SplitEq::compress_prefix`] by the table moved up by one place: each value meets the entry
    /// before its own, and the first `s` values none. Asks that `n >= k`.
    ///
    /// # Errors
    /// Where the memory for the values that are left is refused.
    pub fn compress_prefix_shifted(
        &self,
        alloc: Global,
        poly: PolyView<'_, F>,
    ) -> Result<Poly<EF>, AllocError>
        requires { length (split_entries EF.ring self.now) ≤ length (entries poly) }
        ensures { IfOk result (λ folded. folded
            ≡ front EF.ring (shifted_entries EF.ring self.now) (map EF.embed (entries poly.entry))) }
    {
        self.compress_prefix_shifted_split(alloc, poly, 1)
    }

    /// [`SplitEq::compress_prefix_shifted`] with the first half cut into `parts` runs, as by
    /// [`SplitEq::compress_prefix_split`].
    ///
    /// # Errors
    /// Where the memory for the values that are left, or for those of a run, is refused.
    #[tactic(auto, using(crate::proofs::Splits::prefix_in_runs))]
    pub fn compress_prefix_shifted_split(
        &self,
        alloc: Global,
        poly: PolyView<'_, F>,
        parts: usize,
    ) -> Result<Poly<EF>, AllocError>
        requires shifted_parts { 0 < parts }
        requires variables { length (split_entries EF.ring self.now) ≤ length (entries poly) }
        ensures { IfOk result (λ folded. folded
            ≡ front EF.ring (shifted_entries EF.ring self.now) (map EF.embed (entries poly.entry))) }
    {
        let left = poly.num_variables() - self.num_variables();
        self.compressed::<EF, Shifted>(alloc, poly, left, parts)
    }

    /// [`SplitEq::compress_suffix`] by the table moved up by one place: each value meets the entry
    /// before its own, and the first one of each row none. Asks that `n >= k`.
    ///
    /// # Errors
    /// Where the memory for the values that are left is refused.
    #[tactic(auto, using(crate::proofs::Splits::suffix_left))]
    pub fn compress_suffix_shifted(
        &self,
        alloc: Global,
        poly: PolyView<'_, F>,
    ) -> Result<Poly<EF>, AllocError>
        requires { length (split_entries EF.ring self.now) ≤ length (entries poly) }
        ensures { IfOk result (λ folded. folded
            ≡ back EF.ring (shifted_entries EF.ring self.now) (map EF.embed (entries poly.entry))) }
    {
        let mut out = Poly::zero(alloc, poly.num_variables() - self.num_variables())?;
        let (eq0, eq1) = self.halves();
        split::compress_suffix_shifted_into(eq0, eq1, out.as_mut_slice(), poly.as_slice());
        Ok(out)
    }
}
