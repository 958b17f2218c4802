//! Folds of the first and the last variable.
ghost use Rattle.std.specs.Prelude.{◌≡◌, ◌<◌, ◌/◌, ◌∷◌, [], length, map, slice_index_or, IfOk, OnErr, nat_lt, if◌then◌else◌};
ghost use Rattle.mlu_ring.specs.Tables.{front, back, line};
ghost use Rattle.multilinear_util.specs.Compressions.{Holds};
ghost use Rattle.multilinear_util.specs.Views.{entries};

use super::Poly;
use super::view::PolyView;
use mlu_eq::{
    fold_monomial_in_place, fold_prefix, fold_prefix_at, fold_prefix_in_place,
    fold_prefix_to_packed, fold_suffix, fold_suffix_by_base, fold_suffix_in_place,
    sum_halves_in_place,
};
use mlu_ring::{Additive, Algebra, ExtensionField, Field, PrimeCharacteristicRing};
use std::alloc::{AllocError, Global};

impl<F: Additive> PolyView<'_, F> {
    /// The polynomial with its first variable at `r`: value `i` is `low[i] + r * (high[i] - low[i])`,
    /// where `low` and `high` are the two halves. Asks for at least one variable.
    ///
    /// # Errors
    /// Where the memory for half the values is refused.
    #[tactic(auto, using(crate::proofs::Lengths::power_of_front))]
    pub fn fix_prefix_var<EF: Algebra<F>>(
        &self,
        alloc: Global,
        r: EF,
    ) -> Result<Poly<EF>, AllocError>
        requires { 1 < length (entries self.now) }
        ensures { IfOk result (λ folded. folded ≡ front EF.ring (line EF.ring r) (map EF.embed (entries self.now))) }
    {
        Ok(Poly::new(fold_prefix(alloc, self.as_slice(), r)?))
    }

    /// Value `index` of [`PolyView::fix_prefix_var`]. Asks that `index` is below half the values.
    #[inline]
    pub fn fix_prefix_var_at<EF: Algebra<F>>(&self, r: EF, index: usize) -> EF
        requires { index < length (entries self.now) / 2 }
        ensures { result ≡ slice_index_or (front EF.ring (line EF.ring r) (map EF.embed (entries self.now))) index EF.ring.zero }
    {
        fold_prefix_at(self.as_slice(), r, index)
    }

    /// The polynomial with its last variable at `r`: value `i` is `e[2i] + r * (e[2i + 1] - e[2i])`,
    /// where `e` are the values. Asks for at least one variable.
    ///
    /// # Errors
    /// Where the memory for half the values is refused.
    #[tactic(auto, using(crate::proofs::Lengths::power_of_back))]
    pub fn fix_suffix_var<EF: Algebra<F>>(
        &self,
        alloc: Global,
        r: EF,
    ) -> Result<Poly<EF>, AllocError>
        requires { 1 < length (entries self.now) }
        ensures { IfOk result (λ folded. folded ≡ back EF.ring (line EF.ring r) (map EF.embed (entries self.now))) }
    {
        Ok(Poly::new(fold_suffix(alloc, self.as_slice(), r)?))
    }
}

impl<F: Field> PolyView<'_, F> {
    /// [`PolyView::fix_prefix_var`] in packed form: its values are the lanes, joined in order. Asks for
    /// more variables than a packing has: `n > log2(W)`.
    ///
    /// # Errors
    /// Where the memory for half the values is refused.
    pub fn fix_prefix_var_to_packed<EF: ExtensionField<F>>(
        &self,
        alloc: Global,
        r: EF,
    ) -> Result<Poly<EF::ExtensionPacking>, AllocError>
        requires { F.Packing.WIDTH < length (entries self.now) }
        ensures { IfOk result (Holds EF.ExtensionPacking.ext_lanes
            (front EF.ring (line EF.ring r) (map EF.embed (entries self.now)))) }
    {
        Ok(Poly::new(fold_prefix_to_packed(alloc, self.as_slice(), r)?))
    }
}

impl<F: Additive> Poly<F> {
    /// As [`PolyView::fix_prefix_var`].
    pub fn fix_prefix_var<EF: Algebra<F>>(
        &self,
        alloc: Global,
        r: EF,
    ) -> Result<Poly<EF>, AllocError>
        requires { 1 < length self.now }
        ensures { IfOk result (λ folded. folded ≡ front EF.ring (line EF.ring r) (map EF.embed self.now)) }
    {
        self.as_view().fix_prefix_var(alloc, r)
    }

    /// As [`PolyView::fix_prefix_var_at`].
    #[inline]
    pub fn fix_prefix_var_at<EF: Algebra<F>>(&self, r: EF, index: usize) -> EF
        requires { index < length self.now / 2 }
        ensures { result ≡ slice_index_or (front EF.ring (line EF.ring r) (map EF.embed self.now)) index EF.ring.zero }
    {
        self.as_view().fix_prefix_var_at(r, index)
    }

    /// As [`PolyView::fix_suffix_var`].
    pub fn fix_suffix_var<EF: Algebra<F>>(
        &self,
        alloc: Global,
        r: EF,
    ) -> Result<Poly<EF>, AllocError>
        requires { 1 < length self.now }
        ensures { IfOk result (λ folded. folded ≡ back EF.ring (line EF.ring r) (map EF.embed self.now)) }
    {
        self.as_view().fix_suffix_var(alloc, r)
    }
}

impl<F: PrimeCharacteristicRing> Poly<F> {
    /// [`PolyView::fix_prefix_var`] in place, at the image of `r`. Asks for at least one variable.
    pub fn fix_prefix_var_mut<R: Additive>(&mut self, r: R)
    where
        F: Algebra<R>,
        requires { 1 < length self.old }
        ensures { self.new ≡ front F.ring (line F.ring (F.embed r)) self.old }
    {
        fold_prefix_in_place(self.as_mut_slice(), r);
        self.truncate_to_half();
    }

    /// [`PolyView::fix_suffix_var`] in place, at the image of `r`. Asks for at least one variable.
    pub fn fix_suffix_var_mut<R: Additive>(&mut self, r: R)
    where
        F: Algebra<R>,
        requires { 1 < length self.old }
        ensures { self.new ≡ back F.ring (line F.ring (F.embed r)) self.old }
    {
        fold_suffix_in_place(self.as_mut_slice(), r);
        self.truncate_to_half();
    }

    /// As [`Poly::fix_suffix_var_mut`], through a new buffer.
    ///
    /// # Errors
    /// Where the memory for half the values is refused; the polynomial is then as before.
    #[tactic(auto, using(crate::proofs::Lengths::power_of_pairs))]
    pub fn fix_suffix_var_mut_split<R: Additive>(
        &mut self,
        alloc: Global,
        r: R,
    ) -> Result<(), AllocError>
    where
        F: Algebra<R>,
        requires { 1 < length self.old }
        ensures ok { IfOk result (λ _. self.new ≡ back F.ring (line F.ring (F.embed r)) self.old) }
        ensures err { OnErr result (self.new ≡ self.old) }
    {
        *self = Poly::new(fold_suffix_by_base(alloc, self.as_slice(), r)?);
        Ok(())
    }

    /// Folds the values as coefficients, in place: value `i` becomes `low[i] + r * high[i]`. Asks
    /// for at least one variable.
    pub fn fix_prefix_var_mut_monomial<R: Additive>(&mut self, r: R)
    where
        F: Algebra<R>,
        requires { 1 < length self.old }
        ensures { self.new ≡ front F.ring (F.ring.one ∷ F.embed r ∷ []) self.old }
    {
        fold_monomial_in_place(self.as_mut_slice(), r);
        self.truncate_to_half();
    }

    /// Sums over the first variable, in place: value `i` becomes `low[i] + high[i]`. A polynomial
    /// without variables stays as it is.
    pub fn sum_prefix_var_mut(&mut self)
        ensures { self.new ≡ (if nat_lt 1 (length self.old) then front F.ring (F.ring.one ∷ F.ring.one ∷ []) self.old else self.old) }
    {
        if self.num_evals() == 1 {
            return;
        }
        sum_halves_in_place(self.as_mut_slice());
        self.truncate_to_half();
    }
}

impl<F: Field> Poly<F> {
    /// As [`PolyView::fix_prefix_var_to_packed`].
    pub fn fix_prefix_var_to_packed<EF: ExtensionField<F>>(
        &self,
        alloc: Global,
        r: EF,
    ) -> Result<Poly<EF::ExtensionPacking>, AllocError>
        requires { F.Packing.WIDTH < length self.now }
        ensures { IfOk result (Holds EF.ExtensionPacking.ext_lanes (front EF.ring (line EF.ring r) (map EF.embed self.now))) }
    {
        self.as_view().fix_prefix_var_to_packed(alloc, r)
    }
}
