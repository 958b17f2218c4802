//! Polynomials compressed at a point, whose coordinates stand for the first or the last variables.
//!
//! Compressing at one point and evaluating at another is evaluating at the two points joined.
ghost use Rattle.std.specs.Prelude.{◌≡◌, ◌*◌, ◌^◌, ◌≤◌, length, map, IfOk};
ghost use Rattle.multilinear_util.specs.Compressions.{prefix_compressed, suffix_compressed, Holds, IsJoinedAfter, IsJoinedBefore};
ghost use Rattle.multilinear_util.specs.Views.{entries};

use super::Poly;
use super::view::PolyView;
use crate::point::Point;
use crate::split_eq::SplitEq;
use mlu_ring::{ExtensionField, Field};
use std::alloc::{AllocError, Global};

impl<F: Field> PolyView<'_, F> {
    /// The polynomial with its first variables at the point, times `scale`: value `z` is `scale`
    /// times the sum over `y` of the weight of `y` times `e[y * s + z]`, where `e` are the values and
    /// `s` is the number of those that are left. So the value of the result at `rest` is `scale`
    /// times that of this polynomial at the point and then `rest`.
    ///
    /// Asks that `n >= k`, where this has `n` variables and the point `k` coordinates.
    ///
    /// # Errors
    /// Where memory is refused.
    #[tactic(auto, using(crate::proofs::Splits::half_fits))]
    pub fn compress_prefix<EF: ExtensionField<F>>(
        &self,
        alloc: Global,
        point: &Point<EF>,
        scale: EF,
    ) -> Result<Poly<EF>, AllocError>
        requires { 2 ^ length point.now ≤ length (entries self.now) }
        ensures value { IfOk result (λ folded. folded ≡ prefix_compressed EF.ring scale point.now (map EF.embed (entries self.now))) }
        ensures joined { IfOk result (IsJoinedAfter EF.ring scale point.now (length (entries self.now)) (map EF.embed (entries self.now))) }
    {
        let split = SplitEq::<F, EF>::new_packed(alloc, point, scale)?;
        split.compress_prefix(alloc, *self)
    }

    /// [`PolyView::compress_prefix`] in packed form: its values are the lanes, joined in order. Asks
    /// that `n >= k + log2(W)`.
    ///
    /// # Errors
    /// Where memory is refused.
    #[tactic(auto, using(crate::proofs::Splits::lanes_half_fits))]
    pub fn compress_prefix_to_packed<EF: ExtensionField<F>>(
        &self,
        alloc: Global,
        point: &Point<EF>,
        scale: EF,
    ) -> Result<Poly<EF::ExtensionPacking>, AllocError>
        requires { 2 ^ length point.now * F.Packing.WIDTH ≤ length (entries self.now) }
        ensures { IfOk result (Holds EF.ExtensionPacking.ext_lanes
            (prefix_compressed EF.ring scale point.now (map EF.embed (entries self.now)))) }
    {
        let split = SplitEq::<F, EF>::new_packed(alloc, point, scale)?;
        split.compress_prefix_to_packed(alloc, *self)
    }

    /// The polynomial with its last variables at the point, times `scale`: value `y` is `scale`
    /// times the sum over `z` of the weight of `z` times `e[y * t + z]`, where `e` are the values and
    /// the point has `t` weights. So the value of the result at `first` is `scale` times that of this
    /// polynomial at `first` and then the point.
    ///
    /// Asks that `n >= k`, where this has `n` variables and the point `k` coordinates.
    ///
    /// # Errors
    /// Where memory is refused.
    #[tactic(auto, using(crate::proofs::Splits::half_fits))]
    pub fn compress_suffix<EF: ExtensionField<F>>(
        &self,
        alloc: Global,
        point: &Point<EF>,
        scale: EF,
    ) -> Result<Poly<EF>, AllocError>
        requires { 2 ^ length point.now ≤ length (entries self.now) }
        ensures value { IfOk result (λ folded. folded ≡ suffix_compressed EF.ring scale point.now (map EF.embed (entries self.now))) }
        ensures joined { IfOk result (IsJoinedBefore EF.ring scale point.now (length (entries self.now))
            (map EF.embed (entries self.now))) }
    {
        let split = SplitEq::<F, EF>::new_packed(alloc, point, scale)?;
        split.compress_suffix(alloc, *self)
    }
}

impl<F: Field> Poly<F> {
    /// As [`PolyView::compress_prefix`].
    pub fn compress_prefix<EF: ExtensionField<F>>(
        &self,
        alloc: Global,
        point: &Point<EF>,
        scale: EF,
    ) -> Result<Poly<EF>, AllocError>
        requires { 2 ^ length point.now ≤ length self.now }
        ensures value { IfOk result (λ folded. folded ≡ prefix_compressed EF.ring scale point.now (map EF.embed self.now)) }
        ensures joined { IfOk result (IsJoinedAfter EF.ring scale point.now (length self.now) (map EF.embed self.now)) }
    {
        self.as_view().compress_prefix(alloc, point, scale)
    }

    /// As [`PolyView::compress_prefix_to_packed`].
    pub fn compress_prefix_to_packed<EF: ExtensionField<F>>(
        &self,
        alloc: Global,
        point: &Point<EF>,
        scale: EF,
    ) -> Result<Poly<EF::ExtensionPacking>, AllocError>
        requires { 2 ^ length point.now * F.Packing.WIDTH ≤ length self.now }
        ensures { IfOk result (Holds EF.ExtensionPacking.ext_lanes
            (prefix_compressed EF.ring scale point.now (map EF.embed self.now))) }
    {
        self.as_view()
            .compress_prefix_to_packed(alloc, point, scale)
    }

    /// As [`PolyView::compress_suffix`].
    pub fn compress_suffix<EF: ExtensionField<F>>(
        &self,
        alloc: Global,
        point: &Point<EF>,
        scale: EF,
    ) -> Result<Poly<EF>, AllocError>
        requires { 2 ^ length point.now ≤ length self.now }
        ensures value { IfOk result (λ folded. folded ≡ suffix_compressed EF.ring scale point.now (map EF.embed self.now)) }
        ensures joined { IfOk result (IsJoinedBefore EF.ring scale point.now (length self.now) (map EF.embed self.now)) }
    {
        self.as_view().compress_suffix(alloc, point, scale)
    }
}
