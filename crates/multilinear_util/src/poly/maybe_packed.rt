//! A polynomial over an extension, with scalar or packed storage.
//!
//! A packed table keeps the last variables in the lanes, so it stores fewer elements than it has
//! values. The calls here count and give the values, whatever the storage.
use super::Poly;
use super::view::PolyView;
use mlu_point::point::Point;
use mlu_ring::{ExtensionField, Field, Lanewise, PackedValue, log2_strict_usize};
use std::alloc::{AllocError, Global};

/// A polynomial that owns its values, as scalars or in packed form.
#[derive(Debug, Drop)]
pub enum PolyMaybePacked<F: Field, EF: ExtensionField<F>> {
    /// One element for each vertex.
    Scalar(Poly<EF>),
    /// W values side by side: value i is lane i mod W of element i / W.
    Packed(Poly<EF::ExtensionPacking>),
}

/// A polynomial that borrows its values, as scalars or in packed form.
#[derive(Debug)]
pub enum PolyMaybePackedView<'a, F: Field, EF: ExtensionField<F>> {
    /// One element for each vertex.
    Scalar(PolyView<'a, EF>),
    /// W values side by side: value i is lane i mod W of element i / W.
    Packed(PolyView<'a, EF::ExtensionPacking>),
}

/// The same view, never an error.
impl<F: Field, EF: ExtensionField<F>> Clone for PolyMaybePackedView<'_, F, EF> {
    ghost use Rattle.std.specs.Prelude.{◌≡◌, ⊤};

    ghost is_clone = { λ a b. a ≡ b };

    ghost is_infallible = { λ _. ⊤ };

    fn clone(&self) -> Result<Self, AllocError> {
        Ok(*self)
    }
}

impl<F: Field, EF: ExtensionField<F>> Copy for PolyMaybePackedView<'_, F, EF> {}

/// The polynomial, stored as scalars.
impl<F: Field, EF: ExtensionField<F>> From<Poly<EF>> for PolyMaybePacked<F, EF> {
    ghost use Rattle.std.specs.Prelude.{◌≡◌};
    ghost use Rattle.multilinear_util.specs.declared.poly.maybe_packed.PolyMaybePacked.TheVariants.{Scalar};

    ghost from_gives = { λ poly table. table ≡ Scalar poly };

    fn from(poly: Poly<EF>) -> Self {
        Self::Scalar(poly)
    }
}

impl<F: Field, EF: ExtensionField<F>> PolyMaybePacked<F, EF> {
    ghost use Rattle.std.specs.Prelude.{◌≡◌, ◌↔◌, ◌^◌, ◌<◌, length, IfOk, IsOk, MatchResult};
    ghost use Rattle.mlu_ring.specs.Tables.{value};
    ghost use Rattle.multilinear_util.specs.Storage.{scalars, view_scalars, IsScalar, IsScalarView};
    ghost use Rattle.multilinear_util.specs.Thresholds.{threshold};

    /// The number of variables, those of the lanes among them. It is below 128.
    pub fn num_variables(&self) -> usize
        ensures value { length (scalars EF.ExtensionPacking.ext_lanes self.now) ≡ 2 ^ result }
        ensures small { result < 128 }
    {
        self.as_view().num_variables()
    }

    /// As [`PolyMaybePackedView::num_scalar_evals`].
    pub fn num_scalar_evals(&self) -> usize
        requires { length (scalars EF.ExtensionPacking.ext_lanes self.now) < 2 ^ 64 }
        ensures { result ≡ length (scalars EF.ExtensionPacking.ext_lanes self.now) }
    {
        self.as_view().num_scalar_evals()
    }

    /// The polynomial, borrowed in the form that it has.
    pub fn as_view(&self) -> PolyMaybePackedView<'_, F, EF>
        ensures value { view_scalars EF.ExtensionPacking.ext_lanes result ≡ scalars EF.ExtensionPacking.ext_lanes self.now }
        ensures scalar { IsScalar self.now ↔ IsScalarView result }
    {
        match self {
            PolyMaybePacked::Scalar(poly) => PolyMaybePackedView::Scalar(poly.as_view()),
            PolyMaybePacked::Packed(poly) => PolyMaybePackedView::Packed(poly.as_view()),
        }
    }

    /// The scalar table. A packed one gives its lanes, joined in order.
    ///
    /// # Errors
    /// Where the memory for the lanes is refused, or their number does not fit `usize`; the polynomial
    /// comes back. Never with scalars.
    pub fn unpack(self, alloc: Global) -> Result<Poly<EF>, (Self, AllocError)>
        ensures value { MatchResult result (λ poly. poly ≡ scalars EF.ExtensionPacking.ext_lanes self) (λ refused. refused.0 ≡ self) }
        ensures scalar { IsScalar self → IsOk result }
    {
        match self {
            PolyMaybePacked::Scalar(poly) => Ok(poly),
            PolyMaybePacked::Packed(poly) => match poly.unpack::<F, EF>(alloc) {
                Ok(evals) => Ok(evals),
                Err(error) => Err((PolyMaybePacked::Packed(poly), error)),
            },
        }
    }

    /// As [`PolyMaybePackedView::unpack_into`].
    pub fn unpack_into(&self, out: &mut [EF])
        requires { length out.old ≡ length (scalars EF.ExtensionPacking.ext_lanes self.now) }
        ensures { out.new ≡ scalars EF.ExtensionPacking.ext_lanes self.now }
    {
        self.as_view().unpack_into(out);
    }

    /// As [`PolyMaybePackedView::eval`].
    pub fn eval(&self, alloc: Global, point: &Point<EF>) -> Result<EF, AllocError>
        requires { length (scalars EF.ExtensionPacking.ext_lanes self.now) ≡ 2 ^ length point.now }
        ensures value { IfOk result (λ x. x ≡ value EF.ring (scalars EF.ExtensionPacking.ext_lanes self.now) point.now) }
        ensures small { IsScalar self.now → length point.now < threshold F.bytes_of → IsOk result }
    {
        self.as_view().eval(alloc, point)
    }

    /// A copy, in one allocation of its size.
    ///
    /// # Errors
    /// Where memory is refused.
    pub fn try_clone(&self, alloc: Global) -> Result<Self, AllocError>
        ensures { IfOk result (λ copy. copy ≡ self.now) }
    {
        match self {
            PolyMaybePacked::Scalar(poly) => Ok(PolyMaybePacked::Scalar(poly.try_clone(alloc)?)),
            PolyMaybePacked::Packed(poly) => Ok(PolyMaybePacked::Packed(poly.try_clone(alloc)?)),
        }
    }
}

impl<'a, F: Field, EF: ExtensionField<F>> PolyMaybePackedView<'a, F, EF> {
    ghost use Rattle.std.specs.Prelude.{◌≡◌, ◌^◌, ◌<◌, length, IfOk, IsOk};
    ghost use Rattle.mlu_ring.specs.Tables.{value};
    ghost use Rattle.multilinear_util.specs.Storage.{view_scalars, IsScalarView};
    ghost use Rattle.multilinear_util.specs.Thresholds.{threshold};

    /// The number of variables, those of the lanes among them. It is below 128.
    #[tactic(auto, using(crate::proofs::Packed::variables_of_lanes))]
    pub fn num_variables(&self) -> usize
        ensures value { length (view_scalars EF.ExtensionPacking.ext_lanes self.now) ≡ 2 ^ result }
        ensures small { result < 128 }
    {
        match self {
            PolyMaybePackedView::Scalar(poly) => poly.num_variables(),
            PolyMaybePackedView::Packed(poly) => {
                poly.num_variables() + log2_strict_usize(<F::Packing as PackedValue>::WIDTH)
            }
        }
    }

    /// The number of values. Asks that it fits `usize`.
    #[tactic(auto, using(mlu_eq::proofs::Lengths::length_of_lanes))]
    pub fn num_scalar_evals(&self) -> usize
        requires { length (view_scalars EF.ExtensionPacking.ext_lanes self.now) < 2 ^ 64 }
        ensures { result ≡ length (view_scalars EF.ExtensionPacking.ext_lanes self.now) }
    {
        match self {
            PolyMaybePackedView::Scalar(poly) => poly.num_evals(),
            PolyMaybePackedView::Packed(poly) => {
                poly.num_evals() * <F::Packing as PackedValue>::WIDTH
            }
        }
    }

    /// The view itself.
    pub fn as_view(&self) -> PolyMaybePackedView<'a, F, EF>
        ensures { result ≡ self.now }
    {
        *self
    }

    /// Writes the values over `out`. Asks for as many places.
    #[tactic(auto, using(mlu_eq::proofs::Lengths::length_of_lanes))]
    pub fn unpack_into(&self, out: &mut [EF])
        requires { length out.old ≡ length (view_scalars EF.ExtensionPacking.ext_lanes self.now) }
        ensures { out.new ≡ view_scalars EF.ExtensionPacking.ext_lanes self.now }
    {
        match self {
            PolyMaybePackedView::Scalar(poly) => out.copy_from_slice(poly.as_slice()),
            PolyMaybePackedView::Packed(poly) => mlu_eq::unpack_into::<F, EF>(poly.as_slice(), out),
        }
    }

    /// The value at a point. Asks for a point with as many coordinates as there are variables.
    ///
    /// # Errors
    /// Where memory is refused, but never with scalars below 9 variables where an element of `F` takes
    /// at most 4 bytes, else never below 10.
    #[tactic(auto, using(mlu_eq::proofs::Lengths::length_of_lanes))]
    pub fn eval(&self, alloc: Global, point: &Point<EF>) -> Result<EF, AllocError>
        requires { length (view_scalars EF.ExtensionPacking.ext_lanes self.now) ≡ 2 ^ length point.now }
        ensures value { IfOk result (λ x. x ≡ value EF.ring (view_scalars EF.ExtensionPacking.ext_lanes self.now) point.now) }
        ensures small { IsScalarView self.now → length point.now < threshold F.bytes_of → IsOk result }
    {
        match self {
            PolyMaybePackedView::Scalar(poly) => poly.eval_ext::<F>(alloc, point),
            PolyMaybePackedView::Packed(poly) => poly.eval_packed::<F, EF>(alloc, point),
        }
    }
}
