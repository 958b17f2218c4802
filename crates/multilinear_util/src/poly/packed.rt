//! Polynomials of scalars as polynomials of packed elements, and back.
ghost use Rattle.std.specs.Prelude.{◌≡◌, ◌*◌, ◌≤◌, length, IfOk};
ghost use Rattle.mlu_ring.specs.Lanes.{logical};
ghost use Rattle.multilinear_util.specs.Views.{entries};

use super::Poly;
use super::view::PolyView;
use crate::packing;
use mlu_eq::unpack_into;
use mlu_ring::{ExtensionField, Field, PackedFieldExtension};
use std::alloc::{AllocError, Global};

impl<A: Copy> PolyView<'_, A> {
    /// The packed table whose lanes, joined in order, are the values. Asks that `n >= log2(W)`, where
    /// there are `n` variables. `EF` plays no part: it stands in the original's signature.
    ///
    /// # Errors
    /// Where the memory for the table is refused.
    #[tactic(auto, using(crate::proofs::Packed::whole_groups))]
    pub fn pack<F: Field, EF: ExtensionField<F>>(
        &self,
        alloc: Global,
    ) -> Result<Poly<A::ExtensionPacking>, AllocError>
    where
        A: ExtensionField<F>,
        requires { F.Packing.WIDTH ≤ length (entries self.now) }
        ensures { IfOk result (λ packed. logical A.ExtensionPacking.ext_lanes packed ≡ entries self.now) }
    {
        Ok(Poly::new(packing::packed::<F, A>(alloc, self.as_slice())?))
    }

    /// The table of the lanes, joined in order.
    ///
    /// # Errors
    /// Where the memory for the table is refused, or the number of the lanes does not fit `usize`.
    #[tactic(auto, using(crate::proofs::Packed::power_of_logical))]
    pub fn unpack<F: Field, EF: ExtensionField<F, ExtensionPacking = A>>(
        &self,
        alloc: Global,
    ) -> Result<Poly<EF>, AllocError>
        ensures { IfOk result (λ evals. evals ≡ logical A.ext_lanes (entries self.now)) }
    {
        Ok(Poly::new(packing::unpacked::<F, EF>(alloc, self.as_slice())?))
    }

    /// Writes the lanes, joined in order, over `out`. Asks for as many values there.
    pub fn unpack_into<F: Field, EF: ExtensionField<F, ExtensionPacking = A>>(
        &self,
        out: &mut Poly<EF>,
    )
        requires { length out.old ≡ length (entries self.now) * F.Packing.WIDTH }
        ensures { out.new ≡ logical A.ext_lanes (entries self.now) }
    {
        unpack_into::<F, EF>(self.as_slice(), out.as_mut_slice());
    }
}

impl<A: Copy> Poly<A> {
    /// As [`PolyView::pack`].
    pub fn pack<F: Field, EF: ExtensionField<F>>(
        &self,
        alloc: Global,
    ) -> Result<Poly<A::ExtensionPacking>, AllocError>
    where
        A: ExtensionField<F>,
        requires { F.Packing.WIDTH ≤ length self.now }
        ensures { IfOk result (λ packed. logical A.ExtensionPacking.ext_lanes packed ≡ self.now) }
    {
        self.as_view().pack::<F, EF>(alloc)
    }

    /// As [`PolyView::unpack`].
    pub fn unpack<F: Field, EF: ExtensionField<F, ExtensionPacking = A>>(
        &self,
        alloc: Global,
    ) -> Result<Poly<EF>, AllocError>
        ensures { IfOk result (λ evals. evals ≡ logical A.ext_lanes self.now) }
    {
        self.as_view().unpack::<F, EF>(alloc)
    }

    /// As [`PolyView::unpack_into`].
    pub fn unpack_into<F: Field, EF: ExtensionField<F, ExtensionPacking = A>>(
        &self,
        out: &mut Poly<EF>,
    )
        requires { length out.old ≡ length self.now * F.Packing.WIDTH }
        ensures { out.new ≡ logical A.ext_lanes self.now }
    {
        self.as_view().unpack_into::<F, EF>(out);
    }
}
