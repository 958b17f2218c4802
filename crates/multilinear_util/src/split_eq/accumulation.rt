//! A split table, times a scale, added to an output.
ghost use Rattle.std.specs.Prelude.{◌≡◌, ◌*◌, ◌^◌, ◌<◌, ◌≤◌, length, IfOk, IsOk, IsTrue, OnErr};
ghost use Rattle.std.specs.Simd.Lanes.{zip2};
ghost use Rattle.mlu_ring.specs.Sums.{plus_scaled};
ghost use Rattle.mlu_ring.specs.Lanes.{logical};

use super::SplitEq;
use crate::poly::{Poly, table_length};
use mlu_eq::split;
use mlu_ring::{
    Additive, ExtensionField, Field, Lanewise, PackedFieldExtension, PackedValue, row_of,
};
use std::alloc::{AllocError, Global};

impl<F: Field, EF: ExtensionField<F>> SplitEq<F, EF> {
    ghost use Rattle.multilinear_util.specs.Split.{split_entries, scale_or_one, AddsTable};

    /// Adds each entry, times `scale`, to its place of `out`; no scale is a scale of one. Asks for
    /// as many places as there are entries.
    pub fn accumulate_into(&self, out: &mut [EF], scale: Option<EF>)
        requires { length out.old ≡ length (split_entries EF.ring self.now) }
        ensures { out.new ≡ plus_scaled EF.ring out.old (scale_or_one EF.ring scale) (split_entries EF.ring self.now) }
    {
        let (eq0, eq1) = self.halves();
        split::accumulate_into(eq0, eq1, out, scale.unwrap_or(EF::ONE));
    }

    /// [`SplitEq::accumulate_into`] with packed places, which stand for their lanes. Asks for as many
    /// lanes as there are entries.
    ///
    /// # Errors
    /// Where the memory for the whole table is refused, or the number of its entries does not fit
    /// `usize`; `out` is then as before. Never where the second half is packed and `k >= 2 log2(W)`,
    /// where the table has `k` variables.
    #[tactic(auto, using(crate::proofs::Splits::lanes_twice))]
    pub fn accumulate_into_packed(
        &self,
        alloc: Global,
        out: &mut [EF::ExtensionPacking],
        scale: Option<EF>,
    ) -> Result<(), AllocError>
        requires { length out.old * F.Packing.WIDTH ≡ length (split_entries EF.ring self.now) }
        ensures ok { IfOk result (λ _. AddsTable EF.ring EF.ExtensionPacking.ext_lanes scale self.now out.old out.new) }
        ensures err { OnErr result (out.new ≡ out.old) }
        ensures packed { IsTrue self.now.eq1.packed → F.Packing.WIDTH * F.Packing.WIDTH ≤ length out.old * F.Packing.WIDTH → IsOk result }
    {
        let has_packings = self.num_variables() / 2 >= <F::Packing as PackedValue>::LOG_WIDTH;
        if !self.eq1().is_packed() || !has_packings {
            return self.add_table(alloc, out, scale);
        }
        let (eq0, eq1) = self.halves();
        split::accumulate_into_packed(eq0, eq1, out, scale.unwrap_or(EF::ONE));
        Ok(())
    }

    /// The accumulation through the whole table.
    fn add_table(
        &self,
        alloc: Global,
        out: &mut [EF::ExtensionPacking],
        scale: Option<EF>,
    ) -> Result<(), AllocError>
        requires { length out.old * F.Packing.WIDTH ≡ length (split_entries EF.ring self.now) }
        ensures ok { IfOk result (λ _. AddsTable EF.ring EF.ExtensionPacking.ext_lanes scale self.now out.old out.new) }
        ensures err { OnErr result (out.new ≡ out.old) }
    {
        let Some(entries) = out.len().checked_mul(<F::Packing as PackedValue>::WIDTH) else {
            return Err(AllocError);
        };
        let mut table = EF::zero_vec(alloc, entries)?;
        self.accumulate_into(table.as_mut_slice(), scale);
        add_groups::<F, EF>(out, table.as_slice());
        Ok(())
    }

    /// The whole table. Asks that the number of its entries fits `usize`.
    ///
    /// # Errors
    /// Where the memory for the table is refused.
    #[tactic(auto, using(crate::proofs::Lengths::power_of_size))]
    pub fn materialize(&self, alloc: Global) -> Result<Poly<EF>, AllocError>
        requires { length (split_entries EF.ring self.now) < 2 ^ 64 }
        ensures { IfOk result (λ poly. poly ≡ split_entries EF.ring self.now) }
    {
        let mut entries = Vec::with_capacity(alloc, table_length(self.num_variables()))?;
        let (eq0, eq1) = self.halves();
        split::append_entries(eq0, eq1, &mut entries);
        Ok(Poly::new(entries))
    }
}

/// Adds the values to the lanes, joined in order.
fn add_groups<F: Field, EF: ExtensionField<F>>(out: &mut [EF::ExtensionPacking], values: &[EF])
    requires { length values.now ≡ length out.old * F.Packing.WIDTH }
    ensures { logical EF.ExtensionPacking.ext_lanes out.new ≡ zip2 EF.ring.sum (logical EF.ExtensionPacking.ext_lanes out.old) values.now }
{
    for i in 0..out.len() {
        let group = EF::ExtensionPacking::from_ext_slice(row_of(values, out.len(), i));
        out[i] = out[i] + group;
    }
}
