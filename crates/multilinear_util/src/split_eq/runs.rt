//! Prefix compressions with the first half of the table cut into runs: one body, with the form of
//! the compression as a parameter.
ghost use Rattle.std.specs.Prelude.{◌≡◌, ◌*◌, ◌<◌, ◌^◌, length, map, IfOk};
ghost use Rattle.std.specs.Int.{div_ceil};
ghost use Rattle.mlu_ring.specs.Tables.{front};
ghost use Rattle.multilinear_util.specs.Compressions.{Holds};
ghost use Rattle.multilinear_util.specs.Views.{entries};

use super::SplitEq;
use crate::poly::{Poly, PolyView};
use mlu_eq::split::runs::{PrefixCompression, compress_prefix_in_runs};
use mlu_ring::{ExtensionField, Field, PrimeCharacteristicRing};
use std::alloc::{AllocError, Global};

/// How many entries a run has where so many are cut into `parts` runs, of which the last ones may
/// be shorter or empty: the quotient, rounded up. Asks for one part or more.
#[inline]
fn run_length(entries: usize, parts: usize) -> usize
    requires { 0 < parts }
    ensures { result ≡ div_ceil entries parts }
{
    entries.div_ceil(parts)
}

impl<F: Field, EF: ExtensionField<F>> SplitEq<F, EF> {
    ghost use Rattle.multilinear_util.specs.Split.{split_entries};

    /// The compression of the polynomial, with `variables` variables of places left and the first
    /// half cut into `parts` runs.
    #[tactic(auto, using(crate::proofs::Splits::some_in_run))]
    pub(super) fn compressed<T: PrimeCharacteristicRing, P: PrefixCompression<F, EF, T>>(
        &self,
        alloc: Global,
        poly: PolyView<'_, F>,
        variables: usize,
        parts: usize,
    ) -> Result<Poly<T>, AllocError>
        requires parts { 0 < parts }
        requires fits { 2 ^ variables < 2 ^ 64 }
        requires some { 0 < length (split_entries EF.ring self.now) }
        requires size { length (entries poly) ≡ length (split_entries EF.ring self.now) * (2 ^ variables * P.width) }
        ensures { IfOk result (Holds P.lanes
            (front EF.ring (P.moved (split_entries EF.ring self.now)) (map EF.embed (entries poly.entry)))) }
    {
        let (eq0, _) = self.halves();
        let run = run_length(eq0.len(), parts);
        if run == eq0.len() {
            return self.compressed_at_once::<T, P>(alloc, poly, variables);
        }
        self.compressed_in_runs::<T, P>(alloc, poly, variables, run)
    }

    /// In one run, which is added up in the answer itself.
    fn compressed_at_once<T: PrimeCharacteristicRing, P: PrefixCompression<F, EF, T>>(
        &self,
        alloc: Global,
        poly: PolyView<'_, F>,
        variables: usize,
    ) -> Result<Poly<T>, AllocError>
        requires fits { 2 ^ variables < 2 ^ 64 }
        requires some { 0 < length (split_entries EF.ring self.now) }
        requires size { length (entries poly) ≡ length (split_entries EF.ring self.now) * (2 ^ variables * P.width) }
        ensures { IfOk result (Holds P.lanes
            (front EF.ring (P.moved (split_entries EF.ring self.now)) (map EF.embed (entries poly.entry)))) }
    {
        let mut out = Poly::zero(alloc, variables)?;
        let (eq0, eq1) = self.halves();
        P::add_run(eq0, eq1, 0, eq0.len(), out.as_mut_slice(), poly.as_slice());
        Ok(out)
    }

    /// In runs of so many entries of the first half, with an accumulator for all of them.
    fn compressed_in_runs<T: PrimeCharacteristicRing, P: PrefixCompression<F, EF, T>>(
        &self,
        alloc: Global,
        poly: PolyView<'_, F>,
        variables: usize,
        run: usize,
    ) -> Result<Poly<T>, AllocError>
        requires run { 0 < run }
        requires fits { 2 ^ variables < 2 ^ 64 }
        requires some { 0 < length (split_entries EF.ring self.now) }
        requires size { length (entries poly) ≡ length (split_entries EF.ring self.now) * (2 ^ variables * P.width) }
        ensures { IfOk result (Holds P.lanes
            (front EF.ring (P.moved (split_entries EF.ring self.now)) (map EF.embed (entries poly.entry)))) }
    {
        let mut out = Poly::zero(alloc, variables)?;
        let mut accumulator = Poly::zero(alloc, variables)?;
        let (eq0, eq1) = self.halves();
        compress_prefix_in_runs::<F, EF, T, P>(
            eq0,
            eq1,
            run,
            out.as_mut_slice(),
            accumulator.as_mut_slice(),
            poly.as_slice(),
        );
        Ok(out)
    }
}
