//! Equality tables kept in two halves.
//!
//! The table of a point keeps `eq0`, the weights of the first half of the coordinates, rounded down,
//! times the scale, and `eq1`, the weights of the others, as scalars or packed. With `L` weights in
//! `eq1`, entry `x` of the whole table is `eq0[x / L] * eq1[x % L]`; it takes the memory of two tables
//! of half as many variables. Evaluations, accumulations and compressions go over the halves.
ghost use Rattle.std.specs.Prelude.{◌≡◌, ◌-◌, ◌*◌, ◌/◌, ◌^◌, ◌<◌, ◌≤◌, ◌↔◌, length, map, slice_index_or, IfOk, IsTrue};
ghost use Rattle.mlu_ring.specs.Ring.{IsRingMap};
ghost use Rattle.mlu_ring.specs.Tables.{weights};

mod accumulation;
mod compression;
pub mod eq;
mod evaluation;
mod runs;

use crate::point::Point;
use crate::poly::Poly;
use eq::EqMaybePacked;
use mlu_eq::half;
use mlu_ring::{Additive, ExtensionField, Field, Lanewise, MapFrom, PackedValue};
use std::alloc::{AllocError, Global};
use std::marker::Model;

/// The equality table of a point, times a scale, in two halves.
///
/// Contracts see the first half, and the second with its form.
#[derive(Drop)]
#[derive_where(Debug; F, EF, EF::ExtensionPacking)]
pub struct SplitEq<F: Field, EF: ExtensionField<F>> {
    eq0: Poly<EF>,
    eq1: EqMaybePacked<F, EF>,
}

impl<F: Field, EF: ExtensionField<F>> Model for SplitEq<F, EF> {
    ghost use Rattle.multilinear_util.specs.Split.{Split};

    ghost Value = { Split EF };

    ghost view = { λ split. record { eq0 = split.eq0; eq1 = split.eq1 } };
}

impl<F: Field, EF: ExtensionField<F>> SplitEq<F, EF> {
    ghost use Rattle.multilinear_util.specs.Split.{split_entries, HasHalves, HasImages};

    /// The table of the point, times `scale`, with scalars in both halves. Asks that `2^(k - k / 2)` fits
    /// `usize`, where the point has `k` coordinates.
    ///
    /// # Errors
    /// Where memory is refused.
    pub fn new_unpacked(alloc: Global, point: &Point<EF>, scale: EF) -> Result<Self, AllocError>
        requires { 2 ^ (length point.now - length point.now / 2) < 2 ^ 64 }
        ensures value { IfOk result (λ split. split_entries EF.ring split ≡ map (EF.ring.product scale) (weights EF.ring point.now)) }
        ensures size { IfOk result (λ split. length (split_entries EF.ring split) ≡ 2 ^ length point.now) }
        ensures halves { IfOk result (HasHalves EF.ring scale point.now) }
        ensures scalar { IfOk result (λ split. IsTrue split.eq1.packed → ⊥) }
    {
        let coordinates = point.as_slice();
        let (first, second) = coordinates.split_at(coordinates.len() / 2);
        let eq0 = Poly::new_from_point(alloc, first, scale)?;
        let eq1 = Poly::new_from_point(alloc, second, EF::ONE)?;
        Ok(SplitEq {
            eq0,
            eq1: half::from_scalars(eq1.into_evals()),
        })
    }

    /// The table of the point, times `scale`, whose second half is packed exactly where it has `log2(W)`
    /// variables or more. Asks that `2^(k - k / 2)` fits `usize`, where the point has `k` coordinates.
    ///
    /// # Errors
    /// Where memory is refused.
    pub fn new_packed(alloc: Global, point: &Point<EF>, scale: EF) -> Result<Self, AllocError>
        requires { 2 ^ (length point.now - length point.now / 2) < 2 ^ 64 }
        ensures value { IfOk result (λ split. split_entries EF.ring split ≡ map (EF.ring.product scale) (weights EF.ring point.now)) }
        ensures size { IfOk result (λ split. length (split_entries EF.ring split) ≡ 2 ^ length point.now) }
        ensures halves { IfOk result (HasHalves EF.ring scale point.now) }
        ensures packed { IfOk result (λ split. IsTrue split.eq1.packed ↔ F.Packing.LOG_WIDTH ≤ length point.now - length point.now / 2) }
    {
        let coordinates = point.as_slice();
        let (first, second) = coordinates.split_at(coordinates.len() / 2);
        if second.len() < <F::Packing as PackedValue>::LOG_WIDTH {
            return SplitEq::new_unpacked(alloc, point, scale);
        }
        let eq0 = Poly::new_from_point(alloc, first, scale)?;
        let eq1 = Poly::new_packed_from_point::<F, EF>(alloc, second, EF::ONE)?;
        Ok(SplitEq {
            eq0,
            eq1: half::from_packed(eq1.into_evals()),
        })
    }

    /// The table whose halves are the images of these, as scalars. Where images keep sums and
    /// products, its entries are the images of the entries.
    ///
    /// # Errors
    /// Where memory is refused, or the number of weights of the second half does not fit `usize`.
    #[tactic(auto, using(crate::proofs::Splits::contents_of_images))]
    pub fn to_field<R: ExtensionField<R> + MapFrom<EF>>(
        &self,
        alloc: Global,
    ) -> Result<SplitEq<R, R>, AllocError>
        ensures first { IfOk result (λ split. split.eq0 ≡ map R.image self.now.eq0) }
        ensures second { IfOk result (λ split. split.eq1.weights ≡ map R.image self.now.eq1.weights) }
        ensures scalar { IfOk result (λ split. IsTrue split.eq1.packed → ⊥) }
        ensures images { IsRingMap EF.ring R.ring R.image → IfOk result (HasImages EF.ring R.ring R.image self.now) }
    {
        let eq0 = Poly::new(half::images(alloc, self.eq0.as_slice())?);
        let eq1 = half::to_field(alloc, &self.eq1)?;
        Ok(SplitEq { eq0, eq1 })
    }

    /// The number of variables. It is below 192.
    #[tactic(auto, using(crate::proofs::Splits::entries_of_powers))]
    pub fn num_variables(&self) -> usize
        ensures value { length (split_entries EF.ring self.now) ≡ 2 ^ result }
        ensures small { result < 192 }
    {
        self.eq0().num_variables() + self.eq1().num_variables()
    }

    /// The last entry of the table.
    pub fn last_scalar(&self) -> EF
        ensures { result ≡ slice_index_or (split_entries EF.ring self.now) (length (split_entries EF.ring self.now) - 1) EF.ring.zero }
    {
        let eq0 = self.eq0().as_slice();
        eq0[eq0.len() - 1] * self.eq1().last_scalar()
    }

    /// The first half, with the scale in it.
    pub fn eq0(&self) -> &Poly<EF>
        ensures { result.now ≡ self.now.eq0 }
    {
        &self.eq0
    }

    /// The second half.
    pub fn eq1(&self) -> &EqMaybePacked<F, EF>
        ensures { result.now ≡ self.now.eq1 }
    {
        &self.eq1
    }

    /// Both halves, as the kernels take them.
    #[inline]
    #[tactic(auto, using(mlu_eq::proofs::Lengths::positive_of_test, crate::proofs::Splits::size_of_contents))]
    fn halves(&self) -> (&[EF], &EqMaybePacked<F, EF>)
        ensures first { result.0.now ≡ self.now.eq0 }
        ensures second { result.1.now ≡ self.now.eq1 }
        ensures some { 0 < length result.0.now }
        ensures size { length (split_entries EF.ring self.now) ≡ length result.0.now * length result.1.now.weights }
    {
        (self.eq0.as_slice(), &self.eq1)
    }

    /// A copy.
    ///
    /// # Errors
    /// Where memory is refused.
    pub fn try_clone(&self, alloc: Global) -> Result<Self, AllocError>
        ensures { IfOk result (λ copy. copy ≡ self.now) }
    {
        Ok(SplitEq {
            eq0: self.eq0.try_clone(alloc)?,
            eq1: self.eq1.try_clone(alloc)?,
        })
    }
}
