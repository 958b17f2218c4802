//! The value of a polynomial at a point.
ghost use Rattle.std.specs.Prelude.{◌≡◌, ◌<◌, ◌-◌, ◌*◌, ◌/◌, ◌^◌, length, map, IfOk, IsOk};
ghost use Rattle.mlu_ring.specs.Lanes.{logical};
ghost use Rattle.mlu_ring.specs.Successor.{next};
ghost use Rattle.mlu_ring.specs.Tables.{pair, value, weights};
ghost use Rattle.mlu_point.specs.Rules.{next_by};
ghost use Rattle.multilinear_util.specs.Split.{split_entries};
ghost use Rattle.multilinear_util.specs.Thresholds.{threshold};
ghost use Rattle.multilinear_util.specs.Views.{entries};

use super::Poly;
use super::view::PolyView;
use crate::split_eq::SplitEq;
use mlu_eq::{eval_base, eval_ext};
use mlu_point::point::{Point, Successor};
use mlu_ring::{ExtensionField, Field, PackedValue};
use std::alloc::{AllocError, Global};

/// The bytes of a base element up to which the split table serves one variable earlier.
const WORD_BYTES: usize = 4;

/// How many coefficients weights have where base entries meet them faster unpacked: four entries are a
/// row and the coefficients of their weights a matrix, whose product is reduced once.
const COEFFICIENTS: usize = 4;

/// The most variables of a table whose second half has its weights read to the stack, where these have
/// one coefficient: then a row is a dot of base elements. Twice the logarithm of the 1024 that `mlu_eq`
/// reads at most.
const MOST_VARIABLES: usize = 20;

/// The number of variables from which a split table serves better than the recursion, which takes
/// no memory.
#[inline]
fn recursion_threshold(bytes: usize) -> usize
    ensures { result ≡ threshold bytes }
{
    if bytes <= WORD_BYTES { 9 } else { 10 }
}

/// Whether base entries of so many variables meet scalar weights faster than packed ones.
#[inline]
fn takes_scalars<F: Field, EF: ExtensionField<F>>(variables: usize) -> bool {
    EF::DIMENSION == COEFFICIENTS || EF::DIMENSION == 1 && variables <= MOST_VARIABLES
}

/// The split table of the point, in the form that serves base entries better. Asks that the weights of
/// each half fit `usize`.
fn split_for_base<F: Field, EF: ExtensionField<F>>(
    alloc: Global,
    point: &Point<EF>,
) -> Result<SplitEq<F, EF>, AllocError>
    requires { 2 ^ (length point.now - length point.now / 2) < 2 ^ 64 }
    ensures value { IfOk result (λ split. split_entries EF.ring split ≡ map (EF.ring.product EF.ONE) (weights EF.ring point.now)) }
    ensures size { IfOk result (λ split. length (split_entries EF.ring split) ≡ 2 ^ length point.now) }
{
    if takes_scalars::<F, EF>(point.num_variables()) {
        return SplitEq::new_unpacked(alloc, point, EF::ONE);
    }
    SplitEq::new_packed(alloc, point, EF::ONE)
}

impl<F: Field> PolyView<'_, F> {
    /// The value at a point of the extension `EF`. Asks for a point with as many coordinates as
    /// there are variables.
    ///
    /// # Errors
    /// Where memory is refused, but never below 9 variables where a value of the table takes at most
    /// 4 bytes, else never below 10.
    #[tactic(auto, using(crate::proofs::Splits::half_fits))]
    pub fn eval_base<EF: ExtensionField<F>>(
        &self,
        alloc: Global,
        point: &Point<EF>,
    ) -> Result<EF, AllocError>
        requires { length (entries self.now) ≡ 2 ^ length point.now }
        ensures value { IfOk result (λ x. x ≡ value EF.ring (map EF.embed (entries self.now)) point.now) }
        ensures small { length point.now < threshold F.bytes_of → IsOk result }
    {
        if point.num_variables() < recursion_threshold(F::bytes()) {
            return Ok(eval_base(self.as_slice(), point.as_slice()));
        }
        let split = split_for_base(alloc, point)?;
        Ok(split.eval_base(*self))
    }

    /// The sum of the weight at the point of each vertex times the value at the next: the weight of
    /// `x` times value `x + 1`, and the last weight times the last value. Asks for a point with as
    /// many coordinates as there are variables.
    ///
    /// # Errors
    /// Where memory is refused.
    pub fn eval_next_base<EF: ExtensionField<F>>(
        &self,
        alloc: Global,
        point: &Point<EF>,
    ) -> Result<EF, AllocError>
        requires { length (entries self.now) ≡ 2 ^ length point.now }
        ensures { IfOk result (λ x. x ≡ pair EF.ring (next EF.ring (weights EF.ring point.now)) (map EF.embed (entries self.now))) }
    {
        self.eval_next_base_by(alloc, Successor::RepeatLast, point)
    }

    /// The sum of the weight at the point of each vertex times the value at its successor by the
    /// rule: the weight of `x` times value `x + 1`, and the last weight times the last value or the
    /// first. Asks for a point with as many coordinates as there are variables.
    ///
    /// # Errors
    /// Where memory is refused.
    #[tactic(auto, using(crate::proofs::Splits::half_fits))]
    pub fn eval_next_base_by<EF: ExtensionField<F>>(
        &self,
        alloc: Global,
        rule: Successor,
        point: &Point<EF>,
    ) -> Result<EF, AllocError>
        requires { length (entries self.now) ≡ 2 ^ length point.now }
        ensures { IfOk result (λ x. x ≡ pair EF.ring (next_by rule EF.ring (weights EF.ring point.now)) (map EF.embed (entries self.now))) }
    {
        let split = split_for_base(alloc, point)?;
        Ok(split.eval_next_base_by(rule, *self))
    }

    /// The value at a point of the table's own field, an extension of `BaseField`. Asks for a point
    /// with as many coordinates as there are variables.
    ///
    /// # Errors
    /// Where memory is refused, but never below 9 variables where an element of `BaseField` takes at
    /// most 4 bytes, else never below 10.
    #[tactic(auto, using(crate::proofs::Splits::half_fits))]
    pub fn eval_ext<BaseField: Field>(
        &self,
        alloc: Global,
        point: &Point<F>,
    ) -> Result<F, AllocError>
    where
        F: ExtensionField<BaseField>,
        requires { length (entries self.now) ≡ 2 ^ length point.now }
        ensures value { IfOk result (λ x. x ≡ value F.ring (entries self.now) point.now) }
        ensures small { length point.now < threshold BaseField.bytes_of → IsOk result }
    {
        if point.num_variables() < recursion_threshold(BaseField::bytes()) {
            return Ok(eval_ext(self.as_slice(), point.as_slice()));
        }
        let split = SplitEq::<BaseField, F>::new_unpacked(alloc, point, F::ONE)?;
        Ok(split.eval_ext(*self))
    }
}

impl<A: Copy> PolyView<'_, A> {
    /// The value at a point of the table of the lanes, joined in order. Asks for a point with as many
    /// coordinates as that table has variables.
    ///
    /// # Errors
    /// Where memory is refused.
    pub fn eval_packed<F: Field, EF: ExtensionField<F, ExtensionPacking = A>>(
        &self,
        alloc: Global,
        point: &Point<EF>,
    ) -> Result<EF, AllocError>
        requires { length (entries self.now) * F.Packing.WIDTH ≡ 2 ^ length point.now }
        ensures { IfOk result (λ x. x ≡ value EF.ring (logical A.ext_lanes (entries self.now)) point.now) }
    {
        value_of_lanes::<F, EF>(alloc, *self, point)
    }
}

/// The value of the table of the lanes, joined in order.
fn value_of_lanes<F: Field, EF: ExtensionField<F>>(
    alloc: Global,
    poly: PolyView<'_, EF::ExtensionPacking>,
    point: &Point<EF>,
) -> Result<EF, AllocError>
    requires { length (entries poly) * F.Packing.WIDTH ≡ 2 ^ length point.now }
    ensures { IfOk result (λ x. x ≡ value EF.ring (logical EF.ExtensionPacking.ext_lanes (entries poly.entry)) point.now) }
{
    // Elements and lanes are each counted by a word, so the weights of each half are too.
    prove!(F::Packing::WIDTH.is_power_of_two());
    let split = SplitEq::<F, EF>::new_packed(alloc, point, EF::ONE)?;
    split.eval_packed(alloc, poly)
}

impl<F: Field> Poly<F> {
    /// As [`PolyView::eval_base`].
    pub fn eval_base<EF: ExtensionField<F>>(
        &self,
        alloc: Global,
        point: &Point<EF>,
    ) -> Result<EF, AllocError>
        requires { length self.now ≡ 2 ^ length point.now }
        ensures value { IfOk result (λ x. x ≡ value EF.ring (map EF.embed self.now) point.now) }
        ensures small { length point.now < threshold F.bytes_of → IsOk result }
    {
        self.as_view().eval_base(alloc, point)
    }

    /// As [`PolyView::eval_next_base`].
    pub fn eval_next_base<EF: ExtensionField<F>>(
        &self,
        alloc: Global,
        point: &Point<EF>,
    ) -> Result<EF, AllocError>
        requires { length self.now ≡ 2 ^ length point.now }
        ensures { IfOk result (λ x. x ≡ pair EF.ring (next EF.ring (weights EF.ring point.now)) (map EF.embed self.now)) }
    {
        self.as_view().eval_next_base(alloc, point)
    }

    /// As [`PolyView::eval_next_base_by`].
    pub fn eval_next_base_by<EF: ExtensionField<F>>(
        &self,
        alloc: Global,
        rule: Successor,
        point: &Point<EF>,
    ) -> Result<EF, AllocError>
        requires { length self.now ≡ 2 ^ length point.now }
        ensures { IfOk result (λ x. x ≡ pair EF.ring (next_by rule EF.ring (weights EF.ring point.now)) (map EF.embed self.now)) }
    {
        self.as_view().eval_next_base_by(alloc, rule, point)
    }

    /// As [`PolyView::eval_ext`].
    pub fn eval_ext<BaseField: Field>(
        &self,
        alloc: Global,
        point: &Point<F>,
    ) -> Result<F, AllocError>
    where
        F: ExtensionField<BaseField>,
        requires { length self.now ≡ 2 ^ length point.now }
        ensures value { IfOk result (λ x. x ≡ value F.ring self.now point.now) }
        ensures small { length point.now < threshold BaseField.bytes_of → IsOk result }
    {
        self.as_view().eval_ext::<BaseField>(alloc, point)
    }
}

impl<A: Copy> Poly<A> {
    /// As [`PolyView::eval_packed`].
    pub fn eval_packed<F: Field, EF: ExtensionField<F, ExtensionPacking = A>>(
        &self,
        alloc: Global,
        point: &Point<EF>,
    ) -> Result<EF, AllocError>
        requires { length self.now * F.Packing.WIDTH ≡ 2 ^ length point.now }
        ensures { IfOk result (λ x. x ≡ value EF.ring (logical A.ext_lanes self.now) point.now) }
    {
        self.as_view().eval_packed::<F, EF>(alloc, point)
    }
}
