//! Polynomials by their tables, owned and borrowed.
ghost use Rattle.std.specs.Prelude.{◌≡◌, ◌+◌, ◌-◌, ◌/◌, ◌<◌, ◌≤◌, ◌^◌, ◌++◌, ◌∷◌, [], length, take, replicate};
ghost use Rattle.std.specs.Prelude.{IfOk, IsOk, IsTrue, MatchOption, is_ok, if◌then◌else◌};
ghost use Rattle.std.specs.Int.{is_power_of_two};
ghost use Rattle.std.specs.Borrow.{sem};
ghost use Rattle.std.specs.Cmp.Lexicographic.{pointwise, lists_per, lists_equiv};
ghost use Rattle.std.specs.Iterator.Runs.{EveryRun, ItemsAre, ItemsMapTo};
ghost use Rattle.std.specs.Slice.Iter.{iter_rest, iter_steps};
ghost use Rattle.std.specs.Vec.Iter.{into_iter_items, into_iter_steps};
ghost use Rattle.std.specs.declared.alloc.Global.{Global};
ghost use Rattle.multilinear_util.specs.Lending.{lends_entries};
ghost use Rattle.multilinear_util.specs.Views.{entries};

mod compressions;
mod evaluation;
mod folds;
mod maybe_packed;
mod packed;
mod tables;
mod view;

pub use maybe_packed::{PolyMaybePacked, PolyMaybePackedView};
use mlu_ring::{Additive, PrimeCharacteristicRing, Sample};
use rand::RngExt;
use std::alloc::{AllocError, Global};
use std::marker::Model;
use std::{slice, vec};
pub use view::PolyView;

/// A multilinear polynomial in `n` variables: its `2^n` values at the vertices, in the order of
/// their indexes, where coordinate 0 reads the top bit. Contracts see the list of the values.
#[derive(Debug, Drop)]
pub struct Poly<F> {
    evals: Vec<F>,
}

impl<F> Model for Poly<F> {
    ghost use Rattle.std.specs.Prelude.{List, length, IsTrue};
    ghost use Rattle.std.specs.Int.{is_power_of_two};

    ghost Value = { List F };

    ghost view = { λ p. p.evals.items };

    ghost invariant = { λ p. IsTrue (is_power_of_two (length p.evals.items)) };
}

impl<F: Copy> Poly<F> {
    /// The polynomial with these values. Asks that their number is a power of two.
    #[inline]
    pub fn new(evals: Vec<F>) -> Self
        requires { IsTrue (is_power_of_two (length evals.items)) }
        ensures { result ≡ evals.items }
    {
        Poly { evals }
    }

    /// The number of stored values, a power of two.
    #[inline]
    pub fn num_evals(&self) -> usize
        ensures value { result ≡ length self.now }
        ensures power { IsTrue (is_power_of_two result) }
    {
        self.as_slice().len()
    }

    /// As [`PolyView::num_variables`].
    #[inline]
    pub fn num_variables(&self) -> usize
        ensures value { length self.now ≡ 2 ^ result }
        ensures small { result < 64 }
    {
        self.as_view().num_variables()
    }

    /// The polynomial, borrowed.
    #[inline]
    pub fn as_view(&self) -> PolyView<'_, F>
        ensures { entries result ≡ self.now }
    {
        PolyView::new(self.as_slice())
    }

    /// The values.
    #[inline]
    pub fn as_slice(&self) -> &[F]
        ensures value { result.now ≡ self.now }
        ensures power { IsTrue (is_power_of_two (length result.now)) }
    {
        self.evals.as_slice()
    }

    /// The values, to be written: the polynomial ends with what is written.
    #[inline]
    pub fn as_mut_slice(&mut self) -> &mut [F]
        ensures* writes_back { sem 𝓛 (lends_entries F.row self.entry result) }
        ensures value { result.now ≡ self.old }
    {
        self.evals.as_mut_slice()
    }

    /// An iterator over the values.
    #[inline]
    pub fn iter(&self) -> slice::Iter<'_, F>
        ensures rest { iter_rest result ≡ self.now }
        ensures runs { EveryRun (iter_steps {A = F}) (λ p. ItemsMapTo p (λ y. y.now) (iter_rest p.from)) }
    {
        self.as_slice().iter()
    }

    /// The values, in their Vec. Their number is a power of two.
    #[inline]
    pub fn into_evals(self) -> Vec<F>
        ensures value { result.items ≡ self }
        ensures power { IsTrue (is_power_of_two (length result.items)) }
    {
        let Self { evals } = self;
        evals
    }

    /// As [`PolyView::as_constant`].
    #[inline]
    pub fn as_constant(&self) -> Option<F>
        ensures { MatchOption result (1 < length self.now) (λ x. self.now ≡ x ∷ []) }
    {
        self.as_view().as_constant()
    }

    /// Keeps the lower half of the values. Asks for at least one variable.
    #[tactic(auto, using(crate::proofs::Lengths::power_of_first_half))]
    pub fn truncate_to_half(&mut self)
        requires { 1 < length self.old }
        ensures { self.new ≡ take (length self.old / 2) self.old }
    {
        let half = self.evals.len() / 2;
        self.evals.truncate(half);
    }

    /// A copy, in one allocation of its size.
    ///
    /// # Errors
    /// Where memory is refused.
    pub fn try_clone(&self, alloc: Global) -> Result<Self, AllocError>
        ensures { IfOk result (λ copy. copy ≡ self.now) }
    {
        let evals = Vec::from_slice(alloc, self.as_slice())?;
        Ok(Poly { evals })
    }
}

impl<F: PrimeCharacteristicRing> Poly<F> {
    /// The zero polynomial in `variables` variables. Asks that `2^variables` fits `usize`.
    ///
    /// # Errors
    /// Where memory is refused.
    #[tactic(auto, using(crate::proofs::Lengths::power_of_size, crate::proofs::Splits::length_of_replicate))]
    pub fn zero(alloc: Global, variables: usize) -> Result<Self, AllocError>
        requires { 2 ^ variables < 2 ^ 64 }
        ensures { IfOk result (λ p. p ≡ replicate (2 ^ variables) F.ring.zero) }
    {
        let evals = F::zero_vec(alloc, table_length(variables))?;
        Ok(Poly { evals })
    }

    /// Appends zeros until there are `2^variables` values, which adds variables in front of the
    /// others. Asks that `2^variables` fits `usize`, and that `variables >= n`, where there are `2^n`
    /// values.
    ///
    /// # Errors
    /// Where memory is refused; the polynomial is then as before. Never where the size is as before.
    #[tactic(auto, using(crate::proofs::Lengths::power_of_size))]
    pub fn pad_zeros(&mut self, variables: usize) -> Result<(), AllocError>
        requires fits { 2 ^ variables < 2 ^ 64 }
        requires grows { length self.old ≤ 2 ^ variables }
        ensures padded { self.new ≡ (if is_ok result
            then self.old ++ replicate (2 ^ variables - length self.old) F.ring.zero else self.old) }
        ensures same { length self.old ≡ 2 ^ variables → IsOk result }
    {
        self.evals.resize(table_length(variables), F::ZERO)
    }
}

impl<F: Copy + Sample> Poly<F> {
    /// `2^variables` drawn values. Which ones come, and where the generator then stands, is not
    /// promised. Asks that `2^variables` fits `usize`.
    ///
    /// # Errors
    /// Where memory is refused.
    pub fn rand<R: RngExt>(alloc: Global, rng: &mut R, variables: usize) -> Result<Self, AllocError>
        requires { 2 ^ variables < 2 ^ 64 }
        ensures { IfOk result (λ p. length p ≡ 2 ^ variables) }
    {
        let num_evals = table_length(variables);
        let mut evals = Vec::with_capacity(alloc, num_evals)?;
        for _ in 0..num_evals {
            evals.push_reserved(F::sample(rng));
        }
        Ok(Poly { evals })
    }
}

impl<F: PartialEq> PartialEq for Poly<F> {
    ghost eq = { λ a b. pointwise F.eq a b };

    ghost laws = { lists_per F.laws };

    fn eq(&self, other: &Self) -> bool {
        self.evals == other.evals
    }
}

impl<F: Eq> Eq for Poly<F> {
    ghost laws = { lists_equiv F.Eq.laws };
}

impl<F: Drop> IntoIterator for Poly<F> {
    type Item = F;

    type IntoIter = vec::IntoIter<F>;

    ghost into_iter_gives = { λ v r. (into_iter_items r ≡ v)
        × EveryRun (into_iter_steps {X = F} {Z = Global}) (λ p. ItemsAre p (into_iter_items p.from)) };

    fn into_iter(self) -> vec::IntoIter<F> {
        self.evals.into_iter()
    }
}

impl<'a, F> IntoIterator for &'a Poly<F> {
    type Item = &'a F;

    type IntoIter = slice::Iter<'a, F>;

    ghost into_iter_gives = { λ poly r. (iter_rest r ≡ poly.now)
        × EveryRun (iter_steps {A = F}) (λ p. ItemsMapTo p (λ y. y.now) (iter_rest p.from)) };

    fn into_iter(self) -> slice::Iter<'a, F> {
        self.evals.iter()
    }
}

/// The number of values of a polynomial in so many variables.
#[inline]
#[tactic(auto, using(mlu_ring::proofs::PowersOfTwo::exponent_fits))]
pub(crate) fn table_length(variables: usize) -> usize
    requires { 2 ^ variables < 2 ^ 64 }
    ensures { result ≡ 2 ^ variables }
{
    1 << variables
}
