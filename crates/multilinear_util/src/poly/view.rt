//! Polynomials that borrow their values.
ghost use Rattle.std.specs.Prelude.{◌≡◌, ⊤, ◌<◌, ◌^◌, ◌∷◌, [], length, IsTrue, MatchOption};
ghost use Rattle.std.specs.Int.{is_power_of_two};

use mlu_eq::eval_ext;
use mlu_ring::{AffineInEach, PrimeCharacteristicRing};
use std::alloc::AllocError;
use std::slice;

/// A multilinear polynomial that borrows its values.
#[derive(Debug, PartialEq, Eq)]
pub struct PolyView<'a, F> {
    evals: &'a [F],
    ghost power: { IsTrue (is_power_of_two (length evals.now)) },
}

/// The same view, never an error.
impl<F> Clone for PolyView<'_, F> {
    ghost is_clone = { λ a b. a ≡ b };

    ghost is_infallible = { λ _. ⊤ };

    fn clone(&self) -> Result<Self, AllocError> {
        Ok(*self)
    }
}

impl<F> Copy for PolyView<'_, F> {}

impl<'a, F: Copy> PolyView<'a, F> {
    ghost use Rattle.std.specs.Slice.Iter.{iter_rest, iter_steps};
    ghost use Rattle.std.specs.Iterator.Runs.{EveryRun, ItemsMapTo};
    ghost use Rattle.multilinear_util.specs.Views.{entries, variables};

    /// The polynomial with these values. Asks that their number is a power of two.
    #[inline]
    pub fn new(evals: &'a [F]) -> Self
        requires { IsTrue (is_power_of_two (length evals.now)) }
        ensures { entries result ≡ evals.now }
    {
        PolyView { evals }
    }

    /// The number of values, a power of two.
    #[inline]
    pub fn num_evals(&self) -> usize
        ensures value { result ≡ length (entries self.now) }
        ensures power { IsTrue (is_power_of_two result) }
    {
        self.as_slice().len()
    }

    /// The number of variables: `n`, where there are `2^n` values. It is below 64. A packed table
    /// counts its elements: the variables of the lanes are not among them.
    #[inline]
    #[tactic(auto, using(mlu_ring::proofs::PowersOfTwo::power_of_test, crate::proofs::Lengths::zeros_of_power))]
    pub fn num_variables(&self) -> usize
        ensures value { length (entries self.now) ≡ 2 ^ result }
        ensures small { result < 64 }
        ensures same { result ≡ variables self.now }
    {
        self.evals.len().trailing_zeros() as usize
    }

    /// The view itself.
    #[inline]
    pub fn as_view(&self) -> PolyView<'a, F>
        ensures { result ≡ self.now }
    {
        *self
    }

    /// The values.
    #[inline]
    pub fn as_slice(&self) -> &[F]
        ensures value { result.now ≡ entries self.now }
        ensures power { IsTrue (is_power_of_two (length result.now)) }
    {
        self.into_slice()
    }

    /// The values, for as long as they are borrowed.
    #[inline]
    pub fn into_slice(self) -> &'a [F]
        ensures value { result.now ≡ entries self.entry }
        ensures power { IsTrue (is_power_of_two (length result.now)) }
    {
        let Self { evals } = self;
        evals
    }

    /// An iterator over the values.
    #[inline]
    pub fn iter(&self) -> slice::Iter<'_, F>
        ensures rest { iter_rest result ≡ entries self.now }
        ensures runs { EveryRun (iter_steps {A = F}) (λ p. ItemsMapTo p (λ y. y.now) (iter_rest p.from)) }
    {
        self.evals.iter()
    }

    /// The value of a polynomial without variables, and `None` exactly where there are more values.
    #[inline]
    pub fn as_constant(&self) -> Option<F>
        ensures { MatchOption result (1 < length (entries self.now)) (λ x. entries self.now ≡ x ∷ []) }
    {
        match self.evals {
            [constant] => Some(*constant),
            _ => None,
        }
    }
}

/// The function is the value at a point, by the recursion on the first variable: it takes no
/// memory. Its `arity` is the number of variables, by clause `same` of [`PolyView::num_variables`].
impl<EF: PrimeCharacteristicRing> AffineInEach<EF> for PolyView<'_, EF> {
    ghost use Rattle.mlu_ring.specs.Tables.{value};
    ghost use Rattle.mlu_ring.proofs.Coordinates.{value-affine_in_each};
    ghost use Rattle.multilinear_util.specs.Views.{entries, variables};

    ghost coordinates = { variables };

    ghost value_at = { λ view point. value EF.ring (entries view) point };

    #[inline]
    fn arity(&self) -> usize {
        self.num_variables()
    }

    #[tactic(auto, using(mlu_ring::proofs::PowersOfTwo::power_of_test))]
    fn at(&self, point: &[EF]) -> EF {
        eval_ext(self.as_slice(), point)
    }

    ghost affine = { λ view. value-affine_in_each EF.ring EF.Additive.laws (variables view) (entries view) };
}
