//! Extensions of a field by their coefficients, and their packed forms.
ghost use Rattle.std.specs.Prelude.{◌≡◌, ◌<◌, ℕ, List, [], ◌∷◌, length, map, replicate, slice_index_or, slice_set};
ghost use Rattle.std.specs.Simd.Lanes.{zip2};
ghost use Rattle.mlu_ring.specs.Calls.{AreAllowed, AnswersInTurn};
ghost use Rattle.mlu_ring.specs.Lanes.{IsLists, IsLaneByLane, IsTransposed, logical};

use crate::additive::Additive;
use crate::algebra::Algebra;
use crate::ext_lanes::ExtLanes;
use crate::field::Field;
use crate::packed::{Lanewise, PackedValue};
use crate::ring::PrimeCharacteristicRing;

/// The dimension whose coefficients are written out: the compiler does not unroll a loop over them, and would
/// prepare those of an element at each turn.
const FOUR: usize = 4;

/// A ring whose elements are lists of `DIMENSION` coefficients in `F`, and each coefficient is
/// linear over `F`.
pub trait ExtensionField<F: Field>: Field + Algebra<F> {
    /// The packed form of the extension over that of `F`.
    type ExtensionPacking: PackedFieldExtension<F, Self>;

    /// The number of coefficients.
    const DIMENSION: usize;

    ghost DIMENSION: { ℕ };

    ghost coefficients: { Self → List F };

    ghost of_coefficients: { List F → Self };

    /// Coefficient `k`. Asks that `k` is below `DIMENSION`.
    fn coefficient(&self, k: usize) -> F
        requires { k < DIMENSION }
        ensures { (d : F) → result ≡ slice_index_or (coefficients self.now) k d };

    /// Puts `c` in the place of coefficient `k`. Asks that `k` is below `DIMENSION`.
    fn set_coefficient(&mut self, k: usize, c: F)
        requires { k < DIMENSION }
        ensures { coefficients self.new ≡ slice_set (coefficients self.old) k c };

    /// The element whose coefficient `k` is `f(k)`. `f` is called once for each of 0, 1, .. in
    /// order, in the state that the call before left. Asks that `f` accepts each of these numbers in
    /// every state that the calls before it can leave.
    final fn from_coefficients_fn<G: FnMut(usize) -> F>(mut f: G) -> Self
        requires { AreAllowed (λ s k. G.pre s k) (λ s k c t. G.step s k c t) DIMENSION f }
        ensures { AnswersInTurn (λ s k c t. G.step s k c t) DIMENSION
            (λ k. slice_index_or (coefficients result) k F.ring.zero) f }
    {
        let mut element = Self::ZERO;
        for k in 0..Self::DIMENSION {
            let c = f(k);
            element.set_coefficient(k, c);
        }
        element
    }

    ghost coefficients_are: { IsLists DIMENSION coefficients of_coefficients };

    ghost coefficients_sum: { (a b : Self) → coefficients (Self.ring.sum a b) ≡ zip2 F.ring.sum (coefficients a) (coefficients b) };

    ghost coefficients_scale: { (a : Self) (f : F) → coefficients (Self.ring.product a (Self.embed f))
        ≡ map (λ c. F.ring.product c f) (coefficients a) };
}

/// The packed form of the extension `EF` of `F`: as many elements of `EF` side by side as a
/// packing of `F` has lanes.
///
/// Coefficient `c` of lane `k` is lane `k` of packed coefficient `c`, and the operators work lane
/// by lane. An element of `EF` stands for itself in every lane, and a packing of `F` for the images
/// of its lanes.
pub trait PackedFieldExtension<F: Field, EF: ExtensionField<F>>: PrimeCharacteristicRing
    + Algebra<EF>
    + Algebra<F::Packing> {
    ghost ext_lanes: { Self → List EF };

    ghost of_ext_lanes: { List EF → Self };

    ghost packed_coefficients: { Self → List F.Packing };

    ghost of_packed_coefficients: { List F.Packing → Self };

    /// The packed value with these lanes. Asks for as many values as a packing has lanes.
    fn from_ext_slice(values: &[EF]) -> Self
        requires { length values.now ≡ F.Packing.WIDTH }
        ensures { ext_lanes result ≡ values.now };

    /// Writes the lanes. Asks for as many places as a packing has lanes.
    fn store_ext(&self, out: &mut [EF])
        requires { length out.old ≡ F.Packing.WIDTH }
        ensures { out.new ≡ ext_lanes self.now };

    /// Lane `k`. Asks that `k` is below the width of a packing.
    fn ext_lane(&self, k: usize) -> EF
        requires { k < F.Packing.WIDTH }
        ensures { (d : EF) → result ≡ slice_index_or (ext_lanes self.now) k d };

    /// Coefficient `k` of every lane. Asks that `k` is below the dimension.
    fn packed_coefficient(&self, k: usize) -> F::Packing
        requires { k < EF.DIMENSION }
        ensures { (d : F.Packing) → result ≡ slice_index_or (packed_coefficients self.now) k d };

    /// Puts `c` in the place of coefficient `k` of every lane. Asks that `k` is below the
    /// dimension.
    fn set_packed_coefficient(&mut self, k: usize, c: F::Packing)
        requires { k < EF.DIMENSION }
        ensures { packed_coefficients self.new ≡ slice_set (packed_coefficients self.old) k c };

    /// The packed value whose coefficient `k` is `f(k)`. `f` is called as by
    /// [`ExtensionField::from_coefficients_fn`], under the same condition.
    final fn from_packed_coefficients_fn<G: FnMut(usize) -> F::Packing>(mut f: G) -> Self
        requires { AreAllowed (λ s k. G.pre s k) (λ s k c t. G.step s k c t) EF.DIMENSION f }
        ensures { AnswersInTurn (λ s k c t. G.step s k c t) EF.DIMENSION
            (λ k. slice_index_or (packed_coefficients result) k F.Packing.ring.zero) f }
    {
        let mut packed = Self::ZERO;
        for k in 0..EF::DIMENSION {
            let c = f(k);
            packed.set_packed_coefficient(k, c);
        }
        packed
    }

    /// The lanes of all packed values, in order.
    final fn to_ext_iter(packed: &[Self]) -> ExtLanes<'_, F, EF, Self>
        ensures { result ≡ logical ext_lanes packed.now }
    {
        ExtLanes::new(packed)
    }

    ghost lanes_are: { IsLists F.Packing.WIDTH ext_lanes of_ext_lanes };

    ghost coefficients_are: { IsLists EF.DIMENSION packed_coefficients of_packed_coefficients };

    ghost lane_by_lane: { IsLaneByLane F.Packing.WIDTH ext_lanes Self.ring EF.ring };

    ghost embeds_element: { (x : EF) → ext_lanes (⟦<Self as Algebra<EF>>⟧.embed x) ≡ replicate F.Packing.WIDTH x };

    ghost embeds_packing: { (p : F.Packing) → ext_lanes (⟦<Self as Algebra<F::Packing>>⟧.embed p) ≡ map EF.embed (F.Packing.lanes p) };

    ghost transposed: { IsTransposed F.Packing.WIDTH EF.DIMENSION ext_lanes EF.coefficients packed_coefficients F.Packing.lanes
        EF.ring F.Packing.ring F.ring };
}

/// The product with a packing of the base: one product in lanes for each coefficient.
#[inline]
pub fn scale_by_packing<F: Field, EF: ExtensionField<F>>(
    packed: EF::ExtensionPacking,
    factor: F::Packing,
) -> EF::ExtensionPacking
    ensures { EF.ExtensionPacking.ext_lanes result
        ≡ zip2 EF.ring.product (EF.ExtensionPacking.ext_lanes packed) (map EF.embed (F.Packing.lanes factor)) }
{
    let mut scaled = packed;
    for k in 0..EF::DIMENSION {
        let product = F::lanes_mul(packed.packed_coefficient(k), factor);
        scaled.set_packed_coefficient(k, product);
    }
    scaled
}

/// The packed value with these coefficients. Asks for four of them.
#[inline(always)]
pub fn packed_of_four<F: Field, EF: ExtensionField<F>>(
    constant: F::Packing,
    linear: F::Packing,
    quadratic: F::Packing,
    cubic: F::Packing,
) -> EF::ExtensionPacking
    requires { EF.DIMENSION ≡ 4 }
    ensures { EF.ExtensionPacking.packed_coefficients result ≡ constant ∷ linear ∷ quadratic ∷ cubic ∷ [] }
{
    let mut packed = EF::ExtensionPacking::ZERO;
    packed.set_packed_coefficient(0, constant);
    packed.set_packed_coefficient(1, linear);
    packed.set_packed_coefficient(2, quadratic);
    packed.set_packed_coefficient(3, cubic);
    packed
}

/// The product with a base element: one product in lanes for each coefficient. In a loop by one
/// element the compiler prepares it once.
#[inline]
pub fn scale_by_base<F: Field, EF: ExtensionField<F>>(
    packed: EF::ExtensionPacking,
    factor: F,
) -> EF::ExtensionPacking
    ensures { EF.ExtensionPacking.ext_lanes result ≡ map (EF.ring.product (EF.embed factor)) (EF.ExtensionPacking.ext_lanes packed) }
{
    if EF::DIMENSION == FOUR {
        return packed_of_four::<F, EF>(
            F::lanes_scale(packed.packed_coefficient(0), factor),
            F::lanes_scale(packed.packed_coefficient(1), factor),
            F::lanes_scale(packed.packed_coefficient(2), factor),
            F::lanes_scale(packed.packed_coefficient(3), factor),
        );
    }
    let mut scaled = packed;
    for k in 0..EF::DIMENSION {
        let product = F::lanes_scale(packed.packed_coefficient(k), factor);
        scaled.set_packed_coefficient(k, product);
    }
    scaled
}

/// The product of an element and a packing of the base: one product in lanes for each coefficient.
/// In a loop by one element of four coefficients the compiler prepares it once.
#[inline]
pub fn scale_packing<F: Field, EF: ExtensionField<F>>(
    element: EF,
    factor: F::Packing,
) -> EF::ExtensionPacking
    ensures { EF.ExtensionPacking.ext_lanes result ≡ map (EF.ring.product element) (map EF.embed (F.Packing.lanes factor)) }
{
    if EF::DIMENSION == FOUR {
        return packed_of_four::<F, EF>(
            F::lanes_scale(factor, element.coefficient(0)),
            F::lanes_scale(factor, element.coefficient(1)),
            F::lanes_scale(factor, element.coefficient(2)),
            F::lanes_scale(factor, element.coefficient(3)),
        );
    }
    let mut scaled = EF::ExtensionPacking::ZERO;
    for k in 0..EF::DIMENSION {
        let product = F::lanes_scale(factor, element.coefficient(k));
        scaled.set_packed_coefficient(k, product);
    }
    scaled
}
