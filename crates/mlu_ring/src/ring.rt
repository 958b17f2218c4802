//! Commutative rings with one.
ghost use Rattle.std.specs.Prelude.{◌≡◌, IfOk, IsOk, if◌then◌else◌, replicate, length};
ghost use Rattle.mlu_ring.specs.Fours.{AreLong, AreRowsTimes, AreSumsOfFour, in_order};
ghost use Rattle.mlu_ring.specs.Tables.{pair};
ghost use Rattle.std.specs.Vec.{vec_capacity};

use crate::additive::{Additive, zeros};
use std::alloc::{AllocError, Global};
use std::ops::Mul;

/// A commutative ring with one, of any characteristic: the name is the original's.
pub trait PrimeCharacteristicRing: Additive + Mul<Self, Output = Self> {
    /// `ONE + ONE`.
    const TWO: Self;

    /// `-ONE`.
    const NEG_ONE: Self;

    ghost TWO: { Self };

    ghost NEG_ONE: { Self };

    /// The element times itself.
    #[inline]
    final fn square(self) -> Self
        ensures { result ≡ Self.ring.product self self }
    {
        self * self
    }

    /// `ONE` for true and `ZERO` for false.
    #[inline]
    final fn from_bool(b: bool) -> Self
        ensures { result ≡ (if b then Self.ring.one else Self.ring.zero) }
    {
        if b { Self::ONE } else { Self::ZERO }
    }

    /// The sum of the four products `l.i * r.i`.
    ///
    /// A product in an extension of degree 4 is four of these, so a ring that can put off its
    /// reduction to the end of a sum has a body of its own.
    #[inline]
    fn four_products(l: &(Self, Self, Self, Self), r: &(Self, Self, Self, Self)) -> Self
        ensures { result ≡ pair Self.ring (in_order l.now) (in_order r.now) }
    {
        l.0 * r.0 + l.1 * r.1 + (l.2 * r.2 + l.3 * r.3)
    }

    /// The row `l` times a matrix, which is given by its four columns.
    ///
    /// A product in an extension of degree 4 is one of these. Each entry is
    /// [`four_products`](Self::four_products) with a column; a ring whose elements fit vectors
    /// makes all four at a time.
    #[inline]
    fn row_times_columns(
        l: &(Self, Self, Self, Self),
        first: &(Self, Self, Self, Self),
        second: &(Self, Self, Self, Self),
        third: &(Self, Self, Self, Self),
        fourth: &(Self, Self, Self, Self),
    ) -> (Self, Self, Self, Self)
        ensures first { result.0 ≡ pair Self.ring (in_order l.now) (in_order first.now) }
        ensures second { result.1 ≡ pair Self.ring (in_order l.now) (in_order second.now) }
        ensures third { result.2 ≡ pair Self.ring (in_order l.now) (in_order third.now) }
        ensures fourth { result.3 ≡ pair Self.ring (in_order l.now) (in_order fourth.now) }
    {
        (
            Self::four_products(l, first),
            Self::four_products(l, second),
            Self::four_products(l, third),
            Self::four_products(l, fourth),
        )
    }

    /// [`row_times_columns`](Self::row_times_columns) with columns that many rows meet.
    ///
    /// A ring that can prepare a factor does so here: in a loop over rows the compiler moves that
    /// part out.
    #[inline]
    fn row_times_fixed_columns(
        l: &(Self, Self, Self, Self),
        first: &(Self, Self, Self, Self),
        second: &(Self, Self, Self, Self),
        third: &(Self, Self, Self, Self),
        fourth: &(Self, Self, Self, Self),
    ) -> (Self, Self, Self, Self)
        ensures first { result.0 ≡ pair Self.ring (in_order l.now) (in_order first.now) }
        ensures second { result.1 ≡ pair Self.ring (in_order l.now) (in_order second.now) }
        ensures third { result.2 ≡ pair Self.ring (in_order l.now) (in_order third.now) }
        ensures fourth { result.3 ≡ pair Self.ring (in_order l.now) (in_order fourth.now) }
    {
        Self::row_times_columns(l, first, second, third, fourth)
    }

    /// The product with a factor that many elements meet, as a coordinate meets a table.
    ///
    /// It costs more than `*` where the factor is new each time, and less in a loop by one factor.
    #[inline]
    fn times_fixed(self, factor: Self) -> Self
        ensures { result ≡ Self.ring.product self factor }
    {
        self * factor
    }

    /// The sums of four products, place by place. Asks for slices of one length.
    ///
    /// Each is [`four_products`](Self::four_products) of the elements at its place; a ring whose
    /// elements fit vectors makes several at a time.
    #[inline]
    fn each_four_products(
        out: &mut [Self],
        l: &(&[Self], &[Self], &[Self], &[Self]),
        r: &(&[Self], &[Self], &[Self], &[Self]),
    )
        requires left { AreLong (length out.old) l.now }
        requires right { AreLong (length out.old) r.now }
        ensures long { length out.new ≡ length out.old }
        ensures each { AreSumsOfFour Self.ring l.now r.now out.old out.new }
    {
        for k in 0..out.len() {
            let left = (l.0[k], l.1[k], l.2[k], l.3[k]);
            let right = (r.0[k], r.1[k], r.2[k], r.3[k]);
            out[k] = Self::four_products(&left, &right);
        }
    }

    /// The same sums, place by place, with one column: `out[k]` becomes the row of the elements at
    /// `k` times the column. Asks for slices of one length.
    ///
    /// A ring that can prepare a factor does so once for all places.
    #[inline]
    fn rows_times_column(
        out: &mut [Self],
        l: &(&[Self], &[Self], &[Self], &[Self]),
        column: &(Self, Self, Self, Self),
    )
        requires { AreLong (length out.old) l.now }
        ensures long { length out.new ≡ length out.old }
        ensures each { AreRowsTimes Self.ring l.now (in_order column.now) out.old out.new }
    {
        for k in 0..out.len() {
            let row = (l.0[k], l.1[k], l.2[k], l.3[k]);
            out[k] = Self::four_products(&row, column);
        }
    }

    /// `len` zeros, in one allocation of exactly that many elements.
    ///
    /// # Errors
    /// Where memory is refused; never where `len` is 0.
    final fn zero_vec(alloc: Global, len: usize) -> Result<Vec<Self>, AllocError>
        ensures zeros { IfOk result (λ zeros. zeros.items ≡ replicate len Self.ring.zero) }
        ensures exact { IfOk result (λ zeros. vec_capacity zeros ≡ len) }
        ensures none { len ≡ 0 → IsOk result }
    {
        zeros(alloc, len)
    }

    ghost can_mul_law: { (a b : Self) → Self.can_mul a b };

    ghost multiplies: { (a b r : Self) → Self.mul_gives a b r → r ≡ Self.ring.product a b };

    ghost two_is: { TWO ≡ Self.ring.sum Self.ring.one Self.ring.one };

    ghost neg_one_is: { NEG_ONE ≡ Self.ring.negation Self.ring.one };
}
