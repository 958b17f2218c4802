//! Rings as far as their sums go: addition, subtraction and negation.
ghost use Rattle.std.specs.Prelude.{◌≡◌, ◌↔◌, IfOk, IsOk, IsTrue, length, replicate};
ghost use Rattle.std.specs.Simd.Lanes.{zip2};
ghost use Rattle.std.specs.Vec.{vec_capacity};
ghost use Rattle.mlu_ring.specs.Ring.{Ring, RingLaws};

use std::alloc::{AllocError, Global};
use std::ops::{Add, Neg, Sub};

/// Elements of a commutative ring that can be added, without a call that multiplies.
///
/// The product stands in the record `ring` for contracts alone, so code over this bound cannot
/// multiply. `ZERO` may equal `ONE`, and zero divisors are allowed.
pub trait Additive: Copy
    + Eq
    + Add<Self, Output = Self>
    + Sub<Self, Output = Self>
    + Neg<Output = Self> {
    ghost ring: { Ring Self };

    /// The neutral element of addition.
    const ZERO: Self;

    /// The neutral element of multiplication.
    const ONE: Self;

    ghost ZERO: { Self };

    ghost ONE: { Self };

    /// The element added to itself.
    #[inline]
    final fn double(self) -> Self
        ensures { result ≡ ring.sum self self }
    {
        self + self
    }

    /// Adds `b` to `out`, place by place. Asks for equal lengths.
    #[inline]
    fn add_each(out: &mut [Self], b: &[Self])
        requires { length out.old ≡ length b.now }
        ensures { out.new ≡ zip2 ring.sum out.old b.now }
    {
        for i in 0..out.len() {
            out[i] = out[i] + b[i];
        }
    }

    ghost laws: { RingLaws ring };

    ghost zero_is: { ZERO ≡ ring.zero };

    ghost one_is: { ONE ≡ ring.one };

    ghost eq_is: { (a b : Self) → IsTrue (Self.eq a b) ↔ (a ≡ b) };

    ghost can_add_law: { (a b : Self) → Self.can_add a b };

    ghost adds: { (a b r : Self) → Self.add_gives a b r → r ≡ ring.sum a b };

    ghost can_sub_law: { (a b : Self) → Self.can_sub a b };

    ghost subtracts: { (a b r : Self) → Self.sub_gives a b r → r ≡ ring.minus a b };

    ghost can_neg_law: { (a : Self) → Self.can_neg a };

    ghost negates: { (a r : Self) → Self.neg_gives a r → r ≡ ring.negation a };
}

/// `len` zeros, in one allocation of exactly that many elements.
///
/// # Errors
/// Where memory is refused; never where `len` is 0.
pub fn zeros<R: Additive>(alloc: Global, len: usize) -> Result<Vec<R>, AllocError>
    ensures zeros { IfOk result (λ zeros. zeros.items ≡ replicate len R.ring.zero) }
    ensures exact { IfOk result (λ zeros. vec_capacity zeros ≡ len) }
    ensures none { len ≡ 0 → IsOk result }
{
    let mut zeros = Vec::with_capacity(alloc, len)?;
    for _ in 0..len {
        zeros.push_reserved(R::ZERO);
    }
    Ok(zeros)
}
