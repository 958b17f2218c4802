//! Meters: whoever multiplies by one can say how many products were made.
ghost use Rattle.std.specs.Prelude.{◌≡◌, ℕ, ◌+◌, ◌-◌, ◌^◌, min};
ghost use Rattle.mlu_ring.specs.Tables.{pair};

use crate::field::Field;
use crate::packed::{Lanewise, PackedValue};
use crate::ring::PrimeCharacteristicRing;
use crate::tally::Tally;
use std::mem::size_of;

/// What multiplies for code over [`Lanewise`], which has no product of its own.
///
/// `made` counts the products of single elements, and `groups` the sums of four packed products.
/// Both are whole numbers without a bound, and no call but these three changes them. A meter itself
/// knows `F` as a field, so that its own bodies make no other product is read, not proved.
pub trait Meter<F: Lanewise> {
    ghost made: { Self → ℕ };

    ghost groups: { Self → ℕ };

    /// The product. Raises `made` by 1. Loops by one `b` are fast where the ring has a fast
    /// [`times_fixed`](crate::PrimeCharacteristicRing::times_fixed).
    fn times(&mut self, a: F, b: F) -> F
        ensures value { result ≡ F.ring.product a b }
        ensures made { made self.new ≡ made self.old + 1 }
        ensures groups { groups self.new ≡ groups self.old };

    /// The products, lane by lane. Raises `made` by `WIDTH`. Loops by one `b` are fast where the ring
    /// has a fast [`lanes_times_fixed`](crate::Field::lanes_times_fixed).
    fn times_lanes(&mut self, a: F::Packing, b: F::Packing) -> F::Packing
        ensures value { result ≡ F.Packing.ring.product a b }
        ensures made { made self.new ≡ made self.old + F.Packing.WIDTH }
        ensures groups { groups self.new ≡ groups self.old };

    /// The sum of the four products `l[i] * r[i]`. Raises `groups` by 1.
    fn dot4(&mut self, l: &[F::Packing; 4], r: &[F::Packing; 4]) -> F::Packing
        ensures value { result ≡ pair F.Packing.ring l.now r.now }
        ensures made { made self.new ≡ made self.old }
        ensures groups { groups self.new ≡ groups self.old + 1 };
}

/// A meter, for any field, that counts for contracts alone: it takes no bytes and no time.
#[derive(Drop)]
pub struct Unmetered {
    products: Tally,
    fours: Tally,
}

const _: () = prove!(size_of::<Unmetered>() == 0);

impl Unmetered {
    ghost use Rattle.mlu_ring.specs.Meters.{products_of, groups_of};

    /// A meter at zero.
    #[inline]
    pub fn new() -> Self
        ensures made { products_of result ≡ 0 }
        ensures groups { groups_of result ≡ 0 }
    {
        Unmetered {
            products: Tally::new(),
            fours: Tally::new(),
        }
    }
}

impl<F: Field> Meter<F> for Unmetered {
    ghost use Rattle.mlu_ring.specs.Meters.{products_of, groups_of};

    ghost made = { products_of };

    ghost groups = { groups_of };

    #[inline]
    fn times(&mut self, a: F, b: F) -> F {
        self.products.raise(1);
        a.times_fixed(b)
    }

    #[inline]
    fn times_lanes(&mut self, a: F::Packing, b: F::Packing) -> F::Packing {
        self.products.raise(F::Packing::WIDTH);
        F::lanes_times_fixed(a, b)
    }

    #[inline]
    fn dot4(&mut self, l: &[F::Packing; 4], r: &[F::Packing; 4]) -> F::Packing {
        self.fours.raise(1);
        F::dot4(l, r)
    }
}

/// A meter, for any field, that shows its counts, up to `u64::MAX`.
#[derive(Drop)]
pub struct Counter {
    exact: Unmetered,
    made: u64,
    groups: u64,
    ghost made_is: { made ≡ min exact.products.count (2 ^ 64 - 1) },
    ghost groups_is: { groups ≡ min exact.fours.count (2 ^ 64 - 1) },
}

impl Counter {
    ghost use Rattle.mlu_ring.specs.Meters.{products_counted, groups_counted};

    /// A meter at zero.
    #[inline]
    pub fn new() -> Self
        ensures made { products_counted result ≡ 0 }
        ensures groups { groups_counted result ≡ 0 }
    {
        Counter {
            exact: Unmetered::new(),
            made: 0,
            groups: 0,
        }
    }

    /// The products made, or `u64::MAX` where they are more.
    #[inline]
    pub fn made(&self) -> u64
        ensures { result ≡ min (products_counted self.now) (2 ^ 64 - 1) }
    {
        self.made
    }

    /// The groups asked for, or `u64::MAX` where they are more.
    #[inline]
    pub fn groups(&self) -> u64
        ensures { result ≡ min (groups_counted self.now) (2 ^ 64 - 1) }
    {
        self.groups
    }
}

impl<F: Field> Meter<F> for Counter {
    ghost use Rattle.mlu_ring.specs.Meters.{products_counted, groups_counted};

    ghost made = { products_counted };

    ghost groups = { groups_counted };

    #[inline]
    fn times(&mut self, a: F, b: F) -> F {
        self.made = self.made.saturating_add(1);
        self.exact.times(a, b)
    }

    #[inline]
    fn times_lanes(&mut self, a: F::Packing, b: F::Packing) -> F::Packing {
        self.made = self.made.saturating_add(F::Packing::WIDTH as u64);
        Meter::<F>::times_lanes(&mut self.exact, a, b)
    }

    #[inline]
    fn dot4(&mut self, l: &[F::Packing; 4], r: &[F::Packing; 4]) -> F::Packing {
        self.groups = self.groups.saturating_add(1);
        Meter::<F>::dot4(&mut self.exact, l, r)
    }
}
