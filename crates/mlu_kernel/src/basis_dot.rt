//! Rows of packed coefficients times one row of packed values, four products at a time.
ghost use Rattle.std.specs.Prelude.{◌≡◌, ◌+◌, ◌*◌, ◌/◌, ◌%◌, length, map};
ghost use Rattle.std.specs.List.{All};
ghost use Rattle.mlu_ring.specs.Tables.{pair};

use mlu_ring::{Additive, Lanewise, Meter};

/// The products that are summed before they are reduced.
const GROUP: usize = 4;

/// The sums of the products of each row of `cs` and `rhs`, place by place: entry `k` is the sum
/// over `i` of `cs[k][i] * rhs[i]`. Zeros where the rows are empty.
///
/// Each of the `D` sums asks `rhs.len() / 4` groups of four products of the meter, and the rest as
/// single packed products. Asks for `D` rows, each as long as `rhs`.
#[inline]
pub fn packed_basis_dot<F: Lanewise, M: Meter<F>, const D: usize>(
    cs: &[&[F::Packing]],
    rhs: &[F::Packing],
    meter: &mut M,
) -> [F::Packing; D]
    requires count { length cs.now ≡ D }
    requires each { All (λ c. length c.now ≡ length rhs.now) cs.now }
    ensures value { result ≡ map (λ c. pair F.Packing.ring c.now rhs.now) cs.now }
    ensures groups { M.groups meter.new ≡ M.groups meter.old + D * (length rhs.now / 4) }
    ensures made { M.made meter.new ≡ M.made meter.old + D * (length rhs.now % 4 * F.Packing.WIDTH) }
{
    let mut sums = [F::Packing::ZERO; D];
    for k in 0..D {
        sums[k] = row_dot(cs[k], rhs, meter);
    }
    sums
}

/// The sum of the products of two rows of one length.
#[inline]
fn row_dot<F: Lanewise, M: Meter<F>>(
    l: &[F::Packing],
    r: &[F::Packing],
    meter: &mut M,
) -> F::Packing
    requires { length l.now ≡ length r.now }
    ensures value { result ≡ pair F.Packing.ring l.now r.now }
    ensures groups { M.groups meter.new ≡ M.groups meter.old + length r.now / 4 }
    ensures made { M.made meter.new ≡ M.made meter.old + length r.now % 4 * F.Packing.WIDTH }
{
    let groups = r.len() / GROUP;
    let mut sum = F::Packing::ZERO;
    for g in 0..groups {
        let i = GROUP * g;
        let left = [l[i], l[i + 1], l[i + 2], l[i + 3]];
        let right = [r[i], r[i + 1], r[i + 2], r[i + 3]];
        let four = meter.dot4(&left, &right);
        sum = sum + four;
    }
    for i in GROUP * groups..r.len() {
        let one = meter.times_lanes(l[i], r[i]);
        sum = sum + one;
    }
    sum
}
