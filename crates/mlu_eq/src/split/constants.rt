//! Sums of base entries, each times a weight of one coefficient.
//!
//! The coefficients are read once, to the stack, so that each row is a dot of base elements.
ghost use Rattle.std.specs.Prelude.{◌≡◌, ◌*◌, ◌≤◌, ◌<◌, length, map, IsTrue};
ghost use Rattle.std.specs.Mem.{type_size};
ghost use Rattle.mlu_ring.specs.Tables.{pair};
ghost use Rattle.mlu_kernel.specs.Kernels.{double_sum};
ghost use Rattle.mlu_eq.specs.Split.{constants, AreConstants};

use mlu_kernel::small::{SMALL_BYTES, is_small};
use mlu_ring::{Additive, ExtensionField, Field, row_of};

/// The size of the array for rows of at most so many weights, which takes less time to fill with zeros.
pub(super) const FEW_CONSTANTS: usize = 128;

/// The most coefficients that are read to the stack.
pub(super) const MOST_CONSTANTS: usize = 1024;

const _: () = prove!(MOST_CONSTANTS * SMALL_BYTES < 2 << 20);

/// Whether weights have one coefficient, and so many are at most `most`, with room on the stack.
#[inline]
pub(super) fn are_constants<F: Field, EF: ExtensionField<F>>(weights: usize, most: usize) -> bool
    ensures { IsTrue result → AreConstants EF.DIMENSION weights most F.row }
{
    EF::DIMENSION == 1 && weights <= most && is_small(&F::ZERO)
}

/// The sum of the rows' dots with `weights`, each times its entry of `eq0`.
pub(super) fn dot_of_rows_by_constants<F: Field, EF: ExtensionField<F>, const N: usize>(
    eq0: &[EF],
    weights: &[EF],
    entries: &[F],
) -> EF
    requires most { N ≤ MOST_CONSTANTS }
    requires constants { AreConstants EF.DIMENSION (length weights.now) N F.row }
    requires size { length entries.now ≡ length eq0.now * length weights.now }
    ensures { result ≡ double_sum EF.ring eq0.now weights.now (map EF.embed entries.now) }
{
    let mut places = [F::ZERO; N];
    let column = &mut places[..weights.len()];
    read_constants(column, weights);
    dot_of_constant_rows(eq0, column, entries)
}

/// Reads the one coefficient of each weight.
#[inline]
fn read_constants<F: Field, EF: ExtensionField<F>>(column: &mut [F], weights: &[EF])
    requires one { EF.DIMENSION ≡ 1 }
    requires long { length column.old ≡ length weights.now }
    ensures { constants EF.of_coefficients column.new ≡ weights.now }
{
    for i in 0..column.len() {
        column[i] = weights[i].coefficient(0);
    }
}

/// The sum of the rows' dots with the weights that have these coefficients, each times its entry of
/// `eq0`.
fn dot_of_constant_rows<F: Field, EF: ExtensionField<F>>(
    eq0: &[EF],
    column: &[F],
    entries: &[F],
) -> EF
    requires one { EF.DIMENSION ≡ 1 }
    requires size { length entries.now ≡ length eq0.now * length column.now }
    ensures { result ≡ double_sum EF.ring eq0.now (constants EF.of_coefficients column.now) (map EF.embed entries.now) }
{
    let mut sum = EF::ZERO;
    for j in 0..eq0.len() {
        sum = sum + eq0[j] * constant_dot::<F, EF>(column, row_of(entries, eq0.len(), j));
    }
    sum
}

/// The sum of the products of weights with these coefficients and base entries.
#[inline]
fn constant_dot<F: Field, EF: ExtensionField<F>>(column: &[F], entries: &[F]) -> EF
    requires one { EF.DIMENSION ≡ 1 }
    requires long { length entries.now ≡ length column.now }
    ensures { result ≡ pair EF.ring (constants EF.of_coefficients column.now) (map EF.embed entries.now) }
{
    let mut sum = EF::ZERO;
    sum.set_coefficient(0, F::dot(column, entries));
    sum
}
