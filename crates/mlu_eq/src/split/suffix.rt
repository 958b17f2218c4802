//! Rows of a table, each compressed to one entry by the split table, or by the table moved up by one
//! place.
ghost use Rattle.std.specs.Prelude.{◌≡◌, ◌<◌, ◌≤◌, ◌*◌, List, length, map, refl, replicate, IsTrue};
ghost use Rattle.std.specs.Mem.{type_size};
ghost use Rattle.mlu_ring.specs.Lanes.{logical};
ghost use Rattle.mlu_ring.specs.Successor.{shifted};
ghost use Rattle.mlu_ring.specs.Tables.{back, pair};
ghost use Rattle.mlu_kernel.specs.declared.small.TheConstants.{SMALL_BYTES};
ghost use Rattle.mlu_eq.specs.Split.{contents, packed_back};

use super::accumulate::add_packed_rows;
use super::dot::dot_base;
use super::runs::{Plain, Shifted};
use super::shifted::{dot_base_shifted, row_dots_shifted};
use crate::half::{EqMaybePacked, Weights};
use mlu_kernel::rows::row_dots;
use mlu_kernel::small::is_small;
use mlu_ring::{
    Additive, ExtensionField, Field, PackedFieldExtension, PrimeCharacteristicRing, row_of,
};

/// With more packed entries than these a split table is not joined.
const MOST_JOINED: usize = 128;

/// A compression of rows, each to one entry, by the table as it is or shifted by one place.
trait SuffixCompression<F: Field, EF: ExtensionField<F>> {
    ghost moved: { List EF → List EF };

    /// The dot of the table with one row. Asks for as many entries as the table has.
    fn row_dot(eq0: &[EF], eq1: &EqMaybePacked<F, EF>, row: &[F]) -> EF
        requires { length row.now ≡ length eq0.now * length eq1.now.weights }
        ensures { result ≡ pair EF.ring (moved (contents EF.ring eq0.now eq1.now.weights)) (map EF.embed row.now) };

    /// Writes the dot of the weights with each row. What `out` held does not count.
    ///
    /// Asks for weights, and for as many rows as `out` has places.
    fn write_row_dots(weights: &[EF::ExtensionPacking], out: &mut [EF], entries: &[F])
        requires some { 0 < length weights.now }
        requires size { length entries.now ≡ length out.old * (length weights.now * F.Packing.WIDTH) }
        ensures { out.new ≡ back EF.ring (moved (logical EF.ExtensionPacking.ext_lanes weights.now)) (map EF.embed entries.now) };

    ghost length_moved: { (w : List EF) → 0 < length w → length (moved w) ≡ length w };
}

impl<F: Field, EF: ExtensionField<F>> SuffixCompression<F, EF> for Plain {
    ghost moved = { λ w. w };

    #[inline]
    fn row_dot(eq0: &[EF], eq1: &EqMaybePacked<F, EF>, row: &[F]) -> EF {
        dot_base(eq0, eq1, row)
    }

    #[inline]
    #[tactic(auto, using(crate::proofs::Compressions::back_of_row_dots))]
    fn write_row_dots(weights: &[EF::ExtensionPacking], out: &mut [EF], entries: &[F]) {
        row_dots::<F, EF>(out, weights, entries);
    }

    ghost length_moved = { λ w some. refl };
}

impl<F: Field, EF: ExtensionField<F>> SuffixCompression<F, EF> for Shifted {
    ghost use Rattle.mlu_ring.proofs.Shifted.{length-moved_up};

    ghost moved = { shifted EF.ring };

    #[inline]
    fn row_dot(eq0: &[EF], eq1: &EqMaybePacked<F, EF>, row: &[F]) -> EF {
        dot_base_shifted(eq0, eq1, row)
    }

    #[inline]
    fn write_row_dots(weights: &[EF::ExtensionPacking], out: &mut [EF], entries: &[F]) {
        row_dots_shifted::<F, EF>(weights, out, entries);
    }

    ghost length_moved = { length-moved_up EF.ring.zero };
}

/// Writes the dot of the split table with each row of `entries`, as long as the table. What `out`
/// held does not count.
///
/// Asks for a first half that is not empty, and for as many rows as `out` has places.
pub fn compress_suffix_into<F: Field, EF: ExtensionField<F>>(
    eq0: &[EF],
    eq1: &EqMaybePacked<F, EF>,
    out: &mut [EF],
    entries: &[F],
)
    requires some { 0 < length eq0.now }
    requires size { length entries.now ≡ length out.old * (length eq0.now * length eq1.now.weights) }
    ensures { out.new ≡ back EF.ring (contents EF.ring eq0.now eq1.now.weights) (map EF.embed entries.now) }
{
    compress_rows::<F, EF, Plain>(eq0, eq1, out, entries);
}

/// Writes the dot of the split table moved up by one place, zero and all entries but the last, with each
/// row of `entries`, as long as the table. What `out` held does not count.
///
/// Asks for a first half that is not empty, and for as many rows as `out` has places.
pub fn compress_suffix_shifted_into<F: Field, EF: ExtensionField<F>>(
    eq0: &[EF],
    eq1: &EqMaybePacked<F, EF>,
    out: &mut [EF],
    entries: &[F],
)
    requires some { 0 < length eq0.now }
    requires size { length entries.now ≡ length out.old * (length eq0.now * length eq1.now.weights) }
    ensures { out.new ≡ back EF.ring (shifted EF.ring (contents EF.ring eq0.now eq1.now.weights)) (map EF.embed entries.now) }
{
    compress_rows::<F, EF, Shifted>(eq0, eq1, out, entries);
}

/// Writes the dot of the table with each row: of the joined table where it is small, else
/// half by half.
fn compress_rows<F: Field, EF: ExtensionField<F>, S: SuffixCompression<F, EF>>(
    eq0: &[EF],
    eq1: &EqMaybePacked<F, EF>,
    out: &mut [EF],
    entries: &[F],
)
    requires some { 0 < length eq0.now }
    requires size { length entries.now ≡ length out.old * (length eq0.now * length eq1.now.weights) }
    ensures { out.new ≡ back EF.ring (S.moved (contents EF.ring eq0.now eq1.now.weights)) (map EF.embed entries.now) }
{
    eq1.show_not_empty();
    if let Weights::Packed(weights) = eq1.weights() {
        if can_be_joined::<F, EF>(eq0.len(), weights.len()) {
            return compress_by_joined::<F, EF, S>(eq0, weights, out, entries);
        }
    }
    for y in 0..out.len() {
        out[y] = S::row_dot(eq0, eq1, row_of(entries, out.len(), y));
    }
}

/// Whether the products of so many entries and so many packed weights have room on the stack.
#[inline]
fn can_be_joined<F: Field, EF: ExtensionField<F>>(rows: usize, weights: usize) -> bool
    ensures { IsTrue result → (rows * weights ≤ MOST_JOINED) × (type_size EF.ExtensionPacking.row < SMALL_BYTES) }
{
    rows.saturating_mul(weights) <= MOST_JOINED && is_small(&EF::ExtensionPacking::ZERO)
}

/// [`compress_rows`] with the products of both halves written once, for all rows.
fn compress_by_joined<F: Field, EF: ExtensionField<F>, S: SuffixCompression<F, EF>>(
    eq0: &[EF],
    weights: &[EF::ExtensionPacking],
    out: &mut [EF],
    entries: &[F],
)
    requires some { 0 < length eq0.now * (length weights.now * F.Packing.WIDTH) }
    requires few { length eq0.now * length weights.now ≤ MOST_JOINED }
    requires small { type_size EF.ExtensionPacking.row < SMALL_BYTES }
    requires size { length entries.now ≡ length out.old * (length eq0.now * (length weights.now * F.Packing.WIDTH)) }
    ensures { out.new ≡ packed_back EF.ring EF.ExtensionPacking.ext_lanes S.moved eq0.now weights.now (map EF.embed entries.now) }
{
    let mut places = [EF::ExtensionPacking::ZERO; MOST_JOINED];
    let joined = &mut places[..eq0.len() * weights.len()];
    join_halves::<F, EF>(eq0, joined, weights);
    S::write_row_dots(joined, out, entries);
}

/// Writes the products of both halves over zeros, in the order of the table.
#[tactic(auto, using(crate::proofs::Compressions::joined_halves))]
fn join_halves<F: Field, EF: ExtensionField<F>>(
    eq0: &[EF],
    joined: &mut [EF::ExtensionPacking],
    weights: &[EF::ExtensionPacking],
)
    requires { joined.old ≡ replicate (length eq0.now * length weights.now) EF.ExtensionPacking.ring.zero }
    ensures { logical EF.ExtensionPacking.ext_lanes joined.new
        ≡ contents EF.ring eq0.now (logical EF.ExtensionPacking.ext_lanes weights.now) }
{
    add_packed_rows::<F, EF>(eq0, joined, weights, EF::ONE);
}
