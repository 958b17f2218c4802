//! Prefix compressions in runs of the first half: each run is added up from zeros in an
//! accumulator, which is then added to the output.
//!
//! Nothing is carried from one run to the next: what a run needs of the entry before it is made
//! again from its index.
ghost use Rattle.std.specs.Prelude.{◌≡◌, ◌+◌, ◌*◌, ◌<◌, ◌≤◌, ◌∷◌, [], ℕ, List, length, map, slice_index_or, refl};
ghost use Rattle.mlu_ring.specs.Lanes.{IsLaneByLane, IsLists};
ghost use Rattle.mlu_ring.specs.Successor.{shifted};
ghost use Rattle.mlu_kernel.specs.Kernels.{plus_rows, AddsRows};
ghost use Rattle.mlu_eq.specs.Split.{border_weight, contents, moved_run, run_of};

use super::prefix::{add_scalar_row, compress_prefix_into, compress_prefix_to_packed_into};
use super::shifted::compress_prefix_shifted_into;
use crate::half::EqMaybePacked;
use mlu_ring::place_by_place::clear;
use mlu_ring::{Additive, ExtensionField, Field, Lanewise, PackedValue, PrimeCharacteristicRing};

/// A compression at the first variables, which can be done run by run: what a run of the first
/// half adds to an output whose places are a `T` each.
pub trait PrefixCompression<F: Field, EF: ExtensionField<F>, T: PrimeCharacteristicRing> {
    ghost moved: { List EF → List EF };

    ghost lanes: { T → List EF };

    ghost of_lanes: { List EF → T };

    ghost width: { ℕ };

    /// Adds to `out` a row for each of `run` entries of `eq0` from `start` on and each weight of
    /// `eq1`, times that entry of the table `moved`. Asks for a run that is not empty, and for its rows
    /// alone, as long as `out` has lanes.
    fn add_run(
        eq0: &[EF],
        eq1: &EqMaybePacked<F, EF>,
        start: usize,
        run: usize,
        out: &mut [T],
        rows: &[F],
    )
        requires some { 0 < run }
        requires within { start + run ≤ length eq0.now }
        requires size { length rows.now ≡ run * (length eq1.now.weights * (length out.old * width)) }
        ensures { AddsRows EF.ring EF.embed lanes
            (moved_run EF.ring moved eq0.now eq1.now.weights start run) rows.now out.old out.new };

    ghost length_moved: { (w : List EF) → 0 < length w → length (moved w) ≡ length w };

    ghost lanes_are: { IsLists width lanes of_lanes };

    ghost lane_by_lane: { IsLaneByLane width lanes T.ring EF.ring };
}

/// By the table as it is.
pub struct Plain;

impl<F: Field, EF: ExtensionField<F>> PrefixCompression<F, EF, EF> for Plain {
    ghost use Rattle.mlu_ring.proofs.TrivialExtension.{one_coefficient, one_lane};

    ghost moved = { λ w. w };

    ghost lanes = { λ x. x ∷ [] };

    ghost of_lanes = { λ vs. slice_index_or vs 0 EF.ring.zero };

    ghost width = { 1 };

    #[inline]
    #[tactic(auto, using(crate::proofs::Runs::run_of_slice, crate::proofs::Runs::length_of_slice, crate::proofs::Runs::own_lanes))]
    fn add_run(
        eq0: &[EF],
        eq1: &EqMaybePacked<F, EF>,
        start: usize,
        run: usize,
        out: &mut [EF],
        rows: &[F],
    ) {
        compress_prefix_into(&eq0[start..start + run], eq1, out, rows);
    }

    ghost length_moved = { λ w some. refl };

    ghost lanes_are = { one_coefficient EF.ring.zero };

    ghost lane_by_lane = { one_lane EF.ring };
}

/// By the table as it is, to packed places.
pub struct ToPacked;

impl<F: Field, EF: ExtensionField<F>> PrefixCompression<F, EF, EF::ExtensionPacking> for ToPacked {
    ghost moved = { λ w. w };

    ghost lanes = { EF.ExtensionPacking.ext_lanes };

    ghost of_lanes = { EF.ExtensionPacking.of_ext_lanes };

    ghost width = { F.Packing.WIDTH };

    #[inline]
    #[tactic(auto, using(crate::proofs::Runs::run_of_slice, crate::proofs::Runs::length_of_slice))]
    fn add_run(
        eq0: &[EF],
        eq1: &EqMaybePacked<F, EF>,
        start: usize,
        run: usize,
        out: &mut [EF::ExtensionPacking],
        rows: &[F],
    ) {
        compress_prefix_to_packed_into(&eq0[start..start + run], eq1, out, rows);
    }

    ghost length_moved = { λ w some. refl };

    ghost lanes_are = { EF.ExtensionPacking.lanes_are };

    ghost lane_by_lane = { EF.ExtensionPacking.lane_by_lane };
}

/// By the table shifted by one place: zero, and then all entries but the last.
pub struct Shifted;

impl<F: Field, EF: ExtensionField<F>> PrefixCompression<F, EF, EF> for Shifted {
    ghost use Rattle.mlu_ring.proofs.Shifted.{length-moved_up};
    ghost use Rattle.mlu_ring.proofs.TrivialExtension.{one_coefficient, one_lane};

    ghost moved = { shifted EF.ring };

    ghost lanes = { λ x. x ∷ [] };

    ghost of_lanes = { λ vs. slice_index_or vs 0 EF.ring.zero };

    ghost width = { 1 };

    #[inline]
    #[tactic(auto, using(crate::proofs::Runs::first_row, crate::proofs::Runs::length_of_slice, crate::proofs::Runs::shifted_run))]
    fn add_run(
        eq0: &[EF],
        eq1: &EqMaybePacked<F, EF>,
        start: usize,
        run: usize,
        out: &mut [EF],
        rows: &[F],
    ) {
        eq1.show_not_empty();
        add_border(eq0, eq1, start, out, rows);
        compress_prefix_shifted_into(&eq0[start..start + run], eq1, out, rows);
    }

    ghost length_moved = { length-moved_up EF.ring.zero };

    ghost lanes_are = { one_coefficient EF.ring.zero };

    ghost lane_by_lane = { one_lane EF.ring };
}

/// Adds the first of the rows that begin at `start`, times the weight of the place before it: the
/// last weight of the entry before, and none at the start of the table.
#[inline]
fn add_border<F: Field, EF: ExtensionField<F>>(
    eq0: &[EF],
    eq1: &EqMaybePacked<F, EF>,
    start: usize,
    out: &mut [EF],
    rows: &[F],
)
    requires within { start < length eq0.now }
    requires row { length out.old ≤ length rows.now }
    ensures { out.new ≡ plus_rows EF.ring out.old (border_weight EF.ring eq0.now eq1.now.weights start ∷ [])
        (map EF.embed rows.now) }
{
    if start == 0 {
        return;
    }
    eq1.show_not_empty();
    let border = eq0[start - 1] * eq1.last_scalar();
    add_scalar_row(out, border, &rows[..out.len()]);
}

/// Adds the rows of `entries` to `out`, each times its entry of the table, in runs of `run_length` entries of
/// `eq0`, the last one perhaps shorter. What the accumulator held does not count, and what it then
/// holds is not promised.
///
/// Asks for halves and runs that are not empty, for an accumulator as long as `out`, and for as many
/// rows as the split table has entries.
pub fn compress_prefix_in_runs<
    F: Field,
    EF: ExtensionField<F>,
    T: PrimeCharacteristicRing,
    P: PrefixCompression<F, EF, T>,
>(
    eq0: &[EF],
    eq1: &EqMaybePacked<F, EF>,
    run_length: usize,
    out: &mut [T],
    accumulator: &mut [T],
    entries: &[F],
)
    requires some { 0 < length eq0.now }
    requires run { 0 < run_length }
    requires accumulator { length accumulator.old ≡ length out.old }
    requires size { length entries.now ≡ length eq0.now * (length eq1.now.weights * (length out.old * P.width)) }
    ensures { AddsRows EF.ring EF.embed P.lanes
        (P.moved (contents EF.ring eq0.now eq1.now.weights)) entries.now out.old out.new }
{
    eq1.show_not_empty();
    for i in 0..eq0.len().div_ceil(run_length) {
        let start = i * run_length;
        let run = run_length.min(eq0.len() - start);
        clear(accumulator);
        let rows = rows_of_run(entries, eq0.len(), start, run);
        P::add_run(eq0, eq1, start, run, accumulator, rows);
        T::add_each(out, accumulator);
    }
}

/// So many rows of the slice cut into `rows` rows, from row `start` on.
#[inline]
fn rows_of_run<T>(values: &[T], rows: usize, start: usize, run: usize) -> &[T]
    requires some { 0 < run }
    requires within { start + run ≤ rows }
    ensures exact { (n : ℕ) → length values.now ≡ rows * n → result.now ≡ run_of n start run values.now }
    ensures size { (n : ℕ) → length values.now ≡ rows * n → length result.now ≡ run * n }
{
    let width = values.len() / rows;
    &values[start * width..(start + run) * width]
}
