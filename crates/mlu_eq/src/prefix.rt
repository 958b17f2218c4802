//! Folds of the first variable, which join the two halves of a table.
//!
//! Where the number of entries is odd, the last one is left out.
ghost use Rattle.std.specs.Prelude.{◌≡◌, ◌+◌, ◌<◌, ◌≤◌, ◌/◌, ◌%◌, [], ◌∷◌, IfOk, IsOk, IsTrue, drop, length, map, slice_index_or, take};
ghost use Rattle.std.specs.Mem.{type_size};
ghost use Rattle.std.specs.Vec.{vec_capacity};
ghost use Rattle.mlu_ring.specs.Lanes.{logical};
ghost use Rattle.mlu_ring.specs.Tables.{first_folded, front, line};
ghost use Rattle.mlu_kernel.specs.declared.small.TheConstants.{SMALL_BYTES};
ghost use Rattle.mlu_eq.specs.Combine.{interpolated};
ghost use Rattle.std.specs.Simd.Lanes.{zip2};

use crate::line::{
    add_scaled, interpolate_at_base, interpolate_base_at_fixed, interpolate_packing,
};
use mlu_kernel::small::is_small;
use mlu_ring::{
    Additive, Algebra, ExtensionField, Field, PackedFieldExtension, PackedValue,
    PrimeCharacteristicRing,
};
use std::alloc::{AllocError, Global};
use std::mem::{size_of, size_of_val};

/// The entries of a block, whose differences stand on the stack.
const BLOCK: usize = 64;

/// The table folded at `r`: entry `i` is `low[i] + r * (high[i] - low[i])`, where `low` and `high`
/// are the two halves.
///
/// # Errors
/// Where the memory for half a table is refused; never where there are fewer than two entries.
pub fn fold_prefix<F: Additive, EF: Algebra<F>>(
    alloc: Global,
    entries: &[F],
    r: EF,
) -> Result<Vec<EF>, AllocError>
    ensures folded { IfOk result (λ folded. folded.items ≡ front EF.ring (line EF.ring r) (map EF.embed entries.now)) }
    ensures exact { IfOk result (λ folded. vec_capacity folded ≡ length entries.now / 2) }
    ensures few { length entries.now < 2 → IsOk result }
{
    let half = entries.len() / 2;
    let mut folded = Vec::with_capacity(alloc, half)?;
    for i in 0..half {
        folded.push_reserved(fold_prefix_at(entries, r, i));
    }
    Ok(folded)
}

/// Entry `index` of the table folded at `r`. Asks that `index` is below half the table.
#[inline(always)]
pub fn fold_prefix_at<F: Additive, EF: Algebra<F>>(entries: &[F], r: EF, index: usize) -> EF
    requires { index < length entries.now / 2 }
    ensures { (d : EF) → result ≡ slice_index_or (front EF.ring (line EF.ring r) (map EF.embed entries.now)) index d }
{
    let half = entries.len() / 2;
    interpolate_base_at_fixed(entries[index], entries[half + index], r)
}

/// The table folded at `r`, in packed form: its entries are the lanes, joined in order.
///
/// Asks for a whole number of packings in half a table: `W` divides `length / 2`.
///
/// # Errors
/// Where the memory for half a table is refused; never where there are fewer than two entries.
pub fn fold_prefix_to_packed<F: Field, EF: ExtensionField<F>>(
    alloc: Global,
    entries: &[F],
    r: EF,
) -> Result<Vec<EF::ExtensionPacking>, AllocError>
    requires { (length entries.now / 2) % F.Packing.WIDTH ≡ 0 }
    ensures folded { IfOk result (λ half. logical EF.ExtensionPacking.ext_lanes half.items
        ≡ first_folded EF.ring r (map EF.embed entries.now)) }
    ensures exact { IfOk result (λ folded. vec_capacity folded ≡ length entries.now / 2 / F.Packing.WIDTH) }
    ensures few { length entries.now < 2 → IsOk result }
{
    let width = <F::Packing as PackedValue>::WIDTH;
    let groups = entries.len() / 2 / width;
    let mut folded = Vec::with_capacity(alloc, groups)?;
    for i in 0..groups {
        folded.push_reserved(fold_group_at::<F, EF>(entries, r, i * width));
    }
    Ok(folded)
}

/// The packing of the entries from `start` on of the table folded at `r`.
#[inline(always)]
fn fold_group_at<F: Field, EF: ExtensionField<F>>(
    entries: &[F],
    r: EF,
    start: usize,
) -> EF::ExtensionPacking
    requires { start + F.Packing.WIDTH ≤ length entries.now / 2 }
    ensures { EF.ExtensionPacking.ext_lanes result
        ≡ take F.Packing.WIDTH (drop start (first_folded EF.ring r (map EF.embed entries.now))) }
{
    let end = start + <F::Packing as PackedValue>::WIDTH;
    let (low, high) = entries.split_at(entries.len() / 2);
    interpolate_packing::<F, EF>(
        F::Packing::load(&low[start..end]),
        F::Packing::load(&high[start..end]),
        r,
    )
}

/// Folds the table at `r` into its lower half: entry `i` becomes `low[i] + r * (high[i] - low[i])`.
/// What the other places then hold is not promised.
pub fn fold_prefix_in_place<R: Additive, F: Algebra<R>>(entries: &mut [F], r: R)
    ensures { take (length entries.old / 2) entries.new ≡ front F.ring (line F.ring (F.embed r)) entries.old }
{
    let half = entries.len() / 2;
    let (low, high) = entries.split_at_mut(half);
    interpolate_each(low, &high[..half], r);
}

/// Entry `i` of `low` becomes `low[i] + r * (high[i] - low[i])`. Asks for slices of one length.
fn interpolate_each<R: Additive, F: Algebra<R>>(low: &mut [F], high: &[F], r: R)
    requires { length low.old ≡ length high.now }
    ensures { low.new ≡ zip2 (interpolated F.ring (F.embed r)) low.old high.now }
{
    if takes_differences::<R, F>(&r) {
        return interpolate_by_differences(low, high, r, &mut [F::ZERO; BLOCK]);
    }
    for i in 0..low.len() {
        low[i] = interpolate_at_base(low[i], high[i], r);
    }
}

/// Whether the differences of a block are made first: entries have several words, and as many as
/// `r`, so that they are not packed. A constant, once the types are known.
#[inline]
fn takes_differences<R: Additive, F: Algebra<R>>(r: &R) -> bool
    ensures { IsTrue result → type_size F.row < SMALL_BYTES }
{
    let bytes = size_of_val(&F::ZERO);
    bytes > size_of::<usize>() && bytes == size_of_val(r) && is_small(&F::ZERO)
}

/// [`interpolate_each`] by the differences of a block at a time, whose words fill vectors.
///
/// Asks for room for those of a block. What it then holds is not promised.
fn interpolate_by_differences<R: Additive, F: Algebra<R>>(
    low: &mut [F],
    high: &[F],
    r: R,
    differences: &mut [F],
)
    requires length { length low.old ≡ length high.now }
    requires room { length differences.old ≡ BLOCK }
    ensures interpolated { low.new ≡ zip2 (interpolated F.ring (F.embed r)) low.old high.now }
    ensures room { length differences.new ≡ BLOCK }
{
    if low.len() > BLOCK {
        let middle = low.len() / 2;
        let (low, other_low) = low.split_at_mut(middle);
        let (high, other_high) = high.split_at(middle);
        interpolate_by_differences(low, high, r, differences);
        return interpolate_by_differences(other_low, other_high, r, differences);
    }
    let differences = &mut differences[..low.len()];
    write_differences(differences, high, low);
    for i in 0..low.len() {
        low[i] = add_scaled(low[i], differences[i], r);
    }
}

/// Writes `high[i] - low[i]` to each place. Asks for slices of one length.
#[inline]
fn write_differences<F: Additive>(out: &mut [F], high: &[F], low: &[F])
    requires high { length out.old ≡ length high.now }
    requires low { length out.old ≡ length low.now }
    ensures { out.new ≡ zip2 F.ring.minus high.now low.now }
{
    for i in 0..out.len() {
        out[i] = high[i] - low[i];
    }
}

/// As [`fold_prefix_in_place`], the entries read as coefficients of monomials: entry `i` becomes
/// `low[i] + r * high[i]`.
pub fn fold_monomial_in_place<R: Additive, F: Algebra<R>>(entries: &mut [F], r: R)
    ensures { take (length entries.old / 2) entries.new ≡ front F.ring (F.ring.one ∷ F.embed r ∷ []) entries.old }
{
    let half = entries.len() / 2;
    for i in 0..half {
        entries[i] = add_scaled(entries[i], entries[half + i], r);
    }
}

/// As [`fold_prefix_in_place`], with the sum of both halves: entry `i` becomes `low[i] + high[i]`.
pub fn sum_halves_in_place<F: Additive>(entries: &mut [F])
    ensures { take (length entries.old / 2) entries.new ≡ front F.ring (F.ring.one ∷ F.ring.one ∷ []) entries.old }
{
    let half = entries.len() / 2;
    let (low, high) = entries.split_at_mut(half);
    F::add_each(low, &high[..half]);
}
