//! Folds of the last variable, which join the entries of a table that stand side by side.
//!
//! Where the number of entries is odd, the last one is left out.
ghost use Rattle.std.specs.Prelude.{◌≡◌, ◌/◌, ◌*◌, ◌<◌, IfOk, IsOk, length, map, take};
ghost use Rattle.std.specs.Vec.{vec_capacity};
ghost use Rattle.mlu_ring.specs.Tables.{back, line};

use crate::line::{interpolate_at_base, interpolate_base_at_fixed};
use mlu_ring::{Additive, Algebra, PrimeCharacteristicRing};
use std::alloc::{AllocError, Global};

/// The entries that are folded one by one.
const SINGLE_ENTRIES: usize = 16;

/// The table folded at `r`: entry `i` is `e[2i] + r * (e[2i + 1] - e[2i])`, where `e` are the
/// entries.
///
/// # Errors
/// Where the memory for half a table is refused; never where there are fewer than two entries.
pub fn fold_suffix<F: Additive, EF: Algebra<F>>(
    alloc: Global,
    entries: &[F],
    r: EF,
) -> Result<Vec<EF>, AllocError>
    ensures folded { IfOk result (λ folded. folded.items ≡ back EF.ring (line EF.ring r) (map EF.embed entries.now)) }
    ensures exact { IfOk result (λ folded. vec_capacity folded ≡ length entries.now / 2) }
    ensures few { length entries.now < 2 → IsOk result }
{
    let half = entries.len() / 2;
    let mut folded = Vec::with_capacity(alloc, half)?;
    for i in 0..half {
        let entry = interpolate_base_at_fixed(entries[2 * i], entries[2 * i + 1], r);
        folded.push_reserved(entry);
    }
    Ok(folded)
}

/// As [`fold_suffix`], at the image of a base element `r`.
pub fn fold_suffix_by_base<R: Additive, F: Algebra<R>>(
    alloc: Global,
    entries: &[F],
    r: R,
) -> Result<Vec<F>, AllocError>
    ensures folded { IfOk result (λ folded. folded.items ≡ back F.ring (line F.ring (F.embed r)) entries.now) }
    ensures exact { IfOk result (λ folded. vec_capacity folded ≡ length entries.now / 2) }
    ensures few { length entries.now < 2 → IsOk result }
{
    let half = entries.len() / 2;
    let mut folded = Vec::with_capacity(alloc, half)?;
    for i in 0..half {
        let entry = interpolate_at_base(entries[2 * i], entries[2 * i + 1], r);
        folded.push_reserved(entry);
    }
    Ok(folded)
}

/// Folds the table at `r` into its lower half: entry `i` becomes `e[2i] + r * (e[2i + 1] - e[2i])`,
/// where `e` are the entries. What the other places then hold is not promised.
///
/// The first entries are folded first. The others are then read where nothing is written, so that
/// many are folded at a time.
pub fn fold_suffix_in_place<R: Additive, F: Algebra<R>>(entries: &mut [F], r: R)
    ensures { take (length entries.old / 2) entries.new ≡ back F.ring (line F.ring (F.embed r)) entries.old }
{
    let half = entries.len() / 2;
    if half <= SINGLE_ENTRIES {
        return fold_entries_in_place(entries, r);
    }
    let first = half.div_ceil(2);
    let (low, pairs) = entries.split_at_mut(2 * first);
    fold_suffix_in_place(low, r);
    fold_pairs(&mut low[first..half], &pairs[..2 * (half - first)], r);
}

/// [`fold_suffix_in_place`], entry by entry.
fn fold_entries_in_place<R: Additive, F: Algebra<R>>(entries: &mut [F], r: R)
    ensures { take (length entries.old / 2) entries.new ≡ back F.ring (line F.ring (F.embed r)) entries.old }
{
    let half = entries.len() / 2;
    for i in 0..half {
        entries[i] = interpolate_at_base(entries[2 * i], entries[2 * i + 1], r);
    }
}

/// Writes the fold of the pairs at `r`. Asks for as many places as there are pairs.
///
/// Out of line, where the compiler takes the slices for two and makes vectors of the entries.
#[inline(never)]
fn fold_pairs<R: Additive, F: Algebra<R>>(out: &mut [F], pairs: &[F], r: R)
    requires { length pairs.now ≡ 2 * length out.old }
    ensures { out.new ≡ back F.ring (line F.ring (F.embed r)) pairs.now }
{
    for i in 0..out.len() {
        out[i] = interpolate_at_base(pairs[2 * i], pairs[2 * i + 1], r);
    }
}
