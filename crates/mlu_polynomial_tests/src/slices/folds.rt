//! Folds in place of tables that are longer than what is folded at a time.

use mlu_eq::{fold_prefix_in_place, fold_suffix_in_place};
use mlu_ring::{Additive, PrimeCharacteristicRing, Sample, SelfAlgebra};
use mlu_test_support::draws::drawn;
use mlu_test_support::lists::pair;
use mlu_test_support::plain::{compressed_prefix, compressed_suffix};
use rand_pcg::Pcg32;
use std::alloc::{AllocError, Global};

/// How many entries: some are left over after the last block, and the last one has no other half.
const ENTRIES: usize = 601;

/// Whether the folds of drawn entries at a drawn element are the plain sums.
pub fn agree<R: SelfAlgebra + Sample>(alloc: Global) -> Result<bool, AllocError> {
    let mut rng = Pcg32::new(2, 54);
    let mut first = drawn::<R>(alloc, &mut rng, ENTRIES)?;
    let r = R::sample(&mut rng);
    let (prefix_sums, suffix_sums) = plain_folds(alloc, &first, r)?;
    let mut last = Vec::from_slice(alloc, &first)?;
    fold_prefix_in_place(&mut first, r);
    fold_suffix_in_place(&mut last, r);
    Ok(first.starts_with(&prefix_sums) && last.starts_with(&suffix_sums))
}

/// The sums that the folds of the first and of the last variable at `r` are to be.
fn plain_folds<R: PrimeCharacteristicRing>(
    alloc: Global,
    table: &[R],
    r: R,
) -> Result<(Vec<R>, Vec<R>), AllocError> {
    let line = pair(alloc, R::ONE - r, r)?;
    let prefix_sums = compressed_prefix(alloc, &line, table)?;
    let suffix_sums = compressed_suffix(alloc, &line, table)?;
    Ok((prefix_sums, suffix_sums))
}
