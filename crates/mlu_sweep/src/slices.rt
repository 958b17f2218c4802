//! The calls of `mlu_eq` over slices by themselves: folds of any number of entries, and values.
ghost use Rattle.std.specs.Prelude.{◌≡◌, ◌<◌, ◌/◌, ◌%◌, length};

use crate::definitions::{first_folded, last_folded, table, value};
use crate::draws::{element, elements};
use crate::report::{Report, Shape};
use mlu_eq::{
    eval_base, eval_ext, fold_monomial_in_place, fold_prefix, fold_prefix_at, fold_prefix_in_place,
    fold_prefix_to_packed, fold_suffix, fold_suffix_by_base, fold_suffix_in_place,
    sum_halves_in_place,
};
use mlu_ring::{
    Additive, Algebra, ExtensionField, Field, PackedValue, PrimeCharacteristicRing, Sample,
    SelfAlgebra,
};
use mlu_test_support::lanes::lanes;
use mlu_test_support::plain;
use std::alloc::{AllocError, Global};

/// The most entries of a slice that is folded: two packings of sixteen lanes in each half, and one
/// entry more.
const MOST_ENTRIES: usize = 65;

/// Compares the folds of so many drawn entries, for each number of them.
pub fn fold<F: Field + Sample, EF: ExtensionField<F> + SelfAlgebra + Sample>(
    alloc: Global,
    report: &mut Report,
) -> Result<(), AllocError> {
    for entries in 0..=MOST_ENTRIES {
        report.shape = Shape::Slice { entries };
        fold_entries::<F, EF>(alloc, report, entries)?;
    }
    Ok(())
}

/// Compares the folds of so many drawn entries of both fields, those in place at elements of both.
fn fold_entries<F: Field + Sample, EF: ExtensionField<F> + SelfAlgebra + Sample>(
    alloc: Global,
    report: &mut Report,
    entries: usize,
) -> Result<(), AllocError> {
    let base: Vec<F> = elements(alloc, report, entries)?;
    let images: Vec<EF> = plain::images(alloc, &base)?;
    let r: EF = element(report);
    into_the_extension(alloc, report, &base, r, &images);
    to_lanes(alloc, report, &base, r, &images);
    let ext: Vec<EF> = elements(alloc, report, entries)?;
    in_place::<EF, EF>(alloc, report, &ext, r);
    report.form = " at the base";
    let r: F = element(report);
    in_place::<F, EF>(alloc, report, &ext, r);
    report.form = "";
    Ok(())
}

/// Compares the folds of entries of the base at `r`, and each entry of that of the first variable by
/// itself.
fn into_the_extension<F: Additive, EF: Algebra<F>>(
    alloc: Global,
    report: &mut Report,
    entries: &[F],
    r: EF,
    images: &[EF],
) {
    let line = (EF::ONE - r, r);
    let first = first_folded(alloc, line, images);
    report.lists("fold_prefix", fold_prefix(alloc, entries, r), first);
    let first = first_folded(alloc, line, images);
    report.lists("fold_prefix_at", one_by_one(alloc, entries, r), first);
    let last = last_folded(alloc, line, images);
    report.lists("fold_suffix", fold_suffix(alloc, entries, r), last);
}

/// The entries of the fold of the first variable, each by itself.
fn one_by_one<F: Additive, EF: Algebra<F>>(
    alloc: Global,
    entries: &[F],
    r: EF,
) -> Result<Vec<EF>, AllocError> {
    let mut folded = Vec::new(alloc);
    for index in 0..entries.len() / 2 {
        folded.push(fold_prefix_at(entries, r, index))?;
    }
    Ok(folded)
}

/// Compares the fold in lanes of entries of the base at `r`, where half of them fill packings.
fn to_lanes<F: Field, EF: ExtensionField<F>>(
    alloc: Global,
    report: &mut Report,
    entries: &[F],
    r: EF,
    images: &[EF],
) {
    if (entries.len() / 2).checked_rem(F::Packing::WIDTH) == Some(0) {
        let first = first_folded(alloc, (EF::ONE - r, r), images);
        let answer = folded_to_lanes::<F, EF>(alloc, entries, r);
        report.lists("fold_prefix_to_packed", answer, first);
    }
}

/// The lanes of the fold in lanes.
fn folded_to_lanes<F: Field, EF: ExtensionField<F>>(
    alloc: Global,
    entries: &[F],
    r: EF,
) -> Result<Vec<EF>, AllocError>
    requires { (length entries.now / 2) % F.Packing.WIDTH ≡ 0 }
{
    let folded = fold_prefix_to_packed::<F, EF>(alloc, entries, r)?;
    lanes::<F, EF>(alloc, &folded)
}

/// A call that folds a slice in place.
#[derive(Clone, Copy)]
enum InPlace {
    First,
    Last,
    Coefficients,
    Sum,
}

/// A copy of the entries, folded in place at the image of `r`, and cut to half as many.
fn folded<R: Additive, A: Algebra<R>>(
    alloc: Global,
    entries: &[A],
    fold: InPlace,
    r: R,
) -> Result<Vec<A>, AllocError> {
    let mut left = Vec::from_slice(alloc, entries)?;
    match fold {
        InPlace::First => fold_prefix_in_place(left.as_mut_slice(), r),
        InPlace::Last => fold_suffix_in_place(left.as_mut_slice(), r),
        InPlace::Coefficients => fold_monomial_in_place(left.as_mut_slice(), r),
        InPlace::Sum => sum_halves_in_place(left.as_mut_slice()),
    }
    left.truncate(entries.len() / 2);
    Ok(left)
}

/// Compares the folds in place at the image of `r`, the sum of both halves, and the fold of the last
/// variable with a new buffer.
fn in_place<R: Additive, A: Algebra<R>>(alloc: Global, report: &mut Report, entries: &[A], r: R) {
    let image = A::from_base(r);
    let line = (A::ONE - image, image);
    let first = first_folded(alloc, line, entries);
    let answer = folded(alloc, entries, InPlace::First, r);
    report.lists("fold_prefix_in_place", answer, first);
    let last = last_folded(alloc, line, entries);
    let answer = folded(alloc, entries, InPlace::Last, r);
    report.lists("fold_suffix_in_place", answer, last);
    let last = last_folded(alloc, line, entries);
    let answer = fold_suffix_by_base(alloc, entries, r);
    report.lists("fold_suffix_by_base", answer, last);
    let powers = first_folded(alloc, (A::ONE, image), entries);
    let answer = folded(alloc, entries, InPlace::Coefficients, r);
    report.lists("fold_monomial_in_place", answer, powers);
    let sums = first_folded(alloc, (A::ONE, A::ONE), entries);
    let answer = folded(alloc, entries, InPlace::Sum, r);
    report.lists("sum_halves_in_place", answer, sums);
}

/// Compares the values of drawn tables of so many variables. Fails at 32 variables and more.
pub fn evaluate<F: PrimeCharacteristicRing + Sample, EF: Algebra<F> + Sample>(
    alloc: Global,
    report: &mut Report,
    variables: usize,
) -> Result<(), AllocError> {
    if variables >= 32 {
        return Err(AllocError);
    }
    let point: Vec<EF> = elements(alloc, report, variables)?;
    let base: Vec<F> = elements(alloc, report, 1 << variables)?;
    let answer = eval_base(&base, &point);
    report.results("eval_base", Ok(answer), value(alloc, &point, &base));
    let ext: Vec<EF> = elements(alloc, report, 1 << variables)?;
    let weights = table(alloc, &point, EF::ONE)?;
    let answer = eval_ext(&ext, &point);
    report.value("eval_ext", answer, plain::dot(&weights, &ext));
    Ok(())
}
