//! Polynomials with their first or last variable fixed.
ghost use Rattle.std.specs.Prelude.{◌<◌, length};

use crate::definitions::{first_folded, last_folded};
use crate::lanes::{unpacked, values};
use crate::report::Report;
use mlu_ring::{Additive, Algebra, ExtensionField, Field, PackedValue};
use multilinear_util::poly::Poly;
use std::alloc::{AllocError, Global};

/// Compares folds at `r` of a polynomial over the base into the extension, where it has a variable.
pub fn into_the_extension<F: Field, EF: ExtensionField<F>>(
    alloc: Global,
    report: &mut Report,
    base: &Poly<F>,
    images: &[EF],
    r: EF,
) {
    if base.num_evals() < 2 {
        return;
    }
    to_scalars(alloc, report, base, r, images);
    if base.num_evals() > F::Packing::WIDTH {
        let first = first_folded(alloc, (EF::ONE - r, r), images);
        let answer = unpacked::<F, EF>(alloc, base.fix_prefix_var_to_packed(alloc, r));
        report.lists("Poly::fix_prefix_var_to_packed", answer, first);
    }
}

/// Compares the folds as scalars, and each entry of that of the first variable by itself.
fn to_scalars<F: Additive, EF: Algebra<F>>(
    alloc: Global,
    report: &mut Report,
    base: &Poly<F>,
    r: EF,
    images: &[EF],
)
    requires { 1 < length base.now }
{
    let line = (EF::ONE - r, r);
    let first = first_folded(alloc, line, images);
    let answer = values(base.fix_prefix_var(alloc, r));
    report.lists("Poly::fix_prefix_var", answer, first);
    let last = last_folded(alloc, line, images);
    let answer = values(base.fix_suffix_var(alloc, r));
    report.lists("Poly::fix_suffix_var", answer, last);
    let first = first_folded(alloc, line, images);
    let answer = one_by_one(alloc, base, r);
    report.lists("Poly::fix_prefix_var_at", answer, first);
}

/// The entries of the fold of the first variable, each by itself.
fn one_by_one<F: Additive, EF: Algebra<F>>(
    alloc: Global,
    base: &Poly<F>,
    r: EF,
) -> Result<Vec<EF>, AllocError> {
    let mut entries = Vec::new(alloc);
    for index in 0..base.num_evals() / 2 {
        entries.push(base.fix_prefix_var_at(r, index))?;
    }
    Ok(entries)
}

/// A call that folds a polynomial in place.
#[derive(Clone, Copy)]
enum InPlace {
    First,
    Last,
    LastSplit,
    Coefficients,
    Sum,
}

/// A copy of the polynomial, folded in place at the image of `r`.
fn folded<R: Additive, A: Algebra<R>>(
    alloc: Global,
    poly: &Poly<A>,
    fold: InPlace,
    r: R,
) -> Result<Vec<A>, AllocError>
    requires { 1 < length poly.now }
{
    let mut left = poly.try_clone(alloc)?;
    match fold {
        InPlace::First => left.fix_prefix_var_mut(r),
        InPlace::Last => left.fix_suffix_var_mut(r),
        InPlace::LastSplit => left.fix_suffix_var_mut_split(alloc, r)?,
        InPlace::Coefficients => left.fix_prefix_var_mut_monomial(r),
        InPlace::Sum => left.sum_prefix_var_mut(),
    }
    Ok(left.into_evals())
}

/// Compares folds in place at the image of `r`, and the sum of both halves, where the polynomial has a
/// variable.
pub fn in_place<R: Additive, A: Algebra<R>>(
    alloc: Global,
    report: &mut Report,
    poly: &Poly<A>,
    r: R,
) {
    if poly.num_evals() < 2 {
        return;
    }
    let image = A::from_base(r);
    let line = (A::ONE - image, image);
    let first = first_folded(alloc, line, poly.as_slice());
    let answer = folded(alloc, poly, InPlace::First, r);
    report.lists("Poly::fix_prefix_var_mut", answer, first);
    let last = last_folded(alloc, line, poly.as_slice());
    let answer = folded(alloc, poly, InPlace::Last, r);
    report.lists("Poly::fix_suffix_var_mut", answer, last);
    let last = last_folded(alloc, line, poly.as_slice());
    let answer = folded(alloc, poly, InPlace::LastSplit, r);
    report.lists("Poly::fix_suffix_var_mut_split", answer, last);
    let powers = first_folded(alloc, (A::ONE, image), poly.as_slice());
    let answer = folded(alloc, poly, InPlace::Coefficients, r);
    report.lists("Poly::fix_prefix_var_mut_monomial", answer, powers);
    let sums = first_folded(alloc, (A::ONE, A::ONE), poly.as_slice());
    let answer = folded(alloc, poly, InPlace::Sum, r);
    report.lists("Poly::sum_prefix_var_mut", answer, sums);
}
