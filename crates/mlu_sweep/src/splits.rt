//! Split tables, made both ways, beside the table of their point.
ghost use Rattle.std.specs.Prelude.{◌≡◌, ◌*◌, ◌≤◌, length, vec_len, IfOk};
ghost use Rattle.multilinear_util.specs.Split.{split_entries};

use crate::definitions::{Compressed, Sums, plus_last, plus_scaled, table};
use crate::draws::Polynomials;
use crate::halves::step;
use crate::lanes::{in_lanes, unpacked};
use crate::report::Report;
use mlu_ring::{ExtensionField, Field, PackedValue, PrimeCharacteristicRing};
use mlu_test_support::lists::filled;
use mlu_test_support::plain;
use multilinear_util::point::{Point, Successor};
use multilinear_util::poly::Poly;
use multilinear_util::split_eq::SplitEq;
use std::alloc::{AllocError, Global};

/// In how many parts prefix compressions are made: one, even cuts, uneven ones, more than entries.
const PARTS: [usize; 6] = [1, 2, 3, 4, 5, usize::MAX];

/// Compares both split tables of the point with its table, and with what this leaves of the base.
pub fn compare<F: Field, EF: ExtensionField<F>>(
    alloc: Global,
    report: &mut Report,
    drawn: &Polynomials<F, EF>,
    defined: &Compressed<EF>,
) -> Result<(), AllocError> {
    let (variables, entries) = (defined.point.num_variables(), defined.weights.len());
    if variables >= 32 || entries != 1 << variables || entries > drawn.base.num_evals() {
        return Err(AllocError);
    }
    report.form = " (new_unpacked)";
    let split = SplitEq::<F, EF>::new_unpacked(alloc, &defined.point, defined.scale);
    compare_made(alloc, report, split, false, drawn, defined)?;
    report.form = " (new_packed)";
    let split = SplitEq::<F, EF>::new_packed(alloc, &defined.point, defined.scale);
    let fills_a_packing = variables.div_ceil(2) >= F::Packing::LOG_WIDTH;
    compare_made(alloc, report, split, fills_a_packing, drawn, defined)?;
    report.form = "";
    Ok(())
}

/// Compares a split table of the point, whose second half is to be packed or not, where there is memory for it.
fn compare_made<F: Field, EF: ExtensionField<F>>(
    alloc: Global,
    report: &mut Report,
    split: Result<SplitEq<F, EF>, AllocError>,
    is_packed: bool,
    drawn: &Polynomials<F, EF>,
    defined: &Compressed<EF>,
) -> Result<(), AllocError>
    requires split { IfOk split (λ split. length (split_entries EF.ring split) ≡ vec_len defined.now.weights) }
    requires few { vec_len defined.now.weights ≤ length drawn.now.base }
{
    let split = split?;
    report.agrees("SplitEq::eq1", split.eq1().is_packed() == is_packed);
    compare_split(alloc, report, &split, drawn, defined)
}

/// Compares a split table of the point.
fn compare_split<F: Field, EF: ExtensionField<F>>(
    alloc: Global,
    report: &mut Report,
    split: &SplitEq<F, EF>,
    drawn: &Polynomials<F, EF>,
    defined: &Compressed<EF>,
) -> Result<(), AllocError>
    requires entries { length (split_entries EF.ring split.now) ≡ vec_len defined.now.weights }
    requires few { vec_len defined.now.weights ≤ length drawn.now.base }
{
    let first_half = split.eq0().num_variables() == defined.point.num_variables() / 2;
    report.agrees("SplitEq::eq0", first_half);
    step_in_second_half(alloc, report, split, &defined.point)?;
    compare_entries(alloc, report, split, drawn, &defined.weights)?;
    compress(alloc, report, split, &drawn.base, defined)?;
    compress_to_lanes(alloc, report, split, &drawn.base, defined);
    compress_moved(alloc, report, split, &drawn.base, defined);
    Ok(())
}

/// Compares a split table with its entries, and the sums with it.
fn compare_entries<F: Field, EF: ExtensionField<F>>(
    alloc: Global,
    report: &mut Report,
    split: &SplitEq<F, EF>,
    drawn: &Polynomials<F, EF>,
    entries: &[EF],
) -> Result<(), AllocError>
    requires { length (split_entries EF.ring split.now) ≡ length entries.now }
{
    let last = plain::last(entries);
    report.value("SplitEq::last_scalar", split.last_scalar(), last);
    report.table("SplitEq::materialize", split.materialize(alloc), entries);
    if drawn.base.num_evals() == entries.len() {
        evaluate(alloc, report, split, entries, drawn)?;
    }
    if drawn.ext.num_evals() == entries.len() {
        accumulate(alloc, report, split, entries, &drawn.ext);
        by_lanes(alloc, report, split, entries, &drawn.ext)?;
    }
    Ok(())
}

/// Compares the step to the next row that the second half adds to twos, with the weights of the last
/// coordinates.
fn step_in_second_half<F: Field, EF: ExtensionField<F>>(
    alloc: Global,
    report: &mut Report,
    split: &SplitEq<F, EF>,
    point: &Point<EF>,
) -> Result<(), AllocError> {
    let half = &point.as_slice()[point.num_variables() / 2..];
    if split.eq1().num_variables() != half.len() {
        return Err(AllocError);
    }
    let weights = table(alloc, half, EF::ONE)?;
    let factors = (EF::NEG_ONE, split.last_scalar(), EF::TWO);
    step(alloc, report, split.eq1(), &weights, factors)
}

/// Compares the values of a polynomial over the base.
fn evaluate<F: Field, EF: ExtensionField<F>>(
    alloc: Global,
    report: &mut Report,
    split: &SplitEq<F, EF>,
    entries: &[EF],
    drawn: &Polynomials<F, EF>,
) -> Result<(), AllocError>
    requires { length drawn.now.base ≡ length (split_entries EF.ring split.now) }
{
    let defined = Sums::new(alloc, entries, &drawn.images)?;
    let base = &drawn.base;
    let value = split.eval_base(base.as_view());
    report.value("SplitEq::eval_base", value, defined.value);
    let value = split.eval_next_base(base.as_view());
    report.value("SplitEq::eval_next_base", value, defined.repeated);
    let value = split.eval_next_base_by(Successor::RepeatLast, base.as_view());
    report.value(
        "SplitEq::eval_next_base_by RepeatLast",
        value,
        defined.repeated,
    );
    let value = split.eval_next_base_by(Successor::Wrap, base.as_view());
    report.value("SplitEq::eval_next_base_by Wrap", value, defined.wrapped);
    in_two_parts(alloc, report, split, drawn, defined.repeated)
}

/// Compares the value of the next rows with what the moved table leaves, one entry, and the last value times
/// the last entry.
fn in_two_parts<F: Field, EF: ExtensionField<F>>(
    alloc: Global,
    report: &mut Report,
    split: &SplitEq<F, EF>,
    drawn: &Polynomials<F, EF>,
    repeated: EF,
) -> Result<(), AllocError>
    requires { length (split_entries EF.ring split.now) ≤ length drawn.now.base }
{
    let base = &drawn.base;
    let moved = split.compress_prefix_shifted(alloc, base.as_view())?;
    let value = plus_last(moved.as_slice(), split.last_scalar(), &drawn.images);
    report.value("SplitEq::eval_next_base in two parts", value, repeated);
    Ok(())
}

/// Compares the value of a polynomial over the extension, and the table added to its values, once and
/// twice.
fn accumulate<F: Field, EF: ExtensionField<F>>(
    alloc: Global,
    report: &mut Report,
    split: &SplitEq<F, EF>,
    entries: &[EF],
    ext: &Poly<EF>,
)
    requires { length ext.now ≡ length (split_entries EF.ring split.now) }
{
    let value = plain::dot(entries, ext.as_slice());
    report.value("SplitEq::eval_ext", split.eval_ext(ext.as_view()), value);
    let sums = plus_scaled(alloc, ext.as_slice(), EF::ONE, entries);
    let answer = accumulated(alloc, split, ext, None);
    report.lists("SplitEq::accumulate_into", answer, sums);
    let sums = plus_scaled(alloc, ext.as_slice(), EF::TWO, entries);
    let answer = accumulated(alloc, split, ext, Some(EF::TWO));
    report.lists("SplitEq::accumulate_into twice", answer, sums);
}

/// The values of the polynomial with the table added to them, times the scale.
fn accumulated<F: Field, EF: ExtensionField<F>>(
    alloc: Global,
    split: &SplitEq<F, EF>,
    ext: &Poly<EF>,
    scale: Option<EF>,
) -> Result<Vec<EF>, AllocError>
    requires { length ext.now ≡ length (split_entries EF.ring split.now) }
{
    let mut sums = ext.try_clone(alloc)?;
    split.accumulate_into(sums.as_mut_slice(), scale);
    Ok(sums.into_evals())
}

/// Compares the value of lanes, and the table added to lanes, where there are values for one packing.
fn by_lanes<F: Field, EF: ExtensionField<F>>(
    alloc: Global,
    report: &mut Report,
    split: &SplitEq<F, EF>,
    entries: &[EF],
    ext: &Poly<EF>,
) -> Result<(), AllocError>
    requires { length ext.now ≡ length (split_entries EF.ring split.now) }
{
    if ext.num_evals() < F::Packing::WIDTH {
        return Ok(());
    }
    let lanes = in_lanes::<F, EF>(alloc, ext)?;
    let value = plain::dot(entries, ext.as_slice());
    let answer = split.eval_packed(alloc, lanes.as_view());
    report.results("SplitEq::eval_packed", answer, Ok(value));
    let sums = plus_scaled(alloc, ext.as_slice(), EF::TWO, entries);
    let answer = accumulated_in_lanes(alloc, split, lanes);
    report.lists("SplitEq::accumulate_into_packed", answer, sums);
    Ok(())
}

/// The lanes with the table added to them, times two.
fn accumulated_in_lanes<F: Field, EF: ExtensionField<F>>(
    alloc: Global,
    split: &SplitEq<F, EF>,
    mut lanes: Poly<EF::ExtensionPacking>,
) -> Result<Vec<EF>, AllocError>
    requires { length lanes * F.Packing.WIDTH ≡ length (split_entries EF.ring split.now) }
{
    split.accumulate_into_packed(alloc, lanes.as_mut_slice(), Some(EF::TWO))?;
    unpacked::<F, EF>(alloc, Ok(lanes))
}

/// Compares the compressions.
fn compress<F: Field, EF: ExtensionField<F>>(
    alloc: Global,
    report: &mut Report,
    split: &SplitEq<F, EF>,
    base: &Poly<F>,
    defined: &Compressed<EF>,
) -> Result<(), AllocError>
    requires entries { length (split_entries EF.ring split.now) ≡ vec_len defined.now.weights }
    requires few { vec_len defined.now.weights ≤ length base.now }
{
    let answer = split.compress_suffix(alloc, base.as_view());
    report.table("SplitEq::compress_suffix", answer, &defined.suffix);
    let answer = split.compress_prefix(alloc, base.as_view());
    report.table("SplitEq::compress_prefix", answer, &defined.prefix);
    let mut out = filled(alloc, EF::TWO, defined.suffix.len())?;
    if out.len().checked_mul(defined.weights.len()) != Some(base.num_evals()) {
        return Err(AllocError);
    }
    split.compress_suffix_into(out.as_mut_slice(), base.as_view());
    report.values("SplitEq::compress_suffix_into", &out, &defined.suffix);
    Ok(())
}

/// Compares the compressions by the table moved up by one place, and the prefix compressions in parts.
fn compress_moved<F: Field, EF: ExtensionField<F>>(
    alloc: Global,
    report: &mut Report,
    split: &SplitEq<F, EF>,
    base: &Poly<F>,
    defined: &Compressed<EF>,
)
    requires { length (split_entries EF.ring split.now) ≤ length base.now }
{
    let (prefix, moved) = (&defined.prefix, &defined.moved_prefix);
    let suffix = &defined.moved_suffix;
    let answer = split.compress_suffix_shifted(alloc, base.as_view());
    report.table("SplitEq::compress_suffix_shifted", answer, suffix);
    let answer = split.compress_prefix_shifted(alloc, base.as_view());
    report.table("SplitEq::compress_prefix_shifted", answer, moved);
    for parts in PARTS {
        let answer = split.compress_prefix_split(alloc, base.as_view(), parts.max(1));
        report.table("SplitEq::compress_prefix_split", answer, prefix);
        let answer = split.compress_prefix_shifted_split(alloc, base.as_view(), parts.max(1));
        report.table("SplitEq::compress_prefix_shifted_split", answer, moved);
    }
}

/// Compares the prefix compressions to lanes, where values for one packing are left.
fn compress_to_lanes<F: Field, EF: ExtensionField<F>>(
    alloc: Global,
    report: &mut Report,
    split: &SplitEq<F, EF>,
    base: &Poly<F>,
    defined: &Compressed<EF>,
)
    requires { length (split_entries EF.ring split.now) ≡ vec_len defined.now.weights }
{
    match defined.weights.len().checked_mul(F::Packing::WIDTH) {
        Some(least) if least <= base.num_evals() => {}
        _ => return,
    }
    let prefix = &defined.prefix;
    let answer = split.compress_prefix_to_packed(alloc, base.as_view());
    let answer = unpacked::<F, EF>(alloc, answer);
    report.list("SplitEq::compress_prefix_to_packed", answer, prefix);
    for parts in PARTS {
        let answer = split.compress_prefix_to_packed_split(alloc, base.as_view(), parts.max(1));
        let answer = unpacked::<F, EF>(alloc, answer);
        report.list("SplitEq::compress_prefix_to_packed_split", answer, prefix);
    }
}
