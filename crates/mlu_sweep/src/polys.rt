//! Polynomials at a point, and tables of the point, without a split table between.
ghost use Rattle.std.specs.Prelude.{◌≡◌, ◌*◌, ◌≤◌, ◌^◌, length};
ghost use Rattle.multilinear_util.specs.Storage.{scalars};

use crate::definitions::{Compressed, Sums, next_by, table};
use crate::draws::Polynomials;
use crate::lanes::{in_lanes, unpacked, values};
use crate::report::Report;
use mlu_ring::{ExtensionField, Field, PackedValue, PrimeCharacteristicRing};
use mlu_test_support::lists::filled;
use mlu_test_support::plain;
use mlu_test_tables::poly;
use multilinear_util::point::{Point, Successor};
use multilinear_util::poly::{Poly, PolyMaybePacked};
use std::alloc::{AllocError, Global};

/// Compares the values of polynomials with as many variables as the point has coordinates.
pub fn evaluate<F: Field, EF: ExtensionField<F>>(
    alloc: Global,
    report: &mut Report,
    point: &Point<EF>,
    drawn: &Polynomials<F, EF>,
) -> Result<(), AllocError> {
    let variables = point.num_variables();
    if drawn.base.num_variables() != variables || drawn.ext.num_variables() != variables {
        return Err(AllocError);
    }
    let weights = table(alloc, point.as_slice(), EF::ONE)?;
    with_weights(alloc, report, point, &weights, drawn)
}

/// Compares the values at the point, whose table has these weights.
fn with_weights<F: Field, EF: ExtensionField<F>>(
    alloc: Global,
    report: &mut Report,
    point: &Point<EF>,
    weights: &[EF],
    drawn: &Polynomials<F, EF>,
) -> Result<(), AllocError>
    requires base { length drawn.now.base ≡ 2 ^ length point.now }
    requires ext { length drawn.now.ext ≡ 2 ^ length point.now }
{
    let sums = Sums::new(alloc, weights, &drawn.images)?;
    over_the_base(alloc, report, point, sums, &drawn.base);
    let ext = &drawn.ext;
    let constant = (point.num_variables() == 0).then_some(plain::last(ext.as_slice()));
    report.agrees("Poly::as_constant", ext.as_constant() == constant);
    let value = plain::dot(weights, ext.as_slice());
    let answer = ext.eval_ext::<F>(alloc, point);
    report.results("Poly::eval_ext", answer, Ok(value));
    in_each_storage::<F, EF>(alloc, report, point, ext, value)
}

/// Compares the values of a polynomial over the base.
fn over_the_base<F: Field, EF: ExtensionField<F>>(
    alloc: Global,
    report: &mut Report,
    point: &Point<EF>,
    defined: Sums<EF>,
    base: &Poly<F>,
)
    requires { length base.now ≡ 2 ^ length point.now }
{
    let (repeated, wrapped) = (Ok(defined.repeated), Ok(defined.wrapped));
    let answer = base.eval_base(alloc, point);
    report.results("Poly::eval_base", answer, Ok(defined.value));
    let answer = base.eval_next_base(alloc, point);
    report.results("Poly::eval_next_base", answer, repeated);
    let answer = base.eval_next_base_by(alloc, Successor::RepeatLast, point);
    report.results("Poly::eval_next_base_by RepeatLast", answer, repeated);
    let answer = base.eval_next_base_by(alloc, Successor::Wrap, point);
    report.results("Poly::eval_next_base_by Wrap", answer, wrapped);
}

/// Compares a polynomial in either storage, and in lanes where there are values for one packing.
fn in_each_storage<F: Field, EF: ExtensionField<F>>(
    alloc: Global,
    report: &mut Report,
    point: &Point<EF>,
    ext: &Poly<EF>,
    value: EF,
) -> Result<(), AllocError>
    requires { length ext.now ≡ 2 ^ length point.now }
{
    in_scalars::<F, EF>(alloc, report, point, ext, value)?;
    if ext.num_evals() < F::Packing::WIDTH {
        return Ok(());
    }
    report.form = " of lanes";
    in_packings::<F, EF>(alloc, report, point, ext, value)?;
    report.form = "";
    unpack_into::<F, EF>(alloc, report, ext)
}

/// Compares a polynomial that is stored as scalars.
fn in_scalars<F: Field, EF: ExtensionField<F>>(
    alloc: Global,
    report: &mut Report,
    point: &Point<EF>,
    ext: &Poly<EF>,
    value: EF,
) -> Result<(), AllocError>
    requires { length ext.now ≡ 2 ^ length point.now }
{
    let scalars = PolyMaybePacked::from(ext.try_clone(alloc)?);
    stored::<F, EF>(alloc, report, point, &scalars, ext, value)
}

/// Compares a polynomial in lanes, and stored so.
fn in_packings<F: Field, EF: ExtensionField<F>>(
    alloc: Global,
    report: &mut Report,
    point: &Point<EF>,
    ext: &Poly<EF>,
    value: EF,
) -> Result<(), AllocError>
    requires point { length ext.now ≡ 2 ^ length point.now }
    requires packing { F.Packing.WIDTH ≤ length ext.now }
{
    let lanes = in_lanes::<F, EF>(alloc, ext)?;
    let answer = lanes.eval_packed::<F, EF>(alloc, point);
    report.results("Poly::eval_packed", answer, Ok(value));
    let packed = PolyMaybePacked::Packed(lanes);
    stored::<F, EF>(alloc, report, point, &packed, ext, value)
}

/// Compares what is stored with the polynomial, and its value at the point. Fails where the point has
/// not as many coordinates as there are variables.
fn stored<F: Field, EF: ExtensionField<F>>(
    alloc: Global,
    report: &mut Report,
    point: &Point<EF>,
    storage: &PolyMaybePacked<F, EF>,
    ext: &Poly<EF>,
    value: EF,
) -> Result<(), AllocError>
    requires { length ext.now ≡ 2 ^ length point.now }
{
    if storage.num_variables() != point.num_variables() {
        return Err(AllocError);
    }
    let answer = storage.eval(alloc, point);
    report.results("PolyMaybePacked::eval", answer, Ok(value));
    write_stored(alloc, report, storage, ext.as_slice())?;
    let answer = unpacked_copy(alloc, storage);
    report.table("PolyMaybePacked::unpack", answer, ext.as_slice());
    Ok(())
}

/// Compares the number of values that are stored, and what they and a view of them write over others.
fn write_stored<F: Field, EF: ExtensionField<F>>(
    alloc: Global,
    report: &mut Report,
    storage: &PolyMaybePacked<F, EF>,
    values: &[EF],
) -> Result<(), AllocError>
    requires { length (scalars EF.ExtensionPacking.ext_lanes storage.now) ≡ length values.now }
{
    let mut written = filled(alloc, EF::TWO, values.len())?;
    let view = storage.as_view().as_view();
    report.agrees(
        "PolyMaybePacked::num_scalar_evals",
        storage.num_scalar_evals() == written.len() && view.num_scalar_evals() == written.len(),
    );
    storage.unpack_into(written.as_mut_slice());
    report.values("PolyMaybePacked::unpack_into", written.as_slice(), values);
    written.as_mut_slice().reverse();
    view.unpack_into(written.as_mut_slice());
    report.values(
        "PolyMaybePackedView::unpack_into",
        written.as_slice(),
        values,
    );
    Ok(())
}

/// The scalars of a copy.
fn unpacked_copy<F: Field, EF: ExtensionField<F>>(
    alloc: Global,
    storage: &PolyMaybePacked<F, EF>,
) -> Result<Poly<EF>, AllocError> {
    match storage.try_clone(alloc)?.unpack(alloc) {
        Ok(poly) => Ok(poly),
        Err((_, error)) => Err(error),
    }
}

/// Compares the lanes of a polynomial in lanes, written over twos.
fn unpack_into<F: Field, EF: ExtensionField<F>>(
    alloc: Global,
    report: &mut Report,
    ext: &Poly<EF>,
) -> Result<(), AllocError>
    requires { F.Packing.WIDTH ≤ length ext.now }
{
    let lanes = in_lanes::<F, EF>(alloc, ext)?;
    let mut written = poly(filled(alloc, EF::TWO, ext.num_evals())?)?;
    lanes.unpack_into::<F, EF>(&mut written);
    report.values("Poly::unpack_into", written.as_slice(), ext.as_slice());
    Ok(())
}

/// Compares the tables of a point.
pub fn tabulate<R: PrimeCharacteristicRing>(
    alloc: Global,
    report: &mut Report,
    point: &[R],
    scale: R,
) -> Result<(), AllocError> {
    if point.len() >= 32 {
        return Err(AllocError);
    }
    let answer = values(Poly::new_from_point(alloc, point, scale));
    report.lists("Poly::new_from_point", answer, table(alloc, point, scale));
    let weights = table(alloc, point, R::ONE)?;
    let repeated = next_by(alloc, Successor::RepeatLast, &weights)?;
    let answer = Poly::new_next_from_point(alloc, point);
    report.table("Poly::new_next_from_point", answer, &repeated);
    let answer = Poly::new_next_from_point_by(alloc, Successor::RepeatLast, point);
    report.table("Poly::new_next_from_point_by RepeatLast", answer, &repeated);
    let wrapped = next_by(alloc, Successor::Wrap, &weights);
    let answer = values(Poly::new_next_from_point_by(alloc, Successor::Wrap, point));
    report.lists("Poly::new_next_from_point_by Wrap", answer, wrapped);
    Ok(())
}

/// Compares the table of a point in lanes, where there are weights for one packing.
pub fn tabulate_lanes<F: Field, EF: ExtensionField<F>>(
    alloc: Global,
    report: &mut Report,
    point: &[EF],
    scale: EF,
) -> Result<(), AllocError> {
    if point.len() >= 32 {
        return Err(AllocError);
    }
    if point.len() >= F::Packing::LOG_WIDTH {
        let defined = table(alloc, point, scale);
        let answer = Poly::new_packed_from_point::<F, EF>(alloc, point, scale);
        let answer = unpacked::<F, EF>(alloc, answer);
        report.lists("Poly::new_packed_from_point", answer, defined);
    }
    Ok(())
}

/// Compares the compressions of a polynomial over the base at a point with as many coordinates or
/// fewer.
pub fn compress<F: Field, EF: ExtensionField<F>>(
    alloc: Global,
    report: &mut Report,
    base: &Poly<F>,
    defined: &Compressed<EF>,
) -> Result<(), AllocError> {
    let (point, scale) = (&defined.point, defined.scale);
    if point.num_variables() >= 32 || 1 << point.num_variables() > base.num_evals() {
        return Err(AllocError);
    }
    let answer = base.compress_prefix(alloc, point, scale);
    report.table("Poly::compress_prefix", answer, &defined.prefix);
    let answer = base.compress_suffix(alloc, point, scale);
    report.table("Poly::compress_suffix", answer, &defined.suffix);
    let least = (1usize << point.num_variables()).checked_mul(F::Packing::WIDTH);
    if least.is_some_and(|least| least <= base.num_evals()) {
        let answer = base.compress_prefix_to_packed(alloc, point, scale);
        let answer = unpacked::<F, EF>(alloc, answer);
        report.list("Poly::compress_prefix_to_packed", answer, &defined.prefix);
    }
    Ok(())
}
