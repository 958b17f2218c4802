//! Worked dots and rows, by both forms.
ghost use Rattle.std.specs.Prelude.{◌≡◌, ◌*◌, length};

use mlu_kernel::one_row::{lane_sum, row_dot_in_lanes};
use mlu_kernel::rows::row_dots;
use mlu_kernel::{
    compress_hi_dot_packed, compress_hi_dot_packed_eager, compress_prefix_to_packed_packed,
    compress_prefix_to_packed_packed_kernel_eager,
};
use mlu_ring::{
    ExtensionField, Field, Lanewise, PackedFieldExtension, PackedValue, PrimeCharacteristicRing,
    packed_of_four, scale_by_base, scale_by_packing, scale_packing,
};
use mlu_test_support::lanes::packed;
use mlu_test_support::numbers::{element, elements};
use std::alloc::{AllocError, Global};

/// Whether both forms of the dot give the sum.
fn dots_are<F: Field, EF: ExtensionField<F>>(
    eq1: &[EF::ExtensionPacking],
    chunk: &[F],
    eq0: &[EF],
    sum: EF,
) -> bool
    requires { length chunk.now ≡ length eq0.now * (length eq1.now * F.Packing.WIDTH) }
{
    let eager = compress_hi_dot_packed_eager::<F, EF>(eq1, chunk, eq0);
    compress_hi_dot_packed::<F, EF>(eq1, chunk, eq0) == sum && eager == sum
}

/// Whether both forms of the prefix kernel make `expected` of `out`.
fn rows_added_are<F: Field, EF: ExtensionField<F>>(
    alloc: Global,
    out: &[EF::ExtensionPacking],
    eq1: &[EF::ExtensionPacking],
    chunk: &[F],
    w0: EF,
    expected: &[EF::ExtensionPacking],
) -> Result<bool, AllocError>
    requires { length chunk.now ≡ length eq1.now * (F.Packing.WIDTH * (length out.now * F.Packing.WIDTH)) }
{
    let mut added = Vec::from_slice(alloc, out)?;
    compress_prefix_to_packed_packed::<F, EF>(&mut added, eq1, chunk, w0);
    let mut eager = Vec::from_slice(alloc, out)?;
    compress_prefix_to_packed_packed_kernel_eager::<F, EF>(&mut eager, eq1, chunk, w0);
    Ok(added.as_slice() == expected && eager.as_slice() == expected)
}

/// Whether the dots of two rows of four lanes are 30 and 70, and 30 plus ten times 70 is the dot of both.
pub fn dot_of_two_rows<F: Field, EF: ExtensionField<F>>(alloc: Global) -> Result<bool, AllocError> {
    if F::Packing::WIDTH != 4 {
        return Ok(false);
    }
    let eq1 = packed::<F, EF>(alloc, &elements(alloc, &[1, 2, 3, 4])?, 1)?;
    let chunk = elements(alloc, &[1, 2, 3, 4, 5, 6, 7, 8])?;
    let eq0 = elements(alloc, &[1, 10])?;
    let mut dots = elements::<EF>(alloc, &[5, 6])?;
    row_dots::<F, EF>(&mut dots, &eq1, &chunk);
    let zeros = elements(alloc, &[0, 0])?;
    Ok(
        dots == elements(alloc, &[30, 70])?
            && dots_are::<F, EF>(&eq1, &chunk, &eq0, element(730))
            && dots_are::<F, EF>(&[], &[], &zeros, EF::ZERO),
    )
}

/// Whether the lanes of the dot of one row of four lanes add up to 70, and twice each weight to 20, by a
/// packing and by an element; and those of 10 times the row to 260.
pub fn lanes_of_one_row<F: Field, EF: ExtensionField<F>>(
    alloc: Global,
) -> Result<bool, AllocError> {
    if F::Packing::WIDTH != 4 {
        return Ok(false);
    }
    let eq1 = packed::<F, EF>(alloc, &elements(alloc, &[1, 2, 3, 4])?, 1)?;
    let row = elements(alloc, &[5, 6, 7, 8])?;
    let doubled = scale_by_packing::<F, EF>(eq1[0], F::Packing::splat(F::TWO));
    let tenfold = scale_packing::<F, EF>(element(10), F::Packing::load(&row));
    Ok(
        lane_sum::<F, EF>(row_dot_in_lanes::<F, EF>(&eq1, &row)) == element(70)
            && lane_sum::<F, EF>(doubled) == element(20)
            && scale_by_base::<F, EF>(eq1[0], F::TWO) == doubled
            && lane_sum::<F, EF>(tenfold) == element(260)
            && is_of_its_coefficients::<F, EF>(tenfold),
    )
}

/// Whether a packed value is made of its coefficients, where it has four.
fn is_of_its_coefficients<F: Field, EF: ExtensionField<F>>(packed: EF::ExtensionPacking) -> bool {
    if EF::DIMENSION != 4 {
        return true;
    }
    let made = packed_of_four::<F, EF>(
        packed.packed_coefficient(0),
        packed.packed_coefficient(1),
        packed.packed_coefficient(2),
        packed.packed_coefficient(3),
    );
    made == packed
}

/// Whether four rows of four lanes, each times two, are added up.
pub fn four_rows_added<F: Field, EF: ExtensionField<F>>(alloc: Global) -> Result<bool, AllocError> {
    if F::Packing::WIDTH != 4 {
        return Ok(false);
    }
    let out = packed::<F, EF>(alloc, &elements(alloc, &[1, 2, 3, 4])?, 1)?;
    let eq1 = packed::<F, EF>(alloc, &elements(alloc, &[1, 1, 1, 1])?, 1)?;
    let chunk = elements(
        alloc,
        &[0, 1, 2, 3, 4, 5, 6, 7, 8, 9, 10, 11, 12, 13, 14, 15],
    )?;
    let expected = packed::<F, EF>(alloc, &elements(alloc, &[49, 58, 67, 76])?, 1)?;
    rows_added_are::<F, EF>(alloc, &out, &eq1, &chunk, EF::TWO, &expected)
}
