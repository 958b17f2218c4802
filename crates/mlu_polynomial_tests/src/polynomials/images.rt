//! The images of split tables in another ring.
ghost use Rattle.std.specs.Prelude.{◌<◌, length};

use crate::rings::{Row, Word, quartics, residues_in_words};
use mlu_ring::{ExtensionField, Field, MapFrom};
use mlu_test_support::numbers::{element, elements};
use mlu_test_tables::point;
use multilinear_util::split_eq::SplitEq;
use std::alloc::{AllocError, Global};
use std::test::Fail;

/// A point, and 5 times its weights.
const COORDINATES: [i32; 3] = [2, 3, 5];

const IMAGES: [i32; 8] = [-40, 50, 60, -75, 80, -100, -120, 150];

/// Whether 5 times the weights of the point have the images of their numbers.
pub fn are_numbers<F: Field, R: ExtensionField<F>, S: ExtensionField<S> + MapFrom<R>>(
    alloc: Global,
) -> Result<bool, AllocError> {
    are::<F, R, S>(alloc, &COORDINATES, &elements::<S>(alloc, &IMAGES)?)
}

/// Whether 5 times the weights of the point, in either storage, have these images.
pub fn are<F: Field, R: ExtensionField<F>, S: ExtensionField<S> + MapFrom<R>>(
    alloc: Global,
    coordinates: &[i32],
    images: &[S],
) -> Result<bool, AllocError>
    requires { length coordinates.now < 64 }
{
    let point = point::<R>(alloc, coordinates)?;
    let unpacked = SplitEq::<F, R>::new_unpacked(alloc, &point, element(5));
    if !has_images::<F, R, S>(alloc, unpacked, images)? {
        return Ok(false);
    }
    let packed = SplitEq::<F, R>::new_packed(alloc, &point, element(5));
    has_images::<F, R, S>(alloc, packed, images)
}

/// Whether the table that a call makes has these images, as scalars.
fn has_images<F: Field, R: ExtensionField<F>, S: ExtensionField<S> + MapFrom<R>>(
    alloc: Global,
    split: Result<SplitEq<F, R>, AllocError>,
    images: &[S],
) -> Result<bool, AllocError> {
    gives_table(alloc, split?.to_field::<S>(alloc), images)
}

/// Whether the table that a call makes has these entries, as scalars.
fn gives_table<S: ExtensionField<S>>(
    alloc: Global,
    split: Result<SplitEq<S, S>, AllocError>,
    entries: &[S],
) -> Result<bool, AllocError> {
    is_table(alloc, &split?, entries)
}

/// Whether the table has these entries, as scalars.
fn is_table<S: ExtensionField<S>>(
    alloc: Global,
    split: &SplitEq<S, S>,
    entries: &[S],
) -> Result<bool, AllocError> {
    let variables = split.num_variables();
    if variables >= 32 || 1 << variables != entries.len() || split.eq1().is_packed() {
        return Ok(false);
    }
    Ok(split.materialize(alloc)?.as_slice() == entries)
}

/// Of weights that are packed over the residues.
#[test]
fn images_of_quartics(rt: HostRuntime) -> Result<(), Fail> {
    assert!(rt; quartics(rt.alloc(), Row::Images)?);
    Ok(())
}

#[test]
fn images_in_quartics(rt: HostRuntime) -> Result<(), Fail> {
    assert!(rt; quartics(rt.alloc(), Row::ImagesOfBase)?);
    Ok(())
}

/// Of the least residues of both halves, so products of residues are not reduced.
#[test]
fn images_in_words(rt: HostRuntime) -> Result<(), Fail> {
    let images = [10066329600, 10].map(Word::new);
    assert!(rt; residues_in_words(rt.alloc(), &[2], &images)?);
    let images = [
        16106127328,
        4053239638460989476,
        4053239634434457644,
        30198988740,
        80,
        20132659110,
        20132659090,
        150,
    ]
    .map(Word::new);
    assert!(rt; residues_in_words(rt.alloc(), &[2, 3, 5], &images)?);
    Ok(())
}
