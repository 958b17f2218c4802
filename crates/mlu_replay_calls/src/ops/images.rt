//! The images of a split table in its own ring.
ghost use Rattle.std.specs.Prelude.{◌<◌, ◌^◌, length, IfOk};
ghost use Rattle.multilinear_util.specs.Split.{split_entries};

use crate::element::Element;
use crate::lines::table_word;
use crate::splits::{SplitOperands, split_table};
use crate::words::Words;
use mlu_replay_lines::fault::Fault;
use mlu_ring::{ExtensionField, MapFrom};
use multilinear_util::split_eq::SplitEq;
use std::alloc::{AllocError, Global};

/// `split.to_field`: the operands of a split table.
pub fn to_field<R: ExtensionField<R> + MapFrom<R> + Element>(
    words: &mut Words<'_>,
) -> Result<String, Fault> {
    let operands = words.stored_split::<R>()?;
    entries_of_images(words.alloc(), &operands)
}

/// The entries of the images of the halves by the identity.
fn entries_of_images<R: ExtensionField<R> + MapFrom<R> + Element>(
    alloc: Global,
    operands: &SplitOperands<R>,
) -> Result<String, Fault>
    requires { 2 ^ length operands.now.point < 2 ^ 64 }
{
    let split = split_table::<R, R>(alloc, operands)?;
    materialized(alloc, images(alloc, &split))
}

/// The split table whose halves are the images, which has as many entries.
fn images<R: ExtensionField<R> + MapFrom<R>>(
    alloc: Global,
    split: &SplitEq<R, R>,
) -> Result<SplitEq<R, R>, AllocError>
    requires { length (split_entries R.ring split.now) < 2 ^ 64 }
    ensures { IfOk result (λ images. length (split_entries R.ring images) < 2 ^ 64) }
{
    split.to_field::<R>(alloc)
}

/// All entries of a split table that a call gives.
fn materialized<R: ExtensionField<R> + Element>(
    alloc: Global,
    split: Result<SplitEq<R, R>, AllocError>,
) -> Result<String, Fault>
    requires { IfOk split (λ split. length (split_entries R.ring split) < 2 ^ 64) }
{
    let split = split?;
    table_word(alloc, split.materialize(alloc))
}
