//! Equality tables in both orders.
ghost use Rattle.std.specs.Prelude.{◌≡◌, ◌^◌, length, IfOk};
ghost use Rattle.mlu_words.specs.Calls.{Tabulates, scaled_weights};
ghost use Rattle.mlu_words.specs.Codings.{element_count, elements_of};
ghost use Rattle.mlu_words.specs.Operands.{WeightsOperands};
ghost use Rattle.mlu_words.specs.Outcomes.{Tested};
ghost use Rattle.mlu_words.specs.Sizes.{IsOne};

use crate::fault::Fault;
use crate::sizes::{are_residues, are_whole, count_of, has_variables, is_one, is_table};
use crate::words::{Words, read, write};
use mlu_point::point::{BitOrder, fill_equality_table};
use mlu_ring::PrimeCharacteristicRing;
use std::alloc::{AllocError, Global};

/// Tests a point, a scale and the room for a table.
fn check_operands<T: Words>(point: &[u32], scale: &[u32], out: &[u32]) -> Result<(), Fault>
    ensures { Tested (WeightsOperands T.coding point.now scale.now out.now) result }
{
    if !are_whole::<T>(point) || !is_one::<T>(scale) || !is_table::<T>(out) {
        return Err(Fault::Length);
    }
    if !has_variables(count_of::<T>(out), count_of::<T>(point)) {
        return Err(Fault::Arity);
    }
    if !are_residues(point) || !are_residues(scale) {
        return Err(Fault::Residue);
    }
    Ok(())
}

/// The weights at a point in the order, times a scale. Asks for the words of one scale, and for the
/// number of weights.
fn table<R: PrimeCharacteristicRing + Words>(
    alloc: Global,
    order: BitOrder,
    point: &[u32],
    scale: &[u32],
    count: usize,
) -> Result<Vec<R>, AllocError>
    requires one { IsOne R.coding scale.now }
    requires count { count ≡ 2 ^ element_count R.coding point.now }
    ensures size { IfOk result (λ t. length t.items ≡ count) }
    ensures weights { IfOk result (λ t. t.items ≡ scaled_weights order R.ring (elements_of R.coding point.now) (R.coding.element scale.now)) }
{
    let point: Vec<R> = read(alloc, point)?;
    let mut table = R::zero_vec(alloc, count)?;
    fill_equality_table(
        table.as_mut_slice(),
        point.as_slice(),
        order,
        R::from_words(scale),
    );
    Ok(table)
}

/// The weights of all vertices at a point, in the order, each times a scale.
pub fn equality_weights<R: PrimeCharacteristicRing + Words>(
    alloc: Global,
    order: BitOrder,
    point: &[u32],
    scale: &[u32],
    out: &mut [u32],
) -> Result<(), Fault>
    ensures { Tabulates R.coding (scaled_weights order R.ring) point.now scale.now out.old out.new result }
{
    check_operands::<R>(point, scale, out)?;
    let table = table::<R>(alloc, order, point, scale, count_of::<R>(out))?;
    write(table.as_slice(), out);
    Ok(())
}
