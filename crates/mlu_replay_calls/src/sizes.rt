//! Tests of what calls ask of the sizes of their operands.
ghost use Rattle.std.specs.Prelude.{◌≡◌, ◌+◌, ◌*◌, ◌^◌, ◌≤◌, length, IfOk, IsOk, IsTrue};
ghost use Rattle.mlu_ring.specs.Lanes.{logical};

use mlu_replay_lines::fault::{Fault, Reason};
use mlu_ring::{ExtensionField, Field, PackedValue, log2_strict_usize};
use multilinear_util::poly::Poly;
use std::alloc::Global;

/// Whether so many entries are those of a table with so many variables.
pub fn has_variables(entries: usize, variables: usize) -> bool
    ensures { IsTrue result → entries ≡ 2 ^ variables }
{
    entries.is_power_of_two() && log2_strict_usize(entries) == variables
}

/// Tests that a table has as many variables as two others together.
///
/// # Errors
/// Where it has not as many variables as both.
#[tactic(auto, using(crate::proofs::Powers::product_of_parts))]
pub fn test_parts(variables: usize, first: usize, second: usize) -> Result<(), Reason>
    ensures { IsOk result → 2 ^ variables ≡ 2 ^ first * 2 ^ second }
{
    if first.checked_add(second) != Some(variables) {
        return Err(Reason::Size);
    }
    Ok(())
}

/// How many variables are left where the last ones are lanes.
///
/// # Errors
/// Where there are fewer than `log2(W)`.
fn variables_over_lanes<F: Field>(variables: usize) -> Result<usize, Reason>
    ensures { IfOk result (λ left. variables ≡ left + F.Packing.LOG_WIDTH) }
{
    let lanes = <F::Packing as PackedValue>::LOG_WIDTH;
    variables.checked_sub(lanes).ok_or(Reason::Size)
}

/// Tests that a table of so many variables has a packing for each entry of a table of `part` variables.
///
/// # Errors
/// Where it has fewer variables than the part and `log2(W)` more.
pub fn test_lanes<F: Field>(variables: usize, part: usize) -> Result<(), Reason>
    ensures { IsOk result → 2 ^ part * F.Packing.WIDTH ≤ 2 ^ variables }
{
    let left = variables_over_lanes::<F>(variables)?;
    if part > left {
        return Err(Reason::Size);
    }
    Ok(())
}

/// The table in packed form.
///
/// # Errors
/// Where it has fewer than `log2(W)` variables, or memory is refused.
pub fn pack<F: Field, EF: ExtensionField<F>>(
    alloc: Global,
    table: &Poly<EF>,
) -> Result<Poly<EF::ExtensionPacking>, Fault>
    ensures value { IfOk result (λ packed. logical EF.ExtensionPacking.ext_lanes packed ≡ table.now) }
    ensures size { IfOk result (λ packed. length packed * F.Packing.WIDTH ≡ length table.now) }
{
    if table.num_evals() < <F::Packing as PackedValue>::WIDTH {
        return Err(Fault::Unknown(Reason::Size));
    }
    let packed = table.pack::<F, EF>(alloc)?;
    Ok(packed)
}
