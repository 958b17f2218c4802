//! Equality tables filled chunk after chunk, each from the weight of its high coordinates.
ghost use Rattle.std.specs.Prelude.{◌≡◌, ◌+◌, ◌-◌, ◌*◌, ◌^◌, ◌<◌, ◌≤◌, length, map, IfOk, IsOk, OnErr, is_ok, if◌then◌else◌};
ghost use Rattle.std.specs.Vec.{vec_capacity};
ghost use Rattle.mlu_point.specs.Orders.{weights_by, joined_by, scaled_by_each};

use super::metered::fill_by_meter;
use super::order::BitOrder;
use mlu_ring::{Field, Lanewise, Meter, Unmetered, row_range, zeros};
use std::alloc::{AllocError, Global};

/// The coordinates that read the top bits of an index, and so many others.
fn split_high<R>(coords: &[R], order: BitOrder, low_variables: usize) -> (&[R], &[R])
    requires { low_variables ≤ length coords.now }
    ensures whole { coords.now ≡ joined_by order result.0.now result.1.now }
    ensures low { length result.1.now ≡ low_variables }
{
    match order {
        BitOrder::Msb => coords.split_at(coords.len() - low_variables),
        BitOrder::Lsb => {
            let (low, high) = coords.split_at(low_variables);
            (high, low)
        }
    }
}

/// The scale times each weight, in the order that `order` says and in one allocation of exactly `2^n` elements. Asks
/// that `2^n` fits `usize`.
fn scaled_weights<F: Lanewise, M: Meter<F>>(
    alloc: Global,
    coords: &[F],
    order: BitOrder,
    scale: F,
    meter: &mut M,
) -> Result<Vec<F>, AllocError>
    requires { 2 ^ length coords.now < 2 ^ 64 }
    ensures table { IfOk result (λ table. table.items ≡ map (F.ring.product scale) (weights_by order F.ring coords.now)) }
    ensures exact { IfOk result (λ table. vec_capacity table ≡ 2 ^ length coords.now) }
    ensures made { M.made meter.new ≡ M.made meter.old + (if is_ok result then 2 ^ length coords.now - 1 else 0) }
    ensures groups { M.groups meter.new ≡ M.groups meter.old }
{
    let mut table = zeros(alloc, 1 << coords.len())?;
    fill_by_meter(table.as_mut_slice(), coords, order, scale, meter);
    Ok(table)
}

/// Writes each seed times each weight of the low coordinates, a chunk for each seed.
fn fill_chunks<F: Lanewise, M: Meter<F>>(
    out: &mut [F],
    low: &[F],
    order: BitOrder,
    seeds: &[F],
    meter: &mut M,
)
    requires { length out.old ≡ length seeds.now * 2 ^ length low.now }
    ensures table { out.new ≡ scaled_by_each F.ring (weights_by order F.ring low.now) seeds.now }
    ensures made { M.made meter.new ≡ M.made meter.old + length seeds.now * (2 ^ length low.now - 1) }
    ensures groups { M.groups meter.new ≡ M.groups meter.old }
{
    for i in 0..seeds.len() {
        let chunk = row_range(out.len(), seeds.len(), i);
        fill_by_meter(&mut out[chunk], low, order, seeds[i], meter);
    }
}

/// Writes the scale times each weight, in the order that `order` says, a chunk for each weight of the high
/// coordinates. Those weights are the only memory: it does not fail where there is no such
/// coordinate.
pub(super) fn fill_in_chunks<F: Lanewise, M: Meter<F>>(
    alloc: Global,
    out: &mut [F],
    coords: &[F],
    order: BitOrder,
    scale: F,
    low_variables: usize,
    meter: &mut M,
) -> Result<(), AllocError>
    requires places { length out.old ≡ 2 ^ length coords.now }
    requires low { low_variables ≤ length coords.now }
    ensures table { IfOk result (λ _. out.new ≡ map (F.ring.product scale) (weights_by order F.ring coords.now)) }
    ensures kept { OnErr result (out.new ≡ out.old) }
    ensures made { M.made meter.new ≡ M.made meter.old + (if is_ok result then 2 ^ length coords.now - 1 else 0) }
    ensures groups { M.groups meter.new ≡ M.groups meter.old }
    ensures whole { low_variables ≡ length coords.now → IsOk result }
{
    let (high, low) = split_high(coords, order, low_variables);
    if high.is_empty() {
        fill_by_meter(out, low, order, scale, meter);
        return Ok(());
    }
    let seeds = scaled_weights(alloc, high, order, scale, meter)?;
    fill_chunks(out, low, order, seeds.as_slice(), meter);
    Ok(())
}

/// The weights of all vertices, in the order that `order` says and in one allocation of exactly `2^n` elements, by
/// [`fill_in_chunks`]. Asks that `2^n` fits `usize`.
pub(super) fn weights_by_meter<F: Lanewise, M: Meter<F>>(
    alloc: Global,
    coords: &[F],
    order: BitOrder,
    low_variables: usize,
    meter: &mut M,
) -> Result<Vec<F>, AllocError>
    requires fits { 2 ^ length coords.now < 2 ^ 64 }
    requires low { low_variables ≤ length coords.now }
    ensures table { IfOk result (λ table. table.items ≡ weights_by order F.ring coords.now) }
    ensures exact { IfOk result (λ table. vec_capacity table ≡ 2 ^ length coords.now) }
    ensures made { M.made meter.new ≡ M.made meter.old + (if is_ok result then 2 ^ length coords.now - 1 else 0) }
    ensures groups { M.groups meter.new ≡ M.groups meter.old }
{
    let mut table = zeros(alloc, 1 << coords.len())?;
    let out = table.as_mut_slice();
    fill_in_chunks(alloc, out, coords, order, F::ONE, low_variables, meter)?;
    Ok(table)
}

/// The weights of all vertices, in the order that `order` says, by [`weights_by_meter`] in one chunk. Asks that `2^n`
/// fits `usize`.
pub(super) fn equality_table<F: Field>(
    alloc: Global,
    coords: &[F],
    order: BitOrder,
) -> Result<Vec<F>, AllocError>
    requires { 2 ^ length coords.now < 2 ^ 64 }
    ensures table { IfOk result (λ table. table.items ≡ weights_by order F.ring coords.now) }
    ensures exact { IfOk result (λ table. vec_capacity table ≡ 2 ^ length coords.now) }
{
    weights_by_meter(alloc, coords, order, coords.len(), &mut Unmetered::new())
}
