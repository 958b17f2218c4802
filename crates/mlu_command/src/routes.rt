//! The value of a table by four routes. Each asks for a point with as many coordinates as there are
//! variables, and fails where memory is refused.
ghost use Rattle.std.specs.Prelude.{◌≡◌, ◌^◌, length, map, IfOk};
ghost use Rattle.mlu_ring.specs.Tables.{value};

use mlu_ring::{Additive, ExtensionField, PackedValue};
use multilinear_util::point::Point;
use multilinear_util::poly::{Poly, PolyMaybePacked};
use multilinear_util::split_eq::SplitEq;
use std::alloc::{AllocError, Global};

/// The value by a split table of scalars.
#[tactic(auto, using(multilinear_util::proofs::Splits::half_fits))]
fn by_scalars<R: ExtensionField<R>>(
    alloc: Global,
    table: &Poly<R>,
    point: &Point<R>,
) -> Result<R, AllocError>
    requires { length table.now ≡ 2 ^ length point.now }
    ensures { IfOk result (λ x. x ≡ value R.ring (map R.embed table.now) point.now) }
{
    let view = table.as_view();
    let split = SplitEq::<R, R>::new_unpacked(alloc, point, R::ONE)?;
    Ok(split.eval_base(view))
}

/// The value by a split table that is packed where it is large enough.
#[tactic(auto, using(multilinear_util::proofs::Splits::half_fits))]
fn by_lanes<R: ExtensionField<R>>(
    alloc: Global,
    table: &Poly<R>,
    point: &Point<R>,
) -> Result<R, AllocError>
    requires { length table.now ≡ 2 ^ length point.now }
    ensures { IfOk result (λ x. x ≡ value R.ring (map R.embed table.now) point.now) }
{
    let view = table.as_view();
    let split = SplitEq::<R, R>::new_packed(alloc, point, R::ONE)?;
    Ok(split.eval_base(view))
}

/// The value of the packed table, or of the table as it is where it has fewer variables than a
/// packing.
#[tactic(auto, using(crate::proofs::Packing::fills_a_packing, crate::proofs::Packing::lanes_of_packed))]
fn packed<R: ExtensionField<R>>(
    alloc: Global,
    table: Poly<R>,
    point: &Point<R>,
) -> Result<R, AllocError>
    requires { length table ≡ 2 ^ length point.now }
    ensures { IfOk result (λ x. x ≡ value R.ring table point.now) }
{
    if table.num_variables() < <R::Packing as PackedValue>::LOG_WIDTH {
        return PolyMaybePacked::<R, R>::Scalar(table).eval(alloc, point);
    }
    let packed = table.pack::<R, R>(alloc)?;
    packed.eval_packed::<R, R>(alloc, point)
}

/// The value by each route: the polynomial's own call, both split tables, and the packed table.
pub fn by_each<R: ExtensionField<R>>(
    alloc: Global,
    table: Poly<R>,
    point: &Point<R>,
) -> Result<(R, R, R, R), AllocError>
    requires { length table ≡ 2 ^ length point.now }
    ensures direct { IfOk result (λ x. x.0 ≡ value R.ring (map R.embed table) point.now) }
    ensures scalars { IfOk result (λ x. x.1 ≡ value R.ring (map R.embed table) point.now) }
    ensures lanes { IfOk result (λ x. x.2 ≡ value R.ring (map R.embed table) point.now) }
    ensures packed { IfOk result (λ x. x.3 ≡ value R.ring table point.now) }
{
    let direct = table.eval_base::<R>(alloc, point)?;
    let by_scalars = by_scalars(alloc, &table, point)?;
    let by_lanes = by_lanes(alloc, &table, point)?;
    let packed = packed(alloc, table, point)?;
    Ok((direct, by_scalars, by_lanes, packed))
}
