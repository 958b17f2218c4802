//! Points that borrow their coordinates.
ghost use Rattle.std.specs.Prelude.{◌≡◌, ⊤, [], ◌<◌, length, slice_index_or};

use super::chunks::{equality_table, fill_in_chunks, weights_by_meter};
use super::coordinates::{copied, reversed, subrange};
use super::metered::fill_by_meter;
use super::order::BitOrder;
use super::owned::Point;
use super::table::weight_at;
use mlu_ring::{Field, Lanewise, Meter};
use std::alloc::{AllocError, Global};
use std::ops::{Index, Range};
use std::slice;

/// A point that borrows its coordinates.
#[derive(Debug, PartialEq, Eq)]
pub struct PointView<'a, F> {
    coords: &'a [F],
}

/// The same view, never an error.
impl<F> Clone for PointView<'_, F> {
    ghost is_clone = { λ a b. a ≡ b };

    ghost is_infallible = { λ _. ⊤ };

    fn clone(&self) -> Result<Self, AllocError> {
        Ok(*self)
    }
}

impl<F> Copy for PointView<'_, F> {}

/// The point of no coordinates.
impl<F> Default for PointView<'_, F> {
    ghost is_default = { λ view. view.coords.now ≡ [] };

    fn default() -> Self {
        PointView { coords: &[] }
    }
}

impl<'a, F: Copy> PointView<'a, F> {
    ghost use Rattle.std.specs.Prelude.{◌≡◌, ◌≤◌, length, take, drop, reverse, slice_range, IfOk, IsOk};
    ghost use Rattle.std.specs.Slice.Iter.{iter_rest, iter_steps};
    ghost use Rattle.std.specs.Iterator.Runs.{YieldsRefsInOrder};
    ghost use Rattle.mlu_point.specs.Views.{coordinates};

    /// The point with these coordinates.
    #[inline]
    pub fn new(coords: &'a [F]) -> Self
        ensures { coordinates result ≡ coords.now }
    {
        PointView { coords }
    }

    /// The number of coordinates.
    #[inline]
    pub fn num_variables(&self) -> usize
        ensures { result ≡ length (coordinates self.now) }
    {
        self.coords.len()
    }

    /// The coordinates.
    #[inline]
    pub fn as_slice(&self) -> &[F]
        ensures { result.now ≡ coordinates self.now }
    {
        self.into_slice()
    }

    /// The coordinates, for as long as what they were borrowed from lives.
    #[inline]
    pub fn into_slice(self) -> &'a [F]
        ensures { result.now ≡ coordinates self.entry }
    {
        let Self { coords } = self;
        coords
    }

    /// A view of the same coordinates.
    #[inline]
    pub fn as_view(&self) -> PointView<'_, F>
        ensures { coordinates result ≡ coordinates self.now }
    {
        PointView::new(self.coords)
    }

    /// An iterator over the coordinates.
    #[inline]
    pub fn iter(&self) -> slice::Iter<'_, F>
        ensures rest { iter_rest result ≡ coordinates self.now }
        ensures runs { YieldsRefsInOrder (iter_steps {A = F}) iter_rest }
    {
        self.as_slice().iter()
    }

    /// The point of the coordinates in a range. Asks that `start <= end <= n`, where there are `n`
    /// coordinates.
    ///
    /// # Errors
    /// Where memory is refused; never where the range is empty.
    pub fn get_subpoint_over_range(
        &self,
        alloc: Global,
        range: Range<usize>,
    ) -> Result<Point<F>, AllocError>
        requires order { range.start ≤ range.end }
        requires end { range.end ≤ length (coordinates self.now) }
        ensures point { IfOk result (λ point. point ≡ slice_range (coordinates self.now) range.start range.end) }
        ensures none { range.start ≡ range.end → IsOk result }
    {
        Ok(Point::new(subrange(alloc, self.coords, range)?))
    }

    /// The point with the coordinates from last to first.
    ///
    /// # Errors
    /// Where memory is refused; never where the point is empty.
    pub fn reversed(&self, alloc: Global) -> Result<Point<F>, AllocError>
        ensures point { IfOk result (λ point. point ≡ reverse (coordinates self.now)) }
        ensures none { length (coordinates self.now) ≡ 0 → IsOk result }
    {
        Ok(Point::new(reversed(alloc, self.coords)?))
    }

    /// The points of the first `pos` coordinates and of the others. Asks that `pos <= n`, where
    /// there are `n` coordinates.
    ///
    /// # Errors
    /// Where memory is refused; never where the point is empty.
    pub fn split_at(&self, alloc: Global, pos: usize) -> Result<(Point<F>, Point<F>), AllocError>
        requires { pos ≤ length (coordinates self.now) }
        ensures first { IfOk result (λ halves. halves.0 ≡ take pos (coordinates self.now)) }
        ensures rest { IfOk result (λ halves. halves.1 ≡ drop pos (coordinates self.now)) }
        ensures none { length (coordinates self.now) ≡ 0 → IsOk result }
    {
        let (first, rest) = self.coords.split_at(pos);
        let first = copied(alloc, first)?;
        let rest = copied(alloc, rest)?;
        Ok((Point::new(first), Point::new(rest)))
    }
}

impl<F: Lanewise> PointView<'_, F> {
    ghost use Rattle.std.specs.Prelude.{◌≡◌, ◌+◌, ◌-◌, ◌^◌, ◌<◌, ◌≤◌, length, map, IfOk, IsOk, OnErr, is_ok, if◌then◌else◌};
    ghost use Rattle.std.specs.Vec.{vec_capacity};
    ghost use Rattle.mlu_point.specs.Orders.{weights_by};
    ghost use Rattle.mlu_point.specs.Views.{coordinates};

    /// Writes the scale times each weight, in the order that `order` says, by `2^n - 1` products of the meter and
    /// none else. Asks for `2^n` places, where there are `n` coordinates.
    pub fn fill_equality_table_serial<M: Meter<F>>(
        &self,
        out: &mut [F],
        order: BitOrder,
        scale: F,
        meter: &mut M,
    )
        requires { length out.old ≡ 2 ^ length (coordinates self.now) }
        ensures table { out.new ≡ map (λ w. F.ring.product scale w) (weights_by order F.ring (coordinates self.now)) }
        ensures made { M.made meter.new ≡ M.made meter.old + (2 ^ length (coordinates self.now) - 1) }
        ensures groups { M.groups meter.new ≡ M.groups meter.old }
    {
        fill_by_meter(out, self.coords, order, scale, meter);
    }

    /// Writes the scale times each weight, in the order that `order` says, in chunks of `2^low_variables` entries.
    /// The other coordinates are the high ones, the first for [`BitOrder::Msb`] and the last for
    /// [`BitOrder::Lsb`]: each chunk is made of the scale times one of their weights. Takes `2^n - 1`
    /// products of the meter and none else, where there are `n` coordinates.
    ///
    /// Asks for `2^n` places, and that `low_variables <= n`.
    ///
    /// # Errors
    /// Where memory for the weights of the high coordinates is refused; nothing is written or
    /// multiplied then. Never where `low_variables` is `n`.
    pub fn fill_equality_table_in_chunks<M: Meter<F>>(
        &self,
        alloc: Global,
        out: &mut [F],
        order: BitOrder,
        scale: F,
        low_variables: usize,
        meter: &mut M,
    ) -> Result<(), AllocError>
        requires places { length out.old ≡ 2 ^ length (coordinates self.now) }
        requires low { low_variables ≤ length (coordinates self.now) }
        ensures table { IfOk result (λ _. out.new ≡ map (F.ring.product scale) (weights_by order F.ring (coordinates self.now))) }
        ensures kept { OnErr result (out.new ≡ out.old) }
        ensures made { M.made meter.new ≡ M.made meter.old + (if is_ok result then 2 ^ length (coordinates self.now) - 1 else 0) }
        ensures groups { M.groups meter.new ≡ M.groups meter.old }
        ensures whole { low_variables ≡ length (coordinates self.now) → IsOk result }
    {
        fill_in_chunks(alloc, out, self.coords, order, scale, low_variables, meter)
    }

    /// The weights of all vertices, in the order that `order` says, as [`PointView::fill_equality_table_in_chunks`]
    /// makes them: by `2^n - 1` products of the meter and none else. Asks that `2^n` fits `usize`,
    /// where there are `n` coordinates, and that `low_variables <= n`.
    ///
    /// # Errors
    /// Where the allocation of exactly `2^n` elements or the memory of the chunks is refused;
    /// nothing is multiplied then.
    pub fn equality_weights_metered<M: Meter<F>>(
        &self,
        alloc: Global,
        order: BitOrder,
        low_variables: usize,
        meter: &mut M,
    ) -> Result<Vec<F>, AllocError>
        requires fits { 2 ^ length (coordinates self.now) < 2 ^ 64 }
        requires low { low_variables ≤ length (coordinates self.now) }
        ensures table { IfOk result (λ table. table.items ≡ weights_by order F.ring (coordinates self.now)) }
        ensures exact { IfOk result (λ table. vec_capacity table ≡ 2 ^ length (coordinates self.now)) }
        ensures made { M.made meter.new ≡ M.made meter.old + (if is_ok result then 2 ^ length (coordinates self.now) - 1 else 0) }
        ensures groups { M.groups meter.new ≡ M.groups meter.old }
    {
        weights_by_meter(alloc, self.coords, order, low_variables, meter)
    }
}

impl<F: Field> PointView<'_, F> {
    ghost use Rattle.std.specs.Prelude.{◌≡◌, ◌^◌, ◌<◌, length, IfOk};
    ghost use Rattle.std.specs.Vec.{vec_capacity};
    ghost use Rattle.mlu_ring.specs.Tables.{weights, lsb};
    ghost use Rattle.mlu_point.specs.Vertices.{IsWeightAt};
    ghost use Rattle.mlu_point.specs.Views.{coordinates};

    /// The weights of all vertices by their indexes: coordinate 0 reads the highest bit. Asks that
    /// `2^n` fits `usize`, where there are `n` coordinates.
    ///
    /// # Errors
    /// Where the one allocation of exactly `2^n` elements is refused.
    pub fn equality_weights_msb(&self, alloc: Global) -> Result<Vec<F>, AllocError>
        requires { 2 ^ length (coordinates self.now) < 2 ^ 64 }
        ensures table { IfOk result (λ table. table.items ≡ weights F.ring (coordinates self.now)) }
        ensures exact { IfOk result (λ table. vec_capacity table ≡ 2 ^ length (coordinates self.now)) }
    {
        equality_table(alloc, self.coords, BitOrder::Msb)
    }

    /// The weights of all vertices in the order of their reversed index bits: coordinate 0 reads
    /// the lowest bit. Asks that `2^n` fits `usize`, where there are `n` coordinates.
    ///
    /// # Errors
    /// Where the one allocation of exactly `2^n` elements is refused.
    pub fn equality_weights_lsb(&self, alloc: Global) -> Result<Vec<F>, AllocError>
        requires { 2 ^ length (coordinates self.now) < 2 ^ 64 }
        ensures table { IfOk result (λ table. table.items ≡ lsb F.ring (coordinates self.now)) }
        ensures exact { IfOk result (λ table. vec_capacity table ≡ 2 ^ length (coordinates self.now)) }
    {
        equality_table(alloc, self.coords, BitOrder::Lsb)
    }

    /// The weight of a vertex by its index, whose highest bit coordinate 0 reads. `None` exactly
    /// for a vertex of `2^n` or more, with `n` coordinates.
    pub fn equality_at_vertex(&self, vertex: usize) -> Option<F>
        ensures { IsWeightAt F.ring (coordinates self.now) vertex result }
    {
        weight_at(self.coords, vertex)
    }
}

/// The coordinate. Asks that there is one.
impl<F> Index<usize> for PointView<'_, F> {
    type Output = F;

    ghost can_index = { λ view i. i < length view.coords.now };

    ghost index_gives = { λ view i x. x ≡ slice_index_or view.coords.now i x };

    fn index(&self, index: usize) -> &F {
        &self.coords[index]
    }
}

impl<'a, F> IntoIterator for &'a PointView<'_, F> {
    ghost use Rattle.std.specs.Prelude.{◌≡◌};
    ghost use Rattle.std.specs.Slice.Iter.{iter_rest, iter_steps};
    ghost use Rattle.std.specs.Iterator.Runs.{YieldsRefsInOrder};

    type Item = &'a F;

    type IntoIter = slice::Iter<'a, F>;

    ghost into_iter_gives = { λ view r. (iter_rest r ≡ view.now.coords.now) × YieldsRefsInOrder (iter_steps {A = F}) iter_rest };

    fn into_iter(self) -> slice::Iter<'a, F> {
        self.coords.iter()
    }
}
