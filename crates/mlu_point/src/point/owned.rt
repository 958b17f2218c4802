//! Points that own their coordinates.
ghost use Rattle.std.specs.Prelude.{◌≡◌, ◌+◌, ◌-◌, ◌^◌, ◌<◌, ◌≤◌, ◌++◌, [], length, map, take, drop, reverse};
ghost use Rattle.std.specs.Prelude.{slice_index_or, slice_range, is_ok, if◌then◌else◌, IfOk, IsOk, OnErr};
ghost use Rattle.std.specs.declared.alloc.Global.{Global};
ghost use Rattle.std.specs.Cmp.Lexicographic.{pointwise, lists_per, lists_equiv};
ghost use Rattle.std.specs.Slice.Iter.{iter_rest, iter_steps};
ghost use Rattle.std.specs.Vec.{vec_capacity};
ghost use Rattle.std.specs.Vec.Iter.{into_iter_items, into_iter_steps};
ghost use Rattle.std.specs.Iterator.Runs.{YieldsRefsInOrder, YieldsInOrder};
ghost use Rattle.mlu_ring.specs.Tables.{weights, lsb};
ghost use Rattle.mlu_point.specs.Orders.{weights_by};
ghost use Rattle.mlu_point.specs.Vertices.{IsWeightAt};

use super::coordinates::copied;
use super::order::BitOrder;
use super::view::PointView;
use mlu_ring::{Field, Lanewise, Meter, Sample};
use rand::RngExt;
use std::alloc::{AllocError, Global};
use std::marker::Model;
use std::ops::{Index, Range};
use std::{slice, vec};

/// A point that owns its coordinates.
#[derive(Debug, Drop)]
pub struct Point<F> {
    coords: Vec<F>,
}

impl<F> Model for Point<F> {
    ghost use Rattle.std.specs.Prelude.{List};

    ghost Value = { List F };

    ghost view = { λ point. point.coords.items };
}

impl<F: Copy> Point<F> {
    ghost use Rattle.mlu_point.specs.Views.{coordinates};

    /// The point with these coordinates.
    #[inline]
    pub fn new(coords: Vec<F>) -> Self
        ensures { result ≡ coords.items }
    {
        Point { coords }
    }

    /// The point of no coordinates.
    pub fn empty(alloc: Global) -> Self
        ensures { result ≡ [] }
    {
        Point {
            coords: Vec::new(alloc),
        }
    }

    /// An equal point.
    ///
    /// # Errors
    /// Where memory is refused; never where the point is empty.
    pub fn try_clone(&self, alloc: Global) -> Result<Self, AllocError>
        ensures point { IfOk result (λ point. point ≡ self.now) }
        ensures none { length self.now ≡ 0 → IsOk result }
    {
        Ok(Point::new(copied(alloc, self.as_slice())?))
    }

    /// The number of coordinates.
    #[inline]
    pub fn num_variables(&self) -> usize
        ensures { result ≡ length self.now }
    {
        self.coords.len()
    }

    /// The coordinates.
    #[inline]
    pub fn as_slice(&self) -> &[F]
        ensures { result.now ≡ self.now }
    {
        self.coords.as_slice()
    }

    /// A view of the coordinates.
    #[inline]
    pub fn as_view(&self) -> PointView<'_, F>
        ensures { coordinates result ≡ self.now }
    {
        PointView::new(self.as_slice())
    }

    /// An iterator over the coordinates.
    #[inline]
    pub fn iter(&self) -> slice::Iter<'_, F>
        ensures rest { iter_rest result ≡ self.now }
        ensures runs { YieldsRefsInOrder (iter_steps {A = F}) iter_rest }
    {
        self.as_slice().iter()
    }

    /// Appends the coordinates of `other`.
    ///
    /// # Errors
    /// Where memory is refused, and the point is as before then; never where `other` is empty.
    pub fn extend(&mut self, other: PointView<'_, F>) -> Result<(), AllocError>
        ensures point { self.new ≡ (if is_ok result then self.old ++ coordinates other.entry else self.old) }
        ensures none { length (coordinates other.entry) ≡ 0 → IsOk result }
    {
        self.coords.extend_from_slice(other.into_slice())
    }

    /// As [`PointView::get_subpoint_over_range`].
    pub fn get_subpoint_over_range(
        &self,
        alloc: Global,
        range: Range<usize>,
    ) -> Result<Self, AllocError>
        requires order { range.start ≤ range.end }
        requires end { range.end ≤ length self.now }
        ensures point { IfOk result (λ point. point ≡ slice_range self.now range.start range.end) }
        ensures none { range.start ≡ range.end → IsOk result }
    {
        self.as_view().get_subpoint_over_range(alloc, range)
    }

    /// As [`PointView::reversed`].
    pub fn reversed(&self, alloc: Global) -> Result<Self, AllocError>
        ensures point { IfOk result (λ point. point ≡ reverse self.now) }
        ensures none { length self.now ≡ 0 → IsOk result }
    {
        self.as_view().reversed(alloc)
    }

    /// As [`PointView::split_at`].
    pub fn split_at(&self, alloc: Global, pos: usize) -> Result<(Self, Self), AllocError>
        requires { pos ≤ length self.now }
        ensures first { IfOk result (λ halves. halves.0 ≡ take pos self.now) }
        ensures rest { IfOk result (λ halves. halves.1 ≡ drop pos self.now) }
        ensures none { length self.now ≡ 0 → IsOk result }
    {
        self.as_view().split_at(alloc, pos)
    }
}

impl<F: Lanewise> Point<F> {
    /// As [`PointView::fill_equality_table_serial`].
    pub fn fill_equality_table_serial<M: Meter<F>>(
        &self,
        out: &mut [F],
        order: BitOrder,
        scale: F,
        meter: &mut M,
    )
        requires { length out.old ≡ 2 ^ length self.now }
        ensures table { out.new ≡ map (λ w. F.ring.product scale w) (weights_by order F.ring self.now) }
        ensures made { M.made meter.new ≡ M.made meter.old + (2 ^ length self.now - 1) }
        ensures groups { M.groups meter.new ≡ M.groups meter.old }
    {
        self.as_view()
            .fill_equality_table_serial(out, order, scale, meter);
    }

    /// As [`PointView::fill_equality_table_in_chunks`].
    pub fn fill_equality_table_in_chunks<M: Meter<F>>(
        &self,
        alloc: Global,
        out: &mut [F],
        order: BitOrder,
        scale: F,
        low_variables: usize,
        meter: &mut M,
    ) -> Result<(), AllocError>
        requires places { length out.old ≡ 2 ^ length self.now }
        requires low { low_variables ≤ length self.now }
        ensures table { IfOk result (λ _. out.new ≡ map (F.ring.product scale) (weights_by order F.ring self.now)) }
        ensures kept { OnErr result (out.new ≡ out.old) }
        ensures made { M.made meter.new ≡ M.made meter.old + (if is_ok result then 2 ^ length self.now - 1 else 0) }
        ensures groups { M.groups meter.new ≡ M.groups meter.old }
        ensures whole { low_variables ≡ length self.now → IsOk result }
    {
        self.as_view()
            .fill_equality_table_in_chunks(alloc, out, order, scale, low_variables, meter)
    }

    /// As [`PointView::equality_weights_metered`].
    pub fn equality_weights_metered<M: Meter<F>>(
        &self,
        alloc: Global,
        order: BitOrder,
        low_variables: usize,
        meter: &mut M,
    ) -> Result<Vec<F>, AllocError>
        requires fits { 2 ^ length self.now < 2 ^ 64 }
        requires low { low_variables ≤ length self.now }
        ensures table { IfOk result (λ table. table.items ≡ weights_by order F.ring self.now) }
        ensures exact { IfOk result (λ table. vec_capacity table ≡ 2 ^ length self.now) }
        ensures made { M.made meter.new ≡ M.made meter.old + (if is_ok result then 2 ^ length self.now - 1 else 0) }
        ensures groups { M.groups meter.new ≡ M.groups meter.old }
    {
        self.as_view()
            .equality_weights_metered(alloc, order, low_variables, meter)
    }
}

impl<F: Field> Point<F> {
    /// As [`PointView::equality_weights_msb`].
    pub fn equality_weights_msb(&self, alloc: Global) -> Result<Vec<F>, AllocError>
        requires { 2 ^ length self.now < 2 ^ 64 }
        ensures table { IfOk result (λ table. table.items ≡ weights F.ring self.now) }
        ensures exact { IfOk result (λ table. vec_capacity table ≡ 2 ^ length self.now) }
    {
        self.as_view().equality_weights_msb(alloc)
    }

    /// As [`PointView::equality_weights_lsb`].
    pub fn equality_weights_lsb(&self, alloc: Global) -> Result<Vec<F>, AllocError>
        requires { 2 ^ length self.now < 2 ^ 64 }
        ensures table { IfOk result (λ table. table.items ≡ lsb F.ring self.now) }
        ensures exact { IfOk result (λ table. vec_capacity table ≡ 2 ^ length self.now) }
    {
        self.as_view().equality_weights_lsb(alloc)
    }

    /// As [`PointView::equality_at_vertex`].
    pub fn equality_at_vertex(&self, vertex: usize) -> Option<F>
        ensures { IsWeightAt F.ring self.now vertex result }
    {
        self.as_view().equality_at_vertex(vertex)
    }
}

impl<F: Sample + Copy + Drop> Point<F> {
    /// A point of `n` drawn coordinates. Which ones come, and where the generator then stands, is
    /// not promised.
    ///
    /// # Errors
    /// Where memory is refused; never where `n` is 0.
    pub fn rand<R: RngExt>(alloc: Global, rng: &mut R, n: usize) -> Result<Self, AllocError>
        ensures size { IfOk result (λ point. length point ≡ n) }
        ensures none { n ≡ 0 → IsOk result }
    {
        let mut coords = Vec::with_capacity(alloc, n)?;
        for _ in 0..n {
            coords.push_reserved(F::sample(rng));
        }
        Ok(Point::new(coords))
    }
}

impl<F: PartialEq> PartialEq for Point<F> {
    ghost eq = { λ a b. pointwise F.eq a b };

    ghost laws = { lists_per F.laws };

    fn eq(&self, other: &Self) -> bool {
        self.coords == other.coords
    }
}

impl<F: Eq> Eq for Point<F> {
    ghost laws = { lists_equiv F.Eq.laws };
}

/// The coordinate. Asks that there is one.
impl<F> Index<usize> for Point<F> {
    type Output = F;

    ghost can_index = { λ point i. i < length point };

    ghost index_gives = { λ point i x. x ≡ slice_index_or point i x };

    fn index(&self, index: usize) -> &F {
        &self.coords[index]
    }
}

impl<'a, F> IntoIterator for &'a Point<F> {
    type Item = &'a F;

    type IntoIter = slice::Iter<'a, F>;

    ghost into_iter_gives = { λ point r. (iter_rest r ≡ point.now) × YieldsRefsInOrder (iter_steps {A = F}) iter_rest };

    fn into_iter(self) -> slice::Iter<'a, F> {
        self.coords.iter()
    }
}

impl<F: Drop> IntoIterator for Point<F> {
    type Item = F;

    type IntoIter = vec::IntoIter<F>;

    ghost into_iter_gives = { λ p r. (into_iter_items r ≡ p) × YieldsInOrder (into_iter_steps {X = F} {Z = Global}) into_iter_items };

    fn into_iter(self) -> vec::IntoIter<F> {
        self.coords.into_iter()
    }
}
