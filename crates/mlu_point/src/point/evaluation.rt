//! Points made from a number or an element, and values at a point that need no table.
ghost use Rattle.std.specs.Prelude.{◌≡◌, ◌+◌, ◌-◌, ◌*◌, ◌^◌, ◌<◌, ◌≤◌, ◌++◌, []};
ghost use Rattle.std.specs.Prelude.{length, map, flat_map, slice_index_or, EachIndex, IfOk, IsOk, if◌then◌else◌};
ghost use Rattle.std.specs.Vec.{vec_capacity, vec_len};
ghost use Rattle.mlu_ring.specs.Tables.{weights, value, vertex, powers};
ghost use Rattle.mlu_ring.specs.Matrices.{dimension, transposed};
ghost use Rattle.mlu_point.specs.Powers.{powers_below};
ghost use Rattle.mlu_ring.specs.Successor.{next};
ghost use Rattle.mlu_point.specs.Factors.{eq_factor, power_factor};
ghost use Rattle.mlu_point.specs.declared.point.rule.Successor.TheVariants.{Wrap};
ghost use Rattle.mlu_point.specs.Rules.{next_by};
ghost use Rattle.mlu_point.specs.Steps.{carry_of, done_of, last_of};

use super::owned::Point;
use super::rule::Successor;
use super::table::bit_at;
use mlu_ring::{ExtensionField, Field, RowMajorMatrix};
use std::alloc::{AllocError, Global};

impl<F: Field> Point<F> {
    /// The vertex of an index: coordinate `i` is bit `n - 1 - i` of `value`, and missing high bits
    /// are zero. Asks that `value < 2^n` where `n < 64`.
    ///
    /// # Errors
    /// Where memory is refused; never where `n` is 0.
    pub fn hypercube(alloc: Global, value: usize, n: usize) -> Result<Self, AllocError>
        requires { n < 64 → value < 2 ^ n }
        ensures point { IfOk result (λ point. point ≡ vertex F.ring n value) }
        ensures none { n ≡ 0 → IsOk result }
    {
        let mut coords = Vec::with_capacity(alloc, n)?;
        for i in 0..n {
            let bit = bit_at(value, n - 1 - i);
            coords.push_reserved(F::from_bool(bit == 1));
        }
        Ok(Point::new(coords))
    }

    /// The point `(y^(2^(n-1)), .., y^2, y)`. Monomial folds of a table at its coordinates, in order,
    /// leave the value at `y` of the polynomial with the entries as coefficients; the value of the table
    /// at this point is another.
    ///
    /// # Errors
    /// Where memory is refused; never where `n` is 0.
    pub fn expand_from_univariate(alloc: Global, y: F, n: usize) -> Result<Self, AllocError>
        ensures point { IfOk result (λ point. point ≡ powers F.ring y n) }
        ensures none { n ≡ 0 → IsOk result }
    {
        let mut coords = F::zero_vec(alloc, n)?;
        fill_powers(coords.as_mut_slice(), y);
        Ok(Point::new(coords))
    }

    /// `eq(p, q)`: the value at `q` of the table of the weights of `p`, as images in `EF`. Asks for
    /// equal lengths.
    pub fn eval_eq<EF: ExtensionField<F>>(p: &[F], q: &[EF]) -> EF
        requires { length p.now ≡ length q.now }
        ensures { result ≡ value EF.ring (map EF.embed (weights F.ring p.now)) q.now }
    {
        let mut product = EF::ONE;
        for i in 0..p.len() {
            product = product * equality_factor(p[i], q[i]);
        }
        product
    }

    /// The value at the point of the images of `1, var, var^2, ..`, the first `2^n` powers of
    /// `var`, where the point has `n` coordinates: the last one reads the lowest bit of the power.
    pub fn eval_select<EF: ExtensionField<F>>(var: F, point: &[EF]) -> EF
        ensures { result ≡ value EF.ring (map EF.embed (powers_below F.ring var (2 ^ length point.now))) point.now }
    {
        let mut power = var;
        let mut product = EF::ONE;
        for k in 0..point.len() {
            let place = point.len() - 1 - k;
            product = select_factor(point[place], power) * product;
            power = power.square();
        }
        product
    }

    /// The value at `row` of the weights at `point`, each moved to the next vertex, in three parts:
    /// carry, the step out of the last vertex, where every bit goes from 1 to 0; done, the steps
    /// between vertices; last, the last vertex as its own successor. Asks for
    /// equal lengths.
    ///
    /// Done and last add up to the whole under [`Successor::RepeatLast`], done and carry under
    /// [`Successor::Wrap`]. A caller with coordinates in front of these goes on from carry.
    pub fn eval_next(point: &[F], row: &[F]) -> (F, F, F)
        requires { length point.now ≡ length row.now }
        ensures carry { result.0 ≡ carry_of F.ring point.now row.now }
        ensures done { result.1 ≡ done_of F.ring point.now row.now }
        ensures last { result.2 ≡ last_of F.ring point.now row.now }
        ensures whole { F.ring.sum result.1 result.2 ≡ value F.ring (next F.ring (weights F.ring point.now)) row.now }
        ensures around { F.ring.sum result.1 result.0 ≡ value F.ring (next_by Wrap F.ring (weights F.ring point.now)) row.now }
    {
        let mut carry = F::ONE;
        let mut done = F::ZERO;
        let mut last = F::ONE;
        for k in 0..point.len() {
            let coordinate = point.len() - 1 - k;
            let from = point[coordinate];
            let to = row[coordinate];
            let both = from * to;
            let leaves = from - both;
            let settles = to - both;
            done = done * (F::ONE - leaves - settles) + carry * settles;
            carry = carry * leaves;
            last = last * both;
        }
        (carry, done, last)
    }

    /// The value at `row` of the weights at `point`, each moved to the successor by the rule. Asks
    /// for equal lengths.
    pub fn eval_next_by(rule: Successor, point: &[F], row: &[F]) -> F
        requires { length point.now ≡ length row.now }
        ensures { result ≡ value F.ring (next_by rule F.ring (weights F.ring point.now)) row.now }
    {
        let (carry, done, last) = Self::eval_next(point, row);
        match rule {
            Successor::RepeatLast => done + last,
            Successor::Wrap => done + carry,
        }
    }

    /// The matrix whose row `j` is coordinate `j` of each point, or coordinate `k - 1 - j` of `k`
    /// where `rev_order`. Asks for one point or more, of equal lengths.
    ///
    /// # Errors
    /// Where memory is refused, or the number of values does not fit `usize`; never where the
    /// points have no coordinates.
    pub fn transpose(
        alloc: Global,
        points: &[Self],
        rev_order: bool,
    ) -> Result<RowMajorMatrix<F>, AllocError>
        requires some { 0 < length points.now }
        requires equal { EachIndex points.now (λ i. length (slice_index_or points.now i []) ≡ dimension points.now) }
        ensures values { IfOk result (λ matrix. matrix.values.items ≡ flat_map (λ row. row) (transposed F.ring points.now rev_order)) }
        ensures width { IfOk result (λ matrix. matrix.width ≡ length points.now) }
        ensures exact { IfOk result (λ matrix. vec_capacity matrix.values ≡ dimension points.now * length points.now) }
        ensures none { dimension points.now ≡ 0 → IsOk result }
    {
        let k = points[0].num_variables();
        let size = k.checked_mul(points.len()).ok_or(AllocError)?;
        let mut values = Vec::with_capacity(alloc, size)?;
        for j in 0..k {
            push_coordinates(&mut values, points, source_of(j, k, rev_order));
        }
        Ok(RowMajorMatrix::new(values, points.len()))
    }
}

/// What two coordinates give to the value of an equality table: both one, or both zero.
#[inline]
fn equality_factor<F: Field, EF: ExtensionField<F>>(p: F, q: EF) -> EF
    ensures { result ≡ eq_factor F.ring EF.ring EF.embed p q }
{
    q.double().scale(p).plus(F::ONE - p) - q
}

/// What a coordinate gives to the value of a table of powers.
#[inline]
fn select_factor<F: Field, EF: ExtensionField<F>>(coordinate: EF, power: F) -> EF
    ensures { result ≡ power_factor F.ring EF.ring EF.embed coordinate power }
{
    coordinate.scale(power - F::ONE) + EF::ONE
}

/// Writes `y` to the last place, and to each other place the square of the one after it.
fn fill_powers<F: Field>(out: &mut [F], y: F)
    ensures { out.new ≡ powers F.ring y (length out.old) }
{
    let mut power = y;
    for k in 0..out.len() {
        let place = out.len() - 1 - k;
        out[place] = power;
        power = power.square();
    }
}

/// The coordinate that row `j` lists.
fn source_of(j: usize, k: usize, reversed: bool) -> usize
    requires { j < k }
    ensures { result ≡ (if reversed then k - 1 - j else j) }
{
    if reversed { k - 1 - j } else { j }
}

/// Appends one coordinate of each point. Asks that each has it, and that there is room for all.
fn push_coordinates<F: Field>(values: &mut Vec<F>, points: &[Point<F>], place: usize)
    requires coordinates { EachIndex points.now (λ i. place < length (slice_index_or points.now i [])) }
    requires room { vec_len values.old + length points.now ≤ vec_capacity values.old }
    ensures items { values.new.items ≡ values.old.items ++ map (λ point. slice_index_or point place F.ring.zero) points.now }
    ensures len { vec_len values.new ≡ vec_len values.old + length points.now }
    ensures capacity { vec_capacity values.new ≡ vec_capacity values.old }
{
    for point in points {
        values.push_reserved(point[place]);
    }
}
