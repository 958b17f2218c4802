//! One row of a slice that is cut into rows of equal length.
ghost use Rattle.std.specs.Prelude.{◌≡◌, ℕ, ◌+◌, ◌*◌, ◌/◌, ◌<◌, ◌≤◌, length};
ghost use Rattle.mlu_ring.specs.Matrices.{row_at};

use std::ops::Range;

/// Row `j` of the slice cut into `rows` rows, whose length is the quotient. Asks that `j` is below
/// `rows`.
///
/// It takes the number of rows, not their length: that is a product in many callers, which may
/// overflow where there are no rows. Clauses `exact` and `size` are for callers who know that the
/// values are rows of `n` each.
#[inline]
pub fn row_of<T>(values: &[T], rows: usize, j: usize) -> &[T]
    requires { j < rows }
    ensures row { result.now ≡ row_at (length values.now / rows) values.now j }
    ensures exact { (n : ℕ) → length values.now ≡ rows * n → result.now ≡ row_at n values.now j }
    ensures size { (n : ℕ) → length values.now ≡ rows * n → length result.now ≡ n }
{
    row_of_width(values, values.len() / rows, j)
}

/// Row `j` of the slice cut into rows of `width` values. Asks that the row ends within the slice.
#[inline]
pub fn row_of_width<T>(values: &[T], width: usize, j: usize) -> &[T]
    requires { (j + 1) * width ≤ length values.now }
    ensures { result.now ≡ row_at width values.now j }
{
    let start = j * width;
    &values[start..start + width]
}

/// Where row `j` stands among `length` values cut into `rows` rows, for a row that is written:
/// `&mut out[row]`. Asks that `j` is below `rows`.
#[inline]
pub fn row_range(length: usize, rows: usize, j: usize) -> Range<usize>
    requires { j < rows }
    ensures start { result.start ≡ j * (length / rows) }
    ensures end { result.end ≡ j * (length / rows) + length / rows }
    ensures within { result.end ≤ length }
{
    let width = length / rows;
    let start = j * width;
    start..start + width
}
