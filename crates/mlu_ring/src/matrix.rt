//! Matrices whose values stand row after row, owned and borrowed.
ghost use Rattle.std.specs.Prelude.{◌≡◌, ◌*◌, ◌/◌, ◌<◌, ◌≤◌, ⊤, length, take, drop};
ghost use Rattle.mlu_ring.specs.Matrices.{AreRows, row_at};

use crate::row::row_of_width;
use std::alloc::AllocError;

/// A matrix that owns its values, row after row.
#[derive(Debug, PartialEq, Eq, Drop)]
pub struct RowMajorMatrix<F> {
    /// The values, row after row.
    pub values: Vec<F>,
    /// The number of values in a row, which divides their number; no values at width 0.
    pub width: usize,
    ghost rows: { AreRows (length values.items) width },
}

/// A matrix that borrows its values, row after row.
#[derive(Debug, PartialEq, Eq)]
pub struct RowMajorMatrixView<'a, F> {
    /// The values, row after row.
    pub values: &'a [F],
    /// The number of values in a row, which divides their number; no values at width 0.
    pub width: usize,
    ghost rows: { AreRows (length values.now) width },
}

/// The same view, never an error.
impl<F> Clone for RowMajorMatrixView<'_, F> {
    ghost is_clone = { λ a b. a ≡ b };

    ghost is_infallible = { λ _. ⊤ };

    fn clone(&self) -> Result<Self, AllocError> {
        Ok(*self)
    }
}

impl<F> Copy for RowMajorMatrixView<'_, F> {}

impl<F: Copy> RowMajorMatrix<F> {
    /// As [`RowMajorMatrixView::new`].
    pub fn new(values: Vec<F>, width: usize) -> Self
        requires { AreRows (length values.items) width }
        ensures values { result.values ≡ values }
        ensures width { result.width ≡ width }
    {
        RowMajorMatrix { values, width }
    }

    /// The matrix, borrowed.
    pub fn as_view(&self) -> RowMajorMatrixView<'_, F>
        ensures values { result.values.now ≡ self.now.values.items }
        ensures width { result.width ≡ self.now.width }
    {
        RowMajorMatrixView {
            values: self.values.as_slice(),
            width: self.width,
        }
    }

    /// The number of values in a row.
    pub fn width(&self) -> usize
        ensures { result ≡ self.now.width }
    {
        self.as_view().width()
    }

    /// As [`RowMajorMatrixView::height`].
    pub fn height(&self) -> usize
        ensures { result ≡ length self.now.values.items / self.now.width }
    {
        self.as_view().height()
    }

    /// As [`RowMajorMatrixView::row`].
    pub fn row(&self, i: usize) -> &[F]
        requires { i < length self.now.values.items / self.now.width }
        ensures { result.now ≡ row_at self.now.width self.now.values.items i }
    {
        self.as_view().row(i)
    }

    /// As [`RowMajorMatrixView::split_rows`].
    pub fn split_rows(&self, i: usize) -> (RowMajorMatrixView<'_, F>, RowMajorMatrixView<'_, F>)
        requires { i ≤ length self.now.values.items / self.now.width }
        ensures first { result.0.values.now ≡ take (i * self.now.width) self.now.values.items }
        ensures rest { result.1.values.now ≡ drop (i * self.now.width) self.now.values.items }
        ensures first_width { result.0.width ≡ self.now.width }
        ensures rest_width { result.1.width ≡ self.now.width }
    {
        self.as_view().split_rows(i)
    }
}

impl<'a, F: Copy> RowMajorMatrixView<'a, F> {
    /// The matrix with these values. Asks that the width divides their number, and that there are
    /// none at width 0.
    pub fn new(values: &'a [F], width: usize) -> Self
        requires { AreRows (length values.now) width }
        ensures values { result.values.now ≡ values.now }
        ensures width { result.width ≡ width }
    {
        RowMajorMatrixView { values, width }
    }

    /// The matrix of one column.
    pub fn new_col(values: &'a [F]) -> Self
        ensures values { result.values.now ≡ values.now }
        ensures width { result.width ≡ 1 }
    {
        RowMajorMatrixView { values, width: 1 }
    }

    /// The number of values in a row.
    pub fn width(&self) -> usize
        ensures { result ≡ self.now.width }
    {
        self.width
    }

    /// The number of rows, which is 0 at width 0.
    pub fn height(&self) -> usize
        ensures { result ≡ length self.now.values.now / self.now.width }
    {
        self.values.len().checked_div(self.width).unwrap_or(0)
    }

    /// Row `i`. Asks that `i` is below the height.
    pub fn row(&self, i: usize) -> &'a [F]
        requires { i < length self.now.values.now / self.now.width }
        ensures { result.now ≡ row_at self.now.width self.now.values.now i }
    {
        row_of_width(self.values, self.width, i)
    }

    /// The first `i` rows, and the rows from there on. Asks that `i` is at most the height.
    pub fn split_rows(&self, i: usize) -> (RowMajorMatrixView<'a, F>, RowMajorMatrixView<'a, F>)
        requires { i ≤ length self.now.values.now / self.now.width }
        ensures first { result.0.values.now ≡ take (i * self.now.width) self.now.values.now }
        ensures rest { result.1.values.now ≡ drop (i * self.now.width) self.now.values.now }
        ensures first_width { result.0.width ≡ self.now.width }
        ensures rest_width { result.1.width ≡ self.now.width }
    {
        let (first, rest) = self.values.split_at(i * self.width);
        (
            RowMajorMatrixView::new(first, self.width),
            RowMajorMatrixView::new(rest, self.width),
        )
    }
}
