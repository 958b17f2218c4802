//! Rows of slices and of matrices.
ghost use Rattle.std.specs.Prelude.{length};
ghost use Rattle.mlu_ring.specs.Matrices.{AreRows};

use mlu_ring::{RowMajorMatrix, RowMajorMatrixView, row_of, row_of_width, row_range};
use std::alloc::{AllocError, Global};
use std::test::Fail;

#[test]
fn rows_of_a_slice(rt: HostRuntime) {
    let values = [1u32, 2, 3, 4, 5, 6];
    assert_eq!(rt; row_of(&values, 3, 1), &[3, 4][..]);
    assert_eq!(rt; row_of(&values, 2, 1), &[4, 5, 6][..]);
    assert_eq!(rt; row_of_width(&values, 2, 2), &[5, 6][..]);
    let row = row_range(values.len(), 3, 2);
    assert_eq!(rt; &values[row], &[5, 6][..]);
    let none: [u32; 0] = [];
    assert!(rt; row_of(&none, 2, 1).is_empty());
}

#[test]
fn rows_of_a_matrix(rt: HostRuntime) -> Result<(), Fail> {
    let values = Vec::from_slice(rt.alloc(), &[1u32, 2, 3, 4, 5, 6])?;
    let matrix = RowMajorMatrix::new(values, 2);
    assert_eq!(rt; (matrix.width(), matrix.height()), (2, 3));
    assert_eq!(rt; matrix.row(1), &[3, 4][..]);
    let (first, rest) = matrix.split_rows(1);
    assert_eq!(rt; first.values, &[1, 2][..]);
    assert_eq!(rt; rest.row(1), &[5, 6][..]);
    assert_eq!(rt; rest.height(), 2);
    Ok(())
}

#[test]
fn a_column_and_no_column(rt: HostRuntime) {
    let column = RowMajorMatrixView::new_col(&[7u32, 8]);
    assert_eq!(rt; (column.width(), column.height()), (1, 2));
    assert_eq!(rt; column.row(1), &[8][..]);
    let none: RowMajorMatrixView<'_, u32> = RowMajorMatrixView::new(&[], 0);
    let (first, rest) = none.split_rows(0);
    assert_eq!(rt; first.height(), 0);
    assert!(rt; first == rest);
}

/// Whether these values are another matrix than the one given, owned and borrowed.
fn differs(
    alloc: Global,
    matrix: &RowMajorMatrix<u32>,
    values: &[u32],
    width: usize,
) -> Result<bool, AllocError>
    requires { AreRows (length values.now) width }
{
    let other = RowMajorMatrix::new(Vec::from_slice(alloc, values)?, width);
    Ok(*matrix != other && matrix.as_view() != other.as_view())
}

#[test]
fn matrices_that_differ(rt: HostRuntime) -> Result<(), Fail> {
    let square = RowMajorMatrix::new(Vec::from_slice(rt.alloc(), &[1u32, 2, 3, 4])?, 2);
    assert!(rt; square == square);
    assert!(rt; differs(rt.alloc(), &square, &[1, 2, 3, 4], 1)?);
    assert!(rt; differs(rt.alloc(), &square, &[1, 2, 3, 5], 2)?);
    Ok(())
}
