//! Worked values of what `mlu_ring` has without a ring: logarithms, rows of slices and of matrices.
mod logarithms;
mod rows;
