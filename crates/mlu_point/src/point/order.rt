//! The two orders of a table.

/// Which end of a point reads the lowest bit of a table's index.
#[derive(Clone, Copy, Debug, PartialEq, Eq)]
pub enum BitOrder {
    /// Coordinate 0 reads the highest bit.
    Msb,
    /// Coordinate 0 reads the lowest bit.
    Lsb,
}
