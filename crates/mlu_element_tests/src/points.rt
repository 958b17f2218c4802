//! What neither the sweep nor a line of the replay tries: parts, copies, growth and draws of points, tables whose
//! products are counted, the index after the last by each rule, and what `{:?}` prints.
pub mod coordinates;
pub mod tables;
mod texts;

use crate::rings::RingRow::Coordinates;
use crate::rings::Row::{CountedTables, Ring};
use crate::rings::{PairRow, nine_copies, pairs, quartics, residues, words};
use mlu_point::point::Successor;
use std::test::Fail;

#[test]
fn coordinates_of_points(rt: HostRuntime) -> Result<(), Fail> {
    assert!(rt; residues::<4>(rt.alloc(), Ring(Coordinates))?);
    assert!(rt; residues::<8>(rt.alloc(), Ring(Coordinates))?);
    assert!(rt; words::<4>(rt.alloc(), Coordinates)?);
    assert!(rt; quartics(rt.alloc(), Ring(Coordinates))?);
    assert!(rt; nine_copies(rt.alloc(), Ring(Coordinates))?);
    assert!(rt; pairs(rt.alloc(), PairRow::Coordinates)?);
    Ok(())
}

#[test]
fn tables_with_counted_products(rt: HostRuntime) -> Result<(), Fail> {
    assert!(rt; residues::<1>(rt.alloc(), CountedTables)?);
    assert!(rt; residues::<2>(rt.alloc(), CountedTables)?);
    assert!(rt; residues::<4>(rt.alloc(), CountedTables)?);
    assert!(rt; quartics(rt.alloc(), CountedTables)?);
    Ok(())
}

#[test]
fn after_the_last_of_four(rt: HostRuntime) {
    assert_eq!(rt; Successor::RepeatLast.after_last(4), 3);
    assert_eq!(rt; Successor::Wrap.after_last(4), 0);
}
