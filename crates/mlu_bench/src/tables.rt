//! Equality tables of a point, over any ring.

use crate::calls::Calls;
use crate::case::{first, first_of, is_small};
use mlu_ring::Field;
use multilinear_util::point::Point;
use multilinear_util::poly::Poly;
use std::alloc::{AllocError, Global};

/// The table with coordinate 0 at the highest bit (0) and at the lowest (1), and the polynomial of the
/// weights times `r` (2).
#[derive(Drop)]
pub struct TableCalls<'a, R: Field> {
    pub point: &'a Point<R>,
    pub r: R,
}

impl<R: Field> Calls for TableCalls<'_, R> {
    type Entry = R;

    fn answer(&mut self, alloc: Global, call: u32) -> Result<R, AllocError> {
        if !is_small(self.point.as_slice()) {
            return Err(AllocError);
        }
        if call == 2 {
            return first_of(Poly::new_from_point(alloc, self.point.as_slice(), self.r));
        }
        let table = match call {
            0 => self.point.equality_weights_msb(alloc),
            _ => self.point.equality_weights_lsb(alloc),
        };
        Ok(first(table?.as_slice()))
    }
}
