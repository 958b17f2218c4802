//! Whether elements are small enough for arrays on the stack. For the split tables of `mlu_eq`, not
//! for users of the library.
ghost use Rattle.std.specs.Prelude.{◌<◌, ◌↔◌, IsTrue};
ghost use Rattle.std.specs.Mem.{type_size};

use crate::basis_split::{MOST_COEFFICIENTS, MOST_WEIGHTS};

/// The bytes that an element must stay below, so that what the kernels keep on the stack takes
/// less than two megabytes. Packed residues of eight lanes have 32 bytes.
pub const SMALL_BYTES: usize = 1024;

const _: () = prove!((MOST_COEFFICIENTS + 2) * MOST_WEIGHTS * SMALL_BYTES < 2 << 20);

/// Whether a value takes few bytes: a constant, once the type is known.
#[inline]
pub fn is_small<T>(x: &T) -> bool
    ensures { IsTrue result ↔ (type_size T.row < SMALL_BYTES) }
{
    std::mem::size_of_val(x) < SMALL_BYTES
}
