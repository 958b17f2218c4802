//! A table in two halves: `eq0`, a slice, and `eq1`, scalar or packed weights.
//!
//! Entry `x` of the table is `eq0[x / n] * w[x % n]`, where `w` are the `n` weights of `eq1`. None of the
//! calls takes memory: dots and compressions keep up to 2048 elements, 1024 packed places or 1280 packed
//! values of the base on the stack, where these are small ([`mlu_kernel::small`]).

pub(crate) mod accumulate;
mod constants;
mod dot;
mod elements;
mod prefix;
pub mod runs;
mod shifted;
mod suffix;
mod whole;

pub use accumulate::{accumulate_into, accumulate_into_packed};
pub use dot::{dot_base, dot_ext, dot_packed};
pub use prefix::{compress_prefix_into, compress_prefix_to_packed_into};
pub use shifted::{compress_prefix_shifted_into, dot_base_shifted};
pub use suffix::{compress_suffix_into, compress_suffix_shifted_into};
pub use whole::append_entries;
