//! Lists of given values.
ghost use Rattle.std.specs.Prelude.{◌≡◌, IfOk, length, vec_len};

use mlu_ring::Additive;
use std::alloc::{AllocError, Global};

/// `n` times the value.
pub fn filled<T: Additive>(alloc: Global, value: T, n: usize) -> Result<Vec<T>, AllocError>
    ensures { IfOk result (λ values. vec_len values ≡ n) }
{
    let mut values = Vec::with_capacity(alloc, n)?;
    values.resize(n, value)?;
    Ok(values)
}

/// Two values, in order.
pub fn pair<T: Copy>(alloc: Global, first: T, second: T) -> Result<Vec<T>, AllocError>
    ensures { IfOk result (λ pair. length pair.items ≡ 2) }
{
    let mut pair = Vec::new(alloc);
    pair.push(first)?;
    pair.push(second)?;
    Ok(pair)
}
