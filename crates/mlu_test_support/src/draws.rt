//! Drawn elements.
ghost use Rattle.std.specs.Prelude.{◌≡◌, IfOk, vec_len};

use mlu_ring::Sample;
use rand_pcg::Pcg32;
use std::alloc::{AllocError, Global};

/// `n` drawn elements.
pub fn drawn<T: Sample + Copy>(
    alloc: Global,
    rng: &mut Pcg32,
    n: usize,
) -> Result<Vec<T>, AllocError>
    ensures { IfOk result (λ values. vec_len values ≡ n) }
{
    let mut values = Vec::with_capacity(alloc, n)?;
    while values.len() < n {
        values.push(T::sample(rng))?;
    }
    Ok(values)
}
