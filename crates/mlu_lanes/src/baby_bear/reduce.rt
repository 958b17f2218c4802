//! Residues of words, with no division.
ghost use Rattle.std.specs.Prelude.{◌≡◌, ◌*◌, ◌<◌, ◌^◌, ◌%◌};

use super::MODULUS;

/// 2^62 over the modulus, rounded down.
pub const RECIPROCAL: u64 = 2290649223;

/// The residue of `x`. Asks that `x` is below twice the modulus.
///
/// Where `x` is below the modulus, the difference wraps round and is the greater one.
#[inline]
pub fn reduce_once(x: u32) -> u32
    requires { x < 2 * MODULUS }
    ensures { result ≡ x % MODULUS }
{
    x.min(x.wrapping_sub(MODULUS))
}

/// The residue of `x`, with no division. Asks that `x` is below `2^62`, as a product of two
/// residues is.
///
/// `quotient` is the quotient or one less. The remainder by 2^32 takes nothing away: it says that
/// 32 bits are enough, and lanes of them can be multiplied at a time.
#[inline]
pub fn reduce_product(x: u64) -> u32
    requires { x < 2 ^ 62 }
    ensures { result ≡ x % MODULUS }
{
    let quotient = ((x >> 30) % 4294967296) * RECIPROCAL >> 32;
    reduce_once((x - quotient * u64::from(MODULUS)) as u32)
}

/// The residue of any word, with no division: a sum of four products of two residues is one.
///
/// `2^32` is `2^28 - 2` modulo the modulus, which folds `x` to `folded` below `2^60`. `quotient` is
/// that of `folded` or one less, and the remainder by 2^32 is as above.
#[inline]
pub fn reduce_word(x: u64) -> u32
    ensures { result ≡ x % MODULUS }
{
    let high = x >> 32;
    let folded = ((high << 28) - (high << 1)) + x % 4294967296;
    let quotient = ((folded >> 28) % 4294967296) * RECIPROCAL >> 34;
    reduce_once((folded - quotient * u64::from(MODULUS)) as u32)
}
