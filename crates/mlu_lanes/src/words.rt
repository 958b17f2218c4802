//! Vectors of words at any width: what std::simd gives, each operation with its clause for a lane.
ghost use Rattle.std.specs.Prelude.{◌≡◌, ℕ, ◌+◌, ◌-◌, ◌*◌, ◌/◌, ◌%◌, ◌^◌, ◌<◌, ◌≤◌, slice_index, min, bit_and};
ghost use Rattle.mlu_lanes.specs.Words.{AreEntries, IsColumn};

use std::simd::prelude::*;

/// The word in every lane.
#[inline]
pub fn splat<const W: usize>(word: u32) -> Simd<u32, W>
    ensures { (j : ℕ) → j < W → slice_index result j ≡ word }
{
    Simd::splat(word)
}

/// The word in each of four lanes, at twice its bits.
///
/// By way of its bytes in eight lanes: products read lower halves alone, so the compiler drops the
/// mask, and a word is spread as it is loaded.
#[inline]
pub fn spread(word: u32) -> Simd<u64, 4>
    ensures { (j : ℕ) → j < 4 → slice_index result j ≡ word }
{
    let words: Simd<u32, 8> = Simd::splat(word);
    lower_halves(Simd::<u64, 4>::from_le_bytes(words.to_le_bytes()))
}

/// The sums, which wrap round.
#[inline]
pub fn sums<const W: usize>(a: Simd<u32, W>, b: Simd<u32, W>) -> Simd<u32, W>
    ensures { (j : ℕ) → j < W → slice_index result j ≡ (slice_index a.entry j + slice_index b.entry j) % 2 ^ 32 }
{
    a + b
}

/// The differences, which wrap round.
#[inline]
pub fn differences<const W: usize>(a: Simd<u32, W>, b: Simd<u32, W>) -> Simd<u32, W>
    ensures { (j : ℕ) → j < W → slice_index result j ≡ (slice_index a.entry j + 2 ^ 32 - slice_index b.entry j) % 2 ^ 32 }
{
    a - b
}

/// The lesser word of each lane.
#[inline]
pub fn lane_min<const W: usize>(a: Simd<u32, W>, b: Simd<u32, W>) -> Simd<u32, W>
    ensures { (j : ℕ) → j < W → slice_index result j ≡ min (slice_index a.entry j) (slice_index b.entry j) }
{
    a.simd_min(b)
}

/// The lanes at twice their bits.
#[inline]
pub fn widened<const W: usize>(words: Simd<u32, W>) -> Simd<u64, W>
    ensures { (j : ℕ) → j < W → slice_index result j ≡ slice_index words.entry j }
{
    words.cast::<u64>()
}

/// The lanes at half of their bits. Asks that they fit.
#[inline]
pub fn narrowed<const W: usize>(words: Simd<u64, W>) -> Simd<u32, W>
    requires { (j : ℕ) → j < W → slice_index words j < 2 ^ 32 }
    ensures { (j : ℕ) → j < W → slice_index result j ≡ slice_index words.entry j }
{
    words.cast::<u32>()
}

/// The wide word in every lane.
#[inline]
pub fn wide_splat<const W: usize>(word: u64) -> Simd<u64, W>
    ensures { (j : ℕ) → j < W → slice_index result j ≡ word }
{
    Simd::splat(word)
}

/// The sums. Asks that they fit.
#[inline]
pub fn wide_sums<const W: usize>(a: Simd<u64, W>, b: Simd<u64, W>) -> Simd<u64, W>
    requires { (j : ℕ) → j < W → slice_index a j + slice_index b j < 2 ^ 64 }
    ensures { (j : ℕ) → j < W → slice_index result j ≡ slice_index a.entry j + slice_index b.entry j }
{
    a + b
}

/// The differences. Asks that none is negative.
#[inline]
pub fn wide_differences<const W: usize>(a: Simd<u64, W>, b: Simd<u64, W>) -> Simd<u64, W>
    requires { (j : ℕ) → j < W → slice_index b j ≤ slice_index a j }
    ensures { (j : ℕ) → j < W → slice_index result j ≡ slice_index a.entry j - slice_index b.entry j }
{
    a - b
}

/// The products of lanes that fit 32 bits, as this asks.
#[inline]
pub fn wide_products<const W: usize>(a: Simd<u64, W>, b: Simd<u64, W>) -> Simd<u64, W>
    requires { (j : ℕ) → j < W → (slice_index a j < 2 ^ 32) × (slice_index b j < 2 ^ 32) }
    ensures { (j : ℕ) → j < W → slice_index result j ≡ slice_index a.entry j * slice_index b.entry j }
{
    a * b
}

/// The lanes without their lowest bits. Asks for fewer than 64.
#[inline]
pub fn shifted_right<const W: usize>(words: Simd<u64, W>, bits: u64) -> Simd<u64, W>
    requires { bits < 64 }
    ensures { (j : ℕ) → j < W → slice_index result j ≡ slice_index words.entry j / 2 ^ bits }
{
    each_shifted_right(words, wide_splat(bits))
}

/// The lanes without their lowest bits, in each as many as its lane of `bits` says. Asks for fewer
/// than 64.
#[inline]
fn each_shifted_right<const W: usize>(words: Simd<u64, W>, bits: Simd<u64, W>) -> Simd<u64, W>
    requires { (j : ℕ) → j < W → slice_index bits j < 64 }
    ensures { (j : ℕ) → j < W → slice_index result j ≡ slice_index words.entry j / 2 ^ slice_index bits.entry j }
{
    words >> bits
}

/// The lower half of each lane.
#[inline]
pub fn lower_halves<const W: usize>(words: Simd<u64, W>) -> Simd<u64, W>
    ensures { (j : ℕ) → j < W → slice_index result j ≡ slice_index words.entry j % 2 ^ 32 }
{
    masked(words, wide_splat(4294967295))
}

/// The bits of each lane that its mask has too.
#[inline]
fn masked<const W: usize>(words: Simd<u64, W>, mask: Simd<u64, W>) -> Simd<u64, W>
    ensures { (j : ℕ) → j < W → slice_index result j ≡ bit_and (slice_index words.entry j) (slice_index mask.entry j) }
{
    words & mask
}

/// The words of both in turns: those of the first halves, and those of the last ones.
#[inline]
pub fn interleaved(a: Simd<u32, 4>, b: Simd<u32, 4>) -> (Simd<u32, 4>, Simd<u32, 4>)
    ensures first { AreEntries result.0 (slice_index a 0) (slice_index b 0) (slice_index a 1) (slice_index b 1) }
    ensures last { AreEntries result.1 (slice_index a 2) (slice_index b 2) (slice_index a 3) (slice_index b 3) }
{
    a.interleave(b)
}

/// Four rows of words as four columns.
#[inline]
pub fn transposed(
    rows: &(Simd<u32, 4>, Simd<u32, 4>, Simd<u32, 4>, Simd<u32, 4>),
) -> (Simd<u32, 4>, Simd<u32, 4>, Simd<u32, 4>, Simd<u32, 4>)
    ensures first { IsColumn result.0 rows.now.0 rows.now.1 rows.now.2 rows.now.3 0 }
    ensures second { IsColumn result.1 rows.now.0 rows.now.1 rows.now.2 rows.now.3 1 }
    ensures third { IsColumn result.2 rows.now.0 rows.now.1 rows.now.2 rows.now.3 2 }
    ensures fourth { IsColumn result.3 rows.now.0 rows.now.1 rows.now.2 rows.now.3 3 }
{
    let (even_low, even_high) = interleaved(rows.0, rows.2);
    let (odd_low, odd_high) = interleaved(rows.1, rows.3);
    let (first, second) = interleaved(even_low, odd_low);
    let (third, fourth) = interleaved(even_high, odd_high);
    (first, second, third, fourth)
}
