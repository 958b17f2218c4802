//! Tests of operands: their sizes, and whether their words are residues.
ghost use Rattle.std.specs.Prelude.{◌≡◌, ◌↔◌, ◌*◌, ◌^◌, IsTrue};
ghost use Rattle.mlu_words.specs.Codings.{AreResidues, element_count};
ghost use Rattle.mlu_words.specs.Operands.{ArePoints};
ghost use Rattle.mlu_words.specs.Sizes.{AreWhole, IsOne, IsTable};

use crate::words::Words;
use mlu_lanes::MODULUS;

/// How many elements the words are.
pub fn count_of<T: Words>(words: &[u32]) -> usize
    ensures { result ≡ element_count T.coding words.now }
{
    words.len() / T::width()
}

/// Whether the words are those of whole elements.
pub fn are_whole<T: Words>(words: &[u32]) -> bool
    ensures { IsTrue result ↔ AreWhole T.coding words.now }
{
    words.len() % T::width() == 0
}

/// Whether the words are those of one element.
pub fn is_one<T: Words>(words: &[u32]) -> bool
    ensures { IsTrue result ↔ IsOne T.coding words.now }
{
    words.len() == T::width()
}

/// Whether the words are those of a power of two of elements.
pub fn is_table<T: Words>(words: &[u32]) -> bool
    ensures { IsTrue result ↔ IsTable T.coding words.now }
{
    are_whole::<T>(words) && count_of::<T>(words).is_power_of_two()
}

/// Whether `entries` is `2^variables`.
pub fn has_variables(entries: usize, variables: usize) -> bool
    ensures { IsTrue result ↔ (entries ≡ 2 ^ variables) }
{
    variables < usize::BITS as usize && entries == 1 << variables
}

/// Whether `entries` is `2^variables * width`.
pub fn has_rows(entries: usize, variables: usize, width: usize) -> bool
    ensures { IsTrue result ↔ (entries ≡ 2 ^ variables * width) }
{
    if variables >= usize::BITS as usize {
        return width == 0 && entries == 0;
    }
    (1_usize << variables).checked_mul(width) == Some(entries)
}

/// Whether `values` is a whole number of coordinates for each of the points, and `entries` a table
/// with as many variables; with no points there are no values, and any entries do.
pub fn has_points(values: usize, points: usize, entries: usize) -> bool
    ensures { IsTrue result ↔ ArePoints values points entries }
{
    if points == 0 {
        return values == 0;
    }
    values % points == 0 && has_variables(entries, values / points)
}

/// Whether all words are residues.
pub fn are_residues(words: &[u32]) -> bool
    ensures { IsTrue result ↔ AreResidues words.now }
{
    words.iter().all(|word| *word < MODULUS)
}
