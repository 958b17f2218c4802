//! Elements as words: read from them, and written as them.
ghost use Rattle.std.specs.Prelude.{◌≡◌, ◌⊎◌, ◌++◌, ◌<◌, ℕ, List, decimal, string_bytes, IfOk, MatchOption};
ghost use Rattle.mlu_lanes.specs.BabyBear.{canonical};
ghost use Rattle.mlu_lanes.specs.WrappingU64.{number};
ghost use Rattle.mlu_lanes.specs.BabyBear.{baby_bear_ring};
ghost use Rattle.mlu_ext.specs.Product.{diagonal, entries_of};
ghost use Rattle.mlu_ext.specs.Quartic.{constant, quartic_coefficients};
ghost use Rattle.mlu_replay_calls.specs.Elements.{AreCoefficients, IsImage, IsWrittenBetween, ReadsCoefficients};

use crate::decimals::decimal;
use mlu_ext::{ProductAlgebra, QuarticExtension};
use mlu_lanes::{BabyBear, MODULUS, WrappingU64};
use mlu_ring::{Additive, Algebra};
use std::alloc::AllocError;
use std::fmt::Write;

/// Elements that have words.
pub trait Element: Additive {
    /// Which words stand for which elements.
    ghost stands: { List ℕ → Self → Type 0 };

    /// The element that the word stands for, and `None` exactly where it stands for none.
    fn read(word: &str) -> Option<Self>
        ensures { MatchOption result ((x : Self) → stands word.now x → ⊥) (λ x. stands word.now x) };

    /// Appends a word that stands for it.
    ///
    /// # Errors
    /// Where memory is refused.
    fn write(self, text: &mut String) -> Result<(), AllocError>
        ensures { IfOk result (λ _. (word : List ℕ) × stands word self × (string_bytes text.new ≡ string_bytes text.old ++ word)) };
}

impl<const W: usize> Element for BabyBear<W> {
    ghost stands = { λ word x. decimal (canonical x) ≡ word };

    fn read(word: &str) -> Option<Self> {
        let value = decimal(word)?;
        if value >= u64::from(MODULUS) {
            return None;
        }
        Some(BabyBear::from_u32(value as u32))
    }

    fn write(self, text: &mut String) -> Result<(), AllocError> {
        let value = self.as_canonical_u32();
        write!(text, "{value}")
    }
}

impl<const W: usize> Element for WrappingU64<W> {
    ghost stands = { λ word x. decimal (number x) ≡ word };

    fn read(word: &str) -> Option<Self> {
        let value = decimal(word)?;
        Some(WrappingU64::new(value))
    }

    fn write(self, text: &mut String) -> Result<(), AllocError> {
        let value = self.value();
        write!(text, "{value}")
    }
}

/// Four coefficients between colons; a lone one stands for the constant.
impl<const W: usize> Element for QuarticExtension<BabyBear<W>> {
    ghost stands = { λ word x. AreCoefficients word (quartic_coefficients x) ⊎ IsImage (constant (baby_bear_ring W).zero) word x };

    fn read(word: &str) -> Option<Self> {
        if let Some(constant) = BabyBear::<W>::read(word) {
            return Some(QuarticExtension::from_base(constant));
        }
        let [c0, c1, c2, c3] = read_coefficients::<W, 4>(word)?;
        Some(QuarticExtension::new(c0, c1, c2, c3))
    }

    fn write(self, text: &mut String) -> Result<(), AllocError> {
        write_between(&[self.c0, self.c1, self.c2, self.c3], ':', text)
    }
}

/// `D` entries between colons; a lone one stands for its copies, so each does where `D` is zero.
impl<const W: usize, const D: usize> Element for ProductAlgebra<BabyBear<W>, D> {
    ghost stands = { λ word x. AreCoefficients word (entries_of x) ⊎ IsImage (diagonal D) word x };

    fn read(word: &str) -> Option<Self> {
        if let Some(copied) = BabyBear::<W>::read(word) {
            return Some(ProductAlgebra::from_base(copied));
        }
        let entries = read_coefficients::<W, D>(word)?;
        Some(ProductAlgebra::from_array(entries))
    }

    fn write(self, text: &mut String) -> Result<(), AllocError> {
        if D == 0 {
            return BabyBear::<W>::ZERO.write(text);
        }
        write_between(&self.to_array(), ':', text)
    }
}

/// The residues between colons, and `None` exactly where they are not so many or one is none.
fn read_coefficients<const W: usize, const D: usize>(word: &str) -> Option<[BabyBear<W>; D]>
    ensures { ReadsCoefficients D word.now result }
{
    let mut coefficients = [BabyBear::ZERO; D];
    let mut count = 0;
    for piece in word.split(':') {
        if count == D {
            return None;
        }
        coefficients[count] = BabyBear::read(piece)?;
        count += 1;
    }
    if count == D { Some(coefficients) } else { None }
}

/// Appends the words of the elements, with a separator between, which is ASCII.
///
/// # Errors
/// Where memory is refused.
pub fn write_between<T: Element>(
    list: &[T],
    separator: char,
    text: &mut String,
) -> Result<(), AllocError>
    requires { separator < 128 }
    ensures { IfOk result (λ _. IsWrittenBetween T.stands separator (string_bytes text.old) (string_bytes text.new) list.now) }
{
    let Some((first, rest)) = list.split_first() else {
        return Ok(());
    };
    first.write(text)?;
    for x in rest {
        text.push(separator)?;
        x.write(text)?;
    }
    Ok(())
}
