//! Elements read from words, and written as words.
ghost use Rattle.std.specs.Prelude.{◌≡◌, ◌*◌, length, IfOk};
ghost use Rattle.mlu_words.specs.Codings.{Coding, IsCoding, element_count, elements_of, words_of};
ghost use Rattle.mlu_words.specs.Rings.{residue, coefficients};
ghost use Rattle.mlu_words.specs.CodingLaws.{residue_is_coding, coefficients_is_coding};

use mlu_ext::QuarticExtension;
use mlu_lanes::BabyBear;
use mlu_ring::row_of_width;
use std::alloc::{AllocError, Global};

/// Elements that stand in words: so many least residues each.
pub trait Words: Copy {
    ghost coding: { Coding Self };

    /// The number of words of an element.
    fn width() -> usize
        ensures { result ≡ coding.width };

    /// The element that the words stand for. Asks for those of one.
    fn from_words(words: &[u32]) -> Self
        requires { length words.now ≡ coding.width }
        ensures { result ≡ coding.element words.now };

    /// Writes the words. Asks for room for those of one.
    fn put(self, out: &mut [u32])
        requires { length out.old ≡ coding.width }
        ensures { out.new ≡ coding.words self };

    ghost is_coding: { IsCoding coding };
}

impl<const W: usize> Words for BabyBear<W> {
    ghost coding = { residue W };

    #[inline]
    fn width() -> usize {
        1
    }

    #[inline]
    fn from_words(words: &[u32]) -> Self {
        BabyBear::from_u32(words[0])
    }

    #[inline]
    fn put(self, out: &mut [u32]) {
        out[0] = self.as_canonical_u32();
    }

    ghost is_coding = { residue_is_coding W };
}

impl<const W: usize> Words for QuarticExtension<BabyBear<W>> {
    ghost coding = { coefficients W };

    #[inline]
    fn width() -> usize {
        4
    }

    #[inline]
    fn from_words(words: &[u32]) -> Self {
        QuarticExtension {
            c0: BabyBear::from_u32(words[0]),
            c1: BabyBear::from_u32(words[1]),
            c2: BabyBear::from_u32(words[2]),
            c3: BabyBear::from_u32(words[3]),
        }
    }

    #[inline]
    fn put(self, out: &mut [u32]) {
        out[0] = self.c0.as_canonical_u32();
        out[1] = self.c1.as_canonical_u32();
        out[2] = self.c2.as_canonical_u32();
        out[3] = self.c3.as_canonical_u32();
    }

    ghost is_coding = { coefficients_is_coding W };
}

/// The elements that the words stand for; words after the last whole element are not read.
///
/// # Errors
/// Where memory is refused.
pub fn read<T: Words>(alloc: Global, words: &[u32]) -> Result<Vec<T>, AllocError>
    ensures elements { IfOk result (λ elements. elements.items ≡ elements_of T.coding words.now) }
    ensures size { IfOk result (λ elements. length elements.items ≡ element_count T.coding words.now) }
{
    let width = T::width();
    let count = words.len() / width;
    let mut elements = Vec::with_capacity(alloc, count)?;
    for j in 0..count {
        elements.push(T::from_words(row_of_width(words, width, j)))?;
    }
    Ok(elements)
}

/// Writes the words of the elements. Asks for room for them.
pub fn write<T: Words>(elements: &[T], out: &mut [u32])
    requires { length out.old ≡ length elements.now * T.coding.width }
    ensures { out.new ≡ words_of T.coding elements.now }
{
    let width = T::width();
    for (i, element) in elements.iter().enumerate() {
        let start = i * width;
        element.put(&mut out[start..start + width]);
    }
}
