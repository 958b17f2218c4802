//! Kernels for the benchmark in `bench/`, as C functions over words.
//!
//! Each makes elements of the words and repeats one operation on them, place by place, or one call
//! on tables and points of the base and of the extension of degree four.
//!
//! The functions of this file alone name the rings, and each as few of their traits as it can: all that these
//! stand on is proved anew at each such name.
#![tactic(auto)]

ghost use Rattle.std.specs.Prelude.{◌≡◌, length};

mod batches;
mod calls;
mod case;
mod compressions;
mod folds;
mod in_place;
mod kinds;
mod packed;
mod rounds;
mod sequences;
mod splits;
mod tables;
mod values;
mod words;

use crate::case::{Case, Operands};
use crate::kinds::sum_of_kind;
use crate::words::Words;
use mlu_ext::QuarticExtension;
use mlu_lanes::{BabyBear, Lanes};
use mlu_ring::place_by_place::{multiply_each, sub_each};
use mlu_ring::{PackedValue, PrimeCharacteristicRing};
use std::alloc::{AllocError, Global};

/// The width of the lanes.
const WIDTH: usize = 8;

type Element = BabyBear<8>;

type Packing = Lanes<Element, 8>;

type Extension = QuarticExtension<Element>;

/// A word each.
impl Words for Element {
    fn read(alloc: Global, words: &[u32]) -> Result<Vec<Self>, AllocError> {
        let mut elements = Vec::with_capacity(alloc, words.len())?;
        for word in words.iter() {
            elements.push(BabyBear::from_u32(*word))?;
        }
        Ok(elements)
    }
}

/// A word for each lane.
impl Words for Packing {
    fn read(alloc: Global, words: &[u32]) -> Result<Vec<Self>, AllocError> {
        let elements = Element::read(alloc, words)?;
        packings(alloc, elements.as_slice())
    }
}

/// The elements side by side, those after the last whole packing left out.
fn packings(alloc: Global, elements: &[Element]) -> Result<Vec<Packing>, AllocError> {
    let mut packings = Vec::new(alloc);
    for i in 0..elements.len() / WIDTH {
        packings.push(Packing::load(&elements[i * WIDTH..i * WIDTH + WIDTH]))?;
    }
    Ok(packings)
}

/// A word for each of the four coefficients.
impl Words for Extension {
    fn read(alloc: Global, words: &[u32]) -> Result<Vec<Self>, AllocError> {
        let mut elements = Vec::new(alloc);
        for i in 0..words.len() / 4 {
            elements.push(extension(&words[i * 4..i * 4 + 4]))?;
        }
        Ok(elements)
    }
}

/// The element with these four coefficients.
fn extension(words: &[u32]) -> Extension
    requires { length words.now ≡ 4 }
{
    QuarticExtension {
        c0: BabyBear::from_u32(words[0]),
        c1: BabyBear::from_u32(words[1]),
        c2: BabyBear::from_u32(words[2]),
        c3: BabyBear::from_u32(words[3]),
    }
}

/// Writes the words of the elements, as far as there is room.
fn write_elements(out: &mut [u32], elements: &[Element]) {
    for i in 0..out.len().min(elements.len()) {
        out[i] = elements[i].as_canonical_u32();
    }
}

/// Writes the word of the first lane of each, as far as there is room.
fn write_first_lanes(out: &mut [u32], packings: &[Packing]) {
    for i in 0..out.len().min(packings.len()) {
        out[i] = packings[i].lane(0).as_canonical_u32();
    }
}

/// Adds (0), takes away (1) or multiplies by (other numbers) `b`, so many times.
fn repeat<R: PrimeCharacteristicRing>(out: &mut [R], b: &[R], operation: u32, rounds: usize) {
    if out.len() != b.len() {
        return;
    }
    for _ in 0..rounds {
        match operation {
            0 => R::add_each(out, b),
            1 => sub_each(out, b),
            _ => multiply_each(out, b),
        }
    }
}

/// What the first words stand for, after so many operations with what the others stand for.
fn repeated<R: PrimeCharacteristicRing + Words>(
    alloc: Global,
    words: &[u32],
    b: &[u32],
    operation: u32,
    rounds: usize,
) -> Result<Vec<R>, AllocError> {
    let mut out = R::read(alloc, words)?;
    let b = R::read(alloc, b)?;
    repeat(out.as_mut_slice(), b.as_slice(), operation, rounds);
    Ok(out)
}

/// Repeats the operation on elements. Gives false where memory is refused.
#[unsafe(no_mangle)]
pub extern "C" fn mlu_bench_scalar(
    alloc: Global,
    out: &mut [u32],
    b: &[u32],
    operation: u32,
    rounds: usize,
) -> bool {
    let Ok(elements) = repeated::<Element>(alloc, out, b, operation, rounds) else {
        return false;
    };
    write_elements(out, elements.as_slice());
    true
}

/// Repeats the operation on packed elements. Gives false where memory is refused.
#[unsafe(no_mangle)]
pub extern "C" fn mlu_bench_lanes(
    alloc: Global,
    out: &mut [u32],
    b: &[u32],
    operation: u32,
    rounds: usize,
) -> bool {
    let Ok(packings) = repeated::<Packing>(alloc, out, b, operation, rounds) else {
        return false;
    };
    write_first_lanes(out, packings.as_slice());
    true
}

/// The tables and the points that the words stand for: four words a coefficient of the extension, and
/// of those of `entries`, `point` and `columns` the first quarter over the base.
fn case_of(
    alloc: Global,
    entries: &[u32],
    point: &[u32],
    columns: &[u32],
    scalars: &[u32],
) -> Result<Case<Element, Extension>, AllocError> {
    let scalars = Extension::read(alloc, scalars)?;
    let Some(scale) = scalars.first() else {
        return Err(AllocError);
    };
    let scale = *scale;
    let ext = Operands::read(alloc, entries, point, columns, scale)?;
    let (entries, point) = (&entries[..entries.len() / 4], &point[..point.len() / 4]);
    let columns = &columns[..columns.len() / 4];
    let base = Operands::read(alloc, entries, point, columns, scale.c0)?;
    Ok(Case { base, ext, scalars })
}

/// Writes the coefficients, and says whether there were any.
fn write(out: &mut [u32], answer: Result<Extension, AllocError>) -> bool {
    let Ok(sum) = answer else {
        return false;
    };
    write_elements(out, &[sum.c0, sum.c1, sum.c2, sum.c3]);
    true
}

/// Repeats the call with this number of this kind on what is made of the words before, and writes the
/// sum of an entry of what each call gives. Gives false where memory is refused or the sizes differ.
#[unsafe(no_mangle)]
pub extern "C" fn mlu_bench_call(
    alloc: Global,
    out: &mut [u32],
    entries: &[u32],
    point: &[u32],
    columns: &[u32],
    scalars: &[u32],
    kind: u32,
    call: u32,
    rounds: usize,
) -> bool {
    let Ok(case) = case_of(alloc, entries, point, columns, scalars) else {
        return false;
    };
    write(out, sum_of_kind(alloc, case, kind, call, rounds))
}
