//! Lists of elements as words: read from them, and written as a line.
ghost use Rattle.std.specs.Prelude.{◌≡◌, ◌++◌, ◌∷◌, [], flat_map, length, MatchOption, IfOk, IsTrue, ◌↔◌};
ghost use Rattle.mlu_command.specs.Words.{text, line_of, lines_of, decimal_of, IsTextOf, IsNoList, IsNoDecimal, HasPlainStart};

use crate::element::Element;
use mlu_lanes::MODULUS;
use std::alloc::{AllocError, Global};
use std::fmt::Write;

/// The word of the empty list.
const NONE: &str = "-";

/// Whether the word begins as decimals do: with no plus sign, nor a zero before other digits.
fn has_plain_start(word: &str) -> bool
    ensures { IsTrue result ↔ HasPlainStart word.now }
{
    !word.starts_with('+') && (word.len() == 1 || !word.starts_with('0'))
}

/// The element whose decimal the word is, and `None` exactly where it is the decimal of no element.
pub fn number(word: &str) -> Option<Element>
    ensures { MatchOption result (IsNoDecimal word.now) (λ x. decimal_of x ≡ word.now) }
{
    // `parse` takes a plus sign and leading zeros too.
    if !has_plain_start(word) {
        return None;
    }
    match word.parse::<u32>() {
        Ok(value) if value < MODULUS => Some(Element::from_u32(value)),
        _ => None,
    }
}

/// The number of entries of the list that the word writes, and `None` exactly where it writes none.
/// Takes no memory.
pub fn count(word: &str) -> Option<usize>
    ensures { MatchOption result (IsNoList word.now) (λ n. IsTextOf n word.now) }
{
    if word == NONE {
        return Some(0);
    }
    let mut n = 0;
    for piece in word.split(',') {
        number(piece)?;
        n += 1;
    }
    Some(n)
}

/// The list that the word writes. Asks for a word that writes one, and for its number of entries.
///
/// # Errors
/// Where memory is refused.
pub fn read(alloc: Global, word: &str, n: usize) -> Result<Vec<Element>, AllocError>
    requires { IsTextOf n word.now }
    ensures text { IfOk result (λ list. text list.items ≡ word.now) }
    ensures size { IfOk result (λ list. length list.items ≡ n) }
{
    let mut list = Vec::with_capacity(alloc, n)?;
    if word == NONE {
        return Ok(list);
    }
    for piece in word.split(',') {
        list.push(number(piece).unwrap())?;
    }
    Ok(list)
}

/// The line of a list: its text and a line feed.
///
/// # Errors
/// Where memory is refused.
pub fn line(alloc: Global, list: &[Element]) -> Result<Vec<u8>, AllocError>
    ensures { IfOk result (λ bytes. bytes.items ≡ line_of list.now) }
{
    let Some((first, rest)) = list.split_first() else {
        return format!(in alloc; "{NONE}\n").map(String::into_bytes);
    };
    let value = first.as_canonical_u32();
    let mut text = format!(in alloc; "{value}")?;
    for x in rest {
        let value = x.as_canonical_u32();
        write!(text, ",{value}")?;
    }
    text.push('\n')?;
    Ok(text.into_bytes())
}

/// A line for each element.
///
/// # Errors
/// Where memory is refused.
pub fn lines(alloc: Global, elements: &[Element]) -> Result<Vec<u8>, AllocError>
    ensures { IfOk result (λ bytes. bytes.items ≡ lines_of elements.now) }
{
    let mut text = String::new(alloc);
    for x in elements {
        let value = x.as_canonical_u32();
        writeln!(text, "{value}")?;
    }
    Ok(text.into_bytes())
}

/// A line for each round, and one for the last claim.
///
/// # Errors
/// Where memory is refused.
pub fn proof_lines(
    alloc: Global,
    rounds: Vec<[Element; 3]>,
    last: Element,
) -> Result<Vec<u8>, AllocError>
    ensures { IfOk result (λ bytes. bytes.items ≡ flat_map line_of rounds.items ++ line_of (last ∷ [])) }
{
    let mut bytes = Vec::new(alloc);
    for round in rounds {
        let line = line(alloc, &round)?;
        bytes.extend_from_slice(&line)?;
    }
    let line = line(alloc, &[last])?;
    bytes.extend_from_slice(&line)?;
    Ok(bytes)
}
