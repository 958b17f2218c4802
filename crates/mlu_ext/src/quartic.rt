//! Polynomials modulo X^4 - 11.
mod algebra;
mod field;
mod packed;
mod ring;
mod trivial_extension;

/// `c0 + c1 X + c2 X^2 + c3 X^3`, where `X^4` is 11.
///
/// A ring over any ring `R`, so over packed values of it too. Over `BabyBear<W>` it is a field of
/// the library, of 16 bytes an element, packed by itself in one lane; at the widths of a packing
/// also an extension of `BabyBear<W>` with the four coefficients, packed as
/// `QuarticExtension<Lanes<BabyBear<W>, W>>`.
#[derive(Clone, Copy, Debug, PartialEq, Eq)]
pub struct QuarticExtension<R> {
    /// The coefficient of 1.
    pub c0: R,
    /// The coefficient of X.
    pub c1: R,
    /// The coefficient of X^2.
    pub c2: R,
    /// The coefficient of X^3.
    pub c3: R,
}
