//! Elements drawn at random.
use rand::RngExt;

/// Elements that a generator of random numbers can draw. Which one comes is not promised.
pub trait Sample: Sized {
    /// Draws an element.
    fn sample<R: RngExt>(rng: &mut R) -> Self;
}
