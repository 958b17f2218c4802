//! What comes after the last row.
ghost use Rattle.std.specs.Prelude.{◌≡◌, ◌<◌};

/// The rule for the successor of an index: after each comes the next one, and after the last what
/// the rule says.
#[derive(Clone, Copy, Debug, PartialEq, Eq)]
pub enum Successor {
    /// The last index again: it is its own successor.
    RepeatLast,
    /// Index 0: the indexes go round.
    Wrap,
}

impl Successor {
    ghost use Rattle.mlu_point.specs.Rules.{after_last};

    /// The successor of the last of `count` indexes. Asks for one index or more.
    #[inline]
    pub fn after_last(self, count: usize) -> usize
        requires { 0 < count }
        ensures index { result ≡ after_last self count }
        ensures within { result < count }
    {
        match self {
            Successor::RepeatLast => count - 1,
            Successor::Wrap => 0,
        }
    }
}
