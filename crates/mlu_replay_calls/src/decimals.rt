//! Numbers as words.
ghost use Rattle.std.specs.Prelude.{◌≡◌, ◌↔◌, decimal, IsTrue, MatchOption};
ghost use Rattle.mlu_replay_calls.specs.Words.{HasPlainStart, IsNoDecimal};

/// Whether the word begins as decimals do: with no plus sign, nor a zero before other digits.
fn has_plain_start(word: &str) -> bool
    ensures { IsTrue result ↔ HasPlainStart word.now }
{
    !word.starts_with('+') && (word.len() == 1 || !word.starts_with('0'))
}

/// The number below 2^64 of which the word is the decimal, without a sign or leading zeros, and `None`
/// exactly where it is that of none.
pub fn decimal(word: &str) -> Option<u64>
    ensures { MatchOption result (IsNoDecimal word.now) (λ n. decimal n ≡ word.now) }
{
    // `parse` takes a plus sign and leading zeros too.
    if !has_plain_start(word) {
        return None;
    }
    word.parse::<u64>().ok()
}
