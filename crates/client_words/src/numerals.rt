//! Numbers as the server writes them: digits that no zero leads.

ghost use Rattle.std.specs.Prelude.{◌≡◌, ℕ, MatchOption, Some};
ghost use Rattle.line_words.specs.Numbers.{IsIssue, IsLongNumber};
ghost use Rattle.client_words.specs.StatementNumbers.{IsStatementNumber};

use line_words::numerals::{issue, long_number, number};

/// The number that the word writes: decimal digits without leading zeros, below 2^64; none exactly if it writes none.
pub fn whole_number(word: &[u8]) -> Option<u64>
    ensures found { MatchOption result ((n : ℕ) → IsLongNumber word.now n → ⊥) (IsLongNumber word.now) }
    ensures only { (n : ℕ) → IsLongNumber word.now n → result ≡ Some n }
{
    long_number(word)
}

/// The number of a node or an issue that the word writes: one that is not zero; none exactly if it writes none.
pub fn counting_number(word: &[u8]) -> Option<u64>
    ensures { MatchOption result ((n : ℕ) → IsIssue word.now n → ⊥) (IsIssue word.now) }
{
    issue(word)
}

/// The number of a statement that the word writes: one that is not zero, below 2^32; none exactly if it writes none.
pub fn statement_number(word: &[u8]) -> Option<u32>
    ensures { MatchOption result ((n : ℕ) → IsStatementNumber word.now n → ⊥) (IsStatementNumber word.now) }
{
    let number = number(word)?;
    if 1 <= number { Some(number) } else { None }
}
