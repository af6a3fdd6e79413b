//! Numbers, files and seconds in the words of a line.

ghost use Rattle.std.specs.Prelude.{◌≡◌, ◌↔◌, ◌≤◌, ℕ, ℤ, length, IsTrue, MatchOption};
ghost use Rattle.std.specs.List.{list_all};
ghost use Rattle.std.specs.Str.Parse.{digits_value};
ghost use Rattle.bl_syntax.specs.Names.{is_digit};
ghost use Rattle.bl_syntax.specs.declared.terms.NodeId.{NodeId};
ghost use Rattle.line_words.specs.Numbers.{IsSecond, IsFile, IsNumber, IsLongNumber, IsCount, IsIssue};
ghost use Rattle.line_words.specs.Numerals.{IsPlain};

use bl_syntax::byte_classes::is_digit;
use bl_syntax::limits::MOST_BYTES_AT_ONCE;
use bl_syntax::{NodeId, TimePoint};
use bl_tokens::parse_time;
use line_text::rest_after;

fn are_digits(bytes: &[u8]) -> bool
    ensures { result ≡ list_all is_digit bytes.now }
{
    bytes.iter().all(|byte| is_digit(*byte))
}

// Whether the word is at most 20 digits that no zero leads.
fn is_plain(word: &[u8]) -> bool
    ensures { IsTrue result ↔ IsPlain word.now }
{
    1 <= word.len() && word.len() <= 20 && are_digits(word) && (word.len() == 1 || word[0] != b'0')
}

fn digits_value(digits: &[u8]) -> u128
    requires digits { IsTrue (list_all is_digit digits.now) }
    requires few { length digits.now ≤ 20 }
    ensures { result ≡ digits_value 10 digits.now }
{
    let mut value = 0;
    for byte in digits {
        value = value * 10 + u128::from(*byte - b'0');
    }
    value
}

/// The second that the word writes: in up to 18 digits, with a `-` before them for a time before 1970-01-01T00:00:00Z, as
/// the date that begins with it, or as a date with a time of day; in the years 1 to 9999.
pub fn second(word: &[u8]) -> Option<i64>
    ensures found { MatchOption result ((s : ℤ) → IsSecond word.now s → ⊥) (IsSecond word.now) }
    ensures only { (s : ℤ) → IsSecond word.now s → result ≡ Some s }
{
    match parse_time(word) {
        Ok(TimePoint::At(second)) => Some(second),
        _ => None,
    }
}

/// The number that the word writes: decimal digits without leading zeros, below 2^32.
pub fn number(word: &[u8]) -> Option<u32>
    ensures found { MatchOption result ((n : ℕ) → IsNumber word.now n → ⊥) (IsNumber word.now) }
    ensures only { (n : ℕ) → IsNumber word.now n → result ≡ Some n }
{
    if !is_plain(word) {
        return None;
    }
    u32::try_from(digits_value(word)).ok()
}

/// The number of an issue that the word writes: a number from 1, below 2^64.
pub fn issue(word: &[u8]) -> Option<u64>
    ensures { MatchOption result ((n : ℕ) → IsIssue word.now n → ⊥) (IsIssue word.now) }
{
    let number = long_number(word)?;
    if 1 <= number { Some(number) } else { None }
}

/// The number that the word writes: decimal digits without leading zeros, below 2^64.
pub fn long_number(word: &[u8]) -> Option<u64>
    ensures found { MatchOption result ((n : ℕ) → IsLongNumber word.now n → ⊥) (IsLongNumber word.now) }
    ensures only { (n : ℕ) → IsLongNumber word.now n → result ≡ Some n }
{
    if !is_plain(word) {
        return None;
    }
    u64::try_from(digits_value(word)).ok()
}

/// The number of bytes to be read at once that the word writes, at most 65,536.
pub fn count(word: &[u8]) -> Option<u64>
    ensures { MatchOption result ((n : ℕ) → IsCount word.now n → ⊥) (IsCount word.now) }
{
    let number = long_number(word)?;
    if number <= MOST_BYTES_AT_ONCE as u64 {
        Some(number)
    } else {
        None
    }
}

/// The node that the word writes: a `#` and its number.
pub fn file(word: &[u8]) -> Option<NodeId>
    ensures found { MatchOption result ((n : NodeId) → IsFile word.now n → ⊥) (IsFile word.now) }
    ensures only { (n : NodeId) → IsFile word.now n → result ≡ Some n }
{
    let digits = rest_after(word, b"#")?;
    Some(NodeId(long_number(digits)?))
}
